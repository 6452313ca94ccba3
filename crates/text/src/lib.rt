#![tactic(auto)]

ghost use Rattle.std.specs.Prelude.{◌≡◌};
ghost use Rattle.text.specs.Text.{pending, lead_of, step_of, is_text};

// What has to follow in a text: so many more bytes of a sequence, the next of them from low to high. With none of them a sequence may begin.
#[derive(Clone, Copy)]
pub struct Pending {
    pub count: u8,
    pub low: u8,
    pub high: u8,
}

impl Pending {
    // So many more bytes, the next of them from low to high.
    fn new(count: u8, low: u8, high: u8) -> Pending
        ensures { result ≡ pending count low high }
    {
        Pending { count, low, high }
    }
}

// "The kind of a UTF-8 sequence is decided by ranges of its first byte": how many bytes follow it, and the bounds of the second.
#[tactic(auto, unfolding(crate::specs::Text::lead_of, crate::specs::Text::range_of, crate::specs::Text::table))]
pub fn lead(b: u8) -> Option<Pending>
    ensures { result ≡ lead_of b }
{
    match b {
        0x00..=0x7f => Some(Pending::new(0, 0x80, 0xbf)),
        0xc2..=0xdf => Some(Pending::new(1, 0x80, 0xbf)),
        0xe0 => Some(Pending::new(2, 0xa0, 0xbf)),
        0xe1..=0xec => Some(Pending::new(2, 0x80, 0xbf)),
        0xed => Some(Pending::new(2, 0x80, 0x9f)),
        0xee..=0xef => Some(Pending::new(2, 0x80, 0xbf)),
        0xf0 => Some(Pending::new(3, 0x90, 0xbf)),
        0xf1..=0xf3 => Some(Pending::new(3, 0x80, 0xbf)),
        0xf4 => Some(Pending::new(3, 0x80, 0x8f)),
        _ => None,
    }
}

// What has to follow once another byte has come.
#[tactic(auto, unfolding(crate::specs::Text::step_of))]
pub fn step(w: Option<Pending>, b: u8) -> Option<Pending>
    ensures { result ≡ step_of w b }
{
    let Pending { count, low, high } = w?;
    if count == 0 {
        return lead(b);
    }
    if !(low..=high).contains(&b) {
        return None;
    }
    Some(Pending::new(count - 1, 0x80, 0xbf))
}

// Are the bytes well-formed UTF-8?
#[tactic(auto, using(std::proofs::lemmas::List::at_drop_more, std::proofs::lemmas::List::at_drop_all), unfolding(crate::specs::Text::is_text, crate::specs::Text::text_after))]
pub fn is_text(s: &[u8]) -> bool
    ensures { result ≡ is_text s.now }
{
    let mut w = Pending::new(0, 0x80, 0xbf);
    for b in s {
        let Some(next) = step(Some(w), *b) else {
            return false;
        };
        w = next;
    }
    w.count == 0
}
