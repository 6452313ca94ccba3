// Why something is refused.
ghost use Rattle.std.specs.Prelude.{◌≡◌};
ghost use Rattle.field.specs.Refusal.{number_of};

// The refusals, with the numbers by which the protocol's papers and the callers in other languages know them.
#[derive(Clone, Copy, PartialEq, Eq, Debug, Drop)]
pub enum Refusal {
    // 1 and 2: the magic, and the message id.
    Magic,
    MessageId,
    // 3 and 4: a version that is not served, and an operation that is not.
    Version,
    Operation,
    // 5 to 8: a number, a length above its limit, a text, and a field with a value that it cannot have.
    Number,
    Length,
    Text,
    Field,
    // 9 to 11: no cache has the name, no row is left for a key, and no version is left for a write.
    Cache,
    Full,
    Versions,
    // 12: too little room for what is to be written.
    Room,
    // 13: the memory is no table.
    Table,
    // 16: a message that breaks a rule, and so has no written form.
    Message,
    // 17: a file that stores no table.
    File,
    // 258: the ends of several inputs do not ascend, or lie behind the last.
    Ends,
}

impl From<Refusal> for u16 {
    ghost from_gives = { λ r n. n ≡ number_of r };

    fn from(refusal: Refusal) -> u16 {
        match refusal {
            Refusal::Magic => 1,
            Refusal::MessageId => 2,
            Refusal::Version => 3,
            Refusal::Operation => 4,
            Refusal::Number => 5,
            Refusal::Length => 6,
            Refusal::Text => 7,
            Refusal::Field => 8,
            Refusal::Cache => 9,
            Refusal::Full => 10,
            Refusal::Versions => 11,
            Refusal::Room => 12,
            Refusal::Table => 13,
            Refusal::Message => 16,
            Refusal::File => 17,
            Refusal::Ends => 258,
        }
    }
}
