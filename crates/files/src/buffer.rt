// The bytes of a window in its buffer.
ghost use Rattle.std.specs.Prelude.{◌-◌, ◌≤◌, ◌≡◌, length};
ghost use Rattle.std.proofs.lemmas.List.Edits.{sets};
ghost use Rattle.wire.specs.Write.{part};

// Moves the bytes from `from` up to `held` to the front, and answers how many they are.
// `table` moves bytes too: each function by a method of the library, in a range of its own.
pub(crate) fn move_down(buf: &mut [u8], from: usize, held: usize) -> usize
    requires from_le_held { from ≤ held }
    requires held_in_bounds { held ≤ length buf.old }
    ensures value { result ≡ held - from }
    ensures buf_after { buf.new ≡ sets buf.old 0 (part buf.old from (held - from)) }
{
    buf.copy_within(from..held, 0);
    held - from
}
