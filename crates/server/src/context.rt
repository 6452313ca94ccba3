// What a call is given beside its request.
ghost use Rattle.std.specs.Prelude.{◌<◌};

use field::Second;

// The second of a call: "a second is a u32".
#[derive(Clone, Copy)]
pub(crate) struct Context {
    pub second: Second,
    ghost admissible: { second.0 < 0x1_0000_0000 },
}
