// Where a byte stands first.
ghost use Rattle.std.specs.Prelude.{◌≡◌, ◌+◌, drop};
ghost use Rattle.hexadecimal.specs.Scan.{index_of};

// The index of the first byte b from an index on: where there is none, the length, or the index if it lies behind the end.
pub fn find(s: &[u8], from: usize, b: u8) -> usize
    ensures { result ≡ from + index_of b (drop from s.now) }
{
    let Some(rest) = s.get(from..) else {
        return from;
    };
    from + rest.iter().position(|x| *x == b).unwrap_or(rest.len())
}
