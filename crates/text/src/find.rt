ghost use Rattle.std.specs.Prelude.{◌≡◌, ℕ, ◌≤◌, length};
ghost use Rattle.text.specs.Lines.{up_to};

// The place of the first byte that equals `b`, or the length where there is none.
pub(crate) fn find(bytes: &[u8], b: u8) -> usize
    ensures value { result ≡ up_to b bytes.now }
    ensures within { result ≤ length bytes.now }
{
    bytes.iter().position(|x| *x == b).unwrap_or(bytes.len())
}
