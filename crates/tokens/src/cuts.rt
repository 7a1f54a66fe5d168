//! Where bytes are cut.
ghost use Rattle.std.specs.Prelude.{◌≡◌, ◌≤◌, length};
ghost use Rattle.tokens.specs.Cuts.{before};

/// How many bytes stand before the first `mark`, or all of them where there is none.
pub fn find(bytes: &[u8], mark: u8) -> usize
    ensures value { result ≡ before mark bytes.now }
    ensures within { result ≤ length bytes.now }
{
    bytes
        .iter()
        .position(|byte| *byte == mark)
        .unwrap_or(bytes.len())
}
