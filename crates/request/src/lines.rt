//! Lines of the input.
ghost use Rattle.std.specs.Prelude.{◌≡◌, ◌≤◌, length};
ghost use Rattle.request.specs.Lines.{ahead, blank_line};

/// How many bytes stand before the first byte `c`, or all of them.
pub fn bytes_before(bytes: &[u8], c: u8) -> usize
    ensures before { result ≡ ahead c bytes.now }
    ensures within { result ≤ length bytes.now }
{
    bytes.iter().position(|b| *b == c).unwrap_or(bytes.len())
}

/// How many bytes stand before the first empty line, or all of them.
pub fn blank_line(bytes: &[u8]) -> usize
    ensures before { result ≡ blank_line bytes.now }
    ensures within { result ≤ length bytes.now }
{
    // Whether a byte ends an empty line hangs on the byte before it.
    let mut fresh = true;
    for (at, b) in bytes.iter().enumerate() {
        let ends = *b == b'\n';
        if fresh && ends {
            return at;
        }
        fresh = ends;
    }
    bytes.len()
}
