//! Lines of a text.
ghost use Rattle.std.specs.Prelude.{◌≡◌, ◌==◌, ◌≤◌, ◌+◌, ◌<◌, ◌^◌, length, count_by};
ghost use Rattle.sg_text.specs.Bytes.{newline};
ghost use Rattle.sg_text.specs.Lines.{line_at};

/// How many newlines there are.
pub fn newlines(bytes: &[u8]) -> usize
    ensures value { result ≡ count_by (λ b. b == newline) bytes.now }
    ensures within { result ≤ length bytes.now }
{
    bytes.iter().filter(|byte| **byte == b'\n').count()
}

/// The line of a place, from 1: one more than the bytes 10 before it.
pub fn line_at(bytes: &[u8], place: usize) -> u32
    requires within { place ≤ length bytes.now }
    requires short { length bytes.now + 1 < 2 ^ 32 }
    ensures { result ≡ line_at bytes.now place }
{
    1 + newlines(&bytes[..place]) as u32
}
