//! What strings stand for.
ghost use Rattle.std.specs.Prelude.{◌≡◌, IfOk};
ghost use Rattle.sg_text.specs.Strings.{unescaped};

use std::alloc::{AllocError, Global};

/// The bytes between the quotes of a string, with each escape as what it stands for: `\n` as the
/// byte 10, and any other byte after a backslash as itself.
pub fn unescape(alloc: Global, inner: &[u8]) -> Result<Vec<u8>, AllocError>
    ensures { IfOk result (λ v. v.items ≡ unescaped inner.now) }
{
    let mut bytes = Vec::new(alloc);
    let mut escaped = false;
    for byte in inner {
        if escaped {
            bytes.push(if *byte == b'n' { b'\n' } else { *byte })?;
            escaped = false;
        } else if *byte == b'\\' {
            escaped = true;
        } else {
            bytes.push(*byte)?;
        }
    }
    Ok(bytes)
}
