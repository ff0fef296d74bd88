// Words of things.
ghost use Rattle.std.specs.Prelude.{◌≡◌, ◌++◌, ◌∷◌, [], IfOk};

use sg_kinds::memory::NoMemory;
use std::alloc::Global;

/// A kind of things and a name.
pub fn named(alloc: Global, kind: &str, name: &[u8]) -> Result<Vec<u8>, NoMemory>
    ensures { IfOk result (λ v. v.items ≡ kind.now ++ name.now) }
{
    let mut words = Vec::from_slice(alloc, kind.as_bytes())?;
    words.extend_from_slice(name)?;
    Ok(words)
}

/// A kind of things and a name behind that of its owner.
pub fn owned(alloc: Global, kind: &str, owner: &[u8], name: &[u8]) -> Result<Vec<u8>, NoMemory>
    ensures { IfOk result (λ v. v.items ≡ kind.now ++ (owner.now ++ 46 ∷ name.now)) }
{
    let mut words = named(alloc, kind, owner)?;
    words.push(b'.')?;
    words.extend_from_slice(name)?;
    Ok(words)
}

/// A kind of things and a text in quotes.
pub fn quoted(alloc: Global, kind: &str, text: &[u8]) -> Result<Vec<u8>, NoMemory>
    ensures { IfOk result (λ v. v.items ≡ kind.now ++ (39 ∷ (text.now ++ 39 ∷ []))) }
{
    let mut words = named(alloc, kind, b"'")?;
    words.extend_from_slice(text)?;
    words.push(b'\'')?;
    Ok(words)
}
