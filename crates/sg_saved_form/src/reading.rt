//! The reading of a whole saved file.
ghost use Rattle.std.specs.Prelude.{◌≡◌, ℕ, Err, IfOk};
ghost use Rattle.sg_saved_form.specs.Files.{IsNoFile};
ghost use Rattle.sg_saved_form.specs.Notes.{IsOutline};
ghost use Rattle.sg_saved_form.specs.declared.reading.FormFault.TheVariants as fault;

use crate::notes::Outline;
use crate::reader::Reader;
use sg_kinds::memory::NoMemory;
use std::alloc::Global;

/// Why there is no outline.
#[derive(Clone, Copy, Debug, PartialEq, Eq)]
pub enum FormFault {
    /// The text is no saved file. Its longest front that begins one has so many bytes.
    Form(usize),
    NoMemory,
}

impl From<NoMemory> for FormFault {
    ghost from_gives = { λ _ e. e ≡ fault.NoMemory };

    fn from(_: NoMemory) -> FormFault {
        FormFault::NoMemory
    }
}

/// The notes of the term of a saved file: a line `SGT1`, and a line with a term, which is an operator's name over its
/// children, a number, a text in double quotes, or a truth value. A file of 2^32 bytes and more is want of memory. The
/// time and the memory are in proportion to the file, however deep it is.
pub fn outline_of(alloc: Global, bytes: &[u8]) -> Result<Outline, FormFault>
    ensures file { IfOk result (λ o. IsOutline bytes.now o) }
    ensures form { (at : ℕ) → result ≡ Err (fault.Form at) → IsNoFile bytes.now at }
{
    if bytes.len() > u32::MAX as usize {
        return Err(FormFault::NoMemory);
    }
    let mut reader = Reader::new(alloc);
    for (at, byte) in bytes.iter().enumerate() {
        if !reader.feed(at as u32, *byte)? {
            return Err(FormFault::Form(at));
        }
    }
    match reader.finish() {
        Some(outline) => Ok(outline),
        None => Err(FormFault::Form(bytes.len())),
    }
}
