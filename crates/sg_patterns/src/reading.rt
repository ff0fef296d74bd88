//! Patterns from their texts.
ghost use Rattle.std.specs.Prelude.{◌≡◌, ℕ, Err, IfOk};
ghost use Rattle.sg_kinds.specs.Lexemes as plain;
ghost use Rattle.sg_patterns.specs.Spelling.{IsPattern, deepest, IsNoPattern};
ghost use Rattle.sg_patterns.specs.declared.reading.PatternFault.TheVariants as fault;

use crate::reader::Reader;
use sg_kinds::lexeme::Lexeme;
use sg_kinds::memory::NoMemory;
use std::alloc::Global;
use thiserror::Error;

/// Why a text is no pattern.
#[derive(Clone, Copy, Debug, PartialEq, Eq, Error)]
pub enum PatternFault {
    /// It has no form of a pattern. The longest front of it that begins some pattern has so many bytes.
    #[error("no pattern goes on so at byte {0}")]
    Form(usize),
    #[error("out of memory")]
    NoMemory,
}

impl From<NoMemory> for PatternFault {
    ghost from_gives = { λ _ e. e ≡ fault.NoMemory };

    fn from(_: NoMemory) -> PatternFault {
        PatternFault::NoMemory
    }
}

/// The pattern that a text is. In it `|` parts alternatives, `*`, `+` and `?` follow what is repeated or left out,
/// parentheses group, at most 64 deep, `.` is any byte but the newline, and brackets hold ranges of bytes, behind `^`
/// those that are not meant. A backslash before one of these signs or the dash takes its meaning away.
pub fn read(alloc: Global, bytes: &[u8]) -> Result<Lexeme, PatternFault>
    ensures pattern { IfOk result (λ l. IsPattern deepest l bytes.now) }
    ensures only { IfOk result (λ l. (p : plain.Lexeme) → IsPattern deepest p bytes.now → p ≡ l) }
    ensures form { (at : ℕ) → result ≡ Err (fault.Form at) → IsNoPattern bytes.now at }
{
    let mut reader = Reader::new(alloc);
    for (at, byte) in bytes.iter().enumerate() {
        if !reader.feed(*byte)? {
            return Err(PatternFault::Form(at));
        }
    }
    match reader.finish()? {
        Some(lexeme) => Ok(lexeme),
        None => Err(PatternFault::Form(bytes.len())),
    }
}
