//! The tokens of a text.
ghost use Rattle.std.specs.Prelude.{◌≡◌, ℕ, ◌<◌, Err, length, IfOk};
ghost use Rattle.sg_patterns.specs.LongestMatch.{IsAnswer};
ghost use Rattle.sg_patterns.specs.Programs.{ArePrograms, HaveRoom};
ghost use Rattle.sg_patterns.specs.Scan.{terminals_of, Scanned, StopsAt};
ghost use Rattle.sg_patterns.specs.Spent.{HaveFailures};
ghost use Rattle.sg_patterns.specs.declared.scanning.ScanFault.TheVariants as fault;

use crate::failures::{Failures, failures_of};
use crate::lexemes::Lexemes;
use crate::longest_match::{longest_among, room_of};
use crate::program::Program;
use sg_kinds::memory::NoMemory;
use std::alloc::{AllocError, AllocFailed, Global};
use thiserror::Error;

/// A token of a text: the number of its terminal, and the bytes from `from` up to `to`.
#[derive(Clone, Copy, Debug, PartialEq, Eq)]
pub struct InToken {
    pub terminal: u32,
    pub from: usize,
    pub to: usize,
}

/// Why a text has no tokens.
#[derive(Clone, Copy, Debug, PartialEq, Eq, Error)]
pub enum ScanFault {
    /// No literal and no lexeme matches a byte at this place.
    #[error("nothing matches at byte {0}")]
    BadAt(usize),
    #[error("out of memory")]
    NoMemory,
}

impl From<AllocError> for ScanFault {
    ghost from_gives = { λ _ e. e ≡ fault.NoMemory };

    fn from(_: AllocError) -> ScanFault {
        ScanFault::NoMemory
    }
}

impl<T: Drop> From<AllocFailed<T>> for ScanFault {
    ghost from_gives = { λ _ e. e ≡ fault.NoMemory };

    fn from(_: AllocFailed<T>) -> ScanFault {
        ScanFault::NoMemory
    }
}

/// The tokens of a text: the longest matches one after the other, of several of one length the literal or else the
/// first lexeme, without those of WHITESPACE; or the first place where none matches a byte.
///
/// It is linear in the text where matches do not look far past their ends, and costs at most the size of the patterns
/// times the rest of the text for each token. A walk that fails is not made again where it comes to the flags of an
/// earlier one, so a text on which each token's walk would go on to the end mostly costs little more. Nothing is
/// allocated for a match.
pub fn scan(alloc: Global, all: &Lexemes, text: &[u8]) -> Result<Vec<InToken>, ScanFault>
    ensures tokens { IfOk result (λ ts. Scanned all.now text.now (length text.now) ts.items) }
    ensures bad { (k : ℕ) → result ≡ Err (fault.BadAt k) → StopsAt all.now text.now k }
{
    let programs = all.programs();
    let room = room_of(programs);
    let mut begins = vec![in alloc; false; room]?;
    let mut finals = vec![in alloc; false; room]?;
    let mut failures = failures_of(alloc, programs, text.len())?;
    let begins = begins.as_mut_slice();
    let finals = finals.as_mut_slice();
    let failures = failures.as_mut_slice();
    let mut tokens = Vec::new(alloc);
    let mut at = 0;
    while at < text.len() {
        let found = longest_at(all, programs, text, at, begins, finals, failures);
        let Some((number, len)) = found else {
            return Err(ScanFault::BadAt(at));
        };
        if !all.is_blank(number) {
            tokens.push(InToken {
                terminal: (all.first + number) as u32,
                from: at,
                to: at + len,
            })?;
        }
        at += len;
    }
    Ok(tokens)
}

/// The longest match of a literal or a lexeme at a place.
fn longest_at(
    all: &Lexemes,
    programs: &[Program],
    text: &[u8],
    at: usize,
    begins: &mut [bool],
    finals: &mut [bool],
    failures: &mut [Failures],
) -> Option<(usize, usize)>
    requires some { at < length text.now }
    requires programs { ArePrograms programs.now all.now.patterns }
    requires begins_room { HaveRoom programs.now (length begins.old) }
    requires finals_room { HaveRoom programs.now (length finals.old) }
    requires known { HaveFailures programs.now text.now failures.old }
    ensures known { HaveFailures programs.now text.now failures.new }
    ensures longest { IsAnswer (terminals_of all.now) text.now at result }
{
    let literal = all.literal_at(text, at);
    longest_among(
        programs,
        text,
        at,
        begins,
        finals,
        failures,
        all.literals.len(),
        literal,
    )
}
