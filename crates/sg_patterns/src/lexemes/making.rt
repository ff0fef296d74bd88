//! The literals and the lexeme phyla of a specification.
ghost use Rattle.std.specs.Prelude.{◌≡◌, suc, length, IfOk};
ghost use Rattle.sg_patterns.specs.Lexemes.{literals_of, blank_of};
ghost use Rattle.sg_patterns.specs.LexemesOf.{AreLexemesOf};

use super::{Lexemes, blank_of, literals_of, table_of};
use crate::matcher::Matcher;
use sg_kinds::copy::TryCopy;
use sg_kinds::memory::NoMemory;
use sg_kinds::row::Row;
use sg_kinds::spec::Spec;
use std::alloc::Global;

// more literals, lexeme phyla or entries than this are taken as want of memory, so that the numbers of terminals fit
const MOST: usize = 1 << 30;

impl Lexemes {
    /// The literals and the lexeme phyla of a specification. `NoMemory` is also the answer where there are more of them
    /// than the numbers of terminals reach.
    pub fn new(alloc: Global, spec: &Spec) -> Result<Lexemes, NoMemory>
        ensures first { IfOk result (λ l. l.first ≡ suc (length spec.now.entries)) }
        ensures literals { IfOk result (λ l. l.literals ≡ literals_of spec.now.productions) }
        ensures patterns { IfOk result (λ l. l.patterns ≡ spec.now.lexemes) }
        ensures blank { IfOk result (λ l. l.blank ≡ blank_of spec.now.phyla) }
        ensures of { IfOk result (AreLexemesOf spec.now) }
    {
        let literals = literals_of(alloc, spec.productions.as_slice())?;
        let table = table_of(alloc, literals.as_slice())?;
        let entries = spec.entries.len();
        if entries > MOST || literals.len() > MOST || spec.lexemes.len() > MOST {
            return Err(NoMemory);
        }
        let patterns = spec.lexemes.try_copy(alloc)?;
        let matcher = Matcher::new(alloc, patterns.as_slice())?;
        Ok(Lexemes {
            first: entries + 1,
            literals: Row::new(literals),
            patterns,
            blank: blank_of(spec.phyla.as_slice()),
            table,
            matcher,
        })
    }
}
