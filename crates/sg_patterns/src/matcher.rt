//! `Matcher`, patterns that are tried on whole texts.
ghost use Rattle.std.specs.Prelude.{◌≡◌, ◌<◌, ◌≤◌, ◌↔◌, List, Some, length, vec_len, slice_get, IfOk, IsTrue};
ghost use Rattle.sg_kinds.specs.Lexemes as plain;
ghost use Rattle.sg_kinds.specs.Matches.{Matches};
ghost use Rattle.sg_patterns.specs.Programs.{ArePrograms, HaveRoom, IsOrdered, IsProgram};

use crate::failures::Failures;
use crate::longest_match::{programs_of, room_of};
use crate::marks::longest_from;
use crate::program::Program;
use sg_kinds::copy::TryCopy;
use sg_kinds::lexeme::Lexeme;
use sg_kinds::memory::NoMemory;
use sg_kinds::row::Row;
use std::alloc::Global;
use std::marker::Model;

/// Patterns ready to be tried on whole texts. Contracts see the list of the patterns.
#[derive(Drop)]
pub struct Matcher {
    patterns: Row<Lexeme>,
    programs: Vec<Program>,
    begins: Vec<bool>,
    finals: Vec<bool>,
}

impl Model for Matcher {
    ghost use Rattle.std.specs.Prelude.{List, length};
    ghost use Rattle.sg_kinds.specs.Lexemes.{Lexeme};
    ghost use Rattle.sg_kinds.specs.LexemeCode.{lexeme_code};
    ghost use Rattle.sg_patterns.specs.Programs.{AreReady};
    ghost use Rattle.std.specs.Coded.{coded_list};

    ghost Value = { List Lexeme };

    ghost coded = { coded_list lexeme_code };

    ghost view = { λ m. m.patterns };

    ghost invariant = { λ m. AreReady m.programs.items m.patterns (length m.begins.items) (length m.finals.items) };
}

/// An equal list of patterns.
fn copies(alloc: Global, all: &[Lexeme]) -> Result<Vec<Lexeme>, NoMemory>
    ensures { IfOk result (λ v. v.items ≡ all.now) }
{
    let mut copies = Vec::with_capacity(alloc, all.len())?;
    for lexeme in all {
        copies.push(lexeme.try_copy(alloc)?)?;
    }
    Ok(copies)
}

/// Whether the pattern of a program matches the whole text. The flags are room for those of the program's nodes.
fn matches_whole(
    alloc: Global,
    program: &Program,
    text: &[u8],
    begins: &mut [bool],
    finals: &mut [bool],
) -> bool
    requires ordered { IsOrdered program.now }
    requires begins_room { vec_len program.now.nodes ≤ length begins.old }
    requires finals_room { vec_len program.now.nodes ≤ length finals.old }
    ensures { (p : plain.Lexeme) → IsProgram program.now p → IsTrue result ↔ Matches p text.now }
{
    if text.is_empty() {
        return program.matches_empty();
    }
    let mut failures = Failures::none(alloc);
    longest_from(program, text, 0, begins, finals, &mut failures) == text.len()
}

/// Whether the pattern at a place matches the whole text.
fn matches_at(
    alloc: Global,
    programs: &[Program],
    k: usize,
    text: &[u8],
    begins: &mut [bool],
    finals: &mut [bool],
) -> bool
    requires within { k < length programs.now }
    requires ordered { (ps : List plain.Lexeme) × ArePrograms programs.now ps }
    requires begins_room { HaveRoom programs.now (length begins.old) }
    requires finals_room { HaveRoom programs.now (length finals.old) }
    ensures { (ps : List plain.Lexeme) (p : plain.Lexeme) → ArePrograms programs.now ps → slice_get ps k ≡ Some p
        → IsTrue result ↔ Matches p text.now }
{
    matches_whole(alloc, &programs[k], text, begins, finals)
}

impl Matcher {
    /// The patterns, ready.
    pub fn new(alloc: Global, all: &[Lexeme]) -> Result<Matcher, NoMemory>
        ensures { IfOk result (λ m. m ≡ all.now) }
    {
        let patterns = Row::new(copies(alloc, all)?);
        let programs = programs_of(alloc, patterns.as_slice(), true)?;
        let room = room_of(programs.as_slice());
        let begins = vec![in alloc; false; room]?;
        let finals = vec![in alloc; false; room]?;
        Ok(Matcher {
            patterns,
            programs,
            begins,
            finals,
        })
    }

    /// The programs of the patterns.
    pub(crate) fn programs(&self) -> &[Program]
        ensures { ArePrograms result.now self.now }
    {
        self.programs.as_slice()
    }

    /// Whether the pattern at a place matches the whole text.
    pub fn matches(&mut self, k: usize, text: &[u8]) -> bool
        requires { k < length self.old }
        ensures matched { (p : plain.Lexeme) → slice_get self.old k ≡ Some p → IsTrue result ↔ Matches p text.now }
        ensures same { self.new ≡ self.old }
    {
        let alloc = *self.begins.allocator();
        matches_at(
            alloc,
            self.programs.as_slice(),
            k,
            text,
            self.begins.as_mut_slice(),
            self.finals.as_mut_slice(),
        )
    }
}
