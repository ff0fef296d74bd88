//! The longest match at a place, over many patterns.
ghost use Rattle.std.specs.Prelude.{◌≡◌, ◌+◌, ◌<◌, ◌^◌, ◌++◌, ◌↔◌, [], List, map, length, IfOk, IsTrue};
ghost use Rattle.sg_kinds.specs.Lexemes as plain;
ghost use Rattle.sg_kinds.specs.Matches.{Matches};
ghost use Rattle.sg_patterns.specs.LongestMatch.{Terminal, Pattern, IsAnswer, len_of};
ghost use Rattle.sg_patterns.specs.Programs.{IsProgram, ArePrograms, AreOrdered, HaveRoom};
ghost use Rattle.sg_patterns.specs.Spent.{HaveFailures};

use crate::failures::{Failures, failures_of};
use crate::marks::{longest_from, with_barred};
use crate::program::Program;
use crate::rows::with_rows;
use sg_kinds::lexeme::Lexeme;
use sg_kinds::memory::NoMemory;
use std::alloc::Global;

/// The length of a match that was found, and 0 where none was.
pub fn len_of(found: Option<(usize, usize)>) -> usize
    ensures { result ≡ len_of found }
{
    match found {
        Some((_, len)) => len,
        None => 0,
    }
}

/// The program of a pattern: with what walks of it come to, where it is to be walked often and that is not much, or else
/// with the bytes with which no match begins.
fn ready(alloc: Global, lexeme: &Lexeme, often: bool) -> Result<Program, NoMemory>
    ensures { IfOk result (λ p. IsProgram p lexeme.now) }
{
    let program = Program::new(alloc, lexeme)?;
    if !often {
        return with_barred(alloc, program);
    }
    let walked = with_rows(alloc, program)?;
    if walked.rows.states.is_empty() {
        return with_barred(alloc, walked);
    }
    Ok(walked)
}

/// The programs of patterns, which are to be walked often or not.
pub fn programs_of(alloc: Global, all: &[Lexeme], often: bool) -> Result<Vec<Program>, NoMemory>
    ensures { IfOk result (λ ps. ArePrograms ps.items all.now) }
{
    let mut programs = Vec::with_capacity(alloc, all.len())?;
    for lexeme in all {
        programs.push(ready(alloc, lexeme, often)?)?;
    }
    Ok(programs)
}

/// How many flags each of the programs needs at most.
pub fn room_of(programs: &[Program]) -> usize
    ensures { HaveRoom programs.now result }
{
    let mut room = 0;
    for program in programs {
        room = program.nodes.len().max(room);
    }
    room
}

/// The longest match at a place, where the best before the programs is known, and `number` terminals stand before them.
pub fn longest_among(
    programs: &[Program],
    text: &[u8],
    at: usize,
    begins: &mut [bool],
    finals: &mut [bool],
    failures: &mut [Failures],
    number: usize,
    before: Option<(usize, usize)>,
) -> Option<(usize, usize)>
    requires ordered { AreOrdered programs.now }
    requires begins_room { HaveRoom programs.now (length begins.old) }
    requires finals_room { HaveRoom programs.now (length finals.old) }
    requires known { HaveFailures programs.now text.now failures.old }
    requires few { number + length programs.now < 2 ^ 64 }
    ensures known { HaveFailures programs.now text.now failures.new }
    ensures longest { (ts : List Terminal) (ps : List plain.Lexeme) → length ts ≡ number → ArePrograms programs.now ps
        → IsAnswer ts text.now at before → IsAnswer (ts ++ map Pattern ps) text.now at result }
{
    let mut best = before;
    for (k, program) in programs.iter().enumerate() {
        let len = longest_from(program, text, at, begins, finals, &mut failures[k]);
        if len > len_of(best) {
            best = Some((number + k, len));
        }
    }
    best
}

/// The number of the pattern with the longest match at a place, the first of several, and the length of that match;
/// None exactly where no pattern matches a byte. It costs at most the size of the patterns times the rest of the
/// text.
pub fn longest(
    alloc: Global,
    all: &[Lexeme],
    text: &[u8],
    at: usize,
) -> Result<Option<(usize, usize)>, NoMemory>
    ensures { IfOk result (λ found. IsAnswer (map Pattern all.now) text.now at found) }
{
    let programs = programs_of(alloc, all, false)?;
    let room = room_of(programs.as_slice());
    let mut begins = vec![in alloc; false; room]?;
    let mut finals = vec![in alloc; false; room]?;
    let mut failures = failures_of(alloc, programs.as_slice(), 0)?;
    Ok(longest_among(
        programs.as_slice(),
        text,
        at,
        &mut begins,
        &mut finals,
        &mut failures,
        0,
        None,
    ))
}

/// Whether the pattern matches the empty text.
pub fn matches_empty(alloc: Global, lexeme: &Lexeme) -> Result<bool, NoMemory>
    ensures { IfOk result (λ empty. IsTrue empty ↔ Matches lexeme.now []) }
{
    let program = Program::new(alloc, lexeme)?;
    Ok(program.matches_empty())
}
