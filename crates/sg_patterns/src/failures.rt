//! Places of a text from which a pattern is known to match no further, so that no later token walks on from there.
//! The idea is that of Reps, "Maximal-munch tokenization in linear time" (1998), whose table has each place; here a
//! logarithmic number of them is kept.
ghost use Rattle.std.specs.Prelude.{◌≡◌, ℕ, ◌+◌, ◌<◌, length, IfOk};
ghost use Rattle.std.specs.Bool.{OnTrue};
ghost use Rattle.sg_kinds.specs.Lexemes as plain;
ghost use Rattle.sg_kinds.specs.Values.{Bytes};
ghost use Rattle.sg_patterns.specs.Flags.{flag_at};
ghost use Rattle.sg_patterns.specs.Programs.{IsProgram};
ghost use Rattle.sg_patterns.specs.Spent.{AreFailures, AreSpentIf, HasSize, HaveFailures, IsSpent};
ghost use Rattle.sg_patterns.specs.declared.program.Program as plain_program;

use crate::program::{Above, Program, flag};
use sg_kinds::memory::NoMemory;
use std::alloc::Global;

/// How many bytes checkpoints are apart at least.
const APART: usize = 64;

/// How many checkpoints there are for places with equally many trailing zeros: runs that began at different places may
/// differ in their flags at one place.
const WAYS: usize = 4;

/// A place, and flags of a program's nodes with which no match ends behind it.
#[derive(Drop)]
pub struct Checkpoint {
    pub place: usize,
    pub flags: Vec<bool>,
}

/// What one program is known not to match in one text. A checkpoint says something where its place is greater than
/// `after`.
#[derive(Drop)]
pub struct Failures {
    pub after: usize,
    pub checkpoints: Vec<Checkpoint>,
}

/// Whether the flags are the first of the others.
pub fn agree(flags: &[bool], others: &[bool]) -> bool
    ensures { OnTrue result ((k : ℕ) → k < length flags.now → flag_at flags.now k ≡ flag_at others.now k) }
{
    for k in 0..flags.len() {
        if flags[k] != flag(others, k) {
            return false;
        }
    }
    true
}

/// Writes the first of the others into the flags.
fn copy(flags: &mut [bool], others: &[bool])
    ensures { (k : ℕ) → k < length flags.old → flag_at flags.new k ≡ flag_at others.now k }
{
    for k in 0..flags.len() {
        flags[k] = flag(others, k);
    }
}

impl Failures {
    /// Nothing is known, and nothing will be.
    pub fn none(alloc: Global) -> Failures
        ensures { (p : plain_program.Program) (text : Bytes) → AreFailures p text result }
    {
        Failures {
            after: 0,
            checkpoints: Vec::new(alloc),
        }
    }

    /// Nothing is known yet of the program and a text of so many bytes. A program that repeats nothing walks no further
    /// than it has nodes, and needs no checkpoint.
    pub fn new(alloc: Global, program: &Program, len: usize) -> Result<Failures, NoMemory>
        ensures { IfOk result (λ x. (text : Bytes) → AreFailures program.now text x) }
    {
        let repeats = program
            .above
            .iter()
            .any(|above| matches!(above, Above::Again(_)));
        let farthest = if repeats { len / APART } else { 0 };
        let levels = (usize::BITS - farthest.leading_zeros()) as usize;
        let mut checkpoints = Vec::with_capacity(alloc, levels * WAYS)?;
        for _ in 0..levels * WAYS {
            let flags = vec![in alloc; false; program.nodes.len()]?;
            checkpoints.push(Checkpoint { place: 0, flags })?;
        }
        Ok(Failures {
            after: 0,
            checkpoints,
        })
    }

    /// Whether it is known that no match ends behind a place with these flags. If it is not, they may be kept for
    /// later: the last flags that were met at a place with so many trailing zeros, and with so low a first one.
    pub fn meets(&mut self, place: usize, flags: &[bool]) -> bool
        ensures sized { (n : ℕ) → HasSize n self.old → HasSize n self.new }
        ensures met { (p : plain_program.Program) (q : plain.Lexeme) (h : IsProgram p q) (text : Bytes)
            → HasSize (length p.nodes.items) self.old → AreSpentIf text h.tree place place flags.now self.old
            → OnTrue result (IsSpent text h.tree place flags.now) }
        ensures kept { (p : plain_program.Program) (q : plain.Lexeme) (h : IsProgram p q) (text : Bytes)
            → HasSize (length p.nodes.items) self.old → AreSpentIf text h.tree place place flags.now self.old
            → AreSpentIf text h.tree (place + 1) place flags.now self.new }
    {
        if place % APART != 0 {
            return false;
        }
        let level = (place / APART).trailing_zeros() as usize;
        let first = flags.iter().position(|flag| *flag).unwrap_or(0);
        let slot = level * WAYS + first % WAYS;
        if slot >= self.checkpoints.len() {
            return false;
        }
        let checkpoint = &mut self.checkpoints[slot];
        if self.after < place && checkpoint.place == place && agree(&checkpoint.flags, flags) {
            return true;
        }
        checkpoint.place = place;
        copy(&mut checkpoint.flags, flags);
        false
    }
}

/// Nothing is known yet of the programs and a text of so many bytes.
pub fn failures_of(
    alloc: Global,
    programs: &[Program],
    len: usize,
) -> Result<Vec<Failures>, NoMemory>
    ensures { IfOk result (λ all. (text : Bytes) → HaveFailures programs.now text all.items) }
{
    let mut all = Vec::with_capacity(alloc, programs.len())?;
    for program in programs {
        all.push(Failures::new(alloc, program, len)?)?;
    }
    Ok(all)
}
