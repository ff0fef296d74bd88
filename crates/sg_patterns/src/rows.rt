//! The flags that walks of a program come to, worked out once, byte by byte.
ghost use Rattle.std.specs.Prelude.{◌≡◌, ℕ, ◌+◌, ◌*◌, ◌<◌, ◌≤◌, false, length, vec_len, IfOk, IfSome, OnOk};
ghost use Rattle.std.specs.Bool.{OnTrue};
ghost use Rattle.sg_kinds.specs.Lexemes as plain;
ghost use Rattle.sg_patterns.specs.Flags.{flag_at};
ghost use Rattle.sg_patterns.specs.LongestMatch.{IsLength, Pattern};
ghost use Rattle.sg_patterns.specs.Programs.{IsOrdered, IsProgram};
ghost use Rattle.sg_patterns.specs.Rows.{AreAlike, AreNext, AreRows, AreRuns, Grows, IsAlike, IsNext, flags_of, next_at};
ghost use Rattle.sg_patterns.specs.Spent.{AreFailures};

use crate::failures::{Failures, agree};
use crate::marks::{mark_begins, step};
use crate::program::{Next, Node, Program, Rows, State, flag};
use sg_kinds::memory::NoMemory;
use std::alloc::Global;

/// How many flags are worked out at most. A program that comes to more has no rows.
const MOST: usize = 32;

/// How many nodes a program with rows has at most.
const LARGEST: usize = 64;

/// Whether the node is no leaf, or one that matches both bytes or none.
fn is_alike(node: &Node, low: u8, high: u8) -> bool
    ensures { OnTrue result (IsAlike node.now low high) }
{
    match node {
        Node::Leaf(leaf) => leaf.passes(low) == leaf.passes(high),
        _ => true,
    }
}

/// Whether each leaf matches both bytes or none.
fn are_alike(program: &Program, low: u8, high: u8) -> bool
    ensures { OnTrue result (AreAlike program.now low high) }
{
    for k in 0..program.nodes.len() {
        if !is_alike(&program.nodes[k], low, high) {
            return false;
        }
    }
    true
}

/// For each byte whether it is like the one before it.
fn runs_of(alloc: Global, program: &Program) -> Result<Vec<bool>, NoMemory>
    ensures { IfOk result (λ v. AreRuns program.now v.items) }
{
    let mut alike = Vec::with_capacity(alloc, 256)?;
    for byte in 0..256usize {
        alike.push(are_alike(program, byte.saturating_sub(1) as u8, byte as u8))?;
    }
    Ok(alike)
}

/// The number of flags, behind the first; new ones are put behind the others. None where there would be too many.
fn number_of(alloc: Global, states: &mut Vec<State>, flags: &[bool]) -> Result<Option<u8>, NoMemory>
    requires some { 0 < vec_len states.old }
    requires few { vec_len states.old ≤ 32 }
    ensures few { OnOk result (vec_len states.new ≤ 32) }
    ensures grows { OnOk result (Grows states.old.items states.new.items) }
    ensures behind { IfOk result (λ o. IfSome o (λ t. (0 < t) × (t < vec_len states.new))) }
    ensures found { IfOk result (λ o. IfSome o (λ t. (k : ℕ) → k < length flags.now
        → flag_at flags.now k ≡ flag_at (flags_of states.new.items t) k)) }
{
    for k in 1..states.len() {
        if agree(flags, states[k].flags.as_slice()) {
            return Ok(Some(k as u8));
        }
    }
    if states.len() >= MOST {
        return Ok(None);
    }
    let number = states.len() as u8;
    let flags = Vec::from_slice(alloc, flags)?;
    states.push(State { flags })?;
    Ok(Some(number))
}

/// Where a byte leads from the flags of number `state`. None where there would be too many flags.
fn led(
    alloc: Global,
    program: &Program,
    states: &mut Vec<State>,
    state: usize,
    byte: u8,
    begins: &mut [bool],
    finals: &mut [bool],
) -> Result<Option<Next>, NoMemory>
    requires ordered { IsOrdered program.now }
    requires begins_room { vec_len program.now.nodes ≤ length begins.old }
    requires finals_room { vec_len program.now.nodes ≤ length finals.old }
    requires within { state < vec_len states.old }
    requires few { vec_len states.old ≤ 32 }
    ensures few { OnOk result (vec_len states.new ≤ 32) }
    ensures grows { OnOk result (Grows states.old.items states.new.items) }
    ensures next { IfOk result (λ o. IfSome o (λ w. IsNext program.now states.new.items state byte w)) }
{
    mark_begins(program, state == 0, states[state].flags.as_slice(), begins);
    if !step(program, byte, begins, finals) {
        return Ok(Some(Next::Dead));
    }
    match number_of(alloc, states, finals)? {
        Some(number) => Ok(Some(Next::To(number))),
        None => Ok(None),
    }
}

/// Where the next byte leads: where the one before it does, if they are alike. None where there would be too many flags.
fn entry(
    alloc: Global,
    program: &Program,
    states: &mut Vec<State>,
    done: &[Next],
    alike: &[bool],
    begins: &mut [bool],
    finals: &mut [bool],
) -> Result<Option<Next>, NoMemory>
    requires ordered { IsOrdered program.now }
    requires begins_room { vec_len program.now.nodes ≤ length begins.old }
    requires finals_room { vec_len program.now.nodes ≤ length finals.old }
    requires runs { AreRuns program.now alike.now }
    requires few { vec_len states.old ≤ 32 }
    requires within { length done.now < 256 * vec_len states.old }
    requires next { AreNext program.now states.old.items done.now }
    ensures few { OnOk result (vec_len states.new ≤ 32) }
    ensures grows { OnOk result (Grows states.old.items states.new.items) }
    ensures next { IfOk result (λ o. IfSome o (λ w. (s b : ℕ) → length done.now ≡ 256 * s + b → b < 256
        → IsNext program.now states.new.items s b w)) }
{
    let byte = done.len() % 256;
    if (byte > 0) & flag(alike, byte) {
        return Ok(Some(done[done.len() - 1]));
    }
    let state = done.len() / 256;
    let led = led(alloc, program, states, state, byte as u8, begins, finals)?;
    Ok(led)
}

/// The flags before any byte, as those of number 0.
fn first_states(alloc: Global, count: usize) -> Result<Vec<State>, NoMemory>
    ensures one { IfOk result (λ states. vec_len states ≡ 1) }
    ensures first { IfOk result (λ states. (k : ℕ) → flag_at (flags_of states.items 0) k ≡ false) }
{
    let mut states = Vec::with_capacity(alloc, 1)?;
    let flags = vec![in alloc; false; count]?;
    states.push(State { flags })?;
    Ok(states)
}

/// What walks of a program come to, or nothing where there would be too many flags. The flags that are passed are room
/// for those of the program's nodes.
fn rows_of(
    alloc: Global,
    program: &Program,
    begins: &mut [bool],
    finals: &mut [bool],
) -> Result<Rows, NoMemory>
    requires ordered { IsOrdered program.now }
    requires begins_room { vec_len program.now.nodes ≤ length begins.old }
    requires finals_room { vec_len program.now.nodes ≤ length finals.old }
    ensures { IfOk result (λ r. AreRows program.now r) }
{
    let alike = runs_of(alloc, program)?;
    let mut states = first_states(alloc, program.nodes.len())?;
    let mut next = Vec::new(alloc);
    'entries: while next.len() < 256 * states.len() {
        let done = next.as_slice();
        match entry(alloc, program, &mut states, done, &alike, begins, finals)? {
            Some(more) => next.push(more)?,
            None => return Ok(Rows::none(alloc)),
        }
    }
    Ok(Rows { states, next })
}

/// The program with what walks come to, if it is not large.
pub fn with_rows(alloc: Global, mut program: Program) -> Result<Program, NoMemory>
    requires { IsOrdered program }
    ensures { (p : plain.Lexeme) → IsProgram program p → IfOk result (λ q. IsProgram q p) }
{
    if program.nodes.len() > LARGEST {
        return Ok(program);
    }
    let mut begins = vec![in alloc; false; program.nodes.len()]?;
    let mut finals = vec![in alloc; false; program.nodes.len()]?;
    let rows = rows_of(alloc, &program, &mut begins, &mut finals)?;
    program.rows = rows;
    Ok(program)
}

/// Where a byte leads from the flags of number `state`.
fn next_at(rows: &Rows, state: u8, byte: u8) -> Next
    ensures { result ≡ next_at rows.now.next.items state byte }
{
    let entry = 256 * state as usize + byte as usize;
    rows.next.get(entry).copied().unwrap_or(Next::Dead)
}

/// The length of the longest match from a place on that has a byte, or 0 where there is none, by the rows of the
/// program. The walk stops where it is known to fail, and what it learns is kept.
pub fn longest_by_rows(program: &Program, text: &[u8], at: usize, failures: &mut Failures) -> usize
    requires ordered { IsOrdered program.now }
    requires some { 0 < vec_len program.now.rows.states }
    requires known { AreFailures program.now text.now failures.old }
    ensures longest { (p : plain.Lexeme) → IsProgram program.now p → IsLength (Pattern p) text.now at result }
    ensures known { AreFailures program.now text.now failures.new }
{
    let mut state = 0;
    let mut longest = 0;
    for place in at..text.len() {
        let Next::To(next) = next_at(&program.rows, state, text[place]) else {
            return longest;
        };
        state = next;
        let flags = program.rows.states[next as usize].flags.as_slice();
        if flag(flags, program.root) {
            longest = place + 1 - at;
            failures.after = failures.after.max(place + 1);
        } else if failures.meets(place + 1, flags) {
            return longest;
        }
    }
    longest
}
