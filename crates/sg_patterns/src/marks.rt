//! Matching by marks: which leaves of a pattern end a match of what stands before them.
ghost use Rattle.std.specs.Prelude.{◌≡◌, ℕ, ◌<◌, ◌≤◌, false, true, length, vec_len, IfOk};
ghost use Rattle.sg_kinds.specs.Lexemes as plain;
ghost use Rattle.sg_patterns.specs.LongestMatch.{IsLength, Pattern};
ghost use Rattle.sg_patterns.specs.Marks.{begin_value, HasBegins, final_value, HasFinalsTo, is_leaf, IsDead};
ghost use Rattle.std.specs.Bool.{OnTrue, OnFalse};
ghost use Rattle.sg_patterns.specs.Flags.{flag_at};
ghost use Rattle.sg_patterns.specs.Programs.{IsBarred, IsOrdered, IsProgram};
ghost use Rattle.sg_patterns.specs.Spent.{AreFailures};

use crate::failures::Failures;
use crate::program::{Above, Node, Program, flag};
use crate::rows::longest_by_rows;
use sg_kinds::memory::NoMemory;
use std::alloc::Global;

/// Takes the first `count` flags down.
fn clear(count: usize, flags: &mut [bool])
    requires { count ≤ length flags.old }
    ensures { (k : ℕ) → k < count → flag_at flags.new k ≡ false }
{
    for k in 0..count {
        flags[k] = false;
    }
}

/// Whether a match of the node k may begin, where that is known of the nodes behind it.
fn begins_at(program: &Program, starts: bool, finals: &[bool], begins: &[bool], k: usize) -> bool
    requires { k < vec_len program.now.above }
    ensures { result ≡ begin_value program.now starts finals.now begins.now k }
{
    match program.above[k] {
        Above::Top => starts,
        Above::Same(node) => flag(begins, node),
        Above::After(node, first) => (flag(begins, node) & flag(&program.empties, first))
            | flag(finals, first),
        Above::Again(node) => flag(begins, node) | flag(finals, k),
    }
}

/// Says of each node whether a match of it may begin here, from the last node to the first.
pub fn mark_begins(program: &Program, starts: bool, finals: &[bool], begins: &mut [bool])
    requires ordered { IsOrdered program.now }
    requires room { vec_len program.now.nodes ≤ length begins.old }
    ensures { HasBegins program.now starts finals.now begins.new }
{
    let mut k = program.above.len();
    while k > 0 {
        k -= 1;
        begins[k] = begins_at(program, starts, finals, begins, k);
    }
}

/// Whether the node k is final after a byte, where that is known of its parts.
fn final_at(program: &Program, byte: u8, begins: &[bool], finals: &[bool], k: usize) -> bool
    requires { k < vec_len program.now.nodes }
    ensures { result ≡ final_value program.now byte begins.now finals.now k }
{
    match &program.nodes[k] {
        Node::Nothing => false,
        Node::Leaf(leaf) => flag(begins, k) && leaf.passes(byte),
        Node::Then(first, second) => (flag(finals, *first) & flag(&program.empties, *second))
            | flag(finals, *second),
        Node::Either(first, second) => flag(finals, *first) | flag(finals, *second),
        Node::Over(part) => flag(finals, *part),
    }
}

/// Whether the node is a leaf.
fn is_leaf(node: &Node) -> bool
    ensures { result ≡ is_leaf node.now }
{
    matches!(node, Node::Leaf(_))
}

/// Goes over a byte: says of each node whether a match of it ends behind the byte, from the first node to the last.
/// Returns whether a leaf is marked.
pub fn step(program: &Program, byte: u8, begins: &[bool], finals: &mut [bool]) -> bool
    requires ordered { IsOrdered program.now }
    requires room { vec_len program.now.nodes ≤ length finals.old }
    ensures finals { HasFinalsTo program.now (vec_len program.now.nodes) byte begins.now finals.new }
    ensures dead { OnFalse result (IsDead program.now (vec_len program.now.nodes) finals.new) }
{
    let mut alive = false;
    for k in 0..program.nodes.len() {
        let last = final_at(program, byte, begins, finals, k);
        finals[k] = last;
        alive = alive | (last & is_leaf(&program.nodes[k]));
    }
    alive
}

/// For each byte whether no match that has a byte begins with it. The flags are room for those of the program's nodes.
fn barred_by(
    alloc: Global,
    program: &Program,
    begins: &mut [bool],
    finals: &mut [bool],
) -> Result<Vec<bool>, NoMemory>
    requires ordered { IsOrdered program.now }
    requires begins_room { vec_len program.now.nodes ≤ length begins.old }
    requires finals_room { vec_len program.now.nodes ≤ length finals.old }
    ensures { IfOk result (λ v. (p : plain.Lexeme) → IsProgram program.now p → (b : ℕ) → flag_at v.items b ≡ true
        → IsBarred p b) }
{
    clear(program.nodes.len(), finals);
    mark_begins(program, true, finals, begins);
    let mut barred = Vec::with_capacity(alloc, 256)?;
    for byte in 0..256usize {
        let alive = step(program, byte as u8, begins, finals);
        barred.push(!alive)?;
    }
    Ok(barred)
}

/// The program with the bytes with which no match begins.
pub fn with_barred(alloc: Global, mut program: Program) -> Result<Program, NoMemory>
    requires { IsOrdered program }
    ensures { (p : plain.Lexeme) → IsProgram program p → IfOk result (λ q. IsProgram q p) }
{
    let mut begins = vec![in alloc; false; program.nodes.len()]?;
    let mut finals = vec![in alloc; false; program.nodes.len()]?;
    let barred = barred_by(alloc, &program, &mut begins, &mut finals)?;
    program.barred = barred;
    Ok(program)
}

/// Whether it is known that no match that has a byte begins at a place.
fn is_barred(program: &Program, text: &[u8], at: usize) -> bool
    ensures { OnTrue result ((p : plain.Lexeme) → IsProgram program.now p → IsLength (Pattern p) text.now at 0) }
{
    at < text.len() && flag(&program.barred, text[at] as usize)
}

/// The length of the longest match from a place on that has a byte, or 0 where there is none, by the
/// marks of the program's nodes, for which the flags are room. The walk stops where it is known to fail, and what it
/// learns is kept.
fn longest_by_marks(
    program: &Program,
    text: &[u8],
    at: usize,
    begins: &mut [bool],
    finals: &mut [bool],
    failures: &mut Failures,
) -> usize
    requires ordered { IsOrdered program.now }
    requires begins_room { vec_len program.now.nodes ≤ length begins.old }
    requires finals_room { vec_len program.now.nodes ≤ length finals.old }
    requires known { AreFailures program.now text.now failures.old }
    ensures longest { (p : plain.Lexeme) → IsProgram program.now p → IsLength (Pattern p) text.now at result }
    ensures known { AreFailures program.now text.now failures.new }
{
    if is_barred(program, text, at) {
        return 0;
    }
    clear(program.nodes.len(), finals);
    let mut longest = 0;
    for place in at..text.len() {
        mark_begins(program, place == at, finals, begins);
        if !step(program, text[place], begins, finals) {
            return longest;
        }
        if flag(finals, program.root) {
            longest = place + 1 - at;
            failures.after = failures.after.max(place + 1);
        } else if failures.meets(place + 1, finals) {
            return longest;
        }
    }
    longest
}

/// The length of the longest match from a place on that has a byte, or 0 where there is none. The flags are room for
/// those of the program's nodes.
pub fn longest_from(
    program: &Program,
    text: &[u8],
    at: usize,
    begins: &mut [bool],
    finals: &mut [bool],
    failures: &mut Failures,
) -> usize
    requires ordered { IsOrdered program.now }
    requires begins_room { vec_len program.now.nodes ≤ length begins.old }
    requires finals_room { vec_len program.now.nodes ≤ length finals.old }
    requires known { AreFailures program.now text.now failures.old }
    ensures longest { (p : plain.Lexeme) → IsProgram program.now p → IsLength (Pattern p) text.now at result }
    ensures known { AreFailures program.now text.now failures.new }
{
    if program.rows.states.is_empty() {
        longest_by_marks(program, text, at, begins, finals, failures)
    } else {
        longest_by_rows(program, text, at, failures)
    }
}
