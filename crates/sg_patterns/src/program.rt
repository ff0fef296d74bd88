//! A pattern as a tree whose nodes have numbers, each after those of its parts.
ghost use Rattle.std.specs.Prelude.{◌≡◌, ◌∷◌, [], ◌++◌, ◌<◌, ◌&&◌, nat_le, vec_len, List, OnOk, IfOk, IfSome, IfNone, ◌↔◌, IsTrue};
ghost use Rattle.sg_kinds.specs.Matches.{Matches};
ghost use Rattle.std.specs.List.{list_any};
ghost use Rattle.sg_kinds.specs.LexemeCode.{act, first_of, of_one, of_two};
ghost use Rattle.sg_kinds.specs.LexemeView.{instruction_of};
ghost use Rattle.sg_kinds.specs.Lexemes as plain;
ghost use Rattle.sg_patterns.specs.Leaves.{passes, leaf_pattern};
ghost use Rattle.sg_patterns.specs.Flags.{flag_at};
ghost use Rattle.sg_patterns.specs.Rows.{AreRows};
ghost use Rattle.sg_patterns.specs.declared.program.Program as plain_program;
ghost use Rattle.sg_patterns.specs.Programs.{Holds, HoldsSome, Pushes, IsProgram};

use sg_kinds::lexeme::{Lexeme, LexemeStep};
use sg_kinds::memory::NoMemory;
use sg_kinds::row::Row;
use std::alloc::Global;

/// A pattern that matches one byte.
#[derive(Drop)]
pub enum Leaf {
    Byte(u8),
    Dot,
    Class(bool, Row<(u8, u8)>),
}

/// A node of a pattern's tree, with the numbers of its parts. `Over` is `*`, `+` or `?` over its part.
#[derive(Drop)]
pub enum Node {
    Nothing,
    Leaf(Leaf),
    Then(usize, usize),
    Either(usize, usize),
    Over(usize),
}

/// Where a match of a node's pattern may begin.
#[derive(Clone, Copy)]
pub enum Above {
    /// where the whole pattern may begin
    Top,
    /// where the node above may begin
    Same(usize),
    /// where a match of the part before ends, which may be empty: the node above, and that part
    After(usize, usize),
    /// where the node above may begin, and where a match of this part ends
    Again(usize),
}

/// The flag at a place, and false past the end.
pub fn flag(flags: &[bool], k: usize) -> bool
    ensures { result ≡ flag_at flags.now k }
{
    flags.get(k).copied().unwrap_or(false)
}

/// Whether the byte is in one of the ranges.
fn in_ranges(ranges: &[(u8, u8)], byte: u8) -> bool
    ensures { result ≡ list_any (λ r. nat_le r.0 byte && nat_le byte r.1) ranges.now }
{
    ranges
        .iter()
        .any(|range| range.0 <= byte && byte <= range.1)
}

impl Leaf {
    /// Whether the byte is matched.
    #[tactic(auto, using(crate::proofs::Matching::ranges_any))]
    pub fn passes(&self, byte: u8) -> bool
        ensures { result ≡ passes self.now byte }
    {
        let allowed = byte == b'\n' || (byte >= 32 && byte <= 126);
        allowed
            && match self {
                Leaf::Byte(b) => *b == byte,
                Leaf::Dot => byte != b'\n',
                Leaf::Class(negated, ranges) => {
                    let within = in_ranges(ranges.as_slice(), byte);
                    if *negated { !within } else { within }
                }
            }
    }
}

/// Where a byte leads: to flags without a marked leaf, or to those of a number.
#[derive(Clone, Copy)]
pub enum Next {
    Dead,
    To(u8),
}

/// Flags of a program's nodes at a place of a text.
#[derive(Drop)]
pub struct State {
    pub flags: Vec<bool>,
}

/// The flags that come about in walks, the first those before any byte; and for each of them, and each byte, where it
/// leads: 256 entries for each. Or nothing at all.
#[derive(Drop)]
pub struct Rows {
    pub states: Vec<State>,
    pub next: Vec<Next>,
}

impl Rows {
    /// Nothing is worked out.
    pub fn none(alloc: Global) -> Rows
        ensures { (p : plain_program.Program) → AreRows p result }
    {
        Rows {
            states: Vec::new(alloc),
            next: Vec::new(alloc),
        }
    }
}

/// A pattern's tree: its nodes, where matches of them may begin, and which of them match the empty text.
#[derive(Drop)]
pub struct Program {
    pub nodes: Vec<Node>,
    pub above: Vec<Above>,
    pub empties: Vec<bool>,
    pub root: usize,
    /// for a byte whether it is known that no match begins with it
    pub barred: Vec<bool>,
    /// what walks come to, where that was worked out
    pub rows: Rows,
}

/// The trees that the steps of a pattern have made so far: their nodes and the numbers of their roots.
#[derive(Drop)]
struct Building {
    nodes: Vec<Node>,
    above: Vec<Above>,
    empties: Vec<bool>,
    roots: Vec<usize>,
}

/// Takes the last two roots off.
fn pop_two(roots: &mut Vec<usize>) -> Option<(usize, usize)>
    ensures two { IfSome result (λ r. roots.old.items ≡ (roots.new.items ++ r.0 ∷ []) ++ r.1 ∷ []) }
    ensures few { IfNone result (vec_len roots.old < 2) }
    ensures stay { IfNone result (roots.new.items ≡ roots.old.items) }
{
    if roots.len() < 2 {
        return None;
    }
    let second = roots.pop().unwrap();
    let first = roots.pop().unwrap();
    Some((first, second))
}

impl Building {
    /// Puts a node behind all others, as a root.
    fn push(&mut self, node: Node, empty: bool) -> Result<(), NoMemory>
        ensures { OnOk result (Pushes self.old self.new node empty) }
    {
        self.roots.push(self.nodes.len())?;
        self.nodes.push(node)?;
        self.above.push(Above::Top)?;
        self.empties.push(empty)?;
        Ok(())
    }

    /// Puts a node over the last two trees, of which the second begins where the first ends.
    fn then(&mut self) -> Result<(), NoMemory>
        requires { HoldsSome self.old }
        ensures { (ps : List plain.Lexeme) → Holds self.old ps → OnOk result (Holds self.new (of_two plain.Then ps)) }
    {
        let place = self.nodes.len();
        match pop_two(&mut self.roots) {
            None => Ok(()),
            Some((first, second)) => {
                self.above[first] = Above::Same(place);
                self.above[second] = Above::After(place, first);
                let empty = self.empties[first] & self.empties[second];
                self.push(Node::Then(first, second), empty)
            }
        }
    }

    /// Puts a node over the last two trees, of which one or the other is taken.
    fn either(&mut self) -> Result<(), NoMemory>
        requires { HoldsSome self.old }
        ensures { (ps : List plain.Lexeme) → Holds self.old ps → OnOk result (Holds self.new (of_two plain.Either ps)) }
    {
        let place = self.nodes.len();
        match pop_two(&mut self.roots) {
            None => Ok(()),
            Some((first, second)) => {
                self.above[first] = Above::Same(place);
                self.above[second] = Above::Same(place);
                let empty = self.empties[first] | self.empties[second];
                self.push(Node::Either(first, second), empty)
            }
        }
    }

    /// Puts a node over the last tree, which is taken again and again, also not at all.
    fn many(&mut self) -> Result<(), NoMemory>
        requires { HoldsSome self.old }
        ensures { (ps : List plain.Lexeme) → Holds self.old ps → OnOk result (Holds self.new (of_one plain.Many ps)) }
    {
        let place = self.nodes.len();
        match self.roots.pop() {
            None => Ok(()),
            Some(part) => {
                self.above[part] = Above::Again(place);
                self.push(Node::Over(part), true)
            }
        }
    }

    /// Puts a node over the last tree, which is taken again and again, but once at least.
    fn several(&mut self) -> Result<(), NoMemory>
        requires { HoldsSome self.old }
        ensures { (ps : List plain.Lexeme) → Holds self.old ps
            → OnOk result (Holds self.new (of_one plain.Several ps)) }
    {
        let place = self.nodes.len();
        match self.roots.pop() {
            None => Ok(()),
            Some(part) => {
                self.above[part] = Above::Again(place);
                let empty = self.empties[part];
                self.push(Node::Over(part), empty)
            }
        }
    }

    /// Puts a node over the last tree, which may be left out.
    fn maybe(&mut self) -> Result<(), NoMemory>
        requires { HoldsSome self.old }
        ensures { (ps : List plain.Lexeme) → Holds self.old ps → OnOk result (Holds self.new (of_one plain.Maybe ps)) }
    {
        let place = self.nodes.len();
        match self.roots.pop() {
            None => Ok(()),
            Some(part) => {
                self.above[part] = Above::Same(place);
                self.push(Node::Over(part), true)
            }
        }
    }
}

impl Building {
    /// Puts the pattern of the empty text behind the others.
    fn nothing(&mut self) -> Result<(), NoMemory>
        ensures rooted { OnOk result (0 < vec_len self.new.roots) }
        ensures holds { (ps : List plain.Lexeme) → Holds self.old ps
            → OnOk result (Holds self.new (plain.Nothing ∷ ps)) }
    {
        self.push(Node::Nothing, true)
    }

    /// Puts the pattern of a byte behind the others.
    fn leaf(&mut self, leaf: Leaf) -> Result<(), NoMemory>
        ensures { (ps : List plain.Lexeme) → Holds self.old ps → OnOk result (Holds self.new (leaf_pattern leaf ∷ ps)) }
    {
        self.push(Node::Leaf(leaf), false)
    }

    /// Does what the step says.
    fn add(&mut self, alloc: Global, step: &LexemeStep) -> Result<(), NoMemory>
        requires { HoldsSome self.old }
        ensures { (ps : List plain.Lexeme) → Holds self.old ps
            → OnOk result (Holds self.new (act (instruction_of step.now) ps)) }
    {
        match step {
            LexemeStep::Nothing => self.nothing(),
            LexemeStep::Byte(byte) => self.leaf(Leaf::Byte(*byte)),
            LexemeStep::Dot => self.leaf(Leaf::Dot),
            LexemeStep::Class(negated, ranges) => {
                let ranges = ranges.copy(alloc)?;
                self.leaf(Leaf::Class(*negated, ranges))
            }
            LexemeStep::Then => self.then(),
            LexemeStep::Either => self.either(),
            LexemeStep::Many => self.many(),
            LexemeStep::Several => self.several(),
            LexemeStep::Maybe => self.maybe(),
        }
    }

    /// The program of the tree made last.
    fn last(mut self, alloc: Global) -> Program
        requires { 0 < vec_len self.roots }
        ensures { (ps : List plain.Lexeme) → Holds self ps → IsProgram result (first_of ps) }
    {
        let root = self.roots.pop().unwrap();
        Program {
            nodes: self.nodes,
            above: self.above,
            empties: self.empties,
            root,
            barred: Vec::new(alloc),
            rows: Rows::none(alloc),
        }
    }

    /// The program of the tree made last, or of the empty text where there is none.
    fn finish(mut self, alloc: Global) -> Result<Program, NoMemory>
        ensures { (ps : List plain.Lexeme) → Holds self ps → IfOk result (λ p. IsProgram p (first_of ps)) }
    {
        if !self.roots.is_empty() {
            return Ok(self.last(alloc));
        }
        self.nothing()?;
        Ok(self.last(alloc))
    }
}

impl Program {
    /// The program of a pattern.
    pub fn new(alloc: Global, lexeme: &Lexeme) -> Result<Program, NoMemory>
        ensures { IfOk result (λ p. IsProgram p lexeme.now) }
    {
        let mut building = Building {
            nodes: Vec::new(alloc),
            above: Vec::new(alloc),
            empties: Vec::new(alloc),
            roots: Vec::new(alloc),
        };
        for step in lexeme.steps.as_slice() {
            building.add(alloc, step)?;
        }
        building.finish(alloc)
    }

    /// Whether the pattern matches the empty text.
    pub fn matches_empty(&self) -> bool
        ensures { (p : plain.Lexeme) → IsProgram self.now p → IsTrue result ↔ Matches p [] }
    {
        flag(&self.empties, self.root)
    }
}
