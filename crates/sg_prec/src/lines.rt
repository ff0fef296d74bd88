// The precedence line of a literal, and of an infix production.
ghost use Rattle.std.specs.Prelude.{◌≡◌, ℕ, ◌<◌, ◌^◌, List, cond, bytes_eq, length, option_map, Some, None, IfOk, OnOk};
ghost use Rattle.std.specs.List.{list_any};
ghost use Rattle.std.specs.Option.{option_or};
ghost use Rattle.sg_prec.specs.LineTable.{TellsLines, line_in};
ghost use Rattle.sg_prec.specs.Precedence.{line_with, literal_between, infix_line, is_before_itself, groups_left, groups_right};

use sg_kinds::marks::Group;
use sg_kinds::memory::NoMemory;
use sg_kinds::spec::{LevelLine, Production, Symbol};
use sg_kinds::text::Text;
use std::alloc::Global;
use std::collections::BTreeMap;

/// Precedence lines, with the first line of each literal in an ordered map: an author may write many.
#[derive(Drop)]
pub struct Lines<'a> {
    lines: &'a [LevelLine],
    first: BTreeMap<Vec<u8>, u32>,
    ghost known: { TellsLines lines.now first },
}

/// Gives a literal its line, unless it has one.
fn put(
    alloc: Global,
    first: &mut BTreeMap<Vec<u8>, u32>,
    line: u32,
    literal: &[u8],
) -> Result<(), NoMemory>
    ensures { OnOk result ((s : List ℕ) → line_in first.new s
        ≡ option_or (line_in first.old s) (cond (bytes_eq s literal.now) (Some line) None)) }
{
    if !first.contains_key(literal) {
        first.insert(Vec::from_slice(alloc, literal)?, line)?;
    }
    Ok(())
}

/// Gives the literals of a line that line, unless they have one.
fn put_all(
    alloc: Global,
    first: &mut BTreeMap<Vec<u8>, u32>,
    line: u32,
    literals: &[Text],
) -> Result<(), NoMemory>
    ensures { OnOk result ((s : List ℕ) → line_in first.new s
        ≡ option_or (line_in first.old s) (cond (list_any (bytes_eq s) literals.now) (Some line) None)) }
{
    for literal in literals {
        put(alloc, first, line, literal.as_slice())?;
    }
    Ok(())
}

/// The first line of each literal.
fn first_lines(alloc: Global, lines: &[LevelLine]) -> Result<BTreeMap<Vec<u8>, u32>, NoMemory>
    requires { length lines.now < 2 ^ 32 }
    ensures { IfOk result (TellsLines lines.now) }
{
    let mut first = BTreeMap::new(alloc);
    for (place, line) in lines.iter().enumerate() {
        put_all(alloc, &mut first, place as u32, line.literals.as_slice())?;
    }
    Ok(first)
}

/// The literal of a right side that an infix production of a nonterminal may have.
fn literal_between(left: u32, right: &[Symbol]) -> Option<&Text>
    ensures { option_map (λ t. t.now) result ≡ literal_between left right.now }
{
    match right {
        [
            Symbol::Nonterminal(a),
            Symbol::Quoted(text),
            Symbol::Nonterminal(b),
        ] => {
            if left == *a && left == *b {
                Some(text)
            } else {
                None
            }
        }
        _ => None,
    }
}

/// Whether a right side is that of a prefix production of a nonterminal.
pub fn is_before_itself(left: u32, right: &[Symbol]) -> bool
    ensures { result ≡ is_before_itself left right.now }
{
    match right {
        [Symbol::Quoted(_), Symbol::Nonterminal(a)] => left == *a,
        _ => false,
    }
}

impl<'a> Lines<'a> {
    /// These lines; past 4,294,967,295 of them there is no memory.
    pub fn new(alloc: Global, lines: &'a [LevelLine]) -> Result<Lines<'a>, NoMemory>
        ensures { IfOk result (λ l. l.lines.now ≡ lines.now) }
    {
        if lines.len() > u32::MAX as usize {
            return Err(NoMemory);
        }
        let first = first_lines(alloc, lines)?;
        Ok(Lines { lines, first })
    }

    /// The line of a literal.
    fn line_with(&self, literal: &[u8]) -> Option<u32>
        ensures { result ≡ line_with self.now.lines.now literal.now }
    {
        self.first.get(literal).copied()
    }

    /// The line of an infix production.
    pub fn infix_line(&self, production: &Production) -> Option<u32>
        ensures { result ≡ infix_line self.now.lines.now production.now }
    {
        let text = literal_between(production.left, production.right.as_slice())?;
        self.line_with(text.as_slice())
    }

    /// Whether a line groups to the left.
    pub fn groups_left(&self, line: u32) -> bool
        ensures { result ≡ groups_left self.now.lines.now line }
    {
        match self.lines.get(line as usize) {
            Some(line) => matches!(line.group, Group::Left),
            None => false,
        }
    }

    /// Whether a line groups to the right.
    pub fn groups_right(&self, line: u32) -> bool
        ensures { result ≡ groups_right self.now.lines.now line }
    {
        match self.lines.get(line as usize) {
            Some(line) => matches!(line.group, Group::Right),
            None => false,
        }
    }
}
