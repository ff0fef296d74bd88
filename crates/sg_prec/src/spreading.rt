// The spread grammar.
ghost use Rattle.std.specs.Prelude.{◌≡◌, ◌++◌, ◌<◌, ◌^◌, map, Some, None, false, IfOk, OnOk};
ghost use Rattle.sg_kinds.specs.Instances.{below};
ghost use Rattle.sg_prec.specs.Levels.{height, level_by, levels_of, rank};
ghost use Rattle.sg_prec.specs.Precedence.{is_before_itself};
ghost use Rattle.sg_prec.specs.Sources.{operand_levels, spread_from};
ghost use Rattle.sg_prec.specs.Spread.{chain, spread_of, spread_rule};

use crate::levels::Levels;
use crate::lines::{Lines, is_before_itself};
use crate::named::named_over;
use crate::productions::{RuleLevels, Source};
use sg_kinds::memory::NoMemory;
use sg_kinds::spec::{LevelLine, Production};
use std::alloc::Global;

/// What the spread grammar is made of.
#[derive(Drop)]
struct Spreading<'a> {
    written: &'a [Production],
    lines: Lines<'a>,
    levels: Levels,
    ghost known: { levels ≡ levels_of lines.lines.now written.now },
}

/// The number, where it is one of a level.
fn number(n: usize) -> Result<u32, NoMemory>
    ensures { IfOk result (λ m. m ≡ n) }
{
    if n <= u32::MAX as usize {
        Ok(n as u32)
    } else {
        Err(NoMemory)
    }
}

impl<'a> Spreading<'a> {
    fn new(
        alloc: Global,
        written: &'a [Production],
        lines: &'a [LevelLine],
    ) -> Result<Spreading<'a>, NoMemory>
        ensures written { IfOk result (λ s. s.written.now ≡ written.now) }
        ensures lines { IfOk result (λ s. s.lines.lines.now ≡ lines.now) }
    {
        let lines = Lines::new(alloc, lines)?;
        let levels = Levels::of(alloc, &lines, written)?;
        Ok(Spreading {
            written,
            lines,
            levels,
        })
    }

    /// How many lines a nonterminal has.
    fn height(&self, n: u32) -> usize
        ensures number { result ≡ height self.now.lines.lines.now self.now.written.now n }
        ensures few { result < 2 ^ 63 }
    {
        self.levels.height(n)
    }

    /// The level of a line.
    fn rank(&self, n: u32, line: u32) -> usize
        ensures number { result ≡ rank self.now.lines.lines.now self.now.written.now n line }
        ensures few { result < 2 ^ 63 }
    {
        self.levels.rank(n, line)
    }

    /// The level of a production.
    fn level(&self, n: u32, line: Option<u32>) -> usize
        ensures { result ≡ level_by self.now.lines.lines.now self.now.written.now n line }
    {
        match line {
            Some(line) => self.rank(n, line),
            None => self.height(n),
        }
    }

    /// The levels of the operands of an infix production of a line.
    fn infix_operands(&self, n: u32, line: u32) -> Result<(u32, u32), NoMemory>
        ensures { IfOk result (λ o. o
            ≡ operand_levels self.now.lines.lines.now self.now.written.now n (Some line) false) }
    {
        let rank = self.rank(n, line);
        let first = if self.lines.groups_left(line) {
            rank
        } else {
            rank + 1
        };
        let last = if self.lines.groups_right(line) {
            rank
        } else {
            rank + 1
        };
        Ok((number(first)?, number(last)?))
    }

    /// The level of the nonterminals on the right side of a production that is no infix one.
    fn plain_operand(&self, production: &Production) -> Result<u32, NoMemory>
        ensures { IfOk result (λ i. (i, i) ≡ operand_levels self.now.lines.lines.now self.now.written.now
            production.now.left None (is_before_itself production.now.left production.now.right)) }
    {
        if is_before_itself(production.left, production.right.as_slice()) {
            number(self.height(production.left))
        } else {
            Ok(0)
        }
    }

    /// The levels of the nonterminals on the right side of a production of this line: where the first symbol is one,
    /// and where another is.
    fn operands(&self, line: Option<u32>, production: &Production) -> Result<(u32, u32), NoMemory>
        ensures { IfOk result (λ o. o ≡ operand_levels self.now.lines.lines.now self.now.written.now
            production.now.left line (is_before_itself production.now.left production.now.right)) }
    {
        match line {
            Some(line) => self.infix_operands(production.left, line),
            None => {
                let level = self.plain_operand(production)?;
                Ok((level, level))
            }
        }
    }

    /// A written production at its level.
    fn rule<'b>(&self, production: &'b Production) -> Result<Source<'b>, NoMemory>
        ensures { IfOk result (λ x. spread_from x
            ≡ spread_rule self.now.lines.lines.now self.now.written.now production.now) }
    {
        let line = self.lines.infix_line(production);
        let (first, rest) = self.operands(line, production)?;
        let level = number(self.level(production.left, line))?;
        Ok(Source::Rule(production, RuleLevels { level, first, rest }))
    }

    /// The step from a level to the next.
    fn step(&self, n: u32, level: usize) -> Result<Source<'a>, NoMemory>
        ensures { IfOk result (λ x. spread_from x ≡ chain self.now.lines.lines.now self.now.written.now n level) }
    {
        Ok(Source::Step(n, number(level)?, self.levels.line(n, level)))
    }

    /// Puts the steps of a nonterminal behind the others.
    fn add_steps(&self, n: u32, all: &mut Vec<Source<'a>>) -> Result<(), NoMemory>
        ensures { OnOk result (map spread_from all.new.items ≡ map spread_from all.old.items
            ++ map (chain self.now.lines.lines.now self.now.written.now n)
            (below (height self.now.lines.lines.now self.now.written.now n))) }
    {
        let height = self.height(n);
        for level in 0..height {
            all.push(self.step(n, level)?)?;
        }
        Ok(())
    }
}

/// The productions of the spread grammar of written productions and precedence lines, by what they come from: the
/// written ones, each in its place, and then the steps of each nonterminal. Past 4,294,967,295 lines there is no memory.
pub fn spread<'a>(
    alloc: Global,
    written: &'a [Production],
    lines: &'a [LevelLine],
) -> Result<Vec<Source<'a>>, NoMemory>
    ensures { IfOk result (λ all. map spread_from all.items ≡ spread_of lines.now written.now) }
{
    let spreading = Spreading::new(alloc, written, lines)?;
    let mut all = Vec::with_capacity(alloc, written.len())?;
    for production in written {
        all.push(spreading.rule(production)?)?;
    }
    for n in 0..named_over(written) {
        spreading.add_steps(n as u32, &mut all)?;
    }
    Ok(all)
}
