//! Patterns.
ghost use Rattle.std.specs.Prelude.{map};
ghost use Rattle.sg_text.specs.declared.symbols.Symbol.TheVariants as sign;
ghost use Rattle.sg_ast.specs.Patterns as plain;
ghost use Rattle.sg_ast.specs.ReadingNames as spec;
ghost use Rattle.sg_ast.specs.Readers.{is_sign, sees, many};
ghost use Rattle.sg_ast.specs.View.{pattern_of};
ghost use Rattle.sg_cursor.specs.Left.{left_of, Reads};
ghost use Rattle.sg_term_patterns.specs.PatternNests.{Nests};

use sg_ast::name::Name;
use sg_ast::pattern::{Pattern, Patterns};
use sg_cursor::{Refusal, Tokens, truth};
use sg_kinds::limits::EXPRESSION_DEPTH;
use sg_kinds::marks::Made;
use sg_text::Symbol;
use std::alloc::Global;

/// `'<' name '>'`
#[tactic(auto, unfolding(sg_ast::specs::ReadingNames::placeholder))]
fn placeholder(alloc: Global, tokens: &mut Tokens<'_>) -> Result<Pattern, Refusal>
    ensures { Reads pattern_of (spec.placeholder plain.MadeAs (left_of tokens.old))
        result (left_of tokens.new) }
{
    let place = tokens.expect_sign(Symbol::Less)?;
    let name = tokens.name(alloc)?;
    tokens.expect_sign(Symbol::Greater)?;
    Ok(Pattern::Made(Made::Placeholder, name, place))
}

/// `'[' name ']'`
#[tactic(auto, unfolding(sg_ast::specs::ReadingNames::completing))]
fn completing(alloc: Global, tokens: &mut Tokens<'_>) -> Result<Pattern, Refusal>
    ensures { Reads pattern_of (spec.completing plain.MadeAs (left_of tokens.old))
        result (left_of tokens.new) }
{
    let place = tokens.expect_sign(Symbol::LeftBracket)?;
    let name = tokens.name(alloc)?;
    tokens.expect_sign(Symbol::RightBracket)?;
    Ok(Pattern::Made(Made::Completing, name, place))
}

/// `'-' number`
#[tactic(auto, unfolding(sg_ast::specs::ReadingNames::negative))]
fn negative(tokens: &mut Tokens<'_>) -> Result<Pattern, Refusal>
    ensures { Reads pattern_of (spec.negative (left_of tokens.old)) result (left_of tokens.new) }
{
    let place = tokens.expect_sign(Symbol::Minus)?;
    let (number, _) = tokens.number()?;
    Ok(Pattern::Number(true, number, place))
}

/// A pattern that begins with a symbol.
#[tactic(auto, unfolding(sg_ast::specs::ReadingNames::signed_pattern))]
fn signed(alloc: Global, tokens: &mut Tokens<'_>) -> Result<Pattern, Refusal>
    ensures { Reads pattern_of (spec.signed_pattern (left_of tokens.old))
        result (left_of tokens.new) }
{
    if tokens.sees_sign(Symbol::Star) {
        return Ok(Pattern::Anything(tokens.expect_sign(Symbol::Star)?));
    }
    if tokens.sees_sign(Symbol::Less) {
        placeholder(alloc, tokens)
    } else if tokens.sees_sign(Symbol::LeftBracket) {
        completing(alloc, tokens)
    } else {
        negative(tokens)
    }
}

/// The rules of patterns, which take the reader of those inside as a parameter.
#[derive(Clone, Copy)]
struct Grammar<F> {
    alloc: Global,
    /// How deep the patterns inside may be.
    depth: u8,
    pattern: F,
}

impl<F: Fn(Global, &mut Tokens<'_>, u8) -> Result<Pattern, Refusal>> Grammar<F> {
    fn inner(&self, tokens: &mut Tokens<'_>) -> Result<Pattern, Refusal>
        requires { Nests self.now.depth (F.pre self.now.pattern) (F.post self.now.pattern) }
        ensures { Reads pattern_of (spec.pattern_within self.now.depth (left_of tokens.old))
            result (left_of tokens.new) }
    {
        (self.pattern)(self.alloc, tokens, self.depth)
    }

    /// `',' pattern`
    #[tactic(auto, unfolding(sg_ast::specs::ReadingNames::another))]
    fn another(&self, tokens: &mut Tokens<'_>) -> Result<Pattern, Refusal>
        requires { Nests self.now.depth (F.pre self.now.pattern) (F.post self.now.pattern) }
        ensures { Reads pattern_of
            (spec.another (spec.pattern_within self.now.depth) (left_of tokens.old))
            result (left_of tokens.new) }
    {
        tokens.expect_sign(Symbol::Comma)?;
        self.inner(tokens)
    }

    /// `{ ',' pattern }`, after those that were found.
    fn others(
        &self,
        tokens: &mut Tokens<'_>,
        mut found: Vec<Pattern>,
    ) -> Result<Vec<Pattern>, Refusal>
        requires { Nests self.now.depth (F.pre self.now.pattern) (F.post self.now.pattern) }
        ensures { Reads (λ v. map pattern_of v.items)
            (many (sees (is_sign sign.Comma)) (spec.another (spec.pattern_within self.now.depth))
            (map pattern_of found.items) (left_of tokens.old))
            result (left_of tokens.new) }
    {
        for _turn in 0..tokens.len() {
            if !tokens.sees_sign(Symbol::Comma) {
                return Ok(found);
            }
            found.push(self.another(tokens)?)?;
        }
        Ok(found)
    }

    /// `pattern { ',' pattern }`
    #[tactic(auto, unfolding(sg_ast::specs::ReadingNames::separated))]
    fn separated(&self, tokens: &mut Tokens<'_>) -> Result<Vec<Pattern>, Refusal>
        requires { Nests self.now.depth (F.pre self.now.pattern) (F.post self.now.pattern) }
        ensures { Reads (λ v. map pattern_of v.items)
            (spec.separated (spec.pattern_within self.now.depth) (left_of tokens.old))
            result (left_of tokens.new) }
    {
        let mut found = Vec::new(self.alloc);
        found.push(self.inner(tokens)?)?;
        self.others(tokens, found)
    }

    /// `[ pattern { ',' pattern } ] ')'`
    #[tactic(auto, unfolding(sg_ast::specs::ReadingNames::arguments))]
    fn arguments(&self, tokens: &mut Tokens<'_>) -> Result<Vec<Pattern>, Refusal>
        requires { Nests self.now.depth (F.pre self.now.pattern) (F.post self.now.pattern) }
        ensures { Reads (λ v. map pattern_of v.items)
            (spec.arguments (spec.pattern_within self.now.depth) (left_of tokens.old))
            result (left_of tokens.new) }
    {
        if tokens.sees_sign(Symbol::RightParenthesis) {
            tokens.expect_sign(Symbol::RightParenthesis)?;
            return Ok(Vec::new(self.alloc));
        }
        let found = self.separated(tokens)?;
        tokens.expect_sign(Symbol::RightParenthesis)?;
        Ok(found)
    }

    /// A variable, or an operator with its arguments, after the name.
    #[tactic(auto, unfolding(sg_ast::specs::ReadingNames::named_pattern))]
    fn named(&self, tokens: &mut Tokens<'_>, name: Name) -> Result<Pattern, Refusal>
        requires { Nests self.now.depth (F.pre self.now.pattern) (F.post self.now.pattern) }
        ensures { Reads pattern_of
            (spec.named_pattern (spec.pattern_within self.now.depth) name (left_of tokens.old))
            result (left_of tokens.new) }
    {
        if !tokens.sees_sign(Symbol::LeftParenthesis) {
            return Ok(Pattern::Variable(name));
        }
        tokens.expect_sign(Symbol::LeftParenthesis)?;
        let patterns = self.arguments(tokens)?;
        Ok(Pattern::Operator(name, Patterns::new(self.alloc, patterns)?))
    }

    /// A pattern whose parts are read by the parameter.
    #[tactic(auto, unfolding(sg_ast::specs::ReadingNames::pattern_by))]
    fn pattern(&self, tokens: &mut Tokens<'_>) -> Result<Pattern, Refusal>
        requires { Nests self.now.depth (F.pre self.now.pattern) (F.post self.now.pattern) }
        ensures { Reads pattern_of
            (spec.pattern_by (spec.pattern_within self.now.depth) (left_of tokens.old))
            result (left_of tokens.new) }
    {
        if tokens.sees_name() {
            let name = tokens.name(self.alloc)?;
            return self.named(tokens, name);
        }
        if tokens.sees_number() {
            let (number, place) = tokens.number()?;
            return Ok(Pattern::Number(false, number, place));
        }
        if tokens.sees_string() {
            return Ok(Pattern::Text(tokens.string(self.alloc)?));
        }
        if tokens.sees_truth() {
            let (truth, place) = truth(tokens)?;
            return Ok(Pattern::Truth(truth, place));
        }
        signed(self.alloc, tokens)
    }
}

/// A pattern of at most so many nodes in depth.
fn pattern_within(alloc: Global, tokens: &mut Tokens<'_>, depth: u8) -> Result<Pattern, Refusal>
    ensures { Reads pattern_of (spec.pattern_within depth (left_of tokens.old))
        result (left_of tokens.new) }
{
    if depth == 0 {
        return Err(Refusal::NoReading);
    }
    Grammar {
        alloc,
        depth: depth - 1,
        pattern: pattern_within,
    }
    .pattern(tokens)
}

/// A pattern.
pub fn read_pattern(alloc: Global, tokens: &mut Tokens<'_>) -> Result<Pattern, Refusal>
    ensures { Reads pattern_of (spec.pattern (left_of tokens.old)) result (left_of tokens.new) }
{
    pattern_within(alloc, tokens, EXPRESSION_DEPTH)
}
