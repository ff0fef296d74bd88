//! Operators of phyla.
ghost use Rattle.sg_text.specs.declared.symbols.Symbol.TheVariants as sign;
ghost use Rattle.sg_ast.specs.Readers.{is_sign, sees, many};
ghost use Rattle.sg_ast.specs.Readers as readers;
ghost use Rattle.sg_ast.specs.Reading as spec;
ghost use Rattle.sg_ast.specs.View.{tree_of};
ghost use Rattle.sg_cursor.specs.Left.{left_of, Reads};

use crate::repeated::{Ahead, repeated};
use sg_ast::decl::{Alt, Decl};
use sg_ast::name::Name;
use sg_cursor::{Refusal, Tokens};
use sg_kinds::row::Row;
use sg_text::Symbol;
use std::alloc::Global;

fn name(alloc: Global, tokens: &mut Tokens<'_>) -> Result<Name, Refusal>
    ensures { Reads (λ n. n) (readers.name (left_of tokens.old)) result (left_of tokens.new) }
{
    tokens.name(alloc)
}

/// `name '(' { name } ')'`, after the name.
#[tactic(auto, unfolding(sg_ast::specs::Reading::alt_of))]
fn alt_of(alloc: Global, tokens: &mut Tokens<'_>, of: Name) -> Result<Alt, Refusal>
    ensures { Reads (λ a. a) (spec.alt_of of (left_of tokens.old)) result (left_of tokens.new) }
{
    tokens.expect_sign(Symbol::LeftParenthesis)?;
    let args = repeated(alloc, tokens, Ahead::Name, name, Vec::new(alloc))?;
    tokens.expect_sign(Symbol::RightParenthesis)?;
    Ok(Alt {
        name: of,
        args: Row::new(args),
    })
}

/// `name '(' { name } ')'`
#[tactic(auto, unfolding(sg_ast::specs::Reading::alt))]
fn alt(alloc: Global, tokens: &mut Tokens<'_>) -> Result<Alt, Refusal>
    ensures { Reads (λ a. a) (spec.alt (left_of tokens.old)) result (left_of tokens.new) }
{
    let of = tokens.name(alloc)?;
    alt_of(alloc, tokens, of)
}

/// `'|' name '(' { name } ')'`
#[tactic(auto, unfolding(sg_ast::specs::Reading::other))]
fn other_alt(alloc: Global, tokens: &mut Tokens<'_>) -> Result<Alt, Refusal>
    ensures { Reads (λ a. a) (spec.other spec.alt (left_of tokens.old)) result (left_of tokens.new) }
{
    tokens.expect_sign(Symbol::Bar)?;
    alt(alloc, tokens)
}

/// `{ '|' name '(' { name } ')' }`, after those that were found.
fn alts(alloc: Global, tokens: &mut Tokens<'_>, found: Vec<Alt>) -> Result<Vec<Alt>, Refusal>
    ensures { Reads (λ v. v.items) (many (sees (is_sign sign.Bar)) (spec.other spec.alt) found.items
        (left_of tokens.old))
        result (left_of tokens.new) }
{
    repeated(alloc, tokens, Ahead::Sign(Symbol::Bar), other_alt, found)
}

/// Operators, after `name ':' name`.
#[tactic(auto, unfolding(sg_ast::specs::Reading::operators))]
pub fn operators(
    alloc: Global,
    tokens: &mut Tokens<'_>,
    phylum: Name,
    first: Name,
) -> Result<Decl, Refusal>
    ensures { Reads tree_of (spec.operators phylum first (left_of tokens.old)) result (left_of tokens.new) }
{
    let alt = alt_of(alloc, tokens, first)?;
    let mut found = Vec::new(alloc);
    found.push(alt)?;
    let found = alts(alloc, tokens, found)?;
    tokens.expect_sign(Symbol::Semicolon)?;
    Ok(Decl::Operators(phylum, Row::new(found)))
}
