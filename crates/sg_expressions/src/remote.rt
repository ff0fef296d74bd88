//! Attributes of enclosing nodes.
ghost use Rattle.sg_text.specs.declared.symbols.Symbol.TheVariants as sign;
ghost use Rattle.sg_ast.specs.Readers.{is_sign, sees, many};
ghost use Rattle.sg_ast.specs.ReadingNames as names;
ghost use Rattle.sg_ast.specs.ReadingExpressions as spec;
ghost use Rattle.sg_cursor.specs.Left.{left_of, Reads};

use sg_ast::name::{Pair, Remote};
use sg_cursor::{Refusal, Tokens, pair};
use sg_kinds::row::Row;
use sg_text::Symbol;
use std::alloc::Global;

/// `',' pair`
#[tactic(auto, unfolding(sg_ast::specs::ReadingNames::another))]
fn another_pair(alloc: Global, tokens: &mut Tokens<'_>) -> Result<Pair, Refusal>
    ensures { Reads (λ p. p) (names.another names.pair (left_of tokens.old)) result (left_of tokens.new) }
{
    tokens.expect_sign(Symbol::Comma)?;
    pair(alloc, tokens)
}

/// `{ ',' pair }`, after those that were found.
fn other_pairs(
    alloc: Global,
    tokens: &mut Tokens<'_>,
    mut found: Vec<Pair>,
) -> Result<Vec<Pair>, Refusal>
    ensures { Reads (λ v. v.items)
        (many (sees (is_sign sign.Comma)) (names.another names.pair) found.items (left_of tokens.old))
        result (left_of tokens.new) }
{
    for _turn in 0..tokens.len() {
        if !tokens.sees_sign(Symbol::Comma) {
            return Ok(found);
        }
        found.push(another_pair(alloc, tokens)?)?;
    }
    Ok(found)
}

/// `pair { ',' pair }`
#[tactic(auto, unfolding(sg_ast::specs::ReadingNames::separated))]
fn pairs(alloc: Global, tokens: &mut Tokens<'_>) -> Result<Vec<Pair>, Refusal>
    ensures { Reads (λ v. v.items) (names.separated names.pair (left_of tokens.old)) result (left_of tokens.new) }
{
    let mut found = Vec::new(alloc);
    found.push(pair(alloc, tokens)?)?;
    other_pairs(alloc, tokens, found)
}

/// `'{' pair { ',' pair } '}'`
#[tactic(auto, unfolding(sg_ast::specs::ReadingExpressions::remote))]
pub(crate) fn remote(alloc: Global, tokens: &mut Tokens<'_>) -> Result<Remote, Refusal>
    ensures { Reads (λ r. r) (spec.remote (left_of tokens.old)) result (left_of tokens.new) }
{
    let place = tokens.expect_sign(Symbol::LeftBrace)?;
    let pairs = pairs(alloc, tokens)?;
    tokens.expect_sign(Symbol::RightBrace)?;
    Ok(Remote {
        pairs: Row::new(pairs),
        place,
    })
}
