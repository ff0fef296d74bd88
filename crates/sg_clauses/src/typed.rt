//! Locals and parameters.
ghost use Rattle.std.specs.Prelude.{[]};
ghost use Rattle.sg_text.specs.declared.words.Keyword.TheVariants as keyword;
ghost use Rattle.sg_ast.specs.Readers.{is_reserved, sees, many};
ghost use Rattle.sg_ast.specs.ReadingNames as names;
ghost use Rattle.sg_ast.specs.Reading as spec;
ghost use Rattle.sg_cursor.specs.Left.{left_of, Reads};

use crate::repeated::{Ahead, repeated};
use sg_ast::name::Typed;
use sg_cursor::{Refusal, Tokens};
use sg_text::{Keyword, Symbol};
use std::alloc::Global;

/// `'local' name name ';'`
#[tactic(auto, unfolding(sg_ast::specs::Reading::local))]
fn local(alloc: Global, tokens: &mut Tokens<'_>) -> Result<Typed, Refusal>
    ensures { Reads (λ t. t) (spec.local (left_of tokens.old)) result (left_of tokens.new) }
{
    tokens.expect_reserved(Keyword::Local)?;
    let of = tokens.name(alloc)?;
    let name = tokens.name(alloc)?;
    tokens.expect_sign(Symbol::Semicolon)?;
    Ok(Typed { of, name })
}

/// `{ local }`
pub fn locals(alloc: Global, tokens: &mut Tokens<'_>) -> Result<Vec<Typed>, Refusal>
    ensures { Reads (λ v. v.items) (many (sees (is_reserved keyword.Local)) spec.local [] (left_of tokens.old))
        result (left_of tokens.new) }
{
    repeated(
        alloc,
        tokens,
        Ahead::Reserved(Keyword::Local),
        local,
        Vec::new(alloc),
    )
}

/// `name name`
#[tactic(auto, unfolding(sg_ast::specs::Reading::param))]
fn param(alloc: Global, tokens: &mut Tokens<'_>) -> Result<Typed, Refusal>
    ensures { Reads (λ t. t) (spec.param (left_of tokens.old)) result (left_of tokens.new) }
{
    let of = tokens.name(alloc)?;
    let name = tokens.name(alloc)?;
    Ok(Typed { of, name })
}

/// `',' name name`
#[tactic(auto, unfolding(sg_ast::specs::ReadingNames::another))]
fn another_param(alloc: Global, tokens: &mut Tokens<'_>) -> Result<Typed, Refusal>
    ensures { Reads (λ t. t) (names.another spec.param (left_of tokens.old)) result (left_of tokens.new) }
{
    tokens.expect_sign(Symbol::Comma)?;
    param(alloc, tokens)
}

/// `name name { ',' name name }`
#[tactic(auto, unfolding(sg_ast::specs::ReadingNames::separated))]
fn some_params(alloc: Global, tokens: &mut Tokens<'_>) -> Result<Vec<Typed>, Refusal>
    ensures { Reads (λ v. v.items) (names.separated spec.param (left_of tokens.old)) result (left_of tokens.new) }
{
    let mut found = Vec::new(alloc);
    found.push(param(alloc, tokens)?)?;
    repeated(
        alloc,
        tokens,
        Ahead::Sign(Symbol::Comma),
        another_param,
        found,
    )
}

/// `[ name name { ',' name name } ] ')'`
#[tactic(auto, unfolding(sg_ast::specs::ReadingNames::arguments))]
pub fn params(alloc: Global, tokens: &mut Tokens<'_>) -> Result<Vec<Typed>, Refusal>
    ensures { Reads (λ v. v.items) (names.arguments spec.param (left_of tokens.old)) result (left_of tokens.new) }
{
    if tokens.sees_sign(Symbol::RightParenthesis) {
        tokens.expect_sign(Symbol::RightParenthesis)?;
        return Ok(Vec::new(alloc));
    }
    let found = some_params(alloc, tokens)?;
    tokens.expect_sign(Symbol::RightParenthesis)?;
    Ok(found)
}
