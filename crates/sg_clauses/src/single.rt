//! Declarations of one thing: roots, lists, optional phyla, lexeme phyla and entries.
ghost use Rattle.sg_ast.specs.Reading as spec;
ghost use Rattle.sg_ast.specs.View.{tree_of};
ghost use Rattle.sg_cursor.specs.Left.{left_of, Reads};

use sg_ast::decl::Decl;
use sg_ast::name::Name;
use sg_cursor::{Refusal, Tokens};
use sg_text::{Keyword, Symbol};
use std::alloc::Global;

/// `'<' string '>' ';'`, after `name ':'`.
#[tactic(auto, unfolding(sg_ast::specs::Reading::lexeme))]
pub fn lexeme(alloc: Global, tokens: &mut Tokens<'_>, phylum: Name) -> Result<Decl, Refusal>
    ensures { Reads tree_of (spec.lexeme phylum (left_of tokens.old)) result (left_of tokens.new) }
{
    tokens.expect_sign(Symbol::Less)?;
    let pattern = tokens.string(alloc)?;
    tokens.expect_sign(Symbol::Greater)?;
    tokens.expect_sign(Symbol::Semicolon)?;
    Ok(Decl::Lexeme(phylum, pattern))
}

/// `'~' name '.' name ';'`, after the name.
#[tactic(auto, unfolding(sg_ast::specs::Reading::entry))]
pub fn entry(alloc: Global, tokens: &mut Tokens<'_>, phylum: Name) -> Result<Decl, Refusal>
    ensures { Reads tree_of (spec.entry phylum (left_of tokens.old)) result (left_of tokens.new) }
{
    tokens.expect_sign(Symbol::Tilde)?;
    let nonterminal = tokens.name(alloc)?;
    tokens.expect_sign(Symbol::Dot)?;
    let attr = tokens.name(alloc)?;
    tokens.expect_sign(Symbol::Semicolon)?;
    Ok(Decl::Entry(phylum, nonterminal, attr))
}

/// `'root' name ';'`
#[tactic(auto, unfolding(sg_ast::specs::Reading::root))]
pub fn root(alloc: Global, tokens: &mut Tokens<'_>) -> Result<Decl, Refusal>
    ensures { Reads tree_of (spec.root (left_of tokens.old)) result (left_of tokens.new) }
{
    tokens.expect_reserved(Keyword::Root)?;
    let phylum = tokens.name(alloc)?;
    tokens.expect_sign(Symbol::Semicolon)?;
    Ok(Decl::Root(phylum))
}

/// `'list' name ';'`
#[tactic(auto, unfolding(sg_ast::specs::Reading::listed))]
pub fn listed(alloc: Global, tokens: &mut Tokens<'_>) -> Result<Decl, Refusal>
    ensures { Reads tree_of (spec.listed (left_of tokens.old)) result (left_of tokens.new) }
{
    tokens.expect_reserved(Keyword::List)?;
    let phylum = tokens.name(alloc)?;
    tokens.expect_sign(Symbol::Semicolon)?;
    Ok(Decl::Listed(phylum))
}

/// `'optional' [ 'list' ] name ';'`
#[tactic(auto, unfolding(sg_ast::specs::Reading::optional))]
pub fn optional(alloc: Global, tokens: &mut Tokens<'_>) -> Result<Decl, Refusal>
    ensures { Reads tree_of (spec.optional (left_of tokens.old)) result (left_of tokens.new) }
{
    tokens.expect_reserved(Keyword::Optional)?;
    let is_list = tokens.eat_reserved(Keyword::List);
    let phylum = tokens.name(alloc)?;
    tokens.expect_sign(Symbol::Semicolon)?;
    Ok(Decl::Optional(is_list, phylum))
}
