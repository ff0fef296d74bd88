//! Attributes of phyla and nonterminals.
ghost use Rattle.std.specs.Prelude.{[]};
ghost use Rattle.sg_text.specs.declared.symbols.Symbol.TheVariants as sign;
ghost use Rattle.sg_ast.specs.Readers.{is_sign, many};
ghost use Rattle.sg_ast.specs.Reading as spec;
ghost use Rattle.sg_ast.specs.View.{tree_of};
ghost use Rattle.sg_cursor.specs.Left.{left_of, Reads};

use crate::repeated::{Ahead, repeated};
use sg_ast::decl::{AttrDecl, Decl};
use sg_ast::name::Name;
use sg_cursor::{Refusal, Tokens};
use sg_kinds::marks::Way;
use sg_kinds::row::Row;
use sg_text::{Keyword, Symbol};
use std::alloc::Global;

/// `'synthesized' | 'inherited'`
#[tactic(auto, unfolding(sg_ast::specs::Reading::way))]
fn way(tokens: &mut Tokens<'_>) -> Result<Way, Refusal>
    ensures { Reads (λ w. w) (spec.way (left_of tokens.old)) result (left_of tokens.new) }
{
    if tokens.eat_reserved(Keyword::Synthesized) {
        return Ok(Way::Synthesized);
    }
    tokens.expect_reserved(Keyword::Inherited)?;
    Ok(Way::Inherited)
}

/// `( 'synthesized' | 'inherited' ) name name ';'`
#[tactic(auto, unfolding(sg_ast::specs::Reading::attr))]
fn attr(alloc: Global, tokens: &mut Tokens<'_>) -> Result<AttrDecl, Refusal>
    ensures { Reads (λ a. a) (spec.attr (left_of tokens.old)) result (left_of tokens.new) }
{
    let way = way(tokens)?;
    let of = tokens.name(alloc)?;
    let name = tokens.name(alloc)?;
    tokens.expect_sign(Symbol::Semicolon)?;
    Ok(AttrDecl { way, of, name })
}

/// `{ attribute }`
fn attrs(alloc: Global, tokens: &mut Tokens<'_>) -> Result<Vec<AttrDecl>, Refusal>
    ensures { Reads (λ v. v.items) (many (spec.sees_other (is_sign sign.RightBrace)) spec.attr [] (left_of tokens.old))
        result (left_of tokens.new) }
{
    repeated(
        alloc,
        tokens,
        Ahead::Other(Symbol::RightBrace),
        attr,
        Vec::new(alloc),
    )
}

/// `'{' { attribute } '}' ';'`, after the name.
#[tactic(auto, unfolding(sg_ast::specs::Reading::attributes))]
pub fn attributes(alloc: Global, tokens: &mut Tokens<'_>, of: Name) -> Result<Decl, Refusal>
    ensures { Reads tree_of (spec.attributes of (left_of tokens.old)) result (left_of tokens.new) }
{
    tokens.expect_sign(Symbol::LeftBrace)?;
    let found = attrs(alloc, tokens)?;
    tokens.expect_sign(Symbol::RightBrace)?;
    tokens.expect_sign(Symbol::Semicolon)?;
    Ok(Decl::Attributes(of, Row::new(found)))
}
