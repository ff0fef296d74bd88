//! References, and what expressions and patterns have in common.
ghost use Rattle.sg_ast.specs.ReadingNames as spec;
ghost use Rattle.sg_cursor.specs.Left.{left_of, Reads};

use crate::refusal::Refusal;
use crate::tokens::Tokens;
use sg_ast::decl::Target;
use sg_ast::name::{Name, Occurrence, Pair, Reference};
use sg_ast::number::Number;
use sg_kinds::fault::Position;
use sg_text::{Keyword, Symbol};
use std::alloc::Global;

/// `[ '$' number ]`
#[tactic(auto, unfolding(sg_ast::specs::ReadingNames::occurrence_number))]
fn occurrence_number(tokens: &mut Tokens<'_>) -> Result<Option<Number>, Refusal>
    ensures { Reads (λ o. o) (spec.occurrence_number (left_of tokens.old))
        result (left_of tokens.new) }
{
    if !tokens.eat_sign(Symbol::Dollar) {
        return Ok(None);
    }
    let (number, _) = tokens.number()?;
    Ok(Some(number))
}

/// `[ '$' number ] '.' name`, after the name.
#[tactic(auto, unfolding(sg_ast::specs::ReadingNames::named_reference))]
pub fn named_reference(
    alloc: Global,
    tokens: &mut Tokens<'_>,
    name: Name,
) -> Result<Reference, Refusal>
    ensures { Reads (λ r. r) (spec.named_reference name (left_of tokens.old))
        result (left_of tokens.new) }
{
    let number = occurrence_number(tokens)?;
    tokens.expect_sign(Symbol::Dot)?;
    let attr = tokens.name(alloc)?;
    Ok(Reference {
        of: Occurrence::Named(name, number),
        attr,
    })
}

/// `'$$' '.' name`
#[tactic(auto, unfolding(sg_ast::specs::ReadingNames::own_reference))]
pub fn own_reference(alloc: Global, tokens: &mut Tokens<'_>) -> Result<Reference, Refusal>
    ensures { Reads (λ r. r) (spec.own_reference (left_of tokens.old))
        result (left_of tokens.new) }
{
    let place = tokens.expect_sign(Symbol::DollarDollar)?;
    tokens.expect_sign(Symbol::Dot)?;
    let attr = tokens.name(alloc)?;
    Ok(Reference {
        of: Occurrence::Own(place),
        attr,
    })
}

/// `name '.' name`
#[tactic(auto, unfolding(sg_ast::specs::ReadingNames::pair))]
pub fn pair(alloc: Global, tokens: &mut Tokens<'_>) -> Result<Pair, Refusal>
    ensures { Reads (λ p. p) (spec.pair (left_of tokens.old)) result (left_of tokens.new) }
{
    let phylum = tokens.name(alloc)?;
    tokens.expect_sign(Symbol::Dot)?;
    let attr = tokens.name(alloc)?;
    Ok(Pair { phylum, attr })
}

/// An attribute or a local that begins with a name, after it.
#[tactic(auto, unfolding(sg_ast::specs::ReadingNames::named_target))]
fn named_target(alloc: Global, tokens: &mut Tokens<'_>, name: Name) -> Result<Target, Refusal>
    ensures { Reads (λ t. t) (spec.named_target name (left_of tokens.old))
        result (left_of tokens.new) }
{
    if tokens.refers() {
        Ok(Target::Attribute(named_reference(alloc, tokens, name)?))
    } else {
        Ok(Target::Local(name))
    }
}

/// `( '$$' | name [ '$' number ] ) '.' name | name`
#[tactic(auto, unfolding(sg_ast::specs::ReadingNames::target_of))]
pub fn target(alloc: Global, tokens: &mut Tokens<'_>) -> Result<Target, Refusal>
    ensures { Reads (λ t. t) (spec.target_of (left_of tokens.old)) result (left_of tokens.new) }
{
    if tokens.sees_sign(Symbol::DollarDollar) {
        return Ok(Target::Attribute(own_reference(alloc, tokens)?));
    }
    let name = tokens.name(alloc)?;
    named_target(alloc, tokens, name)
}

/// `'true' | 'false'`
#[tactic(auto, unfolding(sg_ast::specs::ReadingNames::truth))]
pub fn truth(tokens: &mut Tokens<'_>) -> Result<(bool, Position), Refusal>
    ensures { Reads (λ b. b) (spec.truth (left_of tokens.old)) result (left_of tokens.new) }
{
    if tokens.sees_reserved(Keyword::True) {
        return Ok((true, tokens.expect_reserved(Keyword::True)?));
    }
    Ok((false, tokens.expect_reserved(Keyword::False)?))
}
