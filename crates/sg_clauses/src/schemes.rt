//! Schemes.
ghost use Rattle.std.specs.Prelude.{[]};
ghost use Rattle.sg_text.specs.declared.symbols.Symbol.TheVariants as sign;
ghost use Rattle.sg_ast.specs.Readers.{is_sign, sees, many};
ghost use Rattle.sg_ast.specs.Readers as readers;
ghost use Rattle.sg_ast.specs.Reading as spec;
ghost use Rattle.sg_ast.specs.View.{tree_of};
ghost use Rattle.sg_cursor.specs.Left.{left_of, Reads};

use crate::repeated::{Ahead, repeated};
use sg_ast::decl::{Decl, Item, SchemeDecl};
use sg_ast::name::{Name, Quoted};
use sg_cursor::{Refusal, Tokens, target};
use sg_kinds::marks::ChildPlace;
use sg_kinds::row::Row;
use sg_text::{Keyword, Symbol};
use std::alloc::Global;

fn string(alloc: Global, tokens: &mut Tokens<'_>) -> Result<Quoted, Refusal>
    ensures { Reads (λ s. s) (readers.string (left_of tokens.old)) result (left_of tokens.new) }
{
    tokens.string(alloc)
}

/// `'[' { string } ']'`
#[tactic(auto, unfolding(sg_ast::specs::Reading::separator))]
fn separator(alloc: Global, tokens: &mut Tokens<'_>) -> Result<Item, Refusal>
    ensures { Reads (λ i. i) (spec.separator (left_of tokens.old)) result (left_of tokens.new) }
{
    tokens.expect_sign(Symbol::LeftBracket)?;
    let found = repeated(alloc, tokens, Ahead::Text, string, Vec::new(alloc))?;
    tokens.expect_sign(Symbol::RightBracket)?;
    Ok(Item::Separates(Row::new(found)))
}

/// `string | '@' | '^' | '..' | target | '[' { string } ']'`
#[tactic(auto, unfolding(sg_ast::specs::Reading::item_of))]
fn item(alloc: Global, tokens: &mut Tokens<'_>) -> Result<Item, Refusal>
    ensures { Reads (λ i. i) (spec.item_of (left_of tokens.old)) result (left_of tokens.new) }
{
    if tokens.sees_string() {
        return Ok(Item::Writes(tokens.string(alloc)?));
    }
    if tokens.sees_sign(Symbol::At) {
        tokens.expect_sign(Symbol::At)?;
        return Ok(Item::Child(ChildPlace::Resting));
    }
    if tokens.sees_sign(Symbol::Caret) {
        tokens.expect_sign(Symbol::Caret)?;
        return Ok(Item::Child(ChildPlace::Passed));
    }
    if tokens.sees_sign(Symbol::DotDot) {
        tokens.expect_sign(Symbol::DotDot)?;
        return Ok(Item::Child(ChildPlace::Hidden));
    }
    if tokens.sees_sign(Symbol::LeftBracket) {
        return separator(alloc, tokens);
    }
    Ok(Item::Shows(target(alloc, tokens)?))
}

/// `{ item }`
fn items(alloc: Global, tokens: &mut Tokens<'_>) -> Result<Vec<Item>, Refusal>
    ensures { Reads (λ v. v.items) (many (spec.sees_other (is_sign sign.RightBracket)) spec.item_of []
        (left_of tokens.old))
        result (left_of tokens.new) }
{
    repeated(
        alloc,
        tokens,
        Ahead::Other(Symbol::RightBracket),
        item,
        Vec::new(alloc),
    )
}

/// `'@' | '^'`
#[tactic(auto, unfolding(sg_ast::specs::Reading::resting))]
fn resting(tokens: &mut Tokens<'_>) -> Result<bool, Refusal>
    ensures { Reads (λ b. b) (spec.resting (left_of tokens.old)) result (left_of tokens.new) }
{
    if tokens.eat_sign(Symbol::At) {
        return Ok(true);
    }
    tokens.expect_sign(Symbol::Caret)?;
    Ok(false)
}

/// `':' | '::='`
#[tactic(auto, unfolding(sg_ast::specs::Reading::editing))]
fn editing(tokens: &mut Tokens<'_>) -> Result<bool, Refusal>
    ensures { Reads (λ b. b) (spec.editing (left_of tokens.old)) result (left_of tokens.new) }
{
    if tokens.eat_sign(Symbol::ColonColonEquals) {
        return Ok(true);
    }
    tokens.expect_sign(Symbol::Colon)?;
    Ok(false)
}

/// `'[' ( '@' | '^' ) ( ':' | '::=' ) { item } ']'`
#[tactic(auto, unfolding(sg_ast::specs::Reading::scheme))]
fn scheme(alloc: Global, tokens: &mut Tokens<'_>) -> Result<SchemeDecl, Refusal>
    ensures { Reads (λ s. s) (spec.scheme (left_of tokens.old)) result (left_of tokens.new) }
{
    let place = tokens.expect_sign(Symbol::LeftBracket)?;
    let rests = resting(tokens)?;
    let editable = editing(tokens)?;
    let items = items(alloc, tokens)?;
    tokens.expect_sign(Symbol::RightBracket)?;
    Ok(SchemeDecl {
        place,
        rests,
        editable,
        items: Row::new(items),
    })
}

/// `{ scheme }`, after those that were found.
fn schemes_behind(
    alloc: Global,
    tokens: &mut Tokens<'_>,
    found: Vec<SchemeDecl>,
) -> Result<Vec<SchemeDecl>, Refusal>
    ensures { Reads (λ v. v.items) (many (sees (is_sign sign.LeftBracket)) spec.scheme found.items (left_of tokens.old))
        result (left_of tokens.new) }
{
    repeated(
        alloc,
        tokens,
        Ahead::Sign(Symbol::LeftBracket),
        scheme,
        found,
    )
}

/// `[ 'in' name ]`
#[tactic(auto, unfolding(sg_ast::specs::Reading::view_of))]
fn view(alloc: Global, tokens: &mut Tokens<'_>) -> Result<Option<Name>, Refusal>
    ensures { Reads (λ v. v) (spec.view_of (left_of tokens.old)) result (left_of tokens.new) }
{
    if !tokens.eat_reserved(Keyword::In) {
        return Ok(None);
    }
    Ok(Some(tokens.name(alloc)?))
}

/// `[ 'in' name ] scheme { scheme } ';'`, after `name ':' name`.
#[tactic(auto, unfolding(sg_ast::specs::Reading::schemes))]
pub fn schemes(
    alloc: Global,
    tokens: &mut Tokens<'_>,
    phylum: Name,
    op: Name,
) -> Result<Decl, Refusal>
    ensures { Reads tree_of (spec.schemes phylum op (left_of tokens.old)) result (left_of tokens.new) }
{
    let view = view(alloc, tokens)?;
    let mut found = Vec::new(alloc);
    found.push(scheme(alloc, tokens)?)?;
    let found = schemes_behind(alloc, tokens, found)?;
    tokens.expect_sign(Symbol::Semicolon)?;
    Ok(Decl::Schemes(phylum, op, view, Row::new(found)))
}
