//! Precedence lines.
ghost use Rattle.std.specs.Prelude.{◌≡◌};
ghost use Rattle.sg_ast.specs.Readers.{is_literal, sees, many};
ghost use Rattle.sg_ast.specs.Readers as readers;
ghost use Rattle.sg_ast.specs.Reading as spec;
ghost use Rattle.sg_ast.specs.View.{tree_of};
ghost use Rattle.sg_cursor.specs.Left.{left_of, Reads};

use crate::repeated::{Ahead, repeated};
use sg_ast::decl::Decl;
use sg_ast::name::{Name, Quoted};
use sg_cursor::{Refusal, Tokens};
use sg_kinds::fault::Position;
use sg_kinds::marks::Group;
use sg_kinds::row::Row;
use sg_text::Symbol;
use std::alloc::Global;

/// How the literals of a line with this first word group.
fn group_of(word: &[u8]) -> Option<Group>
    ensures { result ≡ spec.group_of word.now }
{
    if word == b"left".as_slice() {
        Some(Group::Left)
    } else if word == b"right".as_slice() {
        Some(Group::Right)
    } else if word == b"nonassoc".as_slice() {
        Some(Group::NonAssoc)
    } else {
        None
    }
}

fn quoted(alloc: Global, tokens: &mut Tokens<'_>) -> Result<Quoted, Refusal>
    ensures { Reads (λ s. s) (readers.quoted (left_of tokens.old)) result (left_of tokens.new) }
{
    tokens.quoted(alloc)
}

/// `{ quoted }`, after those that were found.
fn literals(
    alloc: Global,
    tokens: &mut Tokens<'_>,
    found: Vec<Quoted>,
) -> Result<Vec<Quoted>, Refusal>
    ensures { Reads (λ v. v.items) (many (sees is_literal) readers.quoted found.items (left_of tokens.old))
        result (left_of tokens.new) }
{
    repeated(alloc, tokens, Ahead::Literal, quoted, found)
}

/// `quoted { quoted } ';'`, after the first word.
#[tactic(auto, unfolding(sg_ast::specs::Reading::grouped))]
fn grouped(
    alloc: Global,
    tokens: &mut Tokens<'_>,
    group: Group,
    place: Position,
) -> Result<Decl, Refusal>
    ensures { Reads tree_of (spec.grouped group place (left_of tokens.old)) result (left_of tokens.new) }
{
    let mut found = Vec::new(alloc);
    found.push(tokens.quoted(alloc)?)?;
    let found = literals(alloc, tokens, found)?;
    tokens.expect_sign(Symbol::Semicolon)?;
    Ok(Decl::Levels(group, Row::new(found), place))
}

/// `( 'left' | 'right' | 'nonassoc' ) quoted { quoted } ';'`, after the first word.
#[tactic(auto, unfolding(sg_ast::specs::Reading::precedence))]
pub fn precedence(alloc: Global, tokens: &mut Tokens<'_>, word: Name) -> Result<Decl, Refusal>
    ensures { Reads tree_of (spec.precedence word (left_of tokens.old)) result (left_of tokens.new) }
{
    match group_of(word.text.as_slice()) {
        Some(group) => grouped(alloc, tokens, group, word.place),
        None => Err(Refusal::NoReading),
    }
}
