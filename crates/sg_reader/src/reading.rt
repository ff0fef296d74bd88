//! The trees of a text.
ghost use Rattle.std.specs.Prelude.{◌≡◌, ◌+◌, ◌<◌, ◌^◌, ℕ, List, length, IfOk, Err};
ghost use Rattle.sg_ast.specs.Declarations.{Decl};
ghost use Rattle.sg_ast.specs.Reading.{decl_of};
ghost use Rattle.sg_ast.specs.Spells.{marks_from, declarations, EachSpells};
ghost use Rattle.sg_ast.specs.View.{tree_of, trees_of};
ghost use Rattle.sg_reader.specs.EachRead.{read_from, Answers, IsFirstUnread, IsOf};
ghost use Rattle.sg_cursor.specs.Left.{Gives};

use crate::decl::declaration;
use crate::fault::ReadFault;
use sg_ast::decl::Decl as DeclTree;
use sg_cursor::{Refusal, Tokens};
use sg_text::{Token, declaration_len};
use std::alloc::Global;

/// The tree that the tokens spell, of which the first has this number in the text.
#[tactic(auto, unfolding(sg_ast::specs::Reading::decl_of))]
fn one(alloc: Global, bytes: &[u8], tokens: &[Token], number: u32) -> Result<DeclTree, Refusal>
    requires { number + length tokens.now < 2 ^ 32 }
    ensures { Gives tree_of (decl_of (marks_from bytes.now number tokens.now)) result }
{
    let mut left = Tokens::new(bytes, tokens, number);
    let decl = declaration(alloc, &mut left)?;
    if left.len() != 0 {
        return Err(Refusal::NoReading);
    }
    Ok(decl)
}

/// The trees that the declarations spell.
fn each(alloc: Global, bytes: &[u8], tokens: &[Token]) -> Result<Vec<DeclTree>, ReadFault>
    requires { length tokens.now < 2 ^ 32 }
    ensures { Answers (λ ds. trees_of ds.items) (read_from 0 (declarations bytes.now tokens.now)) result }
{
    let mut found = Vec::new(alloc);
    let mut rest = tokens;
    let mut number = 0;
    while let [first, ..] = rest {
        let (declaration, others) = rest.split_at(declaration_len(rest));
        match one(alloc, bytes, declaration, number) {
            Ok(decl) => found.push(decl)?,
            Err(Refusal::NoReading) => return Err(ReadFault::Syntax(found.len(), first.line)),
            Err(Refusal::NoMemory) => return Err(ReadFault::NoMemory),
        }
        number += declaration.len() as u32;
        rest = others;
    }
    Ok(found)
}

/// The trees of a text with these tokens: one for each of its declarations.
pub fn read(alloc: Global, bytes: &[u8], tokens: &[Token]) -> Result<Vec<DeclTree>, ReadFault>
    requires short { length tokens.now < 2 ^ 32 }
    ensures reading { Answers (λ ds. trees_of ds.items) (read_from 0 (declarations bytes.now tokens.now)) result }
    // Each tree is spelled by its declaration, and its places are those of the tokens.
    ensures found { IfOk result (λ ds. EachSpells (declarations bytes.now tokens.now) (trees_of ds.items)) }
    // Where trees spell all declarations, they are read, and no others.
    ensures only { (ds : List Decl) → EachSpells (declarations bytes.now tokens.now) ds
        → IsOf (λ trees. trees_of trees.items) ds result }
    // A fault names the first declaration that no tree spells.
    ensures first { (number line : ℕ) → result ≡ Err (ReadFault.Syntax number line)
        → IsFirstUnread (declarations bytes.now tokens.now) number line }
{
    each(alloc, bytes, tokens)
}
