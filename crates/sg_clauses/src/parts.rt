//! The symbols of productions.
ghost use Rattle.std.specs.Prelude.{[]};
ghost use Rattle.sg_ast.specs.Readers.{sees, many};
ghost use Rattle.sg_ast.specs.Reading as spec;
ghost use Rattle.sg_cursor.specs.Left.{left_of, Reads};

use crate::repeated::{Ahead, repeated};
use sg_ast::decl::Part;
use sg_cursor::{Refusal, Tokens};
use std::alloc::Global;

/// `name | quoted`
#[tactic(auto, unfolding(sg_ast::specs::Reading::part_of))]
fn part(alloc: Global, tokens: &mut Tokens<'_>) -> Result<Part, Refusal>
    ensures { Reads (λ p. p) (spec.part_of (left_of tokens.old)) result (left_of tokens.new) }
{
    if tokens.sees_name() {
        return Ok(Part::Named(tokens.name(alloc)?));
    }
    Ok(Part::Literal(tokens.quoted(alloc)?))
}

/// `{ name | quoted }`
pub fn parts(alloc: Global, tokens: &mut Tokens<'_>) -> Result<Vec<Part>, Refusal>
    ensures { Reads (λ v. v.items) (many (sees spec.is_part) spec.part_of [] (left_of tokens.old))
        result (left_of tokens.new) }
{
    repeated(alloc, tokens, Ahead::Part, part, Vec::new(alloc))
}
