//! What stands several times in a row.
ghost use Rattle.std.specs.Prelude.{◌≡◌};
ghost use Rattle.sg_ast.specs.Readers.{Reader, many};
ghost use Rattle.sg_cursor.specs.Left.{left_of, Reads};
ghost use Rattle.sg_clauses.specs.Repeats.{is_ahead, ReadsItem};

use sg_cursor::{Refusal, Tokens};
use sg_text::{Keyword, Symbol};
use std::alloc::Global;

/// What may stand next.
#[derive(Clone, Copy)]
pub(crate) enum Ahead {
    Name,
    Text,
    Literal,
    /// A symbol of a production.
    Part,
    Sign(Symbol),
    /// Another token than this sign.
    Other(Symbol),
    Reserved(Keyword),
}

fn stands(ahead: Ahead, tokens: &Tokens<'_>) -> bool
    ensures { result ≡ is_ahead ahead (left_of tokens.now) }
{
    match ahead {
        Ahead::Name => tokens.sees_name(),
        Ahead::Text => tokens.sees_string(),
        Ahead::Literal => tokens.sees_quoted(),
        Ahead::Part => tokens.sees_part(),
        Ahead::Sign(symbol) => tokens.sees_sign(symbol),
        Ahead::Other(symbol) => tokens.sees_other(symbol),
        Ahead::Reserved(keyword) => tokens.sees_reserved(keyword),
    }
}

/// Items as long as this stands next, after those that were found.
pub(crate) fn repeated<T: Drop, F: Fn(Global, &mut Tokens<'_>) -> Result<T, Refusal>>(
    alloc: Global,
    tokens: &mut Tokens<'_>,
    ahead: Ahead,
    item: F,
    mut found: Vec<T>,
) -> Result<Vec<T>, Refusal>
    ghost rule: { Reader T }
    requires { ReadsItem rule (F.pre item) (F.post item) }
    ensures { Reads (λ v. v.items) (many (is_ahead ahead) rule found.items (left_of tokens.old))
        result (left_of tokens.new) }
{
    for _turn in 0..tokens.len() {
        if !stands(ahead, tokens) {
            return Ok(found);
        }
        found.push(item(alloc, tokens)?)?;
    }
    Ok(found)
}
