//! References to enclosing nodes.
ghost use Rattle.std.specs.Prelude.{◌≡◌, ◌++◌, OnOk};
ghost use Rattle.sg_ast.specs.View.{expr_of, exprs_of, cases_of};
ghost use Rattle.sg_ast.specs.Remotes.{remotes_of, remotes_of_all, remotes_of_cases, remotes_seen};

use crate::expr::{Cases, Expr, Exprs, Operands};
use crate::name::Remote;
use sg_kinds::memory::NoMemory;

/// Puts the references to enclosing nodes of an expression last, in the order of the text.
#[cycle(remotes)]
pub fn remotes<'a>(e: &'a Expr, found: &mut Vec<&'a Remote>) -> Result<(), NoMemory>
    ensures { OnOk result (remotes_seen found.new.items ≡ remotes_seen found.old.items ++ remotes_of (expr_of e.now)) }
{
    match e {
        Expr::Number(_, _)
        | Expr::Text(_)
        | Expr::Truth(_, _)
        | Expr::Variable(_)
        | Expr::Attribute(_)
        | Expr::Made(_, _, _) => Ok(()),
        Expr::Remote(remote) => {
            found.push(remote)?;
            Ok(())
        }
        Expr::Paren(inner, _) | Expr::Prefix(_, inner, _) => remotes(inner, found),
        Expr::Binary(_, operands) => {
            let Operands::Both(left, right) = &**operands;
            remotes(left, found)?;
            remotes(right, found)
        }
        Expr::Choice(test, yes, no) => {
            remotes(test, found)?;
            remotes(yes, found)?;
            remotes(no, found)
        }
        Expr::Call(_, args) => remotes_all(args, found),
        Expr::Let(_, value, body, _) => {
            remotes(value, found)?;
            remotes(body, found)
        }
        Expr::With(value, _, body, rest) => {
            remotes(value, found)?;
            remotes(body, found)?;
            remotes_cases(rest, found)
        }
    }
}

#[cycle(remotes)]
fn remotes_all<'a>(exprs: &'a Exprs, found: &mut Vec<&'a Remote>) -> Result<(), NoMemory>
    ensures { OnOk result (remotes_seen found.new.items
        ≡ remotes_seen found.old.items ++ remotes_of_all (exprs_of exprs.now)) }
{
    let mut left = exprs;
    while let Exprs::More(first, rest) = left {
        remotes(first, found)?;
        left = rest;
    }
    Ok(())
}

#[cycle(remotes)]
fn remotes_cases<'a>(cases: &'a Cases, found: &mut Vec<&'a Remote>) -> Result<(), NoMemory>
    ensures { OnOk result (remotes_seen found.new.items
        ≡ remotes_seen found.old.items ++ remotes_of_cases (cases_of cases.now)) }
{
    let mut left = cases;
    loop {
        match left {
            Cases::End => return Ok(()),
            Cases::Default(body) => return remotes(body, found),
            Cases::More(_, body, rest) => {
                remotes(body, found)?;
                left = rest;
            }
        }
    }
}
