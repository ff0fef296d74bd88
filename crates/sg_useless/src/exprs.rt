//! What an expression uses.
ghost use Rattle.std.specs.Prelude.{◌≡◌, ◌++◌, OnOk};
ghost use Rattle.sg_kinds.specs.ExprView.{expr_of, exprs_of, cases_of};
ghost use Rattle.sg_kinds.specs.Specification.{phylum_of as phylum_with};
ghost use Rattle.sg_useless.specs.Named.{called, made, named_in, named_in_all, named_in_cases};

use crate::part::Part;
use sg_kinds::expr::{CaseList, ExprList, ExprTree};
use sg_kinds::ids::OpId;
use sg_kinds::memory::NoMemory;
use sg_kinds::spec::Operator;

// Puts a function last that is called, unless the call stands in its own body.
fn add_called(own: Option<usize>, function: u32, uses: &mut Vec<Part>) -> Result<(), NoMemory>
    ensures { OnOk result (uses.new.items ≡ uses.old.items ++ called own function) }
{
    let function = function as usize;
    let is_own = match own {
        Some(body) => body == function,
        None => false,
    };
    if !is_own {
        uses.push(Part::Function(function))?;
    }
    Ok(())
}

// The phylum of an operator.
fn phylum_of(ops: &[Operator], op: OpId) -> Option<usize>
    ensures { result ≡ phylum_with ops.now op }
{
    Some(ops.get(op.number as usize)?.phylum.number as usize)
}

// Puts the phylum of an operator last that makes a term.
fn add_made(ops: &[Operator], op: OpId, uses: &mut Vec<Part>) -> Result<(), NoMemory>
    ensures { OnOk result (uses.new.items ≡ uses.old.items ++ made ops.now op) }
{
    if let Some(p) = phylum_of(ops, op) {
        uses.push(Part::Phylum(p))?;
    }
    Ok(())
}

/// Puts what an expression uses last, which may be the body of a function.
#[cycle(named)]
pub fn add_named(
    ops: &[Operator],
    own: Option<usize>,
    tree: &ExprTree,
    uses: &mut Vec<Part>,
) -> Result<(), NoMemory>
    ensures { OnOk result (uses.new.items ≡ uses.old.items ++ named_in ops.now own (expr_of tree.now)) }
{
    match tree {
        ExprTree::Literal(_) | ExprTree::Named(_) => Ok(()),
        ExprTree::Made(_, p) => {
            uses.push(Part::Phylum(p.number as usize))?;
            Ok(())
        }
        ExprTree::Unary(_, a) => add_named(ops, own, a, uses),
        ExprTree::Binary(_, a, b) => {
            add_named(ops, own, a, uses)?;
            add_named(ops, own, b, uses)
        }
        ExprTree::Logical(_, a, b) => {
            add_named(ops, own, a, uses)?;
            add_named(ops, own, b, uses)
        }
        ExprTree::Cons(_, a, b) => {
            add_named(ops, own, a, uses)?;
            add_named(ops, own, b, uses)
        }
        ExprTree::Choice(c, a, b) => {
            add_named(ops, own, c, uses)?;
            add_named(ops, own, a, uses)?;
            add_named(ops, own, b, uses)
        }
        ExprTree::Apply(op, parts) => {
            add_made(ops, *op, uses)?;
            add_all(ops, own, parts, uses)
        }
        ExprTree::Call(function, parts) => {
            add_called(own, *function, uses)?;
            add_all(ops, own, parts, uses)
        }
        ExprTree::Let(a, b) => {
            add_named(ops, own, a, uses)?;
            add_named(ops, own, b, uses)
        }
        ExprTree::With(a, cases) => {
            add_named(ops, own, a, uses)?;
            add_cases(ops, own, cases, uses)
        }
    }
}

#[cycle(named)]
fn add_all(
    ops: &[Operator],
    own: Option<usize>,
    list: &ExprList,
    uses: &mut Vec<Part>,
) -> Result<(), NoMemory>
    ensures { OnOk result (uses.new.items ≡ uses.old.items ++ named_in_all ops.now own (exprs_of list.now)) }
{
    match list {
        ExprList::End => Ok(()),
        ExprList::More(first, rest) => {
            add_named(ops, own, first, uses)?;
            add_all(ops, own, rest, uses)
        }
    }
}

#[cycle(named)]
fn add_cases(
    ops: &[Operator],
    own: Option<usize>,
    cases: &CaseList,
    uses: &mut Vec<Part>,
) -> Result<(), NoMemory>
    ensures { OnOk result (uses.new.items ≡ uses.old.items ++ named_in_cases ops.now own (cases_of cases.now)) }
{
    let mut rest = cases;
    while let CaseList::More(_, first, next) = rest {
        add_named(ops, own, first, uses)?;
        rest = next;
    }
    match rest {
        CaseList::Default(e) => add_named(ops, own, e, uses),
        _ => Ok(()),
    }
}
