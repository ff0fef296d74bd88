//! What is found of expressions.
ghost use Rattle.std.specs.Prelude.{◌≡◌, Some, None, IfOk, map};
ghost use Rattle.sg_kinds.specs.ExprView.{expr_of, cases_of};
ghost use Rattle.sg_kinds.specs.Expressions as kept;
ghost use Rattle.sg_kinds.specs.PatternView.{literal_of, pattern_of};
ghost use Rattle.sg_ast.specs.FirstFault.{or_else};
ghost use Rattle.sg_kinds.specs.Specification.{truths};
ghost use Rattle.sg_types.specs.Expressions as spec;
ghost use Rattle.sg_types.specs.ExpressionsView.{with_cases, case_of};

use crate::pattern::Checked;
use crate::types::{BOOL, earlier, fits_where, unless};
use sg_kinds::expr::{CaseList, ExprList, ExprTree};
use sg_kinds::fault::Position;
use sg_kinds::ids::PhylumId;
use sg_kinds::memory::NoMemory;
use sg_kinds::pattern::{Literal, Pattern};
use sg_names::names::Names;
use std::alloc::Global;
use std::boxed::Box;

/// An expression of the record, with its type if it has one, its first token, and the first mismatch inside it.
#[derive(Drop)]
pub struct Found {
    pub tree: ExprTree,
    pub of: Option<PhylumId>,
    pub place: Position,
    pub mismatch: Option<Position>,
}

/// Arguments of the record, and the first mismatch among them.
#[derive(Drop)]
pub(crate) struct FoundList {
    pub list: ExprList,
    pub mismatch: Option<Position>,
}

/// A case: its pattern, and the expression behind it.
#[derive(Drop)]
pub(crate) struct FoundCase {
    pub pattern: Checked,
    pub body: Found,
}

/// Cases of the record, and the first mismatch among them.
#[derive(Drop)]
pub(crate) struct FoundCases {
    pub list: CaseList,
    pub mismatch: Option<Position>,
}

/// A number or a truth value.
pub(crate) fn constant(literal: Literal, of: PhylumId, place: Position) -> Found
    ensures tree { expr_of result.tree ≡ kept.Constant (literal_of literal) }
    ensures of { result.of ≡ Some of }
    ensures place { result.place ≡ place }
    ensures mismatch { result.mismatch ≡ None }
{
    Found {
        tree: ExprTree::Literal(literal),
        of: Some(of),
        place,
        mismatch: None,
    }
}

/// The first mismatch of an expression where a type is wanted.
pub fn where_wanted(names: &Names, wanted: &Option<PhylumId>, found: &Found) -> Option<Position>
    ensures { result ≡ spec.where_wanted names.now wanted.now found.now.of found.now.place found.now.mismatch }
{
    let own = unless(fits_where(names, wanted, &found.of), found.place);
    earlier(own, found.mismatch)
}

/// The first mismatch of a case, where a type is wanted.
pub(crate) fn mismatch_of(
    names: &Names,
    wanted: &Option<PhylumId>,
    case: &FoundCase,
) -> Option<Position>
    ensures { result ≡ or_else case.now.pattern.mismatch
        (spec.where_wanted names.now wanted.now case.now.body.of case.now.body.place case.now.body.mismatch) }
{
    earlier(
        case.pattern.mismatch,
        where_wanted(names, wanted, &case.body),
    )
}

/// `a ? b : c`.
pub(crate) fn chosen(
    alloc: Global,
    names: &Names,
    condition: Found,
    first: Found,
    second: Found,
) -> Result<Found, NoMemory>
    ensures tree { IfOk result (λ f. expr_of f.tree ≡ kept.Choice (expr_of condition.tree) (expr_of first.tree)
        (expr_of second.tree)) }
    ensures of { IfOk result (λ f. f.of ≡ first.of) }
    ensures place { IfOk result (λ f. f.place ≡ condition.place) }
    ensures mismatch { IfOk result (λ f. f.mismatch ≡ or_else
        (spec.where_wanted names.now (Some truths) condition.of condition.place condition.mismatch)
        (or_else first.mismatch (spec.where_wanted names.now first.of second.of second.place second.mismatch))) }
{
    let own = where_wanted(names, &Some(BOOL), &condition);
    let last = where_wanted(names, &first.of, &second);
    let condition_tree = Box::new(alloc, condition.tree)?;
    let first_tree = Box::new(alloc, first.tree)?;
    Ok(Found {
        tree: ExprTree::Choice(condition_tree, first_tree, Box::new(alloc, second.tree)?),
        of: first.of,
        place: condition.place,
        mismatch: earlier(own, earlier(first.mismatch, last)),
    })
}

/// `with`, of its subject, its first case and the others.
pub(crate) fn distinguished(
    alloc: Global,
    subject: Found,
    first: FoundCase,
    rest: FoundCases,
    place: Position,
) -> Result<Found, NoMemory>
    ensures tree { IfOk result (λ f. expr_of f.tree ≡ kept.With (expr_of subject.tree)
        (kept.Case (pattern_of first.pattern.tree) (expr_of first.body.tree) (cases_of rest.list))) }
    ensures of { IfOk result (λ f. f.of ≡ first.body.of) }
    ensures place { IfOk result (λ f. f.place ≡ place) }
    ensures mismatch { IfOk result (λ f. f.mismatch ≡ or_else subject.mismatch
        (or_else first.pattern.mismatch (or_else first.body.mismatch rest.mismatch))) }
{
    let FoundCase { pattern, body } = first;
    let inside = earlier(body.mismatch, rest.mismatch);
    let mismatch = earlier(subject.mismatch, earlier(pattern.mismatch, inside));
    let tree = Box::new(alloc, subject.tree)?;
    let body_tree = Box::new(alloc, body.tree)?;
    let cases = CaseList::More(
        Pattern { tree: pattern.tree },
        body_tree,
        Box::new(alloc, rest.list)?,
    );
    Ok(Found {
        tree: ExprTree::With(tree, Box::new(alloc, cases)?),
        of: body.of,
        place,
        mismatch,
    })
}

/// These cases before others.
pub(crate) fn chain(
    alloc: Global,
    mut cases: Vec<(Pattern, ExprTree)>,
    rest: CaseList,
) -> Result<CaseList, NoMemory>
    ensures { IfOk result (λ cs. cases_of cs ≡ with_cases (map case_of cases.items) (cases_of rest)) }
{
    let mut chain = rest;
    while let Some((pattern, expr)) = cases.pop() {
        let expr = Box::new(alloc, expr)?;
        chain = CaseList::More(pattern, expr, Box::new(alloc, chain)?);
    }
    Ok(chain)
}
