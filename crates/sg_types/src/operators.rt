//! Operators: what they take and give, and their expressions in the record.
ghost use Rattle.std.specs.Prelude.{◌≡◌, IfOk};
ghost use Rattle.sg_kinds.specs.ExprView.{expr_of};
ghost use Rattle.sg_types.specs.Expressions as spec;
ghost use Rattle.sg_types.specs.Types as types;

use crate::found::{Found, where_wanted};
use crate::types::{BOOL, INT, NO_OP, STR, do_agree, earlier, unless};
use sg_ast::expr::{Infix, Prefix};
use sg_kinds::expr::ExprTree;
use sg_kinds::fault::Position;
use sg_kinds::ids::{OpId, PhylumId};
use sg_kinds::marks::{Connective, Shape, Sign, Unary};
use sg_kinds::memory::NoMemory;
use sg_names::names::Names;
use std::alloc::Global;
use std::boxed::Box;

/// What a prefix takes and gives.
pub fn prefix_type(prefix: Prefix) -> PhylumId
    ensures { result ≡ spec.prefix_type prefix }
{
    match prefix {
        Prefix::Minus => INT,
        Prefix::Not => BOOL,
    }
}

/// The prefix of the record.
pub(crate) fn prefix_of(prefix: Prefix) -> Unary
    ensures { result ≡ spec.prefix_of prefix }
{
    match prefix {
        Prefix::Minus => Unary::Negative,
        Prefix::Not => Unary::Not,
    }
}

/// What an operator takes on both sides, but for `==`, `!=` and `::`.
pub fn taken(sign: Infix) -> PhylumId
    ensures { result ≡ spec.taken sign }
{
    match sign {
        Infix::Or | Infix::And => BOOL,
        Infix::Join => STR,
        _ => INT,
    }
}

/// What an operator gives, by the type of its right operand.
pub fn given(sign: Infix, right: &Option<PhylumId>) -> Option<PhylumId>
    ensures { result ≡ spec.given sign right.now }
{
    match sign {
        Infix::Cons => *right,
        Infix::Join => Some(STR),
        Infix::Add | Infix::Sub | Infix::Mul | Infix::Div | Infix::Rem => Some(INT),
        _ => Some(BOOL),
    }
}

// the operator of the record, but for `||`, `&&` and `::`
fn sign_of(sign: Infix) -> Sign
    ensures { result ≡ spec.sign_of sign }
{
    match sign {
        Infix::Equal => Sign::Equal,
        Infix::Unequal => Sign::Unequal,
        Infix::Below => Sign::Below,
        Infix::AtMost => Sign::AtMost,
        Infix::Above => Sign::Above,
        Infix::AtLeast => Sign::AtLeast,
        Infix::Join => Sign::Join,
        Infix::Add => Sign::Add,
        Infix::Sub => Sign::Sub,
        Infix::Mul => Sign::Mul,
        Infix::Div => Sign::Div,
        _ => Sign::Rem,
    }
}

/// The binary operator of a list phylum, and the phylum of its elements.
pub type Pair = (OpId, PhylumId);

// of a phylum that is a list
fn pair_at(names: &Names, list: PhylumId) -> Option<Pair>
    ensures { result ≡ types.list_at names.now list }
{
    let phylum = names.table().phyla.place(list.number)?;
    match phylum.shape {
        Shape::Listed | Shape::OptionalListed => {
            let op = *phylum.ops.place(1)?;
            let element = names.args(op).first()?;
            Some((op, *element))
        }
        _ => None,
    }
}

/// That of a type, where it is a list.
pub fn pair_of(names: &Names, of: &Option<PhylumId>) -> Option<Pair>
    ensures { result ≡ types.list_of names.now of.now }
{
    match of {
        Some(list) => pair_at(names, *list),
        None => None,
    }
}

// the first mismatch of `==`, whose place is the right operand
fn at_equal(names: &Names, left: &Found, right: &Found) -> Option<Position>
    ensures { result ≡ spec.at_equal names.now left.now.of right.now.of right.now.place left.now.mismatch
        right.now.mismatch }
{
    let own = unless(do_agree(names, &left.of, &right.of), right.place);
    earlier(left.mismatch, earlier(own, right.mismatch))
}

// the first mismatch of `::`, by the list that is the right operand
fn at_cons(names: &Names, pair: &Option<Pair>, left: &Found, right: &Found) -> Option<Position>
    ensures { result ≡ spec.at_cons names.now pair.now left.now.of left.now.place right.now.place left.now.mismatch
        right.now.mismatch }
{
    match pair {
        Some((_, element)) => earlier(where_wanted(names, &Some(*element), left), right.mismatch),
        None => earlier(left.mismatch, Some(right.place)),
    }
}

// the first mismatch of an operator between operands
fn at_infix(names: &Names, sign: Infix, left: &Found, right: &Found) -> Option<Position>
    ensures { result ≡ spec.at_infix names.now sign left.now.of right.now.of left.now.place right.now.place
        left.now.mismatch right.now.mismatch }
{
    match sign {
        Infix::Equal | Infix::Unequal => at_equal(names, left, right),
        Infix::Cons => at_cons(names, &pair_of(names, &right.of), left, right),
        _ => {
            let wanted = Some(taken(sign));
            let first = where_wanted(names, &wanted, left);
            earlier(first, where_wanted(names, &wanted, right))
        }
    }
}

// the operator of the record
fn infix_tree(
    alloc: Global,
    sign: Infix,
    pair: &Option<Pair>,
    left: ExprTree,
    right: ExprTree,
) -> Result<ExprTree, NoMemory>
    ensures { IfOk result (λ e. expr_of e ≡ spec.infix_at sign pair.now (expr_of left) (expr_of right)) }
{
    let left = Box::new(alloc, left)?;
    let right = Box::new(alloc, right)?;
    Ok(match sign {
        Infix::Or => ExprTree::Logical(Connective::Either, left, right),
        Infix::And => ExprTree::Logical(Connective::Both, left, right),
        Infix::Cons => ExprTree::Cons(op_in(pair), left, right),
        _ => ExprTree::Binary(sign_of(sign), left, right),
    })
}

// the binary operator of a list, 0 where the type is of no list
fn op_in(pair: &Option<Pair>) -> OpId
    ensures { result ≡ spec.pair_in pair.now }
{
    match pair {
        Some((op, _)) => *op,
        None => NO_OP,
    }
}

/// An operator between operands.
pub(crate) fn between(
    alloc: Global,
    names: &Names,
    sign: Infix,
    left: Found,
    right: Found,
) -> Result<Found, NoMemory>
    ensures tree { IfOk result (λ f. expr_of f.tree ≡ spec.infix_in names.now sign right.of (expr_of left.tree)
        (expr_of right.tree)) }
    ensures of { IfOk result (λ f. f.of ≡ spec.given sign right.of) }
    ensures place { IfOk result (λ f. f.place ≡ left.place) }
    ensures mismatch { IfOk result (λ f. f.mismatch
        ≡ spec.at_infix names.now sign left.of right.of left.place right.place left.mismatch right.mismatch) }
{
    let mismatch = at_infix(names, sign, &left, &right);
    let of = given(sign, &right.of);
    let pair = pair_of(names, &right.of);
    Ok(Found {
        tree: infix_tree(alloc, sign, &pair, left.tree, right.tree)?,
        of,
        place: left.place,
        mismatch,
    })
}
