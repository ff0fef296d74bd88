//! Patterns where a type is wanted.
ghost use Rattle.std.specs.Prelude.{◌≡◌, ◌++◌, ◌∷◌, [], Some, None, IfOk, OnOk};
ghost use Rattle.sg_ast.specs.View.{pattern_of, patterns_of};
ghost use Rattle.sg_ast.specs.Patterns as plain;
ghost use Rattle.sg_kinds.specs.Expressions as kept;
ghost use Rattle.sg_kinds.specs.PatternView as view;
ghost use Rattle.sg_kinds.specs.Values as value;
ghost use Rattle.sg_types.specs.Patterns as spec;
ghost use Rattle.sg_types.specs.PatternsView.{IsChecked, AreChecked};
ghost use Rattle.sg_types.specs.Types as types;

use crate::scope::{Scope, Variable};
use crate::types::{
    BOOL, INT, earlier, fits_where, is_wanted, op_or_none, phylum_or_none, takes_texts, unless,
};
use sg_ast::name::{Name, Quoted};
use sg_ast::number::Number;
use sg_ast::pattern::{Pattern, Patterns};
use sg_kinds::fault::Position;
use sg_kinds::ids::{OpId, PhylumId};
use sg_kinds::marks::Made;
use sg_kinds::memory::NoMemory;
use sg_kinds::pattern::{Literal, PatternList, PatternTree};
use sg_names::names::Names;
use std::alloc::Global;
use std::boxed::Box;

/// A pattern of the record, and the first part of what it was made of that does not fit.
#[derive(Drop)]
pub struct Checked {
    pub tree: PatternTree,
    pub mismatch: Option<Position>,
}

/// The same of the patterns of an operator's arguments.
#[derive(Drop)]
pub(crate) struct CheckedList {
    pub list: PatternList,
    pub mismatch: Option<Position>,
}

// a pattern without parts
fn leaf(tree: PatternTree, fits: bool, place: Position) -> Checked
    ensures tree { result.tree ≡ tree }
    ensures mismatch { result.mismatch ≡ types.unless fits place }
{
    Checked {
        tree,
        mismatch: unless(fits, place),
    }
}

fn number(negative: bool, size: Number, fits: bool, place: Position) -> Checked
    ensures tree { view.pattern_of result.tree ≡ kept.Exactly (value.Number (spec.signed negative size)) }
    ensures mismatch { result.mismatch ≡ types.unless fits place }
{
    let value = if negative { -size.get() } else { size.get() };
    leaf(PatternTree::Literal(Literal::Number(value)), fits, place)
}

fn string(alloc: Global, quoted: &Quoted, fits: bool) -> Result<Checked, NoMemory>
    ensures tree { IfOk result (λ c. view.pattern_of c.tree ≡ kept.Exactly (value.Chars quoted.now.text)) }
    ensures mismatch { IfOk result (λ c. c.mismatch ≡ types.unless fits quoted.now.place) }
{
    let text = quoted.text.copy(alloc)?;
    Ok(leaf(
        PatternTree::Literal(Literal::Text(text)),
        fits,
        quoted.place,
    ))
}

fn variable(
    alloc: Global,
    name: &Name,
    wanted: &Option<PhylumId>,
    scope: &mut Scope,
) -> Result<Checked, NoMemory>
    ensures tree { IfOk result (λ c. view.pattern_of c.tree ≡ kept.Variable) }
    ensures mismatch { IfOk result (λ c. c.mismatch ≡ None) }
    ensures scope { OnOk result (scope.new ≡ scope.old ++ record { name = name.now.text; of = wanted.now } ∷ []) }
{
    scope.bind(Variable {
        name: name.text.copy(alloc)?,
        of: *wanted,
    })?;
    Ok(leaf(PatternTree::Variable, true, name.place))
}

fn made_term(
    names: &Names,
    made: Made,
    name: &Name,
    wanted: &Option<PhylumId>,
    place: Position,
) -> Checked
    ensures { IsChecked names.now (plain.MadeAs made name.now place) wanted.now result }
{
    let of = names.usable_named(&name.text);
    let fits = fits_where(names, wanted, &of);
    let phylum = phylum_or_none(&of);
    leaf(PatternTree::Made(made, phylum), fits, place)
}

/// Whether an operator is of the phylum that is wanted.
pub fn is_operator_of(names: &Names, op: &Option<OpId>, wanted: &Option<PhylumId>) -> bool
    ensures { result ≡ spec.is_operator_of names.now op.now wanted.now }
{
    let Some(op) = op else {
        return false;
    };
    match names.table().ops.place(op.number) {
        Some(operator) => is_wanted(operator.phylum, wanted),
        None => false,
    }
}

/// The types of an operator's arguments, none where it is not there.
pub fn parts_of<'a>(names: &'a Names, op: &Option<OpId>) -> &'a [PhylumId]
    ensures { result.now ≡ spec.parts_of names.now op.now }
{
    match op {
        Some(op) => names.args(*op),
        None => &[],
    }
}

/// A pattern where a type is wanted. Its variables become visible.
#[cycle(pattern)]
pub fn pattern(
    alloc: Global,
    names: &Names,
    pattern: &Pattern,
    wanted: &Option<PhylumId>,
    scope: &mut Scope,
) -> Result<Checked, NoMemory>
    ensures checked { IfOk result (IsChecked names.now (pattern_of pattern.now) wanted.now) }
    ensures scope { OnOk result (scope.new ≡ scope.old
        ++ spec.variables_of names.now (pattern_of pattern.now) wanted.now) }
{
    match pattern {
        Pattern::Number(negative, size, place) => {
            Ok(number(*negative, *size, is_wanted(INT, wanted), *place))
        }
        Pattern::Text(quoted) => string(alloc, quoted, takes_texts(names, wanted)),
        Pattern::Truth(truth, place) => Ok(leaf(
            PatternTree::Literal(Literal::Truth(*truth)),
            is_wanted(BOOL, wanted),
            *place,
        )),
        Pattern::Anything(place) => Ok(leaf(PatternTree::Anything, true, *place)),
        Pattern::Variable(name) => variable(alloc, name, wanted, scope),
        Pattern::Made(made, name, place) => Ok(made_term(names, *made, name, wanted, *place)),
        Pattern::Operator(name, parts) => operator(alloc, names, name, parts, wanted, scope),
    }
}

#[cycle(pattern)]
fn operator(
    alloc: Global,
    names: &Names,
    name: &Name,
    parts: &Patterns,
    wanted: &Option<PhylumId>,
    scope: &mut Scope,
) -> Result<Checked, NoMemory>
    ensures checked { IfOk result (IsChecked names.now (plain.Applied name.now (patterns_of parts.now)) wanted.now) }
    ensures scope { OnOk result (scope.new ≡ scope.old
        ++ spec.variables_of names.now (plain.Applied name.now (patterns_of parts.now)) wanted.now) }
{
    let op = names.op_named(&name.text);
    let fits = is_operator_of(names, &op, wanted);
    let inside = all(alloc, names, parts, parts_of(names, &op), name.place, scope)?;
    let number = op_or_none(op);
    let mismatch = earlier(unless(fits, name.place), inside.mismatch);
    Ok(Checked {
        tree: PatternTree::Operator(number, inside.list),
        mismatch,
    })
}

// the patterns of arguments of these types, as deep as there are types
#[cycle(pattern)]
fn all(
    alloc: Global,
    names: &Names,
    patterns: &Patterns,
    types: &[PhylumId],
    place: Position,
    scope: &mut Scope,
) -> Result<CheckedList, NoMemory>
    ensures checked { IfOk result (AreChecked names.now place (patterns_of patterns.now) types.now) }
    ensures scope { OnOk result (scope.new ≡ scope.old
        ++ spec.variables_of_all names.now (patterns_of patterns.now) types.now) }
{
    match (patterns, types.split_first()) {
        (Patterns::End, None) => Ok(CheckedList {
            list: PatternList::End,
            mismatch: None,
        }),
        (Patterns::More(first, rest), Some((of, types))) => {
            let first = pattern(alloc, names, first, &Some(*of), scope)?;
            let rest = all(alloc, names, rest, types, place, scope)?;
            let tree = Box::new(alloc, first.tree)?;
            Ok(CheckedList {
                list: PatternList::More(tree, Box::new(alloc, rest.list)?),
                mismatch: earlier(first.mismatch, rest.mismatch),
            })
        }
        _ => Ok(CheckedList {
            list: PatternList::End,
            mismatch: Some(place),
        }),
    }
}
