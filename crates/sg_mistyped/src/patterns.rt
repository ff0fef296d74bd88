//! The mismatches of patterns.
ghost use Rattle.std.specs.Prelude.{◌≡◌, ◌++◌, Some, option_and_then, OnOk};
ghost use Rattle.sg_ast.specs.Patterns as plain;
ghost use Rattle.sg_ast.specs.View.{pattern_of, patterns_of};
ghost use Rattle.sg_kinds.specs.Specification.{phylum_of};
ghost use Rattle.sg_names.specs.Lookups.{usable_named};
ghost use Rattle.sg_types.specs.Types as types;
ghost use Rattle.sg_mistyped.specs.Mistyped as spec;

use crate::mistyped::{Mistyped, add, one};
use sg_ast::name::Name;
use sg_ast::pattern::{Pattern, Patterns};
use sg_kinds::fault::Position;
use sg_kinds::ids::{OpId, PhylumId};
use sg_kinds::memory::NoMemory;
use sg_names::names::Names;
use sg_names::table::Callable;
use sg_types::pattern::{is_operator_of, parts_of};
use sg_types::types::{BOOL, INT, STR, fits_where, is_wanted, takes_texts};

// the phylum of an operator
fn op_phylum(names: &Names, op: &Option<OpId>) -> Option<PhylumId>
    ensures { result ≡ option_and_then (phylum_of names.now.ops) op.now }
{
    let op = (*op)?;
    names.result(Callable::Operator(op))
}

// a constant of a type, which fits where that says
fn constant(
    fits: bool,
    place: Position,
    wanted: &Option<PhylumId>,
    of: PhylumId,
    found: &mut Vec<Mistyped>,
) -> Result<(), NoMemory>
    ensures { OnOk result (found.new.items ≡ found.old.items ++ spec.listed fits
        (record { place = place; wanted = spec.one wanted.now; found = Some of })) }
{
    add(found, fits, place, one(wanted), Some(of))
}

// `<p>` or `[p]`
fn made_term(
    names: &Names,
    name: &Name,
    place: Position,
    wanted: &Option<PhylumId>,
    found: &mut Vec<Mistyped>,
) -> Result<(), NoMemory>
    ensures { let of = usable_named names.now name.now.text in
        OnOk result (found.new.items ≡ found.old.items ++ spec.listed (types.fits_where names.now wanted.now of)
        (record { place = place; wanted = spec.one wanted.now; found = of })) }
{
    let of = names.usable_named(&name.text);
    add(
        found,
        fits_where(names, wanted, &of),
        place,
        one(wanted),
        of,
    )
}

/// Puts the mismatches of a pattern where a type is wanted behind the others.
#[cycle(pattern)]
pub(crate) fn pattern(
    names: &Names,
    matched: &Pattern,
    wanted: &Option<PhylumId>,
    found: &mut Vec<Mistyped>,
) -> Result<(), NoMemory>
    ensures { OnOk result (found.new.items ≡ found.old.items
        ++ spec.of_pattern names.now (pattern_of matched.now) wanted.now) }
{
    match matched {
        Pattern::Number(_, _, place) => {
            constant(is_wanted(INT, wanted), *place, wanted, INT, found)
        }
        Pattern::Text(quoted) => {
            constant(takes_texts(names, wanted), quoted.place, wanted, STR, found)
        }
        Pattern::Truth(_, place) => constant(is_wanted(BOOL, wanted), *place, wanted, BOOL, found),
        Pattern::Anything(_) | Pattern::Variable(_) => Ok(()),
        Pattern::Made(_, name, place) => made_term(names, name, *place, wanted, found),
        Pattern::Operator(name, parts) => operator(names, name, parts, wanted, found),
    }
}

#[cycle(pattern)]
fn operator(
    names: &Names,
    name: &Name,
    parts: &Patterns,
    wanted: &Option<PhylumId>,
    found: &mut Vec<Mistyped>,
) -> Result<(), NoMemory>
    ensures { OnOk result (found.new.items ≡ found.old.items
        ++ spec.of_pattern names.now (plain.Applied name.now (patterns_of parts.now)) wanted.now) }
{
    let op = names.op_named(&name.text);
    let fits = is_operator_of(names, &op, wanted);
    add(found, fits, name.place, one(wanted), op_phylum(names, &op))?;
    all(names, parts, parts_of(names, &op), found)
}

// the patterns of arguments of these types, as deep as there are types
#[cycle(pattern)]
fn all(
    names: &Names,
    patterns: &Patterns,
    types: &[PhylumId],
    found: &mut Vec<Mistyped>,
) -> Result<(), NoMemory>
    ensures { OnOk result (found.new.items ≡ found.old.items
        ++ spec.of_patterns names.now (patterns_of patterns.now) types.now) }
{
    match (patterns, types.split_first()) {
        (Patterns::More(first, rest), Some((of, types))) => {
            pattern(names, first, &Some(*of), found)?;
            all(names, rest, types, found)
        }
        (Patterns::More(_, _), None) => Ok(()),
        (Patterns::End, _) => Ok(()),
    }
}
