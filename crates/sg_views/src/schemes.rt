//! The schemes of declarations.
ghost use Rattle.std.specs.Prelude.{◌≡◌, ◌++◌, ℕ, bytes_eq, map, option_copied, unwrap_or, IfOk, OnOk};
ghost use Rattle.sg_ast.specs.View.{tree_of, trees_of};
ghost use Rattle.sg_counts.specs.Definitions.{is_same_view as same_views, view_name};
ghost use Rattle.sg_names.specs.Names.{owned};
ghost use Rattle.sg_names.specs.Rows.{row_at};
ghost use Rattle.sg_views.specs.Schemes as spec;
ghost use Rattle.sg_typing.specs.Arguments.{local_of};

use crate::pieces::pieces;
use sg_ast::decl::{Decl, Item as Written, SchemeDecl, Target};
use sg_ast::name::{Name, Quoted};
use sg_kinds::ids::OpId;
use sg_kinds::memory::NoMemory;
use sg_kinds::row::Row;
use sg_kinds::spec::{Item, Occurrence, Piece, Scheme};
use sg_kinds::text::Text;
use sg_names::groups::Groups;
use sg_names::names::Names;
use sg_types::bindings::local_slot;
use std::alloc::Global;

/// The pieces of a string; none where it has none.
fn pieces_in(alloc: Global, text: &[u8]) -> Result<Row<Piece>, NoMemory>
    ensures { IfOk result (λ r. r ≡ spec.pieces_in text.now) }
{
    match pieces(alloc, text)? {
        Some(pieces) => Ok(Row::new(pieces)),
        None => Ok(Row::new(Vec::new(alloc))),
    }
}

/// The strings of a separator, one behind the other.
fn bytes_in(alloc: Global, strings: &[Quoted]) -> Result<Vec<u8>, NoMemory>
    ensures { IfOk result (λ v. v.items ≡ spec.bytes_in strings.now) }
{
    let mut bytes = Vec::new(alloc);
    for string in strings {
        bytes.extend_from_slice(string.text.as_slice())?;
    }
    Ok(bytes)
}

const FIRST: Occurrence = Occurrence { at: 0, slot: 0 };

/// A local as what a scheme shows.
fn shown_local(names: &Names, op: OpId, name: &Text) -> Result<Occurrence, NoMemory>
    ensures { IfOk result (λ o. o ≡ unwrap_or (local_of names.now op name.now) spec.first_slot) }
{
    let Some(slot) = local_slot(names, op, name) else {
        return Ok(FIRST);
    };
    let Ok(slot) = u32::try_from(slot) else {
        return Err(NoMemory);
    };
    Ok(Occurrence { at: 0, slot })
}

/// What a scheme of an operator shows.
fn shown(names: &Names, op: OpId, target: &Target) -> Result<Occurrence, NoMemory>
    ensures { IfOk result (λ o. o ≡ spec.shown names.now op target.now) }
{
    match target {
        Target::Attribute(reference) => match names.reference(op, reference) {
            Some(occurrence) => Ok(occurrence),
            None => Ok(FIRST),
        },
        Target::Local(name) => shown_local(names, op, &name.text),
    }
}

/// An item of a scheme.
fn item(alloc: Global, names: &Names, op: OpId, item: &Written) -> Result<Item, NoMemory>
    ensures { IfOk result (λ i. i ≡ spec.item_of names.now op item.now) }
{
    match item {
        Written::Writes(string) => {
            let pieces = pieces_in(alloc, string.text.as_slice())?;
            Ok(Item::Writes(pieces))
        }
        Written::Child(how) => Ok(Item::Child(*how)),
        Written::Shows(target) => {
            let occurrence = shown(names, op, target)?;
            Ok(Item::Shows(occurrence))
        }
        Written::Separates(strings) => {
            let bytes = bytes_in(alloc, strings.as_slice())?;
            let pieces = pieces_in(alloc, bytes.as_slice())?;
            Ok(Item::Separates(pieces))
        }
    }
}

fn items(alloc: Global, names: &Names, op: OpId, items: &[Written]) -> Result<Vec<Item>, NoMemory>
    ensures { IfOk result (λ v. v.items ≡ map (spec.item_of names.now op) items.now) }
{
    let mut made = Vec::new(alloc);
    for each in items {
        made.push(item(alloc, names, op, each)?)?;
    }
    Ok(made)
}

/// A scheme of an operator.
fn scheme(alloc: Global, names: &Names, op: OpId, scheme: &SchemeDecl) -> Result<Scheme, NoMemory>
    ensures { IfOk result (λ s. s ≡ spec.scheme_of names.now op scheme.now) }
{
    let items = items(alloc, names, op, scheme.items.as_slice())?;
    Ok(Scheme {
        rests: scheme.rests,
        editable: scheme.editable,
        items: Row::new(items),
    })
}

/// Puts schemes of an operator behind its others.
fn add_schemes(
    alloc: Global,
    names: &Names,
    found: &mut Groups<Scheme>,
    op: OpId,
    schemes: &[SchemeDecl],
) -> Result<(), NoMemory>
    ensures { OnOk result ((k : ℕ) → row_at found.new k
        ≡ row_at found.old k ++ owned (map (λ s. (op, spec.scheme_of names.now op s)) schemes.now) k) }
{
    let owner = op.number;
    for each in schemes {
        found.put(alloc, owner, scheme(alloc, names, op, each)?)?;
    }
    Ok(())
}

/// Whether two names have the same bytes.
pub(crate) fn is_same(a: &Text, b: &Text) -> bool
    ensures { result ≡ bytes_eq a.now b.now }
{
    a.as_slice() == b.as_slice()
}

/// Whether a view that a declaration names is this one; None is the ordinary one.
fn is_same_view(written: &Option<Name>, view: Option<&Text>) -> bool
    ensures { result ≡ same_views (view_name written.now) (option_copied view.entry) }
{
    match (written, view) {
        (None, None) => true,
        (Some(name), Some(view)) => is_same(&name.text, view),
        _ => false,
    }
}

/// The same of a declaration, if its schemes are of the view.
fn add_schemes_at(
    alloc: Global,
    names: &Names,
    view: Option<&Text>,
    found: &mut Groups<Scheme>,
    decl: &Decl,
) -> Result<(), NoMemory>
    ensures { OnOk result ((k : ℕ) → row_at found.new k
        ≡ row_at found.old k ++ owned (spec.schemes_at names.now (option_copied view.entry) (tree_of decl.now)) k) }
{
    if let Decl::Schemes(phylum, op, written, schemes) = decl
        && is_same_view(written, view)
        && let Some(op) = names.operator_at(phylum, op)
    {
        add_schemes(alloc, names, found, op, schemes.as_slice())?;
    }
    Ok(())
}

/// The schemes of each operator in a view, each row in the order of the text; None is the ordinary view. There are none
/// in a view that no declaration names.
pub fn schemes(
    alloc: Global,
    decls: &[Decl],
    names: &Names,
    view: Option<&Text>,
) -> Result<Groups<Scheme>, NoMemory>
    ensures { IfOk result (λ g. (k : ℕ) → row_at g k
        ≡ spec.schemes_of names.now (option_copied view.entry) (trees_of decls.now) k) }
{
    let mut found = Groups::new(alloc);
    for decl in decls {
        add_schemes_at(alloc, names, view, &mut found, decl)?;
    }
    Ok(found)
}
