//! What schemes show.
ghost use Rattle.std.specs.Prelude.{◌≡◌};
ghost use Rattle.sg_ast.specs.FirstFault.{first};
ghost use Rattle.sg_ast.specs.View.{tree_of, trees_of};
ghost use Rattle.sg_kinds.specs.Specification.{has_shape, is_leaf_shape};
ghost use Rattle.sg_typing.specs.ShownTypes as spec;

use crate::bodies::{operator, target_type};
use sg_ast::decl::{Decl, Item, SchemeDecl};
use sg_kinds::fault::Position;
use sg_kinds::ids::{OpId, PhylumId};
use sg_kinds::marks::Shape;
use sg_names::names::Names;
use sg_types::types::unless;

// whether values of a phylum are shown: of BOOL, INT, STR and the lexeme phyla
fn is_leaf(names: &Names, phylum: PhylumId) -> bool
    ensures { result ≡ has_shape names.now.phyla is_leaf_shape phylum }
{
    match names.table().phyla.place(phylum.number) {
        Some(phylum) => match phylum.shape {
            Shape::Truths | Shape::Numbers | Shape::Texts | Shape::Lexemes(_) => true,
            _ => false,
        },
        None => false,
    }
}

fn hidden(names: &Names, place: Position, of: Option<PhylumId>) -> Option<Position>
    ensures { result ≡ spec.hidden names.now place of }
{
    match of {
        Some(phylum) => unless(is_leaf(names, phylum), place),
        None => Some(place),
    }
}

fn hidden_item(names: &Names, op: OpId, item: &Item) -> Option<Position>
    ensures { result ≡ spec.hidden_item names.now op item.now }
{
    match item {
        Item::Shows(target) => hidden(names, target.place(), target_type(names, op, target)),
        Item::Writes(_) | Item::Child(_) | Item::Separates(_) => None,
    }
}

fn hidden_in(names: &Names, op: OpId, items: &[Item]) -> Option<Position>
    ensures { result ≡ first (spec.hidden_item names.now op) items.now }
{
    for item in items {
        if let Some(place) = hidden_item(names, op, item) {
            return Some(place);
        }
    }
    None
}

fn hidden_in_schemes(names: &Names, op: OpId, schemes: &[SchemeDecl]) -> Option<Position>
    ensures { result ≡ first (spec.hidden_scheme names.now op) schemes.now }
{
    for scheme in schemes {
        if let Some(place) = hidden_in(names, op, scheme.items.as_slice()) {
            return Some(place);
        }
    }
    None
}

fn hidden_at(names: &Names, decl: &Decl) -> Option<Position>
    ensures { result ≡ spec.hidden_at names.now (tree_of decl.now) }
{
    match decl {
        Decl::Schemes(phylum, op, _, schemes) => {
            hidden_in_schemes(names, operator(names, phylum, op), schemes.as_slice())
        }
        _ => None,
    }
}

/// The first token of the first attribute or local that a scheme cannot show.
pub(crate) fn first_hidden(names: &Names, decls: &[Decl]) -> Option<Position>
    ensures { result ≡ spec.first_hidden names.now (trees_of decls.now) }
{
    for decl in decls {
        if let Some(place) = hidden_at(names, decl) {
            return Some(place);
        }
    }
    None
}
