// By how much the schemes of a specification widen the margin at most.
ghost use Rattle.std.specs.Prelude.{◌≡◌, [], min, slice_get, unwrap_or};
ghost use Rattle.sg_kinds.specs.InView.{in_view, own_or, row_in_view};
ghost use Rattle.sg_unparse.specs.Margins.{ons_of, ons_of_item, ons_of_items, ons_of_piece, ons_of_pieces, ons_of_schemes};

use sg_kinds::row::{Row, item};
use sg_kinds::spec::{Item, Operator, Piece, Scheme, Spec};
use sg_kinds::views::Views;

// how often a piece adds 2 to the margin
fn ons_of_piece(piece: &Piece) -> usize
    ensures { result ≡ ons_of_piece piece.now }
{
    match piece {
        Piece::Written(_) => 0,
        Piece::Newline => 0,
        Piece::Margin(_, on) => *on as usize,
    }
}

// how often pieces do
fn ons_of_pieces(pieces: &[Piece]) -> usize
    ensures { result ≡ min (ons_of_pieces pieces.now) usize.MAX }
{
    let mut total: usize = 0;
    for piece in pieces {
        total = total.saturating_add(ons_of_piece(piece));
    }
    total
}

// how often an item does
fn ons_of_item(item: &Item) -> usize
    ensures { result ≡ min (ons_of_item item.now) usize.MAX }
{
    match item {
        Item::Writes(pieces) => ons_of_pieces(pieces.as_slice()),
        Item::Child(_) => 0,
        Item::Shows(_) => 0,
        Item::Separates(pieces) => ons_of_pieces(pieces.as_slice()),
    }
}

// how often the items of a scheme do
fn ons_of_items(items: &[Item]) -> usize
    ensures { result ≡ min (ons_of_items items.now) usize.MAX }
{
    let mut total: usize = 0;
    for item in items {
        total = total.saturating_add(ons_of_item(item));
    }
    total
}

// how often schemes do
fn ons_of_schemes(schemes: &[Scheme]) -> usize
    ensures { result ≡ min (ons_of_schemes schemes.now) usize.MAX }
{
    let mut total: usize = 0;
    for scheme in schemes {
        total = total.saturating_add(ons_of_items(scheme.items.as_slice()));
    }
    total
}

// the schemes of each operator in a view alone
fn row_of(views: &Views, view: u32) -> &[Row<Scheme>]
    ensures { result.now ≡ row_in_view views.now view }
{
    match view.checked_sub(1) {
        Some(place) => match views.rows.place(place) {
            Some(row) => row.as_slice(),
            None => &[],
        },
        None => &[],
    }
}

// the schemes of the operator at a place: its own in a row, if it has some there, or else the ordinary ones
#[tactic(auto, using(crate::proofs::Viewed::own_some))]
fn own_or<'a>(row: &'a [Row<Scheme>], place: usize, operator: &'a Operator) -> &'a [Scheme]
    ensures { result.now ≡ own_or operator.now.schemes (unwrap_or (slice_get row.now place) []) }
{
    let own = match row.get(place) {
        Some(own) => own.as_slice(),
        None => &[],
    };
    if own.is_empty() {
        operator.schemes.as_slice()
    } else {
        own
    }
}

/// How often the schemes of all operators in a view add 2 to the margin together, at most 2^64 - 1.
#[tactic(auto, using(crate::proofs::Viewed::ons_more, crate::proofs::Viewed::ons_all))]
pub fn ons(spec: &Spec, view: u32) -> usize
    ensures { result ≡ min (ons_of (in_view spec.now view)) usize.MAX }
{
    let row = row_of(&spec.views, view);
    let operators = spec.ops.as_slice();
    let mut total: usize = 0;
    for place in 0..operators.len() {
        let schemes = own_or(row, place, item(operators, place));
        total = total.saturating_add(ons_of_schemes(schemes));
    }
    total
}
