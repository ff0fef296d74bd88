//! The tables of names, made of declarations.
ghost use Rattle.std.specs.Prelude.{◌≡◌, [], ◌∷◌, map, IfOk};
ghost use Rattle.sg_ast.specs.View.{trees_of};
ghost use Rattle.sg_names.specs.Names as spec;
ghost use Rattle.sg_names.specs.Rows.{row_at};
ghost use Rattle.sg_names.specs.declared.heads.Head.{Head};

use crate::heads::Heads;
use crate::{definitions, owners};
use sg_ast::decl::Decl;
use sg_kinds::fault::Position;
use sg_kinds::ids::{OpId, PhylumId};
use sg_kinds::marks::{Shape, Way};
use sg_kinds::memory::NoMemory;
use sg_kinds::row::Row;
use sg_kinds::spec::{Attr, Local, Operator, Phylum};
use sg_kinds::text::Text;
use sg_names::callables::{by_operator, number};
use sg_names::groups::Groups;
use sg_names::heads::Head;
use sg_names::names::{Names, is_leaf};
use sg_names::table::{Nonterminal, Table};
use std::alloc::Global;

fn shape_of(lexemes: u32, listings: &[Shape], number: u32, head: &Head) -> Shape
    ensures { result ≡ spec.shape_of lexemes listings.now number head.now }
{
    if head.lexical {
        Shape::Lexemes(lexemes)
    } else if number == 0 {
        Shape::Truths
    } else if number == 1 {
        Shape::Numbers
    } else if number == 2 {
        Shape::Texts
    } else {
        listings.first().copied().unwrap_or(Shape::Ordinary)
    }
}

/// The one attribute of a leaf.
fn value_attrs(alloc: Global, number: u32) -> Result<Row<Attr>, NoMemory>
    ensures { IfOk result (λ r. r ≡ spec.value_attr number ∷ []) }
{
    let mut attrs = Vec::new(alloc);
    attrs.push(Attr {
        name: Text::from_slice(alloc, b"value")?,
        way: Way::Synthesized,
        of: PhylumId { number },
        far: Row::new(Vec::new(alloc)),
    })?;
    Ok(Row::new(attrs))
}

/// The attributes of a phylum of this shape.
fn attrs_there(
    alloc: Global,
    attrs: Row<Attr>,
    number: u32,
    shape: Shape,
) -> Result<Row<Attr>, NoMemory>
    ensures { IfOk result (λ r. r ≡ spec.attrs_there attrs number shape) }
{
    if is_leaf(shape) {
        value_attrs(alloc, number)
    } else {
        Ok(attrs)
    }
}

/// The phylum with a number, from what it owns, with so many lexeme phyla before it.
fn phylum(
    alloc: Global,
    lexemes: u32,
    listings: Row<Shape>,
    ops: Row<OpId>,
    attrs: Row<Attr>,
    number: u32,
    head: &Head,
) -> Result<Phylum, NoMemory>
    ensures { IfOk result (λ x. x ≡ spec.phylum_as lexemes listings ops attrs number head.now) }
{
    let shape = shape_of(lexemes, listings.as_slice(), number, head);
    Ok(Phylum {
        name: head.name.copy(alloc)?,
        shape,
        ops,
        attrs: attrs_there(alloc, attrs, number, shape)?,
    })
}

/// The phyla, from what they own.
fn phyla(
    alloc: Global,
    heads: &[Head],
    mut listings: Groups<Shape>,
    mut ops: Groups<OpId>,
    mut attrs: Groups<Attr>,
) -> Result<Vec<Phylum>, NoMemory>
    ensures { IfOk result (λ v. v.items ≡ spec.map_from
        (spec.phylum heads.now (row_at listings) (row_at ops) (row_at attrs)) 0 heads.now) }
{
    let mut phyla = Vec::new(alloc);
    let mut lexemes = 0;
    for (place, head) in heads.iter().enumerate() {
        let listing = listings.take(alloc, place);
        let op = ops.take(alloc, place);
        let attr = attrs.take(alloc, place);
        let before = number(lexemes)?;
        phyla.push(phylum(alloc, before, listing, op, attr, number(place)?, head)?)?;
        if head.lexical {
            lexemes += 1;
        }
    }
    Ok(phyla)
}

fn nonterminal(alloc: Global, attrs: Row<Attr>, head: &Head) -> Result<Nonterminal, NoMemory>
    ensures { IfOk result (λ x. x ≡ spec.nonterminal_as attrs head.now) }
{
    Ok(Nonterminal {
        name: head.name.copy(alloc)?,
        place: head.place,
        attrs,
    })
}

/// The nonterminals, from what they own.
fn nonterminals(
    alloc: Global,
    heads: &[Head],
    mut attrs: Groups<Attr>,
) -> Result<Vec<Nonterminal>, NoMemory>
    ensures { IfOk result (λ v. v.items ≡ spec.map_from (spec.nonterminal (row_at attrs)) 0 heads.now) }
{
    let mut nonterminals = Vec::new(alloc);
    for (place, head) in heads.iter().enumerate() {
        let attr = attrs.take(alloc, place);
        nonterminals.push(nonterminal(alloc, attr, head)?)?;
    }
    Ok(nonterminals)
}

/// Gives the operators their locals.
fn with_locals(alloc: Global, mut ops: Vec<Operator>, mut locals: Groups<Local>) -> Vec<Operator>
    ensures { result.items ≡ spec.with_locals (row_at locals) ops.items }
{
    for place in 0..ops.len() {
        ops[place].locals = locals.take(alloc, place);
    }
    ops
}

#[tactic(auto, using(crate::proofs::Loops::map_more, crate::proofs::Loops::map_all))]
fn places(alloc: Global, heads: &[Head]) -> Result<Row<Position>, NoMemory>
    ensures { IfOk result (λ r. r ≡ map (λ (h : Head). h.place) heads.now) }
{
    let mut places = Vec::new(alloc);
    for head in heads {
        places.push(head.place)?;
    }
    Ok(Row::new(places))
}

/// The phyla of declarations.
#[tactic(auto, using(sg_names::proofs::TableMade::phyla_made))]
fn all_phyla(
    alloc: Global,
    heads: &Heads,
    ops: &[Operator],
    decls: &[Decl],
) -> Result<Row<Phylum>, NoMemory>
    ensures { IfOk result (λ r. r ≡ spec.map_from (spec.phylum heads.now
        (spec.listings_of heads.now (trees_of decls.now)) (spec.owned (spec.owners ops.now))
        (spec.attributes_of heads.now heads.now (trees_of decls.now))) 0 heads.now) }
{
    let listings = owners::listings(alloc, heads, decls)?;
    let own = owners::operators(alloc, ops)?;
    let attrs = owners::attributes(alloc, heads, heads, decls)?;
    let made = phyla(alloc, heads.as_slice(), listings, own, attrs)?;
    Ok(Row::new(made))
}

/// The nonterminals of declarations.
#[tactic(auto, using(sg_names::proofs::TableMade::nonterminals_made))]
fn all_nonterminals(
    alloc: Global,
    others: &Heads,
    heads: &Heads,
    decls: &[Decl],
) -> Result<Row<Nonterminal>, NoMemory>
    ensures { IfOk result (λ r. r ≡ spec.map_from (spec.nonterminal
        (spec.attributes_of others.now heads.now (trees_of decls.now))) 0 others.now) }
{
    let attrs = owners::attributes(alloc, others, heads, decls)?;
    let made = nonterminals(alloc, others.as_slice(), attrs)?;
    Ok(Row::new(made))
}

/// The operators with the locals of declarations.
#[tactic(auto, using(sg_names::proofs::TableMade::ops_made))]
fn all_ops(
    alloc: Global,
    heads: &Heads,
    ops: Vec<Operator>,
    decls: &[Decl],
) -> Result<Row<Operator>, NoMemory>
    ensures { IfOk result (λ r. r ≡ spec.with_locals (spec.locals_of heads.now ops.items
        (trees_of decls.now)) ops.items) }
{
    let index = by_operator(alloc, &ops)?;
    let locals = owners::locals(alloc, heads, &index, &ops, decls)?;
    let made = with_locals(alloc, ops, locals);
    Ok(Row::new(made))
}

/// The table without its indexes.
fn table(alloc: Global, heads: &Heads, others: &Heads, decls: &[Decl]) -> Result<Table, NoMemory>
    ensures { IfOk result (λ t. t ≡ spec.table_from heads.now others.now
        (spec.operators_in heads.now (trees_of decls.now)) (trees_of decls.now)) }
{
    let bare = definitions::operators(alloc, heads, decls)?;
    let functions = definitions::functions(alloc, heads, decls)?;
    Ok(Table {
        phyla: all_phyla(alloc, heads, &bare, decls)?,
        ops: all_ops(alloc, heads, bare, decls)?,
        functions: Row::new(functions),
        nonterminals: all_nonterminals(alloc, others, heads, decls)?,
        root: definitions::root(heads, decls),
        phylum_places: places(alloc, heads.as_slice())?,
        op_places: definitions::op_places(alloc, decls)?,
    })
}

/// The tables of what the names of declarations mean.
pub fn tables(alloc: Global, decls: &[Decl]) -> Result<Names, NoMemory>
    ensures { IfOk result (λ n. n ≡ spec.names_of (trees_of decls.now)) }
{
    let heads = definitions::phyla(alloc, decls)?;
    let others = definitions::nonterminals(alloc, decls)?;
    let table = table(alloc, &heads, &others, decls)?;
    Names::new(alloc, table, heads.into_index(), others.into_index())
}
