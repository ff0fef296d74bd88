// The page of the term that a node holds.
ghost use Rattle.std.specs.Prelude.{◌≡◌, ◌<◌, ℕ, [], ◌∷◌, Bool, List, drop, length, map, ◌++◌, Some, None, option_map, unwrap_or, slice_get, IsSome, All, OnOk, IfOk, MatchBool, if◌then◌else◌, codes};
ghost use Rattle.std.specs.Fmt.{signed_decimal};
ghost use Rattle.sg_kinds.specs.Places.{Place};
ghost use Rattle.sg_kinds.specs.Sound.{IsItem};
ghost use Rattle.sg_kinds.specs.Specification.{args_of, attrs_of};
ghost use Rattle.sg_kinds.specs.Terms.{Term, Terms as AllTerms, Node};
ghost use Rattle.sg_kinds.specs.Typing.{attr_types, slot_type};
ghost use Rattle.sg_kinds.specs.declared.spec.Item.{Item as AnItem};
ghost use Rattle.sg_kinds.specs.declared.spec.Item.TheVariants.{Child};
ghost use Rattle.sg_pool.specs.Pools.{value_at};
ghost use Rattle.sg_forest.specs.declared.node_id.NodeId.{NodeId as Id};
ghost use Rattle.sg_forest.specs.Trees.{IsLive};
ghost use Rattle.sg_groves.specs.Grove.{nodes, spec_shown};
ghost use Rattle.sg_groves.specs.Holds.{Holds};
ghost use Rattle.sg_terms.specs.Found.{op_at};
ghost use Rattle.sg_terms.specs.Occurrences.{node_there};
ghost use Rattle.sg_unparse.specs.Along.{IsAlong, is_captured, node_along, stored, typed_in, content_in, items_in, kids_in, own_in, shows_in, unparsed_in};
ghost use Rattle.sg_unparse.specs.Cells.{goes_on as does_go_on, marks_of, plain as plain_text};
ghost use Rattle.sg_unparse.specs.Printing.{text_shown, value_text};
ghost use Rattle.sg_unparse.specs.Written.{Wrote, sheet_of};
ghost use Rattle.sg_unparse.specs.declared.writer.Writer.{Writer as AWriter};

use crate::page::Page;
use crate::shown::{fault_text, scheme_of, write_text};
use crate::writer::Writer;
use itoa::Buffer;
use sg_forest::NodeId;
use sg_kinds::ids::{OpId, PhylumId, ValueId};
use sg_kinds::marks::ChildPlace;
use sg_kinds::memory::NoMemory;
use sg_kinds::spec::{Attr, Item, Occurrence, Operator, Spec};
use sg_pool::entry::PoolEntry;
use sg_terms::Terms;
use std::alloc::Global;

// how many arguments an operator has
fn arity(spec: &Spec, op: OpId) -> usize
    ensures { result ≡ length (args_of spec.now.ops op) }
{
    match spec.ops.place(op.number) {
        Some(operator) => operator.args.len(),
        None => 0,
    }
}

// whether the second child of a node has children
fn goes_on(terms: &Terms, n: NodeId, op: OpId) -> bool
    requires live { IsLive (nodes terms.now) n }
    requires op { op_at terms.now n ≡ Some op }
    ensures { (k : ℕ) (elided : Bool) (ts : AllTerms) →
        Holds terms.now n (Node op k elided ts) → result ≡ does_go_on ts }
{
    terms.facts();
    if arity(terms.spec(), op) < 2 {
        return false;
    }
    match terms.op(terms.kid(n, 1)) {
        Some(second) => arity(terms.spec(), second) > 0,
        None => false,
    }
}

// the attributes of a phylum
fn attrs_of(spec: &Spec, p: PhylumId) -> &[Attr]
    ensures { map (λ a. a.of) result.now ≡ attr_types spec.now (Some p) }
{
    match spec.phyla.place(p.number) {
        Some(phylum) => phylum.attrs.as_slice(),
        None => &[],
    }
}

// the type of an attribute or local of an operator
fn own_type(spec: &Spec, operator: &Operator, slot: u32) -> PhylumId
    ensures { result ≡
        unwrap_or (slice_get (attr_types spec.now (Some operator.now.phylum)
        ++ map (λ l. l.of) operator.now.locals) slot) 0 }
{
    let attrs = attrs_of(spec, operator.phylum);
    match attrs.get(slot as usize) {
        Some(attr) => attr.of,
        None => match operator.locals.as_slice().get(slot as usize - attrs.len()) {
            Some(local) => local.of,
            None => PhylumId { number: 0 },
        },
    }
}

// the type of an attribute of an argument
fn arg_type(spec: &Spec, p: Option<&PhylumId>, slot: u32) -> PhylumId
    ensures { result ≡ unwrap_or (slice_get (attr_types spec.now (option_map (λ q. q.now) p.entry)) slot) 0 }
{
    match p {
        Some(p) => match attrs_of(spec, *p).get(slot as usize) {
            Some(attr) => attr.of,
            None => PhylumId { number: 0 },
        },
        None => PhylumId { number: 0 },
    }
}

// the type of an occurrence of an operator
fn type_at(spec: &Spec, op: OpId, o: Occurrence) -> PhylumId
    ensures { result ≡ unwrap_or (slot_type spec.now op o.at o.slot) 0 }
{
    match spec.ops.place(op.number) {
        Some(operator) => {
            if o.at == 0 {
                own_type(spec, operator, o.slot)
            } else {
                arg_type(spec, operator.args.place(o.at - 1), o.slot)
            }
        }
        None => PhylumId { number: 0 },
    }
}

/// The terms that are shown, and the node in whose place a text is typed, if one is.
#[derive(Clone, Copy)]
pub struct Shown<'a> {
    pub terms: &'a Terms,
    pub captured: Option<NodeId>,
    pub text: &'a [u8],
}

/// A node whose scheme is written, its operator, and how many arguments that has.
#[derive(Clone, Copy)]
pub struct Site {
    pub node: NodeId,
    pub op: OpId,
    pub count: usize,
}

// whether a text is typed in the place of a node
fn is_typed(captured: Option<NodeId>, n: NodeId) -> bool
    ensures { result ≡ is_captured captured n }
{
    match captured {
        Some(m) => n.key == m.key,
        None => false,
    }
}

// writes a truth value
#[inline(never)]
fn truth(w: &mut Writer, owner: NodeId, b: bool) -> Result<(), NoMemory>
    ensures { OnOk result ((at : Place → Id) (u : Place) → at u ≡ owner →
        Wrote at w.old w.new (plain_text u (if b then codes "true" else codes "false"))) }
{
    if b {
        w.plain(owner, b"true")
    } else {
        w.plain(owner, b"false")
    }
}

// writes a number
#[inline(never)]
fn number(w: &mut Writer, owner: NodeId, n: &i64) -> Result<(), NoMemory>
    ensures { OnOk result ((at : Place → Id) (u : Place) → at u ≡ owner →
        Wrote at w.old w.new (plain_text u (signed_decimal n.now))) }
{
    let mut digits = Buffer::new();
    w.plain(owner, digits.format(*n).as_bytes())
}

// writes the empty text of a phylum
#[inline(never)]
fn empty_text(
    spec: &Spec,
    w: &mut Writer,
    room: &mut Vec<u8>,
    owner: NodeId,
    p: PhylumId,
) -> Result<(), NoMemory>
    ensures { OnOk result ((at : Place → Id) (u : Place) → at u ≡ owner →
        Wrote at w.old w.new (plain_text u (text_shown spec.now p []))) }
{
    room.clear();
    write_text(room, spec, p, b"")?;
    w.plain(owner, room.as_slice())
}

// writes a text of a phylum
#[inline(always)]
fn chars(
    spec: &Spec,
    w: &mut Writer,
    room: &mut Vec<u8>,
    owner: NodeId,
    p: PhylumId,
    text: &[u8],
) -> Result<(), NoMemory>
    ensures { OnOk result ((at : Place → Id) (u : Place) → at u ≡ owner →
        Wrote at w.old w.new (plain_text u (text_shown spec.now p text.now))) }
{
    if text.is_empty() {
        return empty_text(spec, w, room, owner, p);
    }
    w.plain(owner, text)
}

// writes a value of a node, as its phylum's values are shown
fn value(
    shown: &Shown,
    w: &mut Writer,
    room: &mut Vec<u8>,
    owner: NodeId,
    p: PhylumId,
    id: ValueId,
) -> Result<(), NoMemory>
    requires { id < length shown.now.terms.now.pool }
    ensures { OnOk result ((at : Place → Id) (u : Place) → at u ≡ owner →
        Wrote at w.old w.new
        (plain_text u (value_text shown.now.terms.now.spec p (value_at shown.now.terms.now.pool id)))) }
{
    match shown.terms.pool().entry(id) {
        PoolEntry::Bool(b) => truth(w, owner, *b),
        PoolEntry::Int(n) => number(w, owner, n),
        PoolEntry::Text(text) => chars(shown.terms.spec(), w, room, owner, p, text.as_slice()),
        PoolEntry::Tree(_, _) => Ok(()),
        PoolEntry::Fault(kind) => w.plain(owner, fault_text(*kind)),
    }
}

// writes a leaf
fn leaf(shown: &Shown, w: &mut Writer, room: &mut Vec<u8>, n: NodeId) -> Result<(), NoMemory>
    requires live { IsLive (nodes shown.now.terms.now) n }
    requires op { op_at shown.now.terms.now n ≡ None }
    ensures { OnOk result ((root : Id) (u : Place) (t : Term) → IsAlong shown.now.terms.now root u n t →
        Wrote (node_along shown.now.terms.now root) w.old w.new
        (own_in shown.now.terms.now root shown.now.captured shown.now.text.now u t)) }
{
    shown.terms.facts();
    let id = shown.terms.stored(n, 0);
    let p = shown.terms.phylum(n);
    value(shown, w, room, n, p, id)?;
    Ok(())
}

// the node at an occurrence of a node's operator
fn there(terms: &Terms, n: NodeId, at: u32) -> NodeId
    requires live { IsLive (nodes terms.now) n }
    requires there { IsSome (node_there terms.now.trees n at) }
    ensures { node_there terms.now.trees n at ≡ Some result }
{
    terms.facts();
    if at == 0 {
        n
    } else {
        terms.kid(n, at as usize - 1)
    }
}

// writes the value of an occurrence
fn show(
    shown: &Shown,
    site: &Site,
    w: &mut Writer,
    room: &mut Vec<u8>,
    o: Occurrence,
) -> Result<(), NoMemory>
    requires live { IsLive (nodes shown.now.terms.now) site.now.node }
    requires op { op_at shown.now.terms.now site.now.node ≡ Some site.now.op }
    requires typed { IsSome (slot_type shown.now.terms.now.spec site.now.op o.at o.slot) }
    ensures { OnOk result ((root : Id) (u : Place) → node_along shown.now.terms.now root u ≡ site.now.node →
        Wrote (node_along shown.now.terms.now root) w.old w.new
        (shows_in shown.now.terms.now root shown.now.captured shown.now.text.now u site.now.op o)) }
{
    shown.terms.facts();
    let m = there(shown.terms, site.node, o.at);
    let id = shown.terms.stored(m, o.slot);
    let p = type_at(shown.terms.spec(), site.op, o);
    value(shown, w, room, site.node, p, id)?;
    Ok(())
}

// whether a child is passed over
fn is_hidden(place: ChildPlace) -> bool
    ensures { MatchBool result (place ≡ ChildPlace.Hidden) (place ≡ ChildPlace.Hidden → ⊥) }
{
    matches!(place, ChildPlace::Hidden)
}

// writes the next child at its place
#[cycle(node)]
fn write_child(
    shown: &Shown,
    site: &Site,
    w: &mut Writer,
    room: &mut Vec<u8>,
    place: ChildPlace,
    next: &mut usize,
) -> Result<(), NoMemory>
    requires live { IsLive (nodes shown.now.terms.now) site.now.node }
    requires op { op_at shown.now.terms.now site.now.node ≡ Some site.now.op }
    requires count { site.now.count ≡ length (args_of shown.now.terms.now.spec.ops site.now.op) }
    ensures { OnOk result ((root : Id) (u : Place) (k : ℕ) (elided : Bool) (ts : AllTerms) (is : List AnItem)
        (end : AWriter) →
        IsAlong shown.now.terms.now root u site.now.node (Node site.now.op k elided ts) →
        Wrote (node_along shown.now.terms.now root) w.new end
        (items_in shown.now.terms.now root shown.now.captured shown.now.text.now u
        site.now.op (does_go_on ts) is
        (drop next.new (kids_in shown.now.terms.now root shown.now.captured shown.now.text.now u ts))) →
        Wrote (node_along shown.now.terms.now root) w.old end
        (items_in shown.now.terms.now root shown.now.captured shown.now.text.now u
        site.now.op (does_go_on ts) (Child place ∷ is)
        (drop next.old (kids_in shown.now.terms.now root shown.now.captured shown.now.text.now u ts)))) }
{
    shown.terms.facts();
    let k = *next;
    if k >= site.count {
        return Ok(());
    }
    let kid = shown.terms.kid(site.node, k);
    *next = k + 1;
    if is_hidden(place) {
        return Ok(());
    }
    node(shown, w, room, kid)?;
    Ok(())
}

// writes an item; `next` children stand before it
#[cycle(node)]
fn write_item(
    shown: &Shown,
    site: &Site,
    w: &mut Writer,
    room: &mut Vec<u8>,
    item: &Item,
    next: &mut usize,
) -> Result<(), NoMemory>
    requires live { IsLive (nodes shown.now.terms.now) site.now.node }
    requires op { op_at shown.now.terms.now site.now.node ≡ Some site.now.op }
    requires count { site.now.count ≡ length (args_of shown.now.terms.now.spec.ops site.now.op) }
    requires item { IsItem shown.now.terms.now.spec site.now.op item.now }
    ensures { OnOk result ((root : Id) (u : Place) (k : ℕ) (elided : Bool) (ts : AllTerms) (is : List AnItem)
        (end : AWriter) →
        IsAlong shown.now.terms.now root u site.now.node (Node site.now.op k elided ts) →
        Wrote (node_along shown.now.terms.now root) w.new end
        (items_in shown.now.terms.now root shown.now.captured shown.now.text.now u
        site.now.op (does_go_on ts) is
        (drop next.new (kids_in shown.now.terms.now root shown.now.captured shown.now.text.now u ts))) →
        Wrote (node_along shown.now.terms.now root) w.old end
        (items_in shown.now.terms.now root shown.now.captured shown.now.text.now u
        site.now.op (does_go_on ts) (item.now ∷ is)
        (drop next.old (kids_in shown.now.terms.now root shown.now.captured shown.now.text.now u ts)))) }
{
    shown.terms.facts();
    match item {
        Item::Writes(pieces) => {
            w.pieces(site.node, pieces.as_slice())?;
            Ok(())
        }
        Item::Child(place) => {
            write_child(shown, site, w, room, *place, next)?;
            Ok(())
        }
        Item::Shows(o) => {
            show(shown, site, w, room, *o)?;
            Ok(())
        }
        Item::Separates(pieces) => {
            if !goes_on(shown.terms, site.node, site.op) {
                return Ok(());
            }
            w.pieces(site.node, pieces.as_slice())?;
            Ok(())
        }
    }
}

// writes the items of a scheme
#[cycle(node)]
fn write_items(
    shown: &Shown,
    site: &Site,
    w: &mut Writer,
    room: &mut Vec<u8>,
    items: &[Item],
) -> Result<(), NoMemory>
    requires live { IsLive (nodes shown.now.terms.now) site.now.node }
    requires op { op_at shown.now.terms.now site.now.node ≡ Some site.now.op }
    requires count { site.now.count ≡ length (args_of shown.now.terms.now.spec.ops site.now.op) }
    requires items { All (IsItem shown.now.terms.now.spec site.now.op) items.now }
    ensures { OnOk result ((root : Id) (u : Place) (k : ℕ) (elided : Bool) (ts : AllTerms) →
        IsAlong shown.now.terms.now root u site.now.node (Node site.now.op k elided ts) →
        Wrote (node_along shown.now.terms.now root) w.old w.new
        (items_in shown.now.terms.now root shown.now.captured shown.now.text.now u
        site.now.op (does_go_on ts) items.now
        (kids_in shown.now.terms.now root shown.now.captured shown.now.text.now u ts))) }
{
    let mut next = 0;
    for item in items {
        write_item(shown, site, w, room, item, &mut next)?;
    }
    Ok(())
}

// writes the current scheme of a node
#[cycle(node)]
fn write_scheme(
    shown: &Shown,
    w: &mut Writer,
    room: &mut Vec<u8>,
    n: NodeId,
    op: OpId,
) -> Result<(), NoMemory>
    requires live { IsLive (nodes shown.now.terms.now) n }
    requires op { op_at shown.now.terms.now n ≡ Some op }
    ensures { OnOk result ((root : Id) (u : Place) (t : Term) → IsAlong shown.now.terms.now root u n t →
        Wrote (node_along shown.now.terms.now root) w.old w.new
        (own_in shown.now.terms.now root shown.now.captured shown.now.text.now u t)) }
{
    shown.terms.facts();
    match scheme_of(
        shown.terms.spec(),
        shown.terms.view(),
        op,
        shown.terms.scheme(n),
    ) {
        Some(scheme) => {
            let count = arity(shown.terms.spec(), op);
            let site = Site { node: n, op, count };
            write_items(shown, &site, w, room, scheme.items.as_slice())?;
            Ok(())
        }
        None => Ok(()),
    }
}

// writes what is typed in the place of a node, else the mark of an elided node, else its leaf or its scheme
#[cycle(node)]
fn content(shown: &Shown, w: &mut Writer, room: &mut Vec<u8>, n: NodeId) -> Result<(), NoMemory>
    requires { IsLive (nodes shown.now.terms.now) n }
    ensures { OnOk result ((root : Id) (u : Place) (t : Term) → IsAlong shown.now.terms.now root u n t →
        Wrote (node_along shown.now.terms.now root) w.old w.new
        (content_in shown.now.terms.now root shown.now.captured shown.now.text.now u t)) }
{
    if is_typed(shown.captured, n) {
        w.plain(n, shown.text)?;
        return Ok(());
    }
    if shown.terms.elided(n) {
        w.bytes(n, b"...")?;
        return Ok(());
    }
    match shown.terms.op(n) {
        Some(op) => {
            write_scheme(shown, w, room, n, op)?;
            Ok(())
        }
        None => {
            leaf(shown, w, room, n)?;
            Ok(())
        }
    }
}

// writes a node and those below it that are unparsed
#[cycle(node)]
fn node(shown: &Shown, w: &mut Writer, room: &mut Vec<u8>, n: NodeId) -> Result<(), NoMemory>
    requires { IsLive (nodes shown.now.terms.now) n }
    ensures { OnOk result ((root : Id) (u : Place) (t : Term) → IsAlong shown.now.terms.now root u n t →
        Wrote (node_along shown.now.terms.now root) w.old w.new
        (unparsed_in shown.now.terms.now root shown.now.captured shown.now.text.now u t)) }
{
    let from = w.len();
    content(shown, w, room, n)?;
    w.close(n, from)?;
    Ok(())
}

// the page of a node, whose margin begins at 0
fn page(alloc: Global, shown: &Shown, n: NodeId) -> Result<Page, NoMemory>
    requires { IsLive (nodes shown.now.terms.now) n }
    ensures { (root : Id) (u : Place) (t : Term) → IsAlong shown.now.terms.now root u n t →
        IfOk result (λ p. p ≡ sheet_of (node_along shown.now.terms.now root)
        (unparsed_in shown.now.terms.now root shown.now.captured shown.now.text.now u t 0).0) }
{
    shown.terms.facts();
    let mut w = Writer::new(alloc)?;
    let mut room = Vec::new(alloc);
    node(shown, &mut w, &mut room, n)?;
    Page::of(alloc, w)
}

/// The page of the term that a node holds, with the values that are stored and in the schemes that are current in the
/// view; a
/// captured node shows the text. The margin begins at 0. A margin of 2^64 blanks is answered as want of memory.
pub fn cells(
    alloc: Global,
    terms: &Terms,
    root: NodeId,
    captured: Option<NodeId>,
    text: &[u8],
) -> Result<Page, NoMemory>
    requires { IsLive (nodes terms.now) root }
    ensures { (t : Term) → Holds terms.now root t → IfOk result (λ p. p ≡ sheet_of (node_along terms.now root)
        (marks_of (spec_shown terms.now) (stored terms.now root) (typed_in terms.now root captured text.now) t)) }
{
    let shown = Shown {
        terms,
        captured,
        text,
    };
    page(alloc, &shown, root)
}

/// The page of a part of a term: what a node of it writes where the margin begins at 0 and nothing is typed.
pub fn part(alloc: Global, terms: &Terms, n: NodeId) -> Result<Page, NoMemory>
    requires { IsLive (nodes terms.now) n }
    ensures { (root : Id) (u : Place) (t : Term) → IsAlong terms.now root u n t →
        IfOk result (λ p. p ≡ sheet_of (node_along terms.now root) (unparsed_in terms.now root None [] u t 0).0) }
{
    let shown = Shown {
        terms,
        captured: None,
        text: &[],
    };
    page(alloc, &shown, n)
}
