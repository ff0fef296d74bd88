//! What a note tells of its subterm without the children.
ghost use Rattle.std.specs.Prelude.{◌≡◌, ◌↔◌, List, Some, length, IsTrue, IfOk, MatchOption};
ghost use Rattle.sg_kinds.specs.Fits.{IsLexeme, MayHold};
ghost use Rattle.sg_kinds.specs.Specification.{args_of, phylum_of};
ghost use Rattle.sg_kinds.specs.declared.spec.Operator.{Operator};
ghost use Rattle.sg_kinds.specs.declared.spec.Spec.{Spec as IsSpec};
ghost use Rattle.sg_saved_form.specs.Files.{Raw, IsRaw};
ghost use Rattle.sg_saved.specs.Misfits.{op_named, LeafFits, HeadFits};
ghost use Rattle.sg_saved.specs.Heads.{AreNames, IsNoteOf, args_in, head_of};
ghost use Rattle.sg_saved.specs.declared.heads.Head.TheVariants.{Leaf};

use sg_kinds::ids::{OpId, PhylumId};
use sg_kinds::marks::Shape;
use sg_kinds::memory::NoMemory;
use sg_kinds::spec::Spec;
use sg_kinds::text::Text;
use sg_kinds::value::{Value, ValueNode};
use sg_names::index::Index;
use sg_names::table::Callable;
use sg_patterns::Matcher;
use sg_saved_form::{Note, Noted};
use sg_text::unescape;
use std::alloc::Global;

/// The operator of its name, if there is one, with the number of its children; or the value of a leaf.
#[derive(Drop)]
pub enum Head {
    Node(Option<OpId>, u32),
    Leaf(Value),
}

/// The operator of a name.
fn op_named(names: &Index<Callable>, name: &[u8]) -> Option<OpId>
    ensures { (ops : List Operator) → AreNames ops names.now → result ≡ op_named ops name.now }
{
    match names.get(name) {
        Some(callable) => callable.operator(),
        None => None,
    }
}

/// The head of the subterm of a note.
pub fn head_at(
    alloc: Global,
    names: &Index<Callable>,
    bytes: &[u8],
    note: Note,
) -> Result<Head, NoMemory>
    requires { (r : Raw) × IsNoteOf bytes.now note r }
    ensures { (spec : IsSpec) (r : Raw) → AreNames spec.ops names.now → IsNoteOf bytes.now note r
        → IfOk result (λ h. h ≡ head_of spec r) }
{
    let from = note.from as usize;
    match note.what {
        Noted::Operator(end) => {
            let name = &bytes[from..end as usize];
            Ok(Head::Node(op_named(names, name), note.kids))
        }
        Noted::Number(n) => Ok(Head::Leaf(Value::number(n))),
        Noted::Text(last) => {
            let inner = &bytes[from + 1..last as usize];
            let text = Text::new(unescape(alloc, inner)?);
            Ok(Head::Leaf(Value::text(text)))
        }
        Noted::Truth(b) => Ok(Head::Leaf(Value::truth(b))),
    }
}

/// The phyla that are wanted of the children of a head.
pub fn args_of<'a>(spec: &'a Spec, head: &Head) -> &'a [PhylumId]
    ensures { result.now ≡ args_in spec.now head.now }
{
    let Head::Node(Some(op), _) = head else {
        return &[];
    };
    match spec.ops.place(op.number) {
        Some(operator) => operator.args.as_slice(),
        None => &[],
    }
}

/// Whether a text is empty or matched by the pattern at a place.
fn is_lexeme(spec: &Spec, matcher: &mut Matcher, place: u32, text: &[u8]) -> bool
    requires { matcher.old ≡ spec.now.lexemes }
    ensures matched { IsTrue result ↔ IsLexeme spec.now place text.now }
    ensures same { matcher.new ≡ matcher.old }
{
    let place = place as usize;
    if text.is_empty() {
        true
    } else if place < spec.lexemes.len() {
        matcher.matches(place, text)
    } else {
        false
    }
}

/// Whether a leaf of a phylum of this shape may hold the value of a leaf.
fn may_hold(spec: &Spec, matcher: &mut Matcher, shape: Shape, value: &Value) -> bool
    requires { matcher.old ≡ spec.now.lexemes }
    ensures held { (r : Raw) → IsRaw r → Leaf value.now ≡ head_of spec.now r
        → IsTrue result ↔ MayHold spec.now shape value.now }
    ensures same { matcher.new ≡ matcher.old }
{
    match &value.node {
        ValueNode::Bool(_) => matches!(shape, Shape::Truths),
        ValueNode::Int(_) => matches!(shape, Shape::Numbers),
        ValueNode::Text(text) => match shape {
            Shape::Texts => true,
            Shape::Lexemes(place) => is_lexeme(spec, matcher, place, text.as_slice()),
            _ => false,
        },
        ValueNode::Tree(_, _) | ValueNode::Fault(_) => false,
    }
}

/// Whether the value of a leaf fits a phylum.
fn leaf_fits(spec: &Spec, matcher: &mut Matcher, value: &Value, wanted: PhylumId) -> bool
    requires { matcher.old ≡ spec.now.lexemes }
    ensures fits { (r : Raw) → IsRaw r → Leaf value.now ≡ head_of spec.now r
        → IsTrue result ↔ LeafFits spec.now wanted value.now }
    ensures same { matcher.new ≡ matcher.old }
{
    match spec.phyla.place(wanted.number) {
        Some(phylum) => may_hold(spec, matcher, phylum.shape, value),
        None => false,
    }
}

/// Whether an operator is of a phylum and has so many arguments.
fn operator_fits(spec: &Spec, op: OpId, kids: u32, wanted: PhylumId) -> bool
    ensures { IsTrue result ↔ (phylum_of spec.now.ops op ≡ Some wanted) × (length (args_of spec.now.ops op) ≡ kids) }
{
    match spec.ops.place(op.number) {
        Some(operator) => operator.phylum == wanted && operator.args.len() == kids as usize,
        None => false,
    }
}

/// Whether there is an operator, of a phylum and with so many arguments.
fn node_fits(spec: &Spec, op: Option<OpId>, kids: u32, wanted: PhylumId) -> bool
    ensures { IsTrue result ↔ MatchOption op ⊥ (λ k. (phylum_of spec.now.ops k ≡ Some wanted)
        × (length (args_of spec.now.ops k) ≡ kids)) }
{
    match op {
        Some(op) => operator_fits(spec, op, kids, wanted),
        None => false,
    }
}

/// Whether a subterm fits a phylum, whatever its children.
pub fn head_fits(spec: &Spec, matcher: &mut Matcher, head: &Head, wanted: PhylumId) -> bool
    requires { matcher.old ≡ spec.now.lexemes }
    ensures fits { (r : Raw) → IsRaw r → head.now ≡ head_of spec.now r
        → IsTrue result ↔ HeadFits spec.now wanted r }
    ensures same { matcher.new ≡ matcher.old }
{
    match head {
        Head::Node(op, kids) => node_fits(spec, *op, *kids, wanted),
        Head::Leaf(value) => leaf_fits(spec, matcher, value, wanted),
    }
}
