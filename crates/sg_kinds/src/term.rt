// Terms: leaves, and nodes with an operator, a scheme number, an elided mark and children.
use crate::ids::{OpId, PhylumId};
use crate::value::Value;
use std::marker::Model;

/// A term: a leaf of a base or lexeme phylum with its value, or a node with its operator, scheme number, elided mark
/// and children.
#[cycle(term)]
#[derive(Drop)]
pub struct Term {
    pub node: TermNode,
}

/// A term's children.
pub type Terms0 = Vec<Term>;

/// One layer of a term.
#[cycle(term)]
#[derive(Drop)]
pub enum TermNode {
    Leaf(PhylumId, Value),
    Node(OpId, u32, bool, Terms0),
}

impl Model for Term {
    ghost use Rattle.sg_kinds.specs.Terms.{Term as IsTerm, height_of};
    ghost use Rattle.sg_kinds.specs.TermCode.{term_code};

    ghost Value = { IsTerm };

    ghost coded = { term_code };

    ghost use Rattle.sg_kinds.specs.TermView.{term_of_node};

    ghost view = { λ t. term_of_node t.node };

    ghost size = { height_of };

    ghost use Rattle.sg_kinds.specs.TermFalls.{height_falls};

    ghost size_decreases = { λ a h. height_falls a.node };
}
