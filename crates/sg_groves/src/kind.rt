// What a node is.
ghost use Rattle.std.specs.Prelude.{◌<◌};

use sg_forest::Label;
use sg_kinds::ids::{OpId, PhylumId};

/// What a node is: of an operator, or a leaf.
#[derive(Clone, Copy)]
pub struct Kind {
    /// the phylum of its term
    pub phylum: PhylumId,
    /// None exactly at a leaf
    pub op: Option<OpId>,
    /// how many children it has
    pub arity: u32,
}

impl Label for Kind {
    ghost arity_of = { λ k. k.arity };

    ghost sort_of = { λ k. 0 };

    ghost kid_sort_of = { λ k i. 0 };

    fn arity(&self) -> usize {
        self.arity as usize
    }

    fn sort(&self) -> u32 {
        0
    }

    fn kid_sort(&self, _: usize) -> u32 {
        0
    }
}
