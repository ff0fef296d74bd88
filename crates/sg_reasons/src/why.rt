// Ways of steps between the vertices of operators, and their causes.
use sg_kinds::ids::{OpId, PhylumId};
use sg_kinds::row::Row;

/// Why one vertex of an operator depends on another.
#[derive(Clone, Copy)]
pub enum Cause {
    /// the equation at this place among all names the one and defines the other
    ByEquation(usize),
    /// they stand at this occurrence, and its phylum relates them for the reason at this place
    ByPhylum(u32, usize),
    /// they stand at this occurrence, and the first of these slots is of an earlier evaluated layer
    ByLayers(u32, u32, u32),
}

/// A step of an operator to the vertex of this number.
#[derive(Clone, Copy)]
pub struct Step {
    pub to: usize,
    pub cause: Cause,
}

/// A way of an operator from the vertex of this number on.
#[derive(Drop)]
pub struct Way {
    pub from: usize,
    pub steps: Row<Step>,
}

/// Why a phylum relates two of its attributes, each by its slot: a way between them at an occurrence of an operator.
#[derive(Drop)]
pub struct Reason {
    pub phylum: PhylumId,
    pub from: u32,
    pub to: u32,
    pub op: OpId,
    /// 0 for the left side, k + 1 for argument k
    pub at: u32,
    pub way: Way,
}

/// A cycle of an operator, from one of its vertices back to it, and the reasons of its steps: each rests on those
/// behind it.
#[derive(Drop)]
pub struct Path {
    pub op: OpId,
    pub cycle: Way,
    pub reasons: Row<Reason>,
}
