// Plans of evaluation.
use crate::ids::RuleId;
use crate::row::Row;

/// A step of a visit: evaluate an equation of the node's operator, or visit a child, both numbered as they are given.
#[derive(Clone, Copy, PartialEq, Eq)]
pub enum PlanStep {
    Eval(RuleId),
    /// a child counted from 0, and its visit counted from 1
    Visit(u32, u32),
}

/// Plans for a specification.
#[derive(Drop)]
pub struct Plans {
    /// the visit of each attribute of each phylum, counted from 1
    pub visits: Row<Row<u32>>,
    /// the position of each vertex of each operator
    pub places: Row<Row<u32>>,
    /// of each operator, what each of its visits does, in rising order of position
    pub steps: Row<Row<Row<PlanStep>>>,
}
