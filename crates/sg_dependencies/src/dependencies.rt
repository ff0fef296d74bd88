//! The dependencies of all operators and phyla.
use sg_sets::Relation;

/// The dependencies among the vertices of each operator, and those among the attributes of each phylum.
#[derive(Drop)]
pub struct Dependencies {
    pub operators: Vec<Relation>,
    pub phyla: Vec<Relation>,
}
