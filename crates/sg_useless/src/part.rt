//! Parts of a record.

/// A part of a record that may be of no use, by its place there.
#[derive(Clone, Copy, PartialEq, Eq, PartialOrd, Ord)]
pub enum Part {
    /// A function.
    Function(usize),
    /// An attribute of a phylum.
    Attribute(usize, usize),
    /// A local of an operator.
    Local(usize, usize),
    /// A phylum.
    Phylum(usize),
    /// A nonterminal.
    Nonterminal(usize),
    /// The schemes of an operator.
    Schemes(usize),
    /// The entry of a phylum.
    Entry(usize),
    /// A literal of a precedence line.
    Literal(usize, usize),
}
