//! Names, strings and references, with the places that faults print.
use crate::number::Number;
use sg_kinds::fault::Position;
use sg_kinds::row::Row;
use sg_kinds::text::Text;

/// A name and its token.
#[derive(Drop)]
pub struct Name {
    pub text: Text,
    pub place: Position,
}

/// A string after its escapes, or a literal, and its token.
#[derive(Drop)]
pub struct Quoted {
    pub text: Text,
    pub place: Position,
}

/// An occurrence of a phylum in an operator or production.
#[derive(Drop)]
pub enum Occurrence {
    /// The left side, `$$`.
    Own(Position),
    /// The occurrence of a phylum with this number, or the only one.
    Named(Name, Option<Number>),
}

/// An attribute of an occurrence.
#[derive(Drop)]
pub struct Reference {
    pub of: Occurrence,
    pub attr: Name,
}

/// An attribute of a phylum, that of an enclosing node.
#[derive(Drop)]
pub struct Pair {
    pub phylum: Name,
    pub attr: Name,
}

/// `{p.a, q.b}`: the attribute of the nearest enclosing node of the phyla, and the place of its `{`.
#[derive(Drop)]
pub struct Remote {
    pub pairs: Row<Pair>,
    pub place: Position,
}

/// A parameter or a local: its type and its name.
#[derive(Drop)]
pub struct Typed {
    pub of: Name,
    pub name: Name,
}
