//! Declarations.
use crate::expr::Expr;
use crate::name::{Name, Quoted, Reference, Typed};
use crate::pattern::Pattern;
use sg_kinds::fault::Position;
use sg_kinds::marks::{ChildPlace, Group, Way};
use sg_kinds::row::Row;

/// An operator of a phylum, with the phyla of its arguments.
#[derive(Drop)]
pub struct Alt {
    pub name: Name,
    pub args: Row<Name>,
}

/// An attribute of a phylum or nonterminal.
#[derive(Drop)]
pub struct AttrDecl {
    pub way: Way,
    pub of: Name,
    pub name: Name,
}

/// What an equation defines, or what a scheme shows.
#[derive(Drop)]
pub enum Target {
    Attribute(Reference),
    Local(Name),
}

/// What an equation defines, and how.
#[derive(Drop)]
pub struct Equation {
    pub target: Target,
    pub expr: Expr,
}

/// An item of a scheme.
#[derive(Drop)]
pub enum Item {
    Writes(Quoted),
    /// The next child.
    Child(ChildPlace),
    Shows(Target),
    /// What stands between the elements of a list.
    Separates(Row<Quoted>),
}

/// A scheme, and the place of its `[`.
#[derive(Drop)]
pub struct SchemeDecl {
    pub place: Position,
    /// Whether the selection may rest on the node (`@`).
    pub rests: bool,
    /// Whether the node is editable as text (`::=`).
    pub editable: bool,
    pub items: Row<Item>,
}

/// A symbol of a production.
#[derive(Drop)]
pub enum Part {
    Named(Name),
    Literal(Quoted),
}

/// The right side of a production with its result, and the place of its `(`.
#[derive(Drop)]
pub struct Right {
    pub place: Position,
    pub parts: Row<Part>,
    pub expr: Expr,
}

/// A declaration.
#[derive(Drop)]
pub enum Decl {
    Root(Name),
    /// `list p`
    Listed(Name),
    /// `optional p`, or `optional list p` where the first part says so
    Optional(bool, Name),
    Operators(Name, Row<Alt>),
    Lexeme(Name, Quoted),
    Attributes(Name, Row<AttrDecl>),
    /// The locals and equations of an operator of a phylum.
    Equations(Name, Name, Row<Typed>, Vec<Equation>),
    /// The schemes of an operator of a phylum, in the ordinary view or in that with a name.
    Schemes(Name, Name, Option<Name>, Row<SchemeDecl>),
    /// A function: its type, its name, its parameters and its body.
    Function(Name, Name, Row<Typed>, Expr),
    /// A transformation of a phylum, by its title.
    Transform(Name, Quoted, Pattern, Expr),
    Productions(Name, Vec<Right>),
    /// An entry of a phylum: a nonterminal and its attribute.
    Entry(Name, Name, Name),
    /// A precedence line, and the place of its first word.
    Levels(Group, Row<Quoted>, Position),
}
