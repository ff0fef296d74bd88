// A specification: one field for each part of a declaration, a name standing as the number to which it resolves.
use crate::expr::Expr;
use crate::ids::{ExprId, OpId, PhylumId};
use crate::lexeme::Lexeme;
use crate::marks::{ChildPlace, Group, Shape, Way};
use crate::pattern::Pattern;
use crate::row::Row;
use crate::text::Text;
use crate::views::Views;

/// An attribute of a phylum, by its place in that phylum's attributes.
#[derive(Clone, Copy, PartialEq, Eq)]
pub struct Far {
    pub phylum: PhylumId,
    pub slot: u32,
}

/// An attribute of a phylum, with the phylum of its values. A far attribute hands down the one of `far` that the
/// nearest enclosing node of a listed phylum has; `far` is empty for an attribute that is written.
#[derive(Drop)]
pub struct Attr {
    pub name: Text,
    pub way: Way,
    pub of: PhylumId,
    pub far: Row<Far>,
}

/// A phylum, with its operators in source order. A leaf's phylum has the one attribute `value`.
#[derive(Drop)]
pub struct Phylum {
    pub name: Text,
    pub shape: Shape,
    pub ops: Row<OpId>,
    pub attrs: Row<Attr>,
}

/// A local of an operator, with the phylum of its values.
#[derive(Drop)]
pub struct Local {
    pub name: Text,
    pub of: PhylumId,
}

/// An attribute occurrence of an operator. `at` is 0 for the left side and k + 1 for argument k; `slot` is a place in
/// the attributes of the phylum there or, past these at the left side, in the operator's locals.
#[derive(Clone, Copy, PartialEq, Eq)]
pub struct Occurrence {
    pub at: u32,
    pub slot: u32,
}

/// A piece of a scheme's string: bytes, a newline with its margin, or a step of the margin by so many `%b` and then so
/// many `%t`.
#[derive(Drop)]
pub enum Piece {
    Written(Text),
    Newline,
    Margin(u32, u32),
}

/// What a scheme shows: a string, the next child, an attribute or local, the separator of a list.
#[derive(Drop)]
pub enum Item {
    Writes(Row<Piece>),
    Child(ChildPlace),
    Shows(Occurrence),
    Separates(Row<Piece>),
}

/// An unparsing scheme: its node rests where it begins with `@`, and is editable as text where it has `::=`.
#[derive(Drop)]
pub struct Scheme {
    pub rests: bool,
    pub editable: bool,
    pub items: Row<Item>,
}

/// An operator of a phylum, with the phyla of its arguments.
#[derive(Drop)]
pub struct Operator {
    pub name: Text,
    pub phylum: PhylumId,
    pub args: Row<PhylumId>,
    pub locals: Row<Local>,
    pub schemes: Row<Scheme>,
}

/// An equation of an operator: what it defines, and the different occurrences that its expression names, in the order
/// of their first mention. These are the bindings of the expression.
#[derive(Drop)]
pub struct Rule {
    pub op: OpId,
    pub target: Occurrence,
    pub args: Row<Occurrence>,
    pub expr: ExprId,
}

/// A function, whose parameters are the bindings of its body.
#[derive(Drop)]
pub struct Function {
    pub name: Text,
    pub params: Row<PhylumId>,
    pub result: PhylumId,
    pub body: ExprId,
}

/// A transformation of a phylum. The pattern's variables, from left to right, are the bindings of the expression.
#[derive(Drop)]
pub struct Transform {
    pub name: Text,
    pub phylum: PhylumId,
    pub pattern: Pattern,
    pub expr: ExprId,
}

/// A symbol of an input production: a literal, a lexeme phylum, or a nonterminal.
#[derive(Drop)]
pub enum Symbol {
    Quoted(Text),
    Lexical(PhylumId),
    Nonterminal(u32),
}

/// An input production of a nonterminal, with the phylum of its result. Nonterminals are numbered by their first
/// production. The results of the nonterminals and the texts of the lexemes, from left to right, are the bindings of
/// the expression.
#[derive(Drop)]
pub struct Production {
    pub name: Text,
    pub left: u32,
    pub of: PhylumId,
    pub right: Row<Symbol>,
    pub expr: ExprId,
}

/// The nonterminal whose result replaces a term of the phylum.
#[derive(Clone, Copy, PartialEq, Eq)]
pub struct Entry {
    pub phylum: PhylumId,
    pub nonterminal: u32,
}

/// A precedence line: infix literals that group alike. Of two lines the later one binds more tightly.
#[derive(Drop)]
pub struct LevelLine {
    pub group: Group,
    pub literals: Row<Text>,
}

/// A specification. The phyla 0, 1 and 2 are BOOL, INT and STR.
#[derive(Drop)]
pub struct Spec {
    pub phyla: Row<Phylum>,
    pub ops: Row<Operator>,
    pub exprs: Row<Expr>,
    pub rules: Row<Rule>,
    pub functions: Row<Function>,
    pub transforms: Row<Transform>,
    pub lexemes: Row<Lexeme>,
    pub productions: Row<Production>,
    pub entries: Row<Entry>,
    pub levels: Row<LevelLine>,
    pub views: Views,
    pub root: PhylumId,
}

/// What the attribute equations need of a specification.
#[derive(Drop)]
pub struct Rules {
    pub phyla: Row<Phylum>,
    pub ops: Row<Operator>,
    pub exprs: Row<Expr>,
    pub rules: Row<Rule>,
}
