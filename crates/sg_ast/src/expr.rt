//! Expressions.
use crate::name::{Name, Quoted, Reference, Remote};
use crate::number::Number;
use crate::pattern::Pattern;
use sg_kinds::fault::Position;
use sg_kinds::marks::Made;
use std::boxed::Box;

/// An operator between two operands.
#[derive(Clone, Copy, Debug, PartialEq, Eq)]
pub enum Infix {
    /// `||`
    Or,
    /// `&&`
    And,
    /// `==`
    Equal,
    /// `!=`
    Unequal,
    /// `<`
    Below,
    /// `<=`
    AtMost,
    /// `>`
    Above,
    /// `>=`
    AtLeast,
    /// `::`
    Cons,
    /// `#`
    Join,
    /// `+`
    Add,
    /// `-`
    Sub,
    /// `*`
    Mul,
    /// `/`
    Div,
    /// `%`
    Rem,
}

/// An operator before its operand.
#[derive(Clone, Copy, Debug, PartialEq, Eq)]
pub enum Prefix {
    /// `-`
    Minus,
    /// `!`
    Not,
}

/// How `with (a) (p : b ..)` begins: the place of its word, and the pattern of its first case.
#[derive(Drop)]
pub struct WithHead {
    pub place: Position,
    pub pattern: Pattern,
}

/// An expression, which five words hold. A place is that of the first token, where no name has it.
#[cycle(ast)]
#[derive(Drop)]
pub enum Expr {
    Number(Number, Position),
    Text(Quoted),
    Truth(bool, Position),
    Variable(Name),
    Attribute(Box<Reference>),
    /// `{p.a, q.b}`
    Remote(Box<Remote>),
    /// `<p>` or `[p]`
    Made(Made, Box<Name>, Position),
    Paren(Box<Expr>, Position),
    Prefix(Prefix, Box<Expr>, Position),
    /// An operator between its operands.
    Binary(Infix, Box<Operands>),
    /// `a ? b : c`
    Choice(Box<Expr>, Box<Expr>, Box<Expr>),
    /// An operator or a function with its arguments.
    Call(Box<Name>, Exprs),
    /// `let x = a in (b)`
    Let(Box<Name>, Box<Expr>, Box<Expr>, Position),
    /// `with (a) (p : b ..)`: what is looked at, the head, the first case's expression and the other cases.
    With(Box<Expr>, Box<WithHead>, Box<Expr>, Box<Cases>),
}

/// What stands on both sides of an operator, side by side. It has one variant, since the definitions recur through enums alone.
#[cycle(ast)]
#[derive(Drop)]
pub enum Operands {
    Both(Expr, Expr),
}

/// Arguments.
#[cycle(ast)]
pub enum Exprs {
    End,
    More(Box<Expr>, Box<Exprs>),
}

/// The cases of `with` after the first.
#[cycle(ast)]
pub enum Cases {
    End,
    Default(Box<Expr>),
    More(Pattern, Box<Expr>, Box<Cases>),
}

// a long chain ends without recursion
impl Drop for Exprs {
    #[cycle(ast)]
    fn drop(mut self) {
        loop {
            match self {
                Exprs::End => return,
                Exprs::More(_, rest) => self = Box::into_inner(rest),
            }
        }
    }
}

impl Drop for Cases {
    #[cycle(ast)]
    fn drop(mut self) {
        loop {
            match self {
                Cases::End => return,
                Cases::Default(_) => return,
                Cases::More(_, _, rest) => self = Box::into_inner(rest),
            }
        }
    }
}
