// Expressions.
use crate::ids::{OpId, PhylumId};
use crate::marks::{Connective, Made, Sign, Unary};
use crate::pattern::{Literal, Pattern};
use std::boxed::Box;
use std::marker::Model;

/// An expression, whose names are places among its bindings, counted from 0.
#[derive(Drop)]
pub struct Expr {
    pub tree: ExprTree,
}

#[cycle(expr)]
#[derive(Drop)]
pub enum ExprTree {
    Literal(Literal),
    Named(u32),
    Made(Made, PhylumId),
    Unary(Unary, Box<ExprTree>),
    Binary(Sign, Box<ExprTree>, Box<ExprTree>),
    Logical(Connective, Box<ExprTree>, Box<ExprTree>),
    /// `e :: l`, with the binary operator of l's list phylum
    Cons(OpId, Box<ExprTree>, Box<ExprTree>),
    Choice(Box<ExprTree>, Box<ExprTree>, Box<ExprTree>),
    Apply(OpId, ExprList),
    /// a function by its place in `functions`
    Call(u32, ExprList),
    /// the first is bound after the bindings that stand
    Let(Box<ExprTree>, Box<ExprTree>),
    With(Box<ExprTree>, Box<CaseList>),
}

#[cycle(expr)]
pub enum ExprList {
    End,
    More(Box<ExprTree>, Box<ExprList>),
}

/// The cases of `with`; the pattern's variables are bound after the bindings that stand.
#[cycle(expr)]
pub enum CaseList {
    End,
    Default(Box<ExprTree>),
    More(Pattern, Box<ExprTree>, Box<CaseList>),
}

// a long chain ends without recursion
impl Drop for ExprList {
    #[cycle(expr)]
    fn drop(mut self) {
        loop {
            match self {
                ExprList::End => return,
                ExprList::More(_, rest) => self = Box::into_inner(rest),
            }
        }
    }
}

impl Drop for CaseList {
    #[cycle(expr)]
    fn drop(mut self) {
        loop {
            match self {
                CaseList::End => return,
                CaseList::Default(_) => return,
                CaseList::More(_, _, rest) => self = Box::into_inner(rest),
            }
        }
    }
}

impl Model for Expr {
    ghost use Rattle.sg_kinds.specs.Expressions.{Expr as IsExpr};
    ghost use Rattle.sg_kinds.specs.ExprCode.{expr_code};

    ghost Value = { IsExpr };

    ghost coded = { expr_code };

    ghost use Rattle.sg_kinds.specs.ExprView.{expr_of};

    ghost view = { λ e. expr_of e.tree };
}
