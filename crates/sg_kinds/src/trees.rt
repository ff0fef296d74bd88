// Copies of expressions and patterns, and how long chains of them end.
ghost use Rattle.std.specs.Prelude.{◌≡◌, IfOk};
ghost use Rattle.sg_kinds.specs.PatternView.{literal_of, pattern_of, patterns_of};
ghost use Rattle.sg_kinds.specs.ExprView.{expr_of, exprs_of, cases_of};

use crate::copy::TryCopy;
use crate::expr::{CaseList, Expr, ExprList, ExprTree};
use crate::memory::NoMemory;
use crate::pattern::{Literal, Pattern, PatternList, PatternTree};
use std::alloc::Global;
use std::boxed::Box;

impl Literal {
    fn copy(&self, alloc: Global) -> Result<Literal, NoMemory>
        ensures { IfOk result (λ c. literal_of c ≡ literal_of self.now) }
    {
        match self {
            Literal::Truth(b) => Ok(Literal::Truth(*b)),
            Literal::Number(n) => Ok(Literal::Number(*n)),
            Literal::Text(text) => Ok(Literal::Text(text.copy(alloc)?)),
        }
    }
}

impl PatternTree {
    #[cycle(copy_pattern)]
    fn copy(&self, alloc: Global) -> Result<PatternTree, NoMemory>
        ensures { IfOk result (λ c. pattern_of c ≡ pattern_of self.now) }
    {
        match self {
            PatternTree::Literal(literal) => Ok(PatternTree::Literal(literal.copy(alloc)?)),
            PatternTree::Anything => Ok(PatternTree::Anything),
            PatternTree::Variable => Ok(PatternTree::Variable),
            PatternTree::Made(made, p) => Ok(PatternTree::Made(*made, *p)),
            PatternTree::Operator(op, parts) => Ok(PatternTree::Operator(*op, parts.copy(alloc)?)),
        }
    }
}

impl PatternList {
    #[cycle(copy_pattern)]
    fn copy(&self, alloc: Global) -> Result<PatternList, NoMemory>
        ensures { IfOk result (λ c. patterns_of c ≡ patterns_of self.now) }
    {
        match self {
            PatternList::End => Ok(PatternList::End),
            PatternList::More(first, rest) => {
                let first = Box::new(alloc, first.copy(alloc)?)?;
                let rest = Box::new(alloc, rest.copy(alloc)?)?;
                Ok(PatternList::More(first, rest))
            }
        }
    }
}

impl TryCopy for Pattern {
    fn try_copy(&self, alloc: Global) -> Result<Pattern, NoMemory> {
        Ok(Pattern {
            tree: self.tree.copy(alloc)?,
        })
    }
}

impl ExprTree {
    #[cycle(copy_expr)]
    fn copy(&self, alloc: Global) -> Result<ExprTree, NoMemory>
        ensures { IfOk result (λ c. expr_of c ≡ expr_of self.now) }
    {
        match self {
            ExprTree::Literal(literal) => Ok(ExprTree::Literal(literal.copy(alloc)?)),
            ExprTree::Named(k) => Ok(ExprTree::Named(*k)),
            ExprTree::Made(made, p) => Ok(ExprTree::Made(*made, *p)),
            ExprTree::Unary(f, a) => Ok(ExprTree::Unary(*f, Box::new(alloc, a.copy(alloc)?)?)),
            ExprTree::Binary(sign, a, b) => {
                let a = Box::new(alloc, a.copy(alloc)?)?;
                Ok(ExprTree::Binary(*sign, a, Box::new(alloc, b.copy(alloc)?)?))
            }
            ExprTree::Logical(connective, a, b) => {
                let a = Box::new(alloc, a.copy(alloc)?)?;
                Ok(ExprTree::Logical(*connective, a, Box::new(alloc, b.copy(alloc)?)?))
            }
            ExprTree::Cons(op, a, b) => {
                let a = Box::new(alloc, a.copy(alloc)?)?;
                Ok(ExprTree::Cons(*op, a, Box::new(alloc, b.copy(alloc)?)?))
            }
            ExprTree::Choice(c, a, b) => {
                let c = Box::new(alloc, c.copy(alloc)?)?;
                let a = Box::new(alloc, a.copy(alloc)?)?;
                Ok(ExprTree::Choice(c, a, Box::new(alloc, b.copy(alloc)?)?))
            }
            ExprTree::Apply(op, parts) => Ok(ExprTree::Apply(*op, parts.copy(alloc)?)),
            ExprTree::Call(f, parts) => Ok(ExprTree::Call(*f, parts.copy(alloc)?)),
            ExprTree::Let(a, b) => {
                let a = Box::new(alloc, a.copy(alloc)?)?;
                Ok(ExprTree::Let(a, Box::new(alloc, b.copy(alloc)?)?))
            }
            ExprTree::With(a, cases) => {
                let a = Box::new(alloc, a.copy(alloc)?)?;
                Ok(ExprTree::With(a, Box::new(alloc, cases.copy(alloc)?)?))
            }
        }
    }
}

impl ExprList {
    #[cycle(copy_expr)]
    fn copy(&self, alloc: Global) -> Result<ExprList, NoMemory>
        ensures { IfOk result (λ c. exprs_of c ≡ exprs_of self.now) }
    {
        match self {
            ExprList::End => Ok(ExprList::End),
            ExprList::More(first, rest) => {
                let first = Box::new(alloc, first.copy(alloc)?)?;
                let rest = Box::new(alloc, rest.copy(alloc)?)?;
                Ok(ExprList::More(first, rest))
            }
        }
    }
}

// a case with its pattern
#[derive(Drop)]
struct Arm {
    pattern: Pattern,
    expr: Expr,
}

impl CaseList {
    #[cycle(copy_expr)]
    #[tactic(auto, using(crate::proofs::Arms::arms_push))]
    fn copy(&self, alloc: Global) -> Result<CaseList, NoMemory>
        ensures { IfOk result (λ c. cases_of c ≡ cases_of self.now) }
    {
        let mut arms: Vec<Arm> = Vec::new(alloc);
        let mut rest = self;
        while let CaseList::More(pattern, first, next) = rest {
            let pattern = pattern.try_copy(alloc)?;
            let tree = first.copy(alloc)?;
            arms.push(Arm {
                pattern,
                expr: Expr { tree },
            })?;
            rest = next;
        }
        let mut copy = match rest {
            CaseList::Default(e) => CaseList::Default(Box::new(alloc, e.copy(alloc)?)?),
            _ => CaseList::End,
        };
        while let Some(arm) = arms.pop() {
            let first = Box::new(alloc, arm.expr.tree)?;
            copy = CaseList::More(arm.pattern, first, Box::new(alloc, copy)?);
        }
        Ok(copy)
    }
}

impl TryCopy for Expr {
    fn try_copy(&self, alloc: Global) -> Result<Expr, NoMemory> {
        Ok(Expr {
            tree: self.tree.copy(alloc)?,
        })
    }
}
