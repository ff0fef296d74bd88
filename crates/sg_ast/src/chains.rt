//! Chains made of lists, and where trees begin.
ghost use Rattle.std.specs.Prelude.{◌≡◌, [], map, option_map, IfOk};
ghost use Rattle.sg_ast.specs.Chains.{chain_of, exprs_chain, cases_chain, occurrence_place, pattern_place, expr_place};
ghost use Rattle.sg_ast.specs.Parts.{target_place};
ghost use Rattle.sg_ast.specs.View.{pattern_of, patterns_of, expr_of, exprs_of, cases_of, case_of};

use crate::decl::Target;
use crate::expr::{Cases, Expr, Exprs, Operands};
use crate::name::Occurrence;
use crate::pattern::{Pattern, Patterns};
use sg_kinds::fault::Position;
use sg_kinds::memory::NoMemory;
use std::alloc::Global;
use std::boxed::Box;

impl Patterns {
    /// The chain of these patterns.
    pub fn new(alloc: Global, mut patterns: Vec<Pattern>) -> Result<Patterns, NoMemory>
        ensures { IfOk result (λ xs. patterns_of xs ≡ chain_of (map pattern_of patterns.items)) }
    {
        let mut chain = Patterns::End;
        while let Some(last) = patterns.pop() {
            let last = Box::new(alloc, last)?;
            chain = Patterns::More(last, Box::new(alloc, chain)?);
        }
        Ok(chain)
    }
}

impl Exprs {
    /// The chain of these expressions.
    pub fn new(alloc: Global, mut exprs: Vec<Expr>) -> Result<Exprs, NoMemory>
        ensures { IfOk result (λ es. exprs_of es ≡ exprs_chain (map expr_of exprs.items)) }
    {
        let mut chain = Exprs::End;
        while let Some(last) = exprs.pop() {
            let last = Box::new(alloc, last)?;
            chain = Exprs::More(last, Box::new(alloc, chain)?);
        }
        Ok(chain)
    }
}

impl Cases {
    /// The end of a chain, with the default if there is one.
    fn last(alloc: Global, default: Option<Expr>) -> Result<Cases, NoMemory>
        ensures { IfOk result (λ cs. cases_of cs ≡ cases_chain [] (option_map expr_of default)) }
    {
        match default {
            Some(expr) => Ok(Cases::Default(Box::new(alloc, expr)?)),
            None => Ok(Cases::End),
        }
    }

    /// The chain of these cases, with the default behind them if there is one.
    pub fn new(
        alloc: Global,
        mut cases: Vec<(Pattern, Expr)>,
        default: Option<Expr>,
    ) -> Result<Cases, NoMemory>
        ensures { IfOk result (λ cs. cases_of cs ≡ cases_chain (map case_of cases.items) (option_map expr_of default)) }
    {
        let mut chain = Cases::last(alloc, default)?;
        while let Some((pattern, expr)) = cases.pop() {
            let expr = Box::new(alloc, expr)?;
            chain = Cases::More(pattern, expr, Box::new(alloc, chain)?);
        }
        Ok(chain)
    }
}

impl Occurrence {
    /// The place of the first token.
    pub fn place(&self) -> Position
        ensures { result ≡ occurrence_place self.now }
    {
        match self {
            Occurrence::Own(place) => *place,
            Occurrence::Named(name, _) => name.place,
        }
    }
}

impl Target {
    /// The place of the first token.
    pub fn place(&self) -> Position
        ensures { result ≡ target_place self.now }
    {
        match self {
            Target::Attribute(reference) => reference.of.place(),
            Target::Local(name) => name.place,
        }
    }
}

impl Pattern {
    /// The place of the first token.
    pub fn place(&self) -> Position
        ensures { result ≡ pattern_place (pattern_of self.now) }
    {
        match self {
            Pattern::Number(_, _, place)
            | Pattern::Truth(_, place)
            | Pattern::Anything(place)
            | Pattern::Made(_, _, place) => *place,
            Pattern::Text(text) => text.place,
            Pattern::Variable(name) | Pattern::Operator(name, _) => name.place,
        }
    }
}

impl Expr {
    /// The place of the first token.
    pub fn place(&self) -> Position
        ensures { result ≡ expr_place (expr_of self.now) }
    {
        match self {
            Expr::Number(_, place)
            | Expr::Truth(_, place)
            | Expr::Made(_, _, place)
            | Expr::Paren(_, place)
            | Expr::Prefix(_, _, place)
            | Expr::Let(_, _, _, place) => *place,
            Expr::With(_, head, _, _) => head.place,
            Expr::Text(text) => text.place,
            Expr::Variable(name) => name.place,
            Expr::Call(name, _) => name.place,
            Expr::Attribute(reference) => reference.of.place(),
            Expr::Remote(remote) => remote.place,
            Expr::Binary(_, operands) => {
                let Operands::Both(left, _) = &**operands;
                left.place()
            }
            Expr::Choice(test, _, _) => test.place(),
        }
    }
}
