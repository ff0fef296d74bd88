//! Expressions beside their depth.
ghost use Rattle.std.specs.Prelude.{◌≡◌, ◌+◌, ◌++◌, [], ◌∷◌, max, min, map, None, option_map, IfOk};
ghost use Rattle.sg_ast.specs.Chains.{exprs_chain, cases_chain};
ghost use Rattle.sg_ast.specs.Grouped.{depth as depth_of, exprs_depth, cases_depth};
ghost use Rattle.sg_ast.specs.View.{pattern_of, expr_of, case_of, cases_of};

use sg_ast::expr::{Cases, Expr};
use sg_ast::pattern::Pattern;
use sg_kinds::memory::NoMemory;
use std::alloc::Global;

/// The greater of two depths.
pub(crate) fn deeper(a: u8, b: u8) -> u8
    ensures { result ≡ max a b }
{
    a.max(b)
}

/// An expression and how many nodes deep it is; 255 where it is deeper.
#[derive(Drop)]
pub(crate) struct Node {
    pub expr: Expr,
    pub depth: u8,
    ghost exact: { depth ≡ min 255 (depth_of (expr_of expr)) },
}

impl Node {
    /// An expression without parts.
    pub fn leaf(expr: Expr) -> Node
        requires { depth_of (expr_of expr) ≡ 1 }
        ensures { result.expr ≡ expr }
    {
        Node { expr, depth: 1 }
    }

    /// An expression whose deepest part has this depth.
    pub fn above(below: u8, expr: Expr) -> Node
        requires { min 255 (below + 1) ≡ min 255 (depth_of (expr_of expr)) }
        ensures { result.expr ≡ expr }
    {
        Node {
            expr,
            depth: below.saturating_add(1),
        }
    }
}

/// Expressions and the depth of the deepest.
#[derive(Drop)]
pub(crate) struct Nodes {
    pub exprs: Vec<Expr>,
    pub depth: u8,
    ghost exact: { depth ≡ min 255 (exprs_depth (exprs_chain (map expr_of exprs.items))) },
}

impl Nodes {
    pub fn new(alloc: Global) -> Nodes
        ensures { result.exprs.items ≡ [] }
    {
        Nodes {
            exprs: Vec::new(alloc),
            depth: 0,
        }
    }

    /// One more expression.
    pub fn with(mut self, node: Node) -> Result<Nodes, NoMemory>
        ensures { IfOk result (λ n. map expr_of n.exprs.items
            ≡ map expr_of self.exprs.items ++ expr_of node.expr ∷ []) }
    {
        let depth = deeper(self.depth, node.depth);
        self.exprs.push(node.expr)?;
        Ok(Nodes {
            exprs: self.exprs,
            depth,
        })
    }
}

/// Cases of `with` and the depth of the deepest of their expressions.
#[derive(Drop)]
pub(crate) struct CaseNodes {
    pub cases: Vec<(Pattern, Expr)>,
    pub depth: u8,
    ghost exact: { depth ≡ min 255 (cases_depth (cases_chain (map case_of cases.items) None)) },
}

impl CaseNodes {
    pub fn new(alloc: Global) -> CaseNodes
        ensures { result.cases.items ≡ [] }
    {
        CaseNodes {
            cases: Vec::new(alloc),
            depth: 0,
        }
    }

    /// One more case.
    pub fn with(mut self, case: (Pattern, Node)) -> Result<CaseNodes, NoMemory>
        ensures { IfOk result (λ n. map case_of n.cases.items
            ≡ map case_of self.cases.items ++ (pattern_of case.0, expr_of case.1.expr) ∷ []) }
    {
        let (pattern, node) = case;
        let depth = deeper(self.depth, node.depth);
        self.cases.push((pattern, node.expr))?;
        Ok(CaseNodes {
            cases: self.cases,
            depth,
        })
    }
}

/// The cases of `with` after the first as a chain, and the depth of the deepest of their expressions.
#[derive(Drop)]
pub(crate) struct CaseChain {
    pub cases: Cases,
    pub depth: u8,
    ghost exact: { depth ≡ min 255 (cases_depth (cases_of cases)) },
}

/// The chain of these cases, with the default behind them if there is one.
#[tactic(auto, using(crate::proofs::Depths::depth_default))]
pub(crate) fn chained(
    alloc: Global,
    cases: CaseNodes,
    default: Option<Node>,
) -> Result<CaseChain, NoMemory>
    ensures { IfOk result (λ c. cases_of c.cases ≡ cases_chain (map case_of cases.cases.items)
        (option_map (λ n. expr_of n.expr) default)) }
{
    match default {
        Some(node) => {
            let depth = deeper(cases.depth, node.depth);
            let cases = Cases::new(alloc, cases.cases, Some(node.expr))?;
            Ok(CaseChain { cases, depth })
        }
        None => {
            let depth = cases.depth;
            let cases = Cases::new(alloc, cases.cases, None)?;
            Ok(CaseChain { cases, depth })
        }
    }
}
