//! Expressions, by precedence climbing.
ghost use Rattle.std.specs.Prelude.{◌≡◌, ◌+◌, ◌<◌, ◌≤◌, option_map, IfOk, List};
ghost use Rattle.sg_text.specs.declared.symbols.Symbol.TheVariants as sign;
ghost use Rattle.sg_ast.specs.Expressions as plain;
ghost use Rattle.sg_ast.specs.Levels.{atom_level, choice_level, prefix_level};
ghost use Rattle.sg_ast.specs.ReadingNames as names;
ghost use Rattle.sg_ast.specs.ReadingExpressions as spec;
ghost use Rattle.sg_ast.specs.Readers.{is_sign, sees, many};
ghost use Rattle.sg_ast.specs.Spelling.{Mark};
ghost use Rattle.sg_ast.specs.View.{pattern_of, expr_of, cases_of};
ghost use Rattle.sg_expressions.specs.ExprNests.{Nests, node_of, nodes_of, cases_in};
ghost use Rattle.sg_cursor.specs.Left.{left_of, made, Reads};
ghost use Rattle.sg_expressions.specs.Joined.{joined};
ghost use Rattle.sg_expressions.specs.WithParts as parts;

use crate::nodes::{CaseChain, CaseNodes, Node, Nodes, chained, deeper};
use crate::remote::remote;
use sg_ast::expr::{Expr, Exprs, Infix, Operands, Prefix, WithHead};
use sg_ast::name::Name;
use sg_ast::pattern::Pattern;
use sg_cursor::{
    ATOM, CHOICE, PREFIX, Refusal, Tokens, level, named_reference, next_by, own_reference,
    right_by, truth,
};
use sg_kinds::fault::Position;
use sg_kinds::limits::EXPRESSION_DEPTH;
use sg_kinds::marks::Made;
use sg_kinds::memory::NoMemory;
use sg_term_patterns::read_pattern;
use sg_text::{Keyword, Symbol};
use std::alloc::Global;
use std::boxed::Box;

/// `'<' name '>'`
#[tactic(auto, unfolding(sg_ast::specs::ReadingNames::placeholder))]
fn placeholder(alloc: Global, tokens: &mut Tokens<'_>) -> Result<Node, Refusal>
    ensures { Reads node_of (names.placeholder plain.MadeOf (left_of tokens.old))
        result (left_of tokens.new) }
{
    let place = tokens.expect_sign(Symbol::Less)?;
    let name = tokens.name(alloc)?;
    tokens.expect_sign(Symbol::Greater)?;
    let name = Box::new(alloc, name)?;
    Ok(Node::leaf(Expr::Made(Made::Placeholder, name, place)))
}

/// `'[' name ']'`
#[tactic(auto, unfolding(sg_ast::specs::ReadingNames::completing))]
fn completing(alloc: Global, tokens: &mut Tokens<'_>) -> Result<Node, Refusal>
    ensures { Reads node_of (names.completing plain.MadeOf (left_of tokens.old))
        result (left_of tokens.new) }
{
    let place = tokens.expect_sign(Symbol::LeftBracket)?;
    let name = tokens.name(alloc)?;
    tokens.expect_sign(Symbol::RightBracket)?;
    let name = Box::new(alloc, name)?;
    Ok(Node::leaf(Expr::Made(Made::Completing, name, place)))
}

/// `with` with these parts.
fn with_of(
    alloc: Global,
    scrutinee: Node,
    first: (Pattern, Node),
    others: CaseChain,
    place: Position,
) -> Result<Node, NoMemory>
    ensures { IfOk result (λ n. node_of n ≡ plain.With (node_of scrutinee) (pattern_of first.0) (node_of first.1)
        (cases_of others.cases) place) }
{
    let (pattern, expr) = first;
    let depth = deeper(scrutinee.depth, deeper(expr.depth, others.depth));
    let scrutinee = Box::new(alloc, scrutinee.expr)?;
    let head = Box::new(alloc, WithHead { place, pattern })?;
    let expr = Box::new(alloc, expr.expr)?;
    let others = Box::new(alloc, others.cases)?;
    Ok(Node::above(depth, Expr::With(scrutinee, head, expr, others)))
}

/// `a OPERATOR b` with these operands.
fn binary_of(alloc: Global, operator: Infix, left: Node, right: Node) -> Result<Node, NoMemory>
    ensures { IfOk result (λ n. node_of n ≡ plain.Binary operator (node_of left) (node_of right)) }
{
    let depth = deeper(left.depth, right.depth);
    let operands = Box::new(alloc, Operands::Both(left.expr, right.expr))?;
    Ok(Node::above(depth, Expr::Binary(operator, operands)))
}

/// `a ? b : c` with these parts.
fn choice_of(alloc: Global, condition: Node, yes: Node, no: Node) -> Result<Node, NoMemory>
    ensures { IfOk result (λ n. node_of n ≡ plain.Choice (node_of condition) (node_of yes) (node_of no)) }
{
    let depth = deeper(condition.depth, deeper(yes.depth, no.depth));
    let condition = Box::new(alloc, condition.expr)?;
    let yes = Box::new(alloc, yes.expr)?;
    let no = Box::new(alloc, no.expr)?;
    Ok(Node::above(depth, Expr::Choice(condition, yes, no)))
}

/// `let` with these parts.
fn let_of(
    alloc: Global,
    name: Name,
    value: Node,
    body: Node,
    place: Position,
) -> Result<Node, NoMemory>
    ensures { IfOk result (λ n. node_of n ≡ plain.Let name (node_of value) (node_of body) place) }
{
    let depth = deeper(value.depth, body.depth);
    let name = Box::new(alloc, name)?;
    let value = Box::new(alloc, value.expr)?;
    let body = Box::new(alloc, body.expr)?;
    Ok(Node::above(depth, Expr::Let(name, value, body, place)))
}

/// The rules of expressions, which take the reader of those inside as a parameter.
#[derive(Clone, Copy)]
struct Grammar<F> {
    alloc: Global,
    /// How deep the expressions inside may be.
    depth: u8,
    expr: F,
}

impl<F: Fn(Global, &mut Tokens<'_>, u8, u8) -> Result<Node, Refusal>> Grammar<F> {
    fn inner(&self, tokens: &mut Tokens<'_>, least: u8) -> Result<Node, Refusal>
        requires { Nests self.now.depth (F.pre self.now.expr) (F.post self.now.expr) }
        ensures { Reads node_of (spec.expr_within self.now.depth least (left_of tokens.old))
            result (left_of tokens.new) }
    {
        (self.expr)(self.alloc, tokens, self.depth, least)
    }

    /// `'(' expr ')'`
    #[tactic(auto, unfolding(sg_ast::specs::ReadingExpressions::paren))]
    fn paren(&self, tokens: &mut Tokens<'_>) -> Result<Node, Refusal>
        requires { Nests self.now.depth (F.pre self.now.expr) (F.post self.now.expr) }
        ensures { Reads node_of (spec.paren (spec.expr_within self.now.depth) (left_of tokens.old))
            result (left_of tokens.new) }
    {
        let place = tokens.expect_sign(Symbol::LeftParenthesis)?;
        let inner = self.inner(tokens, CHOICE)?;
        tokens.expect_sign(Symbol::RightParenthesis)?;
        let depth = inner.depth;
        let inner = Box::new(self.alloc, inner.expr)?;
        Ok(Node::above(depth, Expr::Paren(inner, place)))
    }

    /// `'let' name '=' expr 'in' '(' expr ')'`
    #[tactic(auto, unfolding(sg_ast::specs::ReadingExpressions::let_in))]
    fn let_in(&self, tokens: &mut Tokens<'_>) -> Result<Node, Refusal>
        requires { Nests self.now.depth (F.pre self.now.expr) (F.post self.now.expr) }
        ensures { Reads node_of (spec.let_in (spec.expr_within self.now.depth) (left_of tokens.old))
            result (left_of tokens.new) }
    {
        let place = tokens.expect_reserved(Keyword::Let)?;
        let name = tokens.name(self.alloc)?;
        tokens.expect_sign(Symbol::Equals)?;
        let value = self.inner(tokens, CHOICE)?;
        tokens.expect_reserved(Keyword::In)?;
        tokens.expect_sign(Symbol::LeftParenthesis)?;
        let body = self.inner(tokens, CHOICE)?;
        tokens.expect_sign(Symbol::RightParenthesis)?;
        Ok(let_of(self.alloc, name, value, body, place)?)
    }

    /// `pattern ':' expr`
    #[tactic(auto, unfolding(sg_ast::specs::ReadingExpressions::case))]
    fn case(&self, tokens: &mut Tokens<'_>) -> Result<(Pattern, Node), Refusal>
        requires { Nests self.now.depth (F.pre self.now.expr) (F.post self.now.expr) }
        ensures { Reads (λ c. (pattern_of c.0, node_of c.1))
            (spec.case (spec.expr_within self.now.depth) (left_of tokens.old))
            result (left_of tokens.new) }
    {
        let pattern = read_pattern(self.alloc, tokens)?;
        tokens.expect_sign(Symbol::Colon)?;
        let expr = self.inner(tokens, CHOICE)?;
        Ok((pattern, expr))
    }

    /// `',' pattern ':' expr`
    #[tactic(auto, unfolding(sg_ast::specs::ReadingNames::another))]
    fn another_case(&self, tokens: &mut Tokens<'_>) -> Result<(Pattern, Node), Refusal>
        requires { Nests self.now.depth (F.pre self.now.expr) (F.post self.now.expr) }
        ensures { Reads (λ c. (pattern_of c.0, node_of c.1))
            (names.another (spec.case (spec.expr_within self.now.depth)) (left_of tokens.old))
            result (left_of tokens.new) }
    {
        tokens.expect_sign(Symbol::Comma)?;
        self.case(tokens)
    }

    /// `{ ',' pattern ':' expr }`, after those that were found.
    fn cases(&self, tokens: &mut Tokens<'_>, mut found: CaseNodes) -> Result<CaseNodes, Refusal>
        requires { Nests self.now.depth (F.pre self.now.expr) (F.post self.now.expr) }
        ensures { Reads cases_in
            (many spec.sees_case (names.another (spec.case (spec.expr_within self.now.depth)))
            (cases_in found) (left_of tokens.old))
            result (left_of tokens.new) }
    {
        for _turn in 0..tokens.len() {
            if !tokens.sees_case() {
                return Ok(found);
            }
            let case = self.another_case(tokens)?;
            found = found.with(case)?;
        }
        Ok(found)
    }

    /// `[ ',' 'default' ':' expr ]`
    #[tactic(auto, unfolding(sg_ast::specs::ReadingExpressions::default_case))]
    fn default_case(&self, tokens: &mut Tokens<'_>) -> Result<Option<Node>, Refusal>
        requires { Nests self.now.depth (F.pre self.now.expr) (F.post self.now.expr) }
        ensures { Reads (option_map node_of)
            (spec.default_case (spec.expr_within self.now.depth) (left_of tokens.old))
            result (left_of tokens.new) }
    {
        if !tokens.sees_sign(Symbol::Comma) {
            return Ok(None);
        }
        tokens.expect_sign(Symbol::Comma)?;
        tokens.expect_reserved(Keyword::Default)?;
        tokens.expect_sign(Symbol::Colon)?;
        let expr = self.inner(tokens, CHOICE)?;
        Ok(Some(expr))
    }

    /// `',' expr`
    #[tactic(auto, unfolding(sg_ast::specs::ReadingNames::another))]
    fn another(&self, tokens: &mut Tokens<'_>) -> Result<Node, Refusal>
        requires { Nests self.now.depth (F.pre self.now.expr) (F.post self.now.expr) }
        ensures { Reads node_of
            (names.another (spec.expr_within self.now.depth choice_level) (left_of tokens.old))
            result (left_of tokens.new) }
    {
        tokens.expect_sign(Symbol::Comma)?;
        self.inner(tokens, CHOICE)
    }

    /// `{ ',' expr }`, after those that were found.
    fn others(&self, tokens: &mut Tokens<'_>, mut found: Nodes) -> Result<Nodes, Refusal>
        requires { Nests self.now.depth (F.pre self.now.expr) (F.post self.now.expr) }
        ensures { Reads nodes_of
            (many (sees (is_sign sign.Comma)) (names.another (spec.expr_within self.now.depth choice_level))
            (nodes_of found) (left_of tokens.old))
            result (left_of tokens.new) }
    {
        for _turn in 0..tokens.len() {
            if !tokens.sees_sign(Symbol::Comma) {
                return Ok(found);
            }
            let expr = self.another(tokens)?;
            found = found.with(expr)?;
        }
        Ok(found)
    }

    /// `expr { ',' expr }`
    #[tactic(auto, unfolding(sg_ast::specs::ReadingNames::separated))]
    fn separated(&self, tokens: &mut Tokens<'_>) -> Result<Nodes, Refusal>
        requires { Nests self.now.depth (F.pre self.now.expr) (F.post self.now.expr) }
        ensures { Reads nodes_of
            (names.separated (spec.expr_within self.now.depth choice_level) (left_of tokens.old))
            result (left_of tokens.new) }
    {
        let first = self.inner(tokens, CHOICE)?;
        let found = Nodes::new(self.alloc).with(first)?;
        self.others(tokens, found)
    }

    /// `[ expr { ',' expr } ] ')'`
    #[tactic(auto, unfolding(sg_ast::specs::ReadingNames::arguments))]
    fn arguments(&self, tokens: &mut Tokens<'_>) -> Result<Nodes, Refusal>
        requires { Nests self.now.depth (F.pre self.now.expr) (F.post self.now.expr) }
        ensures { Reads nodes_of
            (names.arguments (spec.expr_within self.now.depth choice_level) (left_of tokens.old))
            result (left_of tokens.new) }
    {
        if tokens.sees_sign(Symbol::RightParenthesis) {
            tokens.expect_sign(Symbol::RightParenthesis)?;
            return Ok(Nodes::new(self.alloc));
        }
        let found = self.separated(tokens)?;
        tokens.expect_sign(Symbol::RightParenthesis)?;
        Ok(found)
    }

    /// `{ ',' case } [ ',' 'default' ':' expr ]`
    #[tactic(auto, unfolding(crate::specs::WithParts::other_cases))]
    fn other_cases(&self, tokens: &mut Tokens<'_>) -> Result<CaseChain, Refusal>
        requires { Nests self.now.depth (F.pre self.now.expr) (F.post self.now.expr) }
        ensures { Reads (λ c. cases_of c.cases)
            (parts.other_cases (spec.expr_within self.now.depth) (left_of tokens.old))
            result (left_of tokens.new) }
    {
        let found = self.cases(tokens, CaseNodes::new(self.alloc))?;
        let default = self.default_case(tokens)?;
        Ok(chained(self.alloc, found, default)?)
    }

    /// `'with' '(' expr ')' '('`
    #[tactic(auto, unfolding(crate::specs::WithParts::with_head))]
    fn with_head(&self, tokens: &mut Tokens<'_>) -> Result<(Node, Position), Refusal>
        requires { Nests self.now.depth (F.pre self.now.expr) (F.post self.now.expr) }
        ensures { Reads (λ h. (node_of h.0, h.1))
            (parts.with_head (spec.expr_within self.now.depth) (left_of tokens.old))
            result (left_of tokens.new) }
    {
        let place = tokens.expect_reserved(Keyword::With)?;
        tokens.expect_sign(Symbol::LeftParenthesis)?;
        let scrutinee = self.inner(tokens, CHOICE)?;
        tokens.expect_sign(Symbol::RightParenthesis)?;
        tokens.expect_sign(Symbol::LeftParenthesis)?;
        Ok((scrutinee, place))
    }

    /// `case { ',' case } [ ',' 'default' ':' expr ] ')'`, after the head.
    #[tactic(auto, unfolding(crate::specs::WithParts::with_tail))]
    fn with_tail(
        &self,
        tokens: &mut Tokens<'_>,
        scrutinee: Node,
        place: Position,
    ) -> Result<Node, Refusal>
        requires { Nests self.now.depth (F.pre self.now.expr) (F.post self.now.expr) }
        ensures { Reads node_of
            (parts.with_tail (spec.expr_within self.now.depth) (node_of scrutinee) place (left_of tokens.old))
            result (left_of tokens.new) }
    {
        let first = self.case(tokens)?;
        let others = self.other_cases(tokens)?;
        tokens.expect_sign(Symbol::RightParenthesis)?;
        Ok(with_of(self.alloc, scrutinee, first, others, place)?)
    }

    /// `'with' '(' expr ')' '(' case { ',' case } [ ',' 'default' ':' expr ] ')'`
    #[tactic(auto, using(crate::proofs::WithLaws::with_parts))]
    fn with_cases(&self, tokens: &mut Tokens<'_>) -> Result<Node, Refusal>
        requires { Nests self.now.depth (F.pre self.now.expr) (F.post self.now.expr) }
        ensures { Reads node_of
            (spec.with_cases (spec.expr_within self.now.depth) (left_of tokens.old))
            result (left_of tokens.new) }
    {
        let (scrutinee, place) = self.with_head(tokens)?;
        self.with_tail(tokens, scrutinee, place)
    }

    /// A call, an attribute or a variable, after the name.
    #[tactic(auto, unfolding(sg_ast::specs::ReadingExpressions::named_expr))]
    fn named(&self, tokens: &mut Tokens<'_>, name: Name) -> Result<Node, Refusal>
        requires { Nests self.now.depth (F.pre self.now.expr) (F.post self.now.expr) }
        ensures { Reads node_of
            (spec.named_expr (spec.expr_within self.now.depth) name (left_of tokens.old))
            result (left_of tokens.new) }
    {
        if tokens.sees_sign(Symbol::LeftParenthesis) {
            tokens.expect_sign(Symbol::LeftParenthesis)?;
            let arguments = self.arguments(tokens)?;
            let depth = arguments.depth;
            let exprs = Exprs::new(self.alloc, arguments.exprs)?;
            let name = Box::new(self.alloc, name)?;
            return Ok(Node::above(depth, Expr::Call(name, exprs)));
        }
        if tokens.refers() {
            let reference = named_reference(self.alloc, tokens, name)?;
            return Ok(Node::leaf(Expr::Attribute(Box::new(self.alloc, reference)?)));
        }
        Ok(Node::leaf(Expr::Variable(name)))
    }

    /// What a prefix operator stands before.
    fn operand_of(
        &self,
        tokens: &mut Tokens<'_>,
        prefix: Prefix,
        place: Position,
    ) -> Result<Node, Refusal>
        requires { Nests self.now.depth (F.pre self.now.expr) (F.post self.now.expr) }
        ensures { Reads node_of
            (made (λ e. plain.Single prefix e place) (spec.expr_within self.now.depth prefix_level)
            (left_of tokens.old))
            result (left_of tokens.new) }
    {
        let inner = self.inner(tokens, PREFIX)?;
        let depth = inner.depth;
        let inner = Box::new(self.alloc, inner.expr)?;
        Ok(Node::above(depth, Expr::Prefix(prefix, inner, place)))
    }

    /// `'-'` or `'!'` and what it stands before.
    #[tactic(auto, unfolding(sg_ast::specs::ReadingExpressions::prefixed))]
    fn prefixed(&self, tokens: &mut Tokens<'_>, prefix: Prefix) -> Result<Node, Refusal>
        requires { Nests self.now.depth (F.pre self.now.expr) (F.post self.now.expr) }
        ensures { Reads node_of
            (spec.prefixed (spec.expr_within self.now.depth) prefix (left_of tokens.old))
            result (left_of tokens.new) }
    {
        match prefix {
            Prefix::Minus => {
                let place = tokens.expect_sign(Symbol::Minus)?;
                self.operand_of(tokens, Prefix::Minus, place)
            }
            Prefix::Not => {
                let place = tokens.expect_sign(Symbol::Bang)?;
                self.operand_of(tokens, Prefix::Not, place)
            }
        }
    }

    /// An operand that begins with a symbol.
    #[tactic(auto, unfolding(sg_ast::specs::ReadingExpressions::signed_expr))]
    fn signed(&self, tokens: &mut Tokens<'_>) -> Result<Node, Refusal>
        requires { Nests self.now.depth (F.pre self.now.expr) (F.post self.now.expr) }
        ensures { Reads node_of
            (spec.signed_expr (spec.expr_within self.now.depth) (left_of tokens.old))
            result (left_of tokens.new) }
    {
        if tokens.sees_sign(Symbol::LeftParenthesis) {
            return self.paren(tokens);
        }
        if tokens.sees_sign(Symbol::DollarDollar) {
            let reference = own_reference(self.alloc, tokens)?;
            return Ok(Node::leaf(Expr::Attribute(Box::new(self.alloc, reference)?)));
        }
        if tokens.sees_sign(Symbol::LeftBrace) {
            let remote = remote(self.alloc, tokens)?;
            return Ok(Node::leaf(Expr::Remote(Box::new(self.alloc, remote)?)));
        }
        if tokens.sees_sign(Symbol::Less) {
            placeholder(self.alloc, tokens)
        } else if tokens.sees_sign(Symbol::LeftBracket) {
            completing(self.alloc, tokens)
        } else if tokens.sees_sign(Symbol::Minus) {
            self.prefixed(tokens, Prefix::Minus)
        } else {
            self.prefixed(tokens, Prefix::Not)
        }
    }

    /// An operand that begins with a reserved word.
    #[tactic(auto, unfolding(sg_ast::specs::ReadingExpressions::reserved_expr))]
    fn reserved(&self, tokens: &mut Tokens<'_>) -> Result<Node, Refusal>
        requires { Nests self.now.depth (F.pre self.now.expr) (F.post self.now.expr) }
        ensures { Reads node_of
            (spec.reserved_expr (spec.expr_within self.now.depth) (left_of tokens.old))
            result (left_of tokens.new) }
    {
        if tokens.sees_reserved(Keyword::Let) {
            return self.let_in(tokens);
        }
        if tokens.sees_reserved(Keyword::With) {
            return self.with_cases(tokens);
        }
        let (truth, place) = truth(tokens)?;
        Ok(Node::leaf(Expr::Truth(truth, place)))
    }

    /// An atom, or a prefix operator and its operand.
    #[tactic(auto, unfolding(sg_ast::specs::ReadingExpressions::operand))]
    fn operand(&self, tokens: &mut Tokens<'_>) -> Result<Node, Refusal>
        requires { Nests self.now.depth (F.pre self.now.expr) (F.post self.now.expr) }
        ensures { Reads node_of
            (spec.operand (spec.expr_within self.now.depth) (left_of tokens.old))
            result (left_of tokens.new) }
    {
        if tokens.sees_name() {
            let name = tokens.name(self.alloc)?;
            return self.named(tokens, name);
        }
        if tokens.sees_number() {
            let (number, place) = tokens.number()?;
            return Ok(Node::leaf(Expr::Number(number, place)));
        }
        if tokens.sees_string() {
            let text = tokens.string(self.alloc)?;
            return Ok(Node::leaf(Expr::Text(text)));
        }
        if tokens.sees_word() {
            return self.reserved(tokens);
        }
        self.signed(tokens)
    }

    /// The node, where it is not too deep.
    #[tactic(auto, unfolding(sg_ast::specs::ReadingExpressions::shallow))]
    fn shallow(&self, node: Node) -> Result<Node, Refusal>
        requires { self.now.depth < 128 }
        ensures { (ms : List Mark) → Reads node_of (spec.shallow (self.now.depth + 1) (node_of node) ms) result ms }
    {
        if node.depth > self.depth + 1 {
            return Err(Refusal::NoReading);
        }
        Ok(node)
    }

    /// The right operand of an operator, and the tree of both operands.
    #[tactic(auto, unfolding(crate::specs::Joined::joined))]
    fn joined(&self, tokens: &mut Tokens<'_>, operator: Infix, left: Node) -> Result<Node, Refusal>
        requires nests { Nests self.now.depth (F.pre self.now.expr) (F.post self.now.expr) }
        requires small { self.now.depth < 128 }
        ensures { Reads node_of
            (joined (spec.expr_within self.now.depth) (self.now.depth + 1) operator (node_of left) (left_of tokens.old))
            result (left_of tokens.new) }
    {
        let right = self.inner(tokens, right_by(level(operator)))?;
        let whole = binary_of(self.alloc, operator, left, right)?;
        self.shallow(whole)
    }

    /// What follows an operand on the left, where operators have at least this level.
    fn climb(&self, tokens: &mut Tokens<'_>, least: u8, mut left: Node) -> Result<Node, Refusal>
        requires nests { Nests self.now.depth (F.pre self.now.expr) (F.post self.now.expr) }
        requires small { self.now.depth < 128 }
        ensures { Reads node_of
            (spec.climb (spec.expr_within self.now.depth) (self.now.depth + 1) (self.now.depth + 1) least atom_level
            (node_of left) (left_of tokens.old))
            result (left_of tokens.new) }
    {
        let mut most = ATOM;
        for _turn in 0..self.depth + 1 {
            let Some(operator) = tokens.next_infix(least, most) else {
                return Ok(left);
            };
            tokens.skip();
            left = self.joined(tokens, operator, left)?;
            let level = level(operator);
            most = next_by(level);
        }
        Err(Refusal::NoReading)
    }

    /// `[ '?' expr ':' expr ]`, where the least level lets it be.
    #[tactic(auto, unfolding(sg_ast::specs::ReadingExpressions::chosen))]
    fn chosen(&self, tokens: &mut Tokens<'_>, least: u8, condition: Node) -> Result<Node, Refusal>
        requires nests { Nests self.now.depth (F.pre self.now.expr) (F.post self.now.expr) }
        requires small { self.now.depth < 128 }
        ensures { Reads node_of
            (spec.chosen (spec.expr_within self.now.depth) (self.now.depth + 1) least (node_of condition)
            (left_of tokens.old))
            result (left_of tokens.new) }
    {
        if least <= CHOICE && tokens.sees_sign(Symbol::Question) {
            tokens.expect_sign(Symbol::Question)?;
            let yes = self.inner(tokens, CHOICE)?;
            tokens.expect_sign(Symbol::Colon)?;
            let no = self.inner(tokens, CHOICE)?;
            let whole = choice_of(self.alloc, condition, yes, no)?;
            return self.shallow(whole);
        }
        Ok(condition)
    }

    /// An expression of at least this level, whose parts are read by the parameter.
    #[tactic(auto, unfolding(sg_ast::specs::ReadingExpressions::expr_by))]
    fn expr(&self, tokens: &mut Tokens<'_>, least: u8) -> Result<Node, Refusal>
        requires nests { Nests self.now.depth (F.pre self.now.expr) (F.post self.now.expr) }
        requires small { self.now.depth < 128 }
        ensures { Reads node_of
            (spec.expr_by (spec.expr_within self.now.depth) (self.now.depth + 1) least (left_of tokens.old))
            result (left_of tokens.new) }
    {
        let first = self.operand(tokens)?;
        let left = self.climb(tokens, least, first)?;
        self.chosen(tokens, least, left)
    }
}

/// An expression of at least this level and at most so many nodes in depth.
fn expr_within(
    alloc: Global,
    tokens: &mut Tokens<'_>,
    depth: u8,
    least: u8,
) -> Result<Node, Refusal>
    requires { depth ≤ 128 }
    ensures { Reads node_of (spec.expr_within depth least (left_of tokens.old))
        result (left_of tokens.new) }
{
    if depth == 0 {
        return Err(Refusal::NoReading);
    }
    Grammar {
        alloc,
        depth: depth - 1,
        expr: expr_within,
    }
    .expr(tokens, least)
}

/// An expression.
pub fn read_expr(alloc: Global, tokens: &mut Tokens<'_>) -> Result<Expr, Refusal>
    ensures { Reads expr_of (spec.expr (left_of tokens.old)) result (left_of tokens.new) }
{
    let node = expr_within(alloc, tokens, EXPRESSION_DEPTH, CHOICE)?;
    Ok(node.expr)
}
