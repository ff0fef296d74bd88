//! Declarations.
ghost use Rattle.std.specs.Prelude.{map};
ghost use Rattle.sg_text.specs.declared.symbols.Symbol.TheVariants as sign;
ghost use Rattle.sg_ast.specs.Readers.{is_sign, sees, many};
ghost use Rattle.sg_ast.specs.Reading as spec;
ghost use Rattle.sg_ast.specs.View.{equation_of, right_of, tree_of};
ghost use Rattle.sg_cursor.specs.Left.{left_of, Reads};

use sg_ast::decl::{Decl, Equation, Right};
use sg_ast::name::Name;
use sg_clauses::attributes::attributes;
use sg_clauses::operators::operators;
use sg_clauses::parts::parts;
use sg_clauses::precedence::precedence;
use sg_clauses::schemes::schemes;
use sg_clauses::single::{entry, lexeme, listed, optional, root};
use sg_clauses::typed::{locals, params};
use sg_cursor::{Refusal, Tokens, target};
use sg_expressions::read_expr;
use sg_kinds::row::Row;
use sg_term_patterns::read_pattern;
use sg_text::{Keyword, Symbol};
use std::alloc::Global;

/// `target '=' expr ';'`
#[tactic(auto, unfolding(sg_ast::specs::Reading::equation))]
fn equation(alloc: Global, tokens: &mut Tokens<'_>) -> Result<Equation, Refusal>
    ensures { Reads equation_of (spec.equation (left_of tokens.old)) result (left_of tokens.new) }
{
    let target = target(alloc, tokens)?;
    tokens.expect_sign(Symbol::Equals)?;
    let expr = read_expr(alloc, tokens)?;
    tokens.expect_sign(Symbol::Semicolon)?;
    Ok(Equation { target, expr })
}

/// `{ equation }`, after those that were found.
fn equations_behind(
    alloc: Global,
    tokens: &mut Tokens<'_>,
    mut found: Vec<Equation>,
) -> Result<Vec<Equation>, Refusal>
    ensures { Reads (λ v. map equation_of v.items)
        (many (spec.sees_other (is_sign sign.RightBrace)) spec.equation (map equation_of found.items)
        (left_of tokens.old))
        result (left_of tokens.new) }
{
    for _turn in 0..tokens.len() {
        if !tokens.sees_other(Symbol::RightBrace) {
            return Ok(found);
        }
        found.push(equation(alloc, tokens)?)?;
    }
    Ok(found)
}

/// `'{' { local } { equation } '}' ';'`, after `name ':' name`.
#[tactic(auto, unfolding(sg_ast::specs::Reading::equations))]
fn equations(
    alloc: Global,
    tokens: &mut Tokens<'_>,
    phylum: Name,
    op: Name,
) -> Result<Decl, Refusal>
    ensures { Reads tree_of (spec.equations phylum op (left_of tokens.old)) result (left_of tokens.new) }
{
    tokens.expect_sign(Symbol::LeftBrace)?;
    let locals = locals(alloc, tokens)?;
    let equations = equations_behind(alloc, tokens, Vec::new(alloc))?;
    tokens.expect_sign(Symbol::RightBrace)?;
    tokens.expect_sign(Symbol::Semicolon)?;
    Ok(Decl::Equations(phylum, op, Row::new(locals), equations))
}

/// A function, after the name of its type.
#[tactic(auto, unfolding(sg_ast::specs::Reading::function))]
fn function(alloc: Global, tokens: &mut Tokens<'_>, of: Name) -> Result<Decl, Refusal>
    ensures { Reads tree_of (spec.function of (left_of tokens.old)) result (left_of tokens.new) }
{
    let name = tokens.name(alloc)?;
    tokens.expect_sign(Symbol::LeftParenthesis)?;
    let params = params(alloc, tokens)?;
    tokens.expect_sign(Symbol::LeftBrace)?;
    let body = read_expr(alloc, tokens)?;
    tokens.expect_sign(Symbol::RightBrace)?;
    tokens.expect_sign(Symbol::Semicolon)?;
    Ok(Decl::Function(of, name, Row::new(params), body))
}

/// A transformation.
#[tactic(auto, unfolding(sg_ast::specs::Reading::transform))]
fn transform(alloc: Global, tokens: &mut Tokens<'_>) -> Result<Decl, Refusal>
    ensures { Reads tree_of (spec.transform (left_of tokens.old)) result (left_of tokens.new) }
{
    tokens.expect_reserved(Keyword::Transform)?;
    let phylum = tokens.name(alloc)?;
    tokens.expect_reserved(Keyword::On)?;
    let title = tokens.string(alloc)?;
    let pattern = read_pattern(alloc, tokens)?;
    tokens.expect_sign(Symbol::Colon)?;
    let expr = read_expr(alloc, tokens)?;
    tokens.expect_sign(Symbol::Semicolon)?;
    Ok(Decl::Transform(phylum, title, pattern, expr))
}

/// `'(' { name | quoted } ')' '{' expr '}'`
#[tactic(auto, unfolding(sg_ast::specs::Reading::right))]
fn right(alloc: Global, tokens: &mut Tokens<'_>) -> Result<Right, Refusal>
    ensures { Reads right_of (spec.right (left_of tokens.old)) result (left_of tokens.new) }
{
    let place = tokens.expect_sign(Symbol::LeftParenthesis)?;
    let parts = parts(alloc, tokens)?;
    tokens.expect_sign(Symbol::RightParenthesis)?;
    tokens.expect_sign(Symbol::LeftBrace)?;
    let expr = read_expr(alloc, tokens)?;
    tokens.expect_sign(Symbol::RightBrace)?;
    Ok(Right {
        place,
        parts: Row::new(parts),
        expr,
    })
}

/// `'|'` and a right side.
#[tactic(auto, unfolding(sg_ast::specs::Reading::other))]
fn other_right(alloc: Global, tokens: &mut Tokens<'_>) -> Result<Right, Refusal>
    ensures { Reads right_of (spec.other spec.right (left_of tokens.old)) result (left_of tokens.new) }
{
    tokens.expect_sign(Symbol::Bar)?;
    right(alloc, tokens)
}

/// `{ '|' right }`, after those that were found.
fn rights(
    alloc: Global,
    tokens: &mut Tokens<'_>,
    mut found: Vec<Right>,
) -> Result<Vec<Right>, Refusal>
    ensures { Reads (λ v. map right_of v.items)
        (many (sees (is_sign sign.Bar)) (spec.other spec.right) (map right_of found.items) (left_of tokens.old))
        result (left_of tokens.new) }
{
    for _turn in 0..tokens.len() {
        if !tokens.sees_sign(Symbol::Bar) {
            return Ok(found);
        }
        found.push(other_right(alloc, tokens)?)?;
    }
    Ok(found)
}

/// `'::=' right { '|' right } ';'`, after the name.
#[tactic(auto, unfolding(sg_ast::specs::Reading::productions))]
fn productions(alloc: Global, tokens: &mut Tokens<'_>, of: Name) -> Result<Decl, Refusal>
    ensures { Reads tree_of (spec.productions of (left_of tokens.old)) result (left_of tokens.new) }
{
    tokens.expect_sign(Symbol::ColonColonEquals)?;
    let mut found = Vec::new(alloc);
    found.push(right(alloc, tokens)?)?;
    let found = rights(alloc, tokens, found)?;
    tokens.expect_sign(Symbol::Semicolon)?;
    Ok(Decl::Productions(of, found))
}

/// A declaration that begins with `name ':' name`, after both.
#[tactic(auto, unfolding(sg_ast::specs::Reading::of_operator))]
fn of_operator(
    alloc: Global,
    tokens: &mut Tokens<'_>,
    phylum: Name,
    op: Name,
) -> Result<Decl, Refusal>
    ensures { Reads tree_of (spec.of_operator phylum op (left_of tokens.old)) result (left_of tokens.new) }
{
    if tokens.sees_sign(Symbol::LeftParenthesis) {
        operators(alloc, tokens, phylum, op)
    } else if tokens.sees_sign(Symbol::LeftBrace) {
        equations(alloc, tokens, phylum, op)
    } else {
        schemes(alloc, tokens, phylum, op)
    }
}

/// A declaration that begins with `name ':'`, after both.
#[tactic(auto, unfolding(sg_ast::specs::Reading::of_colon))]
fn of_colon(alloc: Global, tokens: &mut Tokens<'_>, phylum: Name) -> Result<Decl, Refusal>
    ensures { Reads tree_of (spec.of_colon phylum (left_of tokens.old)) result (left_of tokens.new) }
{
    if tokens.sees_sign(Symbol::Less) {
        return lexeme(alloc, tokens, phylum);
    }
    let op = tokens.name(alloc)?;
    of_operator(alloc, tokens, phylum, op)
}

/// A declaration that begins with `name ':'`, after the name.
#[tactic(auto, unfolding(sg_ast::specs::Reading::of_phylum))]
fn of_phylum(alloc: Global, tokens: &mut Tokens<'_>, phylum: Name) -> Result<Decl, Refusal>
    ensures { Reads tree_of (spec.of_phylum phylum (left_of tokens.old)) result (left_of tokens.new) }
{
    tokens.expect_sign(Symbol::Colon)?;
    of_colon(alloc, tokens, phylum)
}

/// A declaration that begins with a name, after it.
#[tactic(auto, unfolding(sg_ast::specs::Reading::of_name))]
fn of_name(alloc: Global, tokens: &mut Tokens<'_>, name: Name) -> Result<Decl, Refusal>
    ensures { Reads tree_of (spec.of_name name (left_of tokens.old)) result (left_of tokens.new) }
{
    if tokens.sees_sign(Symbol::Colon) {
        of_phylum(alloc, tokens, name)
    } else if tokens.sees_sign(Symbol::LeftBrace) {
        attributes(alloc, tokens, name)
    } else if tokens.sees_sign(Symbol::ColonColonEquals) {
        productions(alloc, tokens, name)
    } else if tokens.sees_sign(Symbol::Tilde) {
        entry(alloc, tokens, name)
    } else if tokens.sees_quoted() {
        precedence(alloc, tokens, name)
    } else {
        function(alloc, tokens, name)
    }
}

/// A declaration, read from the front of tokens: its tree, and behind it the tokens that are left. Where it cannot be
/// read on, the tokens that are left begin where reading stopped.
#[tactic(auto, unfolding(sg_ast::specs::Reading::declaration))]
pub fn declaration(alloc: Global, tokens: &mut Tokens<'_>) -> Result<Decl, Refusal>
    ensures { Reads tree_of (spec.declaration (left_of tokens.old)) result (left_of tokens.new) }
{
    if tokens.sees_name() {
        let name = tokens.name(alloc)?;
        return of_name(alloc, tokens, name);
    }
    if tokens.sees_reserved(Keyword::Root) {
        root(alloc, tokens)
    } else if tokens.sees_reserved(Keyword::List) {
        listed(alloc, tokens)
    } else if tokens.sees_reserved(Keyword::Optional) {
        optional(alloc, tokens)
    } else {
        transform(alloc, tokens)
    }
}
