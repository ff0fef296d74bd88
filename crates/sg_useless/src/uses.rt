//! What the parts of a record use.
ghost use Rattle.std.specs.Prelude.{◌≡◌, ◌++◌, ℕ, flat_map, map, IfOk, OnOk};
ghost use Rattle.sg_kinds.specs.declared.spec.Attr.{Attr};
ghost use Rattle.sg_kinds.specs.declared.spec.Local.{Local};
ghost use Rattle.sg_useless.specs.Reach.{flag as stands};
ghost use Rattle.sg_useless.specs.Uses as meaning;

use crate::exprs::add_named;
use crate::part::Part;
use crate::reach::flag;
use crate::schemes::{add_all_schemes, add_occurring};
use sg_kinds::ids::{ExprId, PhylumId};
use sg_kinds::marks::Shape;
use sg_kinds::memory::NoMemory;
use sg_kinds::spec::{
    Attr, Entry, Function, Local, Occurrence, Operator, Phylum, Rule, Spec, Symbol,
};
use std::alloc::Global;

// The lexeme phylum of blanks, which is not used by name.
const WHITESPACE: &[u8] = b"WHITESPACE";

// Puts what an expression of the spec uses last.
fn add_named_at(
    spec: &Spec,
    own: Option<usize>,
    e: ExprId,
    uses: &mut Vec<Part>,
) -> Result<(), NoMemory>
    ensures { OnOk result (uses.new.items ≡ uses.old.items ++ meaning.named_at spec.now own e) }
{
    match spec.exprs.place(e.number) {
        Some(expr) => add_named(spec.ops.as_slice(), own, &expr.tree, uses),
        None => Ok(()),
    }
}

// Puts the attributes and locals of an operator last that these occurrences are.
fn add_occurrences(
    spec: &Spec,
    op: usize,
    args: &[Occurrence],
    uses: &mut Vec<Part>,
) -> Result<(), NoMemory>
    ensures { OnOk result (uses.new.items ≡ uses.old.items ++ flat_map (meaning.occurring spec.now op) args.now) }
{
    for o in args {
        add_occurring(spec, op, *o, uses)?;
    }
    Ok(())
}

fn add_rule(spec: &Spec, rule: &Rule, uses: &mut Vec<Part>) -> Result<(), NoMemory>
    ensures { OnOk result (uses.new.items ≡ uses.old.items ++ meaning.rule_uses spec.now rule.now) }
{
    add_named_at(spec, None, rule.expr, uses)?;
    add_occurrences(spec, rule.op.number as usize, rule.args.as_slice(), uses)
}

// Puts what the equations use last.
fn add_rules(spec: &Spec, uses: &mut Vec<Part>) -> Result<(), NoMemory>
    ensures { OnOk result (uses.new.items ≡ uses.old.items ++ flat_map (meaning.rule_uses spec.now) spec.now.rules) }
{
    for rule in spec.rules.as_slice() {
        add_rule(spec, rule, uses)?;
    }
    Ok(())
}

fn add_phyla(of: &[PhylumId], uses: &mut Vec<Part>) -> Result<(), NoMemory>
    ensures { OnOk result (uses.new.items ≡ uses.old.items ++ map Part.Phylum of.now) }
{
    for p in of {
        uses.push(Part::Phylum(p.number as usize))?;
    }
    Ok(())
}

fn add_function(
    spec: &Spec,
    number: usize,
    function: &Function,
    uses: &mut Vec<Part>,
) -> Result<(), NoMemory>
    ensures { OnOk result (uses.new.items ≡ uses.old.items ++ meaning.function_uses spec.now number function.now) }
{
    add_named_at(spec, Some(number), function.body, uses)?;
    uses.push(Part::Phylum(function.result.number as usize))?;
    add_phyla(function.params.as_slice(), uses)
}

// Puts what the functions use last.
fn add_functions(spec: &Spec, uses: &mut Vec<Part>) -> Result<(), NoMemory>
    ensures { OnOk result (uses.new.items ≡ uses.old.items ++ meaning.numbered (meaning.function_uses spec.now) 0 spec.now.functions) }
{
    for (number, function) in spec.functions.as_slice().iter().enumerate() {
        add_function(spec, number, function, uses)?;
    }
    Ok(())
}

// Puts what the transformations use last.
fn add_transforms(spec: &Spec, uses: &mut Vec<Part>) -> Result<(), NoMemory>
    ensures { OnOk result (uses.new.items ≡ uses.old.items ++ flat_map (meaning.transform_uses spec.now) spec.now.transforms) }
{
    for transform in spec.transforms.as_slice() {
        add_named_at(spec, None, transform.expr, uses)?;
    }
    Ok(())
}

// Puts the lexeme phyla last that stand in a right side.
fn add_symbols(symbols: &[Symbol], uses: &mut Vec<Part>) -> Result<(), NoMemory>
    ensures { OnOk result (uses.new.items ≡ uses.old.items ++ flat_map meaning.symbol_uses symbols.now) }
{
    for symbol in symbols {
        if let Symbol::Lexical(p) = symbol {
            uses.push(Part::Phylum(p.number as usize))?;
        }
    }
    Ok(())
}

// Puts what the input productions use last.
fn add_productions(spec: &Spec, uses: &mut Vec<Part>) -> Result<(), NoMemory>
    ensures { OnOk result (uses.new.items ≡ uses.old.items ++ flat_map (meaning.production_uses spec.now) spec.now.productions) }
{
    for production in spec.productions.as_slice() {
        add_named_at(spec, None, production.expr, uses)?;
        add_symbols(production.right.as_slice(), uses)?;
    }
    Ok(())
}

// Puts what all that has an expression uses last.
#[tactic(auto, unfolding(crate::specs::Uses::expression_uses))]
fn add_expressions(spec: &Spec, uses: &mut Vec<Part>) -> Result<(), NoMemory>
    ensures { OnOk result (uses.new.items ≡ uses.old.items ++ meaning.expression_uses spec.now) }
{
    add_rules(spec, uses)?;
    add_functions(spec, uses)?;
    add_transforms(spec, uses)?;
    add_productions(spec, uses)
}

// Puts a phylum last, unless it is the one that names it.
fn add_other(own: usize, p: PhylumId, uses: &mut Vec<Part>) -> Result<(), NoMemory>
    ensures { OnOk result (uses.new.items ≡ uses.old.items ++ meaning.other own p) }
{
    let p = p.number as usize;
    if p != own {
        uses.push(Part::Phylum(p))?;
    }
    Ok(())
}

fn add_args(own: usize, args: &[PhylumId], uses: &mut Vec<Part>) -> Result<(), NoMemory>
    ensures { OnOk result (uses.new.items ≡ uses.old.items ++ flat_map (meaning.other own) args.now) }
{
    for p in args {
        add_other(own, *p, uses)?;
    }
    Ok(())
}

fn add_locals(own: usize, locals: &[Local], uses: &mut Vec<Part>) -> Result<(), NoMemory>
    ensures { OnOk result (uses.new.items ≡ uses.old.items ++ flat_map (λ (l : Local). meaning.other own l.of) locals.now) }
{
    for local in locals {
        add_other(own, local.of, uses)?;
    }
    Ok(())
}

fn add_attrs(own: usize, attrs: &[Attr], uses: &mut Vec<Part>) -> Result<(), NoMemory>
    ensures { OnOk result (uses.new.items ≡ uses.old.items ++ flat_map (λ (a : Attr). meaning.other own a.of) attrs.now) }
{
    for attr in attrs {
        add_other(own, attr.of, uses)?;
    }
    Ok(())
}

// Puts what an operator uses last; the flags are those of the phyla that stand in a document.
fn add_operator(
    spec: &Spec,
    shown: &[bool],
    op: usize,
    operator: &Operator,
    uses: &mut Vec<Part>,
) -> Result<(), NoMemory>
    ensures { OnOk result (uses.new.items ≡ uses.old.items ++ meaning.operator_uses spec.now (stands shown.now) op operator.now) }
{
    let own = operator.phylum.number as usize;
    add_args(own, operator.args.as_slice(), uses)?;
    add_locals(own, operator.locals.as_slice(), uses)?;
    add_all_schemes(spec, op, operator, flag(shown, own), uses)
}

// Puts what the operators use last.
fn add_operators(spec: &Spec, shown: &[bool], uses: &mut Vec<Part>) -> Result<(), NoMemory>
    ensures { OnOk result (uses.new.items ≡ uses.old.items ++ meaning.numbered (meaning.operator_uses spec.now (stands shown.now)) 0 spec.now.ops) }
{
    for (op, operator) in spec.ops.as_slice().iter().enumerate() {
        add_operator(spec, shown, op, operator, uses)?;
    }
    Ok(())
}

fn is_whitespace(phylum: &Phylum) -> bool
    ensures { result ≡ meaning.is_whitespace phylum.now }
{
    matches!(phylum.shape, Shape::Lexemes(_)) && phylum.name.as_slice() == WHITESPACE
}

fn add_phylum(number: usize, phylum: &Phylum, uses: &mut Vec<Part>) -> Result<(), NoMemory>
    ensures { OnOk result (uses.new.items ≡ uses.old.items ++ meaning.phylum_uses number phylum.now) }
{
    if is_whitespace(phylum) {
        uses.push(Part::Phylum(number))?;
    }
    add_attrs(number, phylum.attrs.as_slice(), uses)
}

// Puts what the phyla use last.
fn add_all_phyla(phyla: &[Phylum], uses: &mut Vec<Part>) -> Result<(), NoMemory>
    ensures { OnOk result (uses.new.items ≡ uses.old.items ++ meaning.numbered meaning.phylum_uses 0 phyla.now) }
{
    for (number, phylum) in phyla.iter().enumerate() {
        add_phylum(number, phylum, uses)?;
    }
    Ok(())
}

fn add_entries(entries: &[Entry], uses: &mut Vec<Part>) -> Result<(), NoMemory>
    ensures { OnOk result (uses.new.items ≡ uses.old.items ++ flat_map meaning.entry_uses entries.now) }
{
    for entry in entries {
        uses.push(Part::Phylum(entry.phylum.number as usize))?;
    }
    Ok(())
}

// The same of the operators, where the flags are right.
fn add_shown_operators(spec: &Spec, shown: &[bool], uses: &mut Vec<Part>) -> Result<(), NoMemory>
    requires { (p : ℕ) → stands shown.now p ≡ meaning.is_shown spec.now p }
    ensures { OnOk result (uses.new.items ≡ uses.old.items ++ meaning.all_operator_uses spec.now) }
{
    add_operators(spec, shown, uses)?;
    Ok(())
}

// Puts what has no expression uses last.
fn add_kinds(spec: &Spec, shown: &[bool], uses: &mut Vec<Part>) -> Result<(), NoMemory>
    requires { (p : ℕ) → stands shown.now p ≡ meaning.is_shown spec.now p }
    ensures { OnOk result (uses.new.items ≡ uses.old.items ++ (meaning.all_operator_uses spec.now
        ++ (meaning.numbered meaning.phylum_uses 0 spec.now.phyla ++ flat_map meaning.entry_uses spec.now.entries))) }
{
    add_shown_operators(spec, shown, uses)?;
    add_all_phyla(spec.phyla.as_slice(), uses)?;
    add_entries(spec.entries.as_slice(), uses)
}

// What is used without being named: the phylum of the root, and an entry for it.
fn root_uses(alloc: Global, spec: &Spec) -> Result<Vec<Part>, NoMemory>
    ensures { IfOk result (λ v. v.items ≡ meaning.root_uses spec.now) }
{
    let root = spec.root.number as usize;
    let mut uses = Vec::new(alloc);
    uses.push(Part::Phylum(root))?;
    uses.push(Part::Entry(root))?;
    Ok(uses)
}

/// All that is used, given the flags of the phyla that stand in a document.
pub fn uses(alloc: Global, spec: &Spec, shown: &[bool]) -> Result<Vec<Part>, NoMemory>
    requires { (p : ℕ) → stands shown.now p ≡ meaning.is_shown spec.now p }
    ensures { IfOk result (λ v. v.items ≡ meaning.uses_of spec.now) }
{
    let mut uses = root_uses(alloc, spec)?;
    add_expressions(spec, &mut uses)?;
    add_kinds(spec, shown, &mut uses)?;
    Ok(uses)
}
