//! What of a record nothing uses, and what its texts miss.
ghost use Rattle.std.specs.Prelude.{◌≡◌, ◌≤◌, ◌++◌, ◌^◌, ℕ, map, flat_map, IfOk, OnOk};
ghost use Rattle.sg_kinds.specs.Instances.{below};
ghost use Rattle.sg_kinds.specs.declared.spec.Entry.{Entry};
ghost use Rattle.sg_useless.specs.Reach.{flag as stands};
ghost use Rattle.sg_useless.specs.Uses.{argument_step, argument_steps as steps_of_arguments, is_shown, numbered, uses_of};
ghost use Rattle.sg_useless.specs.Useless as meaning;

use crate::keys::{Used, unused};
use crate::listing::{is_leaf, parts};
use crate::part::Part;
use crate::reach::{Step, flag, reached};
use crate::schemes::schemes_in;
use crate::uses::uses;
use sg_kinds::ids::{OpId, PhylumId};
use sg_kinds::memory::NoMemory;
use sg_kinds::spec::{Entry, Operator, Phylum, Production, Scheme, Spec, Symbol};
use sg_kinds::text::Text;
use std::alloc::Global;

fn add_argument_steps(own: usize, args: &[PhylumId], steps: &mut Vec<Step>) -> Result<(), NoMemory>
    ensures { OnOk result (steps.new.items ≡ steps.old.items ++ map (argument_step own) args.now) }
{
    for p in args {
        steps.push(Step {
            from: own,
            to: p.number as usize,
        })?;
    }
    Ok(())
}

fn argument_steps(alloc: Global, spec: &Spec) -> Result<Vec<Step>, NoMemory>
    ensures { IfOk result (λ v. v.items ≡ steps_of_arguments spec.now) }
{
    let mut steps = Vec::new(alloc);
    for operator in spec.ops.as_slice() {
        let own = operator.phylum.number as usize;
        add_argument_steps(own, operator.args.as_slice(), &mut steps)?;
    }
    Ok(steps)
}

// The flags of the phyla that stand in a document.
fn shown(alloc: Global, spec: &Spec) -> Result<Vec<bool>, NoMemory>
    ensures { IfOk result (λ v. (p : ℕ) → stands v.items p ≡ is_shown spec.now p) }
{
    let steps = argument_steps(alloc, spec)?;
    let root = spec.root.number as usize;
    reached(alloc, spec.phyla.len(), &[root], &steps)
}

fn add_production_steps(production: &Production, steps: &mut Vec<Step>) -> Result<(), NoMemory>
    ensures { OnOk result (steps.new.items ≡ steps.old.items ++ meaning.production_steps production.now) }
{
    let own = production.left as usize;
    for symbol in production.right.as_slice() {
        if let Symbol::Nonterminal(to) = symbol {
            steps.push(Step {
                from: own,
                to: *to as usize,
            })?;
        }
    }
    Ok(())
}

fn production_steps(alloc: Global, productions: &[Production]) -> Result<Vec<Step>, NoMemory>
    ensures { IfOk result (λ v. v.items ≡ flat_map meaning.production_steps productions.now) }
{
    let mut steps = Vec::new(alloc);
    for production in productions {
        add_production_steps(production, &mut steps)?;
    }
    Ok(steps)
}

// One more than the greatest left side.
fn nonterminals(spec: &Spec) -> usize
    ensures count { result ≡ meaning.nonterminals spec.now.productions }
    ensures few { result ≤ 2 ^ 32 }
{
    let mut most = 0usize;
    for production in spec.productions.as_slice() {
        most = most.max(production.left as usize + 1);
    }
    most
}

fn starts(alloc: Global, entries: &[Entry]) -> Result<Vec<usize>, NoMemory>
    ensures { IfOk result (λ v. v.items ≡ map (λ (e : Entry). e.nonterminal) entries.now) }
{
    let mut starts = Vec::new(alloc);
    for entry in entries {
        starts.push(entry.nonterminal as usize)?;
    }
    Ok(starts)
}

// The flags of the nonterminals to which an entry leads.
fn entered(alloc: Global, spec: &Spec) -> Result<Vec<bool>, NoMemory>
    ensures { IfOk result (λ v. (n : ℕ) → stands v.items n ≡ meaning.is_entered spec.now n) }
{
    let starts = starts(alloc, spec.entries.as_slice())?;
    let steps = production_steps(alloc, spec.productions.as_slice())?;
    reached(alloc, nonterminals(spec), &starts, &steps)
}

// Puts the nonterminals last that have no flag.
#[tactic(auto, using(crate::proofs::Numbers::flat_more))]
fn add_unentered(entered: &[bool], count: usize, parts: &mut Vec<Part>) -> Result<(), NoMemory>
    ensures { OnOk result (parts.new.items ≡ parts.old.items ++ flat_map (meaning.unentered_parts (stands entered.now)) (below count)) }
{
    for n in 0..count {
        if !flag(entered, n) {
            parts.push(Part::Nonterminal(n))?;
        }
    }
    Ok(())
}

fn is_some_scheme(schemes: &[Scheme]) -> bool
    ensures { result ≡ meaning.is_some_scheme schemes.now }
{
    match schemes {
        [] => false,
        [_, ..] => true,
    }
}

// Puts the nonterminals last to which no entry leads.
fn add_all_unentered(alloc: Global, spec: &Spec, parts: &mut Vec<Part>) -> Result<(), NoMemory>
    ensures { OnOk result (parts.new.items ≡ parts.old.items ++ meaning.unentered spec.now) }
{
    let entered = entered(alloc, spec)?;
    add_unentered(&entered, nonterminals(spec), parts)?;
    Ok(())
}

fn has_view_schemes(spec: &Spec, op: usize) -> bool
    ensures { result ≡ meaning.has_view_schemes spec.now op }
{
    for row in spec.views.rows.as_slice() {
        if is_some_scheme(schemes_in(row, op)) {
            return true;
        }
    }
    false
}

fn has_schemes(spec: &Spec, op: usize, operator: &Operator) -> bool
    ensures { result ≡ meaning.has_schemes spec.now op operator.now }
{
    is_some_scheme(operator.schemes.as_slice()) || has_view_schemes(spec, op)
}

// Puts the schemes of the operators last that stand in no document.
fn add_unseen(spec: &Spec, shown: &[bool], parts: &mut Vec<Part>) -> Result<(), NoMemory>
    ensures { OnOk result (parts.new.items ≡ parts.old.items ++ numbered (meaning.unseen_parts spec.now (stands shown.now)) 0 spec.now.ops) }
{
    for (op, operator) in spec.ops.as_slice().iter().enumerate() {
        if has_schemes(spec, op, operator) && !flag(shown, operator.phylum.number as usize) {
            parts.push(Part::Schemes(op))?;
        }
    }
    Ok(())
}

// The same, where the flags are right.
fn add_all_unseen(spec: &Spec, shown: &[bool], parts: &mut Vec<Part>) -> Result<(), NoMemory>
    requires { (p : ℕ) → stands shown.now p ≡ is_shown spec.now p }
    ensures { OnOk result (parts.new.items ≡ parts.old.items ++ meaning.unseen spec.now) }
{
    add_unseen(spec, shown, parts)?;
    Ok(())
}

fn is_typed_in(is_root: bool, schemes: &[Scheme]) -> bool
    ensures { result ≡ meaning.is_typed_in is_root schemes.now }
{
    schemes
        .iter()
        .any(|scheme| scheme.editable && (scheme.rests || is_root))
}

fn is_typed_ordinarily(spec: &Spec, is_root: bool, op: OpId) -> bool
    ensures { result ≡ meaning.is_typed_ordinarily spec.now is_root op }
{
    match spec.ops.place(op.number) {
        Some(operator) => is_typed_in(is_root, operator.schemes.as_slice()),
        None => false,
    }
}

fn is_typed_in_views(spec: &Spec, is_root: bool, op: usize) -> bool
    ensures { result ≡ meaning.is_typed_in_views spec.now is_root op }
{
    for row in spec.views.rows.as_slice() {
        if is_typed_in(is_root, schemes_in(row, op)) {
            return true;
        }
    }
    false
}

fn is_typed_operator(spec: &Spec, is_root: bool, op: OpId) -> bool
    ensures { result ≡ meaning.is_typed_operator spec.now is_root op }
{
    is_typed_ordinarily(spec, is_root, op) || is_typed_in_views(spec, is_root, op.number as usize)
}

#[tactic(auto, unfolding(crate::specs::Useless::is_typed_by_any))]
fn is_typed_by_any(spec: &Spec, is_root: bool, ops: &[OpId]) -> bool
    ensures { result ≡ meaning.is_typed_by_any spec.now is_root ops.now }
{
    for op in ops {
        if is_typed_operator(spec, is_root, *op) {
            return true;
        }
    }
    false
}

// Whether a selected node of a phylum is edited as text.
fn is_typed_phylum(spec: &Spec, p: usize, phylum: &Phylum) -> bool
    ensures { result ≡ meaning.is_typed_phylum spec.now p phylum.now }
{
    let is_root = p == spec.root.number as usize;
    is_leaf(phylum.shape) || is_typed_by_any(spec, is_root, phylum.ops.as_slice())
}

fn has_entry(spec: &Spec, p: usize) -> bool
    ensures { result ≡ meaning.has_entry spec.now p }
{
    spec.entries
        .as_slice()
        .iter()
        .any(|entry| entry.phylum.number as usize == p)
}

fn lacks_entry(spec: &Spec, used: &Used<'_>, p: usize, phylum: &Phylum) -> bool
    ensures { result ≡ meaning.lacks_entry spec.now used.now.parts.now p phylum.now }
{
    is_typed_phylum(spec, p, phylum) && (used.has(Part::Entry(p)) && !has_entry(spec, p))
}

// Puts the entries last that are missed.
fn add_missed(spec: &Spec, used: &Used<'_>, parts: &mut Vec<Part>) -> Result<(), NoMemory>
    ensures { OnOk result (parts.new.items ≡ parts.old.items
        ++ numbered (meaning.entry_parts spec.now used.now.parts.now) 0 spec.now.phyla) }
{
    for (p, phylum) in spec.phyla.as_slice().iter().enumerate() {
        if lacks_entry(spec, used, p, phylum) {
            parts.push(Part::Entry(p))?;
        }
    }
    Ok(())
}

// Whether a production has a literal between two times its own nonterminal.
fn stands_between(literal: &[u8], production: &Production) -> bool
    ensures { result ≡ meaning.stands_between literal.now production.now }
{
    match production.right.as_slice() {
        [
            Symbol::Nonterminal(a),
            Symbol::Quoted(text),
            Symbol::Nonterminal(b),
        ] => production.left == *a && production.left == *b && text.as_slice() == literal,
        _ => false,
    }
}

fn groups(productions: &[Production], literal: &[u8]) -> bool
    ensures { result ≡ meaning.groups productions.now literal.now }
{
    productions
        .iter()
        .any(|production| stands_between(literal, production))
}

fn add_line(
    productions: &[Production],
    line: usize,
    literals: &[Text],
    parts: &mut Vec<Part>,
) -> Result<(), NoMemory>
    ensures { OnOk result (parts.new.items ≡ parts.old.items ++ numbered (meaning.literal_parts productions.now line) 0 literals.now) }
{
    for (k, literal) in literals.iter().enumerate() {
        if !groups(productions, literal.as_slice()) {
            parts.push(Part::Literal(line, k))?;
        }
    }
    Ok(())
}

// Puts the literals of precedence lines last that no production has between two times its own nonterminal.
fn add_lines(spec: &Spec, parts: &mut Vec<Part>) -> Result<(), NoMemory>
    ensures { OnOk result (parts.new.items ≡ parts.old.items
        ++ numbered (meaning.line_parts spec.now.productions) 0 spec.now.levels) }
{
    for (line, level) in spec.levels.as_slice().iter().enumerate() {
        add_line(
            spec.productions.as_slice(),
            line,
            level.literals.as_slice(),
            parts,
        )?;
    }
    Ok(())
}

// What nothing uses of what others may use, and the entries that are missed.
fn useless_parts(
    alloc: Global,
    spec: &Spec,
    shown: &[bool],
) -> Result<(Vec<Part>, Vec<Part>), NoMemory>
    requires { (p : ℕ) → stands shown.now p ≡ is_shown spec.now p }
    ensures unused { IfOk result (λ v. v.0.items ≡ meaning.unused_parts (uses_of spec.now) (meaning.parts_of spec.now)) }
    ensures missed { IfOk result (λ v. v.1.items ≡ numbered (meaning.entry_parts spec.now (uses_of spec.now)) 0 spec.now.phyla) }
{
    let uses = uses(alloc, spec, shown)?;
    let used = Used::new(alloc, &uses)?;
    let mut missed = Vec::new(alloc);
    add_missed(spec, &used, &mut missed)?;
    let parts = parts(alloc, spec)?;
    Ok((unused(alloc, &used, &parts)?, missed))
}

/// What of a record nothing uses, and what its texts miss: functions that nothing else calls, attributes and locals
/// that no equation reads and no scheme shows, phyla that nothing else is made of, nonterminals to which no entry
/// leads, operators whose schemes no document shows, phyla without an entry for what may be typed in, and literals of
/// precedence lines that group nothing. Each by its place in the record, and in this order.
pub fn useless(alloc: Global, spec: &Spec) -> Result<Vec<Part>, NoMemory>
    ensures { IfOk result (λ v. v.items ≡ meaning.useless_in spec.now) }
{
    let shown = shown(alloc, spec)?;
    let (mut parts, mut missed) = useless_parts(alloc, spec, &shown)?;
    add_all_unentered(alloc, spec, &mut parts)?;
    add_all_unseen(spec, &shown, &mut parts)?;
    parts.append(&mut missed)?;
    add_lines(spec, &mut parts)?;
    Ok(parts)
}
