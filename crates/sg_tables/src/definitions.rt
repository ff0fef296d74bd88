//! What declarations define: phyla, nonterminals, operators and functions.
ghost use Rattle.std.specs.Prelude.{◌≡◌, ◌++◌, fold, map, flat_map, unwrap_or, OnOk, IfOk};
ghost use Rattle.sg_ast.specs.View.{tree_of, trees_of};
ghost use Rattle.sg_ast.specs.FirstFault.{first};
ghost use Rattle.sg_ast.specs.declared.decl.Alt.{Alt};
ghost use Rattle.sg_ast.specs.declared.name.Typed.{Typed};
ghost use Rattle.sg_names.specs.Heads as head;
ghost use Rattle.sg_ast.specs.Parts.{op_places_at};
ghost use Rattle.sg_names.specs.Names as spec;

use crate::heads::Heads;
use sg_ast::decl::{Alt, Decl};
use sg_ast::name::{Name, Typed};
use sg_kinds::fault::Position;
use sg_kinds::ids::PhylumId;
use sg_kinds::memory::NoMemory;
use sg_kinds::row::Row;
use sg_kinds::spec::Operator;
use sg_names::table::Signature;
use std::alloc::Global;

fn with_phylum(heads: Heads, alloc: Global, decl: &Decl) -> Result<Heads, NoMemory>
    ensures { IfOk result (λ h. h ≡ fold head.with_head heads (spec.phylum_defined (tree_of decl.now))) }
{
    match decl {
        Decl::Operators(name, _) => heads.with_name(alloc, name, false),
        Decl::Lexeme(name, _) => heads.with_name(alloc, name, true),
        _ => Ok(heads),
    }
}

/// The phyla.
#[tactic(auto, using(crate::proofs::Loops::fold_more, crate::proofs::Loops::fold_all))]
pub(crate) fn phyla(alloc: Global, decls: &[Decl]) -> Result<Heads, NoMemory>
    ensures { IfOk result (λ h. h ≡ spec.phyla_in (trees_of decls.now)) }
{
    let mut heads = Heads::base(alloc)?;
    for decl in decls {
        heads = with_phylum(heads, alloc, decl)?;
    }
    Ok(heads)
}

fn with_nonterminal(heads: Heads, alloc: Global, decl: &Decl) -> Result<Heads, NoMemory>
    ensures { IfOk result (λ h. h ≡ fold head.with_head heads (spec.nonterminal_defined (tree_of decl.now))) }
{
    match decl {
        Decl::Productions(name, _) => heads.with_name(alloc, name, false),
        _ => Ok(heads),
    }
}

/// The nonterminals.
#[tactic(auto, using(crate::proofs::Loops::fold_more, crate::proofs::Loops::fold_all))]
pub(crate) fn nonterminals(alloc: Global, decls: &[Decl]) -> Result<Heads, NoMemory>
    ensures { IfOk result (λ h. h ≡ spec.nonterminals_in (trees_of decls.now)) }
{
    let mut heads = Heads::new(alloc);
    for decl in decls {
        heads = with_nonterminal(heads, alloc, decl)?;
    }
    Ok(heads)
}

/// The phylum of a name, or the number past the last.
fn phylum(phyla: &Heads, name: &Name) -> PhylumId
    ensures { result ≡ head.number_in phyla.now name.now.text }
{
    PhylumId {
        number: phyla.number(&name.text),
    }
}

#[tactic(auto, using(crate::proofs::Loops::map_more, crate::proofs::Loops::map_all))]
fn arguments(alloc: Global, phyla: &Heads, names: &[Name]) -> Result<Row<PhylumId>, NoMemory>
    ensures { IfOk result (λ r. r ≡ head.numbers_in phyla.now names.now) }
{
    let mut numbers = Vec::new(alloc);
    for name in names {
        numbers.push(phylum(phyla, name))?;
    }
    Ok(Row::new(numbers))
}

/// An operator of a phylum, as yet without its locals.
fn operator(alloc: Global, phyla: &Heads, name: &Name, alt: &Alt) -> Result<Operator, NoMemory>
    ensures { IfOk result (λ o. o ≡ spec.operator phyla.now name.now alt.now) }
{
    Ok(Operator {
        name: alt.name.text.copy(alloc)?,
        phylum: phylum(phyla, name),
        args: arguments(alloc, phyla, alt.args.as_slice())?,
        locals: Row::new(Vec::new(alloc)),
        schemes: Row::new(Vec::new(alloc)),
    })
}

#[tactic(auto, using(crate::proofs::Loops::map_more, crate::proofs::Loops::map_all))]
fn add_alts(
    alloc: Global,
    phyla: &Heads,
    ops: &mut Vec<Operator>,
    name: &Name,
    alts: &[Alt],
) -> Result<(), NoMemory>
    ensures { OnOk result (ops.new.items ≡ ops.old.items ++ map (spec.operator phyla.now name.now) alts.now) }
{
    for alt in alts {
        ops.push(operator(alloc, phyla, name, alt)?)?;
    }
    Ok(())
}

fn add_operators(
    alloc: Global,
    phyla: &Heads,
    ops: &mut Vec<Operator>,
    decl: &Decl,
) -> Result<(), NoMemory>
    ensures { OnOk result (ops.new.items ≡ ops.old.items ++ spec.operators_at phyla.now (tree_of decl.now)) }
{
    match decl {
        Decl::Operators(name, alts) => add_alts(alloc, phyla, ops, name, alts.as_slice()),
        _ => Ok(()),
    }
}

/// The operators, as yet without their locals.
#[tactic(auto, using(crate::proofs::Loops::list_more, crate::proofs::Loops::list_all))]
pub(crate) fn operators(
    alloc: Global,
    phyla: &Heads,
    decls: &[Decl],
) -> Result<Vec<Operator>, NoMemory>
    ensures { IfOk result (λ v. v.items ≡ spec.operators_in phyla.now (trees_of decls.now)) }
{
    let mut ops = Vec::new(alloc);
    for decl in decls {
        add_operators(alloc, phyla, &mut ops, decl)?;
    }
    Ok(ops)
}

#[tactic(auto, using(crate::proofs::Loops::map_more, crate::proofs::Loops::map_all))]
fn add_alt_places(places: &mut Vec<Position>, alts: &[Alt]) -> Result<(), NoMemory>
    ensures { OnOk result (places.new.items ≡ places.old.items ++ map (λ (a : Alt). a.name.place) alts.now) }
{
    for alt in alts {
        places.push(alt.name.place)?;
    }
    Ok(())
}

fn add_places(places: &mut Vec<Position>, decl: &Decl) -> Result<(), NoMemory>
    ensures { OnOk result (places.new.items ≡ places.old.items ++ op_places_at (tree_of decl.now)) }
{
    match decl {
        Decl::Operators(_, alts) => add_alt_places(places, alts.as_slice()),
        _ => Ok(()),
    }
}

/// The places of the operators' names.
#[tactic(auto, using(crate::proofs::Loops::list_more, crate::proofs::Loops::list_all))]
pub(crate) fn op_places(alloc: Global, decls: &[Decl]) -> Result<Row<Position>, NoMemory>
    ensures { IfOk result (λ r. r ≡ flat_map op_places_at (trees_of decls.now)) }
{
    let mut places = Vec::new(alloc);
    for decl in decls {
        add_places(&mut places, decl)?;
    }
    Ok(Row::new(places))
}

#[tactic(auto, using(crate::proofs::Loops::map_more, crate::proofs::Loops::map_all))]
fn parameters(alloc: Global, phyla: &Heads, params: &[Typed]) -> Result<Row<PhylumId>, NoMemory>
    ensures { IfOk result (λ r. r ≡ map (λ (p : Typed). head.number_in phyla.now p.of.text) params.now) }
{
    let mut numbers = Vec::new(alloc);
    for param in params {
        numbers.push(phylum(phyla, &param.of))?;
    }
    Ok(Row::new(numbers))
}

fn signature(
    alloc: Global,
    phyla: &Heads,
    of: &Name,
    name: &Name,
    params: &[Typed],
) -> Result<Signature, NoMemory>
    ensures { IfOk result (λ s. s ≡ spec.signature phyla.now of.now name.now params.now) }
{
    Ok(Signature {
        name: name.text.copy(alloc)?,
        params: parameters(alloc, phyla, params)?,
        result: phylum(phyla, of),
    })
}

fn add_function(
    alloc: Global,
    phyla: &Heads,
    functions: &mut Vec<Signature>,
    decl: &Decl,
) -> Result<(), NoMemory>
    ensures { OnOk result (functions.new.items ≡ functions.old.items ++ spec.function_at phyla.now (tree_of decl.now)) }
{
    match decl {
        Decl::Function(of, name, params, _) => {
            functions.push(signature(alloc, phyla, of, name, params.as_slice())?)?;
            Ok(())
        }
        _ => Ok(()),
    }
}

/// The functions.
#[tactic(auto, using(crate::proofs::Loops::list_more, crate::proofs::Loops::list_all))]
pub(crate) fn functions(
    alloc: Global,
    phyla: &Heads,
    decls: &[Decl],
) -> Result<Vec<Signature>, NoMemory>
    ensures { IfOk result (λ v. v.items ≡ flat_map (spec.function_at phyla.now) (trees_of decls.now)) }
{
    let mut functions = Vec::new(alloc);
    for decl in decls {
        add_function(alloc, phyla, &mut functions, decl)?;
    }
    Ok(functions)
}

fn root_at(phyla: &Heads, decl: &Decl) -> Option<PhylumId>
    ensures { result ≡ spec.root_at phyla.now (tree_of decl.now) }
{
    match decl {
        Decl::Root(name) => Some(phylum(phyla, name)),
        _ => None,
    }
}

/// The root by its first declaration, or 0.
#[tactic(auto, using(crate::proofs::Loops::root_found, crate::proofs::Loops::root_passed, crate::proofs::Loops::root_missing))]
pub(crate) fn root(phyla: &Heads, decls: &[Decl]) -> PhylumId
    ensures { result ≡ unwrap_or (first (spec.root_at phyla.now) (trees_of decls.now)) 0 }
{
    for decl in decls {
        if let Some(root) = root_at(phyla, decl) {
            return root;
        }
    }
    PhylumId { number: 0 }
}
