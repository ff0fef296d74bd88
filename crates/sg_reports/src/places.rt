//! The places that faults print.
ghost use Rattle.std.specs.Prelude.{◌≡◌, ◌++◌, map, flat_map, IfOk, OnOk};
ghost use Rattle.sg_ast.specs.View.{tree_of, trees_of, right_of};
ghost use Rattle.sg_ast.specs.Declarations.{Right as RightTree};
ghost use Rattle.sg_ast.specs.declared.decl.Alt.{Alt as AltTree};
ghost use Rattle.sg_ast.specs.Parts.{head_at, head_place, op_places_at};
ghost use Rattle.sg_prec.specs.Levels.{row_at};
ghost use Rattle.sg_reports.specs.Places as placed;

use sg_ast::decl::{Alt, Decl, Right};
use sg_kinds::fault::Position;
use sg_kinds::memory::NoMemory;
use sg_kinds::spec::Spec;
use sg_prec::Levels;
use sg_prec::named::named_over;
use std::alloc::Global;

/// Where what is not there stands.
const NOWHERE: Position = Position { token: 0, line: 0 };

/// The place at a number; token 0 of line 0 past the last.
pub fn place_in(places: &[Position], k: u32) -> Position
    ensures { result ≡ placed.place_in places.now k }
{
    match places.get(k as usize) {
        Some(place) => *place,
        None => NOWHERE,
    }
}

/// Puts the places of operators behind the others.
fn push_operators(places: &mut Vec<Position>, alts: &[Alt]) -> Result<(), NoMemory>
    ensures { OnOk result (places.new.items ≡ places.old.items ++ map (λ (a : AltTree). a.name.place) alts.now) }
{
    for alt in alts {
        places.push(alt.name.place)?;
    }
    Ok(())
}

/// Puts the places of productions behind the others.
fn push_rights(places: &mut Vec<Position>, rights: &[Right]) -> Result<(), NoMemory>
    ensures { OnOk result (places.new.items ≡ places.old.items
        ++ map (λ (r : RightTree). r.place) (map right_of rights.now)) }
{
    for right in rights {
        places.push(right.place)?;
    }
    Ok(())
}

/// Puts the places of a declaration's operators behind the others.
fn push_operators_at(places: &mut Vec<Position>, decl: &Decl) -> Result<(), NoMemory>
    ensures { OnOk result (places.new.items ≡ places.old.items ++ op_places_at (tree_of decl.now)) }
{
    match decl {
        Decl::Operators(_, alts) => push_operators(places, alts.as_slice()),
        _ => Ok(()),
    }
}

/// Puts the places of a declaration's productions behind the others.
fn push_rights_at(places: &mut Vec<Position>, decl: &Decl) -> Result<(), NoMemory>
    ensures { OnOk result (places.new.items ≡ places.old.items ++ placed.rights_at (tree_of decl.now)) }
{
    match decl {
        Decl::Productions(_, rights) => push_rights(places, rights.as_slice()),
        _ => Ok(()),
    }
}

/// The places of all operators, in their order.
pub fn operator_places(alloc: Global, decls: &[Decl]) -> Result<Vec<Position>, NoMemory>
    ensures { IfOk result (λ v. v.items ≡ placed.operator_places (trees_of decls.now)) }
{
    let mut places = Vec::new(alloc);
    for decl in decls {
        push_operators_at(&mut places, decl)?;
    }
    Ok(places)
}

/// Puts the places of all productions behind the others.
fn push_productions(places: &mut Vec<Position>, decls: &[Decl]) -> Result<(), NoMemory>
    ensures { OnOk result (places.new.items ≡ places.old.items ++ flat_map placed.rights_at (trees_of decls.now)) }
{
    for decl in decls {
        push_rights_at(places, decl)?;
    }
    Ok(())
}

/// Puts the places of all entries behind the others.
fn push_entries(places: &mut Vec<Position>, decls: &[Decl]) -> Result<(), NoMemory>
    ensures { OnOk result (places.new.items ≡ places.old.items ++ flat_map placed.entries_at (trees_of decls.now)) }
{
    for decl in decls {
        if let Decl::Entry(phylum, _, _) = decl {
            places.push(phylum.place)?;
        }
    }
    Ok(())
}

/// The places of precedence lines, in their order.
fn line_places(alloc: Global, decls: &[Decl]) -> Result<Vec<Position>, NoMemory>
    ensures { IfOk result (λ v. v.items ≡ placed.line_places (trees_of decls.now)) }
{
    let mut places = Vec::new(alloc);
    for decl in decls {
        if let Decl::Levels(_, _, place) = decl {
            places.push(*place)?;
        }
    }
    Ok(places)
}

/// Puts the places of the lines of a nonterminal's steps behind the others.
#[tactic(auto, using(crate::proofs::StepPlaces::step_more))]
fn push_steps(
    places: &mut Vec<Position>,
    lines: &[Position],
    levels: &Levels,
    n: u32,
) -> Result<(), NoMemory>
    ensures { OnOk result (places.new.items ≡ places.old.items
        ++ map (placed.place_in lines.now) (row_at levels.now n)) }
{
    for level in 0..levels.height(n) {
        places.push(place_in(lines, levels.line(n, level)))?;
    }
    Ok(())
}

/// Puts the places of the lines of all steps behind the others.
fn push_chains(
    alloc: Global,
    places: &mut Vec<Position>,
    lines: &[Position],
    spec: &Spec,
) -> Result<(), NoMemory>
    ensures { OnOk result (places.new.items ≡ places.old.items
        ++ map (placed.place_in lines.now) (placed.chain_lines spec.now)) }
{
    let productions = spec.productions.as_slice();
    let levels = Levels::new(alloc, productions, spec.levels.as_slice())?;
    for n in 0..named_over(productions) {
        push_steps(places, lines, &levels, n as u32)?;
    }
    Ok(())
}

/// The places of all productions in their order, behind them those of the lines of the steps from level to level, and
/// behind these those of the entries.
pub fn production_places(
    alloc: Global,
    decls: &[Decl],
    spec: &Spec,
) -> Result<Vec<Position>, NoMemory>
    ensures { IfOk result (λ v. v.items ≡ placed.production_places spec.now (trees_of decls.now)) }
{
    let mut places = Vec::new(alloc);
    push_productions(&mut places, decls)?;
    let lines = line_places(alloc, decls)?;
    push_chains(alloc, &mut places, &lines, spec)?;
    push_entries(&mut places, decls)?;
    Ok(places)
}

/// Where a declaration of productions of a nonterminal names it.
fn head_at(name: &[u8], decl: &Decl) -> Option<Position>
    ensures { result ≡ head_at name.now (tree_of decl.now) }
{
    match decl {
        Decl::Productions(head, _) if head.text.as_slice() == name => Some(head.place),
        _ => None,
    }
}

/// Where the first declaration of productions of a nonterminal names it; token 0 of line 0 where none does.
pub fn head_place(name: &[u8], decls: &[Decl]) -> Position
    ensures { result ≡ head_place name.now (trees_of decls.now) }
{
    for decl in decls {
        if let Some(place) = head_at(name, decl) {
            return place;
        }
    }
    NOWHERE
}
