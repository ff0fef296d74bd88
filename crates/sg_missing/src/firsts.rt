// Which equation of the same stands first.
ghost use Rattle.std.specs.Prelude.{◌≡◌, ◌++◌, filter, IfOk, OnOk, Ok};
ghost use Rattle.sg_ast.specs.View.{trees_of};
ghost use Rattle.sg_equations.specs.Complete.{is_same_target};
ghost use Rattle.sg_equations.specs.Targets.{defined_in};
ghost use Rattle.sg_load.specs.Trees.{trees_in};
ghost use Rattle.sg_missing.specs.Firsts.{first_text, firsts, head_text, is_there as is_there_at, text_first};

use sg_ast::decl::Decl;
use sg_equations::is_narrow;
use sg_equations::targets::{Defined, targets_in};
use sg_faults::write_line;
use sg_kinds::fault::Position;
use sg_kinds::memory::NoMemory;
use sg_load::declarations;
use sg_names::names::Names;
use sg_tables::tables::tables;
use std::alloc::Global;

fn is_there(place: Position, equation: &Defined) -> bool
    ensures { result ≡ is_there_at place equation.now }
{
    equation.place.token == place.token
}

fn is_same(a: &Defined, b: &Defined) -> bool
    ensures { result ≡ is_same_target a.now b.now }
{
    a.op == b.op && (a.target.at == b.target.at && a.target.slot == b.target.slot)
}

// Those of these equations that stand at a place.
fn those_there(
    alloc: Global,
    defined: &[Defined],
    place: Position,
) -> Result<Vec<Defined>, NoMemory>
    ensures { IfOk result (λ v. v.items ≡ filter (is_there_at place) defined.now) }
{
    let mut found = Vec::new(alloc);
    for equation in defined {
        if is_there(place, equation) {
            found.push(*equation)?;
        }
    }
    Ok(found)
}

// Those of these equations that define the same as one.
fn those_of(alloc: Global, defined: &[Defined], one: &Defined) -> Result<Vec<Defined>, NoMemory>
    ensures { IfOk result (λ v. v.items ≡ filter (is_same_target one.now) defined.now) }
{
    let mut found = Vec::new(alloc);
    for equation in defined {
        if is_same(one, equation) {
            found.push(*equation)?;
        }
    }
    Ok(found)
}

// A line for the first of some equations.
fn head(alloc: Global, equations: &[Defined]) -> Result<Vec<u8>, NoMemory>
    ensures { IfOk result (λ v. v.items ≡ head_text equations.now) }
{
    let mut out = Vec::new(alloc);
    if let [equation, ..] = equations {
        out.extend_from_slice(b"  the first equation of it,")?;
        write_line(alloc, &mut out, equation.place.line)?;
        out.push(b'\n')?;
    }
    Ok(out)
}

// The same of the first that defines what the first of some others does.
fn head_of(alloc: Global, defined: &[Defined], there: &[Defined]) -> Result<Vec<u8>, NoMemory>
    ensures { IfOk result (λ v. v.items ≡ first_text defined.now there.now) }
{
    match there {
        [equation, ..] => {
            let same = those_of(alloc, defined, equation)?;
            head(alloc, &same)
        }
        [] => Ok(Vec::new(alloc)),
    }
}

// The same of the first that defines what the one at a place does.
fn first_of(alloc: Global, defined: &[Defined], place: Position) -> Result<Vec<u8>, NoMemory>
    ensures { IfOk result (λ v. v.items ≡ firsts place defined.now) }
{
    let there = those_there(alloc, defined, place)?;
    head_of(alloc, defined, &there)
}

// The same of declarations with these names.
fn first_named(
    alloc: Global,
    decls: &[Decl],
    names: &Names,
    place: Position,
) -> Result<Vec<u8>, NoMemory>
    ensures { IfOk result (λ v. v.items ≡ firsts place (defined_in names.now (trees_of decls.now))) }
{
    if !is_narrow(names) {
        return Err(NoMemory);
    }
    let defined = targets_in(alloc, decls, names)?;
    first_of(alloc, &defined, place)
}

// The same of declarations.
fn first_in(alloc: Global, decls: &[Decl], place: Position) -> Result<Vec<u8>, NoMemory>
    ensures { IfOk result (λ v. v.items ≡ text_first place (Ok (trees_of decls.now))) }
{
    let names = tables(alloc, decls)?;
    first_named(alloc, decls, &names, place)
}

/// A line for the first equation of a text with declarations that defines what the one at this place does.
pub fn first(alloc: Global, bytes: &[u8], place: Position) -> Result<Vec<u8>, NoMemory>
    ensures { IfOk result (λ v. v.items ≡ text_first place (trees_in bytes.now)) }
{
    // A text whose verdict is that an equation stands twice has declarations.
    let Ok(decls) = declarations(alloc, bytes) else {
        return Err(NoMemory);
    };
    first_in(alloc, &decls, place)
}
