//! The references to enclosing nodes in the equations of operators.
ghost use Rattle.std.specs.Prelude.{◌≡◌, ◌++◌, map, OnOk, IfOk};
ghost use Rattle.sg_ast.specs.Remotes.{remotes_seen};
ghost use Rattle.sg_ast.specs.View.{expr_of, equation_of, trees_of};
ghost use Rattle.sg_remote.specs.Atoms as spec;

use sg_ast::decl::{Decl, Equation};
use sg_ast::expr::Expr;
use sg_ast::name::Remote;
use sg_ast::remotes::remotes;
use sg_kinds::fault::Position;
use sg_kinds::ids::OpId;
use sg_kinds::memory::NoMemory;
use sg_kinds::row::Row;
use sg_kinds::spec::Far;
use sg_names::names::Names;
use std::alloc::Global;

/// A reference to enclosing nodes in the equations of an operator: what it lists, and the place of its `{`.
#[derive(Drop)]
pub struct Atom {
    pub op: OpId,
    pub list: Row<Far>,
    pub place: Position,
}

fn atom_of(alloc: Global, names: &Names, op: OpId, remote: &Remote) -> Result<Atom, NoMemory>
    ensures { IfOk result (λ a. a ≡ spec.atom names.now op remote.now) }
{
    let list = Row::new(names.far_list(alloc, remote)?);
    Ok(Atom {
        op,
        list,
        place: remote.place,
    })
}

/// Puts these references last.
fn add_found(
    alloc: Global,
    names: &Names,
    op: OpId,
    found: &[&Remote],
    atoms: &mut Vec<Atom>,
) -> Result<(), NoMemory>
    ensures { OnOk result (atoms.new.items
        ≡ atoms.old.items ++ map (spec.atom names.now op) (remotes_seen found.now)) }
{
    for remote in found {
        atoms.push(atom_of(alloc, names, op, remote)?)?;
    }
    Ok(())
}

/// Puts those of an expression last.
fn add_expr(
    alloc: Global,
    names: &Names,
    op: OpId,
    expr: &Expr,
    atoms: &mut Vec<Atom>,
) -> Result<(), NoMemory>
    ensures { OnOk result (atoms.new.items ≡ atoms.old.items ++ spec.atoms_in names.now op (expr_of expr.now)) }
{
    let mut found = Vec::new(alloc);
    remotes(expr, &mut found)?;
    add_found(alloc, names, op, &found, atoms)
}

/// Puts those of equations last.
fn add_equations(
    alloc: Global,
    names: &Names,
    op: OpId,
    equations: &[Equation],
    atoms: &mut Vec<Atom>,
) -> Result<(), NoMemory>
    ensures { OnOk result (atoms.new.items
        ≡ atoms.old.items ++ spec.atoms_of names.now op (map equation_of equations.now)) }
{
    for equation in equations {
        add_expr(alloc, names, op, &equation.expr, atoms)?;
    }
    Ok(())
}

/// The references to enclosing nodes in the equations of operators that are there, in the order of the text.
pub fn atoms(alloc: Global, decls: &[Decl], names: &Names) -> Result<Vec<Atom>, NoMemory>
    ensures { IfOk result (λ v. v.items ≡ spec.atoms names.now (trees_of decls.now)) }
{
    let mut atoms = Vec::new(alloc);
    for decl in decls {
        if let Decl::Equations(phylum, op, _, equations) = decl
            && let Some(op) = names.operator_at(phylum, op)
        {
            add_equations(alloc, names, op, equations, &mut atoms)?;
        }
    }
    Ok(atoms)
}
