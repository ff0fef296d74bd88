//! The table of names with far attributes.
ghost use Rattle.std.specs.Prelude.{◌≡◌, ◌≤◌, ℕ, min, length, IfOk, OnOk};
ghost use Rattle.sg_ast.specs.View.{trees_of};
ghost use Rattle.sg_names.specs.Names as written;
ghost use Rattle.sg_names.specs.Rows.{row_in};
ghost use Rattle.sg_remote.specs.Lists as spec;
ghost use Rattle.sg_remote.specs.Lists.{lists_of};
ghost use Rattle.sg_remote.specs.Longer.{more, names_of};
ghost use Rattle.sg_remote.specs.Widths.{width_of, pairs_in};

use crate::atoms::{Atom, atoms};
use crate::far_attrs::far_attrs;
use crate::lists::lists;
use sg_ast::decl::Decl;
use sg_kinds::memory::NoMemory;
use sg_kinds::spec::{Attr, Operator};
use sg_names::names::Names;
use std::alloc::Global;

/// The most lists: each takes a byte of a text at least.
const MOST_LISTS: usize = 1_048_576;

/// The most pairs of attributes at the nodes of operators. The time of the test of order grows with them, and it keeps
/// bits for each.
const MOST_PAIRS: usize = 1_073_741_824;

/// How many attributes an operator has at its left side and its arguments, or the greatest number.
fn width(names: &Names, operator: &Operator) -> usize
    ensures { result ≡ min usize.MAX (width_of names.now operator.now) }
{
    let mut width = names.attrs(operator.phylum).len();
    for argument in operator.args.as_slice() {
        width = width.saturating_add(names.attrs(*argument).len());
    }
    width
}

/// How many pairs of attributes there are at the nodes of operators, or the greatest number.
fn pairs(names: &Names) -> usize
    ensures { result ≡ min usize.MAX (pairs_in names.now) }
{
    let mut pairs = 0usize;
    for operator in names.table().ops.as_slice() {
        let width = width(names, operator);
        pairs = pairs.saturating_add(width.saturating_mul(width));
    }
    pairs
}

/// These names, unless the test of order would take too long over the pairs of their attributes.
fn kept(names: Names) -> Result<Names, NoMemory>
    ensures { IfOk result (λ n. n ≡ names) }
{
    if pairs(&names) > MOST_PAIRS {
        return Err(NoMemory);
    }
    Ok(names)
}

/// The far attributes of the lists of these references.
fn found(alloc: Global, names: &Names, atoms: &[Atom]) -> Result<Vec<Vec<Attr>>, NoMemory>
    ensures rows { IfOk result (λ v. (p : ℕ) → row_in v.items p ≡ more names.now atoms.now (lists_of atoms.now) p) }
    ensures few { OnOk result (length (lists_of atoms.now) ≤ 1048576) }
{
    let lists = lists(alloc, atoms)?;
    if lists.len() > MOST_LISTS {
        return Err(NoMemory);
    }
    far_attrs(alloc, names, atoms, &lists)
}

/// The names of declarations, in which each phylum has its far attributes behind the written ones. More lists than a
/// text has bytes are told as want of memory, and so are more far attributes, or more pairs of attributes at the nodes
/// of operators, than the later rows and the test of order can work through in seconds.
pub fn hide(alloc: Global, decls: &[Decl], names: Names) -> Result<Names, NoMemory>
    requires named { names ≡ written.names_of (trees_of decls.now) }
    ensures names { IfOk result (λ n. n ≡ names_of (trees_of decls.now)) }
    ensures few { OnOk result (length (spec.lists names (trees_of decls.now)) ≤ 1048576) }
{
    let atoms = atoms(alloc, decls, &names)?;
    let more = found(alloc, &names, &atoms)?;
    kept(names.with_more(alloc, more)?)
}
