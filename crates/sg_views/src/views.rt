//! The views of declarations.
ghost use Rattle.std.specs.Prelude.{◌≡◌, IfOk, OnOk};
ghost use Rattle.sg_ast.specs.View.{tree_of, trees_of};
ghost use Rattle.sg_counts.specs.Limits.{views_in};
ghost use Rattle.sg_views.specs.Views as spec;

use crate::schemes::{is_same, schemes};
use sg_ast::decl::Decl;
use sg_kinds::memory::NoMemory;
use sg_kinds::row::Row;
use sg_kinds::spec::Scheme;
use sg_kinds::text::Text;
use sg_kinds::views::Views;
use sg_names::names::Names;
use std::alloc::Global;

/// Whether a name is among these.
fn is_among(names: &[Text], name: &Text) -> bool
    ensures { result ≡ spec.is_among names.now name.now }
{
    names.iter().any(|other| is_same(other, name))
}

/// Puts the view that a declaration names last, if it is new.
fn add_view(alloc: Global, names: &mut Vec<Text>, decl: &Decl) -> Result<(), NoMemory>
    ensures { OnOk result (names.new.items ≡ spec.with_names names.old.items (views_in (tree_of decl.now))) }
{
    if let Decl::Schemes(_, _, Some(view), _) = decl
        && !is_among(names.as_slice(), &view.text)
    {
        names.push(view.text.copy(alloc)?)?;
    }
    Ok(())
}

/// The names of views, each once, by their first use.
#[tactic(auto, using(crate::proofs::ViewNames::with_different, crate::proofs::ViewNames::with_both))]
fn view_names(alloc: Global, decls: &[Decl]) -> Result<Vec<Text>, NoMemory>
    ensures { IfOk result (λ v. v.items ≡ spec.view_names (trees_of decls.now)) }
{
    let mut names = Vec::new(alloc);
    for decl in decls {
        add_view(alloc, &mut names, decl)?;
    }
    Ok(names)
}

/// The schemes of each operator in a view.
#[tactic(auto, using(crate::proofs::ViewRows::below_more))]
fn row(
    alloc: Global,
    decls: &[Decl],
    names: &Names,
    view: &Text,
) -> Result<Row<Row<Scheme>>, NoMemory>
    ensures { IfOk result (λ r. r ≡ spec.row_of names.now (trees_of decls.now) view.now) }
{
    let mut found = schemes(alloc, decls, names, Some(view))?;
    let mut row = Vec::new(alloc);
    for place in 0..names.table().ops.len() {
        row.push(found.take(alloc, place))?;
    }
    Ok(Row::new(row))
}

/// The views of declarations in the order of their first use, each with its name and the schemes that each operator has
/// in it.
#[tactic(auto, using(crate::proofs::ViewRows::views_made))]
pub fn views(alloc: Global, decls: &[Decl], names: &Names) -> Result<Views, NoMemory>
    ensures { IfOk result (λ v. v ≡ spec.views_of names.now (trees_of decls.now)) }
{
    let found = view_names(alloc, decls)?;
    let mut rows = Vec::new(alloc);
    for view in &found {
        rows.push(row(alloc, decls, names, view)?)?;
    }
    Ok(Views {
        names: Row::new(found),
        rows: Row::new(rows),
    })
}
