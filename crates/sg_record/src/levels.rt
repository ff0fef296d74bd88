//! Precedence lines.
ghost use Rattle.std.specs.Prelude.{◌≡◌, ◌++◌, map, flat_map, IfOk, OnOk};
ghost use Rattle.sg_ast.specs.View.{tree_of, trees_of};
ghost use Rattle.sg_ast.specs.declared.name.Quoted.{Quoted as Literal};
ghost use Rattle.sg_record.specs.Record.{levels_at};

use sg_ast::decl::Decl;
use sg_ast::name::Quoted;
use sg_kinds::memory::NoMemory;
use sg_kinds::row::Row;
use sg_kinds::spec::LevelLine;
use sg_kinds::text::Text;
use std::alloc::Global;

/// The texts of literals.
fn texts(alloc: Global, literals: &[Quoted]) -> Result<Row<Text>, NoMemory>
    ensures { IfOk result (λ r. r ≡ map (λ (s : Literal). s.text) literals.now) }
{
    let mut texts = Vec::new(alloc);
    for literal in literals {
        texts.push(literal.text.copy(alloc)?)?;
    }
    Ok(Row::new(texts))
}

/// Puts the precedence line of a declaration last.
fn add_levels(alloc: Global, decl: &Decl, levels: &mut Vec<LevelLine>) -> Result<(), NoMemory>
    ensures { OnOk result (levels.new.items ≡ levels.old.items ++ levels_at (tree_of decl.now)) }
{
    if let Decl::Levels(group, literals, _) = decl {
        let group = *group;
        let literals = texts(alloc, literals.as_slice())?;
        levels.push(LevelLine { group, literals })?;
    }
    Ok(())
}

/// The precedence lines, in the order of the text.
pub(crate) fn levels(alloc: Global, decls: &[Decl]) -> Result<Vec<LevelLine>, NoMemory>
    ensures { IfOk result (λ v. v.items ≡ flat_map levels_at (trees_of decls.now)) }
{
    let mut levels = Vec::new(alloc);
    for decl in decls {
        add_levels(alloc, decl, &mut levels)?;
    }
    Ok(levels)
}
