//! Transformations.
ghost use Rattle.std.specs.Prelude.{◌≡◌, IfOk};
ghost use Rattle.sg_ast.specs.View.{trees_of};
ghost use Rattle.sg_record.specs.Record as spec;
ghost use Rattle.sg_typing.specs.Bodies.{patterns_in};

use crate::bodies::{after, expr_id};
use sg_ast::decl::Decl;
use sg_kinds::ids::PhylumId;
use sg_kinds::memory::NoMemory;
use sg_kinds::pattern::Pattern;
use sg_kinds::spec::Transform;
use sg_kinds::text::Text;
use sg_names::names::Names;
use sg_typing::expr_count;
use std::alloc::Global;

/// The phylum of a name, 0 where it means nothing.
pub(crate) fn phylum_in(names: &Names, name: &Text) -> PhylumId
    ensures { result ≡ spec.phylum_in names.now name.now }
{
    match names.usable_named(name) {
        Some(phylum) => phylum,
        None => PhylumId { number: 0 },
    }
}

/// The transformations, with their patterns.
pub(crate) fn transforms(
    alloc: Global,
    decls: &[Decl],
    names: &Names,
    patterns: Vec<Pattern>,
) -> Result<Vec<Transform>, NoMemory>
    requires { patterns.items ≡ patterns_in names.now (trees_of decls.now) }
    ensures { IfOk result (λ v. v.items ≡ spec.transforms_in names.now 0 (trees_of decls.now)) }
{
    let mut transforms = Vec::new(alloc);
    let mut patterns = patterns.into_iter();
    let mut k = 0;
    for decl in decls {
        if let Decl::Transform(phylum, title, _, _) = decl
            && let Some(pattern) = patterns.next()
        {
            transforms.push(Transform {
                name: title.text.copy(alloc)?,
                phylum: phylum_in(names, &phylum.text),
                pattern,
                expr: expr_id(k)?,
            })?;
        }
        k = after(k, expr_count(decl))?;
    }
    Ok(transforms)
}
