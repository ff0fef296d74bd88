//! Counts over their limits.
ghost use Rattle.std.specs.Prelude.{◌≡◌, ◌++◌, length, flat_map, count_by, bytes_eq, IfOk, OnOk};
ghost use Rattle.sg_counts.specs.Crowds.{different, crowd};
ghost use Rattle.sg_ast.specs.FirstFault.{first, over};
ghost use Rattle.sg_ast.specs.View.{tree_of, trees_of};
ghost use Rattle.sg_counts.specs.Limits.{is_base, phyla_of, arities_of, attributes_of, locals_of, parameters_of, schemes_of, symbols_of, views_in, is_transform, is_same_operator, limit_fault, limit};
ghost use Rattle.sg_counts.specs.OwnersView.{names_of, operators_of};

use crate::crowds::{crowd, different};
use sg_ast::decl::Decl;
use sg_ast::firsts::over;
use sg_kinds::fault::{Counted, SpecFault};
use sg_kinds::limits;
use sg_kinds::memory::NoMemory;
use std::alloc::Global;

/// Whether it is the name of a base phylum.
fn is_base(name: &[u8]) -> bool
    ensures { result ≡ is_base name.now }
{
    name == b"BOOL".as_slice() || name == b"INT".as_slice() || name == b"STR".as_slice()
}

/// Puts the phylum last that a declaration defines, if it is no base phylum.
fn add_phylum<'a>(found: &mut Vec<&'a [u8]>, decl: &'a Decl) -> Result<(), NoMemory>
    ensures { OnOk result (names_of found.new.items ≡ names_of found.old.items ++ phyla_of (tree_of decl.now)) }
{
    match decl {
        Decl::Operators(phylum, _) | Decl::Lexeme(phylum, _) => {
            let name = phylum.text.as_slice();
            if !is_base(name) {
                found.push(name)?;
            }
            Ok(())
        }
        _ => Ok(()),
    }
}

/// Each phylum that a declaration defines, but for base phyla.
#[tactic(auto, using(crate::proofs::Walks::one_more))]
fn phyla(alloc: Global, decls: &[Decl]) -> Result<Vec<&[u8]>, NoMemory>
    ensures { IfOk result (λ v. names_of v.items ≡ flat_map phyla_of (trees_of decls.now)) }
{
    let mut found = Vec::new(alloc);
    for decl in decls {
        add_phylum(&mut found, decl)?;
    }
    Ok(found)
}

/// Puts the number of arguments of each operator last.
fn add_arities(found: &mut Vec<usize>, decl: &Decl) -> Result<(), NoMemory>
    ensures { OnOk result (found.new.items ≡ found.old.items ++ arities_of (tree_of decl.now)) }
{
    if let Decl::Operators(_, alts) = decl {
        for alt in alts.as_slice() {
            found.push(alt.args.len())?;
        }
    }
    Ok(())
}

/// How many arguments each operator has.
#[tactic(auto, using(crate::proofs::Walks::one_more))]
fn arities(alloc: Global, decls: &[Decl]) -> Result<Vec<usize>, NoMemory>
    ensures { IfOk result (λ v. v.items ≡ flat_map arities_of (trees_of decls.now)) }
{
    let mut found = Vec::new(alloc);
    for decl in decls {
        add_arities(&mut found, decl)?;
    }
    Ok(found)
}

/// Puts the owner of each attribute last.
fn add_attributes<'a>(found: &mut Vec<&'a [u8]>, decl: &'a Decl) -> Result<(), NoMemory>
    ensures { OnOk result (names_of found.new.items ≡ names_of found.old.items ++ attributes_of (tree_of decl.now)) }
{
    if let Decl::Attributes(owner, attrs) = decl {
        for _ in attrs.as_slice() {
            found.push(owner.text.as_slice())?;
        }
    }
    Ok(())
}

/// The owner of each attribute.
#[tactic(auto, using(crate::proofs::Walks::one_more))]
fn attributes(alloc: Global, decls: &[Decl]) -> Result<Vec<&[u8]>, NoMemory>
    ensures { IfOk result (λ v. names_of v.items ≡ flat_map attributes_of (trees_of decls.now)) }
{
    let mut found = Vec::new(alloc);
    for decl in decls {
        add_attributes(&mut found, decl)?;
    }
    Ok(found)
}

/// Puts the phylum and the operator of each local last.
fn add_locals<'a>(found: &mut Vec<(&'a [u8], &'a [u8])>, decl: &'a Decl) -> Result<(), NoMemory>
    ensures { OnOk result (operators_of found.new.items
        ≡ operators_of found.old.items ++ locals_of (tree_of decl.now)) }
{
    if let Decl::Equations(phylum, op, locals, _) = decl {
        for _ in locals.as_slice() {
            found.push((phylum.text.as_slice(), op.text.as_slice()))?;
        }
    }
    Ok(())
}

/// The phylum and the operator of each local.
#[tactic(auto, using(crate::proofs::Walks::one_more))]
fn locals(alloc: Global, decls: &[Decl]) -> Result<Vec<(&[u8], &[u8])>, NoMemory>
    ensures { IfOk result (λ v. operators_of v.items ≡ flat_map locals_of (trees_of decls.now)) }
{
    let mut found = Vec::new(alloc);
    for decl in decls {
        add_locals(&mut found, decl)?;
    }
    Ok(found)
}

/// Puts the number of a function's parameters last.
fn add_parameters(found: &mut Vec<usize>, decl: &Decl) -> Result<(), NoMemory>
    ensures { OnOk result (found.new.items ≡ found.old.items ++ parameters_of (tree_of decl.now)) }
{
    if let Decl::Function(_, _, params, _) = decl {
        found.push(params.len())?;
    }
    Ok(())
}

/// How many parameters each function has.
#[tactic(auto, using(crate::proofs::Walks::one_more))]
fn parameters(alloc: Global, decls: &[Decl]) -> Result<Vec<usize>, NoMemory>
    ensures { IfOk result (λ v. v.items ≡ flat_map parameters_of (trees_of decls.now)) }
{
    let mut found = Vec::new(alloc);
    for decl in decls {
        add_parameters(&mut found, decl)?;
    }
    Ok(found)
}

/// Puts the number of a declaration's schemes last.
fn add_schemes(found: &mut Vec<usize>, decl: &Decl) -> Result<(), NoMemory>
    ensures { OnOk result (found.new.items ≡ found.old.items ++ schemes_of (tree_of decl.now)) }
{
    if let Decl::Schemes(_, _, _, schemes) = decl {
        found.push(schemes.len())?;
    }
    Ok(())
}

/// How many schemes each of their declarations has.
#[tactic(auto, using(crate::proofs::Walks::one_more))]
fn schemes(alloc: Global, decls: &[Decl]) -> Result<Vec<usize>, NoMemory>
    ensures { IfOk result (λ v. v.items ≡ flat_map schemes_of (trees_of decls.now)) }
{
    let mut found = Vec::new(alloc);
    for decl in decls {
        add_schemes(&mut found, decl)?;
    }
    Ok(found)
}

/// Puts the number of symbols of each production last.
fn add_symbols(found: &mut Vec<usize>, decl: &Decl) -> Result<(), NoMemory>
    ensures { OnOk result (found.new.items ≡ found.old.items ++ symbols_of (tree_of decl.now)) }
{
    if let Decl::Productions(_, rights) = decl {
        for right in rights {
            found.push(right.parts.len())?;
        }
    }
    Ok(())
}

/// How many symbols each production has.
#[tactic(auto, using(crate::proofs::Walks::one_more))]
fn symbols(alloc: Global, decls: &[Decl]) -> Result<Vec<usize>, NoMemory>
    ensures { IfOk result (λ v. v.items ≡ flat_map symbols_of (trees_of decls.now)) }
{
    let mut found = Vec::new(alloc);
    for decl in decls {
        add_symbols(&mut found, decl)?;
    }
    Ok(found)
}

/// Puts the view last that a declaration names.
fn add_view<'a>(found: &mut Vec<&'a [u8]>, decl: &'a Decl) -> Result<(), NoMemory>
    ensures { OnOk result (names_of found.new.items ≡ names_of found.old.items ++ views_in (tree_of decl.now)) }
{
    if let Decl::Schemes(_, _, Some(view), _) = decl {
        found.push(view.text.as_slice())?;
    }
    Ok(())
}

/// The view that each declaration names.
#[tactic(auto, using(crate::proofs::Walks::one_more))]
fn views(alloc: Global, decls: &[Decl]) -> Result<Vec<&[u8]>, NoMemory>
    ensures { IfOk result (λ v. names_of v.items ≡ flat_map views_in (trees_of decls.now)) }
{
    let mut found = Vec::new(alloc);
    for decl in decls {
        add_view(&mut found, decl)?;
    }
    Ok(found)
}

fn is_transform(decl: &Decl) -> bool
    ensures { result ≡ is_transform (tree_of decl.now) }
{
    matches!(decl, Decl::Transform(..))
}

/// How many transformations there are.
#[tactic(auto, using(crate::proofs::Walks::count_map))]
fn transforms(decls: &[Decl]) -> usize
    ensures { result ≡ count_by is_transform (trees_of decls.now) }
{
    let mut count = 0;
    for decl in decls {
        if is_transform(decl) {
            count += 1;
        }
    }
    count
}

/// The first of these counts that is over its limit.
fn first_over(limit: usize, counts: &[usize]) -> Option<usize>
    ensures { result ≡ first (over limit) counts.now }
{
    for count in counts {
        if let Some(found) = over(limit, *count) {
            return Some(found);
        }
    }
    None
}

/// The fault of the first of these counts that is over its limit.
fn first_limit(counts: &[(Counted, Option<usize>)]) -> Option<SpecFault>
    ensures { result ≡ first limit_fault counts.now }
{
    for (what, count) in counts {
        if let Some(count) = count {
            return Some(SpecFault::Limit(*what, *count));
        }
    }
    None
}

/// How many different phyla the declarations define, but for base phyla.
fn different_phyla(alloc: Global, decls: &[Decl]) -> Result<usize, NoMemory>
    ensures { IfOk result (λ n. n ≡ length (different bytes_eq (flat_map phyla_of (trees_of decls.now)))) }
{
    different(alloc, &phyla(alloc, decls)?)
}

/// How many different views the declarations name.
fn different_views(alloc: Global, decls: &[Decl]) -> Result<usize, NoMemory>
    ensures { IfOk result (λ n. n ≡ length (different bytes_eq (flat_map views_in (trees_of decls.now)))) }
{
    different(alloc, &views(alloc, decls)?)
}

/// How many attributes the first owner with too many has.
fn crowded_attributes(alloc: Global, decls: &[Decl]) -> Result<Option<usize>, NoMemory>
    ensures { IfOk result (λ n. n ≡ crowd bytes_eq 32 (flat_map attributes_of (trees_of decls.now))) }
{
    crowd(alloc, limits::ATTRIBUTES, &attributes(alloc, decls)?)
}

/// How many locals the first operator with too many has.
fn crowded_locals(alloc: Global, decls: &[Decl]) -> Result<Option<usize>, NoMemory>
    ensures { IfOk result (λ n. n ≡ crowd is_same_operator 32 (flat_map locals_of (trees_of decls.now))) }
{
    crowd(alloc, limits::LOCALS, &locals(alloc, decls)?)
}

/// The first count over its limit.
pub fn limit(alloc: Global, decls: &[Decl]) -> Result<Option<SpecFault>, NoMemory>
    ensures { IfOk result (λ fault. fault ≡ limit (trees_of decls.now)) }
{
    let phyla = different_phyla(alloc, decls)?;
    let views = different_views(alloc, decls)?;
    let arities = arities(alloc, decls)?;
    let attributes = crowded_attributes(alloc, decls)?;
    let locals = crowded_locals(alloc, decls)?;
    let parameters = parameters(alloc, decls)?;
    let schemes = schemes(alloc, decls)?;
    let symbols = symbols(alloc, decls)?;
    Ok(first_limit(&[
        (Counted::Phyla, over(limits::PHYLA, phyla)),
        (Counted::Operators, over(limits::OPERATORS, arities.len())),
        (Counted::Arity, first_over(limits::ARITY, &arities)),
        (Counted::Attributes, attributes),
        (Counted::Locals, locals),
        (
            Counted::Functions,
            over(limits::FUNCTIONS, parameters.len()),
        ),
        (
            Counted::Parameters,
            first_over(limits::PARAMETERS, &parameters),
        ),
        (
            Counted::Transforms,
            over(limits::TRANSFORMS, transforms(decls)),
        ),
        (Counted::Schemes, first_over(limits::SCHEMES, &schemes)),
        (
            Counted::Productions,
            over(limits::PRODUCTIONS, symbols.len()),
        ),
        (Counted::Symbols, first_over(limits::SYMBOLS, &symbols)),
        (Counted::Views, over(limits::VIEWS, views)),
    ]))
}
