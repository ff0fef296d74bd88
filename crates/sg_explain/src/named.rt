// What is told of a name in a text with declarations.
ghost use Rattle.std.specs.Prelude.{◌≡◌, IfOk, IfSome, Ok};
ghost use Rattle.sg_ast.specs.View.{trees_of};
ghost use Rattle.sg_explain.specs.Named.{TellsBareIn, first_in, signatures_in, unknown_in};
ghost use Rattle.sg_load.specs.Trees.{trees_in};
ghost use Rattle.sg_place.specs.Places.{IsPlaceIn};

use sg_ast::decl::Decl;
use sg_kinds::fault::Position;
use sg_kinds::memory::NoMemory;
use sg_known::known::{first, meanings};
use sg_known::signatures::signatures;
use sg_load::declarations;
use sg_nearby::nearby::nearby;
use sg_unenclosed::unenclosed::unenclosed;
use std::alloc::Global;

// The declarations of a text whose fault is one of names, which has some.
fn trees(alloc: Global, bytes: &[u8]) -> Result<Vec<Decl>, NoMemory>
    ensures { IfOk result (λ v. trees_in bytes.now ≡ Ok (trees_of v.items)) }
{
    match declarations(alloc, bytes) {
        Ok(decls) => Ok(decls),
        Err(_) => Err(NoMemory),
    }
}

/// What is declared under an unknown name, and which near names are known in its place.
pub fn unknown(
    alloc: Global,
    bytes: &[u8],
    place: Option<usize>,
    at: Position,
    name: &[u8],
) -> Result<Vec<u8>, NoMemory>
    requires { IfSome place (IsPlaceIn bytes.now) }
    ensures { IfOk result (λ v. v.items ≡ unknown_in bytes.now place at name.now (trees_in bytes.now)) }
{
    // A name of a text stands at a place of it.
    let Some(from) = place else {
        return Err(NoMemory);
    };
    let decls = trees(alloc, bytes)?;
    let mut out = meanings(alloc, &decls, name)?;
    out.extend_from_slice(&nearby(alloc, bytes, from, at.token, name)?)?;
    Ok(out)
}

/// What is declared first as the thing at a place is.
pub fn duplicate(alloc: Global, bytes: &[u8], at: Position) -> Result<Vec<u8>, NoMemory>
    ensures { IfOk result (λ v. v.items ≡ first_in at (trees_in bytes.now)) }
{
    let decls = trees(alloc, bytes)?;
    first(alloc, &decls, at)
}

/// The operators and functions of a name.
pub fn parts(alloc: Global, bytes: &[u8], name: &[u8]) -> Result<Vec<u8>, NoMemory>
    ensures { IfOk result (λ v. v.items ≡ signatures_in name.now (trees_in bytes.now)) }
{
    let decls = trees(alloc, bytes)?;
    signatures(alloc, &decls, name)
}

/// Operators down to a reference to enclosing nodes, above which there is none of those.
#[tactic(auto, using(crate::proofs::Explained::tells_bare))]
pub fn bare(alloc: Global, bytes: &[u8], at: Position) -> Result<Vec<u8>, NoMemory>
    ensures { IfOk result (λ v. TellsBareIn bytes.now at v.items) }
{
    let decls = trees(alloc, bytes)?;
    let lines = unenclosed(alloc, &decls, at)?;
    Ok(lines)
}
