// Where declarations declare what notes speak of.
ghost use Rattle.std.specs.Prelude.{◌≡◌, ℕ, List, [], ◌∷◌, ◌++◌, map, IfOk, OnOk};
ghost use Rattle.sg_ast.specs.FirstFault.{or_else};
ghost use Rattle.sg_ast.specs.View.{tree_of, trees_of};
ghost use Rattle.sg_names.specs.Meaning.{meaning};
ghost use Rattle.sg_notes.specs.Declared as spec;

use crate::words::{named, owned, quoted};
use sg_ast::decl::{AttrDecl, Decl};
use sg_ast::name::{Name, Quoted, Typed};
use sg_kinds::fault::Position;
use sg_kinds::memory::NoMemory;
use sg_names::index::Index;
use std::alloc::Global;

// Where things are first declared, by their words.
type Places = Index<Position>;

// Puts a thing by the words of its kind and its name.
fn put(alloc: Global, places: &mut Places, kind: &str, name: &Name) -> Result<(), NoMemory>
    ensures { OnOk result ((n : List ℕ) → meaning places.new n
        ≡ or_else (meaning places.old n) (spec.place_in (spec.at (kind.now ++ name.now.text) name.now.place ∷ []) n)) }
{
    let words = named(alloc, kind, name.text.as_slice())?;
    places.put(alloc, &words, name.place)
}

fn put_attr(
    alloc: Global,
    places: &mut Places,
    owner: &[u8],
    attr: &AttrDecl,
) -> Result<(), NoMemory>
    ensures { OnOk result ((n : List ℕ) → meaning places.new n
        ≡ or_else (meaning places.old n) (spec.place_in (spec.declared_attr owner.now attr.now ∷ []) n)) }
{
    let words = owned(alloc, "attribute ", owner, attr.name.text.as_slice())?;
    places.put(alloc, &words, attr.name.place)
}

fn put_attrs(
    alloc: Global,
    places: &mut Places,
    owner: &[u8],
    attrs: &[AttrDecl],
) -> Result<(), NoMemory>
    ensures { OnOk result ((n : List ℕ) → meaning places.new n
        ≡ or_else (meaning places.old n) (spec.place_in (map (spec.declared_attr owner.now) attrs.now) n)) }
{
    for attr in attrs {
        put_attr(alloc, places, owner, attr)?;
    }
    Ok(())
}

fn put_local(
    alloc: Global,
    places: &mut Places,
    owner: &[u8],
    local: &Typed,
) -> Result<(), NoMemory>
    ensures { OnOk result ((n : List ℕ) → meaning places.new n
        ≡ or_else (meaning places.old n) (spec.place_in (spec.declared_local owner.now local.now ∷ []) n)) }
{
    let words = owned(alloc, "local ", owner, local.name.text.as_slice())?;
    places.put(alloc, &words, local.name.place)
}

fn put_locals(
    alloc: Global,
    places: &mut Places,
    owner: &[u8],
    locals: &[Typed],
) -> Result<(), NoMemory>
    ensures { OnOk result ((n : List ℕ) → meaning places.new n
        ≡ or_else (meaning places.old n) (spec.place_in (map (spec.declared_local owner.now) locals.now) n)) }
{
    for local in locals {
        put_local(alloc, places, owner, local)?;
    }
    Ok(())
}

fn put_literal(alloc: Global, places: &mut Places, literal: &Quoted) -> Result<(), NoMemory>
    ensures { OnOk result ((n : List ℕ) → meaning places.new n
        ≡ or_else (meaning places.old n) (spec.place_in (spec.declared_literal literal.now ∷ []) n)) }
{
    let words = quoted(alloc, "literal ", literal.text.as_slice())?;
    places.put(alloc, &words, literal.place)
}

fn put_literals(alloc: Global, places: &mut Places, literals: &[Quoted]) -> Result<(), NoMemory>
    ensures { OnOk result ((n : List ℕ) → meaning places.new n
        ≡ or_else (meaning places.old n) (spec.place_in (map spec.declared_literal literals.now) n)) }
{
    for literal in literals {
        put_literal(alloc, places, literal)?;
    }
    Ok(())
}

// Puts what a declaration declares.
fn put_declared(alloc: Global, places: &mut Places, decl: &Decl) -> Result<(), NoMemory>
    ensures { OnOk result ((n : List ℕ) → meaning places.new n
        ≡ or_else (meaning places.old n) (spec.place_in (spec.declared (tree_of decl.now)) n)) }
{
    match decl {
        Decl::Operators(name, _) | Decl::Lexeme(name, _) => put(alloc, places, "phylum ", name),
        Decl::Attributes(owner, attrs) => {
            put_attrs(alloc, places, owner.text.as_slice(), attrs.as_slice())
        }
        Decl::Equations(_, owner, locals, _) => {
            put_locals(alloc, places, owner.text.as_slice(), locals.as_slice())
        }
        Decl::Schemes(_, op, _, _) => put(alloc, places, "schemes of ", op),
        Decl::Function(_, name, _, _) => put(alloc, places, "function ", name),
        Decl::Productions(name, _) => put(alloc, places, "nonterminal ", name),
        Decl::Levels(_, literals, _) => put_literals(alloc, places, literals.as_slice()),
        Decl::Root(_)
        | Decl::Listed(_)
        | Decl::Optional(..)
        | Decl::Transform(..)
        | Decl::Entry(..) => Ok(()),
    }
}

/// Where these declarations first declare things, by their words.
pub fn places(alloc: Global, decls: &[Decl]) -> Result<Index<Position>, NoMemory>
    ensures { IfOk result (λ places. (n : List ℕ) → meaning places n ≡ spec.declared_at (trees_of decls.now) n) }
{
    let mut places = Index::new(alloc);
    for decl in decls {
        put_declared(alloc, &mut places, decl)?;
    }
    Ok(places)
}
