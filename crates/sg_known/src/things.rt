//! What declarations declare, each at its token.
ghost use Rattle.std.specs.Prelude.{◌≡◌, ◌++◌, ◌∷◌, [], map, IfOk, OnOk};
ghost use Rattle.sg_ast.specs.View.{tree_of, trees_of};
ghost use Rattle.sg_known.specs.declared.things.Kind.TheVariants as kind;
ghost use Rattle.sg_known.specs.Things.{literal_thing, named, thing, things as all_things, things_of, view_text as view_text_of};

use sg_ast::decl::{Alt, AttrDecl, Decl};
use sg_ast::name::{Name, Quoted, Typed};
use sg_kinds::fault::Position;
use sg_kinds::memory::NoMemory;
use sg_kinds::text::Text;
use std::alloc::Global;

/// As what a name is declared.
#[derive(Clone, Copy, Debug, PartialEq, Eq)]
pub enum Kind {
    Phylum,
    Lexeme,
    Nonterminal,
    Operator,
    Function,
    Parameter,
    Attribute,
    Local,
    /// a phylum that `list` or `optional` speaks of
    Listing,
    /// an operator of a phylum that has schemes
    Schemes,
    /// a literal of a precedence line
    Literal,
    /// a phylum that is typed in
    Entry,
}

/// A name that is declared, with the name of what it belongs to, and where this belongs, if it does; and the place of
/// its token.
#[derive(Drop)]
pub struct Thing {
    pub kind: Kind,
    pub owner: Text,
    pub within: Text,
    pub name: Text,
    pub place: Position,
}

fn put(
    alloc: Global,
    found: &mut Vec<Thing>,
    kind: Kind,
    owner: &[u8],
    within: &[u8],
    name: &[u8],
    place: Position,
) -> Result<(), NoMemory>
    ensures { OnOk result (found.new.items
        ≡ found.old.items ++ thing kind owner.now within.now name.now place ∷ []) }
{
    let owner = Text::from_slice(alloc, owner)?;
    let within = Text::from_slice(alloc, within)?;
    let name = Text::from_slice(alloc, name)?;
    found.push(Thing {
        kind,
        owner,
        within,
        name,
        place,
    })?;
    Ok(())
}

// Puts what a name's token declares last.
fn put_name(
    alloc: Global,
    found: &mut Vec<Thing>,
    kind: Kind,
    owner: &[u8],
    within: &[u8],
    name: &Name,
) -> Result<(), NoMemory>
    ensures { OnOk result (found.new.items ≡ found.old.items ++ named kind owner.now within.now name.now ∷ []) }
{
    put(
        alloc,
        found,
        kind,
        owner,
        within,
        name.text.as_slice(),
        name.place,
    )
}

// The same of a name that belongs to nothing.
fn put_alone(alloc: Global, found: &mut Vec<Thing>, kind: Kind, name: &Name) -> Result<(), NoMemory>
    ensures { OnOk result (found.new.items ≡ found.old.items ++ named kind [] [] name.now ∷ []) }
{
    put_name(alloc, found, kind, b"", b"", name)
}

fn add_alts(
    alloc: Global,
    found: &mut Vec<Thing>,
    phylum: &Name,
    alts: &[Alt],
) -> Result<(), NoMemory>
    ensures { OnOk result (found.new.items
        ≡ found.old.items ++ map (λ a. named kind.Operator phylum.now.text [] a.name) alts.now) }
{
    for alt in alts {
        put_name(
            alloc,
            found,
            Kind::Operator,
            phylum.text.as_slice(),
            b"",
            &alt.name,
        )?;
    }
    Ok(())
}

fn add_operators(
    alloc: Global,
    found: &mut Vec<Thing>,
    phylum: &Name,
    alts: &[Alt],
) -> Result<(), NoMemory>
    ensures { OnOk result (found.new.items ≡ found.old.items ++ named kind.Phylum [] [] phylum.now
        ∷ map (λ a. named kind.Operator phylum.now.text [] a.name) alts.now) }
{
    put_alone(alloc, found, Kind::Phylum, phylum)?;
    add_alts(alloc, found, phylum, alts)
}

fn add_attributes(
    alloc: Global,
    found: &mut Vec<Thing>,
    owner: &Name,
    attrs: &[AttrDecl],
) -> Result<(), NoMemory>
    ensures { OnOk result (found.new.items
        ≡ found.old.items ++ map (λ a. named kind.Attribute owner.now.text [] a.name) attrs.now) }
{
    for attr in attrs {
        put_name(
            alloc,
            found,
            Kind::Attribute,
            owner.text.as_slice(),
            b"",
            &attr.name,
        )?;
    }
    Ok(())
}

fn add_locals(
    alloc: Global,
    found: &mut Vec<Thing>,
    phylum: &Name,
    op: &Name,
    locals: &[Typed],
) -> Result<(), NoMemory>
    ensures { OnOk result (found.new.items
        ≡ found.old.items ++ map (λ l. named kind.Local op.now.text phylum.now.text l.name) locals.now) }
{
    for local in locals {
        put_name(
            alloc,
            found,
            Kind::Local,
            op.text.as_slice(),
            phylum.text.as_slice(),
            &local.name,
        )?;
    }
    Ok(())
}

fn add_params(
    alloc: Global,
    found: &mut Vec<Thing>,
    function: &Name,
    params: &[Typed],
) -> Result<(), NoMemory>
    ensures { OnOk result (found.new.items
        ≡ found.old.items ++ map (λ p. named kind.Parameter function.now.text [] p.name) params.now) }
{
    for param in params {
        put_name(
            alloc,
            found,
            Kind::Parameter,
            function.text.as_slice(),
            b"",
            &param.name,
        )?;
    }
    Ok(())
}

fn add_function(
    alloc: Global,
    found: &mut Vec<Thing>,
    function: &Name,
    params: &[Typed],
) -> Result<(), NoMemory>
    ensures { OnOk result (found.new.items ≡ found.old.items ++ named kind.Function [] [] function.now
        ∷ map (λ p. named kind.Parameter function.now.text [] p.name) params.now) }
{
    put_alone(alloc, found, Kind::Function, function)?;
    add_params(alloc, found, function, params)
}

fn add_literals(alloc: Global, found: &mut Vec<Thing>, literals: &[Quoted]) -> Result<(), NoMemory>
    ensures { OnOk result (found.new.items ≡ found.old.items ++ map literal_thing literals.now) }
{
    for literal in literals {
        put(
            alloc,
            found,
            Kind::Literal,
            b"",
            b"",
            literal.text.as_slice(),
            literal.place,
        )?;
    }
    Ok(())
}

// The name of a view; nothing for the ordinary one.
fn view_text(view: &Option<Name>) -> &[u8]
    ensures { result.now ≡ view_text_of view.now }
{
    match view {
        Some(view) => view.text.as_slice(),
        None => b"",
    }
}

// Puts what a declaration declares last.
fn add(alloc: Global, found: &mut Vec<Thing>, decl: &Decl) -> Result<(), NoMemory>
    ensures { OnOk result (found.new.items ≡ found.old.items ++ things_of (tree_of decl.now)) }
{
    match decl {
        Decl::Listed(phylum) | Decl::Optional(_, phylum) => {
            put_alone(alloc, found, Kind::Listing, phylum)
        }
        Decl::Operators(phylum, alts) => add_operators(alloc, found, phylum, alts.as_slice()),
        Decl::Lexeme(phylum, _) => put_alone(alloc, found, Kind::Lexeme, phylum),
        Decl::Attributes(owner, attrs) => add_attributes(alloc, found, owner, attrs.as_slice()),
        Decl::Equations(phylum, op, locals, _) => {
            add_locals(alloc, found, phylum, op, locals.as_slice())
        }
        Decl::Schemes(phylum, op, view, _) => {
            let within = view_text(view);
            put_name(
                alloc,
                found,
                Kind::Schemes,
                phylum.text.as_slice(),
                within,
                op,
            )
        }
        Decl::Function(_, name, params, _) => add_function(alloc, found, name, params.as_slice()),
        Decl::Productions(name, _) => put_alone(alloc, found, Kind::Nonterminal, name),
        Decl::Levels(_, literals, _) => add_literals(alloc, found, literals.as_slice()),
        Decl::Entry(phylum, _, _) => put_alone(alloc, found, Kind::Entry, phylum),
        Decl::Root(_) | Decl::Transform(..) => Ok(()),
    }
}

/// What declarations declare, in the order of the text.
pub fn things(alloc: Global, decls: &[Decl]) -> Result<Vec<Thing>, NoMemory>
    ensures { IfOk result (λ v. v.items ≡ all_things (trees_of decls.now)) }
{
    let mut found = Vec::new(alloc);
    for decl in decls {
        add(alloc, &mut found, decl)?;
    }
    Ok(found)
}
