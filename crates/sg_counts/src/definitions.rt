//! What declarations define, each at its token.
ghost use Rattle.std.specs.Prelude.{◌≡◌, ◌++◌, ◌∷◌, [], map, flat_map, IfOk, OnOk};
ghost use Rattle.sg_kinds.specs.Sound.{base_names, builtin_names};
ghost use Rattle.sg_ast.specs.View.{tree_of, trees_of, expr_of, equation_of, right_of};
ghost use Rattle.sg_counts.specs.Definitions as spec;
ghost use Rattle.sg_counts.specs.declared.definitions.Form.TheVariants as form;
ghost use Rattle.sg_counts.specs.Duplicates.{definitions_in, definitions_of, given, before_text, defined_by, defined, literal_defined, remote_defined, expr_defined};
ghost use Rattle.sg_counts.specs.DefinitionsView.{space_of, seen_of};

use sg_ast::decl::{Alt, AttrDecl, Decl, Equation, Right};
use sg_ast::expr::Expr;
use sg_ast::name::{Name, Quoted, Remote, Typed};
use sg_ast::remotes::remotes;
use sg_kinds::fault::Position;
use sg_kinds::memory::NoMemory;
use std::alloc::Global;

/// A space of names, in which a name is defined once, or its definitions add up.
#[derive(Clone, Copy, PartialEq, Eq, PartialOrd, Ord)]
pub(crate) enum Space<'a> {
    /// Phyla, lexeme phyla and nonterminals.
    Phyla,
    /// Operators, functions and the builtins.
    Callables,
    /// What `list` and `optional` speak of.
    Listings,
    /// The attributes of an owner.
    Attributes(&'a [u8]),
    /// The locals of an operator of a phylum.
    Locals(&'a [u8], &'a [u8]),
    /// The operators of a phylum that have schemes, in the ordinary view or in that with a name.
    Schemes(&'a [u8], Option<&'a [u8]>),
    /// The literals of precedence lines.
    Literals,
    /// The phyla that an atom lists, by the number of its `{`.
    Remotes(u32),
}

/// A name of a space.
#[derive(Clone, Copy, PartialEq, Eq, PartialOrd, Ord)]
pub(crate) struct Key<'a> {
    pub space: Space<'a>,
    pub name: &'a [u8],
}

/// How a name is defined.
#[derive(Clone, Copy, PartialEq, Eq)]
pub enum Form {
    Operators,
    Productions,
    Alone,
}

/// A definition, and the place of its token.
#[derive(Clone, Copy)]
pub struct Definition<K> {
    pub key: K,
    pub form: Form,
    pub place: Position,
}

/// Puts the definition by a text at a place last.
fn define_text<'a>(
    found: &mut Vec<Definition<Key<'a>>>,
    as_form: Form,
    space: Space<'a>,
    name: &'a [u8],
    place: Position,
) -> Result<(), NoMemory>
    ensures { OnOk result (seen_of found.new.items ≡ seen_of found.old.items
        ++ defined_by as_form (space_of space.entry) name.now place ∷ []) }
{
    found.push(Definition {
        key: Key { space, name },
        form: as_form,
        place,
    })?;
    Ok(())
}

/// Puts the definition by a name's token last.
fn define<'a>(
    found: &mut Vec<Definition<Key<'a>>>,
    as_form: Form,
    space: Space<'a>,
    name: &'a Name,
) -> Result<(), NoMemory>
    ensures { OnOk result (seen_of found.new.items ≡ seen_of found.old.items
        ++ defined as_form (space_of space.entry) name.now ∷ []) }
{
    define_text(found, as_form, space, name.text.as_slice(), name.place)
}

/// Puts a name last that is there before each text.
fn give<'a>(
    found: &mut Vec<Definition<Key<'a>>>,
    space: Space<'a>,
    name: &'a [u8],
) -> Result<(), NoMemory>
    ensures { OnOk result (seen_of found.new.items ≡ seen_of found.old.items
        ++ before_text (space_of space.entry) name.now ∷ []) }
{
    let place = Position { token: 0, line: 0 };
    define_text(found, Form::Alone, space, name, place)
}

/// Puts the operators of a phylum last.
fn add_operators<'a>(found: &mut Vec<Definition<Key<'a>>>, alts: &'a [Alt]) -> Result<(), NoMemory>
    ensures { OnOk result (seen_of found.new.items ≡ seen_of found.old.items
        ++ map (λ a. defined form.Alone spec.Callables a.name) alts.now) }
{
    for alt in alts {
        define(found, Form::Alone, Space::Callables, &alt.name)?;
    }
    Ok(())
}

/// Puts a phylum last, and its operators behind it.
fn add_phylum<'a>(
    found: &mut Vec<Definition<Key<'a>>>,
    phylum: &'a Name,
    alts: &'a [Alt],
) -> Result<(), NoMemory>
    ensures { OnOk result (seen_of found.new.items ≡ seen_of found.old.items
        ++ defined form.Operators spec.Phyla phylum.now
        ∷ map (λ a. defined form.Alone spec.Callables a.name) alts.now) }
{
    define(found, Form::Operators, Space::Phyla, phylum)?;
    add_operators(found, alts)
}

/// Puts the attributes of an owner last.
fn add_attributes<'a>(
    found: &mut Vec<Definition<Key<'a>>>,
    owner: &'a Name,
    attrs: &'a [AttrDecl],
) -> Result<(), NoMemory>
    ensures { OnOk result (seen_of found.new.items ≡ seen_of found.old.items
        ++ map (λ a. defined form.Alone (spec.Attributes owner.now.text) a.name) attrs.now) }
{
    for attr in attrs {
        let space = Space::Attributes(owner.text.as_slice());
        define(found, Form::Alone, space, &attr.name)?;
    }
    Ok(())
}

/// Puts the locals of an operator of a phylum last.
fn add_locals<'a>(
    found: &mut Vec<Definition<Key<'a>>>,
    phylum: &'a Name,
    op: &'a Name,
    locals: &'a [Typed],
) -> Result<(), NoMemory>
    ensures { OnOk result (seen_of found.new.items ≡ seen_of found.old.items
        ++ map (λ l. defined form.Alone (spec.Locals phylum.now.text op.now.text) l.name) locals.now) }
{
    for local in locals {
        let space = Space::Locals(phylum.text.as_slice(), op.text.as_slice());
        define(found, Form::Alone, space, &local.name)?;
    }
    Ok(())
}

/// The space of the operators of a phylum that have schemes in a view.
fn schemes_of<'a>(phylum: &'a Name, view: &'a Option<Name>) -> Space<'a>
    ensures { space_of result ≡ spec.Schemes phylum.now.text (spec.view_name view.now) }
{
    match view {
        Some(view) => Space::Schemes(phylum.text.as_slice(), Some(view.text.as_slice())),
        None => Space::Schemes(phylum.text.as_slice(), None),
    }
}

/// Puts the literals of a precedence line last.
fn add_literals<'a>(
    found: &mut Vec<Definition<Key<'a>>>,
    literals: &'a [Quoted],
) -> Result<(), NoMemory>
    ensures { OnOk result (seen_of found.new.items ≡ seen_of found.old.items ++ map literal_defined literals.now) }
{
    for literal in literals {
        let text = literal.text.as_slice();
        define_text(found, Form::Alone, Space::Literals, text, literal.place)?;
    }
    Ok(())
}

/// Puts what an atom lists last.
fn add_remote<'a>(found: &mut Vec<Definition<Key<'a>>>, remote: &'a Remote) -> Result<(), NoMemory>
    ensures { OnOk result (seen_of found.new.items ≡ seen_of found.old.items ++ remote_defined remote.now) }
{
    let space = Space::Remotes(remote.place.token);
    for pair in remote.pairs.as_slice() {
        define(found, Form::Alone, space, &pair.phylum)?;
    }
    Ok(())
}

/// Puts what the atoms of an expression list last.
#[tactic(auto, using(crate::proofs::Walks::one_more_behind))]
fn add_remotes<'a>(
    alloc: Global,
    found: &mut Vec<Definition<Key<'a>>>,
    expr: &'a Expr,
) -> Result<(), NoMemory>
    ensures { OnOk result (seen_of found.new.items ≡ seen_of found.old.items ++ expr_defined (expr_of expr.now)) }
{
    let mut atoms = Vec::new(alloc);
    remotes(expr, &mut atoms)?;
    for remote in &atoms {
        add_remote(found, remote)?;
    }
    Ok(())
}

/// Puts what the atoms of equations list last.
#[tactic(auto, using(crate::proofs::Walks::one_more_behind))]
fn add_equations<'a>(
    alloc: Global,
    found: &mut Vec<Definition<Key<'a>>>,
    equations: &'a [Equation],
) -> Result<(), NoMemory>
    ensures { OnOk result (seen_of found.new.items ≡ seen_of found.old.items
        ++ flat_map (λ e. expr_defined e.expr) (map equation_of equations.now)) }
{
    for equation in equations {
        add_remotes(alloc, found, &equation.expr)?;
    }
    Ok(())
}

/// Puts what the atoms of productions list last.
#[tactic(auto, using(crate::proofs::Walks::one_more_behind))]
fn add_rights<'a>(
    alloc: Global,
    found: &mut Vec<Definition<Key<'a>>>,
    rights: &'a [Right],
) -> Result<(), NoMemory>
    ensures { OnOk result (seen_of found.new.items ≡ seen_of found.old.items
        ++ flat_map (λ r. expr_defined r.expr) (map right_of rights.now)) }
{
    for right in rights {
        add_remotes(alloc, found, &right.expr)?;
    }
    Ok(())
}

/// Puts what a declaration defines last.
fn add<'a>(
    alloc: Global,
    found: &mut Vec<Definition<Key<'a>>>,
    decl: &'a Decl,
) -> Result<(), NoMemory>
    ensures { OnOk result (seen_of found.new.items ≡ seen_of found.old.items ++ definitions_of (tree_of decl.now)) }
{
    match decl {
        Decl::Listed(phylum) | Decl::Optional(_, phylum) => {
            define(found, Form::Alone, Space::Listings, phylum)
        }
        Decl::Operators(phylum, alts) => add_phylum(found, phylum, alts.as_slice()),
        Decl::Lexeme(phylum, _) => define(found, Form::Alone, Space::Phyla, phylum),
        Decl::Attributes(owner, attrs) => add_attributes(found, owner, attrs.as_slice()),
        Decl::Equations(phylum, op, locals, equations) => {
            add_locals(found, phylum, op, locals.as_slice())?;
            add_equations(alloc, found, equations)
        }
        Decl::Schemes(phylum, op, view, _) => {
            define(found, Form::Alone, schemes_of(phylum, view), op)
        }
        Decl::Function(_, name, _, body) => {
            define(found, Form::Alone, Space::Callables, name)?;
            add_remotes(alloc, found, body)
        }
        Decl::Transform(_, _, _, expr) => add_remotes(alloc, found, expr),
        Decl::Productions(name, rights) => {
            define(found, Form::Productions, Space::Phyla, name)?;
            add_rights(alloc, found, rights)
        }
        Decl::Levels(_, literals, _) => add_literals(found, literals.as_slice()),
        Decl::Root(_) | Decl::Entry(..) => Ok(()),
    }
}

/// Puts the base phyla last.
fn give_phyla<'a>(found: &mut Vec<Definition<Key<'a>>>) -> Result<(), NoMemory>
    ensures { OnOk result (seen_of found.new.items ≡ seen_of found.old.items
        ++ map (before_text spec.Phyla) base_names) }
{
    give(found, Space::Phyla, b"BOOL".as_slice())?;
    give(found, Space::Phyla, b"INT".as_slice())?;
    give(found, Space::Phyla, b"STR".as_slice())
}

/// Puts the builtins last.
fn give_builtins<'a>(found: &mut Vec<Definition<Key<'a>>>) -> Result<(), NoMemory>
    ensures { OnOk result (seen_of found.new.items ≡ seen_of found.old.items
        ++ map (before_text spec.Callables) builtin_names) }
{
    give(found, Space::Callables, b"STRtoINT".as_slice())?;
    give(found, Space::Callables, b"INTtoSTR".as_slice())?;
    give(found, Space::Callables, b"STRlen".as_slice())
}

/// The base phyla and the builtins.
fn given<'a>(alloc: Global) -> Result<Vec<Definition<Key<'a>>>, NoMemory>
    ensures { IfOk result (λ v. seen_of v.items ≡ given) }
{
    let mut found = Vec::new(alloc);
    give_phyla(&mut found)?;
    give_builtins(&mut found)?;
    Ok(found)
}

/// What is defined before and by the declarations, in the order of the text.
#[tactic(auto, using(crate::proofs::Walks::one_more))]
pub(crate) fn definitions(
    alloc: Global,
    decls: &[Decl],
) -> Result<Vec<Definition<Key<'_>>>, NoMemory>
    ensures { IfOk result (λ v. seen_of v.items ≡ definitions_in (trees_of decls.now)) }
{
    let mut found = given(alloc)?;
    for decl in decls {
        add(alloc, &mut found, decl)?;
    }
    Ok(found)
}
