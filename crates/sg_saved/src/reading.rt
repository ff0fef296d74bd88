//! The reading of a saved file.
ghost use Rattle.std.specs.Prelude.{◌≡◌, ◌<◌, ◌⊎◌, ⊤, length, Err, IfOk, IfSome, MatchOption};
ghost use Rattle.sg_kinds.specs.Fits.{Fits};
ghost use Rattle.sg_kinds.specs.Plain.{plain};
ghost use Rattle.sg_kinds.specs.Sound.{IsSound, IsSmall};
ghost use Rattle.sg_kinds.specs.ValueOf as term;
ghost use Rattle.sg_saved.specs.Heads.{AreNames};
ghost use Rattle.sg_saved.specs.Read.{Opened, IsOpened, most_nodes, most_depth};
ghost use Rattle.sg_saved_form.specs.Notes.{IsOutline};
ghost use Rattle.sg_saved.specs.Answers.{opened_as, opened_of};
ghost use Rattle.sg_saved.specs.declared.reading.OpenFault.TheVariants as fault;

use crate::misfits::first_misfit;
use crate::terms::{Source, term_in};
use crate::values::value_in;
use sg_kinds::limits::{DEPTH, NODES};
use sg_kinds::memory::NoMemory;
use sg_kinds::spec::Spec;
use sg_kinds::term::Term;
use sg_kinds::value::Value;
use sg_names::callables::by_operator;
use sg_names::index::Index;
use sg_names::table::Callable;
use sg_saved_form::{FormFault, Outline, outline_of};
use std::alloc::Global;

/// Why a text is not read.
#[derive(Clone, Copy, Debug, PartialEq, Eq)]
pub enum OpenFault {
    /// It is no saved file. Its longest front that begins one has so many bytes.
    Form(usize),
    /// The first subterm that does not fit the phylum wanted at its place begins at this byte.
    Phylum(usize),
    /// The term has so many nodes and is so deep, and one of them is over its limit.
    Size(usize, usize),
    NoMemory,
}

impl From<NoMemory> for OpenFault {
    ghost from_gives = { λ _ e. e ≡ fault.NoMemory };

    fn from(_: NoMemory) -> OpenFault {
        OpenFault::NoMemory
    }
}

/// The value of the term of a file.
fn value_of(alloc: Global, spec: &Spec, bytes: &[u8], outline: &Outline) -> Result<Value, OpenFault>
    requires { IsOutline bytes.now outline.now }
    ensures { MatchOption (opened_of result) ⊤ (IsOpened spec.now bytes.now) }
{
    let names = by_operator(alloc, spec.ops.as_slice())?;
    if let Some(place) = first_misfit(alloc, spec, &names, bytes, outline)? {
        return Err(OpenFault::Phylum(place));
    }
    let nodes = outline.notes.len();
    if nodes > NODES || outline.depth > DEPTH {
        return Err(OpenFault::Size(nodes, outline.depth));
    }
    Ok(value_in(alloc, &names, bytes, outline)?)
}

/// As `read`.
fn opened(alloc: Global, spec: &Spec, bytes: &[u8]) -> Result<Value, OpenFault>
    ensures { MatchOption (opened_of result) ⊤ (IsOpened spec.now bytes.now) }
{
    match outline_of(alloc, bytes) {
        Ok(outline) => value_of(alloc, spec, bytes, &outline),
        Err(FormFault::Form(place)) => Err(OpenFault::Form(place)),
        Err(FormFault::NoMemory) => Err(OpenFault::NoMemory),
    }
}

/// The value that a saved file has, where each subterm fits the phylum that is wanted at its place, and the term has at
/// most 65,536 nodes and is at most 1,024 deep; else the first of these faults. The time is in proportion to the file,
/// but for the looking up of names and the matching of lexemes, and no value deeper than 1,024 is ever made.
pub fn read(alloc: Global, spec: &Spec, bytes: &[u8]) -> Result<Value, OpenFault>
    requires { IsSound spec.now }
    ensures right { MatchOption (opened_of result) ⊤ (IsOpened spec.now bytes.now) }
    ensures only { (a : Opened) → IsOpened spec.now bytes.now a → IfSome (opened_of result) (λ b. b ≡ a) }
    ensures fits { IfOk result (λ v. Fits spec.now (plain spec.now v spec.now.root) spec.now.root) }
    ensures small { IfOk result (λ v. IsSmall (plain spec.now v spec.now.root)) }
{
    opened(alloc, spec, bytes)
}

/// Why a file whose term is over a limit is not read: its first misfit, or its counts.
fn too_large(
    alloc: Global,
    spec: &Spec,
    names: &Index<Callable>,
    bytes: &[u8],
    outline: &Outline,
) -> Result<OpenFault, NoMemory>
    requires names { AreNames spec.now.ops names.now }
    requires file { IsOutline bytes.now outline.now }
    requires over { (most_nodes < length outline.now.notes.items) ⊎ (most_depth < outline.now.depth) }
    ensures { IfOk result (λ fault. MatchOption (opened_as (Err fault)) ⊤ (IsOpened spec.now bytes.now)) }
{
    if let Some(place) = first_misfit(alloc, spec, names, bytes, outline)? {
        return Ok(OpenFault::Phylum(place));
    }
    let nodes = outline.notes.len();
    Ok(OpenFault::Size(nodes, outline.depth))
}

/// The plain term of the value of the term of a file.
fn term_of(alloc: Global, spec: &Spec, bytes: &[u8], outline: &Outline) -> Result<Term, OpenFault>
    requires { IsOutline bytes.now outline.now }
    ensures right { MatchOption (opened_as result) ⊤ (IsOpened spec.now bytes.now) }
    ensures plain { IfOk result (λ t. t ≡ plain spec.now (term.value_of t) spec.now.root) }
{
    let names = by_operator(alloc, spec.ops.as_slice())?;
    let nodes = outline.notes.len();
    if nodes > NODES || outline.depth > DEPTH {
        return Err(too_large(alloc, spec, &names, bytes, outline)?);
    }
    term_in(&Source {
        alloc,
        spec,
        names: &names,
        bytes,
        outline,
    })
}

/// As `read_term`.
fn term_opened(alloc: Global, spec: &Spec, bytes: &[u8]) -> Result<Term, OpenFault>
    ensures right { MatchOption (opened_as result) ⊤ (IsOpened spec.now bytes.now) }
    ensures plain { IfOk result (λ t. t ≡ plain spec.now (term.value_of t) spec.now.root) }
{
    match outline_of(alloc, bytes) {
        Ok(outline) => term_of(alloc, spec, bytes, &outline),
        Err(FormFault::Form(place)) => Err(OpenFault::Form(place)),
        Err(FormFault::NoMemory) => Err(OpenFault::NoMemory),
    }
}

/// As `read`, but the plain term of the value is made in its place, in one walk: no value stands between.
pub fn read_term(alloc: Global, spec: &Spec, bytes: &[u8]) -> Result<Term, OpenFault>
    requires { IsSound spec.now }
    ensures right { MatchOption (opened_as result) ⊤ (IsOpened spec.now bytes.now) }
    ensures only { (a : Opened) → IsOpened spec.now bytes.now a → IfSome (opened_as result) (λ b. b ≡ a) }
    ensures plain { IfOk result (λ t. t ≡ plain spec.now (term.value_of t) spec.now.root) }
    ensures fits { IfOk result (λ t. Fits spec.now t spec.now.root) }
    ensures small { IfOk result IsSmall }
{
    term_opened(alloc, spec, bytes)
}
