// Values as they are shown, and the schemes in which nodes are shown.
ghost use Rattle.std.specs.Prelude.{◌≡◌, ◌%◌, ◌<◌, ◌++◌, length, slice_get, None, Some, MatchOption, OnOk};
ghost use Rattle.sg_kinds.specs.InView.{in_view};
ghost use Rattle.sg_kinds.specs.Specification.{has_shape, is_lexical_shape, phylum_name};
ghost use Rattle.sg_pool.specs.Pools.{value_at};
ghost use Rattle.sg_unparse.specs.Printing.{fault_text, text_shown, value_text, scheme_of, schemes_of};

use itoa::Buffer;
use sg_kinds::ids::{OpId, PhylumId, ValueId};
use sg_kinds::marks::{FaultKind, Shape};
use sg_kinds::memory::NoMemory;
use sg_kinds::row::item;
use sg_kinds::spec::{Scheme, Spec};
use sg_pool::entry::PoolEntry;
use sg_pool::pool::Pool;

// the scheme of a number among those of an operator
#[tactic(auto, using(crate::proofs::Schemed::below_stays))]
fn scheme_in(schemes: &[Scheme], number: u32) -> Option<&Scheme>
    ensures { MatchOption result (slice_get schemes.now (number % length schemes.now) ≡ None)
        (λ s. slice_get schemes.now (number % length schemes.now) ≡ Some s.now) }
{
    let at = number as usize;
    let count = schemes.len();
    if at < count {
        return Some(item(schemes, at));
    }
    if count == 0 {
        return None;
    }
    Some(item(schemes, at % count))
}

/// The schemes of an operator in a view: its own there, or else its ordinary ones; none where there is no such
/// operator.
pub fn schemes_in(spec: &Spec, view: u32, op: OpId) -> &[Scheme]
    ensures { result.now ≡ schemes_of (in_view spec.now view) op }
{
    match spec.ops.place(op.number) {
        Some(operator) => match spec.views.schemes(view, op) {
            Some(schemes) => schemes,
            None => operator.schemes.as_slice(),
        },
        None => &[],
    }
}

/// The scheme of a number of an operator in a view, where numbers are counted round; None exactly where there is no
/// such operator or it has no scheme.
pub fn scheme_of(spec: &Spec, view: u32, op: OpId, number: u32) -> Option<&Scheme>
    ensures { MatchOption result (scheme_of (in_view spec.now view) op number ≡ None)
        (λ s. scheme_of (in_view spec.now view) op number ≡ Some s.now) }
{
    scheme_in(schemes_in(spec, view, op), number)
}

/// A fault as it is shown.
pub fn fault_text(kind: FaultKind) -> &'static [u8]
    ensures { result.now ≡ fault_text kind }
{
    match kind {
        FaultKind::Fuel => b"<fuel>",
        FaultKind::Depth => b"<depth>",
        FaultKind::Size => b"<size>",
        FaultKind::Divide => b"<divide>",
        FaultKind::Overflow => b"<overflow>",
        FaultKind::NoMatch => b"<nomatch>",
        FaultKind::Convert => b"<convert>",
    }
}

// whether a phylum is one of lexemes
fn is_lexical(spec: &Spec, p: PhylumId) -> bool
    ensures { result ≡ has_shape spec.now.phyla is_lexical_shape p }
{
    match spec.phyla.place(p.number) {
        Some(phylum) => matches!(phylum.shape, Shape::Lexemes(_)),
        None => false,
    }
}

// the name of a phylum
fn phylum_name(spec: &Spec, p: PhylumId) -> &[u8]
    ensures { result.now ≡ phylum_name spec.now.phyla p }
{
    match spec.phyla.place(p.number) {
        Some(phylum) => phylum.name.as_slice(),
        None => b"",
    }
}

/// Writes a text of a phylum as it is shown: the empty text of a lexeme phylum as the phylum's name in angle brackets.
pub fn write_text(out: &mut Vec<u8>, spec: &Spec, p: PhylumId, text: &[u8]) -> Result<(), NoMemory>
    ensures { OnOk result (out.new.items ≡ out.old.items ++ text_shown spec.now p text.now) }
{
    if text.is_empty() && is_lexical(spec, p) {
        out.push(b'<')?;
        out.extend_from_slice(phylum_name(spec, p))?;
        out.push(b'>')?;
        return Ok(());
    }
    out.extend_from_slice(text)?;
    Ok(())
}

/// Writes the value of a number in the pool as a value of a phylum is shown.
pub fn write_value(
    out: &mut Vec<u8>,
    spec: &Spec,
    p: PhylumId,
    pool: &Pool,
    id: ValueId,
) -> Result<(), NoMemory>
    requires { id < length pool.now }
    ensures { OnOk result (out.new.items ≡ out.old.items ++ value_text spec.now p (value_at pool.now id)) }
{
    match pool.entry(id) {
        PoolEntry::Bool(b) => {
            let text: &[u8] = if *b { b"true" } else { b"false" };
            out.extend_from_slice(text)?;
        }
        PoolEntry::Int(n) => {
            let mut digits = Buffer::new();
            out.extend_from_slice(digits.format(*n).as_bytes())?;
        }
        PoolEntry::Text(text) => write_text(out, spec, p, text.as_slice())?,
        PoolEntry::Tree(_, _) => {}
        PoolEntry::Fault(kind) => out.extend_from_slice(fault_text(*kind))?,
    }
    Ok(())
}
