// The lines of a report.
ghost use Rattle.std.specs.Prelude.{◌≡◌, ℕ, ◌<◌, ◌-◌, ◌^◌, ◌++◌, [], ◌∷◌, length, min, OnOk, IfOk};
ghost use Rattle.std.specs.Fmt.{decimal};
ghost use Rattle.sg_kinds.specs.Fits.{Fits};
ghost use Rattle.sg_kinds.specs.Places.{Place, place_of, places_from};
ghost use Rattle.sg_kinds.specs.Sound.{IsSmall};
ghost use Rattle.sg_kinds.specs.Specification.{args_of, attrs_of};
ghost use Rattle.sg_kinds.specs.Terms.{Term as ATerm};
ghost use Rattle.sg_forest.specs.declared.node_id.NodeId.{NodeId as Id};
ghost use Rattle.sg_printing.specs.At.{IsAt};
ghost use Rattle.sg_report.specs.Lines.{path_text, text_of, of_these, lines_at, equations, report_on};

use crate::answers::Report;
use crate::attrs::Named;
use itoa::Buffer;
use sg_forest::NodeId;
use sg_kinds::ids::OpId;
use sg_kinds::memory::NoMemory;
use sg_kinds::row::item;
use sg_kinds::text::Text;
use sg_printing::{Form, phylum_number, text_at};
use sg_terms::Terms;
use std::alloc::Global;

fn write_number(out: &mut Vec<u8>, n: u64) -> Result<(), NoMemory>
    ensures { OnOk result (out.new.items ≡ out.old.items ++ decimal n) }
{
    let mut digits = Buffer::new();
    out.extend_from_slice(digits.format(n).as_bytes())?;
    Ok(())
}

// child numbers from the root on
fn write_path(out: &mut Vec<u8>, path: &[u32]) -> Result<(), NoMemory>
    ensures { OnOk result (out.new.items ≡ out.old.items ++ path_text path.now) }
{
    let [first, rest @ ..] = path else {
        out.push(b'.')?;
        return Ok(());
    };
    write_number(out, *first as u64)?;
    for k in rest {
        out.push(b'.')?;
        write_number(out, *k as u64)?;
    }
    Ok(())
}

// the value of an attribute of a node, as in a saved file
fn write_value(
    alloc: Global,
    out: &mut Vec<u8>,
    terms: &Terms,
    n: NodeId,
    slot: u32,
) -> Result<(), NoMemory>
    requires { (root : Id) × (t : ATerm) × (u : Place) × (x : ATerm) × IsAt terms.now root n t u x }
    ensures { (root : Id) (t : ATerm) (u : Place) (x : ATerm) → IsAt terms.now root n t u x
        → (p : ℕ) → Fits terms.now.spec x p → slot < length (attrs_of terms.now.spec.phyla p)
        → OnOk result (out.new.items ≡ out.old.items ++ text_of terms.now.spec t slot u) }
{
    terms.facts();
    let Some(text) = text_at(alloc, terms, n, slot, Form::Saved)? else {
        return Ok(());
    };
    out.extend_from_slice(text.as_slice())?;
    Ok(())
}

// the line of a node, where it is of the phylum, and how many lines these are
fn write_own(
    alloc: Global,
    out: &mut Vec<u8>,
    path: &[u32],
    terms: &Terms,
    n: NodeId,
    a: &Named,
) -> Result<usize, NoMemory>
    requires at { (root : Id) × (t : ATerm) × (x : ATerm) × IsAt terms.now root n t (place_of path.now) x }
    requires slot { a.now.slot < length (attrs_of terms.now.spec.phyla a.now.phylum) }
    ensures text { (root : Id) (t : ATerm) (x : ATerm) → IsAt terms.now root n t (place_of path.now) x
        → OnOk result (out.new.items ≡ out.old.items ++ lines_at terms.now.spec t a.now (place_of path.now ∷ [])) }
    ensures count { (root : Id) (t : ATerm) (x : ATerm) → IsAt terms.now root n t (place_of path.now) x
        → IfOk result (λ k. k ≡ length (of_these terms.now.spec t a.now (place_of path.now ∷ []))) }
{
    terms.facts();
    let p = phylum_number(terms, n);
    if p != a.phylum {
        return Ok(0);
    }
    write_path(out, path)?;
    out.push(b' ')?;
    write_value(alloc, out, terms, n, a.slot)?;
    out.push(b'\n')?;
    Ok(1)
}

// how many children a node of an operator has
fn kid_count(terms: &Terms, op: OpId) -> u32
    requires { op < length terms.now.spec.ops }
    ensures { result ≡ length (args_of terms.now.spec.ops op) }
{
    terms.facts();
    let operators = terms.spec().ops.as_slice();
    item(operators, op.number as usize).args.len() as u32
}

// the lines of a node of the phylum and of all below it, in preorder, and how many these are
fn write_below(
    alloc: Global,
    out: &mut Vec<u8>,
    path: &mut Vec<u32>,
    terms: &Terms,
    n: NodeId,
    a: &Named,
) -> Result<usize, NoMemory>
    requires at { (root : Id) × (t : ATerm) × (x : ATerm) × IsAt terms.now root n t (place_of path.old.items) x }
    requires slot { a.now.slot < length (attrs_of terms.now.spec.phyla a.now.phylum) }
    ensures path { OnOk result (path.new.items ≡ path.old.items) }
    ensures text { (root : Id) (t : ATerm) (x : ATerm) → IsAt terms.now root n t (place_of path.old.items) x
        → OnOk result (out.new.items
        ≡ out.old.items ++ lines_at terms.now.spec t a.now (places_from (place_of path.old.items) x)) }
    ensures count { (root : Id) (t : ATerm) (x : ATerm) → IsAt terms.now root n t (place_of path.old.items) x
        → IfOk result (λ k. k
        ≡ min (length (of_these terms.now.spec t a.now (places_from (place_of path.old.items) x))) (2 ^ 64 - 1)) }
{
    terms.facts();
    let mut count = write_own(alloc, out, path.as_slice(), terms, n, a)?;
    let Some(op) = terms.op(n) else {
        return Ok(count);
    };
    let kids = kid_count(terms, op);
    for k in 0..kids {
        path.push(k)?;
        let more = write_below(alloc, out, path, terms, terms.kid(n, k as usize), a)?;
        let _ = path.pop();
        count = count.saturating_add(more);
    }
    Ok(count)
}

/// The report on a held term, whose equations are so many.
pub fn report_on(
    alloc: Global,
    terms: &Terms,
    root: NodeId,
    a: &Named,
    evaluated: u64,
) -> Result<Report, NoMemory>
    requires at { (t : ATerm) × IsAt terms.now root root t [] t }
    requires slot { a.now.slot < length (attrs_of terms.now.spec.phyla a.now.phylum) }
    ensures { (t : ATerm) → IsAt terms.now root root t [] t → IsSmall t → evaluated ≡ equations terms.now.spec t
        → IfOk result (λ r. r ≡ report_on terms.now.spec t a.now) }
{
    let mut out = Vec::new(alloc);
    let mut path = Vec::new(alloc);
    let count = write_below(alloc, &mut out, &mut path, terms, root, a)?;
    out.extend_from_slice(b"values ")?;
    write_number(&mut out, count as u64)?;
    out.extend_from_slice(b" evaluated ")?;
    write_number(&mut out, evaluated)?;
    out.push(b'\n')?;
    Ok(Report {
        lines: Text::new(out),
        evaluated,
    })
}
