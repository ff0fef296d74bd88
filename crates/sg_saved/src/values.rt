//! The value of a saved term.
ghost use Rattle.std.specs.Prelude.{◌≡◌, ◌++◌, List, length, reverse, IfOk};
ghost use Rattle.sg_kinds.specs.Values.{Value as IsValue};
ghost use Rattle.sg_saved_form.specs.Files.{Raw};
ghost use Rattle.sg_saved_form.specs.Notes.{IsOutline};
ghost use Rattle.sg_saved.specs.Misfits.{value_of};
ghost use Rattle.sg_kinds.specs.declared.spec.Spec.{Spec};
ghost use Rattle.sg_saved.specs.Heads.{AreNames, head_of, kid_values};

use crate::heads::{Head, head_at};
use sg_kinds::ids::OpId;
use sg_kinds::memory::NoMemory;
use sg_kinds::value::Value;
use sg_names::index::Index;
use sg_names::table::Callable;
use sg_saved_form::Outline;
use std::alloc::Global;

/// Takes so many values off a stack, the top one first.
fn take_top(values: &mut Vec<Value>, count: usize) -> Result<Vec<Value>, NoMemory>
    ensures { (taken rest : List IsValue) → values.old.items ≡ reverse rest ++ reverse taken → length taken ≡ count
        → IfOk result (λ v. (v.items ≡ taken) × (values.new.items ≡ reverse rest)) }
{
    let mut taken = values.split_off(values.len().saturating_sub(count))?;
    taken.reverse();
    Ok(taken)
}

/// The value of a subterm, whose children's values are on top of a stack.
fn value_on(values: &mut Vec<Value>, head: Head) -> Result<Value, NoMemory>
    ensures { (spec : Spec) (r : Raw) (rest : List IsValue) → head ≡ head_of spec r
        → values.old.items ≡ reverse rest ++ reverse (kid_values spec r)
        → IfOk result (λ v. (v ≡ value_of spec r) × (values.new.items ≡ reverse rest)) }
{
    match head {
        Head::Node(op, kids) => {
            let kids = take_top(values, kids as usize)?;
            Ok(Value::tree(op.unwrap_or(OpId { number: 0 }), kids))
        }
        Head::Leaf(value) => Ok(value),
    }
}

/// The value of a file's term, which is made from the last node to the first.
pub fn value_in(
    alloc: Global,
    names: &Index<Callable>,
    bytes: &[u8],
    outline: &Outline,
) -> Result<Value, NoMemory>
    requires { IsOutline bytes.now outline.now }
    ensures { (spec : Spec) (o : IsOutline bytes.now outline.now) → AreNames spec.ops names.now
        → IfOk result (λ v. v ≡ value_of spec o.raw) }
{
    let mut values: Vec<Value> = Vec::new(alloc);
    for k in (0..outline.notes.len()).rev() {
        let head = head_at(alloc, names, bytes, outline.notes[k])?;
        let value = value_on(&mut values, head)?;
        values.push(value)?;
    }
    match values.pop() {
        Some(value) => Ok(value),
        None => Err(NoMemory),
    }
}
