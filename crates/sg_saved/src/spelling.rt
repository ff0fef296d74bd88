//! Values as terms.
ghost use Rattle.std.specs.Prelude.{◌≡◌, ◌++◌, OnOk, IfOk};
ghost use Rattle.sg_kinds.specs.Values.{row_of};
ghost use Rattle.sg_saved_form.specs.Files.{spelled_all};
ghost use Rattle.sg_saved.specs.Spelling.{raws_of, spelled};

use crate::parts::{operator_name, put_number, put_text, put_truth};
use sg_kinds::memory::NoMemory;
use sg_kinds::spec::Spec;
use sg_kinds::value::{Value, ValueNode};
use std::alloc::Global;

/// Writes a value.
#[cycle(spell)]
#[tactic(auto, using(sg_kinds::proofs::Kids::depth_at))]
fn put_value(out: &mut Vec<u8>, spec: &Spec, v: &Value) -> Result<(), NoMemory>
    ensures { OnOk result (out.new.items ≡ out.old.items ++ spelled spec.now v.now) }
{
    match &v.node {
        ValueNode::Bool(b) => put_truth(out, *b),
        ValueNode::Int(n) => put_number(out, n),
        ValueNode::Text(text) => put_text(out, text.as_slice()),
        ValueNode::Tree(op, kids) => {
            out.extend_from_slice(operator_name(spec, *op))?;
            out.push(b'(')?;
            put_values(out, spec, kids)?;
            out.push(b')')?;
            Ok(())
        }
        ValueNode::Fault(_) => put_text(out, b""),
    }
}

/// Writes values with a comma between them.
#[cycle(spell)]
#[tactic(auto, using(sg_kinds::proofs::Kids::depth_at))]
fn put_values(out: &mut Vec<u8>, spec: &Spec, values: &[Value]) -> Result<(), NoMemory>
    ensures { OnOk result (out.new.items
        ≡ out.old.items ++ spelled_all (raws_of spec.now (row_of values.now))) }
{
    for i in 0..values.len() {
        if i > 0 {
            out.push(b',')?;
        }
        put_value(out, spec, &values[i])?;
    }
    Ok(())
}

/// The spelling of a value as a term, without the frame of a file. A fault is spelled as the empty text.
pub fn spell(alloc: Global, spec: &Spec, v: &Value) -> Result<Vec<u8>, NoMemory>
    ensures { IfOk result (λ out. out.items ≡ spelled spec.now v.now) }
{
    let mut out = Vec::new(alloc);
    put_value(&mut out, spec, v)?;
    Ok(out)
}
