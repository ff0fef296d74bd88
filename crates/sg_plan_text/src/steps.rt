// The steps of the visits of operators.
ghost use Rattle.std.specs.Prelude.{◌≡◌, ◌<◌, ◌^◌, ◌++◌, flat_map, OnOk};
ghost use Rattle.sg_kinds.specs.Visits.{row_at};
ghost use Rattle.sg_useless.specs.Uses.{numbered};
ghost use Rattle.sg_plan_text.specs.Plan as meaning;

use sg_faults::write_vertex;
use sg_kinds::decimal::write_number;
use sg_kinds::ids::PhylumId;
use sg_kinds::memory::NoMemory;
use sg_kinds::plans::{PlanStep, Plans};
use sg_kinds::row::Row;
use sg_kinds::spec::{Operator, Spec};
use sg_printed::{number, phylum_name, vertex_at};
use std::alloc::Global;

// Writes an argument by its phylum and its number.
fn write_child(
    alloc: Global,
    out: &mut Vec<u8>,
    spec: &Spec,
    operator: &Operator,
    k: u32,
    phylum: PhylumId,
) -> Result<(), NoMemory>
    ensures { OnOk result (out.new.items ≡ out.old.items ++ meaning.child_text spec.now.phyla operator.now k phylum) }
{
    let number = number(operator, k as usize, phylum)?;
    out.extend_from_slice(phylum_name(spec.phyla.as_slice(), phylum.number as usize))?;
    out.push(b'$')?;
    write_number(alloc, out, number as u64)
}

fn write_step(
    alloc: Global,
    out: &mut Vec<u8>,
    spec: &Spec,
    operator: &Operator,
    step: PlanStep,
) -> Result<(), NoMemory>
    ensures { OnOk result (out.new.items ≡ out.old.items ++ meaning.step_text spec.now operator.now step) }
{
    match step {
        PlanStep::Eval(rule) => {
            let Some(rule) = spec.rules.place(rule.number) else {
                return Ok(());
            };
            let vertex = vertex_at(alloc, spec.phyla.as_slice(), operator, rule.target)?;
            write_vertex(alloc, out, &vertex)
        }
        PlanStep::Visit(k, visit) => {
            out.extend_from_slice(b"visit ")?;
            write_number(alloc, out, visit as u64)?;
            out.extend_from_slice(b" of ")?;
            match operator.args.place(k) {
                Some(phylum) => write_child(alloc, out, spec, operator, k, *phylum),
                None => Ok(()),
            }
        }
    }
}

// Writes a step behind another one.
fn write_next(
    alloc: Global,
    out: &mut Vec<u8>,
    spec: &Spec,
    operator: &Operator,
    step: PlanStep,
) -> Result<(), NoMemory>
    ensures { OnOk result (out.new.items ≡ out.old.items ++ meaning.later_step spec.now operator.now step) }
{
    out.extend_from_slice(b", ")?;
    write_step(alloc, out, spec, operator, step)
}

// Writes steps behind others.
fn write_later(
    alloc: Global,
    out: &mut Vec<u8>,
    spec: &Spec,
    operator: &Operator,
    steps: &[PlanStep],
) -> Result<(), NoMemory>
    ensures { OnOk result (out.new.items ≡ out.old.items ++ flat_map (meaning.later_step spec.now operator.now) steps.now) }
{
    for step in steps {
        write_next(alloc, out, spec, operator, *step)?;
    }
    Ok(())
}

fn write_steps(
    alloc: Global,
    out: &mut Vec<u8>,
    spec: &Spec,
    operator: &Operator,
    steps: &[PlanStep],
) -> Result<(), NoMemory>
    ensures { OnOk result (out.new.items ≡ out.old.items ++ meaning.steps_text spec.now operator.now steps.now) }
{
    match steps {
        [] => Ok(()),
        [first, later @ ..] => {
            out.push(b' ')?;
            write_step(alloc, out, spec, operator, *first)?;
            write_later(alloc, out, spec, operator, later)
        }
    }
}

// Writes an operator with its phylum and the number of a visit that is counted from 0.
fn write_owner(
    alloc: Global,
    out: &mut Vec<u8>,
    spec: &Spec,
    operator: &Operator,
    k: usize,
) -> Result<(), NoMemory>
    requires { k < 2 ^ 63 }
    ensures { OnOk result (out.new.items ≡ out.old.items ++ meaning.owner_name spec.now operator.now k) }
{
    out.extend_from_slice(operator.name.as_slice())?;
    out.extend_from_slice(b" of ")?;
    out.extend_from_slice(phylum_name(spec.phyla.as_slice(), operator.phylum.number as usize))?;
    out.extend_from_slice(b", visit ")?;
    write_number(alloc, out, k as u64 + 1)?;
    out.push(b':')?;
    Ok(())
}

// Writes a visit of an operator, counted from 0.
fn write_visit(
    alloc: Global,
    out: &mut Vec<u8>,
    spec: &Spec,
    operator: &Operator,
    k: usize,
    steps: &[PlanStep],
) -> Result<(), NoMemory>
    requires { k < 2 ^ 63 }
    ensures { OnOk result (out.new.items ≡ out.old.items ++ meaning.visit_steps spec.now operator.now k steps.now) }
{
    write_owner(alloc, out, spec, operator, k)?;
    write_steps(alloc, out, spec, operator, steps)?;
    out.push(b'\n')?;
    Ok(())
}

// Writes the visits of an operator.
fn write_visits(
    alloc: Global,
    out: &mut Vec<u8>,
    spec: &Spec,
    operator: &Operator,
    visits: &[Row<PlanStep>],
) -> Result<(), NoMemory>
    ensures { OnOk result (out.new.items ≡ out.old.items ++ numbered (meaning.visit_steps spec.now operator.now) 0 visits.now) }
{
    for (k, steps) in visits.iter().enumerate() {
        write_visit(alloc, out, spec, operator, k, steps.as_slice())?;
    }
    Ok(())
}

// The steps of the visits of an operator.
fn steps_of(plans: &Plans, op: usize) -> &[Row<PlanStep>]
    ensures { result.now ≡ row_at plans.now.steps op }
{
    match plans.steps.as_slice().get(op) {
        Some(visits) => visits.as_slice(),
        None => &[],
    }
}

/// Writes the visits of operators with their steps.
pub fn write_operators(
    alloc: Global,
    out: &mut Vec<u8>,
    spec: &Spec,
    plans: &Plans,
) -> Result<(), NoMemory>
    ensures { OnOk result (out.new.items ≡ out.old.items ++ numbered (meaning.operator_text spec.now plans.now) 0 spec.now.ops) }
{
    for (op, operator) in spec.ops.as_slice().iter().enumerate() {
        write_visits(alloc, out, spec, operator, steps_of(plans, op))?;
    }
    Ok(())
}
