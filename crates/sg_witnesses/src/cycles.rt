// A cycle of dependencies step by step.
ghost use Rattle.std.specs.Prelude.{◌≡◌, ◌++◌, IfOk, OnOk};
ghost use Rattle.sg_kinds.specs.Dependencies.{phylum_there};
ghost use Rattle.sg_kinds.specs.Sound.{IsSound};
ghost use Rattle.sg_kinds.specs.Specification.{rules_of};
ghost use Rattle.sg_ast.specs.View.{trees_of};
ghost use Rattle.sg_faults.specs.FaultLine.{fault_line as line_of, vertex_word};
ghost use Rattle.sg_reasons.specs.Reasons.{IsOf, IsPath};
ghost use Rattle.sg_reports.specs.Orders.{printed_order};
ghost use Rattle.sg_reports.specs.Places.{operator_places as places_of};
ghost use Rattle.sg_reports.specs.Vertices.{printed_vertices, vertex_in};
ghost use Rattle.sg_witnesses.specs.Cycles.{TellsCycle, TellsCycleOf, attr_name, cause_text, in_operator, number_word, layers_text, path_text, phylum_word, reason_text, reasons_text, related_text, step_text, steps_text, way_text};

use crate::same::expect_same;
use sg_ast::decl::Decl;
use sg_dependencies::OrderFault;
use sg_faults::{write_line, write_vertex};
use sg_kinds::decimal::write_number;
use sg_kinds::fault::{Position, PrintedVertex, SpecFault};
use sg_kinds::ids::{OpId, PhylumId};
use sg_kinds::memory::NoMemory;
use sg_kinds::row::Row;
use sg_kinds::spec::{Phylum, Spec};
use sg_load::{assembled, declarations, join, split};
use sg_orders::order;
use sg_reasons::{Cause, Path, Reason, Step, Way, path};
use sg_reports::orders::order_fault;
use sg_reports::places::{operator_places, place_in};
use sg_reports::symbols::phylum_name;
use sg_reports::vertices::{operator_name, vertices_of};
use std::alloc::Global;

fn write_vertex_of(
    alloc: Global,
    out: &mut Vec<u8>,
    vertices: &[PrintedVertex],
    number: usize,
) -> Result<(), NoMemory>
    ensures { OnOk result (out.new.items ≡ out.old.items ++ vertex_word (vertex_in vertices.now number)) }
{
    match vertices.get(number) {
        Some(vertex) => write_vertex(alloc, out, vertex),
        None => Ok(()),
    }
}

// The phylum at an occurrence of an operator.
fn phylum_at(spec: &Spec, op: OpId, at: u32) -> Option<PhylumId>
    ensures { result ≡ phylum_there spec.now.ops op at }
{
    let operator = spec.ops.place(op.number)?;
    if at == 0 {
        return Some(operator.phylum);
    }
    operator.args.place(at - 1).copied()
}

fn write_phylum(
    alloc: Global,
    out: &mut Vec<u8>,
    phyla: &Row<Phylum>,
    phylum: Option<PhylumId>,
) -> Result<(), NoMemory>
    ensures { OnOk result (out.new.items ≡ out.old.items ++ phylum_word phyla.now phylum) }
{
    match phylum {
        Some(phylum) => {
            out.extend_from_slice(phylum_name(alloc, phyla, phylum)?.as_slice())?;
            Ok(())
        }
        None => Ok(()),
    }
}

// Writes the number of a reason, counted from 1.
fn write_reason_number(alloc: Global, out: &mut Vec<u8>, place: usize) -> Result<(), NoMemory>
    ensures { OnOk result (out.new.items ≡ out.old.items ++ number_word place) }
{
    let Some(number) = (place as u64).checked_add(1) else {
        return Err(NoMemory);
    };
    out.push(b'(')?;
    write_number(alloc, out, number)?;
    out.push(b')')?;
    Ok(())
}

// Writes the phylum at an occurrence, whose layers are the cause.
fn write_layers(
    alloc: Global,
    out: &mut Vec<u8>,
    spec: &Spec,
    op: OpId,
    at: u32,
) -> Result<(), NoMemory>
    ensures { OnOk result (out.new.items ≡ out.old.items ++ layers_text spec.now op at) }
{
    let phylum = phylum_at(spec, op, at);
    out.extend_from_slice(b"by the layers of ")?;
    write_phylum(alloc, out, &spec.phyla, phylum)
}

fn write_cause(
    alloc: Global,
    out: &mut Vec<u8>,
    spec: &Spec,
    op: OpId,
    cause: Cause,
) -> Result<(), NoMemory>
    ensures { OnOk result (out.new.items ≡ out.old.items ++ cause_text spec.now op cause) }
{
    match cause {
        Cause::ByEquation(_) => {
            out.extend_from_slice(b"by an equation")?;
            Ok(())
        }
        Cause::ByPhylum(at, place) => {
            out.extend_from_slice(if at == 0 { b"above " } else { b"below " })?;
            write_reason_number(alloc, out, place)
        }
        Cause::ByLayers(at, _, _) => write_layers(alloc, out, spec, op, at),
    }
}

fn write_step(
    alloc: Global,
    out: &mut Vec<u8>,
    spec: &Spec,
    op: OpId,
    vertices: &[PrintedVertex],
    from: usize,
    step: &Step,
) -> Result<(), NoMemory>
    ensures { OnOk result (out.new.items ≡ out.old.items ++ step_text spec.now op vertices.now from step.now) }
{
    out.extend_from_slice(b"      ")?;
    write_vertex_of(alloc, out, vertices, from)?;
    out.extend_from_slice(b" -> ")?;
    write_vertex_of(alloc, out, vertices, step.to)?;
    out.extend_from_slice(b"   ")?;
    write_cause(alloc, out, spec, op, step.cause)?;
    out.push(b'\n')?;
    Ok(())
}

fn vertices(alloc: Global, spec: &Spec, op: OpId) -> Result<Vec<PrintedVertex>, NoMemory>
    ensures { IfOk result (λ v. v.items ≡ printed_vertices spec.now op) }
{
    match spec.ops.place(op.number) {
        Some(operator) => vertices_of(alloc, &spec.phyla, operator),
        None => Ok(Vec::new(alloc)),
    }
}

// Writes each step of a way between these vertices.
fn write_steps(
    alloc: Global,
    out: &mut Vec<u8>,
    spec: &Spec,
    op: OpId,
    vertices: &[PrintedVertex],
    way: &Way,
) -> Result<(), NoMemory>
    ensures { OnOk result (out.new.items
        ≡ out.old.items ++ steps_text spec.now op vertices.now way.now.from way.now.steps) }
{
    let mut from = way.from;
    for step in way.steps.as_slice() {
        write_step(alloc, out, spec, op, vertices, from, step)?;
        from = step.to;
    }
    Ok(())
}

fn write_way(
    alloc: Global,
    out: &mut Vec<u8>,
    spec: &Spec,
    op: OpId,
    way: &Way,
) -> Result<(), NoMemory>
    ensures { OnOk result (out.new.items ≡ out.old.items ++ way_text spec.now op way.now) }
{
    let vertices = vertices(alloc, spec, op)?;
    write_steps(alloc, out, spec, op, &vertices, way)
}

// Writes an operator with the line on which it is declared.
fn write_operator(
    alloc: Global,
    out: &mut Vec<u8>,
    spec: &Spec,
    places: &[Position],
    op: OpId,
) -> Result<(), NoMemory>
    ensures { OnOk result (out.new.items ≡ out.old.items ++ in_operator spec.now places.now op) }
{
    out.extend_from_slice(b"in ")?;
    out.extend_from_slice(operator_name(alloc, spec, op)?.as_slice())?;
    out.push(b',')?;
    write_line(alloc, out, place_in(places, op.number).line)?;
    out.extend_from_slice(b":\n")?;
    Ok(())
}

fn write_attr(
    out: &mut Vec<u8>,
    phyla: &Row<Phylum>,
    phylum: PhylumId,
    slot: u32,
) -> Result<(), NoMemory>
    ensures { OnOk result (out.new.items ≡ out.old.items ++ attr_name phyla.now phylum slot) }
{
    if let Some(phylum) = phyla.place(phylum.number)
        && let Some(attr) = phylum.attrs.place(slot)
    {
        out.extend_from_slice(attr.name.as_slice())?;
    }
    Ok(())
}

// Writes the two attributes of a phylum that a reason relates.
fn write_related(
    alloc: Global,
    out: &mut Vec<u8>,
    phyla: &Row<Phylum>,
    reason: &Reason,
) -> Result<(), NoMemory>
    ensures { OnOk result (out.new.items ≡ out.old.items ++ related_text phyla.now reason.now) }
{
    out.extend_from_slice(phylum_name(alloc, phyla, reason.phylum)?.as_slice())?;
    out.extend_from_slice(b": ")?;
    write_attr(out, phyla, reason.phylum, reason.from)?;
    out.extend_from_slice(b" -> ")?;
    write_attr(out, phyla, reason.phylum, reason.to)
}

fn write_reason(
    alloc: Global,
    out: &mut Vec<u8>,
    spec: &Spec,
    places: &[Position],
    place: usize,
    reason: &Reason,
) -> Result<(), NoMemory>
    ensures { OnOk result (out.new.items ≡ out.old.items ++ reason_text spec.now places.now place reason.now) }
{
    out.extend_from_slice(b"  ")?;
    write_reason_number(alloc, out, place)?;
    out.push(b' ')?;
    write_related(alloc, out, &spec.phyla, reason)?;
    out.extend_from_slice(b", ")?;
    write_operator(alloc, out, spec, places, reason.op)?;
    write_way(alloc, out, spec, reason.op, &reason.way)
}

fn write_reasons(
    alloc: Global,
    out: &mut Vec<u8>,
    spec: &Spec,
    places: &[Position],
    reasons: &[Reason],
) -> Result<(), NoMemory>
    ensures { OnOk result (out.new.items ≡ out.old.items ++ reasons_text spec.now places.now 0 reasons.now) }
{
    for (place, reason) in reasons.iter().enumerate() {
        write_reason(alloc, out, spec, places, place, reason)?;
    }
    Ok(())
}

fn write_path(
    alloc: Global,
    out: &mut Vec<u8>,
    spec: &Spec,
    places: &[Position],
    path: &Path,
) -> Result<(), NoMemory>
    ensures { OnOk result (out.new.items ≡ out.old.items ++ path_text spec.now places.now path.now) }
{
    out.extend_from_slice(b"  ")?;
    write_operator(alloc, out, spec, places, path.op)?;
    write_way(alloc, out, spec, path.op, &path.cycle)?;
    write_reasons(alloc, out, spec, places, path.reasons.as_slice())
}

// A record with its fault of the order of evaluation, and the fault's cycle step by step.
#[derive(Drop)]
struct Cyclic {
    spec: Spec,
    fault: OrderFault,
    path: Path,
}

// The record with its fault, which it has.
fn with_cycle(alloc: Global, spec: Spec) -> Result<Cyclic, NoMemory>
    requires { IsSound spec }
    ensures same { IfOk result (λ x. x.spec ≡ spec) }
    ensures path { IfOk result (λ x. IsPath (rules_of x.spec) x.path) }
    ensures of { IfOk result (λ x. IsOf x.fault x.path) }
{
    let (rules, rest) = split(spec);
    let found = order(alloc, &rules);
    match found {
        Ok(_) => Err(NoMemory),
        Err(fault) => {
            let cycle = path(alloc, &rules, &fault)?;
            let spec = join(rules, rest);
            Ok(Cyclic {
                spec,
                fault,
                path: cycle,
            })
        }
    }
}

// The fault of a record as it is printed.
fn printed(
    alloc: Global,
    decls: &[Decl],
    spec: &Spec,
    of: OrderFault,
) -> Result<SpecFault, NoMemory>
    ensures { IfOk result (λ f. f ≡ printed_order spec.now (trees_of decls.now) of) }
{
    let printed = order_fault(alloc, decls, spec, of);
    if matches!(printed, SpecFault::NoMemory) {
        return Err(NoMemory);
    }
    Ok(printed)
}

// Ends with an error where the fault of a record is not printed as this one.
fn expect_printed(
    alloc: Global,
    decls: &[Decl],
    spec: &Spec,
    of: OrderFault,
    fault: &SpecFault,
) -> Result<(), NoMemory>
    ensures { OnOk result (line_of (printed_order spec.now (trees_of decls.now) of) ≡ line_of fault.now) }
{
    let printed = printed(alloc, decls, spec, of)?;
    expect_same(alloc, &printed, fault)
}

// The steps and reasons of a path of a record.
fn path_lines(alloc: Global, decls: &[Decl], spec: &Spec, path: &Path) -> Result<Vec<u8>, NoMemory>
    ensures { IfOk result (λ v. v.items ≡ path_text spec.now (places_of (trees_of decls.now)) path.now) }
{
    let places = operator_places(alloc, decls)?;
    let mut out = Vec::new(alloc);
    write_path(alloc, &mut out, spec, &places, path)?;
    Ok(out)
}

// The same of the fault of a record that is printed as this one.
fn cyclic_lines(
    alloc: Global,
    decls: &[Decl],
    found: Cyclic,
    fault: &SpecFault,
) -> Result<Vec<u8>, NoMemory>
    requires path { IsPath (rules_of found.spec) found.path }
    requires of { IsOf found.fault found.path }
    ensures { IfOk result (λ v. TellsCycleOf (trees_of decls.now) found.spec fault.now v.items) }
{
    let Cyclic {
        spec,
        fault: of,
        path: cycle,
    } = found;
    expect_printed(alloc, decls, &spec, of, fault)?;
    path_lines(alloc, decls, &spec, &cycle)
}

// The cycle of a record.
fn told(alloc: Global, decls: &[Decl], spec: Spec, fault: &SpecFault) -> Result<Vec<u8>, NoMemory>
    requires { IsSound spec }
    ensures { IfOk result (λ v. TellsCycleOf (trees_of decls.now) spec fault.now v.items) }
{
    let found = with_cycle(alloc, spec)?;
    cyclic_lines(alloc, decls, found, fault)
}

/// The cycle of a fault of the text's order of evaluation, step by step, and the reasons of its steps, each once.
pub fn cycle(alloc: Global, bytes: &[u8], fault: &SpecFault) -> Result<Vec<u8>, NoMemory>
    ensures { IfOk result (λ v. TellsCycle bytes.now fault.now v.items) }
{
    // A text with a fault of the order of evaluation has declarations and a record.
    let Ok(decls) = declarations(alloc, bytes) else {
        return Err(NoMemory);
    };
    match assembled(alloc, &decls) {
        Ok(spec) => told(alloc, &decls, spec, fault),
        Err(_) => Err(NoMemory),
    }
}
