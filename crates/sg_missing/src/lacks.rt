// What the equations of operators lack.
ghost use Rattle.std.specs.Prelude.{◌≡◌, ◌++◌, flat_map, slice_get, IfOk, OnOk, Ok};
ghost use Rattle.sg_kinds.specs.Specification.{attrs_of};
ghost use Rattle.sg_ast.specs.View.{trees_of};
ghost use Rattle.sg_faults.specs.FaultLine.{vertex_word};
ghost use Rattle.sg_load.specs.Trees.{trees_in};
ghost use Rattle.sg_equations.specs.Complete.{is_defined as is_defined_by, lacks_slot as lacks_slot_of};
ghost use Rattle.sg_equations.specs.Targets.{IsNarrow, defined_in};
ghost use Rattle.sg_missing.specs.Lacks.{attr_text, defined_of as defined_of_op, handed_text, is_handed as is_handed_by, lack_text, lacking as lacking_of, lacking_at as lacking_there, lacks_of, lacks_text, owner_text, slot_text, text_lacks};

use sg_ast::decl::Decl;
use sg_equations::targets::{Defined, targets_in};
use sg_equations::{is_narrow, owes, slot_count};
use sg_faults::{write_line, write_vertex};
use sg_kinds::fault::PrintedVertex;
use sg_kinds::ids::{OpId, PhylumId};
use sg_kinds::marks::Way;
use sg_kinds::memory::NoMemory;
use sg_kinds::spec::{Attr, Occurrence, Operator};
use sg_load::declarations;
use sg_names::names::Names;
use sg_printed::{number, own_vertex};
use sg_reports::symbols::phylum_name;
use sg_tables::tables::tables;
use std::alloc::Global;

// What the equations of an operator define.
fn defined_of(alloc: Global, defined: &[Defined], op: OpId) -> Result<Vec<Defined>, NoMemory>
    ensures { IfOk result (λ v. v.items ≡ defined_of_op defined.now op) }
{
    let mut of = Vec::new(alloc);
    for equation in defined {
        if equation.op == op {
            of.push(*equation)?;
        }
    }
    Ok(of)
}

fn is_defined(defined: &[Defined], op: OpId, o: Occurrence) -> bool
    ensures { result ≡ is_defined_by defined.now op o }
{
    defined.iter().any(|equation| {
        equation.op == op && (equation.target.at == o.at && equation.target.slot == o.slot)
    })
}

// Whether an operator owes an occurrence that none of these equations defines.
fn lacks_slot(names: &Names, defined: &[Defined], op: OpId, o: Occurrence) -> bool
    requires { IsNarrow names.now }
    ensures { result ≡ lacks_slot_of names.now defined.now op o.at o.slot }
{
    owes(names, op, o) && !is_defined(defined, op, o)
}

// Puts what an operator lacks at one of its occurrences behind the others.
#[tactic(auto, using(crate::proofs::Below::lacking_more, crate::proofs::Below::lacking_same))]
fn add_lacking(
    names: &Names,
    defined: &[Defined],
    op: OpId,
    at: u32,
    lacking: &mut Vec<Occurrence>,
) -> Result<(), NoMemory>
    requires { IsNarrow names.now }
    ensures { OnOk result (lacking.new.items ≡ lacking.old.items ++ lacking_there names.now defined.now op at) }
{
    for slot in 0..slot_count(names, op, at) {
        let o = Occurrence {
            at,
            slot: slot as u32,
        };
        if lacks_slot(names, defined, op, o) {
            lacking.push(o)?;
        }
    }
    Ok(())
}

// All that an operator lacks.
#[tactic(auto, using(crate::proofs::Below::flat_more))]
fn lacking(
    alloc: Global,
    names: &Names,
    defined: &[Defined],
    op: OpId,
) -> Result<Vec<Occurrence>, NoMemory>
    requires { IsNarrow names.now }
    ensures { IfOk result (λ v. v.items ≡ lacking_of names.now defined.now op) }
{
    let mut lacking = Vec::new(alloc);
    for at in 0..names.args(op).len() + 1 {
        add_lacking(names, defined, op, at as u32, &mut lacking)?;
    }
    Ok(lacking)
}

fn is_handed(attrs: &[Attr], attr: &Attr) -> bool
    ensures { result ≡ is_handed_by attrs.now attr.now }
{
    attrs.iter().any(|other| {
        other.way == Way::Inherited
            && (attr.name.as_slice() == other.name.as_slice() && attr.of == other.of)
    })
}

// Writes an attribute of an argument, and where the left side has the same the equation that hands it on.
fn write_attr(
    alloc: Global,
    out: &mut Vec<u8>,
    vertex: &PrintedVertex,
    attrs: &[Attr],
    attr: &Attr,
) -> Result<(), NoMemory>
    ensures { OnOk result (out.new.items ≡ out.old.items ++ handed_text (vertex_word vertex.now) attrs.now attr.now) }
{
    write_vertex(alloc, out, vertex)?;
    if is_handed(attrs, attr) {
        out.extend_from_slice(b", such as ")?;
        write_vertex(alloc, out, vertex)?;
        out.extend_from_slice(b" = $$.")?;
        out.extend_from_slice(attr.name.as_slice())?;
        out.push(b';')?;
    }
    Ok(())
}

// The same of the attribute of this slot of an argument of that phylum.
fn write_argument(
    alloc: Global,
    out: &mut Vec<u8>,
    names: &Names,
    operator: &Operator,
    k: usize,
    phylum: PhylumId,
    slot: u32,
) -> Result<(), NoMemory>
    ensures { OnOk result (out.new.items ≡ out.old.items
        ++ attr_text names.now.phyla operator.now k phylum (slice_get (attrs_of names.now.phyla phylum) slot)) }
{
    let Some(attr) = names.attrs(phylum).get(slot as usize) else {
        return Ok(());
    };
    let name = phylum_name(alloc, &names.table().phyla, phylum)?;
    let number = number(operator, k, phylum)?;
    let vertex = PrintedVertex::Argument(name, number, attr.name.copy(alloc)?);
    write_attr(alloc, out, &vertex, names.attrs(operator.phylum), attr)
}

// Writes an occurrence of an operator.
fn write_slot(
    alloc: Global,
    out: &mut Vec<u8>,
    names: &Names,
    operator: &Operator,
    o: Occurrence,
) -> Result<(), NoMemory>
    ensures { OnOk result (out.new.items ≡ out.old.items ++ slot_text names.now.phyla operator.now o.at o.slot) }
{
    if o.at == 0 {
        let attrs = names.attrs(operator.phylum);
        let vertex = own_vertex(alloc, attrs, operator.locals.as_slice(), o.slot as usize)?;
        return write_vertex(alloc, out, &vertex);
    }
    let k = o.at - 1;
    match operator.args.place(k) {
        Some(phylum) => { write_argument(alloc, out, names, operator, k as usize, *phylum, o.slot) }
        None => Ok(()),
    }
}

// Writes an operator with its phylum and the line on which it is declared.
fn write_owner(
    alloc: Global,
    out: &mut Vec<u8>,
    names: &Names,
    operator: &Operator,
    line: u32,
) -> Result<(), NoMemory>
    ensures { OnOk result (out.new.items ≡ out.old.items ++ owner_text names.now.phyla operator.now line) }
{
    let phylum = phylum_name(alloc, &names.table().phyla, operator.phylum)?;
    out.extend_from_slice(b"  ")?;
    out.extend_from_slice(phylum.as_slice())?;
    out.extend_from_slice(b" : ")?;
    out.extend_from_slice(operator.name.as_slice())?;
    out.push(b',')?;
    write_line(alloc, out, line)
}

// Writes a line for what an operator lacks.
fn write_lack(
    alloc: Global,
    out: &mut Vec<u8>,
    names: &Names,
    operator: &Operator,
    line: u32,
    o: Occurrence,
) -> Result<(), NoMemory>
    ensures { OnOk result (out.new.items ≡ out.old.items ++ lack_text names.now.phyla operator.now line o) }
{
    write_owner(alloc, out, names, operator, line)?;
    out.extend_from_slice(b", lacks ")?;
    write_slot(alloc, out, names, operator, o)?;
    out.push(b'\n')?;
    Ok(())
}

// The same of each of these.
fn write_lines(
    alloc: Global,
    out: &mut Vec<u8>,
    names: &Names,
    operator: &Operator,
    line: u32,
    lacking: &[Occurrence],
) -> Result<(), NoMemory>
    ensures { OnOk result (out.new.items ≡ out.old.items
        ++ flat_map (lack_text names.now.phyla operator.now line) lacking.now) }
{
    for o in lacking {
        write_lack(alloc, out, names, operator, line, *o)?;
    }
    Ok(())
}

// Writes all that an operator lacks.
fn write_operator(
    alloc: Global,
    out: &mut Vec<u8>,
    names: &Names,
    defined: &[Defined],
    op: OpId,
) -> Result<(), NoMemory>
    requires { IsNarrow names.now }
    ensures { OnOk result (out.new.items ≡ out.old.items ++ lacks_of names.now defined.now op) }
{
    let defined = defined_of(alloc, defined, op)?;
    let lacking = lacking(alloc, names, &defined, op)?;
    let table = names.table();
    match (table.ops.place(op.number), table.op_places.place(op.number)) {
        (Some(operator), Some(place)) => {
            write_lines(alloc, out, names, operator, place.line, &lacking)
        }
        _ => Ok(()),
    }
}

// Writes all that operators lack.
#[tactic(auto, using(crate::proofs::Below::flat_more))]
fn write_operators(
    alloc: Global,
    out: &mut Vec<u8>,
    names: &Names,
    defined: &[Defined],
) -> Result<(), NoMemory>
    requires { IsNarrow names.now }
    ensures { OnOk result (out.new.items ≡ out.old.items ++ lacks_text names.now defined.now) }
{
    for number in 0..names.table().ops.len() {
        let op = OpId {
            number: number as u32,
        };
        write_operator(alloc, out, names, defined, op)?;
    }
    Ok(())
}

// The same of declarations with these names.
fn write_named(
    alloc: Global,
    out: &mut Vec<u8>,
    decls: &[Decl],
    names: &Names,
) -> Result<(), NoMemory>
    ensures { OnOk result (out.new.items
        ≡ out.old.items ++ lacks_text names.now (defined_in names.now (trees_of decls.now))) }
{
    if !is_narrow(names) {
        return Err(NoMemory);
    }
    let defined = targets_in(alloc, decls, names)?;
    write_operators(alloc, out, names, &defined)
}

// The same of declarations.
fn write_lacking(alloc: Global, out: &mut Vec<u8>, decls: &[Decl]) -> Result<(), NoMemory>
    ensures { OnOk result (out.new.items ≡ out.old.items ++ text_lacks (Ok (trees_of decls.now))) }
{
    let names = tables(alloc, decls)?;
    write_named(alloc, out, decls, &names)
}

/// All that the operators of a text with declarations lack, as lines.
pub fn lacks(alloc: Global, bytes: &[u8]) -> Result<Vec<u8>, NoMemory>
    ensures { IfOk result (λ v. v.items ≡ text_lacks (trees_in bytes.now)) }
{
    // A text whose verdict is that an equation is missing has declarations.
    let Ok(decls) = declarations(alloc, bytes) else {
        return Err(NoMemory);
    };
    let mut out = Vec::new(alloc);
    write_lacking(alloc, &mut out, &decls)?;
    Ok(out)
}
