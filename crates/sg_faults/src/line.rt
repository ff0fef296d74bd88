// The line of a fault.
ghost use Rattle.std.specs.Prelude.{◌≡◌, ◌++◌, IfOk, OnOk};
ghost use Rattle.sg_faults.specs.FaultLine.{code_of, detail_of, fault_line as line_of};

use crate::cycle::write_cycle;
use crate::grammar::write_conflict;
use crate::words::{write_limit, write_line, write_named};
use sg_kinds::decimal::write_number;
use sg_kinds::fault::SpecFault;
use sg_kinds::memory::NoMemory;
use std::alloc::Global;

/// The code of a fault.
fn code(fault: &SpecFault) -> &'static str
    ensures { result.now ≡ code_of fault.now }
{
    match fault {
        SpecFault::TooLong => "TooLong",
        SpecFault::Byte(_) => "Byte",
        SpecFault::Unclosed(_) => "Unclosed",
        SpecFault::LongNumber(_) => "LongNumber",
        SpecFault::LongName(_) => "LongName",
        SpecFault::Syntax(_) => "Syntax",
        SpecFault::Limit(..) => "Limit",
        SpecFault::Duplicate(..) => "Duplicate",
        SpecFault::UnknownName(..) => "UnknownName",
        SpecFault::ResultCount(..) => "ResultCount",
        SpecFault::RootCount(_) => "RootCount",
        SpecFault::ListShape(..) => "ListShape",
        SpecFault::OptionalShape(..) => "OptionalShape",
        SpecFault::NoCompletion(..) => "NoCompletion",
        SpecFault::RootInherits(..) => "RootInherits",
        SpecFault::TwiceBound(..) => "TwiceBound",
        SpecFault::Arity(..) => "Arity",
        SpecFault::Mismatch(_) => "Mismatch",
        SpecFault::ShownType(_) => "ShownType",
        SpecFault::NotDefinedHere(_) => "NotDefinedHere",
        SpecFault::Twice(_) => "Twice",
        SpecFault::Missing(..) => "Missing",
        SpecFault::NoEnclosing(_) => "NoEnclosing",
        SpecFault::NoScheme(..) => "NoScheme",
        SpecFault::SchemeKids(..) => "SchemeKids",
        SpecFault::SchemeText(_) => "SchemeText",
        SpecFault::PatternForm(..) => "PatternForm",
        SpecFault::EmptyLexeme(..) => "EmptyLexeme",
        SpecFault::EntryTwice(..) => "EntryTwice",
        SpecFault::EntryType(..) => "EntryType",
        SpecFault::Unproductive(..) => "Unproductive",
        SpecFault::States => "States",
        SpecFault::Conflict(..) => "Conflict",
        SpecFault::Direct(..) => "Direct",
        SpecFault::Induced(..) => "Induced",
        SpecFault::Ordered(..) => "Ordered",
        SpecFault::NoMemory => "NoMemory",
    }
}

fn write_detail(alloc: Global, out: &mut Vec<u8>, fault: &SpecFault) -> Result<(), NoMemory>
    ensures { OnOk result (out.new.items ≡ out.old.items ++ detail_of fault.now) }
{
    match fault {
        SpecFault::TooLong | SpecFault::States | SpecFault::NoMemory => Ok(()),
        SpecFault::Byte(line)
        | SpecFault::Unclosed(line)
        | SpecFault::LongNumber(line)
        | SpecFault::LongName(line)
        | SpecFault::Syntax(line) => write_line(alloc, out, *line),
        SpecFault::Mismatch(place)
        | SpecFault::ShownType(place)
        | SpecFault::NotDefinedHere(place)
        | SpecFault::Twice(place)
        | SpecFault::NoEnclosing(place)
        | SpecFault::SchemeText(place) => write_line(alloc, out, place.line),
        SpecFault::Limit(what, count) => write_limit(alloc, out, *what, *count),
        SpecFault::RootCount(count) => {
            out.push(b' ')?;
            write_number(alloc, out, *count as u64)
        }
        SpecFault::Duplicate(place, name)
        | SpecFault::UnknownName(place, name)
        | SpecFault::ResultCount(place, name)
        | SpecFault::ListShape(place, name)
        | SpecFault::OptionalShape(place, name)
        | SpecFault::NoCompletion(place, name)
        | SpecFault::RootInherits(place, name)
        | SpecFault::TwiceBound(place, name)
        | SpecFault::Arity(place, name)
        | SpecFault::Missing(place, name)
        | SpecFault::NoScheme(place, name)
        | SpecFault::SchemeKids(place, name)
        | SpecFault::PatternForm(place, name)
        | SpecFault::EmptyLexeme(place, name)
        | SpecFault::EntryTwice(place, name)
        | SpecFault::EntryType(place, name)
        | SpecFault::Unproductive(place, name) => write_named(alloc, out, *place, name),
        SpecFault::Conflict(place, conflict) => {
            write_line(alloc, out, place.line)?;
            out.push(b' ')?;
            write_conflict(out, conflict)
        }
        SpecFault::Direct(place, op, cycle)
        | SpecFault::Induced(place, op, cycle)
        | SpecFault::Ordered(place, op, cycle) => write_cycle(alloc, out, *place, op, cycle),
    }
}

/// The line that tells a fault: the word `fault`, its code, its detail and a newline.
#[tactic(auto, unfolding(crate::specs::FaultLine::fault_line))]
pub fn fault_line(alloc: Global, fault: &SpecFault) -> Result<Vec<u8>, NoMemory>
    ensures { IfOk result (λ bytes. bytes.items ≡ line_of fault.now) }
{
    let mut out = Vec::new(alloc);
    out.extend_from_slice(b"fault ")?;
    out.extend_from_slice(code(fault).as_bytes())?;
    write_detail(alloc, &mut out, fault)?;
    out.push(b'\n')?;
    Ok(out)
}
