// Words, lines and limits, written behind what stands.
ghost use Rattle.std.specs.Prelude.{◌≡◌, ◌++◌, ◌∷◌, OnOk};
ghost use Rattle.std.specs.Fmt.{decimal};
ghost use Rattle.sg_faults.specs.FaultLine.{line_text, named_text, counted_word as word_of};

use sg_kinds::decimal::write_number;
use sg_kinds::fault::{Counted, Position};
use sg_kinds::memory::NoMemory;
use sg_kinds::text::Text;
use std::alloc::Global;

/// Writes the number of a line.
pub fn write_line(alloc: Global, out: &mut Vec<u8>, line: u32) -> Result<(), NoMemory>
    ensures { OnOk result (out.new.items ≡ out.old.items ++ line_text line) }
{
    out.extend_from_slice(b" line ")?;
    write_number(alloc, out, line as u64)
}

/// Writes the line of a place, and a name.
pub fn write_named(
    alloc: Global,
    out: &mut Vec<u8>,
    place: Position,
    name: &Text,
) -> Result<(), NoMemory>
    ensures { OnOk result (out.new.items ≡ out.old.items ++ named_text place name.now) }
{
    write_line(alloc, out, place.line)?;
    out.push(b' ')?;
    out.extend_from_slice(name.as_slice())?;
    Ok(())
}

/// What is counted, as a word.
pub fn counted_word(what: Counted) -> &'static str
    ensures { result.now ≡ word_of what }
{
    match what {
        Counted::Phyla => "phyla",
        Counted::Operators => "operators",
        Counted::Arity => "arity",
        Counted::Attributes => "attributes",
        Counted::Locals => "locals",
        Counted::Functions => "functions",
        Counted::Parameters => "parameters",
        Counted::Transforms => "transforms",
        Counted::Schemes => "schemes",
        Counted::Productions => "productions",
        Counted::Symbols => "symbols",
        Counted::Views => "views",
    }
}

/// Writes what is over its limit, and the count.
pub fn write_limit(
    alloc: Global,
    out: &mut Vec<u8>,
    what: Counted,
    count: usize,
) -> Result<(), NoMemory>
    ensures { OnOk result (out.new.items ≡ out.old.items ++ 32 ∷ (word_of what ++ 32 ∷ decimal count)) }
{
    out.push(b' ')?;
    out.extend_from_slice(counted_word(what).as_bytes())?;
    out.push(b' ')?;
    write_number(alloc, out, count as u64)
}
