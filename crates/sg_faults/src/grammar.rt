// Conflicts of a grammar.
ghost use Rattle.std.specs.Prelude.{◌≡◌, ◌++◌, OnOk};
ghost use Rattle.sg_faults.specs.FaultLine.{conflict_text, item_text, spaced, symbol_word};

use sg_kinds::fault::{PrintedConflict, PrintedItem, PrintedSymbol};
use sg_kinds::memory::NoMemory;

/// Writes a symbol: `end`, `~P` for the marker of phylum P, a literal in its quotes, or a name.
pub fn write_symbol(out: &mut Vec<u8>, symbol: &PrintedSymbol) -> Result<(), NoMemory>
    ensures { OnOk result (out.new.items ≡ out.old.items ++ symbol_word symbol.now) }
{
    match symbol {
        PrintedSymbol::End => out.extend_from_slice(b"end")?,
        PrintedSymbol::Marker(phylum) => {
            out.push(b'~')?;
            out.extend_from_slice(phylum.as_slice())?;
        }
        PrintedSymbol::Literal(text) => {
            out.push(b'\'')?;
            out.extend_from_slice(text.as_slice())?;
            out.push(b'\'')?;
        }
        PrintedSymbol::Name(name) => out.extend_from_slice(name.as_slice())?,
    }
    Ok(())
}

fn write_symbols(out: &mut Vec<u8>, symbols: &[PrintedSymbol]) -> Result<(), NoMemory>
    ensures { OnOk result (out.new.items ≡ out.old.items ++ spaced symbol_word symbols.now) }
{
    for symbol in symbols {
        out.push(b' ')?;
        write_symbol(out, symbol)?;
    }
    Ok(())
}

/// Writes an item, its left side first, with a `.` at the dot.
pub fn write_item(out: &mut Vec<u8>, item: &PrintedItem) -> Result<(), NoMemory>
    ensures { OnOk result (out.new.items ≡ out.old.items ++ item_text item.now) }
{
    match &item.left {
        None => out.extend_from_slice(b"start")?,
        Some(name) => out.extend_from_slice(name.as_slice())?,
    }
    out.extend_from_slice(b" ::=")?;
    let symbols = item.right.as_slice();
    let (read, ahead) = symbols.split_at((item.dot as usize).min(symbols.len()));
    write_symbols(out, read)?;
    out.extend_from_slice(b" .")?;
    write_symbols(out, ahead)
}

/// Writes the prefix, the terminal and the two items of a conflict.
pub fn write_conflict(out: &mut Vec<u8>, conflict: &PrintedConflict) -> Result<(), NoMemory>
    ensures { OnOk result (out.new.items ≡ out.old.items ++ conflict_text conflict.now) }
{
    out.extend_from_slice(b"after")?;
    write_symbols(out, conflict.prefix.as_slice())?;
    out.extend_from_slice(b" on ")?;
    write_symbol(out, &conflict.terminal)?;
    out.extend_from_slice(b": ")?;
    write_item(out, &conflict.first)?;
    out.extend_from_slice(b" | ")?;
    write_item(out, &conflict.second)
}
