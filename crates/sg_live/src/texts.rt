// The texts that are written besides blocks.
ghost use Rattle.std.specs.Prelude.{◌≡◌, [], ◌∷◌, ◌++◌, IfOk, OnOk};
ghost use Rattle.sg_live.specs.Offers.{names_of};
ghost use Rattle.sg_script.specs.Spelled.{escaped, string_of};
ghost use Rattle.sg_live.specs.Texts.{is_question, offers_text};

use sg_kinds::memory::NoMemory;
use std::alloc::Global;

pub const USAGE: &[u8] = b"usage: ssled_live SPEC [W H]\n";

pub const READ_FAULT: &[u8] = b"read fault specification\n";

pub const READ_FAULT_INPUT: &[u8] = b"read fault input\n";

pub const NO_COMMAND: &[u8] = b"! no command\n";

pub const LONG_LINE: &[u8] = b"! long line\n";

pub const NO_MEMORY: &[u8] = b"! no memory\n";

pub const NOT_SHOWN: &[u8] = b"! not shown\n";

/// Whether a line asks which transformations apply.
pub fn is_question(line: &[u8]) -> bool
    ensures { result ≡ is_question line.now }
{
    line == b"?do".as_slice() || line == b"?do\n".as_slice() || line == b"?do\r\n".as_slice()
}

// a byte of a text between quotes, with its escape
fn write_byte(out: &mut Vec<u8>, b: u8) -> Result<(), NoMemory>
    ensures { OnOk result (out.new.items ≡ out.old.items ++ escaped (b ∷ [])) }
{
    match b {
        b'\n' => out.extend_from_slice(b"\\n")?,
        b'"' => out.extend_from_slice(b"\\\"")?,
        b'\\' => out.extend_from_slice(b"\\\\")?,
        other => out.push(other)?,
    }
    Ok(())
}

// a text between quotes
fn write_string(out: &mut Vec<u8>, text: &[u8]) -> Result<(), NoMemory>
    ensures { OnOk result (out.new.items ≡ out.old.items ++ string_of text.now) }
{
    out.push(b'"')?;
    for b in text {
        write_byte(out, *b)?;
    }
    out.push(b'"')?;
    Ok(())
}

/// The answer to the question which transformations apply.
pub fn offers_text(alloc: Global, names: &[&[u8]]) -> Result<Vec<u8>, NoMemory>
    ensures { IfOk result (λ text. text.items ≡ offers_text (names_of names.now)) }
{
    let mut out = Vec::from_slice(alloc, b"! do")?;
    for name in names {
        out.push(b' ')?;
        write_string(&mut out, name)?;
    }
    out.push(b'\n')?;
    Ok(out)
}
