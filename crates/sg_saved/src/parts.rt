//! The parts of a saved term.
ghost use Rattle.std.specs.Prelude.{◌≡◌, ◌++◌, OnOk};
ghost use Rattle.sg_saved_form.specs.Files.{Whole, Quote, Flag, escaped_byte, spelled};
ghost use Rattle.sg_saved.specs.Spelling.{operator_name};

use itoa::Buffer;
use sg_kinds::ids::OpId;
use sg_kinds::memory::NoMemory;
use sg_kinds::spec::Spec;

/// The name of an operator, empty where there is none of this number.
pub fn operator_name(spec: &Spec, op: OpId) -> &[u8]
    ensures { result.now ≡ operator_name spec.now.ops op }
{
    match spec.ops.place(op.number) {
        Some(operator) => operator.name.as_slice(),
        None => b"",
    }
}

/// Writes a truth value.
pub fn put_truth(out: &mut Vec<u8>, b: bool) -> Result<(), NoMemory>
    ensures { OnOk result (out.new.items ≡ out.old.items ++ spelled (Flag b)) }
{
    let word: &[u8] = if b { b"true" } else { b"false" };
    out.extend_from_slice(word)?;
    Ok(())
}

/// Writes a number.
pub fn put_number(out: &mut Vec<u8>, n: &i64) -> Result<(), NoMemory>
    ensures { OnOk result (out.new.items ≡ out.old.items ++ spelled (Whole n.now)) }
{
    let mut digits = Buffer::new();
    out.extend_from_slice(digits.format(*n).as_bytes())?;
    Ok(())
}

/// Writes a byte of a text, a quote, a backslash and a newline behind a backslash.
fn put_byte(out: &mut Vec<u8>, b: u8) -> Result<(), NoMemory>
    ensures { OnOk result (out.new.items ≡ out.old.items ++ escaped_byte b) }
{
    match b {
        b'"' => out.extend_from_slice(b"\\\"")?,
        b'\\' => out.extend_from_slice(b"\\\\")?,
        b'\n' => out.extend_from_slice(b"\\n")?,
        _ => out.push(b)?,
    }
    Ok(())
}

/// Writes a text in double quotes.
pub fn put_text(out: &mut Vec<u8>, text: &[u8]) -> Result<(), NoMemory>
    ensures { OnOk result (out.new.items ≡ out.old.items ++ spelled (Quote text.now)) }
{
    out.push(b'"')?;
    for b in text {
        put_byte(out, *b)?;
    }
    out.push(b'"')?;
    Ok(())
}
