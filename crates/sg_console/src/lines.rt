// A line of at most so many bytes off a reader.
ghost use Rattle.std.specs.Prelude.{◌≡◌, ◌≤◌, [], vec_capacity, length, IfOk, OnOk, IfSome, IsTrue, ◌↔◌};
ghost use Rattle.std.specs.Io.BufRead.{DropsThrough};
ghost use Rattle.sg_console.specs.Console.{IsTaken};
ghost use Rattle.sg_console.specs.Lines.{IsNext, IsFilled};

use crate::{Failed, Taken};
use std::io::{ErrorKind, Read};

// The next byte, or none at the end. A read that a signal interrupts is tried again.
fn next_byte<R: Read>(reader: &mut R) -> Result<Option<u8>, Failed>
    ensures { IfOk result (IsNext (R.remaining reader.old) (R.remaining reader.new)) }
{
    let mut byte = [0u8; 1];
    for _ in 0..u64::MAX {
        match reader.read(&mut byte) {
            Ok(0) => return Ok(None),
            Ok(_) => return Ok(Some(byte[0])),
            Err(e) => {
                if e.kind() != ErrorKind::Interrupted {
                    return Err(Failed);
                }
            }
        }
    }
    Err(Failed)
}

// Fills the line up to its newline, to the end of the input, or to `most` bytes: whether to one of the first two.
fn fill<R: Read>(reader: &mut R, line: &mut Vec<u8>, most: usize) -> Result<bool, Failed>
    requires empty { line.old.items ≡ [] }
    requires room { most ≤ vec_capacity line.old }
    ensures filled { IfOk result (IsFilled most (R.remaining reader.old) (R.remaining reader.new) line.new.items) }
    ensures capacity { vec_capacity line.new ≡ vec_capacity line.old }
{
    while line.len() < most {
        let Some(byte) = next_byte(reader)? else {
            return Ok(true);
        };
        line.push_reserved(byte);
        if byte == b'\n' {
            return Ok(true);
        }
    }
    Ok(false)
}

// Passes over what is left of the line, with its newline: whether there was a byte.
fn pass_over<R: Read>(reader: &mut R) -> Result<bool, Failed>
    ensures some { IfOk result (λ some. IfSome (R.remaining reader.old) (λ xs. IsTrue some ↔ (1 ≤ length xs))) }
    ensures rest { OnOk result (DropsThrough (R.remaining reader.old) (R.remaining reader.new) 10) }
{
    let mut some = false;
    for _ in 0..u64::MAX {
        let Some(byte) = next_byte(reader)? else {
            return Ok(some);
        };
        some = true;
        if byte == b'\n' {
            return Ok(some);
        }
    }
    Err(Failed)
}

/// Takes a line off the reader as `Console::take_line` does.
pub fn take_from<R: Read>(reader: &mut R, line: &mut Vec<u8>, most: usize) -> Result<Taken, Failed>
    requires empty { line.old.items ≡ [] }
    requires room { most ≤ vec_capacity line.old }
    requires some { 1 ≤ most }
    ensures taken { IfOk result (IsTaken most (R.remaining reader.old) (R.remaining reader.new) line.new.items) }
    ensures capacity { vec_capacity line.new ≡ vec_capacity line.old }
{
    if fill(reader, line, most)? {
        return Ok(if line.is_empty() {
            Taken::End
        } else {
            Taken::Line
        });
    }
    if !pass_over(reader)? {
        return Ok(Taken::Line);
    }
    line.clear();
    Ok(Taken::Long)
}
