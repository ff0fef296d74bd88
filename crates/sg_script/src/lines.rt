// Lines of a text, and what each says.
ghost use Rattle.std.specs.Prelude.{◌≡◌, ◌<◌, ◌∷◌, ◌==◌, length, position, None, IfOk, IfSome};
ghost use Rattle.std.specs.Str.Lines.{lines, strip_carriage_return};
ghost use Rattle.sg_script.specs.Script.{last_line, says_nothing, meaning_of};

use crate::command::Command as Spelled;
use crate::rows::command_of;
use sg_kinds::memory::NoMemory;
use std::alloc::Global;

/// A line, and what follows its end.
#[derive(Clone, Copy)]
pub struct FirstLine<'a> {
    pub line: &'a [u8],
    pub rest: &'a [u8],
}

// the place of the first newline
fn newline_at(bytes: &[u8]) -> Option<usize>
    ensures { result ≡ position (λ b. b == 10) bytes.now }
{
    bytes.iter().position(|b| *b == b'\n')
}

// a line without the carriage return at its end
fn without_return(line: &[u8]) -> &[u8]
    ensures { result.now ≡ strip_carriage_return line.now }
{
    let len = line.len();
    if len > 0 && line[len - 1] == b'\r' {
        &line[..len - 1]
    } else {
        line
    }
}

/// The first line that ends, and what follows it; None where no line ends.
#[tactic(auto, using(crate::proofs::FirstLines::last_line_is))]
pub fn first_line(bytes: &[u8]) -> Option<FirstLine<'_>>
    ensures line { IfSome result (λ f. lines bytes.now ≡ f.line.now ∷ lines f.rest.now) }
    ensures shorter { IfSome result (λ f. length f.rest.now < length bytes.now) }
    ensures last { result ≡ None → lines bytes.now ≡ last_line bytes.now }
{
    match newline_at(bytes) {
        Some(end) => Some(FirstLine {
            line: without_return(&bytes[..end]),
            rest: &bytes[end + 1..],
        }),
        None => None,
    }
}

/// What a line says: nothing, a command, or what is no command.
#[derive(Drop)]
pub enum Said {
    Nothing,
    Command(Spelled),
    Unknown,
}

// whether a line says nothing
fn says_nothing(line: &[u8]) -> bool
    ensures { result ≡ says_nothing line.now }
{
    match line {
        [] => true,
        [first, ..] => *first == b'#',
    }
}

/// What a line says.
#[tactic(auto, unfolding(crate::specs::Script::meaning_of))]
pub fn meaning_of(alloc: Global, line: &[u8]) -> Result<Said, NoMemory>
    ensures { IfOk result (λ s. s ≡ meaning_of line.now) }
{
    if says_nothing(line) {
        return Ok(Said::Nothing);
    }
    match command_of(alloc, line)? {
        Some(command) => Ok(Said::Command(command)),
        None => Ok(Said::Unknown),
    }
}
