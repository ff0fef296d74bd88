// Scripts.
ghost use Rattle.std.specs.Prelude.{◌≡◌, ◌≤◌, ◌≢◌, ◌++◌, true, false, length, None, Some, Ok, Err, IfOk, OnOk, IfErr};
ghost use Rattle.std.specs.Str.Lines.{lines};
ghost use Rattle.sg_script.specs.Script.{meaning_of, commands_said, commands_in, is_unknown, fault_in, script_of};
ghost use Rattle.sg_script.specs.declared.fault.ScriptFault.TheVariants.{Line};

use crate::command::Command;
use crate::fault::ScriptFault;
use crate::lines::{Said, first_line, meaning_of};
use sg_kinds::limits::{COMMANDS, TEXT_BYTES};
use std::alloc::Global;

// puts the command of a line, where it says one, to those before it
fn take_line(
    alloc: Global,
    line: &[u8],
    number: usize,
    commands: &mut Vec<Command>,
) -> Result<(), ScriptFault>
    ensures ok { OnOk result (commands.new.items ≡ commands.old.items ++ commands_said (meaning_of line.now)) }
    ensures known { OnOk result (is_unknown (meaning_of line.now) ≡ false) }
    ensures number { IfErr result (λ f. f ≢ ScriptFault.NoMemory → f ≡ Line number) }
    ensures unknown { IfErr result (λ f. f ≢ ScriptFault.NoMemory → is_unknown (meaning_of line.now) ≡ true) }
{
    match meaning_of(alloc, line)? {
        Said::Nothing => Ok(()),
        Said::Command(command) => {
            commands.push(command)?;
            Ok(())
        }
        Said::Unknown => Err(ScriptFault::Line(number)),
    }
}

// the commands of all lines
fn read_lines(alloc: Global, bytes: &[u8]) -> Result<Vec<Command>, ScriptFault>
    requires { length bytes.now ≤ 1048576 }
    ensures ok { IfOk result (λ cs. cs.items ≡ commands_in (lines bytes.now)) }
    ensures known { IfOk result (λ cs. fault_in (lines bytes.now) ≡ None) }
    ensures fault { IfErr result (λ f. f ≢ ScriptFault.NoMemory → fault_in (lines bytes.now) ≡ Some f) }
{
    let mut commands = Vec::new(alloc);
    let mut number = 1;
    let mut rest = bytes;
    while let Some(first) = first_line(rest) {
        take_line(alloc, first.line, number, &mut commands)?;
        rest = first.rest;
        number += 1;
    }
    if !rest.is_empty() {
        take_line(alloc, rest, number, &mut commands)?;
    }
    Ok(commands)
}

/// The commands that the lines of a script spell, in their order.
///
/// An empty line and a line that begins with `#` say nothing. Of several faults the first is answered: `Long` where
/// there are over 1,048,576 bytes, else `Line` with the number of the first line that is no command, counted from 1
/// over all lines, else `Many` with the number of commands where it is over 10,000. `NoMemory` may come at any text.
#[tactic(auto, unfolding(crate::specs::Script::script_of))]
pub fn read(alloc: Global, bytes: &[u8]) -> Result<Vec<Command>, ScriptFault>
    ensures ok { IfOk result (λ cs. script_of bytes.now ≡ Ok cs.items) }
    ensures few { IfOk result (λ cs. length cs.items ≤ 10000) }
    ensures fault { IfErr result (λ f. f ≢ ScriptFault.NoMemory → script_of bytes.now ≡ Err f) }
{
    if bytes.len() > TEXT_BYTES {
        return Err(ScriptFault::Long);
    }
    let commands = read_lines(alloc, bytes)?;
    let count = commands.len();
    if count > COMMANDS {
        return Err(ScriptFault::Many(count));
    }
    Ok(commands)
}
