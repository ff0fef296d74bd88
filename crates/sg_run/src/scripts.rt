// The fetch of the script, and what may be wrong with what it brings.
ghost use Rattle.std.specs.Prelude.{◌≡◌, ◌≢◌, ◌++◌, ◌∷◌, ◌≤◌, ℕ, List, [], length, IfOk, IfErr, Ok, Err};
ghost use Rattle.std.specs.Fmt.{decimal};
ghost use Rattle.sg_outside.specs.Shelf.{ShelfState};
ghost use Rattle.sg_replies.specs.declared.reply.Reply.{Reply};
ghost use Rattle.sg_script.specs.declared.command.Command.{Command};
ghost use Rattle.sg_script.specs.Script.{script_of};
ghost use Rattle.sg_output.specs.declared.status.Status.TheVariants.{ScriptFault as ScriptFaultStatus};
ghost use Rattle.sg_output.specs.Output.{Output, text};
ghost use Rattle.sg_output.specs.OutputOf.{scanned, scripted, script_fault_text, with_script};
ghost use Rattle.sg_output.specs.Opening.{IsQuiet, IsScriptOf};
ghost use Rattle.sg_output.specs.Ran.{Ends};
ghost use Rattle.sg_output.specs.Parts.{Passed, Played};
ghost use Rattle.sg_output.specs.World.{world};

use crate::Status;
use crate::finishing::finish;
use crate::opening::{MOST, fetch};
use sg_kinds::memory::NoMemory;
use sg_outside::{Shelf, Sink};
use sg_replies::{Reply, add};
use sg_script::{Command, ScriptFault, read};
use std::alloc::Global;

const READ_FAULT: &[u8] = b"read fault script\n";

const LONG: &[u8] = b"script long\n";

/// The line of these words and a number.
pub fn numbered(alloc: Global, words: &[u8], n: usize) -> Result<Vec<u8>, NoMemory>
    ensures { IfOk result (λ line. line.items ≡ words.now ++ decimal n ++ 10 ∷ []) }
{
    let mut line = words.to_vec(alloc)?;
    line.extend_from_slice(n.to_string(alloc)?.as_bytes())?;
    line.push(b'\n')?;
    Ok(line)
}

/// The line of a fault of a script.
fn fault_line(alloc: Global, fault: &ScriptFault) -> Result<Vec<u8>, NoMemory>
    ensures { IfOk result (λ line. line.items ≡ script_fault_text fault.now) }
{
    match fault {
        ScriptFault::Long => Ok(LONG.to_vec(alloc)?),
        ScriptFault::Line(n) => numbered(alloc, b"script line ", *n),
        ScriptFault::Many(n) => numbered(alloc, b"script many ", *n),
        ScriptFault::NoMemory => Ok(Vec::new(alloc)),
    }
}

/// Ends the run by the line of a fault of a script.
fn refuse<K: Sink>(alloc: Global, fault: &ScriptFault, sink: &mut K) -> Status
    ensures { (shelf : ShelfState) (n : ℕ) → Ends (world shelf (K.state sink.old) n)
        (text ScriptFaultStatus (script_fault_text fault.now)) [] result (world shelf (K.state sink.new) n) }
{
    match fault_line(alloc, fault) {
        Ok(line) => finish(sink, line.as_slice(), Status::ScriptFault),
        Err(_) => Status::Memory,
    }
}

/// Ends the run by why these bytes are no script: want of memory, or the line of the fault.
fn end_by<K: Sink>(alloc: Global, bytes: &[u8], fault: &ScriptFault, sink: &mut K) -> Status
    requires { fault.now ≢ ScriptFault.NoMemory → script_of bytes.now ≡ Err fault.now }
    ensures { (next : List Command → Output) → ((commands : List Command) → IsQuiet (next commands))
        → (shelf : ShelfState) (n : ℕ)
        → Ends (world shelf (K.state sink.old) n) (scanned (script_of bytes.now) next) [] result
        (world shelf (K.state sink.new) n) }
{
    match fault {
        ScriptFault::NoMemory => Status::Memory,
        _ => refuse(alloc, fault, sink),
    }
}

/// The commands that these bytes spell. An error says with which status the run is over.
fn judge<K: Sink>(alloc: Global, bytes: &[u8], sink: &mut K) -> Result<Vec<Command>, Status>
    ensures read { IfOk result (λ commands. script_of bytes.now ≡ Ok commands.items) }
    ensures few { IfOk result (λ commands. length commands.items ≤ 10000) }
    ensures quiet { IfOk result (λ _. K.state sink.new ≡ K.state sink.old) }
    ensures ended { IfErr result (λ status. (next : List Command → Output)
        → ((commands : List Command) → IsQuiet (next commands)) → (shelf : ShelfState) (n : ℕ)
        → Ends (world shelf (K.state sink.old) n) (scanned (script_of bytes.now) next) [] status
        (world shelf (K.state sink.new) n)) }
{
    match read(alloc, bytes) {
        Ok(commands) => Ok(commands),
        Err(fault) => Err(end_by(alloc, bytes, &fault, sink)),
    }
}

/// The commands of the script that a reply brought. An error says with which status the run is over.
fn judge_reply<K: Sink>(alloc: Global, reply: &Reply, sink: &mut K) -> Result<Vec<Command>, Status>
    ensures read { IfOk result (λ commands. IsScriptOf reply.now commands.items) }
    ensures few { IfOk result (λ commands. length commands.items ≤ 10000) }
    ensures quiet { IfOk result (λ _. K.state sink.new ≡ K.state sink.old) }
    ensures ended { IfErr result (λ status. (next : List Command → List Reply → Output)
        → ((commands : List Command) → IsQuiet (next commands [])) → (shelf : ShelfState) (n : ℕ)
        → Ends (world shelf (K.state sink.old) n) (scripted next reply.now []) [] status
        (world shelf (K.state sink.new) n)) }
{
    match reply {
        Reply::Fetched(text) => judge(alloc, text.as_slice(), sink),
        _ => Err(finish(sink, READ_FAULT, Status::ReadFault)),
    }
}

/// Fetches and reads the script of that name. An error says with which status the run is over.
pub fn script<S: Shelf, K: Sink>(
    alloc: Global,
    name: &str,
    shelf: &mut S,
    sink: &mut K,
    replies: &mut Vec<Reply>,
) -> Result<Vec<Command>, Status>
    ensures passed { IfOk result (λ commands. (next : List Command → List Reply → Output) (n : ℕ)
        → Passed (with_script next name.now) (next commands.items) replies.old.items replies.new.items
        (world (S.state shelf.old) (K.state sink.old) n) (world (S.state shelf.new) (K.state sink.new) n)) }
    ensures few { IfOk result (λ commands. length commands.items ≤ 10000) }
    ensures played { IfErr result (λ status. (next : List Command → List Reply → Output)
        → ((commands : List Command) → IsQuiet (next commands [])) → (n : ℕ)
        → Played (with_script next name.now) replies.old.items replies.new.items status
        (world (S.state shelf.old) (K.state sink.old) n) (world (S.state shelf.new) (K.state sink.new) n)) }
{
    let reply = fetch(alloc, name, MOST, shelf, replies)?;
    let commands = judge_reply(alloc, &reply, sink);
    add(replies, reply);
    commands
}
