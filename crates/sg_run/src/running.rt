// The whole run.
ghost use Rattle.std.specs.Prelude.{◌≡◌, ◌≤◌, ◌<◌, ◌^◌, ◌⊎◌, ℕ, [], map, string_bytes, IsSome, None, IfOk};
ghost use Rattle.sg_eval.specs.Journal.{counted};
ghost use Rattle.sg_outside.specs.Count.{Rose};
ghost use Rattle.sg_output.specs.Statuses.{ended};
ghost use Rattle.sg_output.specs.Job.{job};
ghost use Rattle.sg_output.specs.OutputOf.{output_of, with_spec, shown, checked, performed, first_command};
ghost use Rattle.sg_output.specs.Reading.{Reading, IsRight, IsRightFor};
ghost use Rattle.sg_output.specs.World.{world};
ghost use Rattle.sg_output.specs.Ran.{Ran};
ghost use Rattle.sg_output.specs.Parts.{Played};
ghost use Rattle.sg_output.specs.Causes.{IsReadOf, IsRead, LastFailed, SecondFetched, IsSpecRefused, IsNoScript, IsReportRefused, IsAccepted};

use crate::Status;
use crate::finishing::{end, finish, status_of};
use crate::opening::open;
use crate::playing::play_all;
use crate::reports::report_on;
use crate::scripts::script;
use crate::words::{Job, read};
use crate::workloads::work;
use sg_eval::Journal;
use sg_kinds::memory::NoMemory;
use sg_kinds::text::Text;
use sg_outside::{Shelf, Sink};
use sg_replies::Reply;
use sg_script::Command;
use std::alloc::Global;
use std::mem::forget;

const USAGE: &[u8] =
    b"usage: ssled show SPEC | run SPEC SCRIPT [W H] | check SPEC | load N | report SPEC FILE ATTR\n";

/// What came of a run.
#[derive(Drop)]
pub struct Outcome {
    /// How it ended.
    pub status: Status,
    /// What the shelf replied to each of its calls in turn, but for a last call for which it had no memory.
    pub replies: Vec<Reply>,
}

// The one command of the first screen.
fn first_command(alloc: Global) -> Result<Vec<Command>, NoMemory>
    ensures { IfOk result (λ commands. commands.items ≡ first_command) }
{
    let mut commands = Vec::new(alloc);
    commands.push(Command::New(Text::from_slice(alloc, b"main")?))?;
    Ok(commands)
}

// In these an error says with which status the run is over.
fn show<S: Shelf, K: Sink>(
    alloc: Global,
    name: &str,
    shelf: &mut S,
    sink: &mut K,
    journal: &mut Journal,
    replies: &mut Vec<Reply>,
) -> Result<(), Status>
    requires room { counted journal.old < 2 ^ 60 }
    requires none { replies.old.items ≡ [] }
    ensures known { IsReadOf name.now
        (world (S.state shelf.old) (K.state sink.old) (counted journal.old))
        replies.new.items (ended result) (world (S.state shelf.new) (K.state sink.new) (counted journal.new)) }
    ensures played { (r : Reading) → IsRight replies.new.items r
        → Played (with_spec (shown r.readers) name.now r.verdict) [] replies.new.items (ended result)
        (world (S.state shelf.old) (K.state sink.old) (counted journal.old))
        (world (S.state shelf.new) (K.state sink.new) (counted journal.new)) }
{
    let loaded = open(alloc, name, shelf, sink, replies)?;
    let commands = first_command(alloc)?;
    play_all(
        alloc,
        loaded,
        80,
        24,
        commands.as_slice(),
        shelf,
        sink,
        journal,
        replies,
    )
}

fn check<S: Shelf, K: Sink>(
    alloc: Global,
    name: &str,
    shelf: &mut S,
    sink: &mut K,
    replies: &mut Vec<Reply>,
) -> Result<(), Status>
    requires none { replies.old.items ≡ [] }
    ensures known { (n : ℕ) → IsReadOf name.now
        (world (S.state shelf.old) (K.state sink.old) n)
        replies.new.items (ended result) (world (S.state shelf.new) (K.state sink.new) n) }
    ensures played { (r : Reading) → IsRight replies.new.items r → (n : ℕ)
        → Played (with_spec checked name.now r.verdict) [] replies.new.items (ended result)
        (world (S.state shelf.old) (K.state sink.old) n) (world (S.state shelf.new) (K.state sink.new) n) }
{
    // the program ends with its answer: the system takes the language's memory back at once, where freeing it node by node took
    // up to a quarter of the time
    forget(open(alloc, name, shelf, sink, replies)?);
    end(finish(sink, b"ok\n", Status::Done))
}

fn run_script<S: Shelf, K: Sink>(
    alloc: Global,
    name: &str,
    script_name: &str,
    width: usize,
    height: usize,
    shelf: &mut S,
    sink: &mut K,
    journal: &mut Journal,
    replies: &mut Vec<Reply>,
) -> Result<(), Status>
    requires least { (1 ≤ width) × (1 ≤ height) }
    requires most { (width ≤ 1024) × (height ≤ 1024) }
    requires room { counted journal.old < 2 ^ 60 }
    requires none { replies.old.items ≡ [] }
    ensures known { IsReadOf name.now
        (world (S.state shelf.old) (K.state sink.old) (counted journal.old))
        replies.new.items (ended result) (world (S.state shelf.new) (K.state sink.new) (counted journal.new)) }
    ensures played { (r : Reading) → IsRight replies.new.items r
        → Played (with_spec (performed script_name.now width height r.readers) name.now r.verdict) []
        replies.new.items (ended result)
        (world (S.state shelf.old) (K.state sink.old) (counted journal.old))
        (world (S.state shelf.new) (K.state sink.new) (counted journal.new)) }
{
    let opened = open(alloc, name, shelf, sink, replies)?;
    let commands = script(alloc, script_name, shelf, sink, replies)?;
    play_all(
        alloc,
        opened,
        width,
        height,
        commands.as_slice(),
        shelf,
        sink,
        journal,
        replies,
    )
}

fn run_job<S: Shelf, K: Sink>(
    alloc: Global,
    words: &[String],
    shelf: &mut S,
    sink: &mut K,
    journal: &mut Journal,
    replies: &mut Vec<Reply>,
) -> Result<(), Status>
    requires room { counted journal.old < 2 ^ 60 }
    requires none { replies.old.items ≡ [] }
    ensures known { IsRead (job (map string_bytes words.now))
        (world (S.state shelf.old) (K.state sink.old) (counted journal.old))
        replies.new.items (ended result) (world (S.state shelf.new) (K.state sink.new) (counted journal.new)) }
    ensures played { (r : Reading) → IsRightFor (job (map string_bytes words.now)) replies.new.items r
        → Played (output_of (map string_bytes words.now) r) [] replies.new.items (ended result)
        (world (S.state shelf.old) (K.state sink.old) (counted journal.old))
        (world (S.state shelf.new) (K.state sink.new) (counted journal.new)) }
{
    match read(words) {
        None => Err(finish(sink, USAGE, Status::Usage)),
        Some(Job::Show(name)) => show(alloc, name, shelf, sink, journal, replies),
        Some(Job::Check(name)) => check(alloc, name, shelf, sink, replies),
        Some(Job::Run(name, script_name, width, height)) => run_script(
            alloc,
            name,
            script_name,
            width,
            height,
            shelf,
            sink,
            journal,
            replies,
        ),
        Some(Job::Load(count)) => work(alloc, count, sink, journal),
        Some(Job::Report(name, file, word)) => {
            report_on(alloc, name, file, word, shelf, sink, journal, replies)
        }
    }
}

/// Does the job that the words name: fetches what it needs from the shelf, and puts its blocks into the sink, each by
/// one put. A refusal of words or of a specification is one block too.
pub fn run<S: Shelf, K: Sink>(
    alloc: Global,
    words: &[String],
    shelf: &mut S,
    sink: &mut K,
    journal: &mut Journal,
) -> Outcome
    requires room { counted journal.old < 2 ^ 60 }

    // There is a reading of what was fetched, and for a workload of the built-in language: the verdict on the
    // specification, of which there is no other, and how texts that are typed and files that are loaded are read; or
    // memory was wanting before there was a verdict.
    ensures known { IsRead (job (map string_bytes words.now))
        (world (S.state shelf.old) (K.state sink.old) (counted journal.old)) result.replies.items result.status
        (world (S.state shelf.new) (K.state sink.new) (counted journal.new)) }

    // For each right reading: what was written, evaluated, asked and kept, and the status, are those that are told of
    // it. Cut short, whole blocks were written, and a shelf that counts its calls is not called again after a put that
    // was refused.
    ensures ran { (r : Reading) → IsRightFor (job (map string_bytes words.now)) result.replies.items r
        → Ran (output_of (map string_bytes words.now) r)
        (world (S.state shelf.old) (K.state sink.old) (counted journal.old)) result.replies.items result.status
        (world (S.state shelf.new) (K.state sink.new) (counted journal.new)) }

    // The cause of each status.
    ensures usage { result.status ≡ Status.Usage → job (map string_bytes words.now) ≡ None }
    ensures read_fault { result.status ≡ Status.ReadFault
        → LastFailed result.replies.items × Rose (S.state shelf.old).faults (S.state shelf.new).faults }
    ensures spec_fault { result.status ≡ Status.SpecFault
        → IsSpecRefused (job (map string_bytes words.now)) result.replies.items }
    ensures script_fault { result.status ≡ Status.ScriptFault → SecondFetched result.replies.items IsNoScript }
    ensures report_fault { (r : Reading) → IsRightFor (job (map string_bytes words.now)) result.replies.items r
        → result.status ≡ Status.ReportFault
        → IsReportRefused (job (map string_bytes words.now)) r result.replies.items }
    ensures sink_fault { result.status ≡ Status.SinkFault → Rose (K.state sink.old).faults (K.state sink.new).faults }
    ensures complete { (Rose (S.state shelf.old).faults (S.state shelf.new).faults → ⊥)
        → (Rose (K.state sink.old).faults (K.state sink.new).faults → ⊥)
        → IsSome (job (map string_bytes words.now)) → IsAccepted (job (map string_bytes words.now)) result.replies.items
        → (result.status ≡ Status.Done) ⊎ (result.status ≡ Status.Memory) }
{
    let mut replies = Vec::new(alloc);
    let status = status_of(run_job(alloc, words, shelf, sink, journal, &mut replies));
    Outcome { status, replies }
}
