// A whole run.
ghost use Rattle.std.specs.Prelude.{◌≡◌, ◌⊎◌, map, string_bytes, None};
ghost use Rattle.sg_eval.specs.Journal.{counted};
ghost use Rattle.sg_outside.specs.Count.{Rose};
ghost use Rattle.sg_live.specs.JobView.{job_of, IsWindow};
ghost use Rattle.sg_live.specs.Lived.{HasNotBegunOrWornOut, IsLiveStatus, IsRunOf, IsSession, IsSpecAccepted, IsSpecRefused, Lived};
ghost use Rattle.sg_live.specs.Outside.{outside};
ghost use Rattle.sg_live.specs.Words.{job};

use crate::answers::finish;
use crate::opening::open;
use crate::talking::{MOST, talk};
use crate::texts::USAGE;
use crate::words::{Asked, read};
use sg_console::Console;
use sg_editor::Editor;
use sg_eval::Journal;
use sg_load::Loaded;
use sg_output::Status;
use sg_outside::Shelf;
use sg_replies::fetched;
use std::alloc::Global;

// A session over a specification.
fn begin<C: Console, S: Shelf>(
    alloc: Global,
    loaded: Loaded,
    asked: &Asked,
    console: &mut C,
    shelf: &mut S,
    journal: &mut Journal,
) -> Status
    requires { IsWindow asked.now.width asked.now.height }
    ensures { IsSession (job_of asked.now) loaded.spec
        (outside (S.state shelf.old) (C.state console.old) (counted journal.old)) result
        (outside (S.state shelf.new) (C.state console.new) (counted journal.new)) }
{
    let Ok(mut line) = Vec::with_capacity(alloc, MOST) else {
        return Status::Memory;
    };
    let Ok(mut editor) = Editor::new(alloc, loaded, asked.width, asked.height) else {
        return Status::Memory;
    };
    talk(alloc, &mut editor, console, shelf, journal, &mut line)
}

// A session over the specification of that name.
fn run<C: Console, S: Shelf>(
    alloc: Global,
    asked: &Asked,
    console: &mut C,
    shelf: &mut S,
    journal: &mut Journal,
) -> Status
    requires { IsWindow asked.now.width asked.now.height }
    ensures { IsRunOf (job_of asked.now)
        (outside (S.state shelf.old) (C.state console.old) (counted journal.old)) result
        (outside (S.state shelf.new) (C.state console.new) (counted journal.new)) }
{
    let Ok(reply) = fetched(alloc, shelf, asked.spec, MOST + 1) else {
        return Status::Memory;
    };
    match open(alloc, &reply, console) {
        Ok(loaded) => begin(alloc, loaded, asked, console, shelf, journal),
        Err(status) => status,
    }
}

// The run of the words.
fn live_to_end<C: Console, S: Shelf>(
    alloc: Global,
    words: &[String],
    console: &mut C,
    shelf: &mut S,
    journal: &mut Journal,
) -> Status
    ensures { Lived (map string_bytes words.now)
        (outside (S.state shelf.old) (C.state console.old) (counted journal.old)) result
        (outside (S.state shelf.new) (C.state console.new) (counted journal.new)) }
{
    match read(words) {
        Some(asked) => run(alloc, &asked, console, shelf, journal),
        None => finish(console, USAGE, Status::Usage),
    }
}

/// A session: reads commands from the console line by line, and writes what is said of each before it reads the next,
/// until the input ends. The words are the name of a specification, and the width and the height of the window, which
/// are 80 and 24 where they are not given. Nothing is written before the first line is read, but where there is no
/// session.
///
/// For each line that is a command its block is written; for one that says nothing, nothing; for the line `?do` the names
/// of the transformations that apply; else one line that begins with `!`. Once a session has begun, nothing but the end
/// of the input, a read or a write that fails, and 2^64 - 1 lines end it.
pub fn live<C: Console, S: Shelf>(
    alloc: Global,
    words: &[String],
    console: &mut C,
    shelf: &mut S,
    journal: &mut Journal,
) -> Status
    ensures lived { Lived (map string_bytes words.now)
        (outside (S.state shelf.old) (C.state console.old) (counted journal.old)) result
        (outside (S.state shelf.new) (C.state console.new) (counted journal.new)) }

    // The statuses, and the cause of each.
    ensures statuses { IsLiveStatus result }
    ensures usage { result ≡ Status.Usage → job (map string_bytes words.now) ≡ None }
    ensures read_fault { result ≡ Status.ReadFault → Rose (S.state shelf.old).faults (S.state shelf.new).faults
        ⊎ Rose (C.state console.old).faults (C.state console.new).faults }
    ensures spec_fault { result ≡ Status.SpecFault → IsSpecRefused (job (map string_bytes words.now))
        (outside (S.state shelf.old) (C.state console.old) (counted journal.old)) }
    ensures sink_fault { result ≡ Status.SinkFault
        → Rose (C.state console.old).faults (C.state console.new).faults }
    ensures memory { result ≡ Status.Memory → HasNotBegunOrWornOut
        (outside (S.state shelf.old) (C.state console.old) (counted journal.old))
        (outside (S.state shelf.new) (C.state console.new) (counted journal.new)) }
    ensures complete { (Rose (S.state shelf.old).faults (S.state shelf.new).faults → ⊥)
        → (Rose (C.state console.old).faults (C.state console.new).faults → ⊥)
        → IsSpecAccepted (job (map string_bytes words.now))
        (outside (S.state shelf.old) (C.state console.old) (counted journal.old))
        → (result ≡ Status.Done) ⊎ (result ≡ Status.Memory) }
{
    live_to_end(alloc, words, console, shelf, journal)
}
