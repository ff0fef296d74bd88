// The commands of a job.
ghost use Rattle.std.specs.Prelude.{◌≡◌, ◌≤◌, ◌<◌, ◌^◌, ◌+◌, ◌*◌, ◌∷◌, List, length, IfErr, OnOk};
ghost use Rattle.sg_eval.specs.Journal.{counted};
ghost use Rattle.sg_script.specs.declared.command.Command.{Command};
ghost use Rattle.sg_editor.specs.Ask.{Readers, AreReaders};
ghost use Rattle.sg_editor.specs.Session.{start};
ghost use Rattle.sg_editor.specs.Editing.{spec_in, session_of};
ghost use Rattle.sg_output.specs.Statuses.{ended};
ghost use Rattle.sg_output.specs.Session.{desk, session};
ghost use Rattle.sg_output.specs.World.{world};
ghost use Rattle.sg_output.specs.Parts.{Passed, Played};
ghost use Rattle.sg_run.specs.DeskView.{desk_in};

use crate::Status;
use sg_editor::Editor;
use sg_eval::Journal;
use sg_load::Loaded;
use sg_outside::{Shelf, Sink};
use sg_replies::Reply;
use sg_script::Command;
use std::alloc::Global;

/// One command, and its block by one put. An error says with which status the run is over.
fn play<S: Shelf, K: Sink>(
    editor: &mut Editor,
    command: &Command,
    shelf: &mut S,
    sink: &mut K,
    journal: &mut Journal,
    replies: &mut Vec<Reply>,
) -> Result<(), Status>
    requires room { counted journal.old < 2 ^ 61 }
    ensures passed { (r : Readers) → AreReaders (spec_in editor.old) r → OnOk result ((commands : List Command)
        → Passed (session (desk_in editor.old r) (session_of editor.old) (command.now ∷ commands))
        (session (desk_in editor.old r) (session_of editor.new) commands) replies.old.items replies.new.items
        (world (S.state shelf.old) (K.state sink.old) (counted journal.old))
        (world (S.state shelf.new) (K.state sink.new) (counted journal.new))) }
    ensures played { (r : Readers) → AreReaders (spec_in editor.old) r → IfErr result (λ status.
        (commands : List Command)
        → Played (session (desk_in editor.old r) (session_of editor.old) (command.now ∷ commands))
        replies.old.items replies.new.items status
        (world (S.state shelf.old) (K.state sink.old) (counted journal.old))
        (world (S.state shelf.new) (K.state sink.new) (counted journal.new))) }
    ensures kept { (r : Readers) → desk_in editor.new r ≡ desk_in editor.old r }
    ensures most { OnOk result (counted journal.new ≤ counted journal.old + 2 ^ 40) }
{
    let message = editor.step(command, shelf, journal, replies)?;
    let block = editor.screen(message, journal.now().len() as u64)?;
    sink.put(block.as_slice())?;
    Ok(())
}

/// The commands in turn. An error says with which status the run is over.
fn perform<S: Shelf, K: Sink>(
    editor: &mut Editor,
    commands: &[Command],
    shelf: &mut S,
    sink: &mut K,
    journal: &mut Journal,
    replies: &mut Vec<Reply>,
) -> Result<(), Status>
    requires room { counted journal.old + 2 ^ 40 * length commands.now < 2 ^ 61 }
    ensures { (r : Readers) → AreReaders (spec_in editor.old) r
        → Played (session (desk_in editor.old r) (session_of editor.old) commands.now)
        replies.old.items replies.new.items (ended result)
        (world (S.state shelf.old) (K.state sink.old) (counted journal.old))
        (world (S.state shelf.new) (K.state sink.new) (counted journal.new)) }
{
    for command in commands {
        play(editor, command, shelf, sink, journal, replies)?;
    }
    Ok(())
}

/// The commands in turn, in an editor of its own. An error says with which status the run is over.
pub fn play_all<S: Shelf, K: Sink>(
    alloc: Global,
    loaded: Loaded,
    width: usize,
    height: usize,
    commands: &[Command],
    shelf: &mut S,
    sink: &mut K,
    journal: &mut Journal,
    replies: &mut Vec<Reply>,
) -> Result<(), Status>
    requires least { (1 ≤ width) × (1 ≤ height) }
    requires most { (width ≤ 1024) × (height ≤ 1024) }
    requires few { length commands.now ≤ 10000 }
    requires room { counted journal.old < 2 ^ 60 }
    ensures { (r : Readers) → AreReaders loaded.spec r
        → Played (session (desk loaded.spec width height r) start commands.now)
        replies.old.items replies.new.items (ended result)
        (world (S.state shelf.old) (K.state sink.old) (counted journal.old))
        (world (S.state shelf.new) (K.state sink.new) (counted journal.new)) }
{
    let mut editor = Editor::new(alloc, loaded, width, height)?;
    perform(&mut editor, commands, shelf, sink, journal, replies)
}
