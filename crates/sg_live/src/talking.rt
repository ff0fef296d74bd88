// The lines of a session.
ghost use Rattle.std.specs.Prelude.{◌≡◌, ◌≤◌, ℕ, vec_capacity, OnOk, IfErr};
ghost use Rattle.sg_eval.specs.Journal.{counted};
ghost use Rattle.sg_editor.specs.Ask.{Readers, AreReaders};
ghost use Rattle.sg_editor.specs.Editing.{spec_in, session_of};
ghost use Rattle.sg_live.specs.DeskView.{desk_in};
ghost use Rattle.sg_live.specs.Outside.{outside};
ghost use Rattle.sg_live.specs.Turned.{Turned, Over};
ghost use Rattle.sg_live.specs.Turns.{Talked};

use crate::answering::answer;
use crate::answers::{Answer, finish, put};
use crate::texts::{LONG_LINE, READ_FAULT_INPUT};
use sg_console::{Console, Taken};
use sg_editor::Editor;
use sg_eval::Journal;
use sg_kinds::limits::TEXT_BYTES;
use sg_output::Status;
use sg_outside::Shelf;
use std::alloc::Global;

/// The most bytes of a line, with its newline.
pub const MOST: usize = TEXT_BYTES;

// Reads a line and answers it. An error says with which status the run is over.
fn turn<C: Console, S: Shelf>(
    alloc: Global,
    editor: &mut Editor,
    console: &mut C,
    shelf: &mut S,
    journal: &mut Journal,
    line: &mut Vec<u8>,
) -> Result<(), Status>
    requires room { 1048576 ≤ vec_capacity line.old }
    ensures turned { (r : Readers) → AreReaders (spec_in editor.old) r → OnOk result
        (Turned (desk_in editor.old r) (session_of editor.old) (session_of editor.new)
        (outside (S.state shelf.old) (C.state console.old) (counted journal.old))
        (outside (S.state shelf.new) (C.state console.new) (counted journal.new))) }
    ensures over { (r : Readers) → AreReaders (spec_in editor.old) r → (lines : ℕ) → IfErr result (λ status.
        Over (desk_in editor.old r) (session_of editor.old) lines status
        (outside (S.state shelf.old) (C.state console.old) (counted journal.old))
        (outside (S.state shelf.new) (C.state console.new) (counted journal.new))) }
    ensures setting { editor.new.setting ≡ editor.old.setting }
    ensures capacity { vec_capacity line.new ≡ vec_capacity line.old }
{
    line.clear();
    match console.take_line(line, MOST) {
        Ok(Taken::Line) => put(console, &answer(alloc, editor, shelf, journal, line)),
        Ok(Taken::Long) => put(console, &Answer::Text(LONG_LINE)),
        Ok(Taken::End) => Err(Status::Done),
        Err(_) => Err(finish(console, READ_FAULT_INPUT, Status::ReadFault)),
    }
}

/// Reads lines and answers each before the next, to the end of the input. The line's room is used again.
pub fn talk<C: Console, S: Shelf>(
    alloc: Global,
    editor: &mut Editor,
    console: &mut C,
    shelf: &mut S,
    journal: &mut Journal,
    line: &mut Vec<u8>,
) -> Status
    requires room { 1048576 ≤ vec_capacity line.old }
    ensures { (r : Readers) → AreReaders (spec_in editor.old) r
        → Talked (desk_in editor.old r) (session_of editor.old)
        (outside (S.state shelf.old) (C.state console.old) (counted journal.old)) result
        (outside (S.state shelf.new) (C.state console.new) (counted journal.new)) }
{
    for _ in 0..u64::MAX {
        if let Err(status) = turn(alloc, editor, console, shelf, journal, line) {
            return status;
        }
    }
    Status::Memory
}
