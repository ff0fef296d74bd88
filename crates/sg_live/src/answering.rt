// The answer to a line.
ghost use Rattle.std.specs.Prelude.{◌≡◌, ◌<◌, ◌^◌, ◌∷◌, [], ℕ, List, Ok, IfOk, IsTrue};
ghost use Rattle.std.specs.Io.{StopsAt};
ghost use Rattle.sg_eval.specs.Journal.{counted};
ghost use Rattle.sg_script.specs.Script.{script_of};
ghost use Rattle.sg_editor.specs.Ask.{Readers, AreReaders};
ghost use Rattle.sg_editor.specs.Editing.{spec_in, session_of};
ghost use Rattle.sg_live.specs.Offers.{offers};
ghost use Rattle.sg_console.specs.Console.Event.{Took};
ghost use Rattle.sg_live.specs.DeskView.{desk_in};
ghost use Rattle.sg_live.specs.Answers.{Answered, IsOffer, IsRefusal, events_of};
ghost use Rattle.sg_live.specs.Texts.{offers_text};

use crate::answers::Answer;
use crate::offers::offers;
use crate::texts::{NO_COMMAND, NO_MEMORY, NOT_SHOWN, is_question, offers_text};
use sg_editor::Editor;
use sg_eval::Journal;
use sg_kinds::memory::NoMemory;
use sg_outside::Shelf;
use sg_script::{Command, ScriptFault, read};
use std::alloc::Global;

// Whether a journal has room for what any command notes.
fn has_room(journal: &Journal) -> bool
    ensures { IsTrue result → counted journal.now < 2 ^ 62 }
{
    journal.total().saturating_add(journal.now().len() as u64) < 1 << 60
}

// Does a command, and answers by its block.
fn perform<S: Shelf>(
    alloc: Global,
    editor: &mut Editor,
    shelf: &mut S,
    journal: &mut Journal,
    command: &Command,
) -> Answer
    ensures answered { (r : Readers) → AreReaders (spec_in editor.old) r → (line : List ℕ)
        → script_of line ≡ Ok (command.now ∷ []) → Answered (desk_in editor.old r) (session_of editor.old)
        (S.state shelf.old) (Took line) (session_of editor.new)
        (S.state shelf.new)
        (events_of result) (counted journal.old) (counted journal.new) }
    ensures setting { editor.new.setting ≡ editor.old.setting }
{
    if !has_room(journal) {
        return Answer::Text(NO_MEMORY);
    }
    let mut replies = Vec::new(alloc);
    let Ok(message) = editor.step(command, shelf, journal, &mut replies) else {
        return Answer::Text(NO_MEMORY);
    };
    match editor.screen(message, journal.now().len() as u64) {
        Ok(block) => Answer::Bytes(block),
        Err(_) => Answer::Text(NOT_SHOWN),
    }
}

// The answer to a line that asks which transformations apply.
fn offered(alloc: Global, editor: &Editor) -> Result<Vec<u8>, NoMemory>
    ensures { IfOk result (λ text. text.items ≡ offers_text (offers (spec_in editor.now) (session_of editor.now))) }
{
    let names = offers(alloc, editor)?;
    offers_text(alloc, &names)
}

// The same, or that memory was wanting.
fn offer(alloc: Global, editor: &Editor) -> Answer
    ensures { IsOffer (offers (spec_in editor.now) (session_of editor.now)) (events_of result) }
{
    match offered(alloc, editor) {
        Ok(text) => Answer::Bytes(text),
        Err(_) => Answer::Text(NO_MEMORY),
    }
}

// The answer to a line that is no command, or for which memory was wanting.
fn refused(fault: ScriptFault) -> Answer
    ensures { IsRefusal fault (events_of result) }
{
    match fault {
        ScriptFault::NoMemory => Answer::Text(NO_MEMORY),
        _ => Answer::Text(NO_COMMAND),
    }
}

/// Answers a line.
pub fn answer<S: Shelf>(
    alloc: Global,
    editor: &mut Editor,
    shelf: &mut S,
    journal: &mut Journal,
    line: &[u8],
) -> Answer
    requires one { StopsAt line.now 10 }
    ensures answered { (r : Readers) → AreReaders (spec_in editor.old) r
        → Answered (desk_in editor.old r) (session_of editor.old)
        (S.state shelf.old) (Took line.now)
        (session_of editor.new) (S.state shelf.new)
        (events_of result) (counted journal.old) (counted journal.new) }
    ensures setting { editor.new.setting ≡ editor.old.setting }
{
    if is_question(line) {
        return offer(alloc, editor);
    }
    match read(alloc, line) {
        Ok(commands) => match commands.first() {
            Some(command) => perform(alloc, editor, shelf, journal, command),
            None => Answer::Nothing,
        },
        Err(fault) => refused(fault),
    }
}
