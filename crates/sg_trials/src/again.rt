//! A script whose commands are given again where they find no memory. With all memory each command prints its block.
//! Where one growth is refused, the screen is as before the command, and the same command, given again, prints its
//! block.
ghost use Rattle.std.specs.Prelude.{◌<◌, ◌^◌, IsTrue};
ghost use Rattle.sg_eval.specs.Journal.{counted};

use crate::statements::{ROWS, language};
use sg_editor::Editor;
use sg_eval::Journal;
use sg_load::load;
use sg_outside::MemShelf;
use sg_replies::Reply;
use sg_script::{Command, Message, read};
use std::alloc::Global;
use std::process::Abort;

/// Whether a journal has room for what any command notes.
fn has_room(journal: &Journal) -> bool
    ensures { IsTrue result → counted journal.now < 2 ^ 62 }
{
    journal.total().saturating_add(journal.now().len() as u64) < 1 << 60
}

/// What is printed. Where there is no memory it is asked for again.
fn screen(rt: &impl Abort, editor: &mut Editor, message: Message, ev: u64) -> Vec<u8> {
    match editor.screen(message, ev) {
        Ok(screen) => screen,
        Err(_) => editor.screen(message, ev).ok().expect(rt, "memory"),
    }
}

/// Does a command that found no memory, where the screen is as before.
fn again(
    rt: &impl Abort,
    editor: &mut Editor,
    command: &Command,
    before: &[u8],
    shelf: &mut MemShelf,
    journal: &mut Journal,
    replies: &mut Vec<Reply>,
) -> Message {
    let after = screen(rt, editor, Message::Fine, 0);
    assert!(rt; after.as_slice() == before, "another screen");
    assert!(rt; has_room(journal), "the journal is full");
    let message = editor.step(command, shelf, journal, replies);
    message.ok().expect(rt, "memory")
}

/// The block of a command. Where it finds no memory the screen is as before, and it is given again.
fn block(
    rt: &impl Abort,
    editor: &mut Editor,
    command: &Command,
    shelf: &mut MemShelf,
    journal: &mut Journal,
    replies: &mut Vec<Reply>,
) -> Vec<u8> {
    let before = screen(rt, editor, Message::Fine, 0);
    assert!(rt; has_room(journal), "the journal is full");
    let message = match editor.step(command, shelf, journal, replies) {
        Ok(message) => message,
        Err(_) => again(
            rt,
            editor,
            command,
            before.as_slice(),
            shelf,
            journal,
            replies,
        ),
    };
    screen(rt, editor, message, journal.now().len() as u64)
}

/// The commands of a line. Where there is no memory they are read again.
fn commands(rt: &(impl Abort + AllocGlobal), line: &[u8]) -> Vec<Command> {
    match read(rt.alloc(), line) {
        Ok(commands) => commands,
        Err(_) => read(rt.alloc(), line).ok().expect(rt, "a script"),
    }
}

/// Gives the commands in turn, and compares their blocks.
fn play(
    rt: &(impl Abort + AllocGlobal),
    editor: &mut Editor,
    shelf: &mut MemShelf,
    journal: &mut Journal,
) {
    let mut replies = Vec::new(rt.alloc());
    for (line, wanted) in &ROWS {
        for command in &commands(rt, line) {
            let block = block(rt, editor, command, shelf, journal, &mut replies);
            assert!(rt; block.as_slice() == *wanted, "another block");
        }
    }
    // `save` and `load` ask once each, and once more where a reply found no memory
    assert!(rt; (2..=3).contains(&replies.len()), "other replies");
}

/// An editor of the language, if there is memory.
fn opened(alloc: Global) -> Option<Editor> {
    let loaded = load(alloc, language()).ok()?;
    Editor::new(alloc, loaded, 80, 24).ok()
}

/// An editor of the language. Where there is no memory it is made again.
fn editor(rt: &(impl Abort + AllocGlobal)) -> Editor {
    match opened(rt.alloc()) {
        Some(editor) => editor,
        None => opened(rt.alloc()).expect(rt, "memory"),
    }
}

/// A shelf without files. Where there is no memory it is made again.
fn shelf(rt: &(impl Abort + AllocGlobal)) -> MemShelf {
    let alloc = rt.alloc();
    match MemShelf::new(alloc, Vec::new(alloc), Vec::new(alloc)) {
        Ok(shelf) => shelf,
        Err(_) => {
            let shelf = MemShelf::new(alloc, Vec::new(alloc), Vec::new(alloc));
            shelf.ok().expect(rt, "memory")
        }
    }
}

#[test]
fn a_command_without_memory_is_given_again(rt: HostRuntime) {
    let mut editor = editor(&rt);
    let mut shelf = shelf(&rt);
    let mut journal = Journal::new(&rt);
    play(&rt, &mut editor, &mut shelf, &mut journal);
}
