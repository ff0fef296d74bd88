//! The table of commands.
ghost use Rattle.std.specs.Prelude.{◌≡◌, ◌≤◌, ◌&&◌, nat_lt, [], length, is_some, None, true, Option, Some, IfOk, IsOk, OnErr};
ghost use Rattle.sg_eval.specs.Journal.{now_of, total_of};
ghost use Rattle.sg_changes.specs.Captured.{Captured};
ghost use Rattle.sg_buffer.specs.Held.{state_of};
ghost use Rattle.sg_edits.specs.declared.clip.Clip.{Clip as IsClipped};
ghost use Rattle.sg_commands.specs.Did.{Did, GaveUp, turn_of};
ghost use Rattle.sg_commands.specs.Clipped.{IsClip};
ghost use Rattle.sg_commands.specs.Input.{IsInputOf};
ghost use Rattle.sg_commands.specs.Turn.{AreReads, Reads};
ghost use Rattle.sg_commands.specs.Turns.{allowed_turn, count_here, plain_turn, typing_turn, wants_one as wants_one_node};
ghost use Rattle.sg_commands.specs.Typing.{IsTyping};

use crate::entering::{enter_typed, text};
use crate::history::travel;
use crate::input::Input;
use crate::moving::{copy, extend, find, go, pick, shrink, toggle, view};
use crate::replacing::{cut, delete, insert, paste, remove, replace_all, transform};
use crate::typing::{abandon, begin, erase, type_in};
use sg_buffer::Buffer;
use sg_changes::Direction;
use sg_edits::Clip;
use sg_eval::Journal;
use sg_kinds::memory::NoMemory;
use sg_script::{Command, Message};
use sg_states::{Mark, Move};
use std::alloc::Global;

// whether a command wants one node selected
fn wants_one(command: &Command) -> bool
    ensures { result ≡ wants_one_node command.now }
{
    matches!(
        command,
        Command::Do(_)
            | Command::ReplaceAll(_)
            | Command::Text(_)
            | Command::TypeIn(_)
            | Command::Alternate
            | Command::Elide
    )
}

// whether it does, and several elements are selected
fn is_in_run(buffer: &Buffer, command: &Command) -> bool
    ensures { result ≡ (wants_one_node command.now && nat_lt 1 (count_here (state_of buffer.now))) }
{
    wants_one(command) && buffer.count() > 1
}

// a command while no text is being typed, and one node is selected where it wants one
fn allowed(
    alloc: Global,
    input: &Input,
    buffer: &mut Buffer,
    clip: &mut Option<Clip>,
    command: &Command,
    journal: &mut Journal,
) -> Result<Message, NoMemory>
    requires input { IsInputOf buffer.old.grove.spec input.now }
    requires clip { IsClip buffer.old.grove.spec clip.old }
    requires none { buffer.old.capture ≡ None }
    requires one { wants_one_node command.now ≡ true → count_here (state_of buffer.old) ≡ 1 }
    ensures did { (reads : Reads) → AreReads buffer.old.grove.spec reads → IfOk result (λ m. Did
        (allowed_turn buffer.old.grove.spec buffer.old.height reads clip.old (state_of buffer.old) command.now) m
        buffer.new clip.new (now_of journal.old) (now_of journal.new)) }
    ensures gave_up { (reads : Reads) → AreReads buffer.old.grove.spec reads → OnErr result (GaveUp
        buffer.old.grove.spec (allowed_turn buffer.old.grove.spec buffer.old.height reads clip.old (state_of buffer.old)
        command.now) buffer.old buffer.new clip.old clip.new (now_of journal.old) (now_of journal.new)) }
    ensures erased { command.now ≡ Command.Erase → IsOk result }
    ensures spec { buffer.new.grove.spec ≡ buffer.old.grove.spec }
    ensures height { buffer.new.height ≡ buffer.old.height }
    ensures total { total_of journal.new ≡ total_of journal.old }
{
    match command {
        Command::Next => go(buffer, Move::Next),
        Command::Prev => go(buffer, Move::Prev),
        Command::Up => go(buffer, Move::Up),
        Command::First => go(buffer, Move::First),
        Command::Sibling => go(buffer, Move::Sibling),
        Command::Goto(line, column) => pick(buffer, *line, *column),
        Command::Extend => Ok(extend(buffer)),
        Command::Shrink => Ok(shrink(buffer)),
        Command::Find(name) => find(alloc, buffer, name.as_slice()),
        Command::Do(name) => transform(alloc, buffer, name.as_slice(), journal),
        Command::ReplaceAll(name) => replace_all(alloc, buffer, name.as_slice(), journal),
        Command::Delete => delete(alloc, buffer, journal),
        Command::Remove => remove(alloc, buffer, journal),
        Command::InsertBefore => insert(alloc, buffer, false, journal),
        Command::InsertAfter => insert(alloc, buffer, true, journal),
        Command::Cut => cut(alloc, buffer, clip, journal),
        Command::Copy => {
            *clip = Some(copy(alloc, buffer)?);
            Ok(Message::Fine)
        }
        Command::Paste => paste(alloc, buffer, clip, journal),
        Command::Text(bytes) => text(alloc, input, buffer, bytes.as_slice(), journal),
        Command::TypeIn(bytes) => begin(buffer, bytes.as_slice()),
        Command::Erase | Command::Enter | Command::Abandon => Ok(Message::NotInText),
        Command::Alternate => toggle(buffer, Mark::Alternate),
        Command::Elide => toggle(buffer, Mark::Elide),
        Command::Undo => travel(buffer, Direction::Back, journal),
        Command::Redo => travel(buffer, Direction::Forth, journal),
        Command::View(name) => view(buffer, name),
        Command::New(_)
        | Command::Load(_, _)
        | Command::Switch(_)
        | Command::Show
        | Command::Save(_)
        | Command::SaveText(_) => Ok(Message::Fine),
    }
}

// a command while no text is being typed
fn plain(
    alloc: Global,
    input: &Input,
    buffer: &mut Buffer,
    clip: &mut Option<Clip>,
    command: &Command,
    journal: &mut Journal,
) -> Result<Message, NoMemory>
    requires input { IsInputOf buffer.old.grove.spec input.now }
    requires clip { IsClip buffer.old.grove.spec clip.old }
    requires none { buffer.old.capture ≡ None }
    ensures did { (reads : Reads) → AreReads buffer.old.grove.spec reads → IfOk result (λ m. Did
        (plain_turn buffer.old.grove.spec buffer.old.height reads clip.old (state_of buffer.old) command.now) m
        buffer.new clip.new (now_of journal.old) (now_of journal.new)) }
    ensures gave_up { (reads : Reads) → AreReads buffer.old.grove.spec reads → OnErr result (GaveUp
        buffer.old.grove.spec (plain_turn buffer.old.grove.spec buffer.old.height reads clip.old (state_of buffer.old)
        command.now) buffer.old buffer.new clip.old clip.new (now_of journal.old) (now_of journal.new)) }
    ensures erased { command.now ≡ Command.Erase → IsOk result }
    ensures spec { buffer.new.grove.spec ≡ buffer.old.grove.spec }
    ensures height { buffer.new.height ≡ buffer.old.height }
    ensures total { total_of journal.new ≡ total_of journal.old }
{
    buffer.facts();
    if is_in_run(buffer, command) {
        return Ok(Message::InRun);
    }
    allowed(alloc, input, buffer, clip, command, journal)
}

// a command while a text is being typed
fn typing(
    alloc: Global,
    input: &Input,
    buffer: &mut Buffer,
    command: &Command,
    journal: &mut Journal,
) -> Result<Message, NoMemory>
    requires input { IsInputOf buffer.old.grove.spec input.now }
    requires open { is_some (state_of buffer.old).capture ≡ true }
    ensures did { (c : Captured) → (state_of buffer.old).capture ≡ Some c → (reads : Reads)
        → AreReads buffer.old.grove.spec reads → (clip : Option IsClipped) → IfOk result (λ m. Did
        (typing_turn buffer.old.grove.spec buffer.old.height reads clip (state_of buffer.old) c command.now) m
        buffer.new clip (now_of journal.old) (now_of journal.new)) }
    ensures gave_up { (c : Captured) → (state_of buffer.old).capture ≡ Some c → (reads : Reads)
        → AreReads buffer.old.grove.spec reads → (clip : Option IsClipped) → OnErr result (GaveUp
        buffer.old.grove.spec (typing_turn buffer.old.grove.spec buffer.old.height reads clip (state_of buffer.old) c
        command.now) buffer.old buffer.new clip clip (now_of journal.old) (now_of journal.new)) }
    ensures erased { command.now ≡ Command.Erase → IsOk result }
    ensures spec { buffer.new.grove.spec ≡ buffer.old.grove.spec }
    ensures height { buffer.new.height ≡ buffer.old.height }
    ensures total { total_of journal.new ≡ total_of journal.old }
{
    buffer.facts();
    match command {
        Command::TypeIn(bytes) => type_in(buffer, bytes.as_slice()),
        Command::Erase => Ok(erase(buffer)),
        Command::Enter => enter_typed(alloc, input, buffer, journal),
        Command::Abandon => Ok(abandon(buffer)),
        Command::New(_)
        | Command::Load(_, _)
        | Command::Switch(_)
        | Command::Show
        | Command::Save(_)
        | Command::SaveText(_) => Ok(Message::Fine),
        Command::Next
        | Command::Prev
        | Command::Up
        | Command::First
        | Command::Sibling
        | Command::Goto(_, _)
        | Command::Extend
        | Command::Shrink
        | Command::Find(_)
        | Command::Do(_)
        | Command::ReplaceAll(_)
        | Command::Delete
        | Command::Remove
        | Command::InsertBefore
        | Command::InsertAfter
        | Command::Cut
        | Command::Copy
        | Command::Paste
        | Command::Text(_)
        | Command::Alternate
        | Command::Elide
        | Command::Undo
        | Command::Redo
        | Command::View(_) => Ok(Message::InText),
    }
}

// whether a text is being typed
fn is_typing(buffer: &Buffer) -> bool
    ensures { result ≡ is_some (state_of buffer.now).capture }
{
    match buffer.captured() {
        Some(_) => true,
        None => false,
    }
}

// a command
fn turned(
    alloc: Global,
    input: &Input,
    buffer: &mut Buffer,
    clip: &mut Option<Clip>,
    command: &Command,
    journal: &mut Journal,
) -> Result<Message, NoMemory>
    requires input { IsInputOf buffer.old.grove.spec input.now }
    requires clip { IsClip buffer.old.grove.spec clip.old }
    ensures did { (reads : Reads) → AreReads buffer.old.grove.spec reads → IfOk result (λ m. Did
        (turn_of buffer.old reads clip.old command.now) m buffer.new clip.new (now_of journal.old)
        (now_of journal.new)) }
    ensures gave_up { (reads : Reads) → AreReads buffer.old.grove.spec reads → OnErr result (GaveUp
        buffer.old.grove.spec (turn_of buffer.old reads clip.old command.now) buffer.old buffer.new clip.old clip.new
        (now_of journal.old) (now_of journal.new)) }
    ensures erased { command.now ≡ Command.Erase → IsOk result }
    ensures spec { buffer.new.grove.spec ≡ buffer.old.grove.spec }
    ensures height { buffer.new.height ≡ buffer.old.height }
    ensures total { total_of journal.new ≡ total_of journal.old }
{
    buffer.facts();
    if is_typing(buffer) {
        typing(alloc, input, buffer, command, journal)
    } else {
        plain(alloc, input, buffer, clip, command, journal)
    }
}

/// Does a command in a buffer and says what came of it. `clip` is what was copied last. The commands of sessions and
/// files do nothing here, and `erase` takes no memory. Without memory the buffer's state and what was copied stay, and
/// the journal may have gained some of what the command evaluates.
pub fn turn(
    alloc: Global,
    input: &Input,
    buffer: &mut Buffer,
    clip: &mut Option<Clip>,
    command: &Command,
    journal: &mut Journal,
) -> Result<Message, NoMemory>
    requires input { IsInputOf buffer.old.grove.spec input.now }
    requires clip { IsClip buffer.old.grove.spec clip.old }
    requires typing { IsTyping buffer.old.grove.spec (state_of buffer.old) }
    ensures did { (reads : Reads) → AreReads buffer.old.grove.spec reads → IfOk result (λ m. Did
        (turn_of buffer.old reads clip.old command.now) m buffer.new clip.new (now_of journal.old)
        (now_of journal.new)) }
    ensures counted { (reads : Reads) → AreReads buffer.old.grove.spec reads → now_of journal.old ≡ []
        → IfOk result (λ _. length (now_of journal.new) ≡ length (turn_of buffer.old reads clip.old command.now).set) }
    ensures gave_up { (reads : Reads) → AreReads buffer.old.grove.spec reads → OnErr result (GaveUp
        buffer.old.grove.spec (turn_of buffer.old reads clip.old command.now) buffer.old buffer.new clip.old clip.new
        (now_of journal.old) (now_of journal.new)) }
    ensures fewer { (reads : Reads) → AreReads buffer.old.grove.spec reads → now_of journal.old ≡ []
        → OnErr result (length (now_of journal.new) ≤ length (turn_of buffer.old reads clip.old command.now).set) }
    ensures typing { IsTyping buffer.new.grove.spec (state_of buffer.new) }
    ensures fits { IsClip buffer.new.grove.spec clip.new }
    ensures erased { command.now ≡ Command.Erase → IsOk result }
    ensures spec { buffer.new.grove.spec ≡ buffer.old.grove.spec }
    ensures height { buffer.new.height ≡ buffer.old.height }
    ensures total { total_of journal.new ≡ total_of journal.old }
{
    input.tables.sound();
    input.tables.decided();
    buffer.sound();
    buffer.facts();
    turned(alloc, input, buffer, clip, command, journal)
}
