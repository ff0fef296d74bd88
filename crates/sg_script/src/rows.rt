// The command of a line, by the table of commands.
ghost use Rattle.std.specs.Prelude.{◌≡◌, IfOk};
ghost use Rattle.sg_script.specs.declared.command.Command.TheVariants as spec;
ghost use Rattle.sg_script.specs.Commands.{one_name, one_file, one_string, alone, named, filed, quoted, loaded, placed, one_view, viewed, is_word, text_rows, edit_rows, rows, read_by, command_of};

use crate::command::{Command, FileName};
use crate::forms::{count_of, name_of, view_name_of};
use crate::words::{Cut, is_end, last_string, last_word, next_word, word_at};
use sg_kinds::memory::NoMemory;
use sg_kinds::text::Text;
use sg_text::unescape;
use std::alloc::Global;

// the name of a buffer, and nothing else
fn one_name(alloc: Global, rest: &[u8]) -> Result<Option<Text>, NoMemory>
    ensures { IfOk result (λ o. o ≡ one_name rest.now) }
{
    match last_word(rest) {
        Some(word) => name_of(alloc, word),
        None => Ok(None),
    }
}

// the name of a view, and nothing else
fn one_view(alloc: Global, rest: &[u8]) -> Result<Option<Text>, NoMemory>
    ensures { IfOk result (λ o. o ≡ one_view rest.now) }
{
    match last_word(rest) {
        Some(word) => view_name_of(alloc, word),
        None => Ok(None),
    }
}

// the name of a file, and nothing else
fn one_file(alloc: Global, rest: &[u8]) -> Result<Option<FileName>, NoMemory>
    ensures { IfOk result (λ o. o ≡ one_file rest.now) }
{
    match last_word(rest) {
        Some(word) => FileName::new(alloc, word),
        None => Ok(None),
    }
}

// what a string stands for, and nothing else
fn one_string(alloc: Global, rest: &[u8]) -> Result<Option<Text>, NoMemory>
    ensures { IfOk result (λ o. o ≡ one_string rest.now) }
{
    match last_string(rest) {
        Some(inner) => Ok(Some(Text::new(unescape(alloc, inner)?))),
        None => Ok(None),
    }
}

// the name of a buffer, then that of a file
fn loaded(alloc: Global, rest: &[u8]) -> Result<Option<Command>, NoMemory>
    ensures { IfOk result (λ o. o ≡ loaded rest.now) }
{
    let Some(cut) = next_word(rest) else {
        return Ok(None);
    };
    let Some(name) = name_of(alloc, cut.word)? else {
        return Ok(None);
    };
    Ok(one_file(alloc, cut.rest)?.map(|file| Command::Load(name, file)))
}

// a line, then a column
fn placed(rest: &[u8]) -> Option<Command>
    ensures { result ≡ placed rest.now }
{
    let cut = next_word(rest)?;
    let line = count_of(cut.word)?;
    let column = count_of(last_word(cut.rest)?)?;
    Some(Command::Goto(line, column))
}

// `new`
fn new_of(alloc: Global, rest: &[u8]) -> Result<Option<Command>, NoMemory>
    ensures { IfOk result (λ o. o ≡ named spec.New rest.now) }
{
    Ok(one_name(alloc, rest)?.map(|name| Command::New(name)))
}

// `switch`
fn switch_of(alloc: Global, rest: &[u8]) -> Result<Option<Command>, NoMemory>
    ensures { IfOk result (λ o. o ≡ named spec.Switch rest.now) }
{
    Ok(one_name(alloc, rest)?.map(|name| Command::Switch(name)))
}

// `find`
fn find_of(alloc: Global, rest: &[u8]) -> Result<Option<Command>, NoMemory>
    ensures { IfOk result (λ o. o ≡ quoted spec.Find rest.now) }
{
    Ok(one_string(alloc, rest)?.map(|text| Command::Find(text)))
}

// `do`
fn do_of(alloc: Global, rest: &[u8]) -> Result<Option<Command>, NoMemory>
    ensures { IfOk result (λ o. o ≡ quoted spec.Do rest.now) }
{
    Ok(one_string(alloc, rest)?.map(|text| Command::Do(text)))
}

// `replace-all`
fn replace_all_of(alloc: Global, rest: &[u8]) -> Result<Option<Command>, NoMemory>
    ensures { IfOk result (λ o. o ≡ quoted spec.ReplaceAll rest.now) }
{
    Ok(one_string(alloc, rest)?.map(|text| Command::ReplaceAll(text)))
}

// `text`
fn text_of(alloc: Global, rest: &[u8]) -> Result<Option<Command>, NoMemory>
    ensures { IfOk result (λ o. o ≡ quoted spec.Text rest.now) }
{
    Ok(one_string(alloc, rest)?.map(|text| Command::Text(text)))
}

// `type`
fn type_of(alloc: Global, rest: &[u8]) -> Result<Option<Command>, NoMemory>
    ensures { IfOk result (λ o. o ≡ quoted spec.TypeIn rest.now) }
{
    Ok(one_string(alloc, rest)?.map(|text| Command::TypeIn(text)))
}

// `save`
fn save_of(alloc: Global, rest: &[u8]) -> Result<Option<Command>, NoMemory>
    ensures { IfOk result (λ o. o ≡ filed spec.Save rest.now) }
{
    Ok(one_file(alloc, rest)?.map(|file| Command::Save(file)))
}

// `save-text`
fn save_text_of(alloc: Global, rest: &[u8]) -> Result<Option<Command>, NoMemory>
    ensures { IfOk result (λ o. o ≡ filed spec.SaveText rest.now) }
{
    Ok(one_file(alloc, rest)?.map(|file| Command::SaveText(file)))
}

// nothing more, or the name of a view
fn viewed(alloc: Global, rest: &[u8]) -> Result<Option<Command>, NoMemory>
    ensures { IfOk result (λ o. o ≡ viewed rest.now) }
{
    if is_end(rest) {
        return Ok(Some(Command::View(None)));
    }
    Ok(one_view(alloc, rest)?.map(|name| Command::View(Some(name))))
}

// a command that is its word alone
fn alone(command: Command, rest: &[u8]) -> Option<Command>
    ensures { result ≡ alone command rest.now }
{
    if is_end(rest) { Some(command) } else { None }
}

// whether a row's word is this one
#[tactic(auto, unfolding(crate::specs::Commands::is_word))]
fn is_word(word: &[u8], name: &[u8]) -> bool
    ensures { result ≡ is_word name.now word.now }
{
    word == name
}

// the command of a word and of the rest of its line: texts, the way back, views and files
#[tactic(auto, unfolding(crate::specs::Commands::text_rows))]
fn text_command(alloc: Global, word: &[u8], rest: &[u8]) -> Result<Option<Command>, NoMemory>
    ensures { IfOk result (λ o. o ≡ read_by text_rows word.now rest.now) }
{
    match word {
        _ if is_word(word, b"text") => text_of(alloc, rest),
        _ if is_word(word, b"type") => type_of(alloc, rest),
        _ if is_word(word, b"erase") => Ok(alone(Command::Erase, rest)),
        _ if is_word(word, b"enter") => Ok(alone(Command::Enter, rest)),
        _ if is_word(word, b"abandon") => Ok(alone(Command::Abandon, rest)),
        _ if is_word(word, b"alternate") => Ok(alone(Command::Alternate, rest)),
        _ if is_word(word, b"elide") => Ok(alone(Command::Elide, rest)),
        _ if is_word(word, b"undo") => Ok(alone(Command::Undo, rest)),
        _ if is_word(word, b"redo") => Ok(alone(Command::Redo, rest)),
        _ if is_word(word, b"view") => viewed(alloc, rest),
        _ if is_word(word, b"save") => save_of(alloc, rest),
        _ if is_word(word, b"save-text") => save_text_of(alloc, rest),
        _ => Ok(None),
    }
}

// edits, and what is behind them in the table
#[tactic(auto, unfolding(crate::specs::Commands::edit_rows))]
fn edit_command(alloc: Global, word: &[u8], rest: &[u8]) -> Result<Option<Command>, NoMemory>
    ensures { IfOk result (λ o. o ≡ read_by edit_rows word.now rest.now) }
{
    match word {
        _ if is_word(word, b"extend") => Ok(alone(Command::Extend, rest)),
        _ if is_word(word, b"shrink") => Ok(alone(Command::Shrink, rest)),
        _ if is_word(word, b"find") => find_of(alloc, rest),
        _ if is_word(word, b"do") => do_of(alloc, rest),
        _ if is_word(word, b"replace-all") => replace_all_of(alloc, rest),
        _ if is_word(word, b"delete") => Ok(alone(Command::Delete, rest)),
        _ if is_word(word, b"remove") => Ok(alone(Command::Remove, rest)),
        _ if is_word(word, b"insert-before") => Ok(alone(Command::InsertBefore, rest)),
        _ if is_word(word, b"insert-after") => Ok(alone(Command::InsertAfter, rest)),
        _ if is_word(word, b"cut") => Ok(alone(Command::Cut, rest)),
        _ if is_word(word, b"copy") => Ok(alone(Command::Copy, rest)),
        _ if is_word(word, b"paste") => Ok(alone(Command::Paste, rest)),
        _ => text_command(alloc, word, rest),
    }
}

// buffers and moves, and what is behind them in the table
#[tactic(auto, unfolding(crate::specs::Commands::rows))]
fn command_by(alloc: Global, word: &[u8], rest: &[u8]) -> Result<Option<Command>, NoMemory>
    ensures { IfOk result (λ o. o ≡ read_by rows word.now rest.now) }
{
    match word {
        _ if is_word(word, b"new") => new_of(alloc, rest),
        _ if is_word(word, b"load") => loaded(alloc, rest),
        _ if is_word(word, b"switch") => switch_of(alloc, rest),
        _ if is_word(word, b"show") => Ok(alone(Command::Show, rest)),
        _ if is_word(word, b"next") => Ok(alone(Command::Next, rest)),
        _ if is_word(word, b"prev") => Ok(alone(Command::Prev, rest)),
        _ if is_word(word, b"up") => Ok(alone(Command::Up, rest)),
        _ if is_word(word, b"first") => Ok(alone(Command::First, rest)),
        _ if is_word(word, b"sibling") => Ok(alone(Command::Sibling, rest)),
        _ if is_word(word, b"goto") => Ok(placed(rest)),
        _ => edit_command(alloc, word, rest),
    }
}

/// The command of a line.
#[tactic(auto, unfolding(crate::specs::Commands::command_of))]
pub fn command_of(alloc: Global, line: &[u8]) -> Result<Option<Command>, NoMemory>
    ensures { IfOk result (λ o. o ≡ command_of line.now) }
{
    let Cut { word, rest } = word_at(line);
    command_by(alloc, word, rest)
}
