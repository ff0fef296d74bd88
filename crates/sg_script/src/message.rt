// Messages.
ghost use Rattle.std.specs.Prelude.{◌≡◌, ◌++◌, OnOk};
ghost use Rattle.sg_script.specs.Message.{kind_text, words, message_text};

use sg_kinds::decimal::write_number;
use sg_kinds::marks::FaultKind;
use sg_kinds::memory::NoMemory;
use std::alloc::Global;

/// What a command says of itself. Numbers are byte offsets, counted from 0, in the entered text or in the file.
#[derive(Clone, Copy, PartialEq, Eq)]
pub enum Message {
    /// the command was done
    Fine,
    /// there is no current buffer, or none of the name
    NoBuffer,
    /// a buffer has the name
    NameInUse,
    /// there are 64 buffers
    TooManyBuffers,
    /// the move leads nowhere
    NoPlace,
    /// no transformation has the name
    Unknown,
    /// the patterns of all transformations of the name match nothing here
    NoMatch,
    /// the selection is no element of a list
    NotInList,
    /// the only element of a list that may not be empty
    LastElement,
    /// nothing was cut or copied
    ClipEmpty,
    /// a term of another phylum
    Phylum,
    /// the selection's scheme is not editable as text
    NotEditable,
    /// the selection's phylum has no entry
    NoEntry,
    /// a byte that no text holds
    ByteAt(usize),
    /// no token begins
    LexicalAt(usize),
    /// the token at which the parse stopped, or the text's end
    ParseAt(usize),
    /// an expression without a value
    Result(FaultKind),
    /// a term or a page over a limit
    Size,
    /// a node with one scheme, or a leaf
    NoAlternate,
    NothingToUndo,
    NothingToRedo,
    /// a text is being typed
    InText,
    /// several elements of a list are selected
    InRun,
    /// no text is being typed
    NotInText,
    /// the file was not kept
    WriteFault,
    /// the file was not fetched
    ReadFault,
    /// a file over 4,194,304 bytes
    LongFile,
    /// a file that is no saved form
    FormAt(usize),
    /// 64 files were asked for
    TooManyFiles,
}

// why a result has no value
fn kind_text(kind: FaultKind) -> &'static [u8]
    ensures { result.now ≡ kind_text kind }
{
    match kind {
        FaultKind::Fuel => b"fuel",
        FaultKind::Depth => b"depth",
        FaultKind::Size => b"size",
        FaultKind::Divide => b"divide",
        FaultKind::Overflow => b"overflow",
        FaultKind::NoMatch => b"nomatch",
        FaultKind::Convert => b"convert",
    }
}

// its words, of some messages those before a number or a reason
fn words(message: Message) -> &'static [u8]
    ensures { result.now ≡ words message }
{
    match message {
        Message::Fine => b"ok",
        Message::NoBuffer => b"no buffer",
        Message::NameInUse => b"name in use",
        Message::TooManyBuffers => b"too many buffers",
        Message::NoPlace => b"no place",
        Message::Unknown => b"unknown",
        Message::NoMatch => b"no match",
        Message::NotInList => b"not in list",
        Message::LastElement => b"last element",
        Message::ClipEmpty => b"clip empty",
        Message::Phylum => b"phylum",
        Message::NotEditable => b"not editable",
        Message::NoEntry => b"no entry",
        Message::ByteAt(_) => b"byte at ",
        Message::LexicalAt(_) => b"lexical at ",
        Message::ParseAt(_) => b"parse at ",
        Message::Result(_) => b"result ",
        Message::Size => b"size",
        Message::NoAlternate => b"no alternate",
        Message::NothingToUndo => b"nothing to undo",
        Message::NothingToRedo => b"nothing to redo",
        Message::InText => b"in text",
        Message::InRun => b"in run",
        Message::NotInText => b"not in text",
        Message::WriteFault => b"write fault",
        Message::ReadFault => b"read fault",
        Message::LongFile => b"long file",
        Message::FormAt(_) => b"form at ",
        Message::TooManyFiles => b"too many files",
    }
}

/// Writes a message.
pub fn write_message(alloc: Global, out: &mut Vec<u8>, message: Message) -> Result<(), NoMemory>
    ensures { OnOk result (out.new.items ≡ out.old.items ++ message_text message) }
{
    out.extend_from_slice(words(message))?;
    match message {
        Message::ByteAt(k) | Message::LexicalAt(k) | Message::ParseAt(k) | Message::FormAt(k) =>
            write_number(alloc, out, k as u64),
        Message::Result(kind) => {
            out.extend_from_slice(kind_text(kind))?;
            Ok(())
        }
        _ => Ok(()),
    }
}
