//! The commands of a script.
ghost use Rattle.std.specs.Prelude.{◌≡◌, IfOk};
ghost use Rattle.sg_script.specs.Forms.{file_name_of};

use crate::forms::is_file_name;
use sg_kinds::memory::NoMemory;
use sg_kinds::text::Text;
use std::alloc::Global;
use std::marker::Model;

/// The name of a file: 1 to 64 bytes, each from 33 to 126. Contracts see the bytes.
#[derive(Drop)]
pub struct FileName {
    text: String,
}

impl Model for FileName {
    ghost use Rattle.std.specs.Prelude.{ℕ, List, string_bytes};

    ghost Value = { List ℕ };

    ghost view = { λ n. string_bytes n.text };
}

impl FileName {
    /// The name of these bytes, or None exactly where they are no name of a file.
    pub fn new(alloc: Global, bytes: &[u8]) -> Result<Option<FileName>, NoMemory>
        ensures { IfOk result (λ o. o ≡ file_name_of bytes.now) }
    {
        if !is_file_name(bytes) {
            return Ok(None);
        }
        match std::str::from_utf8(bytes) {
            Ok(text) => Ok(Some(FileName {
                text: String::from_str(alloc, text)?,
            })),
            Err(_) => Ok(None),
        }
    }

    /// The name as a text.
    pub fn as_str(&self) -> &str
        ensures { result.now ≡ self.now }
    {
        self.text.as_str()
    }
}

/// A command of a script, with its words: the name of a buffer, the name of a file, a line and a column from 1, what a
/// string stands for, or the name of a view, where that is not the ordinary one.
#[derive(Drop)]
pub enum Command {
    New(Text),
    Load(Text, FileName),
    Switch(Text),
    Show,
    Next,
    Prev,
    Up,
    First,
    Sibling,
    Goto(u32, u32),
    Extend,
    Shrink,
    Find(Text),
    Do(Text),
    ReplaceAll(Text),
    Delete,
    Remove,
    InsertBefore,
    InsertAfter,
    Cut,
    Copy,
    Paste,
    Text(Text),
    TypeIn(Text),
    Erase,
    Enter,
    Abandon,
    Alternate,
    Elide,
    Undo,
    Redo,
    View(Option<Text>),
    Save(FileName),
    SaveText(FileName),
}
