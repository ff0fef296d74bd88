//! Commands that change what is being typed.
ghost use Rattle.std.specs.Prelude.{◌≡◌, List, Option, Some, IfOk, OnErr};
ghost use Rattle.sg_eval.specs.declared.journal.Instance.{Instance};
ghost use Rattle.sg_buffer.specs.Held.{state_of};
ghost use Rattle.sg_changes.specs.Captured.{Captured};
ghost use Rattle.sg_states.specs.States.{ended};
ghost use Rattle.sg_edits.specs.declared.clip.Clip.{Clip as IsClipped};
ghost use Rattle.sg_input.specs.Entered.{bad_byte as bad_byte_in};
ghost use Rattle.sg_commands.specs.Did.{Did, GaveUp};
ghost use Rattle.sg_commands.specs.Turn.{Turn, becomes};
ghost use Rattle.sg_commands.specs.Turns.{enterable, erases, types};

use crate::entering::{entry_here, is_editable_here};
use crate::moving::said;
use sg_buffer::Buffer;
use sg_kinds::memory::NoMemory;
use sg_script::Message;

// the place of the first byte that is not allowed
fn bad_byte(bytes: &[u8]) -> Option<usize>
    ensures { result ≡ bad_byte_in bytes.now }
{
    bytes
        .iter()
        .position(|b| !(*b == 10 || 32 <= *b && *b <= 126))
}

/// `type`, where a text is being typed or may be. One node is selected.
pub fn type_in(buffer: &mut Buffer, bytes: &[u8]) -> Result<Message, NoMemory>
    requires { (state_of buffer.old).spot.selection.count ≡ 1 }
    ensures did { (clip : Option IsClipped) (now : List Instance) → IfOk result (λ m. Did (types clip
        (state_of buffer.old) bytes.now) m buffer.new clip now now) }
    ensures gave_up { (turn : Turn) (clip : Option IsClipped) (now : List Instance) → OnErr result (GaveUp
        buffer.old.grove.spec turn buffer.old buffer.new clip clip now now) }
    ensures spec { buffer.new.grove.spec ≡ buffer.old.grove.spec }
    ensures height { buffer.new.height ≡ buffer.old.height }
{
    buffer.facts();
    if let Some(place) = bad_byte(bytes) {
        return Ok(Message::ByteAt(place));
    }
    buffer.type_in(bytes)?;
    Ok(Message::Fine)
}

/// `type`, where no text is being typed. One node is selected.
pub fn begin(buffer: &mut Buffer, bytes: &[u8]) -> Result<Message, NoMemory>
    requires { (state_of buffer.old).spot.selection.count ≡ 1 }
    ensures did { (clip : Option IsClipped) (now : List Instance) → IfOk result (λ m. Did (enterable
        buffer.old.grove.spec clip (state_of buffer.old) (λ _. types clip (state_of buffer.old) bytes.now)) m
        buffer.new clip now now) }
    ensures gave_up { (turn : Turn) (clip : Option IsClipped) (now : List Instance) → OnErr result (GaveUp
        buffer.old.grove.spec turn buffer.old buffer.new clip clip now now) }
    ensures spec { buffer.new.grove.spec ≡ buffer.old.grove.spec }
    ensures height { buffer.new.height ≡ buffer.old.height }
{
    if !is_editable_here(buffer) {
        return Ok(Message::NotEditable);
    }
    match entry_here(buffer) {
        Some(_) => type_in(buffer, bytes),
        None => Ok(Message::NoEntry),
    }
}

/// `erase`, where a text is being typed. It takes no memory.
pub fn erase(buffer: &mut Buffer) -> Message
    ensures did { (c : Captured) → (state_of buffer.old).capture ≡ Some c → (clip : Option IsClipped)
        (now : List Instance) → Did (erases clip (state_of buffer.old) c) result buffer.new clip now now }
    ensures spec { buffer.new.grove.spec ≡ buffer.old.grove.spec }
    ensures height { buffer.new.height ≡ buffer.old.height }
{
    buffer.facts();
    said(buffer.erase(), Message::NoPlace)
}

/// `abandon`, where a text is being typed.
pub fn abandon(buffer: &mut Buffer) -> Message
    ensures did { (clip : Option IsClipped) (now : List Instance) → Did (becomes clip (ended (state_of buffer.old)))
        result buffer.new clip now now }
    ensures spec { buffer.new.grove.spec ≡ buffer.old.grove.spec }
    ensures height { buffer.new.height ≡ buffer.old.height }
{
    buffer.end_capture();
    Message::Fine
}
