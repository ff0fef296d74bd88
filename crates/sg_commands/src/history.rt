//! Changes undone, and done again.
ghost use Rattle.std.specs.Prelude.{◌≡◌, None, Option, IfOk, OnErr};
ghost use Rattle.sg_eval.specs.Journal.{now_of, total_of};
ghost use Rattle.sg_states.specs.States.{ahead};
ghost use Rattle.sg_buffer.specs.Held.{state_of};
ghost use Rattle.sg_edits.specs.declared.clip.Clip.{Clip as IsClipped};
ghost use Rattle.sg_commands.specs.Did.{Did, GaveUp};
ghost use Rattle.sg_commands.specs.Turns.{travels};

use crate::moving::said;
use sg_buffer::Buffer;
use sg_changes::Direction;
use sg_eval::Journal;
use sg_kinds::memory::NoMemory;
use sg_script::Message;

/// `undo` and `redo`. No text is being typed.
pub fn travel(
    buffer: &mut Buffer,
    direction: Direction,
    journal: &mut Journal,
) -> Result<Message, NoMemory>
    requires none { buffer.old.capture ≡ None }
    ensures did { (clip : Option IsClipped) → IfOk result (λ m. Did (travels buffer.old.grove.spec
        buffer.old.height clip (state_of buffer.old) direction (ahead direction (state_of buffer.old))) m buffer.new
        clip (now_of journal.old) (now_of journal.new)) }
    ensures gave_up { (clip : Option IsClipped) → OnErr result (GaveUp buffer.old.grove.spec (travels
        buffer.old.grove.spec buffer.old.height clip (state_of buffer.old) direction
        (ahead direction (state_of buffer.old)))
        buffer.old buffer.new clip clip (now_of journal.old) (now_of journal.new)) }
    ensures spec { buffer.new.grove.spec ≡ buffer.old.grove.spec }
    ensures height { buffer.new.height ≡ buffer.old.height }
    ensures total { total_of journal.new ≡ total_of journal.old }
{
    buffer.sound();
    match direction {
        Direction::Back => {
            let done = buffer.undo(journal)?;
            Ok(said(done, Message::NothingToUndo))
        }
        Direction::Forth => {
            let done = buffer.redo(journal)?;
            Ok(said(done, Message::NothingToRedo))
        }
    }
}
