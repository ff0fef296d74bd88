//! Commands that read a text.
ghost use Rattle.std.specs.Prelude.{◌≡◌, ◌≤◌, List, length, Option, None, IfOk, IfSome, OnErr, MatchOption, ⊤};
ghost use Rattle.sg_eval.specs.Journal.{now_of, total_of};
ghost use Rattle.sg_eval.specs.declared.journal.Instance.{Instance as IsInstance};
ghost use Rattle.sg_states.specs.States.{pointed};
ghost use Rattle.sg_buffer.specs.Held.{state_of};
ghost use Rattle.sg_edits.specs.Edits as edits;
ghost use Rattle.sg_edits.specs.declared.clip.Clip.{Clip as IsClipped};
ghost use Rattle.sg_input.specs.Entered.{Entered};
ghost use Rattle.sg_input.specs.Parsed.{entered_of};
ghost use Rattle.sg_commands.specs.Did.{Did, GaveUp};
ghost use Rattle.sg_commands.specs.Replaced.{chosen_in, enters_in, entry_turn, puts_in, FitsHere, StopsWithin, text_turn};
ghost use Rattle.sg_commands.specs.Input.{IsInputOf};
ghost use Rattle.sg_commands.specs.Turn.{AreReads, Reads};
ghost use Rattle.sg_commands.specs.Turns.{entry_here, is_editable_here};

use crate::input::Input;
use crate::replacing::put_choice;
use sg_buffer::Buffer;
use sg_edits::{is_editable, typed};
use sg_eval::Journal;
use sg_input::{EntryFault, enter, entry_of};
use sg_kinds::memory::NoMemory;
use sg_kinds::value::Value;
use sg_script::Message;
use std::alloc::Global;

/// Whether the selected node may be typed in.
pub(crate) fn is_editable_here(buffer: &Buffer) -> bool
    ensures { result ≡ is_editable_here buffer.now.grove.spec (state_of buffer.now) }
{
    buffer.facts();
    is_editable(buffer.terms(), buffer.selected())
}

/// The entry of the selected node's phylum, if it has one.
pub(crate) fn entry_here(buffer: &Buffer) -> Option<u32>
    ensures { result ≡ entry_here buffer.now.grove.spec (state_of buffer.now) }
{
    buffer.facts();
    let terms = buffer.terms();
    terms.facts();
    entry_of(terms.spec(), terms.phylum(buffer.selected()))
}

// puts the plain term of a value in the place of the selected node, whose phylum it fits
fn put_value(
    alloc: Global,
    buffer: &mut Buffer,
    v: &Value,
    journal: &mut Journal,
) -> Result<Message, NoMemory>
    requires fits { FitsHere buffer.old v.now }
    ensures did { (clip : Option IsClipped) → IfOk result (λ m. Did (puts_in buffer.old clip
        (chosen_in buffer.old (λ spec t u. edits.typed spec t u v.now))) m
        buffer.new clip (now_of journal.old) (now_of journal.new)) }
    ensures gave_up { (clip : Option IsClipped) → OnErr result (GaveUp buffer.old.grove.spec (puts_in buffer.old clip
        (chosen_in buffer.old (λ spec t u. edits.typed spec t u v.now)))
        buffer.old buffer.new clip clip (now_of journal.old) (now_of journal.new)) }
    ensures spec { buffer.new.grove.spec ≡ buffer.old.grove.spec }
    ensures height { buffer.new.height ≡ buffer.old.height }
    ensures total { total_of journal.new ≡ total_of journal.old }
{
    buffer.facts();
    let choice = typed(alloc, buffer.terms(), buffer.selected(), v)?;
    put_choice(buffer, choice, journal)
}

// moves the point of the text that is being typed, if one is
#[tactic(auto, using(crate::proofs::Typed::unpointed_in))]
fn put_point(buffer: &mut Buffer, k: usize)
    requires { MatchOption buffer.old.capture ⊤ (λ c. k ≤ length c.text) }
    ensures state { state_of buffer.new ≡ pointed k (state_of buffer.old) }
    ensures kept { buffer.new ≡ record buffer.old { capture = buffer.new.capture } }
{
    buffer.facts();
    if buffer.captured().is_some() {
        buffer.move_point(k);
    }
}

// says why a text was not read; where reading failed at a token, the point of the text that is being typed goes there
fn tell(buffer: &mut Buffer, fault: EntryFault) -> Result<Message, NoMemory>
    requires { MatchOption buffer.old.capture ⊤ (λ c. StopsWithin (length c.text) (Err fault)) }
    ensures did { (clip : Option IsClipped) (was : List IsInstance) (a : Entered)
        → IfSome (entered_of (Err fault)) (λ b. b ≡ a)
        → IfOk result (λ m. Did (enters_in buffer.old clip a) m buffer.new clip was was) }
    ensures err { OnErr result (buffer.new ≡ buffer.old) }
    ensures spec { buffer.new.grove.spec ≡ buffer.old.grove.spec }
    ensures height { buffer.new.height ≡ buffer.old.height }
{
    match fault {
        EntryFault::Byte(k) => Ok(Message::ByteAt(k)),
        EntryFault::Lexical(k) => {
            put_point(buffer, k);
            Ok(Message::LexicalAt(k))
        }
        EntryFault::Parse(k) => {
            put_point(buffer, k);
            Ok(Message::ParseAt(k))
        }
        EntryFault::Outcome(why) => Ok(Message::Result(why)),
        EntryFault::NoMemory => Err(NoMemory),
    }
}

// does what a text that was read gives
fn put_read(
    alloc: Global,
    buffer: &mut Buffer,
    read: Result<Value, EntryFault>,
    journal: &mut Journal,
) -> Result<Message, NoMemory>
    requires fits { IfOk read (FitsHere buffer.old) }
    requires within { MatchOption buffer.old.capture ⊤ (λ c. StopsWithin (length c.text) read) }
    ensures did { (clip : Option IsClipped) (a : Entered) → IfSome (entered_of read) (λ b. b ≡ a)
        → IfOk result (λ m. Did (enters_in buffer.old clip a) m
        buffer.new clip (now_of journal.old) (now_of journal.new)) }
    ensures gave_up { (clip : Option IsClipped) (a : Entered) → IfSome (entered_of read) (λ b. b ≡ a)
        → OnErr result (GaveUp buffer.old.grove.spec (enters_in buffer.old clip a)
        buffer.old buffer.new clip clip (now_of journal.old) (now_of journal.new)) }
    ensures spec { buffer.new.grove.spec ≡ buffer.old.grove.spec }
    ensures height { buffer.new.height ≡ buffer.old.height }
    ensures total { total_of journal.new ≡ total_of journal.old }
{
    match read {
        Ok(v) => put_value(alloc, buffer, &v, journal),
        Err(fault) => tell(buffer, fault),
    }
}

/// `text`: what the entry of the selected node's phylum derives from a text, in its place. No text is being typed.
pub fn text(
    alloc: Global,
    input: &Input,
    buffer: &mut Buffer,
    bytes: &[u8],
    journal: &mut Journal,
) -> Result<Message, NoMemory>
    requires input { IsInputOf buffer.old.grove.spec input.now }
    requires none { buffer.old.capture ≡ None }
    ensures did { (clip : Option IsClipped) (reads : Reads) → AreReads buffer.old.grove.spec reads
        → IfOk result (λ m. Did (text_turn buffer.old clip reads bytes.now) m
        buffer.new clip (now_of journal.old) (now_of journal.new)) }
    ensures gave_up { (clip : Option IsClipped) (reads : Reads) → AreReads buffer.old.grove.spec reads
        → OnErr result (GaveUp buffer.old.grove.spec (text_turn buffer.old clip reads bytes.now)
        buffer.old buffer.new clip clip (now_of journal.old) (now_of journal.new)) }
    ensures spec { buffer.new.grove.spec ≡ buffer.old.grove.spec }
    ensures height { buffer.new.height ≡ buffer.old.height }
    ensures total { total_of journal.new ≡ total_of journal.old }
{
    if !is_editable_here(buffer) {
        return Ok(Message::NotEditable);
    }
    let Some(entry) = entry_here(buffer) else {
        return Ok(Message::NoEntry);
    };
    buffer.sound();
    let read = enter(
        alloc,
        input.lexemes,
        input.tables,
        buffer.attribution().evaluator(),
        entry,
        bytes,
    );
    put_read(alloc, buffer, read, journal)
}

/// `enter`: as `text`, with the text that is being typed, whose typing ends; where it is not read, its point goes
/// there.
pub fn enter_typed(
    alloc: Global,
    input: &Input,
    buffer: &mut Buffer,
    journal: &mut Journal,
) -> Result<Message, NoMemory>
    requires input { IsInputOf buffer.old.grove.spec input.now }
    ensures did { (clip : Option IsClipped) (reads : Reads) → AreReads buffer.old.grove.spec reads
        → IfOk result (λ m. Did (entry_turn buffer.old clip reads) m
        buffer.new clip (now_of journal.old) (now_of journal.new)) }
    ensures gave_up { (clip : Option IsClipped) (reads : Reads) → AreReads buffer.old.grove.spec reads
        → OnErr result (GaveUp buffer.old.grove.spec (entry_turn buffer.old clip reads)
        buffer.old buffer.new clip clip (now_of journal.old) (now_of journal.new)) }
    ensures spec { buffer.new.grove.spec ≡ buffer.old.grove.spec }
    ensures height { buffer.new.height ≡ buffer.old.height }
    ensures total { total_of journal.new ≡ total_of journal.old }
{
    let Some(text) = buffer.captured() else {
        return Ok(Message::NotInText);
    };
    let Some(entry) = entry_here(buffer) else {
        return Ok(Message::NoEntry);
    };
    buffer.sound();
    let read = enter(
        alloc,
        input.lexemes,
        input.tables,
        buffer.attribution().evaluator(),
        entry,
        text,
    );
    put_read(alloc, buffer, read, journal)
}
