//! Commands that change nothing of the term but marks of the selected node, or only read it.
ghost use Rattle.std.specs.Prelude.{◌≡◌, List, None, Option, Some, false, true, MatchOption, IfOk, OnErr, if◌then◌else◌, ◌≤◌, ◌<◌, length, position, bytes_eq, IfSome};
ghost use Rattle.sg_eval.specs.declared.journal.Instance.{Instance};
ghost use Rattle.sg_kinds.specs.Fits.{Fits};
ghost use Rattle.sg_select.specs.Leads.{LeadsTo};
ghost use Rattle.sg_search.specs.Found.{found_behind, is_known as known};
ghost use Rattle.sg_states.specs.States.{extension, selected_place, viewed};
ghost use Rattle.sg_buffer.specs.Held.{state_of};
ghost use Rattle.sg_edits.specs.declared.clip.Clip.{Clip as IsClipped};
ghost use Rattle.sg_script.specs.declared.message.Message.TheVariants as messages;
ghost use Rattle.sg_commands.specs.Did.{Did, GaveUp};
ghost use Rattle.sg_commands.specs.Turn.{Turn, becomes};
ghost use Rattle.sg_commands.specs.Turns.{copied_of, extends, finds, found_next, goes, marks, picks, shrinks, view_named, views, views_named};

use sg_buffer::Buffer;
use sg_edits::{Clip, copied};
use sg_forest::NodeId;
use sg_kinds::memory::NoMemory;
use sg_kinds::spec::Spec;
use sg_kinds::text::Text;
use sg_script::Message;
use sg_search::{is_known, next_found};
use sg_states::{Extended, Mark, Move};
use std::alloc::Global;

/// That something was done, or why it was not.
pub fn said(done: bool, otherwise: Message) -> Message
    ensures { result ≡ (if done then messages.Fine else otherwise) }
{
    if done { Message::Fine } else { otherwise }
}

/// `next`, `prev`, `up`, `first` and `sibling`. No text is being typed.
pub fn go(buffer: &mut Buffer, to: Move) -> Result<Message, NoMemory>
    requires { buffer.old.capture ≡ None }
    ensures did { (clip : Option IsClipped) (now : List Instance) → IfOk result (λ m. Did (goes
        buffer.old.grove.spec buffer.old.height clip (state_of buffer.old) to) m buffer.new clip now now) }
    ensures gave_up { (turn : Turn) (clip : Option IsClipped) (now : List Instance) → OnErr result (GaveUp
        buffer.old.grove.spec turn buffer.old buffer.new clip clip now now) }
    ensures spec { buffer.new.grove.spec ≡ buffer.old.grove.spec }
    ensures height { buffer.new.height ≡ buffer.old.height }
{
    let done = buffer.go(to)?;
    Ok(said(done, Message::NoPlace))
}

/// `goto`. No text is being typed.
pub fn pick(buffer: &mut Buffer, line: u32, column: u32) -> Result<Message, NoMemory>
    requires { buffer.old.capture ≡ None }
    ensures did { (clip : Option IsClipped) (now : List Instance) → IfOk result (λ m. Did (picks
        buffer.old.grove.spec buffer.old.height clip (state_of buffer.old) line column) m buffer.new clip now now) }
    ensures gave_up { (turn : Turn) (clip : Option IsClipped) (now : List Instance) → OnErr result (GaveUp
        buffer.old.grove.spec turn buffer.old buffer.new clip clip now now) }
    ensures spec { buffer.new.grove.spec ≡ buffer.old.grove.spec }
    ensures height { buffer.new.height ≡ buffer.old.height }
{
    let done = buffer.pick(line as usize, column as usize)?;
    Ok(said(done, Message::NoPlace))
}

/// `extend`: one more element of the list is selected. No text is being typed. It takes no memory.
pub fn extend(buffer: &mut Buffer) -> Message
    requires { buffer.old.capture ≡ None }
    ensures did { (clip : Option IsClipped) (now : List Instance) → Did (extends clip (state_of buffer.old)
        (extension buffer.old.grove.spec (state_of buffer.old))) result buffer.new clip now now }
    ensures spec { buffer.new.grove.spec ≡ buffer.old.grove.spec }
    ensures height { buffer.new.height ≡ buffer.old.height }
{
    match buffer.extend() {
        Extended::Done => Message::Fine,
        Extended::NotInList => Message::NotInList,
        Extended::NoPlace => Message::NoPlace,
    }
}

/// `shrink`: one element less of a run is selected. No text is being typed. It takes no memory.
pub fn shrink(buffer: &mut Buffer) -> Message
    requires { buffer.old.capture ≡ None }
    ensures did { (clip : Option IsClipped) (now : List Instance) → Did (shrinks clip (state_of buffer.old))
        result buffer.new clip now now }
    ensures spec { buffer.new.grove.spec ≡ buffer.old.grove.spec }
    ensures height { buffer.new.height ≡ buffer.old.height }
{
    said(buffer.shrink(), Message::NoPlace)
}

// whether some phylum has a transformation of a name
fn is_known_here(buffer: &Buffer, name: &[u8]) -> bool
    ensures { result ≡ known buffer.now.grove.spec name.now }
{
    is_known(buffer.terms().spec(), name)
}

// the next node behind the selected one that rests in the view and at which a transformation of a name applies
fn found_here(alloc: Global, buffer: &Buffer, name: &[u8]) -> Result<Option<NodeId>, NoMemory>
    ensures { IfOk result (LeadsTo buffer.now.grove buffer.now.root (found_behind buffer.now.grove.spec
        (state_of buffer.now).spot.view name.now (state_of buffer.now).term (selected_place (state_of buffer.now)))) }
{
    buffer.facts();
    next_found(
        alloc,
        buffer.terms(),
        buffer.root(),
        buffer.selected(),
        name,
    )
}

// selects the next node behind the selected one at which a transformation of a name applies
fn find_next(alloc: Global, buffer: &mut Buffer, name: &[u8]) -> Result<bool, NoMemory>
    requires { buffer.old.capture ≡ None }
    ensures found { IfOk result (λ r. MatchOption (found_next buffer.old.grove.spec buffer.old.height name.now
        (state_of buffer.old)) ((r ≡ false) × (buffer.new ≡ buffer.old))
        (λ st. (r ≡ true) × (state_of buffer.new ≡ st))) }
    ensures err { OnErr result (buffer.new ≡ buffer.old) }
    ensures spec { buffer.new.grove.spec ≡ buffer.old.grove.spec }
    ensures height { buffer.new.height ≡ buffer.old.height }
{
    let found = found_here(alloc, buffer, name)?;
    match found {
        Some(n) => {
            buffer.select(n)?;
            Ok(true)
        }
        None => Ok(false),
    }
}

/// `find`: the next place behind the selected one that rests in the view and at which a transformation of a name
/// applies. No text is being typed.
pub fn find(alloc: Global, buffer: &mut Buffer, name: &[u8]) -> Result<Message, NoMemory>
    requires { buffer.old.capture ≡ None }
    ensures did { (clip : Option IsClipped) (now : List Instance) → IfOk result (λ m. Did (finds
        buffer.old.grove.spec buffer.old.height clip (state_of buffer.old) name.now) m buffer.new clip now now) }
    ensures gave_up { (turn : Turn) (clip : Option IsClipped) (now : List Instance) → OnErr result (GaveUp
        buffer.old.grove.spec turn buffer.old buffer.new clip clip now now) }
    ensures spec { buffer.new.grove.spec ≡ buffer.old.grove.spec }
    ensures height { buffer.new.height ≡ buffer.old.height }
{
    if !is_known_here(buffer, name) {
        return Ok(Message::Unknown);
    }
    let done = find_next(alloc, buffer, name)?;
    Ok(said(done, Message::NoMatch))
}

/// `alternate` and `elide`. One node is selected, and no text is being typed.
pub fn toggle(buffer: &mut Buffer, mark: Mark) -> Result<Message, NoMemory>
    requires none { buffer.old.capture ≡ None }
    requires one { (state_of buffer.old).spot.selection.count ≡ 1 }
    ensures did { (clip : Option IsClipped) (now : List Instance) → IfOk result (λ m. Did (marks
        buffer.old.grove.spec buffer.old.height clip (state_of buffer.old) mark) m buffer.new clip now now) }
    ensures gave_up { (turn : Turn) (clip : Option IsClipped) (now : List Instance) → OnErr result (GaveUp
        buffer.old.grove.spec turn buffer.old buffer.new clip clip now now) }
    ensures spec { buffer.new.grove.spec ≡ buffer.old.grove.spec }
    ensures height { buffer.new.height ≡ buffer.old.height }
{
    buffer.facts();
    let done = buffer.toggle(mark)?;
    Ok(said(done, Message::NoAlternate))
}

// the place of a name among names
fn place_of(names: &[Text], name: &[u8]) -> Option<usize>
    ensures place { result ≡ position (bytes_eq name.now) names.now }
    ensures within { IfSome result (λ k. k < length names.now) }
{
    names.iter().position(|x| name == x.as_slice())
}

// the number of the view of a name, from 1 on
fn view_named(spec: &Spec, name: &[u8]) -> Option<u32>
    requires { length spec.now.views.names ≤ 16 }
    ensures { result ≡ view_named spec.now name.now }
{
    match place_of(spec.views.names.as_slice(), name) {
        Some(place) => Some(place as u32 + 1),
        None => None,
    }
}

// that of a view of a buffer's specification
fn view_here(buffer: &Buffer, name: &[u8]) -> Option<u32>
    ensures { result ≡ view_named buffer.now.grove.spec name.now }
{
    let terms = buffer.terms();
    terms.facts();
    view_named(terms.spec(), name)
}

// shows the term in a view
fn show_in(buffer: &mut Buffer, v: u32) -> Result<Message, NoMemory>
    requires { buffer.old.capture ≡ None }
    ensures did { (clip : Option IsClipped) (now : List Instance) → IfOk result (λ m. Did (becomes clip
        (viewed buffer.old.grove.spec buffer.old.height v (state_of buffer.old))) m buffer.new clip now now) }
    ensures gave_up { (turn : Turn) (clip : Option IsClipped) (now : List Instance) → OnErr result (GaveUp
        buffer.old.grove.spec turn buffer.old buffer.new clip clip now now) }
    ensures spec { buffer.new.grove.spec ≡ buffer.old.grove.spec }
    ensures height { buffer.new.height ≡ buffer.old.height }
{
    buffer.view(v)?;
    Ok(Message::Fine)
}

// shows the term in the view of a name
fn show_named(buffer: &mut Buffer, name: &[u8]) -> Result<Message, NoMemory>
    requires { buffer.old.capture ≡ None }
    ensures did { (clip : Option IsClipped) (now : List Instance) → IfOk result (λ m. Did (views_named
        buffer.old.grove.spec buffer.old.height clip (state_of buffer.old) name.now) m buffer.new clip now now) }
    ensures gave_up { (turn : Turn) (clip : Option IsClipped) (now : List Instance) → OnErr result (GaveUp
        buffer.old.grove.spec turn buffer.old buffer.new clip clip now now) }
    ensures spec { buffer.new.grove.spec ≡ buffer.old.grove.spec }
    ensures height { buffer.new.height ≡ buffer.old.height }
{
    match view_here(buffer, name) {
        Some(v) => show_in(buffer, v),
        None => Ok(Message::Unknown),
    }
}

/// `view`: the term is shown in the view of a name, or in the ordinary one. No text is being typed.
pub fn view(buffer: &mut Buffer, name: &Option<Text>) -> Result<Message, NoMemory>
    requires { buffer.old.capture ≡ None }
    ensures did { (clip : Option IsClipped) (now : List Instance) → IfOk result (λ m. Did (views
        buffer.old.grove.spec buffer.old.height clip (state_of buffer.old) name.now) m buffer.new clip now now) }
    ensures gave_up { (turn : Turn) (clip : Option IsClipped) (now : List Instance) → OnErr result (GaveUp
        buffer.old.grove.spec turn buffer.old buffer.new clip clip now now) }
    ensures spec { buffer.new.grove.spec ≡ buffer.old.grove.spec }
    ensures height { buffer.new.height ≡ buffer.old.height }
{
    match name {
        Some(name) => show_named(buffer, name.as_slice()),
        None => show_in(buffer, 0),
    }
}

/// `copy`: the selected term, or the selected elements as a list of them alone, with the phylum that it fits.
pub fn copy(alloc: Global, buffer: &Buffer) -> Result<Clip, NoMemory>
    ensures clip { IfOk result (λ c. c ≡ copied_of buffer.now.grove.spec (state_of buffer.now)) }
    ensures fits { IfOk result (λ c. Fits buffer.now.grove.spec c.term c.phylum) }
{
    buffer.facts();
    Ok(copied(alloc, buffer.terms(), buffer.selected(), buffer.count())?)
}
