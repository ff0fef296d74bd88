//! Commands that put another term in the place of a subterm.
ghost use Rattle.std.specs.Prelude.{◌≡◌, Option, IfOk, OnErr};
ghost use Rattle.sg_kinds.specs.Fits.{Fits};
ghost use Rattle.sg_kinds.specs.Places.{place_of};
ghost use Rattle.sg_eval.specs.Journal.{now_of, total_of};
ghost use Rattle.sg_buffer.specs.Held.{state_of};
ghost use Rattle.sg_edits.specs.Choice.{choice_of, FitsThere, IsFit, Put};
ghost use Rattle.sg_edits.specs.Edits as edits;
ghost use Rattle.sg_edits.specs.declared.clip.Clip.{Clip as IsClipped};
ghost use Rattle.sg_commands.specs.Did.{Did, GaveUp};
ghost use Rattle.sg_commands.specs.Replaced.{chosen_in, chosen_of, picked_of, puts_in, replaces_in};
ghost use Rattle.sg_commands.specs.Turns.{cuts};
ghost use Rattle.sg_commands.specs.Clipped.{IsClip};

use sg_buffer::{Buffer, BufferFault};
use sg_changes::Selection;
use sg_edits::{Choice, Clip, copied, deleted, done, everywhere, inserted, pasted, removed};
use sg_eval::Journal;
use sg_kinds::memory::NoMemory;
use sg_kinds::row::Path;
use sg_kinds::term::Term;
use sg_script::Message;
use std::alloc::Global;

// puts a term in the place of a subterm whose phylum it fits, unless the whole term would be over a limit
fn put_in(
    buffer: &mut Buffer,
    at: &Path,
    t: &Term,
    select: &Selection,
    journal: &mut Journal,
) -> Result<Message, NoMemory>
    requires fits { FitsThere buffer.old.grove.spec (state_of buffer.old).term (place_of at.now) t.now }
    ensures did { (clip : Option IsClipped) → IfOk result (λ m. Did (puts_in buffer.old clip
        (Put (place_of at.now) t.now (picked_of select.now))) m buffer.new clip
        (now_of journal.old) (now_of journal.new)) }
    ensures gave_up { (clip : Option IsClipped) → OnErr result (GaveUp buffer.old.grove.spec (puts_in buffer.old clip
        (Put (place_of at.now) t.now (picked_of select.now))) buffer.old buffer.new clip clip
        (now_of journal.old) (now_of journal.new)) }
    ensures spec { buffer.new.grove.spec ≡ buffer.old.grove.spec }
    ensures height { buffer.new.height ≡ buffer.old.height }
    ensures total { total_of journal.new ≡ total_of journal.old }
{
    buffer.sound();
    match buffer.replace(at, t, select, journal) {
        Ok(()) => Ok(Message::Fine),
        Err(BufferFault::Size(_)) => Ok(Message::Size),
        Err(BufferFault::NoMemory) => Err(NoMemory),
    }
}

/// Puts what a choice says in its place, unless it is refused or the whole term would be over a limit.
pub fn put_choice(
    buffer: &mut Buffer,
    choice: Choice,
    journal: &mut Journal,
) -> Result<Message, NoMemory>
    requires fits { IsFit buffer.old.grove.spec (state_of buffer.old).term (choice_of choice) }
    ensures did { (clip : Option IsClipped) → IfOk result (λ m. Did (puts_in buffer.old clip (choice_of choice)) m
        buffer.new clip (now_of journal.old) (now_of journal.new)) }
    ensures gave_up { (clip : Option IsClipped) → OnErr result (GaveUp buffer.old.grove.spec
        (puts_in buffer.old clip (choice_of choice)) buffer.old buffer.new clip clip
        (now_of journal.old) (now_of journal.new)) }
    ensures spec { buffer.new.grove.spec ≡ buffer.old.grove.spec }
    ensures height { buffer.new.height ≡ buffer.old.height }
    ensures total { total_of journal.new ≡ total_of journal.old }
{
    match choice {
        Choice::Refused(why) => Ok(why),
        Choice::Put {
            at,
            term,
            select,
            count,
        } => {
            let select = Selection {
                path: select,
                count,
            };
            Ok(put_in(buffer, &at, &term, &select, journal)?)
        }
    }
}

/// `do`: what the transformations of a name give at the selected node, in its place.
pub fn transform(
    alloc: Global,
    buffer: &mut Buffer,
    name: &[u8],
    journal: &mut Journal,
) -> Result<Message, NoMemory>
    ensures did { (clip : Option IsClipped) → IfOk result (λ m. Did (puts_in buffer.old clip
        (chosen_in buffer.old (λ spec t u. edits.done spec t u name.now))) m
        buffer.new clip (now_of journal.old) (now_of journal.new)) }
    ensures gave_up { (clip : Option IsClipped) → OnErr result (GaveUp buffer.old.grove.spec (puts_in buffer.old clip
        (chosen_in buffer.old (λ spec t u. edits.done spec t u name.now)))
        buffer.old buffer.new clip clip (now_of journal.old) (now_of journal.new)) }
    ensures spec { buffer.new.grove.spec ≡ buffer.old.grove.spec }
    ensures height { buffer.new.height ≡ buffer.old.height }
    ensures total { total_of journal.new ≡ total_of journal.old }
{
    buffer.facts();
    let choice = done(
        alloc,
        buffer.terms(),
        buffer.attribution().evaluator(),
        buffer.selected(),
        name,
    )?;
    put_choice(buffer, choice, journal)
}

/// `replace-all`: what the transformations of a name give in the outermost places at and below the selected node, as one
/// change.
pub fn replace_all(
    alloc: Global,
    buffer: &mut Buffer,
    name: &[u8],
    journal: &mut Journal,
) -> Result<Message, NoMemory>
    ensures did { (clip : Option IsClipped) → IfOk result (λ m. Did (puts_in buffer.old clip
        (chosen_in buffer.old (λ spec t u. edits.everywhere spec t u name.now))) m
        buffer.new clip (now_of journal.old) (now_of journal.new)) }
    ensures gave_up { (clip : Option IsClipped) → OnErr result (GaveUp buffer.old.grove.spec (puts_in buffer.old clip
        (chosen_in buffer.old (λ spec t u. edits.everywhere spec t u name.now)))
        buffer.old buffer.new clip clip (now_of journal.old) (now_of journal.new)) }
    ensures spec { buffer.new.grove.spec ≡ buffer.old.grove.spec }
    ensures height { buffer.new.height ≡ buffer.old.height }
    ensures total { total_of journal.new ≡ total_of journal.old }
{
    buffer.facts();
    let choice = everywhere(
        alloc,
        buffer.terms(),
        buffer.attribution().evaluator(),
        buffer.selected(),
        name,
    )?;
    put_choice(buffer, choice, journal)
}

/// `delete`: the completing term of the selected node's phylum in its place, or the list without the selected elements.
pub fn delete(
    alloc: Global,
    buffer: &mut Buffer,
    journal: &mut Journal,
) -> Result<Message, NoMemory>
    ensures did { (clip : Option IsClipped) → IfOk result (λ m. Did (puts_in buffer.old clip
        (chosen_of buffer.old edits.deleted)) m
        buffer.new clip (now_of journal.old) (now_of journal.new)) }
    ensures gave_up { (clip : Option IsClipped) → OnErr result (GaveUp buffer.old.grove.spec (puts_in buffer.old clip
        (chosen_of buffer.old edits.deleted))
        buffer.old buffer.new clip clip (now_of journal.old) (now_of journal.new)) }
    ensures spec { buffer.new.grove.spec ≡ buffer.old.grove.spec }
    ensures height { buffer.new.height ≡ buffer.old.height }
    ensures total { total_of journal.new ≡ total_of journal.old }
{
    buffer.facts();
    let choice = deleted(alloc, buffer.terms(), buffer.selected(), buffer.count())?;
    put_choice(buffer, choice, journal)
}

/// `remove`: the list without the selected elements. It never gets over a limit.
pub fn remove(
    alloc: Global,
    buffer: &mut Buffer,
    journal: &mut Journal,
) -> Result<Message, NoMemory>
    ensures did { (clip : Option IsClipped) → IfOk result (λ m. Did (replaces_in buffer.old clip
        (chosen_of buffer.old edits.removed)) m
        buffer.new clip (now_of journal.old) (now_of journal.new)) }
    ensures gave_up { (clip : Option IsClipped) → OnErr result (GaveUp buffer.old.grove.spec
        (replaces_in buffer.old clip (chosen_of buffer.old edits.removed))
        buffer.old buffer.new clip clip (now_of journal.old) (now_of journal.new)) }
    ensures spec { buffer.new.grove.spec ≡ buffer.old.grove.spec }
    ensures height { buffer.new.height ≡ buffer.old.height }
    ensures total { total_of journal.new ≡ total_of journal.old }
{
    buffer.facts();
    let choice = removed(alloc, buffer.terms(), buffer.selected(), buffer.count())?;
    put_choice(buffer, choice, journal)
}

/// `insert-before` and `insert-after`: a new element beside the selected ones.
pub fn insert(
    alloc: Global,
    buffer: &mut Buffer,
    after: bool,
    journal: &mut Journal,
) -> Result<Message, NoMemory>
    ensures did { (clip : Option IsClipped) → IfOk result (λ m. Did (puts_in buffer.old clip
        (chosen_of buffer.old (λ spec t u n. edits.inserted spec t u n after))) m
        buffer.new clip (now_of journal.old) (now_of journal.new)) }
    ensures gave_up { (clip : Option IsClipped) → OnErr result (GaveUp buffer.old.grove.spec (puts_in buffer.old clip
        (chosen_of buffer.old (λ spec t u n. edits.inserted spec t u n after)))
        buffer.old buffer.new clip clip (now_of journal.old) (now_of journal.new)) }
    ensures spec { buffer.new.grove.spec ≡ buffer.old.grove.spec }
    ensures height { buffer.new.height ≡ buffer.old.height }
    ensures total { total_of journal.new ≡ total_of journal.old }
{
    buffer.facts();
    let choice = inserted(
        alloc,
        buffer.terms(),
        buffer.selected(),
        buffer.count(),
        after,
    )?;
    put_choice(buffer, choice, journal)
}

// `paste` of what was copied
fn paste_clip(
    alloc: Global,
    buffer: &mut Buffer,
    copy: &Clip,
    journal: &mut Journal,
) -> Result<Message, NoMemory>
    requires clip { Fits buffer.old.grove.spec copy.now.term copy.now.phylum }
    ensures did { (clip : Option IsClipped) → IfOk result (λ m. Did (puts_in buffer.old clip
        (chosen_of buffer.old (λ spec t u n. edits.pasted spec t u n (Some copy.now)))) m
        buffer.new clip (now_of journal.old) (now_of journal.new)) }
    ensures gave_up { (clip : Option IsClipped) → OnErr result (GaveUp buffer.old.grove.spec (puts_in buffer.old clip
        (chosen_of buffer.old (λ spec t u n. edits.pasted spec t u n (Some copy.now))))
        buffer.old buffer.new clip clip (now_of journal.old) (now_of journal.new)) }
    ensures spec { buffer.new.grove.spec ≡ buffer.old.grove.spec }
    ensures height { buffer.new.height ≡ buffer.old.height }
    ensures total { total_of journal.new ≡ total_of journal.old }
{
    buffer.facts();
    let choice = pasted(
        alloc,
        buffer.terms(),
        buffer.selected(),
        buffer.count(),
        Some(copy),
    )?;
    put_choice(buffer, choice, journal)
}

/// `paste`: what was copied, in the place of what is selected, where it may stand.
pub fn paste(
    alloc: Global,
    buffer: &mut Buffer,
    clip: &Option<Clip>,
    journal: &mut Journal,
) -> Result<Message, NoMemory>
    requires clip { IsClip buffer.old.grove.spec clip.now }
    ensures did { IfOk result (λ m. Did (puts_in buffer.old clip.now
        (chosen_of buffer.old (λ spec t u n. edits.pasted spec t u n clip.now))) m
        buffer.new clip.now (now_of journal.old) (now_of journal.new)) }
    ensures gave_up { OnErr result (GaveUp buffer.old.grove.spec (puts_in buffer.old clip.now
        (chosen_of buffer.old (λ spec t u n. edits.pasted spec t u n clip.now)))
        buffer.old buffer.new clip.now clip.now (now_of journal.old) (now_of journal.new)) }
    ensures spec { buffer.new.grove.spec ≡ buffer.old.grove.spec }
    ensures height { buffer.new.height ≡ buffer.old.height }
    ensures total { total_of journal.new ≡ total_of journal.old }
{
    match clip {
        Some(copy) => paste_clip(alloc, buffer, copy, journal),
        None => Ok(Message::ClipEmpty),
    }
}

/// `cut`: what is selected is copied and then deleted. Where that is refused nothing is copied.
pub fn cut(
    alloc: Global,
    buffer: &mut Buffer,
    clip: &mut Option<Clip>,
    journal: &mut Journal,
) -> Result<Message, NoMemory>
    ensures did { IfOk result (λ m. Did (cuts buffer.old.grove.spec buffer.old.height clip.old (state_of buffer.old)) m
        buffer.new clip.new (now_of journal.old) (now_of journal.new)) }
    ensures gave_up { OnErr result (GaveUp buffer.old.grove.spec
        (cuts buffer.old.grove.spec buffer.old.height clip.old (state_of buffer.old))
        buffer.old buffer.new clip.old clip.new (now_of journal.old) (now_of journal.new)) }
    ensures fits { IsClip buffer.old.grove.spec clip.old → IsClip buffer.old.grove.spec clip.new }
    ensures spec { buffer.new.grove.spec ≡ buffer.old.grove.spec }
    ensures height { buffer.new.height ≡ buffer.old.height }
    ensures total { total_of journal.new ≡ total_of journal.old }
{
    buffer.facts();
    let copy = copied(alloc, buffer.terms(), buffer.selected(), buffer.count())?;
    let said = delete(alloc, buffer, journal)?;
    if let Message::Fine = said {
        *clip = Some(copy);
    }
    Ok(said)
}
