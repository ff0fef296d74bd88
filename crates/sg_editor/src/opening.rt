// New buffers.
ghost use Rattle.std.specs.Prelude.{◌≡◌, ◌<◌, [], Contains, IfOk, OnErr, None};
ghost use Rattle.sg_kinds.specs.Fits.{Fits};
ghost use Rattle.sg_kinds.specs.Instances.{instances};
ghost use Rattle.sg_kinds.specs.Sound.{IsSmall};
ghost use Rattle.sg_kinds.specs.Specification.{rules_of};
ghost use Rattle.sg_eval.specs.Journal.{now_of, total_of};
ghost use Rattle.sg_terms.specs.Entries.{GainedAll};
ghost use Rattle.sg_exchanges.specs.Noted.{Noted};
ghost use Rattle.sg_states.specs.States.{begun};
ghost use Rattle.sg_buffer.specs.Held.{state_of};
ghost use Rattle.sg_editor.specs.Ask.{opens, news, taken};
ghost use Rattle.sg_editor.specs.Editing.{IsKept, IsOver, session_in};
ghost use Rattle.sg_editor.specs.Steps.{Took, AreSome};

use crate::base::Base;
use crate::desk::{Desk, Named};
use sg_buffer::{Buffer, BufferFault};
use sg_eval::Journal;
use sg_kinds::memory::NoMemory;
use sg_kinds::term::Term;
use sg_kinds::text::Text;
use sg_script::Message;

// a buffer of a term of the root's phylum that is in the limits
fn begun(base: &Base, t: &Term, journal: &mut Journal) -> Result<Buffer, NoMemory>
    requires fits { Fits base.now.contents.spec t.now base.now.contents.spec.root }
    requires small { IsSmall t.now }
    ensures state { IfOk result (λ b. state_of b ≡ begun t.now) }
    ensures over { IfOk result (IsOver base.now.contents.spec base.now.height) }
    ensures evaluated { IfOk result (λ b. GainedAll b.grove b.root t.now (Contains (instances
        (rules_of base.now.contents.spec) t.now)) (now_of journal.old) (now_of journal.new)) }
    ensures noted { OnErr result (Noted base.now.contents.spec t.now (Contains (instances
        (rules_of base.now.contents.spec) t.now)) (now_of journal.old) (now_of journal.new)) }
    ensures total { total_of journal.new ≡ total_of journal.old }
{
    match Buffer::new(base.alloc(), base.attribution(), t, base.height(), journal) {
        Ok(buffer) => Ok(buffer),
        Err(BufferFault::NoMemory) => Err(NoMemory),
        Err(BufferFault::Size(_)) => unreachable!(),
    }
}

impl Desk {
    /// Makes a buffer of a term of the root's phylum that is in the limits. It becomes current.
    pub fn open(
        &mut self,
        base: &Base,
        name: &[u8],
        t: &Term,
        journal: &mut Journal,
    ) -> Result<Message, NoMemory>
        requires kept { IsKept base.now.contents.spec base.now.height self.old }
        requires free { taken name.now (session_in self.old) ≡ None }
        requires fits { Fits base.now.contents.spec t.now base.now.contents.spec.root }
        requires small { IsSmall t.now }
        requires begun { now_of journal.old ≡ [] }
        ensures took { IfOk result (λ m. Took (opens base.now.contents.spec name.now t.now (session_in self.old))
            self.new m (now_of journal.new)) }
        ensures some { OnErr result (AreSome base.now.contents.spec (opens base.now.contents.spec name.now t.now
            (session_in self.old)) (now_of journal.new)) }
        ensures same { OnErr result (session_in self.new ≡ session_in self.old) }
        ensures kept { IsKept base.now.contents.spec base.now.height self.new }
        ensures loads { self.new.loads ≡ self.old.loads }
        ensures total { total_of journal.new ≡ total_of journal.old }
    {
        self.leave();
        self.named.reserve(1)?;
        let name = Text::from_slice(base.alloc(), name)?;
        let buffer = begun(base, t, journal)?;
        let place = self.named.len();
        self.named.push(Named { name, buffer }).unwrap();
        self.current = Some(place);
        Ok(Message::Fine)
    }

    /// Makes a buffer of the completing term of the root's phylum.
    pub fn begin(
        &mut self,
        base: &Base,
        name: &[u8],
        journal: &mut Journal,
    ) -> Result<Message, NoMemory>
        requires kept { IsKept base.now.contents.spec base.now.height self.old }
        requires begun { now_of journal.old ≡ [] }
        ensures took { IfOk result (λ m. Took (news base.now.contents.spec name.now (session_in self.old)) self.new m
            (now_of journal.new)) }
        ensures some { OnErr result (AreSome base.now.contents.spec (news base.now.contents.spec name.now
            (session_in self.old)) (now_of journal.new)) }
        ensures same { OnErr result (session_in self.new ≡ session_in self.old) }
        ensures kept { IsKept base.now.contents.spec base.now.height self.new }
        ensures total { total_of journal.new ≡ total_of journal.old }
    {
        if let Some(why) = self.taken(name) {
            return Ok(why);
        }
        let spec = base.spec();
        let t = spec.completing(base.alloc(), spec.root)?;
        self.open(base, name, &t, journal)
    }
}
