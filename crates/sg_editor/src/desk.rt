// The buffers of a session.
ghost use Rattle.std.specs.Prelude.{◌≡◌, ℕ, bytes_eq, position, [], MatchOption, Some, None};
ghost use Rattle.sg_kinds.specs.declared.spec.Spec.{Spec};
ghost use Rattle.sg_editor.specs.declared.desk.Named.{Named as IsNamed};
ghost use Rattle.sg_editor.specs.Ask.{barred, shows, switches, taken};
ghost use Rattle.sg_editor.specs.Editing.{IsKept, current_in, session_in};
ghost use Rattle.sg_editor.specs.Session.{buffer_named};
ghost use Rattle.sg_editor.specs.Steps.{Took};

use sg_buffer::Buffer;
use sg_edits::Clip;
use sg_kinds::limits::{BUFFERS, LOADS};
use sg_kinds::text::Text;
use sg_script::Message;
use std::alloc::Global;
use std::marker::Model;

/// A buffer with its name.
#[derive(Drop)]
pub struct Named {
    pub name: Text,
    pub buffer: Buffer,
}

/// The buffers of a session in the order in which they were made, which of them is current, what was copied last, and
/// how many loads have called the shelf.
#[derive(Drop)]
pub struct Desk {
    pub named: Vec<Named>,
    pub current: Option<usize>,
    pub clip: Option<Clip>,
    pub loads: u32,
}

impl Model for Desk {
    ghost use Rattle.sg_edits.specs.contracts.clip.Clip as clip_type;
    ghost use Rattle.sg_editor.specs.contracts.desk.Named as named_type;
    ghost use Rattle.sg_editor.specs.Editing.{Kept, kept_code};

    ghost Value = { Kept };

    ghost coded = { kept_code named_type.the_row.coded clip_type.the_row.coded };

    ghost view = { λ d. record { buffers = d.named.items; current = d.current; clip = d.clip; loads = d.loads } };
}

// the place of the buffer of a name
fn place_in(named: &[Named], name: &[u8]) -> Option<usize>
    ensures { result ≡ position (λ (b : IsNamed). bytes_eq name.now b.name) named.now }
{
    named.iter().position(|b| name == b.name.as_slice())
}

impl Desk {
    /// No buffers.
    pub fn new(alloc: Global) -> Desk
        ensures { result ≡ record { buffers = []; current = None; clip = None; loads = 0 } }
    {
        Desk {
            named: Vec::new(alloc),
            current: None,
            clip: None,
            loads: 0,
        }
    }

    /// The place of the buffer of a name.
    #[tactic(auto, using(crate::proofs::Told::named_told))]
    pub fn place_of(&self, name: &[u8]) -> Option<usize>
        ensures { result ≡ buffer_named name.now (session_in self.now) }
    {
        place_in(self.named.as_slice(), name)
    }

    /// Why there can be no new buffer of a name.
    pub fn taken(&self, name: &[u8]) -> Option<Message>
        ensures { result ≡ taken name.now (session_in self.now) }
    {
        if self.place_of(name).is_some() {
            return Some(Message::NameInUse);
        }
        if BUFFERS <= self.named.len() {
            return Some(Message::TooManyBuffers);
        }
        None
    }

    /// Why a load of a buffer of that name cannot call the shelf.
    pub fn barred(&self, name: &[u8]) -> Option<Message>
        ensures { result ≡ barred name.now (session_in self.now) }
    {
        if let Some(why) = self.taken(name) {
            return Some(why);
        }
        if LOADS <= self.loads {
            return Some(Message::TooManyFiles);
        }
        None
    }

    /// The current buffer.
    pub fn current(&self) -> Option<&Named>
        ensures { MatchOption result (current_in self.now ≡ None) (λ b. current_in self.now ≡ Some b.now) }
    {
        self.named.get(self.current?)
    }

    /// Lets go of the page of the current buffer, which is made anew where it is wanted.
    pub fn leave(&mut self)
        ensures { self.new ≡ self.old }
    {
        let Some(k) = self.current else {
            return;
        };
        if k < self.named.len() {
            self.named[k].buffer.forget_page();
        }
    }

    /// Makes the buffer of a name current.
    pub fn switch(&mut self, name: &[u8]) -> Message
        ensures took { Took (switches name.now (session_in self.old)) self.new result [] }
        ensures kept { (spec : Spec) (height : ℕ) → IsKept spec height self.old → IsKept spec height self.new }
    {
        let Some(k) = self.place_of(name) else {
            return Message::NoBuffer;
        };
        self.leave();
        self.current = Some(k);
        Message::Fine
    }

    /// Shows what is there.
    pub fn show(&self) -> Message
        ensures { Took (shows (session_in self.now)) self.now result [] }
    {
        match self.current() {
            Some(_) => Message::Fine,
            None => Message::NoBuffer,
        }
    }
}
