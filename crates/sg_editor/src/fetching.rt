// Files that are loaded.
ghost use Rattle.std.specs.Prelude.{◌≡◌, ◌<◌, [], vec_len, vec_capacity, IfOk, OnErr, None};
ghost use Rattle.sg_eval.specs.Journal.{now_of, total_of};
ghost use Rattle.sg_replies.specs.Calls.{Replied};
ghost use Rattle.sg_replies.specs.Requests.Request.{Fetch};
ghost use Rattle.sg_editor.specs.Ask.{AreReaders, Readers, barred, fetched, read_in, taken};
ghost use Rattle.sg_editor.specs.Editing.{IsKept, session_in};
ghost use Rattle.sg_editor.specs.Session.{with_load};
ghost use Rattle.sg_editor.specs.Steps.{Took, AreSome, IsUnanswered};

use crate::base::Base;
use crate::desk::Desk;
use sg_eval::Journal;
use sg_kinds::limits::FILE_BYTES;
use sg_kinds::memory::NoMemory;
use sg_outside::Shelf;
use sg_replies::{Reply, fetched};
use sg_saved::{OpenFault, read_term};
use sg_script::{FileName, Message};
use std::alloc::Global;

/// Fetches a file, to one byte more than it may have, where there is room for the reply.
pub fn fetch<S: Shelf>(
    alloc: Global,
    shelf: &mut S,
    file: &FileName,
    replies: &mut Vec<Reply>,
) -> Result<Reply, NoMemory>
    ensures ok { IfOk result (λ reply. Replied (Fetch file.now 4194305) reply (S.state shelf.old) (S.state shelf.new)) }
    ensures err { OnErr result (IsUnanswered (S.state shelf.old) (S.state shelf.new)) }
    ensures room { IfOk result (λ _. vec_len replies.new < vec_capacity replies.new) }
    ensures replies { replies.new.items ≡ replies.old.items }
{
    replies.reserve(1)?;
    fetched(alloc, shelf, file.as_str(), FILE_BYTES + 1)
}

impl Desk {
    // makes a buffer of what a file holds
    fn read_in(
        &mut self,
        base: &Base,
        name: &[u8],
        bytes: &[u8],
        journal: &mut Journal,
    ) -> Result<Message, NoMemory>
        requires kept { IsKept base.now.contents.spec base.now.height self.old }
        requires free { taken name.now (session_in self.old) ≡ None }
        requires begun { now_of journal.old ≡ [] }
        ensures took { (r : Readers) → AreReaders base.now.contents.spec r → IfOk result (λ m. Took
            (read_in base.now.contents.spec base.now.height r name.now (session_in self.old) bytes.now) self.new m
            (now_of journal.new)) }
        ensures some { (r : Readers) → AreReaders base.now.contents.spec r → OnErr result (AreSome
            base.now.contents.spec (read_in base.now.contents.spec base.now.height r name.now (session_in self.old)
            bytes.now) (now_of journal.new)) }
        ensures same { OnErr result (session_in self.new ≡ session_in self.old) }
        ensures kept { IsKept base.now.contents.spec base.now.height self.new }
        ensures loads { self.new.loads ≡ self.old.loads }
        ensures total { total_of journal.new ≡ total_of journal.old }
    {
        if FILE_BYTES < bytes.len() {
            return Ok(Message::LongFile);
        }
        match read_term(base.alloc(), base.spec(), bytes) {
            Ok(t) => self.open(base, name, &t, journal),
            Err(OpenFault::Form(k)) => Ok(Message::FormAt(k)),
            Err(OpenFault::Phylum(_)) => Ok(Message::Phylum),
            Err(OpenFault::Size(_, _)) => Ok(Message::Size),
            Err(OpenFault::NoMemory) => Err(NoMemory),
        }
    }

    // makes a buffer of a file by the reply to its request
    fn taken_in(
        &mut self,
        base: &Base,
        name: &[u8],
        reply: &Reply,
        journal: &mut Journal,
    ) -> Result<Message, NoMemory>
        requires kept { IsKept base.now.contents.spec base.now.height self.old }
        requires free { taken name.now (session_in self.old) ≡ None }
        requires begun { now_of journal.old ≡ [] }
        ensures took { (r : Readers) → AreReaders base.now.contents.spec r → IfOk result (λ m. Took
            (fetched base.now.contents.spec base.now.height r name.now (session_in self.old) reply.now) self.new m
            (now_of journal.new)) }
        ensures some { (r : Readers) → AreReaders base.now.contents.spec r → OnErr result (AreSome
            base.now.contents.spec (fetched base.now.contents.spec base.now.height r name.now (session_in self.old)
            reply.now) (now_of journal.new)) }
        ensures same { OnErr result (session_in self.new ≡ session_in self.old) }
        ensures kept { IsKept base.now.contents.spec base.now.height self.new }
        ensures loads { self.new.loads ≡ self.old.loads }
        ensures total { total_of journal.new ≡ total_of journal.old }
    {
        match reply {
            Reply::Fetched(bytes) => self.read_in(base, name, bytes.as_slice(), journal),
            _ => Ok(Message::ReadFault),
        }
    }

    /// Makes a buffer of a file by the reply to its request, and counts the load.
    pub fn take_in(
        &mut self,
        base: &Base,
        name: &[u8],
        reply: &Reply,
        journal: &mut Journal,
    ) -> Result<Message, NoMemory>
        requires kept { IsKept base.now.contents.spec base.now.height self.old }
        requires free { barred name.now (session_in self.old) ≡ None }
        requires begun { now_of journal.old ≡ [] }
        ensures took { (r : Readers) → AreReaders base.now.contents.spec r → IfOk result (λ m. Took
            (fetched base.now.contents.spec base.now.height r name.now (with_load (session_in self.old)) reply.now)
            self.new m (now_of journal.new)) }
        ensures some { (r : Readers) → AreReaders base.now.contents.spec r → OnErr result (AreSome
            base.now.contents.spec (fetched base.now.contents.spec base.now.height r name.now
            (with_load (session_in self.old)) reply.now) (now_of journal.new)) }
        ensures same { OnErr result (session_in self.new ≡ session_in self.old) }
        ensures kept { IsKept base.now.contents.spec base.now.height self.new }
        ensures total { total_of journal.new ≡ total_of journal.old }
    {
        let message = self.taken_in(base, name, reply, journal)?;
        self.loads += 1;
        Ok(message)
    }
}
