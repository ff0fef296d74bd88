// Commands in the current buffer.
ghost use Rattle.std.specs.Prelude.{◌≡◌, [], IfOk, IsTrue, OnErr};
ghost use Rattle.sg_eval.specs.Journal.{now_of, total_of};
ghost use Rattle.sg_editor.specs.Ask.{AreReaders, Readers, in_current, tells};
ghost use Rattle.sg_editor.specs.Editing.{IsKept, session_in};
ghost use Rattle.sg_editor.specs.Steps.{Took, AreSome, NotedHere, is_turn};

use crate::base::Base;
use crate::desk::Desk;
use sg_commands::turn;
use sg_eval::Journal;
use sg_kinds::memory::NoMemory;
use sg_script::{Command, Message};

impl Desk {
    /// A command in the current buffer.
    pub fn turn(
        &mut self,
        base: &Base,
        command: &Command,
        journal: &mut Journal,
    ) -> Result<Message, NoMemory>
        requires kept { IsKept base.now.contents.spec base.now.height self.old }
        requires begun { now_of journal.old ≡ [] }
        ensures took { (r : Readers) → AreReaders base.now.contents.spec r → IfOk result (λ m. Took
            (in_current base.now.contents.spec base.now.height r (session_in self.old) command.now self.old.current)
            self.new m (now_of journal.new)) }
        ensures some { (r : Readers) → AreReaders base.now.contents.spec r → OnErr result (AreSome
            base.now.contents.spec (in_current base.now.contents.spec base.now.height r (session_in self.old)
            command.now self.old.current) (now_of journal.new)) }
        ensures nodes { (r : Readers) → AreReaders base.now.contents.spec r
            → OnErr result (NotedHere r self.old command.now (now_of journal.new)) }
        ensures same { OnErr result (session_in self.new ≡ session_in self.old) }
        ensures kept { IsKept base.now.contents.spec base.now.height self.new }
        ensures total { total_of journal.new ≡ total_of journal.old }
    {
        let Some(k) = self.current else {
            return Ok(Message::NoBuffer);
        };
        base.readers();
        let input = base.input();
        let named = &mut self.named[k];
        let buffer = &mut named.buffer;
        turn(
            base.alloc(),
            &input,
            buffer,
            &mut self.clip,
            command,
            journal,
        )
    }

    /// A command that asks nothing of the shelf.
    pub fn tell(
        &mut self,
        base: &Base,
        command: &Command,
        journal: &mut Journal,
    ) -> Result<Message, NoMemory>
        requires kept { IsKept base.now.contents.spec base.now.height self.old }
        requires begun { now_of journal.old ≡ [] }
        ensures took { (r : Readers) → AreReaders base.now.contents.spec r → IfOk result (λ m. Took
            (tells base.now.contents.spec base.now.height r (session_in self.old) command.now) self.new m
            (now_of journal.new)) }
        ensures some { (r : Readers) → AreReaders base.now.contents.spec r → OnErr result (AreSome
            base.now.contents.spec (tells base.now.contents.spec base.now.height r (session_in self.old) command.now)
            (now_of journal.new)) }
        ensures nodes { (r : Readers) → AreReaders base.now.contents.spec r → IsTrue (is_turn command.now)
            → OnErr result (NotedHere r self.old command.now (now_of journal.new)) }
        ensures same { OnErr result (session_in self.new ≡ session_in self.old) }
        ensures kept { IsKept base.now.contents.spec base.now.height self.new }
        ensures total { total_of journal.new ≡ total_of journal.old }
    {
        match command {
            Command::New(name) => self.begin(base, name.as_slice(), journal),
            Command::Switch(name) => Ok(self.switch(name.as_slice())),
            Command::Show => Ok(self.show()),
            _ => self.turn(base, command, journal),
        }
    }
}
