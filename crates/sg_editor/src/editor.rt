//! The editor.
ghost use Rattle.std.specs.Prelude.{◌≡◌, ◌≤◌, ◌<◌, ◌^◌, [], length, IfOk, IsTrue, MatchOption, MatchResult, ⊤, OnErr, None, Ok, Err};
ghost use Rattle.sg_kinds.specs.Sound.{IsSmall, IsSound};
ghost use Rattle.sg_buffer.specs.Held.{term_in};
ghost use Rattle.sg_eval.specs.Journal.{counted, now_of, total_of};
ghost use Rattle.sg_editor.specs.Ask.{AreReaders, Readers, ask, barred, keeps, loads, saved_form, saved_text};
ghost use Rattle.sg_editor.specs.Editing.{IsCurrent, IsKept, current_in, height_in, session_in, session_of, spec_in, width_in};
ghost use Rattle.sg_editor.specs.Screen.{screen};
ghost use Rattle.sg_editor.specs.Session.{current_of, start};
ghost use Rattle.sg_editor.specs.Steps.{Interrupted, NotedHere, Stepped, is_turn};

use crate::base::Base;
use crate::desk::Desk;
use crate::fetching::fetch;
use crate::keeping::keep;
use sg_buffer::Buffer;
use sg_eval::Journal;
use sg_kinds::memory::NoMemory;
use sg_kinds::text::Text;
use sg_load::Loaded;
use sg_outside::Shelf;
use sg_replies::{Reply, add};
use sg_script::{Command, FileName, Message};
use std::alloc::Global;
use std::marker::Model;

/// An editor of an accepted specification: a session, in a window of so many columns and lines. Contracts see it as
/// its specification with what was made of it, the window, and the buffers with all that stands for their states.
#[derive(Drop)]
pub struct Editor {
    base: Base,
    desk: Desk,
}

impl Model for Editor {
    ghost use Rattle.sg_editor.specs.contracts.base.Base as base_type;
    ghost use Rattle.sg_editor.specs.contracts.desk.Desk as desk_type;
    ghost use Rattle.sg_editor.specs.Editing.{Editing, IsKept, editing_code};

    ghost Value = { Editing };

    ghost coded = { editing_code base_type.the_row.coded desk_type.the_row.coded };

    ghost view = { λ e. record { setting = e.base; kept = e.desk } };

    ghost invariant = { λ e. IsKept e.base.contents.spec e.base.height e.desk };
}

impl Editor {
    /// An editor of a specification, with no buffers, in a window of 1 to 1,024 columns and lines.
    pub fn new(
        alloc: Global,
        loaded: Loaded,
        width: usize,
        height: usize,
    ) -> Result<Editor, NoMemory>
        requires narrow { 1 ≤ width }
        requires wide { width ≤ 1024 }
        requires low { 1 ≤ height }
        requires high { height ≤ 1024 }
        ensures spec { IfOk result (λ e. spec_in e ≡ loaded.spec) }
        ensures contents { IfOk result (λ e. e.setting.contents ≡ loaded) }
        ensures width { IfOk result (λ e. width_in e ≡ width) }
        ensures height { IfOk result (λ e. height_in e ≡ height) }
        ensures session { IfOk result (λ e. session_of e ≡ start) }
    {
        Ok(Editor {
            base: Base::new(alloc, loaded, width, height)?,
            desk: Desk::new(alloc),
        })
    }

    // the specification is sound, there are readers for it, and the current term is in the limits
    fn facts(&self)
        ensures sound { IsSound (spec_in self.now) }
        ensures readers { (r : Readers) × AreReaders (spec_in self.now) r }
        ensures kept { IsKept (spec_in self.now) (height_in self.now) self.now.kept }
        ensures small { MatchOption (current_in self.now.kept) ⊤ (λ b. IsSmall (term_in b.buffer)) }
    {
        let _ = self.base.spec();
        self.base.readers();
        if let Some(named) = self.desk.current() {
            named.buffer.facts();
        }
    }

    // loads a file
    fn load<S: Shelf>(
        &mut self,
        name: &Text,
        file: &FileName,
        shelf: &mut S,
        journal: &mut Journal,
        replies: &mut Vec<Reply>,
    ) -> Result<Message, NoMemory>
        requires begun { now_of journal.old ≡ [] }
        ensures ok { (r : Readers) → AreReaders (spec_in self.old) r → IfOk result (λ m. Stepped
            (loads (spec_in self.old) (height_in self.old) r name.now file.now (session_in self.old.kept)
            (barred name.now (session_in self.old.kept))) self.new m (now_of journal.new)
            replies.old.items replies.new.items (S.state shelf.old) (S.state shelf.new)) }
        ensures err { (r : Readers) → AreReaders (spec_in self.old) r → OnErr result (Interrupted (spec_in self.old)
            (loads (spec_in self.old) (height_in self.old) r name.now file.now (session_in self.old.kept)
            (barred name.now (session_in self.old.kept))) (now_of journal.new) replies.old.items replies.new.items
            (S.state shelf.old) (S.state shelf.new)) }
        ensures same { OnErr result (session_in self.new.kept ≡ session_in self.old.kept) }
        ensures setting { self.new.setting ≡ self.old.setting }
        ensures total { total_of journal.new ≡ total_of journal.old }
    {
        if let Some(why) = self.desk.barred(name.as_slice()) {
            return Ok(why);
        }
        let reply = fetch(self.base.alloc(), shelf, file, replies)?;
        let result = self
            .desk
            .take_in(&self.base, name.as_slice(), &reply, journal);
        add(replies, reply);
        result
    }

    // saves the current buffer's term
    fn save<S: Shelf>(
        &self,
        file: &FileName,
        shelf: &mut S,
        replies: &mut Vec<Reply>,
    ) -> Result<Message, NoMemory>
        ensures ok { IfOk result (λ m. Stepped (keeps file.now (session_in self.now.kept)
            (saved_form (spec_in self.now) (session_in self.now.kept))) self.now m [] replies.old.items
            replies.new.items (S.state shelf.old) (S.state shelf.new)) }
        ensures err { OnErr result (Interrupted (spec_in self.now) (keeps file.now (session_in self.now.kept)
            (saved_form (spec_in self.now) (session_in self.now.kept))) [] replies.old.items
            replies.new.items (S.state shelf.old) (S.state shelf.new)) }
    {
        match self.desk.saved_form(&self.base)? {
            Ok(bytes) => keep(shelf, file, bytes.as_slice(), replies),
            Err(why) => Ok(why),
        }
    }

    // the bytes of the current buffer's page, or why they cannot be saved
    fn text(&mut self) -> Result<Result<Vec<u8>, Message>, NoMemory>
        ensures text { IfOk result (λ r. MatchResult r
            (λ bytes. saved_text (spec_in self.old) (session_in self.old.kept) ≡ Ok bytes.items)
            (λ m. saved_text (spec_in self.old) (session_in self.old.kept) ≡ Err m)) }
        ensures same { self.new ≡ self.old }
    {
        self.desk.saved_text(&self.base)
    }

    // saves the current buffer's page
    fn save_text<S: Shelf>(
        &mut self,
        file: &FileName,
        shelf: &mut S,
        replies: &mut Vec<Reply>,
    ) -> Result<Message, NoMemory>
        ensures ok { IfOk result (λ m. Stepped (keeps file.now (session_in self.old.kept)
            (saved_text (spec_in self.old) (session_in self.old.kept))) self.old m [] replies.old.items
            replies.new.items (S.state shelf.old) (S.state shelf.new)) }
        ensures err { OnErr result (Interrupted (spec_in self.old) (keeps file.now (session_in self.old.kept)
            (saved_text (spec_in self.old) (session_in self.old.kept))) [] replies.old.items
            replies.new.items (S.state shelf.old) (S.state shelf.new)) }
        ensures same { self.new ≡ self.old }
    {
        match self.text()? {
            Ok(bytes) => keep(shelf, file, bytes.as_slice(), replies),
            Err(why) => Ok(why),
        }
    }

    // does a command, where nothing is noted yet
    fn act<S: Shelf>(
        &mut self,
        command: &Command,
        shelf: &mut S,
        journal: &mut Journal,
        replies: &mut Vec<Reply>,
    ) -> Result<Message, NoMemory>
        requires begun { now_of journal.old ≡ [] }
        ensures ok { (r : Readers) → AreReaders (spec_in self.old) r → IfOk result (λ m. Stepped
            (ask (spec_in self.old) (height_in self.old) r (session_in self.old.kept) command.now) self.new m
            (now_of journal.new) replies.old.items replies.new.items (S.state shelf.old) (S.state shelf.new)) }
        ensures err { (r : Readers) → AreReaders (spec_in self.old) r → OnErr result (Interrupted (spec_in self.old)
            (ask (spec_in self.old) (height_in self.old) r (session_in self.old.kept) command.now) (now_of journal.new)
            replies.old.items replies.new.items (S.state shelf.old) (S.state shelf.new)) }
        ensures same { OnErr result (session_in self.new.kept ≡ session_in self.old.kept) }
        ensures setting { self.new.setting ≡ self.old.setting }
        ensures total { total_of journal.new ≡ total_of journal.old }
        ensures nodes { (r : Readers) → AreReaders (spec_in self.old) r → IsTrue (is_turn command.now)
            → OnErr result (NotedHere r self.old.kept command.now (now_of journal.new)) }
    {
        match command {
            Command::Load(name, file) => self.load(name, file, shelf, journal, replies),
            Command::Save(file) => self.save(file, shelf, replies),
            Command::SaveText(file) => self.save_text(file, shelf, replies),
            _ => self.desk.tell(&self.base, command, journal),
        }
    }

    /// Does a command, and says what came of it. It calls the shelf at most once, and its reply comes behind the
    /// others; what is evaluated is noted in the journal. Without memory the session is as it was, and a part may be
    /// noted.
    pub fn step<S: Shelf>(
        &mut self,
        command: &Command,
        shelf: &mut S,
        journal: &mut Journal,
        replies: &mut Vec<Reply>,
    ) -> Result<Message, NoMemory>
        requires room { counted journal.old < 2 ^ 62 }
        ensures ok { (r : Readers) → AreReaders (spec_in self.old) r → IfOk result (λ m. Stepped
            (ask (spec_in self.old) (height_in self.old) r (session_of self.old) command.now) self.new m
            (now_of journal.new) replies.old.items replies.new.items (S.state shelf.old) (S.state shelf.new)) }
        ensures err { (r : Readers) → AreReaders (spec_in self.old) r → OnErr result (Interrupted (spec_in self.old)
            (ask (spec_in self.old) (height_in self.old) r (session_of self.old) command.now) (now_of journal.new)
            replies.old.items replies.new.items (S.state shelf.old) (S.state shelf.new)) }
        ensures same { OnErr result (session_of self.new ≡ session_of self.old) }
        ensures setting { self.new.setting ≡ self.old.setting }
        ensures total { total_of journal.new ≡ counted journal.old }
        ensures most { IfOk result (λ _. length (now_of journal.new) ≤ 2 ^ 40) }
        ensures nodes { (r : Readers) → AreReaders (spec_in self.old) r → IsTrue (is_turn command.now)
            → OnErr result (NotedHere r self.old.kept command.now (now_of journal.new)) }
    {
        journal.begin();
        let message = self.act(command, shelf, journal, replies);
        self.facts();
        message
    }

    /// The current buffer. None exactly where there is none.
    #[tactic(auto, using(crate::proofs::Current::none_current, crate::proofs::Current::is_current))]
    pub fn current(&self) -> Option<&Buffer>
        ensures { MatchOption result (current_of (session_of self.now) ≡ None) (λ b. IsCurrent self.now b.now) }
    {
        let _ = &self.base;
        match self.desk.current() {
            Some(named) => Some(&named.buffer),
            None => None,
        }
    }

    /// What is printed after a command: its message, and the current buffer in the window. `ev` says how many equations
    /// the command evaluated.
    pub fn screen(&mut self, message: Message, ev: u64) -> Result<Vec<u8>, NoMemory>
        ensures printed { IfOk result (λ b. b.items ≡ screen (spec_in self.old) (width_in self.old)
            (height_in self.old) (session_of self.old) message ev) }
        ensures same { self.new ≡ self.old }
    {
        self.desk.screen(&self.base, message, ev)
    }
}
