// Files that are saved.
ghost use Rattle.std.specs.Prelude.{◌≡◌, ℕ, List, IfOk, IfErr, MatchResult, OnErr, Result, Ok, Err, None, Some};
ghost use Rattle.sg_replies.specs.Requests.Request.{Keep};
ghost use Rattle.sg_script.specs.declared.message.Message.{Message as IsMessage};
ghost use Rattle.sg_states.specs.States.{State};
ghost use Rattle.sg_editor.specs.Ask.{resting, said_of_keep, saved_form, saved_text, whole_text};
ghost use Rattle.sg_editor.specs.Editing.{IsKept, current_in, session_in};
ghost use Rattle.sg_editor.specs.Session.{current_of};
ghost use Rattle.sg_editor.specs.Steps.{Answered, IsUnanswered};

use crate::base::Base;
use crate::desk::{Desk, Named};
use sg_kinds::memory::NoMemory;
use sg_outside::Shelf;
use sg_replies::{Reply, add, kept};
use sg_saved::write;
use sg_script::{FileName, Message};
use sg_unparse::Page;
use std::alloc::Global;

// what is said of the reply to a keep
fn said(reply: &Reply) -> Message
    ensures { result ≡ said_of_keep reply.now }
{
    match reply {
        Reply::Kept => Message::Fine,
        _ => Message::WriteFault,
    }
}

/// Keeps bytes in a file, where there is room for the reply, which comes behind the others.
pub fn keep<S: Shelf>(
    shelf: &mut S,
    file: &FileName,
    bytes: &[u8],
    replies: &mut Vec<Reply>,
) -> Result<Message, NoMemory>
    ensures ok { IfOk result (λ m. Answered (Keep file.now bytes.now) said_of_keep m replies.old.items replies.new.items
        (S.state shelf.old) (S.state shelf.new)) }
    ensures err { OnErr result (IsUnanswered (S.state shelf.old) (S.state shelf.new)) }
    ensures replies { OnErr result (replies.new.items ≡ replies.old.items) }
{
    replies.reserve(1)?;
    let reply = kept(shelf, file.as_str(), bytes)?;
    let message = said(&reply);
    add(replies, reply);
    Ok(message)
}

// the bytes of a page, where it was not cut
fn text_of(alloc: Global, page: &Page) -> Result<Result<Vec<u8>, Message>, NoMemory>
    ensures { IfOk result (λ r. MatchResult r (λ bytes. whole_text page.now ≡ Ok bytes.items)
        (λ m. whole_text page.now ≡ Err m)) }
{
    if page.cut() {
        return Ok(Err(Message::Size));
    }
    let bytes = Vec::from_slice(alloc, page.text())?;
    Ok(Ok(bytes))
}

impl Desk {
    // the current buffer, where no text is typed in it
    fn resting(&self) -> Result<&Named, Message>
        ensures ok { IfOk result (λ b. (current_in self.now ≡ Some b.now) × (b.now.buffer.capture ≡ None)) }
        ensures err { IfErr result (λ m. (make : State → Result (List ℕ) IsMessage)
            → resting (current_of (session_in self.now)) make ≡ Err m) }
    {
        let Some(named) = self.current() else {
            return Err(Message::NoBuffer);
        };
        if named.buffer.captured().is_some() {
            return Err(Message::InText);
        }
        Ok(named)
    }

    /// The saved form of the current buffer's term, or why it cannot be saved.
    pub fn saved_form(&self, base: &Base) -> Result<Result<Vec<u8>, Message>, NoMemory>
        requires { IsKept base.now.contents.spec base.now.height self.now }
        ensures { IfOk result (λ r. MatchResult r
            (λ bytes. saved_form base.now.contents.spec (session_in self.now) ≡ Ok bytes.items)
            (λ m. saved_form base.now.contents.spec (session_in self.now) ≡ Err m)) }
    {
        let buffer = match self.resting() {
            Ok(named) => &named.buffer,
            Err(why) => return Ok(Err(why)),
        };
        buffer.facts();
        let bytes = write(base.alloc(), buffer.terms(), buffer.root())?;
        Ok(Ok(bytes))
    }

    /// The bytes of the current buffer's page, or why they cannot be saved.
    pub fn saved_text(&mut self, base: &Base) -> Result<Result<Vec<u8>, Message>, NoMemory>
        requires { IsKept base.now.contents.spec base.now.height self.old }
        ensures text { IfOk result (λ r. MatchResult r
            (λ bytes. saved_text base.now.contents.spec (session_in self.old) ≡ Ok bytes.items)
            (λ m. saved_text base.now.contents.spec (session_in self.old) ≡ Err m)) }
        ensures same { self.new ≡ self.old }
    {
        match self.resting() {
            Ok(_) => {}
            Err(why) => return Ok(Err(why)),
        }
        let Some(k) = self.current else {
            return Ok(Err(Message::NoBuffer));
        };
        let named = &mut self.named[k];
        let page = named.buffer.take_page()?;
        let text = text_of(base.alloc(), &page);
        named.buffer.keep_page(page);
        text
    }
}
