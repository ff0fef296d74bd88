// One call of a shelf, and its reply.
ghost use Rattle.std.specs.Prelude.{◌≡◌, ◌≤◌, ◌<◌, ◌++◌, ◌∷◌, [], length, vec_len, vec_capacity, OnErr, IfOk};
ghost use Rattle.sg_replies.specs.Requests.Request.{Fetch, Keep};
ghost use Rattle.sg_replies.specs.Requests.{bytes_in};
ghost use Rattle.sg_replies.specs.Calls.{Replied, Unanswered};

use sg_kinds::memory::NoMemory;
use sg_kinds::text::Text;
use sg_outside::{Shelf, ShelfError};
use std::alloc::Global;

/// What a shelf replied to one call.
#[derive(Drop)]
pub enum Reply {
    /// A fetch brought these bytes.
    Fetched(Text),
    /// A fetch failed.
    FetchFailed,
    /// The bytes were kept.
    Kept,
    /// A keep failed.
    KeepFailed,
}

/// Fetches the first `most` bytes of the file of that name by one call of the shelf. An error says that the shelf had
/// no memory.
pub fn fetched<S: Shelf>(
    alloc: Global,
    shelf: &mut S,
    name: &str,
    most: usize,
) -> Result<Reply, NoMemory>
    ensures ok { IfOk result (λ reply. Replied (Fetch name.now most) reply (S.state shelf.old) (S.state shelf.new)) }
    ensures err { OnErr result (Unanswered (S.state shelf.old) (S.state shelf.new)) }
    ensures bound { IfOk result (λ reply. length (bytes_in reply) ≤ most) }
{
    match shelf.fetch(alloc, name, most) {
        Ok(bytes) => Ok(Reply::Fetched(Text::new(bytes))),
        Err(ShelfError::Failed) => Ok(Reply::FetchFailed),
        Err(ShelfError::NoMemory) => Err(NoMemory),
    }
}

/// Keeps these bytes under that name by one call of the shelf. An error says that the shelf had no memory.
pub fn kept<S: Shelf>(shelf: &mut S, name: &str, bytes: &[u8]) -> Result<Reply, NoMemory>
    ensures ok { IfOk result (λ reply. Replied (Keep name.now bytes.now) reply (S.state shelf.old) (S.state shelf.new)) }
    ensures err { OnErr result (Unanswered (S.state shelf.old) (S.state shelf.new)) }
{
    match shelf.keep(name, bytes) {
        Ok(()) => Ok(Reply::Kept),
        Err(ShelfError::Failed) => Ok(Reply::KeepFailed),
        Err(ShelfError::NoMemory) => Err(NoMemory),
    }
}

/// Puts the reply last, where there is room.
pub fn add(replies: &mut Vec<Reply>, reply: Reply)
    requires { vec_len replies.old < vec_capacity replies.old }
    ensures { replies.new.items ≡ replies.old.items ++ reply ∷ [] }
{
    replies.push(reply).unwrap();
}
