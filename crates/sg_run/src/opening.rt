// The fetches of a run, and what may be wrong with the specification that the first brings.
ghost use Rattle.std.specs.Prelude.{◌≡◌, ◌≢◌, ◌<◌, ◌↔◌, ℕ, List, [], vec_len, vec_capacity, IsTrue, IfOk, IfErr, OnOk};
ghost use Rattle.sg_kinds.specs.declared.spec.Spec.{Spec};
ghost use Rattle.sg_replies.specs.declared.reply.Reply.{Reply};
ghost use Rattle.sg_outside.specs.Shelf.{ShelfState};
ghost use Rattle.sg_replies.specs.Calls.{Replied};
ghost use Rattle.sg_replies.specs.Requests.Request.{Fetch};
ghost use Rattle.sg_load.specs.Only.{IsTheVerdict};
ghost use Rattle.sg_load.specs.Verdict.{Verdict, IsVerdict};
ghost use Rattle.sg_load.specs.Verdict.Verdict.{Refused, Accepted};
ghost use Rattle.sg_editor.specs.Ask.{Readers, AreReaders};
ghost use Rattle.sg_output.specs.Output.{Output, asked};
ghost use Rattle.sg_output.specs.OutputOf.{fault_told, judged, opened, with_spec};
ghost use Rattle.sg_output.specs.Opening.{IsQuiet, IsOpened, IsKnown, IsKnownOf, IsVerdictOf, IsAdmitted};
ghost use Rattle.sg_output.specs.Causes.{IsReadOf};
ghost use Rattle.sg_output.specs.Reading.{IsVerdictIn};
ghost use Rattle.sg_output.specs.Ran.{Ends};
ghost use Rattle.sg_output.specs.Parts.{Played};
ghost use Rattle.sg_outside.specs.Sink.{SinkState};
ghost use Rattle.sg_output.specs.World.{world};

use crate::Status;
use crate::finishing::finish;
use sg_faults::fault_line;
use sg_kinds::fault::SpecFault;
use sg_kinds::limits::TEXT_BYTES;
use sg_load::{Loaded, load};
use sg_outside::{Shelf, Sink};
use sg_replies::{Reply, add, fetched};
use sg_workload::tell_readers;
use std::alloc::Global;

const READ_FAULT: &[u8] = b"read fault specification\n";

/// The most bytes that are fetched: one more than a specification or a script may have.
pub const MOST: usize = TEXT_BYTES + 1;

/// Fetches so many bytes of the file of that name by one call of the shelf, and makes room for the reply among the
/// others. An error says that there was no memory.
pub fn fetch<S: Shelf>(
    alloc: Global,
    name: &str,
    most: usize,
    shelf: &mut S,
    replies: &mut Vec<Reply>,
) -> Result<Reply, Status>
    ensures room { OnOk result (vec_len replies.new < vec_capacity replies.new) }
    ensures same { replies.new.items ≡ replies.old.items }
    ensures replied { IfOk result (λ reply. Replied (Fetch name.now most) reply (S.state shelf.old)
        (S.state shelf.new)) }
    ensures played { IfErr result (λ status. (next : Reply → List Reply → Output) (sink : SinkState) (n : ℕ)
        → Played (asked (Fetch name.now most) next) replies.old.items replies.new.items status
        (world (S.state shelf.old) sink n) (world (S.state shelf.new) sink n)) }
{
    replies.reserve(1)?;
    let reply = fetched(alloc, shelf, name, most)?;
    Ok(reply)
}

/// Whether there was not enough memory to judge a specification.
pub fn is_memory(fault: &SpecFault) -> bool
    ensures { IsTrue result ↔ (fault.now ≡ SpecFault.NoMemory) }
{
    matches!(fault, SpecFault::NoMemory)
}

/// Ends the run by the line of a static fault.
pub fn refuse<K: Sink>(alloc: Global, fault: &SpecFault, sink: &mut K) -> Status
    ensures { (shelf : ShelfState) (n : ℕ) → Ends (world shelf (K.state sink.old) n) (fault_told fault.now) [] result
        (world shelf (K.state sink.new) n) }
{
    match fault_line(alloc, fault) {
        Ok(line) => finish(sink, line.as_slice(), Status::SpecFault),
        Err(_) => Status::Memory,
    }
}

/// Ends the run by what there is in place of a specification: want of memory, or a static fault.
fn end_by<K: Sink>(alloc: Global, bytes: &[u8], fault: &SpecFault, sink: &mut K) -> Status
    requires { fault.now ≢ SpecFault.NoMemory → IsTheVerdict bytes.now (Refused fault.now) }
    ensures known { IsKnown bytes.now result (K.state sink.old) (K.state sink.new) }
    ensures ended { (v : Verdict) → IsVerdict bytes.now v → (next : Spec → Output)
        → ((spec : Spec) → IsQuiet (next spec)) → (shelf : ShelfState) (n : ℕ)
        → Ends (world shelf (K.state sink.old) n) (judged v next) [] result (world shelf (K.state sink.new) n) }
{
    if is_memory(fault) {
        return Status::Memory;
    }
    refuse(alloc, fault, sink)
}

/// Loads the specification of these bytes. An error says with which status the run is over.
fn judge<K: Sink>(alloc: Global, bytes: &[u8], sink: &mut K) -> Result<Loaded, Status>
    ensures accepted { IfOk result (λ loaded. IsTheVerdict bytes.now (Accepted loaded.spec)) }
    ensures readers { IfOk result (λ loaded. (r : Readers) × AreReaders loaded.spec r) }
    ensures quiet { IfOk result (λ _. K.state sink.new ≡ K.state sink.old) }
    ensures known { IfErr result (λ status. IsKnown bytes.now status (K.state sink.old) (K.state sink.new)) }
    ensures ended { IfErr result (λ status. (v : Verdict) → IsVerdict bytes.now v → (next : Spec → Output)
        → ((spec : Spec) → IsQuiet (next spec)) → (shelf : ShelfState) (n : ℕ)
        → Ends (world shelf (K.state sink.old) n) (judged v next) [] status (world shelf (K.state sink.new) n)) }
{
    match load(alloc, bytes) {
        Ok(loaded) => {
            tell_readers(&loaded);
            Ok(loaded)
        }
        Err(fault) => Err(end_by(alloc, bytes, &fault, sink)),
    }
}

/// Loads the specification that a reply brought. An error says with which status the run is over.
fn judge_reply<K: Sink>(alloc: Global, reply: &Reply, sink: &mut K) -> Result<Loaded, Status>
    ensures admitted { IfOk result (λ loaded. IsAdmitted reply.now loaded.spec) }
    ensures quiet { IfOk result (λ _. K.state sink.new ≡ K.state sink.old) }
    ensures known { IfErr result (λ status. IsKnownOf reply.now status (K.state sink.old) (K.state sink.new)) }
    ensures ended { IfErr result (λ status. (v : Verdict) → IsVerdictOf reply.now v
        → (next : Spec → List Reply → Output) → ((spec : Spec) → IsQuiet (next spec [])) → (shelf : ShelfState) (n : ℕ)
        → Ends (world shelf (K.state sink.old) n) (opened next v reply.now []) [] status
        (world shelf (K.state sink.new) n)) }
{
    match reply {
        Reply::Fetched(text) => judge(alloc, text.as_slice(), sink),
        _ => Err(finish(sink, READ_FAULT, Status::ReadFault)),
    }
}

/// Fetches and loads the specification of that name, by the first call of the shelf. An error says with which status
/// the run is over.
pub fn open<S: Shelf, K: Sink>(
    alloc: Global,
    name: &str,
    shelf: &mut S,
    sink: &mut K,
    replies: &mut Vec<Reply>,
) -> Result<Loaded, Status>
    requires none { replies.old.items ≡ [] }
    ensures opened { IfOk result (λ loaded. IsOpened name.now loaded.spec replies.new.items (S.state shelf.old)
        (S.state shelf.new)) }
    ensures quiet { IfOk result (λ _. K.state sink.new ≡ K.state sink.old) }
    ensures known { IfErr result (λ status. (n : ℕ) → IsReadOf name.now
        (world (S.state shelf.old) (K.state sink.old) n) replies.new.items status
        (world (S.state shelf.new) (K.state sink.new) n)) }
    ensures played { IfErr result (λ status. (v : Verdict) → IsVerdictIn replies.new.items v
        → (next : Spec → List Reply → Output) → ((spec : Spec) → IsQuiet (next spec [])) → (n : ℕ)
        → Played (with_spec next name.now v) [] replies.new.items status
        (world (S.state shelf.old) (K.state sink.old) n) (world (S.state shelf.new) (K.state sink.new) n)) }
{
    let reply = fetch(alloc, name, MOST, shelf, replies)?;
    let loaded = judge_reply(alloc, &reply, sink);
    add(replies, reply);
    loaded
}
