// The whole run.
ghost use Rattle.std.specs.Prelude.{◌≡◌, ◌⊎◌, ℕ, Bool, List, map, string_bytes, IfNone, IfSome};
ghost use Rattle.sg_explain.specs.Endings.{IsEnd};
ghost use Rattle.sg_explain.specs.Runs.{IsAnswered, IsCause, IsNoFile, IsPut, IsRun, IsSilent, IsToldOf, usage_text, words_for};

use crate::Ending;
use crate::ending::after_put;
use crate::explaining::explain;
use sg_kinds::limits::TEXT_BYTES;
use sg_outside::{Shelf, Sink};
use sg_replies::{Reply, fetched};
use std::alloc::Global;

const USAGE: &[u8] = b"usage: ssled_explain SPEC [plan]\n";

// The word that asks for the plan.
const PLAN: &str = "plan";

const READ_FAULT: &[u8] = b"read fault specification\n";

// Puts the text with which the run is to end so.
fn finish<K: Sink>(sink: &mut K, text: &[u8], ending: Ending) -> Ending
    requires { IsEnd ending }
    ensures { IsPut text.now ending (K.state sink.old) result (K.state sink.new) }
{
    after_put(sink.put(text), ending)
}

// Tells of the bytes of that file.
fn tell<K: Sink>(alloc: Global, file: &str, planned: bool, bytes: &[u8], sink: &mut K) -> Ending
    ensures { IsToldOf planned file.now bytes.now (K.state sink.old) result (K.state sink.new)
        ⊎ IsSilent (K.state sink.old) result (K.state sink.new) }
{
    match explain(alloc, file.as_bytes(), bytes, planned) {
        Ok(explanation) => finish(sink, explanation.text.as_slice(), explanation.ending),
        Err(_) => Ending::Memory,
    }
}

// Tells of what the reply brought.
fn answer<K: Sink>(alloc: Global, file: &str, planned: bool, reply: &Reply, sink: &mut K) -> Ending
    ensures { IsAnswered planned file.now reply.now (K.state sink.old) result (K.state sink.new) }
{
    match reply {
        Reply::Fetched(text) => tell(alloc, file, planned, text.as_slice(), sink),
        _ => finish(sink, READ_FAULT, Ending::ReadFault),
    }
}

// Fetches the file of that name and tells of it.
fn explain_file<S: Shelf, K: Sink>(
    alloc: Global,
    file: &str,
    planned: bool,
    shelf: &mut S,
    sink: &mut K,
) -> Ending
    ensures run { IsRun planned file.now (S.state shelf.old) (S.state shelf.new) (K.state sink.old) result
        (K.state sink.new) }
    ensures cause { IsCause file.now (S.state shelf.old) (S.state shelf.new) (K.state sink.old) (K.state sink.new) result }
{
    match fetched(alloc, shelf, file, TEXT_BYTES + 1) {
        Ok(reply) => answer(alloc, file, planned, &reply, sink),
        Err(_) => Ending::Memory,
    }
}

// The file that words name, and whether they ask for its plan.
fn named(words: &[String]) -> Option<(&str, bool)>
    ensures some { IfSome result (λ w. map string_bytes words.now ≡ words_for w.0.now w.1) }
    ensures none { IfNone result (IsNoFile (map string_bytes words.now)) }
{
    match words {
        [file] => Some((file.as_str(), false)),
        [file, word] if word.as_str() == PLAN => Some((file.as_str(), true)),
        _ => None,
    }
}

/// Explains the specification of the file that the first word names: fetches it from the shelf, and puts the
/// explanation into the sink by one put; with the word `plan` behind it the plan of one that is accepted too. Other
/// words are refused by a line.
pub fn run<S: Shelf, K: Sink>(
    alloc: Global,
    words: &[String],
    shelf: &mut S,
    sink: &mut K,
) -> Ending
    // A name, alone or with `plan`: the file of that name is fetched, and what is told of it is put, or memory was
    // wanting.
    ensures explained { (file : List ℕ) (planned : Bool) → map string_bytes words.now ≡ words_for file planned
        → IsRun planned file (S.state shelf.old) (S.state shelf.new) (K.state sink.old) result (K.state sink.new) }
    // Why such a run ends as it does.
    ensures cause { (file : List ℕ) (planned : Bool) → map string_bytes words.now ≡ words_for file planned
        → IsCause file (S.state shelf.old) (S.state shelf.new) (K.state sink.old) (K.state sink.new) result }
    // Other words: a line says so, and the shelf is not called.
    ensures usage { IsNoFile (map string_bytes words.now)
        → IsPut usage_text Ending.Usage (K.state sink.old) result (K.state sink.new) }
    ensures uncalled { IsNoFile (map string_bytes words.now) → S.state shelf.new ≡ S.state shelf.old }
{
    match named(words) {
        Some((file, planned)) => explain_file(alloc, file, planned, shelf, sink),
        None => finish(sink, USAGE, Ending::Usage),
    }
}
