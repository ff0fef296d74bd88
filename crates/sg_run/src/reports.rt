// The job of a report.
ghost use Rattle.std.specs.Prelude.{◌≡◌, ◌≢◌, ◌+◌, ◌≤◌, ⊤, ℕ, [], Err, IfOk, IsSome, MatchOption, None, Result, Some};
ghost use Rattle.sg_eval.specs.Journal.{counted};
ghost use Rattle.sg_outside.specs.Shelf.{ShelfState};
ghost use Rattle.sg_editor.specs.Ask.{Readers, AreReaders};
ghost use Rattle.sg_report.specs.Answers.{answered_of, evaluated_by};
ghost use Rattle.sg_report.specs.Attrs.{attr_in, attr_of};
ghost use Rattle.sg_report.specs.Reports.{report_by};
ghost use Rattle.sg_report.specs.declared.answers.Report.{Report as AReport};
ghost use Rattle.sg_report.specs.declared.answers.ReportFault.{ReportFault as NoReport};
ghost use Rattle.sg_report.specs.declared.attrs.Named.{Named};
ghost use Rattle.sg_script.specs.Message.{kind_text};
ghost use Rattle.sg_output.specs.Causes.{IsReadOf};
ghost use Rattle.sg_output.specs.Filed.{report_file, report_fault_text, refusal, report_end, filed, reported};
ghost use Rattle.sg_output.specs.OutputOf.{with_spec};
ghost use Rattle.sg_output.specs.Ran.{Ends};
ghost use Rattle.sg_output.specs.Parts.{Played};
ghost use Rattle.sg_output.specs.Reading.{IsRight, Reading};
ghost use Rattle.sg_output.specs.Statuses.{ended};
ghost use Rattle.sg_output.specs.Output.{asked};
ghost use Rattle.sg_output.specs.World.{world};

use crate::Status;
use crate::finishing::{end, finish};
use crate::opening::{fetch, open};
use crate::scripts::numbered;
use sg_eval::Journal;
use sg_kinds::limits::FILE_BYTES;
use sg_kinds::marks::FaultKind;
use sg_kinds::memory::NoMemory;
use sg_load::Loaded;
use sg_outside::{Shelf, Sink};
use sg_replies::{Reply, add};
use sg_report::{ReportFault, halves, known, report};
use std::alloc::Global;

const READ_FAULT: &[u8] = b"read fault file\n";

// The most bytes that are fetched: one more than the file of a report may have.
const MOST: usize = FILE_BYTES + 1;

fn kind_text(kind: FaultKind) -> &'static [u8]
    ensures { result.now ≡ kind_text kind }
{
    match kind {
        FaultKind::Fuel => b"fuel",
        FaultKind::Depth => b"depth",
        FaultKind::Size => b"size",
        FaultKind::Divide => b"divide",
        FaultKind::Overflow => b"overflow",
        FaultKind::NoMatch => b"nomatch",
        FaultKind::Convert => b"convert",
    }
}

/// The line of why there is no report.
fn fault_line(alloc: Global, fault: ReportFault) -> Result<Vec<u8>, NoMemory>
    ensures { IfOk result (λ line. line.items ≡ report_fault_text fault) }
{
    match fault {
        ReportFault::NoAttribute => Ok(b"report no attribute\n".to_vec(alloc)?),
        ReportFault::Long => Ok(b"report long file\n".to_vec(alloc)?),
        ReportFault::Form(k) => numbered(alloc, b"report form at ", k),
        ReportFault::Phylum(k) => numbered(alloc, b"report phylum at ", k),
        ReportFault::Size => Ok(b"report size\n".to_vec(alloc)?),
        ReportFault::NoEntry => Ok(b"report no entry\n".to_vec(alloc)?),
        ReportFault::Byte(k) => numbered(alloc, b"report byte at ", k),
        ReportFault::Lexical(k) => numbered(alloc, b"report lexical at ", k),
        ReportFault::Parse(k) => numbered(alloc, b"report parse at ", k),
        ReportFault::Outcome(kind) => {
            let mut line = b"report result ".to_vec(alloc)?;
            line.extend_from_slice(kind_text(kind))?;
            line.push(b'\n')?;
            Ok(line)
        }
        ReportFault::NoMemory => Ok(Vec::new(alloc)),
    }
}

/// Ends the run by the line of why there is no report.
fn refuse<K: Sink>(alloc: Global, fault: ReportFault, sink: &mut K) -> Status
    ensures { (shelf : ShelfState) (n : ℕ) → Ends (world shelf (K.state sink.old) n) (refusal fault) [] result
        (world shelf (K.state sink.new) n) }
{
    match fault_line(alloc, fault) {
        Ok(line) => finish(sink, line.as_slice(), Status::ReportFault),
        Err(_) => Status::Memory,
    }
}

/// Ends the run by why there is no report: want of memory, or the line of a refusal.
fn end_by<K: Sink>(alloc: Global, fault: ReportFault, sink: &mut K) -> Status
    ensures { (x : Result AReport NoReport) → MatchOption (answered_of (Err fault)) ⊤ (λ y. y ≡ x)
        → (shelf : ShelfState) (n m : ℕ) → (fault ≢ ReportFault.NoMemory → m ≡ n) → n ≤ m → m ≤ n + evaluated_by x
        → Ends (world shelf (K.state sink.old) n) (report_end x) [] result (world shelf (K.state sink.new) m) }
{
    match fault {
        ReportFault::NoMemory => Status::Memory,
        _ => refuse(alloc, fault, sink),
    }
}

/// Puts the report of these bytes, or why there is none. An error says with which status the run is over.
fn tell<K: Sink>(
    alloc: Global,
    loaded: &Loaded,
    phylum: &[u8],
    name: &[u8],
    file: &[u8],
    sink: &mut K,
    journal: &mut Journal,
) -> Result<(), Status>
    ensures { (readers : Readers) → AreReaders loaded.now.spec readers → (shelf : ShelfState)
        → Ends (world shelf (K.state sink.old) (counted journal.old))
        (report_end (report_by loaded.now.spec readers.text readers.file phylum.now name.now file.now)) []
        (ended result) (world shelf (K.state sink.new) (counted journal.new)) }
{
    match report(alloc, loaded, file, phylum, name, journal) {
        Ok(report) => end(finish(sink, report.lines.as_slice(), Status::Done)),
        Err(fault) => end(end_by(alloc, fault, sink)),
    }
}

/// Puts the report of the file that a reply brought, of an attribute that is there. An error says with which status the
/// run is over.
fn tell_reply<K: Sink>(
    alloc: Global,
    loaded: &Loaded,
    phylum: &[u8],
    name: &[u8],
    reply: &Reply,
    sink: &mut K,
    journal: &mut Journal,
) -> Result<(), Status>
    ensures { (readers : Readers) → AreReaders loaded.now.spec readers
        → (a : Named) → attr_in loaded.now.spec phylum.now name.now ≡ Some a → (shelf : ShelfState)
        → Ends (world shelf (K.state sink.old) (counted journal.old))
        (filed readers loaded.now.spec a reply.now []) []
        (ended result) (world shelf (K.state sink.new) (counted journal.new)) }
{
    match reply {
        Reply::Fetched(text) => tell(alloc, loaded, phylum, name, text.as_slice(), sink, journal),
        _ => Err(finish(sink, READ_FAULT, Status::ReadFault)),
    }
}

/// Fetches the file of that name, and puts its report, of an attribute that is there. An error says with which status
/// the run is over.
fn file<S: Shelf, K: Sink>(
    alloc: Global,
    loaded: &Loaded,
    phylum: &[u8],
    name: &[u8],
    file_name: &str,
    shelf: &mut S,
    sink: &mut K,
    journal: &mut Journal,
    replies: &mut Vec<Reply>,
) -> Result<(), Status>
    ensures { (readers : Readers) → AreReaders loaded.now.spec readers
        → (a : Named) → attr_in loaded.now.spec phylum.now name.now ≡ Some a
        → Played (asked (report_file file_name.now) (filed readers loaded.now.spec a))
        replies.old.items replies.new.items (ended result)
        (world (S.state shelf.old) (K.state sink.old) (counted journal.old))
        (world (S.state shelf.new) (K.state sink.new) (counted journal.new)) }
{
    let reply = fetch(alloc, file_name, MOST, shelf, replies)?;
    let told = tell_reply(alloc, loaded, phylum, name, &reply, sink, journal);
    add(replies, reply);
    told
}

/// The two names of a word that names an attribute; None exactly where it names none.
fn names<'a>(loaded: &Loaded, word: &'a [u8]) -> Option<(&'a [u8], &'a [u8])>
    ensures { MatchOption result (attr_of loaded.now.spec word.now ≡ None)
        (λ h. (attr_of loaded.now.spec word.now ≡ attr_in loaded.now.spec h.0.now h.1.now)
        × IsSome (attr_in loaded.now.spec h.0.now h.1.now)) }
{
    match halves(word) {
        Some((phylum, name)) => {
            if known(loaded, phylum, name) {
                Some((phylum, name))
            } else {
                None
            }
        }
        None => None,
    }
}

/// Reports on the attribute that the word names, if it names one. An error says with which status the run is over.
fn attribute<S: Shelf, K: Sink>(
    alloc: Global,
    loaded: &Loaded,
    file_name: &str,
    word: &str,
    shelf: &mut S,
    sink: &mut K,
    journal: &mut Journal,
    replies: &mut Vec<Reply>,
) -> Result<(), Status>
    ensures { (readers : Readers) → AreReaders loaded.now.spec readers
        → Played (reported file_name.now word.now readers loaded.now.spec)
        replies.old.items replies.new.items (ended result)
        (world (S.state shelf.old) (K.state sink.old) (counted journal.old))
        (world (S.state shelf.new) (K.state sink.new) (counted journal.new)) }
{
    match names(loaded, word.as_bytes()) {
        Some((phylum, name)) => file(
            alloc, loaded, phylum, name, file_name, shelf, sink, journal, replies,
        ),
        None => end(refuse(alloc, ReportFault::NoAttribute, sink)),
    }
}

/// The job of a report. An error says with which status the run is over.
pub fn report_on<S: Shelf, K: Sink>(
    alloc: Global,
    name: &str,
    file_name: &str,
    word: &str,
    shelf: &mut S,
    sink: &mut K,
    journal: &mut Journal,
    replies: &mut Vec<Reply>,
) -> Result<(), Status>
    requires none { replies.old.items ≡ [] }
    ensures known { IsReadOf name.now (world (S.state shelf.old) (K.state sink.old) (counted journal.old))
        replies.new.items (ended result) (world (S.state shelf.new) (K.state sink.new) (counted journal.new)) }
    ensures played { (r : Reading) → IsRight replies.new.items r
        → Played (with_spec (reported file_name.now word.now r.readers) name.now r.verdict) []
        replies.new.items (ended result)
        (world (S.state shelf.old) (K.state sink.old) (counted journal.old))
        (world (S.state shelf.new) (K.state sink.new) (counted journal.new)) }
{
    let loaded = open(alloc, name, shelf, sink, replies)?;
    attribute(
        alloc, &loaded, file_name, word, shelf, sink, journal, replies,
    )
}
