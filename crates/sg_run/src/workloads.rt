// The job of a workload.
ghost use Rattle.std.specs.Prelude.{◌≤◌, ◌<◌, ◌^◌, []};
ghost use Rattle.sg_eval.specs.Journal.{counted};
ghost use Rattle.sg_outside.specs.Shelf.{ShelfState};
ghost use Rattle.sg_output.specs.Reading.{Reading, IsRightLines};
ghost use Rattle.sg_output.specs.Work.{work_told, AreKnownLines};
ghost use Rattle.sg_output.specs.Ran.{Ends};
ghost use Rattle.sg_output.specs.Statuses.{ended};
ghost use Rattle.sg_output.specs.World.{world};

use crate::Status;
use crate::finishing::{end, finish};
use crate::opening::{is_memory, refuse};
use sg_eval::Journal;
use sg_outside::Sink;
use sg_workload::line;
use std::alloc::Global;

/// The workload of so many statements, at most 400, of the built-in language, and its line by one put. An error says
/// with which status the run is over.
pub fn work<K: Sink>(
    alloc: Global,
    count: usize,
    sink: &mut K,
    journal: &mut Journal,
) -> Result<(), Status>
    requires few { count ≤ 400 }
    requires room { counted journal.old < 2 ^ 60 }
    ensures known { AreKnownLines (ended result) (K.state sink.old) (K.state sink.new)
        (counted journal.old) (counted journal.new) }
    ensures ended { (r : Reading) → IsRightLines r → (shelf : ShelfState)
        → Ends (world shelf (K.state sink.old) (counted journal.old)) (work_told count r) [] (ended result)
        (world shelf (K.state sink.new) (counted journal.new)) }
{
    match line(alloc, count, journal) {
        Ok(line) => end(finish(sink, line.as_slice(), Status::Done)),
        Err(fault) => {
            if is_memory(&fault) {
                return Err(Status::Memory);
            }
            Err(refuse(alloc, &fault, sink))
        }
    }
}
