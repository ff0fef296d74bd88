// A run over a shelf and a sink that never fail.
ghost use Rattle.std.specs.Prelude.{◌≡◌, ◌≢◌, ◌<◌, ◌^◌, ◌⊎◌, ℕ, List, map, string_bytes, Contains, IsSome, None};
ghost use Rattle.sg_eval.specs.Journal.{counted};
ghost use Rattle.sg_outside.specs.Shelf.KnownFiles.{OrEmpty};
ghost use Rattle.sg_outside.specs.SureShelf.{UnfailingShelf};
ghost use Rattle.sg_outside.specs.SureSink.{UnfailingSink};
ghost use Rattle.sg_replies.specs.declared.reply.Reply.{Reply as AReply};
ghost use Rattle.sg_replies.specs.Requests.{Serves, failure};
ghost use Rattle.sg_output.specs.declared.status.Status.{Status as AStatus};
ghost use Rattle.sg_output.specs.Statuses.{IsEnd};
ghost use Rattle.sg_output.specs.Job.{job};
ghost use Rattle.sg_output.specs.Output.{Output};
ghost use Rattle.sg_output.specs.OutputOf.{output_of};
ghost use Rattle.sg_output.specs.Ran.{Ran};
ghost use Rattle.sg_output.specs.Reading.{Reading, IsRightFor};
ghost use Rattle.sg_output.specs.Causes.{IsRead, SecondFetched, IsSpecRefused, IsNoScript, IsReportRefused, IsAccepted};
ghost use Rattle.sg_run.specs.SureWorld.{sure_world, IsSurelyWhole};

use crate::{Outcome, Status, run};
use sg_eval::Journal;
use sg_outside::{SureShelf, SureSink};
use std::alloc::Global;

/// The same run over a shelf and a sink that never fail: no fetch, keep or put fails, so neither status of a failure
/// comes, and where the words are a job and what was fetched is accepted, the job is done or memory was wanting.
pub fn run_surely(
    alloc: Global,
    words: &[String],
    shelf: &mut SureShelf,
    sink: &mut SureSink,
    journal: &mut Journal,
) -> Outcome
    requires room { counted journal.old < 2 ^ 60 }

    // What is known of the reading; for each right one what was written, evaluated, asked and kept, and the status, are
    // those that are told of it.
    ensures known { IsRead (job (map string_bytes words.now)) (sure_world shelf.old sink.old (counted journal.old))
        result.replies.items result.status (sure_world shelf.new sink.new (counted journal.new)) }
    ensures ran { (r : Reading) → IsRightFor (job (map string_bytes words.now)) result.replies.items r
        → Ran (output_of (map string_bytes words.now) r) (sure_world shelf.old sink.old (counted journal.old))
        result.replies.items result.status (sure_world shelf.new sink.new (counted journal.new)) }

    // Each reply to a fetch is the front of that file, as it was and as it was kept since, and what was kept is what the
    // shelf has at the end. None is a failure.
    ensures files { (r : Reading) → IsRightFor (job (map string_bytes words.now)) result.replies.items r
        → Serves (OrEmpty shelf.old.files) (output_of (map string_bytes words.now) r result.replies.items).requests
        result.replies.items (OrEmpty shelf.new.files) }
    ensures no_failure { (reply : AReply) → Contains result.replies.items reply → failure reply ≡ 0 }

    // The cause of each status; two do not come.
    ensures usage { result.status ≡ Status.Usage → job (map string_bytes words.now) ≡ None }
    ensures no_read_fault { result.status ≢ Status.ReadFault }
    ensures spec_fault { result.status ≡ Status.SpecFault
        → IsSpecRefused (job (map string_bytes words.now)) result.replies.items }
    ensures script_fault { result.status ≡ Status.ScriptFault → SecondFetched result.replies.items IsNoScript }
    ensures report_fault { (r : Reading) → IsRightFor (job (map string_bytes words.now)) result.replies.items r
        → result.status ≡ Status.ReportFault
        → IsReportRefused (job (map string_bytes words.now)) r result.replies.items }
    ensures no_sink_fault { result.status ≢ Status.SinkFault }
    ensures complete { IsSome (job (map string_bytes words.now))
        → IsAccepted (job (map string_bytes words.now)) result.replies.items
        → (result.status ≡ Status.Done) ⊎ (result.status ≡ Status.Memory) }
{
    run(alloc, words, shelf, sink, journal)
}

/// What the end of such a run says in one: of each right reading, where memory was not wanting, the bytes, puts and
/// status, the requests and their replies, the calls, and how many equations were evaluated. Without code.
pub fn surely_says()
    ensures { (f : List AReply → Output) (shelf shelf_after : UnfailingShelf) (sink sink_after : UnfailingSink)
        (count count_after : ℕ) (got : List AReply) (status : AStatus)
        → Ran f (sure_world shelf sink count) got status (sure_world shelf_after sink_after count_after)
        → IsEnd status
        → IsSurelyWhole (f got) got status shelf shelf_after sink sink_after count count_after }
{}
