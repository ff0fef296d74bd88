//! Laws of a whole run, each as the contract of a function without code.
ghost use Rattle.std.specs.Prelude.{◌≡◌, ◌≢◌, ◌≤◌, List, length, Option};
ghost use Rattle.sg_outside.specs.Count.{answered_by, raised_by};
ghost use Rattle.sg_outside.specs.Sink.{CutShort};
ghost use Rattle.sg_replies.specs.declared.reply.Reply.{Reply};
ghost use Rattle.sg_replies.specs.Requests.{failures};
ghost use Rattle.sg_output.specs.declared.status.Status.{Status};
ghost use Rattle.sg_output.specs.declared.status.Status.TheVariants.{Memory, SinkFault};
ghost use Rattle.sg_output.specs.Statuses.{IsEnd};
ghost use Rattle.sg_output.specs.Job.{Job};
ghost use Rattle.sg_output.specs.Output.{Output, joined};
ghost use Rattle.sg_output.specs.OutputOf.{job_told};
ghost use Rattle.sg_output.specs.Reading.{Reading, IsRightFor};
ghost use Rattle.sg_output.specs.World.{World, WholeBlocks};
ghost use Rattle.sg_output.specs.Ran.{Ran, IsWhole};
ghost use Rattle.sg_output.specs.Causes.{IsRead};

/// What a run says besides. At an end of its own: its bytes, puts, status, requests and evaluated equations at once.
/// After want of memory whole blocks were written, after a fault of the sink a front of the output. By no reading at
/// all: each failed reply was counted, and where memory was not wanting each call was answered.
pub fn runs_say()
    ensures whole { (f : List Reply → Output) (old new : World) (got : List Reply) (status : Status)
        → Ran f old got status new → IsEnd status → IsWhole (f got) old got status new }
    ensures after_memory { (f : List Reply → Output) (old new : World) (got : List Reply)
        → Ran f old got Memory new → WholeBlocks old.sink.written new.sink.written (f got).blocks }
    ensures after_sink_fault { (f : List Reply → Output) (old new : World) (got : List Reply)
        → Ran f old got SinkFault new → CutShort old.sink.written new.sink.written (joined (f got).blocks) }
    ensures failed_replies { (asked : Option Job) (old new : World) (got : List Reply) (status : Status)
        → IsRead asked old got status new
        → ((r : Reading) → IsRightFor asked got r → Ran (job_told asked r) old got status new)
        → raised_by (failures got) old.shelf.faults ≤ new.shelf.faults }
    ensures calls { (asked : Option Job) (old new : World) (got : List Reply) (status : Status)
        → IsRead asked old got status new
        → ((r : Reading) → IsRightFor asked got r → Ran (job_told asked r) old got status new)
        → status ≢ Memory → new.shelf.calls ≡ answered_by (length got) old.shelf.calls }
{}
