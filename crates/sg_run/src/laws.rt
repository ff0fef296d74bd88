//! What a whole run is, in sentences, each as the contract of a function without code.
ghost use Rattle.std.specs.Prelude.{◌≡◌, ◌≢◌, ℕ, List, Some};
ghost use Rattle.sg_kinds.specs.Values.{Bytes};
ghost use Rattle.sg_load.specs.Verdict.{Verdict, IsVerdict};
ghost use Rattle.sg_replies.specs.declared.reply.Reply.{Reply};
ghost use Rattle.sg_output.specs.declared.status.Status.{Status};
ghost use Rattle.sg_output.specs.declared.status.Status.TheVariants.{Done};
ghost use Rattle.sg_output.specs.Statuses.{IsEnd};
ghost use Rattle.sg_output.specs.Job.{Job, job};
ghost use Rattle.sg_output.specs.Job.Job.{Check, Load, Report, Run, Show};
ghost use Rattle.sg_output.specs.OutputOf.{output_of};
ghost use Rattle.sg_output.specs.Ran.{Ran};
ghost use Rattle.sg_output.specs.Reading.{Reading, IsRightFor};
ghost use Rattle.sg_output.specs.World.{World};
ghost use Rattle.sg_run.specs.Sessions.{IsChecked, IsFirstScreen, IsRefusal, IsReported, IsSession, IsWorked};

/// A run of a script that is done fetched an accepted specification and a script in its form, and performed the
/// commands of that script one by one: the first from the session without buffers, each other one from the session
/// that the one before it left, each by the shelf's reply to what it asked, if it asked. It wrote the screen after
/// each, by one put each, and nothing else; it asked the shelf for the two files and for what the commands ask, in turn,
/// and the shelf's files are what those replies make of them; it evaluated as many equations as the screens say. The
/// first screen of a specification is the run of the one command `new main`. A run that came to an end of its own and is
/// not done wrote one line that says why, by one put, and kept and evaluated nothing.
pub fn runs_are_sessions()
    ensures scripts { (words : List (List ℕ)) (name script : List ℕ) (width height : ℕ) (r : Reading) (old new : World)
        (got : List Reply) → job words ≡ Some (Run name script width height) → IsRightFor (job words) got r
        → Ran (output_of words r) old got Done new → IsSession name script width height r old got new }
    ensures first_screens { (words : List (List ℕ)) (name : List ℕ) (r : Reading) (old new : World)
        (got : List Reply) → job words ≡ Some (Show name) → IsRightFor (job words) got r
        → Ran (output_of words r) old got Done new → IsFirstScreen name r old got new }
    ensures refusals { (words : List (List ℕ)) (r : Reading) (old new : World) (got : List Reply) (status : Status)
        → IsRightFor (job words) got r → Ran (output_of words r) old got status new → IsEnd status → status ≢ Done
        → IsRefusal r old status new }
{}

/// A run of another job that is done put one block, and nothing else: `check` the line that there is no fault, `load` the
/// line of its workload, `report` the report of the file, each by an accepted specification. It asked the shelf for its
/// files alone, and evaluated as many equations as the workload or the report says, and for `check` none.
pub fn other_runs_put_a_block()
    ensures checks { (words : List (List ℕ)) (name : List ℕ) (r : Reading) (old new : World) (got : List Reply)
        → job words ≡ Some (Check name) → IsRightFor (job words) got r → Ran (output_of words r) old got Done new
        → IsChecked name r old got new }
    ensures workloads { (words : List (List ℕ)) (count : ℕ) (r : Reading) (old new : World) (got : List Reply)
        → job words ≡ Some (Load count) → IsRightFor (job words) got r → Ran (output_of words r) old got Done new
        → IsWorked count r old got new }
    ensures reports { (words : List (List ℕ)) (name file word : List ℕ) (r : Reading) (old new : World)
        (got : List Reply) → job words ≡ Some (Report name file word) → IsRightFor (job words) got r
        → Ran (output_of words r) old got Done new → IsReported name file word r old got new }
{}

/// It cannot be that a text has no verdict: that it has no first fault, and is not accepted either. Which of the two it
/// is, no law decides; `sg_load::load` does, unless memory is wanting.
#[tactic(auto, using(crate::proofs::Verdicts::judged))]
pub fn no_text_is_without_a_verdict()
    ensures { (bytes : Bytes) → ((v : Verdict) → IsVerdict bytes v → ⊥) → ⊥ }
{}
