//! Laws of sessions that answer line by line, each as the contract of a function without code.
ghost use Rattle.std.specs.Prelude.{◌≡◌, ◌≤◌, bytes_eq, ℕ, List, [], ◌∷◌, ◌++◌, Ok, length};
ghost use Rattle.std.specs.Io.{StopsAt};
ghost use Rattle.std.specs.List.{list_any};
ghost use Rattle.sg_kinds.specs.Values.{Bytes, Value};
ghost use Rattle.sg_kinds.specs.declared.spec.Spec.{Spec};
ghost use Rattle.sg_matching.specs.Transformation.{transformation};
ghost use Rattle.sg_outside.specs.Shelf.{ShelfState};
ghost use Rattle.sg_script.specs.declared.command.Command.{Command};
ghost use Rattle.sg_script.specs.Script.{script_of};
ghost use Rattle.sg_editor.specs.Session.{Session};
ghost use Rattle.sg_output.specs.Session.{Desk};
ghost use Rattle.sg_console.specs.Console.{Event};
ghost use Rattle.sg_console.specs.Console.Event.{Ended};
ghost use Rattle.sg_live.specs.Laws.{AreBlocks, AreBlocksOf, BeginWith, pieces_in};
ghost use Rattle.sg_live.specs.Offers.{is_given, names_for};
ghost use Rattle.sg_live.specs.Outside.{AreRead};
ghost use Rattle.sg_live.specs.Turns.{AreTurns};

/// No line changes what was read and written before it: of the lines of a session any first ones are a session, whose
/// events are the first of the whole.
#[tactic(auto, using(crate::proofs::Fronts::fronts))]
pub fn later_lines_change_nothing()
    ensures { (d : Desk) (s : Session) (at : ShelfState) (k : ℕ) (t : Session) (to : ShelfState)
        (events : List Event) (n : ℕ) → AreTurns d s at k t to events n
        → (j : ℕ) → j ≤ k → BeginWith d s at j events }
{}

/// Where the lines of an input are a script, and nothing was written that begins with an exclamation mark, what was
/// written are the blocks of the commands of that script.
#[tactic(auto, using(crate::proofs::Runs::blocks_of_run))]
pub fn live_is_run()
    ensures { (d : Desk) (s : Session) (at : ShelfState) (k : ℕ) (t : Session) (to : ShelfState)
        (events : List Event) (n : ℕ) (input left : List ℕ) (commands : List Command)
        → AreTurns d s at k t to events n → AreRead input (events ++ Ended ∷ []) left
        → script_of input ≡ Ok commands → AreBlocks events → AreBlocksOf d s at commands (pieces_in events) to }
{}

/// A line with no newline but at its end is at most one command.
#[tactic(auto, using(crate::proofs::Scripts::one_command))]
pub fn one_command()
    ensures { (line : List ℕ) (commands : List Command) → StopsAt line 10 → script_of line ≡ Ok commands
        → length commands ≤ 1 }
{}

/// A name is among those that apply exactly where the transformations of that name give something, so that `do` is not
/// refused for the name.
#[tactic(auto, using(crate::proofs::OfferLaws::offered_given))]
pub fn offers_are_given()
    ensures { (spec : Spec) (p : ℕ) (v : Value) (name : Bytes)
        → list_any (bytes_eq name) (names_for spec p v) ≡ is_given (transformation spec p name v) }
{}
