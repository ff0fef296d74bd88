//! What a session does, in sentences, each as the contract of a function without code.
ghost use Rattle.std.specs.Prelude.{◌≡◌, ◌≢◌, ◌<◌, ◌≤◌, ℕ, IsTrue, List, [], ◌∷◌, None, Some, length};
ghost use Rattle.sg_kinds.specs.Fits.{Fits};
ghost use Rattle.sg_kinds.specs.Plain.{plain};
ghost use Rattle.sg_kinds.specs.Sound.{IsSmall, IsSound};
ghost use Rattle.sg_kinds.specs.ValueOf.{value_of};
ghost use Rattle.sg_kinds.specs.Values.{Bytes};
ghost use Rattle.sg_kinds.specs.declared.spec.Spec.{Spec};
ghost use Rattle.sg_grammar.specs.Numbered.{grammar_of};
ghost use Rattle.sg_lalr.specs.Tables.{Decided, IsTables, View};
ghost use Rattle.sg_load.specs.Verdict.{Accepted, IsVerdict};
ghost use Rattle.sg_changes.specs.declared.direction.Direction.TheVariants as direction;
ghost use Rattle.sg_replies.specs.Requests.{Keep, Request};
ghost use Rattle.sg_replies.specs.declared.reply.Reply.{Reply};
ghost use Rattle.sg_replies.specs.declared.reply.Reply.TheVariants as reply;
ghost use Rattle.sg_saved.specs.Spelling.{saved};
ghost use Rattle.sg_script.specs.declared.command.Command.{Command};
ghost use Rattle.sg_script.specs.declared.command.Command.TheVariants as command;
ghost use Rattle.sg_script.specs.declared.message.Message.{Message};
ghost use Rattle.sg_script.specs.declared.message.Message.TheVariants as message;
ghost use Rattle.sg_unparse.specs.Page.{Region, region_of};
ghost use Rattle.sg_states.specs.States.{State, selected_place};
ghost use Rattle.sg_commands.specs.Turn.{AreReads};
ghost use Rattle.sg_editor.specs.Ask.{AreReaders, Readers, Step, ask, barred, longest_file, opens};
ghost use Rattle.sg_editor.specs.Screen.{screen, shown_in};
ghost use Rattle.sg_editor.specs.Session.{Session, current_of, start, with_load};
ghost use Rattle.sg_editor.specs.Steps.{Comes, requests_of};
ghost use Rattle.sg_glosses.specs.Entering.{CanEnter, CanText, HasEnter, HasText};
ghost use Rattle.sg_glosses.specs.Evaluations.{HasGone, HasOpened, HasReplaced};
ghost use Rattle.sg_glosses.specs.Evaluations.{changes, evaluates_nothing, is_opening, is_replacement};
ghost use Rattle.sg_glosses.specs.Selected.{HaveSelections};

/// Moves, selections, marks, what is typed and not entered, copies, and what shows, switches or saves evaluate nothing;
/// nor does any command that is not told as fine.
pub fn most_commands_evaluate_nothing()
    ensures others { (spec : Spec) (height : ℕ) (r : Readers) (s : Session) (got : List Reply) (step : Step)
        (c : Command) → IsTrue (evaluates_nothing c) → Comes (ask spec height r s c) got step → step.set ≡ [] }
    ensures refused { (spec : Spec) (height : ℕ) (r : Readers) (s : Session) (got : List Reply) (step : Step)
        (c : Command) → Comes (ask spec height r s c) got step → step.message ≢ message.Fine → step.set ≡ [] }
{}

/// `new` and `load`, where they are done, evaluate every equation of the new buffer's term.
pub fn new_buffers_are_evaluated_whole()
    ensures { (spec : Spec) (height : ℕ) (r : Readers) (s : Session) (got : List Reply) (step : Step) (c : Command)
        → IsTrue (is_opening c) → Comes (ask spec height r s c) got step → step.message ≡ message.Fine
        → HasOpened spec step }
{}

/// Each command that puts a subterm in the place of another, where it is done, evaluates what the definition of a
/// replacement says of the two terms.
pub fn replacements_evaluate_what_they_change()
    ensures { (spec : Spec) (height : ℕ) (r : Readers) (s : Session) (got : List Reply) (step : Step) (c : Command)
        → IsTrue (is_replacement c) → Comes (ask spec height r s c) got step → step.message ≡ message.Fine
        → HasReplaced spec s step }
{}

/// So do `undo` and `redo`, of the replacement of the nearest change that way, read that way; of marks they evaluate
/// nothing.
pub fn ways_evaluate_what_they_change()
    ensures undo { (spec : Spec) (height : ℕ) (r : Readers) (s : Session) (got : List Reply) (step : Step)
        → Comes (ask spec height r s command.Undo) got step → step.message ≡ message.Fine
        → HasGone spec height direction.Back s step }
    ensures redo { (spec : Spec) (height : ℕ) (r : Readers) (s : Session) (got : List Reply) (step : Step)
        → Comes (ask spec height r s command.Redo) got step → step.message ≡ message.Fine
        → HasGone spec height direction.Forth s step }
{}

/// Where texts are read right, `text` is told as fine only where selection, entry, derivation, no fault and limits
/// allow, and over a sound specification with tables everywhere there. The plain term of the derived value comes then.
pub fn texts_are_entered_where_they_may()
    ensures only { (spec : Spec) (height : ℕ) (r : Readers) → AreReads spec r.text → (s : Session) (got : List Reply)
        (step : Step) (text : Bytes) → Comes (ask spec height r s (command.Text text)) got step
        → step.message ≡ message.Fine → CanText spec s text }
    ensures then { (spec : Spec) (height : ℕ) (r : Readers) → AreReads spec r.text → (s : Session) (got : List Reply)
        (step : Step) (text : Bytes) → Comes (ask spec height r s (command.Text text)) got step
        → step.message ≡ message.Fine → HasText spec s text step }
    ensures everywhere { (spec : Spec) → IsSound spec → (v : View) → v.grammar ≡ grammar_of spec → IsTables v
        → Decided v → (height : ℕ) (r : Readers) → AreReads spec r.text → (s : Session) (got : List Reply) (step : Step)
        (text : Bytes) → CanText spec s text → Comes (ask spec height r s (command.Text text)) got step
        → step.message ≡ message.Fine }
{}

/// So is `enter`, of the text that is being typed.
pub fn typed_texts_are_entered_where_they_may()
    ensures only { (spec : Spec) (height : ℕ) (r : Readers) → AreReads spec r.text → (s : Session) (got : List Reply)
        (step : Step) → Comes (ask spec height r s command.Enter) got step → step.message ≡ message.Fine
        → CanEnter spec s }
    ensures then { (spec : Spec) (height : ℕ) (r : Readers) → AreReads spec r.text → (s : Session) (got : List Reply)
        (step : Step) → Comes (ask spec height r s command.Enter) got step → step.message ≡ message.Fine
        → HasEnter spec s step }
    ensures everywhere { (spec : Spec) → IsSound spec → (v : View) → v.grammar ≡ grammar_of spec → IsTables v
        → Decided v → (height : ℕ) (r : Readers) → AreReads spec r.text → (s : Session) (got : List Reply) (step : Step)
        → CanEnter spec s → Comes (ask spec height r s command.Enter) got step → step.message ≡ message.Fine }
{}

/// `undo` right after a change is done, and header, window and lines are printed as they were before the change, but for
/// what is said and counted. Right after `enter` they are printed as after `abandon`. Something is selected in each
/// buffer, as it is in each session.
pub fn undo_prints_what_was()
    ensures done { (spec : Spec) (height : ℕ) (r : Readers) (s : Session) (got later : List Reply) (step back : Step)
        (c : Command) → IsTrue (changes c) → Comes (ask spec height r s c) got step → step.message ≡ message.Fine
        → Comes (ask spec height r step.session command.Undo) later back → back.message ≡ message.Fine }
    ensures printed { (spec : Spec) (height : ℕ) (r : Readers) (s : Session) (got later : List Reply) (step back : Step)
        (c : Command) → HaveSelections spec height s → IsTrue (changes c) → Comes (ask spec height r s c) got step
        → step.message ≡ message.Fine → Comes (ask spec height r step.session command.Undo) later back
        → (width : ℕ) (m : Message) (n : ℕ)
        → screen spec width height back.session m n ≡ screen spec width height s m n }
    ensures entered { (spec : Spec) (height : ℕ) (r : Readers) (s : Session) (got later : List Reply) (step back : Step)
        → HaveSelections spec height s → Comes (ask spec height r s command.Enter) got step
        → step.message ≡ message.Fine
        → Comes (ask spec height r step.session command.Undo) later back → (other : List Reply) (left : Step)
        → Comes (ask spec height r s command.Abandon) other left → (width : ℕ) (m : Message) (n : ℕ)
        → screen spec width height back.session m n ≡ screen spec width height left.session m n }
{}

/// `save` asks to keep what is saved of the current buffer's value. A `load` that fetches bytes which a `save` asked to
/// keep, of an accepted specification, has a new buffer of the plain term of that value, where it is not barred and the
/// bytes are few enough.
pub fn saved_values_are_loaded()
    ensures kept { (spec : Spec) (height : ℕ) (r : Readers) (s : Session) (file : Bytes) (q : Request)
        (b : Bytes × State) → requests_of (ask spec height r s (command.Save file)) ≡ q ∷ [] → current_of s ≡ Some b
        → q ≡ Keep file (saved spec (value_of b.1.term)) }
    ensures loaded { (bytes : Bytes) (spec : Spec) → IsVerdict bytes (Accepted spec) → (height : ℕ) (r : Readers)
        → AreReaders spec r → (s : Session) (file kept : Bytes) (b : Bytes × State) → current_of s ≡ Some b
        → Fits spec b.1.term spec.root → IsSmall b.1.term
        → requests_of (ask spec height r s (command.Save file)) ≡ Keep file kept ∷ [] → length kept ≤ longest_file
        → (later : Session) (name source : Bytes) (step : Step) → barred name later ≡ None
        → Comes (ask spec height r later (command.Load name source)) (reply.Fetched kept ∷ []) step
        → step ≡ opens spec name (plain spec (value_of b.1.term) spec.root) (with_load later) }
{}

/// In each session something is selected in each buffer, and each command keeps it so: a resting place in the view, or
/// as many elements of a list from there on as there are, also wherever undo and redo lead; its first line is in the
/// window. It has a region.
pub fn selected_nodes_have_regions()
    ensures begins { (spec : Spec) (height : ℕ) → HaveSelections spec height start }
    ensures stays { (spec : Spec) (height : ℕ) (r : Readers) (s : Session) (got : List Reply) (step : Step)
        (c : Command) → 0 < height → HaveSelections spec height s → Comes (ask spec height r s c) got step
        → HaveSelections spec height step.session }
    ensures region { (spec : Spec) (height : ℕ) (s : Session) (b : Bytes × State) → HaveSelections spec height s
        → current_of s ≡ Some b → (region : Region) × (region_of (shown_in spec b.1) (selected_place b.1) ≡ Some region) }
{}
