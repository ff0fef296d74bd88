//! Laws of sessions, each as the contract of a function without code.
ghost use Rattle.std.specs.Prelude.{◌≡◌, ◌≢◌, ◌≤◌, ℕ, List, IsTrue};
ghost use Rattle.sg_kinds.specs.Fits.{Fits};
ghost use Rattle.sg_kinds.specs.Plain.{plain};
ghost use Rattle.sg_kinds.specs.Sound.{IsSound};
ghost use Rattle.sg_kinds.specs.Terms.{nodes_of, height_of};
ghost use Rattle.sg_kinds.specs.Values.{Bytes, Value};
ghost use Rattle.sg_kinds.specs.declared.spec.Spec.{Spec};
ghost use Rattle.sg_load.specs.Verdict.{Accepted, IsVerdict};
ghost use Rattle.sg_patterns.specs.LexemesOf.{AreLexemesOf};
ghost use Rattle.sg_patterns.specs.declared.lexemes.Lexemes.{Lexemes};
ghost use Rattle.sg_grammar.specs.Numbered.{grammar_of};
ghost use Rattle.sg_lalr.specs.Tables.{View, IsTables, Decided};
ghost use Rattle.sg_replies.specs.declared.reply.Reply.{Reply};
ghost use Rattle.sg_saved_form.specs.Files.{IsFile};
ghost use Rattle.sg_saved.specs.Read.{Holds, IsOpened, most_nodes, most_depth};
ghost use Rattle.sg_saved.specs.Spelling.{saved, AreNamed};
ghost use Rattle.sg_script.specs.declared.message.Message.TheVariants as message;
ghost use Rattle.sg_script.specs.declared.command.Command.{Command};
ghost use Rattle.sg_editor.specs.Ask.{AreReaders, Readers, Step, Tells, ask, asks_nothing};
ghost use Rattle.sg_editor.specs.Buffers.{HasFewBuffers};
ghost use Rattle.sg_editor.specs.Refused.{Leaves};
ghost use Rattle.sg_editor.specs.Session.{Session, start};
ghost use Rattle.sg_editor.specs.Steps.{Comes};

/// Each command but `load`, `save` and `save-text` asks nothing of the shelf.
pub fn others_ask_nothing()
    ensures { (spec : Spec) (height : ℕ) (r : Readers) (s : Session) (c : Command) → IsTrue (asks_nothing c)
        → (step : Step) × (ask spec height r s c ≡ Tells step) }
{}

/// For an accepted specification there are right readers of texts and of files.
pub fn readers_are_there()
    ensures { (spec : Spec) → IsSound spec → (l : Lexemes) → AreLexemesOf spec l → (v : View)
        → v.grammar ≡ grammar_of spec → IsTables v → Decided v → (r : Readers) × AreReaders spec r }
{}

/// A command that is not told as fine leaves the session as it was, but that a load which called the shelf is counted,
/// and that the point of a text which was entered goes to where its reading failed.
pub fn refusals_keep()
    ensures { (spec : Spec) (height : ℕ) (r : Readers) (s : Session) (got : List Reply) (step : Step) (c : Command)
        → Comes (ask spec height r s c) got step → step.message ≢ message.Fine → Leaves s got step c }
{}

/// A session begins without a buffer, and each command leaves at most 64, no two of one name.
#[tactic(auto, using(crate::proofs::Few::begin_few, crate::proofs::Few::stay_few))]
pub fn sessions_stay_small()
    ensures begins { HasFewBuffers start }
    ensures stays { (spec : Spec) (height : ℕ) (r : Readers) (s : Session) (got : List Reply) (step : Step)
        (c : Command) → HasFewBuffers s → Comes (ask spec height r s c) got step → HasFewBuffers step.session }
{}

/// The operators of an accepted specification have names that may stand in a saved file.
pub fn accepted_operators_are_named()
    ensures { (bytes : Bytes) (spec : Spec) → IsVerdict bytes (Accepted spec) → AreNamed spec }
{}

/// So what is saved of a value of an accepted specification is a saved file, no two values that fit a phylum are saved
/// alike, and what is saved of a value of the root phylum that is in the limits is read as that value.
pub fn saves_are_read()
    ensures file { (bytes : Bytes) (spec : Spec) → IsVerdict bytes (Accepted spec) → (v : Value) (p : ℕ)
        → Fits spec (plain spec v p) p → IsFile (saved spec v) }
    ensures one_spelling { (bytes : Bytes) (spec : Spec) → IsVerdict bytes (Accepted spec) → (v w : Value) (p : ℕ)
        → Fits spec (plain spec v p) p → Fits spec (plain spec w p) p → saved spec v ≡ saved spec w → v ≡ w }
    ensures read { (bytes : Bytes) (spec : Spec) → IsVerdict bytes (Accepted spec) → (v : Value)
        → Fits spec (plain spec v spec.root) spec.root → nodes_of (plain spec v spec.root) ≤ most_nodes
        → height_of (plain spec v spec.root) ≤ most_depth → IsOpened spec (saved spec v) (Holds v) }
{}
