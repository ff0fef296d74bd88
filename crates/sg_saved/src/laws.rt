//! Laws of saved files, each as the contract of a function without code.
ghost use Rattle.std.specs.Prelude.{◌≡◌, ◌≤◌, ℕ};
ghost use Rattle.sg_kinds.specs.Fits.{Fits};
ghost use Rattle.sg_kinds.specs.Plain.{plain};
ghost use Rattle.sg_kinds.specs.Sound.{HasNames};
ghost use Rattle.sg_kinds.specs.Terms.{nodes_of, height_of};
ghost use Rattle.sg_kinds.specs.Values.{Bytes, Value};
ghost use Rattle.sg_kinds.specs.declared.spec.Spec.{Spec};
ghost use Rattle.sg_saved_form.specs.Files.{IsFile};
ghost use Rattle.sg_saved.specs.Read.{Opened, Holds, IsOpened, most_nodes, most_depth};
ghost use Rattle.sg_saved.specs.Spelling.{saved, AreNamed};

/// What is written of a value that fits a phylum is a saved file.
pub fn written_is_a_file()
    ensures { (spec : Spec) → AreNamed spec → (v : Value) (p : ℕ) → Fits spec (plain spec v p) p
        → IsFile (saved spec v) }
{}

/// No two values that fit a phylum are written alike.
pub fn one_spelling()
    ensures { (spec : Spec) → HasNames spec → AreNamed spec → (v w : Value) (p : ℕ) → Fits spec (plain spec v p) p
        → Fits spec (plain spec w p) p → saved spec v ≡ saved spec w → v ≡ w }
{}

/// Each text is opened in exactly one way: as no file from one place on, as a file whose first misfit begins at one
/// place, as one whose term is over a limit, or as a value.
pub fn each_file_is_opened()
    ensures { (spec : Spec) (bytes : Bytes) → (x : Opened) × IsOpened spec bytes x }
{}

pub fn one_opening()
    ensures { (spec : Spec) → HasNames spec → (bytes : Bytes) (x y : Opened) → IsOpened spec bytes x
        → IsOpened spec bytes y → x ≡ y }
{}

/// What is written of a value of the root phylum that is in the limits is read as that value.
pub fn written_is_read()
    ensures { (spec : Spec) → AreNamed spec → (v : Value) → Fits spec (plain spec v spec.root) spec.root
        → nodes_of (plain spec v spec.root) ≤ most_nodes → height_of (plain spec v spec.root) ≤ most_depth
        → IsOpened spec (saved spec v) (Holds v) }
{}
