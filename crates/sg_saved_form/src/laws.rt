//! Laws of saved files, each as the contract of a function without code.
ghost use Rattle.std.specs.Prelude.{◌≡◌, ℕ, ◌⊎◌};
ghost use Rattle.sg_kinds.specs.Values.{Bytes};
ghost use Rattle.sg_saved_form.specs.Files.{Raw, IsRaw, IsFile, IsNoFile, file_of};

/// A text is the file of one term.
pub fn one_file()
    ensures { (r s : Raw) → IsRaw r → IsRaw s → file_of r ≡ file_of s → r ≡ s }
{}

/// Each text is a file, or is none from one place on, and not both.
pub fn each_text_is_a_file_or_none()
    ensures either { (bytes : Bytes) → IsFile bytes ⊎ ((at : ℕ) × IsNoFile bytes at) }
    ensures place { (bytes : Bytes) (at n : ℕ) → IsNoFile bytes at → IsNoFile bytes n → at ≡ n }
{}
