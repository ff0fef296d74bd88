//! Numbers among the words of the command line, and laws of them, each as the contract of a function without code.
ghost use Rattle.std.specs.Fmt.{decimal};
ghost use Rattle.std.specs.Prelude.{◌≡◌, ◌≤◌, ◌↔◌, ℕ, List, Some};
ghost use Rattle.sg_output.specs.Job.{Load, load_of, size_of};

/// The sizes of a window are the numbers from 1 to 1,024, each as it is written in decimal; the workloads are those
/// of 1 to 400 statements, each number written so.
pub fn numbers_are_decimal()
    ensures sizes { (w : List ℕ) (n : ℕ) → (size_of w ≡ Some n) ↔ ((w ≡ decimal n) × (1 ≤ n) × (n ≤ 1024)) }
    ensures loads { (w : List ℕ) (n : ℕ) → (load_of w ≡ Some (Load n)) ↔ ((w ≡ decimal n) × (1 ≤ n) × (n ≤ 400)) }
{}

/// A width or a height: a number from 1 to 1,024 in decimal digits, of which the first is no 0.
pub fn size(word: &str) -> Option<usize>
    ensures { result ≡ size_of word.now }
{
    let bytes = word.as_bytes();
    if bytes.is_empty() || bytes[0] <= b'0' {
        return None;
    }
    let mut n = 0usize;
    for b in bytes {
        if !b.is_ascii_digit() || n > 1024 {
            return None;
        }
        n = n * 10 + (*b - b'0') as usize;
    }
    if n > 1024 { None } else { Some(n) }
}
