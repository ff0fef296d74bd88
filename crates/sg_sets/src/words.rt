//! Flags in words of 64 bits.
ghost use Rattle.std.specs.Prelude.{◌≡◌, ℕ, ◌+◌, ◌<◌, ◌≤◌, ◌*◌, ◌/◌, ◌%◌, ◌^◌, ◌↔◌, ◌⊎◌, ◌||◌, false, true, length, replicate, IfSome, IfNone};
ghost use Rattle.std.specs.Bool.{OnTrue, OnFalse};
ghost use Rattle.std.specs.Int.{bit_at};
ghost use Rattle.sg_sets.specs.Words.{bit, Gained, SharedBit, OutsideBit, IsMovedBit, IsSetSince};

/// Clears all flags.
pub(crate) fn clear(words: &mut [u64])
    ensures { words.new ≡ replicate (length words.old) 0 }
{
    words.fill(0);
}

/// Sets the flags of `other` too, and returns whether one of them was not set.
pub(crate) fn join(words: &mut [u64], other: &[u64]) -> bool
    requires { length words.old ≡ length other.now }
    ensures joins { (a : ℕ) → bit words.new a ≡ (bit words.old a || bit other.now a) }
    ensures gained { OnTrue result (Gained words.old other.now) }
    ensures stays { OnFalse result (words.new ≡ words.old) }
{
    let mut grown = false;
    for k in 0..words.len() {
        let joined = words[k] | other[k];
        if joined != words[k] {
            words[k] = joined;
            grown = true;
        }
    }
    grown
}

/// Sets so many flags from `to` on where those of `other` from `from` on are set, and returns whether one of them
/// was not set. They lie in one word, and so do those of `other`.
pub(crate) fn join_piece(
    words: &mut [u64],
    to: usize,
    other: &[u64],
    from: usize,
    count: usize,
) -> bool
    requires some { 1 ≤ count }
    requires to { to / 64 < length words.old }
    requires to_room { to % 64 + count ≤ 64 }
    requires from { from / 64 < length other.now }
    requires from_room { from % 64 + count ≤ 64 }
    ensures joins { (a : ℕ) → (bit words.new a ≡ true) ↔ ((bit words.old a ≡ true)
        ⊎ IsMovedBit other.now from to count a) }
    ensures gained { OnTrue result (IsSetSince words.old words.new) }
    ensures stays { OnFalse result (words.new ≡ words.old) }
{
    let piece = piece(other[from / 64], from % 64, to % 64, count);
    let joined = words[to / 64] | piece;
    if joined == words[to / 64] {
        return false;
    }
    words[to / 64] = joined;
    true
}

/// So many flags of a word, moved to a place from their own.
fn piece(word: u64, from: usize, to: usize, count: usize) -> u64
    requires some { 1 ≤ count }
    requires to_room { to + count ≤ 64 }
    requires from_room { from + count ≤ 64 }
    ensures sound { (j : ℕ) → bit_at result j ≡ 1
        → (i : ℕ) × (i < count) × (bit_at word (from + i) ≡ 1) × (j ≡ to + i) }
    ensures moves { (i : ℕ) → i < count → bit_at word (from + i) ≡ 1 → bit_at result (to + i) ≡ 1 }
{
    ((word >> from) & (u64::MAX >> (64 - count))) << to
}

/// Returns the least place whose flag is set in both.
pub(crate) fn first_shared(words: &[u64], other: &[u64]) -> Option<usize>
    requires same { length words.now ≡ length other.now }
    requires fits { 64 * length words.now ≤ 2 ^ 64 }
    ensures none { IfNone result ((a : ℕ) → ¬ (SharedBit words.now other.now a)) }
    ensures shared { IfSome result (SharedBit words.now other.now) }
    ensures least { IfSome result (λ m. (a : ℕ) → SharedBit words.now other.now a → m ≤ a) }
{
    for k in 0..words.len() {
        let shared = words[k] & other[k];
        if shared != 0 {
            return Some(64 * k + shared.trailing_zeros() as usize);
        }
    }
    None
}

/// Returns the least place whose flag is set in the first alone.
pub(crate) fn first_outside(words: &[u64], other: &[u64]) -> Option<usize>
    requires same { length words.now ≡ length other.now }
    requires fits { 64 * length words.now ≤ 2 ^ 64 }
    ensures none { IfNone result ((a : ℕ) → ¬ (OutsideBit words.now other.now a)) }
    ensures outside { IfSome result (OutsideBit words.now other.now) }
    ensures least { IfSome result (λ m. (a : ℕ) → OutsideBit words.now other.now a → m ≤ a) }
{
    for k in 0..words.len() {
        let left = words[k] & !other[k];
        if left != 0 {
            return Some(64 * k + left.trailing_zeros() as usize);
        }
    }
    None
}
