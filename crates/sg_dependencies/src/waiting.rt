//! Which operators wait to be settled.
ghost use Rattle.std.specs.Prelude.{◌≡◌, ◌≢◌, ℕ, ◌<◌, ◌↔◌, ◌⊎◌, length, All, IsTrue};
ghost use Rattle.sg_dependencies.specs.Frames.{Spot as IsSpot};
ghost use Rattle.sg_dependencies.specs.Rounds.{frame_at};
ghost use Rattle.sg_dependencies.specs.Waiting.{AreApart, Waits};

use crate::frame::{Frame, Spot};

/// Lets each operator wait that shares a phylum with these occurrences.
pub fn call(frames: &[Frame], spots: &[Spot], waiting: &mut [bool])
    requires { length waiting.old ≡ length frames.now }
    ensures size { length waiting.new ≡ length waiting.old }
    ensures stays { (q : ℕ) → Waits waiting.old q → Waits waiting.new q }
    ensures calls { (q : ℕ) → q < length frames.now → Waits waiting.new q
        ⊎ AreApart (frame_at frames.now q).spots spots.now }
{
    for (q, frame) in frames.iter().enumerate() {
        if !are_apart(frame.spots.as_slice(), spots) {
            waiting[q] = true;
        }
    }
}

/// Returns whether no phylum stands among both.
fn are_apart(spots: &[Spot], others: &[Spot]) -> bool
    ensures { IsTrue result ↔ AreApart spots.now others.now }
{
    spots.iter().all(|spot| lacks(others, spot.phylum))
}

/// Returns whether a phylum does not stand among the occurrences.
fn lacks(spots: &[Spot], phylum: usize) -> bool
    ensures { IsTrue result ↔ All (λ (s : IsSpot). s.phylum ≢ phylum) spots.now }
{
    spots.iter().all(|spot| spot.phylum != phylum)
}
