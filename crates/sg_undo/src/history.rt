//! `History`, a bounded past and the future that was taken back from it.
ghost use Rattle.std.specs.Prelude.{◌≡◌, ◌+◌, ◌<◌, ◌≤◌, ◌↔◌, false, [], ◌∷◌, ◌++◌, length, slice_get, option_copied, option_to_list, IfOk, IsSome, IsNone};
ghost use Rattle.std.specs.Bool.{OnTrue, OnFalse};
ghost use Rattle.sg_undo.specs.Timeline.{timeline, Moves};

use circular_buffer::HeapCircularBuffer;
use std::alloc::Global;
use std::marker::Model;

/// Want of memory, the only error of this crate.
pub use std::alloc::AllocError as NoMemory;

/// The steps of an editor that can be undone, at most as many as its room, and those that were
/// undone and can be redone.
///
/// All room is taken when a history is made. No later call takes memory or refuses.
#[derive(Drop)]
pub struct History<S> {
    past: HeapCircularBuffer<S>,
    future: HeapCircularBuffer<S>,
}

impl<S> Model for History<S> {
    ghost use Rattle.std.specs.Prelude.{◌≡◌, ◌+◌, ◌<◌, ◌≤◌, length};
    ghost use Rattle.sg_undo.specs.Timeline.{Timeline, timeline};

    ghost Value = { Timeline S };

    ghost view = { λ h. timeline h.past.items h.future.items h.past.capacity };

    // each future step came from the past, so both fit the room of one
    ghost invariant = { λ h. (h.past.capacity ≡ h.future.capacity)
        × (length h.past.items + length h.future.items ≤ h.past.capacity) };
}

impl<S: Drop> History<S> {
    /// Returns an empty history with room for `n` steps.
    pub fn with_capacity(alloc: Global, n: usize) -> Result<History<S>, NoMemory>
        requires { 0 < n }
        ensures { IfOk result (λ h. h ≡ timeline [] [] n) }
    {
        let past = HeapCircularBuffer::with_capacity(alloc, n)?;
        let future = HeapCircularBuffer::with_capacity(alloc, n)?;
        Ok(History { past, future })
    }

    /// Returns the newest past step, the one that `back` would move.
    pub fn peek_back(&self) -> Option<&S>
        ensures { option_copied result ≡ slice_get self.now.past 0 }
    {
        self.past.front()
    }

    /// Returns the next future step, the one that `forth` would move.
    pub fn peek_forth(&self) -> Option<&S>
        ensures { option_copied result ≡ slice_get self.now.future 0 }
    {
        self.future.front()
    }

    /// Moves the newest past step to the future, and returns whether there was one.
    pub fn back(&mut self) -> bool
        ensures moved { OnTrue result (Moves self.old.past self.new.past self.old.future self.new.future) }
        ensures empty { (result ≡ false) ↔ (self.old.past ≡ []) }
        ensures stays { OnFalse result (self.new ≡ self.old) }
        ensures room { self.new.room ≡ self.old.room }
    {
        let Some(step) = self.past.pop_front() else {
            return false;
        };
        self.future.try_push_front(step).unwrap();
        true
    }

    /// Moves the next future step to the past, and returns whether there was one.
    pub fn forth(&mut self) -> bool
        ensures moved { OnTrue result (Moves self.old.future self.new.future self.old.past self.new.past) }
        ensures empty { (result ≡ false) ↔ (self.old.future ≡ []) }
        ensures stays { OnFalse result (self.new ≡ self.old) }
        ensures within { length self.new.past ≤ self.new.room }
        ensures room { self.new.room ≡ self.old.room }
    {
        let Some(step) = self.future.pop_front() else {
            return false;
        };
        self.past.try_push_front(step).unwrap();
        true
    }

    /// Takes the next future step out of the history, the one that `forth` would move.
    pub fn drop_forth(&mut self) -> Option<S>
        ensures taken { option_to_list result ++ self.new.future ≡ self.old.future }
        ensures empty { IsNone result ↔ (self.old.future ≡ []) }
        ensures stays { self.new ≡ record self.old { future = self.new.future } }
    {
        self.future.pop_front()
    }

    /// Takes the newest past step out of the history, the one that `back` would move.
    pub fn take_back(&mut self) -> Option<S>
        ensures taken { option_to_list result ++ self.new.past ≡ self.old.past }
        ensures empty { IsNone result ↔ (self.old.past ≡ []) }
        ensures stays { self.new ≡ record self.old { past = self.new.past } }
    {
        self.past.pop_front()
    }

    /// Puts a step first in the future, where there is room.
    pub fn put_forth(&mut self, next: S)
        requires { length self.old.past + length self.old.future < self.old.room }
        ensures put { self.new.future ≡ next ∷ self.old.future }
        ensures stays { self.new ≡ record self.old { future = self.new.future } }
    {
        self.future.try_push_front(next).unwrap();
    }

    /// Puts a step first in the past, where there is room; unlike `push` it drops nothing.
    pub fn put_back(&mut self, newest: S)
        requires { length self.old.past + length self.old.future < self.old.room }
        ensures put { self.new.past ≡ newest ∷ self.old.past }
        ensures stays { self.new ≡ record self.old { past = self.new.past } }
    {
        self.past.try_push_front(newest).unwrap();
    }

    /// Drops the future, puts a step first in the past, and hands back the oldest past step where
    /// the past was full.
    pub fn push(&mut self, step: S) -> Option<S>
        ensures kept { self.new.past ++ option_to_list result ≡ step ∷ self.old.past }
        ensures full { IsSome result ↔ (length self.old.past ≡ self.old.room) }
        ensures future { self.new.future ≡ [] }
        ensures within { length self.new.past ≤ self.new.room }
        ensures room { self.new.room ≡ self.old.room }
    {
        self.future.clear();
        self.past.push_front(step)
    }
}
