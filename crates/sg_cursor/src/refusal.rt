//! Why a declaration is not read.
ghost use Rattle.std.specs.Prelude.{◌≡◌};
ghost use Rattle.sg_cursor.specs.declared.refusal.Refusal.TheVariants as refusal;

use std::alloc::{AllocError, AllocFailed};

/// Why one declaration is not read.
#[derive(Clone, Copy)]
pub enum Refusal {
    NoReading,
    NoMemory,
}

impl From<AllocError> for Refusal {
    ghost from_gives = { λ _ e. e ≡ refusal.NoMemory };

    fn from(_: AllocError) -> Refusal {
        Refusal::NoMemory
    }
}

impl<T: Drop> From<AllocFailed<T>> for Refusal {
    ghost from_gives = { λ _ e. e ≡ refusal.NoMemory };

    fn from(_: AllocFailed<T>) -> Refusal {
        Refusal::NoMemory
    }
}
