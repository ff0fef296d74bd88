//! Why a text has no trees.
ghost use Rattle.std.specs.Prelude.{◌≡◌};
ghost use Rattle.sg_reader.specs.declared.fault.ReadFault.TheVariants as fault;

use std::alloc::AllocFailed;
use thiserror::Error;

/// Why a text has no trees.
#[derive(Clone, Copy, Debug, Error)]
pub enum ReadFault {
    /// The first declaration that no tree spells, by its number from 0 and the line of its first token.
    #[error("declaration {0}, on line {1}, has no reading")]
    Syntax(usize, u32),
    #[error("out of memory")]
    NoMemory,
}

impl<T: Drop> From<AllocFailed<T>> for ReadFault {
    ghost from_gives = { λ _ e. e ≡ fault.NoMemory };

    fn from(_: AllocFailed<T>) -> ReadFault {
        ReadFault::NoMemory
    }
}
