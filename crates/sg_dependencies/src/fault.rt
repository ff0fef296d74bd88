//! Why equations have no order.
ghost use Rattle.std.specs.Prelude.{◌≡◌};
ghost use Rattle.sg_dependencies.specs.declared.fault.OrderFault.TheVariants as fault;

use sg_kinds::ids::OpId;
use sg_kinds::memory::NoMemory;
use sg_kinds::row::Row;

/// Why there is no order of evaluation: the first operator whose relation has a cycle, and that cycle as the numbers of
/// its vertices.
#[derive(Drop)]
pub enum OrderFault {
    /// of what the equations name and define
    Direct(OpId, Row<usize>),
    /// of the induced dependencies
    Induced(OpId, Row<usize>),
    /// of the induced dependencies and those on all attributes of earlier evaluated layers
    Ordered(OpId, Row<usize>),
    NoMemory,
}

impl From<NoMemory> for OrderFault {
    ghost from_gives = { λ _ e. e ≡ fault.NoMemory };

    fn from(_: NoMemory) -> OrderFault {
        OrderFault::NoMemory
    }
}
