//! The operators of the record.
ghost use Rattle.std.specs.Prelude.{◌≡◌};
ghost use Rattle.sg_names.specs.Rows.{row_at};
ghost use Rattle.sg_record.specs.Record as spec;

use sg_kinds::spec::{Operator, Scheme};
use sg_names::groups::Groups;
use std::alloc::Global;

/// Gives the operators their schemes.
pub(crate) fn with_schemes(
    alloc: Global,
    mut ops: Vec<Operator>,
    mut schemes: Groups<Scheme>,
) -> Vec<Operator>
    ensures { result.items ≡ spec.with_schemes (row_at schemes) ops.items }
{
    for place in 0..ops.len() {
        ops[place].schemes = schemes.take(alloc, place);
    }
    ops
}
