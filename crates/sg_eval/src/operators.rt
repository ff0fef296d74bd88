// Operators on the values of their operands.
ghost use Rattle.std.specs.Prelude.{◌≡◌, ℕ, List, length};
ghost use Rattle.sg_kinds.specs.Values.{Value, same_value};
ghost use Rattle.sg_pool.specs.Pools.{IsGrown};
ghost use Rattle.sg_kinds.specs.Evaluation.{Gives, limited, applied as applied_of, combined as combined_of};
ghost use Rattle.sg_eval.specs.Lives.{value_in, IsUsable, IsReached};

use crate::live::{Live, Stop};
use crate::numbers::{arithmetic, negated};
use crate::texts;
use sg_kinds::marks::{FaultKind, Sign, Unary};
use sg_pool::pool::Pool;
use std::alloc::Global;

/// A form with one operand, on its value.
pub fn applied(alloc: Global, f: Unary, x: Live, pool: &mut Pool) -> Result<Live, Stop>
    requires { IsUsable pool.old x }
    ensures value { (last : List Value) (left : ℕ) → IsGrown pool.new last →
        IsReached last result left (limited (Gives (applied_of f (value_in last x)) left)) }
    ensures grown { IsGrown pool.old pool.new }
{
    match f {
        Unary::Paren => Ok(x),
        Unary::Negative => match x {
            Live::Number(n) => negated(n),
            _ => Err(Stop::Fault(FaultKind::NoMatch)),
        },
        Unary::Not => match x {
            Live::False => Ok(Live::True),
            Live::True => Ok(Live::False),
            _ => Err(Stop::Fault(FaultKind::NoMatch)),
        },
        Unary::TextToNumber => match x {
            Live::Kept(number) => texts::number(number, pool),
            _ => Err(Stop::Fault(FaultKind::NoMatch)),
        },
        Unary::NumberToText => match x {
            Live::Number(n) => texts::digits(alloc, n, pool),
            _ => Err(Stop::Fault(FaultKind::NoMatch)),
        },
        Unary::TextLength => match x {
            Live::Kept(number) => texts::length(number, pool),
            _ => Err(Stop::Fault(FaultKind::NoMatch)),
        },
    }
}

/// A strict operator with two operands, on their values.
pub fn combined(alloc: Global, sign: Sign, x: Live, y: Live, pool: &mut Pool) -> Result<Live, Stop>
    requires x { IsUsable pool.old x }
    requires y { IsUsable pool.old y }
    ensures value { (last : List Value) (left : ℕ) → IsGrown pool.new last →
        IsReached last result left (limited (Gives (combined_of sign (value_in last x) (value_in last y)) left)) }
    ensures grown { IsGrown pool.old pool.new }
{
    match sign {
        Sign::Equal => Ok(Live::truth(same(x, y, pool))),
        Sign::Unequal => Ok(Live::truth(!same(x, y, pool))),
        Sign::Join => match (x, y) {
            (Live::Kept(x), Live::Kept(y)) => texts::joined(alloc, x, y, pool),
            _ => Err(Stop::Fault(FaultKind::NoMatch)),
        },
        _ => match (x, y) {
            (Live::Number(x), Live::Number(y)) => arithmetic(sign, x, y),
            _ => Err(Stop::Fault(FaultKind::NoMatch)),
        },
    }
}

// whether two values are the same: their numbers are
fn same(x: Live, y: Live, pool: &Pool) -> bool
    requires x { IsUsable pool.now x }
    requires y { IsUsable pool.now y }
    ensures { result ≡ same_value (value_in pool.now x) (value_in pool.now y) }
{
    pool.sound();
    match (x, y) {
        (Live::False, Live::False) | (Live::True, Live::True) => true,
        (Live::Number(x), Live::Number(y)) => x == y,
        (Live::Kept(x), Live::Kept(y)) => x == y,
        _ => false,
    }
}
