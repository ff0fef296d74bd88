// Operators on numbers, and the numbers that texts write.
ghost use Rattle.std.specs.Prelude.{◌≡◌, ℕ, ◌<◌, ◌^◌, neg_ℤ, List, Some, MatchOption};
ghost use Rattle.sg_kinds.specs.Values.{Value, Fault, Number};
ghost use Rattle.sg_kinds.specs.Evaluation.{Gives, limited, arithmetic as arithmetic_of, quotient as quotient_of, remainder as remainder_of, in_range as in_range_of, natural as natural_of, integer, converted as converted_of};
ghost use Rattle.sg_kinds.specs.declared.marks.FaultKind.TheVariants.{Convert};
ghost use Rattle.sg_eval.specs.Lives.{IsReached, number_or_overflow};

use crate::live::{Live, Stop};
use sg_kinds::marks::{FaultKind, Sign};

/// The outcome of an operator on two numbers.
pub fn arithmetic(sign: Sign, x: i64, y: i64) -> Result<Live, Stop>
    ensures { (last : List Value) (left : ℕ) →
        IsReached last result left (limited (Gives (arithmetic_of sign x y) left)) }
{
    match sign {
        Sign::Add => in_range(x.checked_add(y)),
        Sign::Sub => in_range(x.checked_sub(y)),
        Sign::Mul => in_range(x.checked_mul(y)),
        Sign::Div => quotient(x, y),
        Sign::Rem => remainder(x, y),
        Sign::Below => Ok(Live::truth(x < y)),
        Sign::AtMost => Ok(Live::truth(x <= y)),
        Sign::Above => Ok(Live::truth(x > y)),
        Sign::AtLeast => Ok(Live::truth(x >= y)),
        _ => Err(Stop::Fault(FaultKind::NoMatch)),
    }
}

// a number, or the fault that it is out of range
fn in_range(z: Option<i64>) -> Result<Live, Stop>
    ensures { (last : List Value) (left : ℕ) →
        IsReached last result left (limited (Gives (number_or_overflow z) left)) }
{
    match z {
        Some(z) => Ok(Live::Number(z)),
        None => Err(Stop::Fault(FaultKind::Overflow)),
    }
}

// `/`, truncated toward zero
fn quotient(x: i64, y: i64) -> Result<Live, Stop>
    ensures { (last : List Value) (left : ℕ) → IsReached last result left (limited (Gives (quotient_of x y) left)) }
{
    if y == 0 {
        return Err(Stop::Fault(FaultKind::Divide));
    }
    in_range(x.checked_div(y))
}

// `%`, with the sign of the dividend
fn remainder(x: i64, y: i64) -> Result<Live, Stop>
    ensures { (last : List Value) (left : ℕ) → IsReached last result left (limited (Gives (remainder_of x y) left)) }
{
    if y == 0 {
        return Err(Stop::Fault(FaultKind::Divide));
    }
    in_range(x.checked_rem(y))
}

/// The number with the other sign.
pub fn negated(x: i64) -> Result<Live, Stop>
    ensures { (last : List Value) (left : ℕ) →
        IsReached last result left (limited (Gives (in_range_of (neg_ℤ x)) left)) }
{
    in_range(x.checked_neg())
}

// 2^63
const BEYOND: u64 = 9_223_372_036_854_775_808;

/// The number that a text writes: an optional `-` and one or more digits.
pub fn converted(text: &[u8]) -> Option<i64>
    ensures { MatchOption result
        (converted_of (integer text.now) ≡ Fault Convert) (λ z. converted_of (integer text.now) ≡ Number z) }
{
    let Some((first, digits)) = text.split_first() else {
        return None;
    };
    if *first != b'-' {
        let n = natural(text)?;
        return if n < BEYOND { Some(n as i64) } else { None };
    }
    let n = natural(digits)?;
    if n < BEYOND {
        Some(-(n as i64))
    } else if n == BEYOND {
        Some(i64::MIN)
    } else {
        None
    }
}

// the number that one or more digits write; None where they write none, or one that is over 2^63
fn natural(digits: &[u8]) -> Option<u64>
    ensures { MatchOption result
        ((m : ℕ) → natural_of digits.now ≡ Some m → 2 ^ 63 < m) (λ n. natural_of digits.now ≡ Some n) }
{
    if digits.is_empty() {
        return None;
    }
    let mut n: u64 = 0;
    for d in digits {
        if *d < b'0' || *d > b'9' || n > BEYOND / 10 {
            return None;
        }
        n = n * 10 + (*d - b'0') as u64;
    }
    Some(n)
}
