// Operators on texts.
ghost use Rattle.std.specs.Prelude.{◌≡◌, ℕ, List, length, MatchOption, IsTrue, false};
ghost use Rattle.std.specs.Fmt.{signed_decimal};
ghost use Rattle.sg_kinds.specs.Values.{Value, Chars, Number};
ghost use Rattle.sg_pool.specs.Pools.{value_at, IsGrown};
ghost use Rattle.sg_kinds.specs.Evaluation.{Gives, limited, applied, combined};
ghost use Rattle.sg_kinds.specs.declared.marks.Unary.TheVariants.{TextToNumber, TextLength};
ghost use Rattle.sg_kinds.specs.declared.marks.Sign.TheVariants.{Join};
ghost use Rattle.sg_eval.specs.Lives.{IsReached, is_settled, is_chars};

use crate::live::{Live, Stop};
use crate::numbers::converted;
use sg_kinds::ids::ValueId;
use sg_kinds::limits::VALUE_SIZE;
use sg_kinds::marks::FaultKind;
use sg_kinds::text::Text;
use sg_pool::entry::PoolEntry;
use sg_pool::pool::Pool;
use std::alloc::Global;

/// The text of these bytes.
pub fn text(bytes: Vec<u8>, pool: &mut Pool) -> Result<Live, Stop>
    ensures value { (last : List Value) (left : ℕ) → IsGrown pool.new last →
        IsReached last result left (limited (Gives (Chars bytes.items) left)) }
    ensures grown { IsGrown pool.old pool.new }
{
    if bytes.len() >= VALUE_SIZE as usize {
        return Err(Stop::Fault(FaultKind::Size));
    }
    let id = pool.put_text(Text::new(bytes))?;
    Ok(Live::Kept(id.number))
}

// the text of a number; None where it has another value
fn text_at(number: usize, pool: &Pool) -> Option<&Text>
    requires { IsTrue (is_settled (value_at pool.now number)) }
    ensures { MatchOption result
        (is_chars (value_at pool.now number) ≡ false) (λ s. value_at pool.now number ≡ Chars s.now) }
{
    match pool.entry(ValueId { number }) {
        PoolEntry::Text(text) => Some(text),
        _ => None,
    }
}

/// Two texts, one behind the other.
pub fn joined(alloc: Global, x: usize, y: usize, pool: &mut Pool) -> Result<Live, Stop>
    requires x { IsTrue (is_settled (value_at pool.old x)) }
    requires y { IsTrue (is_settled (value_at pool.old y)) }
    ensures value { (last : List Value) (left : ℕ) → IsGrown pool.new last →
        IsReached last result left (limited (Gives (combined Join (value_at pool.old x) (value_at pool.old y)) left)) }
    ensures grown { IsGrown pool.old pool.new }
{
    let (Some(front), Some(back)) = (text_at(x, pool), text_at(y, pool)) else {
        return Err(Stop::Fault(FaultKind::NoMatch));
    };
    let mut bytes = Vec::with_capacity(alloc, front.len())?;
    bytes.extend_from_slice(front.as_slice())?;
    bytes.extend_from_slice(back.as_slice())?;
    text(bytes, pool)
}

/// The number that a text writes.
pub fn number(number: usize, pool: &Pool) -> Result<Live, Stop>
    requires { IsTrue (is_settled (value_at pool.now number)) }
    ensures { (last : List Value) (left : ℕ) →
        IsReached last result left (limited (Gives (applied TextToNumber (value_at pool.now number)) left)) }
{
    let Some(text) = text_at(number, pool) else {
        return Err(Stop::Fault(FaultKind::NoMatch));
    };
    match converted(text.as_slice()) {
        Some(n) => Ok(Live::Number(n)),
        None => Err(Stop::Fault(FaultKind::Convert)),
    }
}

/// The digits of a number, behind `-` where it is negative.
pub fn digits(alloc: Global, n: i64, pool: &mut Pool) -> Result<Live, Stop>
    ensures value { (last : List Value) (left : ℕ) → IsGrown pool.new last →
        IsReached last result left (limited (Gives (Chars (signed_decimal n)) left)) }
    ensures grown { IsGrown pool.old pool.new }
{
    let digits = n.to_string(alloc)?;
    let bytes = Vec::from_slice(alloc, digits.as_bytes())?;
    text(bytes, pool)
}

/// How many bytes a text has.
pub fn length(number: usize, pool: &Pool) -> Result<Live, Stop>
    requires { IsTrue (is_settled (value_at pool.now number)) }
    ensures { (last : List Value) (left : ℕ) →
        IsReached last result left (limited (Gives (applied TextLength (value_at pool.now number)) left)) }
{
    let Some(text) = text_at(number, pool) else {
        return Err(Stop::Fault(FaultKind::NoMatch));
    };
    Ok(Live::Number(text.len() as i64))
}
