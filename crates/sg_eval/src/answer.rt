// What an evaluation answers, in two registers.
ghost use Rattle.std.specs.Prelude.{◌≡◌, Err};
ghost use Rattle.sg_eval.specs.Answers.{given};
ghost use Rattle.sg_eval.specs.declared.live.Stop.TheVariants.{Fault as StopFault};

use crate::live::{Live, Stop};
use sg_kinds::marks::FaultKind;

/// What stands for a value, or why there is none: a kind and a word, where a `Result` of both is written to memory.
#[derive(Clone, Copy)]
pub enum Answer {
    False,
    True,
    Number(i64),
    Kept(usize),
    Fuel,
    Depth,
    Size,
    Divide,
    Overflow,
    NoMatch,
    Convert,
    NoMemory,
}

impl Answer {
    // the answer that a fault is
    #[inline(always)]
    fn fault(kind: FaultKind) -> Answer
        ensures { given result ≡ Err (StopFault kind) }
    {
        match kind {
            FaultKind::Fuel => Answer::Fuel,
            FaultKind::Depth => Answer::Depth,
            FaultKind::Size => Answer::Size,
            FaultKind::Divide => Answer::Divide,
            FaultKind::Overflow => Answer::Overflow,
            FaultKind::NoMatch => Answer::NoMatch,
            FaultKind::Convert => Answer::Convert,
        }
    }

    /// The answer that gives this.
    #[inline(always)]
    pub fn of(reached: Result<Live, Stop>) -> Answer
        ensures { given result ≡ reached }
    {
        match reached {
            Ok(Live::False) => Answer::False,
            Ok(Live::True) => Answer::True,
            Ok(Live::Number(n)) => Answer::Number(n),
            Ok(Live::Kept(number)) => Answer::Kept(number),
            Err(Stop::Fault(kind)) => Answer::fault(kind),
            Err(Stop::NoMemory) => Answer::NoMemory,
        }
    }

    /// What stands for the value, or why there is none.
    #[inline(always)]
    pub fn given(self) -> Result<Live, Stop>
        ensures { result ≡ given self }
    {
        match self {
            Answer::False => Ok(Live::False),
            Answer::True => Ok(Live::True),
            Answer::Number(n) => Ok(Live::Number(n)),
            Answer::Kept(number) => Ok(Live::Kept(number)),
            Answer::Fuel => Err(Stop::Fault(FaultKind::Fuel)),
            Answer::Depth => Err(Stop::Fault(FaultKind::Depth)),
            Answer::Size => Err(Stop::Fault(FaultKind::Size)),
            Answer::Divide => Err(Stop::Fault(FaultKind::Divide)),
            Answer::Overflow => Err(Stop::Fault(FaultKind::Overflow)),
            Answer::NoMatch => Err(Stop::Fault(FaultKind::NoMatch)),
            Answer::Convert => Err(Stop::Fault(FaultKind::Convert)),
            Answer::NoMemory => Err(Stop::NoMemory),
        }
    }
}
