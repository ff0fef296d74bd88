//! The parser over tables.
ghost use Rattle.std.specs.Prelude.{◌≡◌, ◌<◌, IfOk, IfErr, MatchResult, length};
ghost use Rattle.sg_prec.specs.WellGrouped.{derives};
ghost use Rattle.sg_kinds.specs.Sound.{IsSound};
ghost use Rattle.sg_kinds.specs.Values.{Value as IsValue};
ghost use Rattle.sg_grammar.specs.Numbered.{grammar_of};
ghost use Rattle.sg_input.specs.Pieces.{pieces_of, AreTokens};
ghost use Rattle.sg_input.specs.Entered.{nonterminal_of, IsFault};
ghost use Rattle.sg_input.specs.Parsed.{IsInputFault, LeavesOnly, MadeFault};
ghost use Rattle.sg_input.specs.Ready.{IsReady};
ghost use Rattle.sg_input.specs.Stepping.{IsAnswer};
ghost use Rattle.sg_input.specs.declared.parsing.InputFault.TheVariants as fault;

use crate::stacks::{Reading, Stacks, Step};
use sg_eval::Evaluator;
use sg_kinds::marks::FaultKind;
use sg_kinds::value::{Value, ValueNode};
use sg_lalr::Tables;
use sg_patterns::InToken;
use std::alloc::{AllocError, Global};

/// How many steps a parse takes at most. A derivation of more nodes is taken as past all memory.
const MOST_STEPS: u64 = 1 << 40;

/// Why tokens have no value.
#[derive(Clone, Copy, PartialEq, Eq)]
pub enum InputFault {
    /// The first token that cannot stand where it is, or the number of tokens where they end too early.
    At(usize),
    /// The value is this fault.
    Outcome(FaultKind),
    /// Memory was wanting, or 2^40 steps did not come to an end.
    NoMemory,
}

impl From<AllocError> for InputFault {
    ghost from_gives = { λ _ e. e ≡ fault.NoMemory };

    fn from(_: AllocError) -> InputFault {
        InputFault::NoMemory
    }
}

/// The value, or the fault that it is.
fn settled(value: Value) -> Result<Value, InputFault>
    ensures ok { IfOk result (λ v. (v ≡ value) × (IsFault value → ⊥)) }
    ensures err { IfErr result (MadeFault value) }
{
    match value.node {
        ValueNode::Fault(kind) => Err(InputFault::Outcome(kind)),
        _ => Ok(value),
    }
}

/// The value of the one result, or the fault that it is.
fn answer(reading: &Reading, stacks: &Stacks) -> Result<Value, InputFault>
    requires { IsAnswer reading.now stacks.now.results.items stacks.now.pool }
    ensures ok { IfOk result (λ v. derives reading.now.evaluator.now
        (nonterminal_of reading.now.evaluator.now reading.now.entry)
        (pieces_of reading.now.evaluator.now reading.now.text.now reading.now.tokens.now) v × (IsFault v → ⊥)) }
    ensures err { IfErr result (IsInputFault reading.now.evaluator.now
        (nonterminal_of reading.now.evaluator.now reading.now.entry)
        (pieces_of reading.now.evaluator.now reading.now.text.now reading.now.tokens.now)) }
{
    settled(stacks.value(reading.alloc)?)
}

/// As `parse`.
fn parsed(reading: &Reading) -> Result<Value, InputFault>
    requires { IsReady reading.now }
    ensures ok { IfOk result (λ v. derives reading.now.evaluator.now
        (nonterminal_of reading.now.evaluator.now reading.now.entry)
        (pieces_of reading.now.evaluator.now reading.now.text.now reading.now.tokens.now) v × (IsFault v → ⊥)) }
    ensures err { IfErr result (IsInputFault reading.now.evaluator.now
        (nonterminal_of reading.now.evaluator.now reading.now.entry)
        (pieces_of reading.now.evaluator.now reading.now.text.now reading.now.tokens.now)) }
{
    let mut stacks = Stacks::new(reading)?;
    let mut at = 0;
    'steps: for _ in 0..MOST_STEPS {
        match stacks.step(reading, at)? {
            Step::On(next) => at = next,
            Step::Accepted => return answer(reading, &stacks),
            Step::Stopped => return Err(InputFault::At(at)),
        }
    }
    Err(InputFault::NoMemory)
}

/// The value that the nonterminal of an entry derives, grouped as precedence lines say, from the tokens of a text.
/// `entry` is a place among the entries of the specification. The answers exclude each other: the value comes exactly
/// where the tokens are a sentence and its result is no fault, `Outcome` exactly where it is that fault, and `At`
/// exactly where the tokens fail there, whatever faults came before.
///
/// It is linear in the tokens and the productions of the derivation, with the steps between their levels. No value is
/// copied but the answer, and equal values are kept once.
pub fn parse(
    alloc: Global,
    t: &Tables,
    ev: &Evaluator,
    entry: u32,
    text: &[u8],
    tokens: &[InToken],
) -> Result<Value, InputFault>
    requires grammar { t.now.grammar ≡ grammar_of ev.now }
    requires sound { IsSound ev.now }
    requires entry { entry < length ev.now.entries }
    requires tokens { AreTokens ev.now text.now tokens.now }
    ensures ok { IfOk result (λ v. derives ev.now
        (nonterminal_of ev.now entry) (pieces_of ev.now text.now tokens.now) v × (IsFault v → ⊥)) }
    ensures err { IfErr result
        (IsInputFault ev.now (nonterminal_of ev.now entry) (pieces_of ev.now text.now tokens.now)) }
    ensures only { (w : IsValue) →
        derives ev.now (nonterminal_of ev.now entry) (pieces_of ev.now text.now tokens.now) w →
        MatchResult result (λ v. v ≡ w) (LeavesOnly w) }
{
    t.sound();
    t.decided();
    parsed(&Reading {
        alloc,
        tables: t,
        evaluator: ev,
        entry,
        text,
        tokens,
    })
}
