// What is known of the symbols of a grammar.
ghost use Rattle.std.specs.Prelude.{◌≡◌, ◌<◌, ◌≤◌, ℕ, suc, min, length, slice_set, All, IfOk, IfSome, IfNone, OnOk, IsTrue};
ghost use Rattle.std.specs.Bool.{OnTrue, OnFalse};
ghost use Rattle.sg_grammar.specs.Grammar.{Grammar as GrammarOf};
ghost use Rattle.sg_samples.specs.Table.{AreKnown, Has, IsExpanded, IsKnown, IsMost, IsSettled, IsTable, Puts, sample_at, size_at as size_of_symbol, total};

use sg_grammar::{Grammar, Production};
use sg_kinds::memory::NoMemory;
use sg_kinds::row::Row;
use std::alloc::Global;

/// The most symbols of a sample, where the string of which it is one has no more.
pub const MOST: usize = 200;

/// What is known of a symbol.
#[derive(Drop)]
pub(crate) enum Sample {
    /// nothing that it derives
    Unknown,
    /// it derives some tokens, but too many
    Long,
    /// the terminals of tokens that it derives
    Short(Row<u32>),
}

/// How many terminals a symbol's sample has.
pub(crate) fn size_at(samples: &[Sample], x: u32) -> Option<usize>
    ensures some { IfSome result (λ n. Has samples.now x × (n ≡ size_of_symbol samples.now x)) }
    ensures none { IfNone result (sample_at samples.now x ≡ Sample.Unknown) }
{
    match samples.get(x as usize) {
        Some(Sample::Short(string)) => Some(string.len()),
        Some(Sample::Long) => Some(MOST + 1),
        Some(Sample::Unknown) | None => None,
    }
}

/// Whether a symbol has a sample.
pub(crate) fn has_sample(samples: &[Sample], x: u32) -> bool
    ensures has { OnTrue result (Has samples.now x) }
    ensures none { OnFalse result (sample_at samples.now x ≡ Sample.Unknown) }
{
    size_at(samples, x).is_some()
}

/// How many terminals the samples of a string have together, counted up to one more than `MOST`.
pub(crate) fn size_of(samples: &[Sample], string: &[u32]) -> Option<usize>
    ensures some { IfSome result (λ n. All (Has samples.now) string.now
        × (n ≡ min (suc MOST) (total samples.now string.now))) }
    ensures none { IfNone result (All (Has samples.now) string.now → ⊥) }
{
    let mut total = 0usize;
    for x in string {
        total = total.saturating_add(size_at(samples, *x)?).min(MOST + 1);
    }
    Some(total)
}

/// How many symbols more than it has a string may take: as many as a sample has at most, where that of the whole string
/// is no longer; else so many that it stays as short.
pub(crate) fn most_for(samples: &[Sample], string: &[u32]) -> usize
    ensures most { IsMost samples.now string.now result }
    ensures few { result ≤ MOST }
{
    match size_of(samples, string) {
        Some(size) if size <= MOST => MOST,
        _ => MOST.saturating_sub(string.len()),
    }
}

/// Puts the sample of a symbol behind others, or the symbol where there is none that fits, and returns how many are
/// left of those to spare.
fn put(samples: &[Sample], x: u32, out: &mut Vec<u32>, spare: usize) -> Result<usize, NoMemory>
    requires { spare ≤ MOST }
    ensures { IfOk result (λ left. Puts samples.now x out.old.items spare out.new.items left) }
{
    match samples.get(x as usize) {
        Some(Sample::Short(string)) if string.len() <= spare + 1 => {
            out.extend_from_slice(string.as_slice())?;
            Ok(spare + 1 - string.len().max(1))
        }
        _ => {
            out.push(x)?;
            Ok(spare)
        }
    }
}

/// What a string becomes with its samples, where so many symbols more than it has may be taken.
pub(crate) fn expanded(
    alloc: Global,
    samples: &[Sample],
    string: &[u32],
    most: usize,
) -> Result<Vec<u32>, NoMemory>
    requires { most ≤ MOST }
    ensures { IfOk result (λ v. (g : GrammarOf) → AreKnown g samples.now
        → (left : ℕ) × IsExpanded g samples.now most string.now v.items left) }
{
    let mut spare = most;
    let mut out = Vec::with_capacity(alloc, string.len())?;
    for x in string {
        spare = put(samples, *x, &mut out, spare)?;
    }
    Ok(out)
}

/// What is known of a string by what is known of its symbols.
fn made_of(alloc: Global, samples: &[Sample], string: &[u32]) -> Result<Sample, NoMemory>
    ensures { IfOk result (λ s. (g : GrammarOf) → AreKnown g samples.now → IsKnown g string.now s) }
{
    match size_of(samples, string) {
        Some(size) if size <= MOST => {
            let terminals = expanded(alloc, samples, string, MOST)?;
            Ok(Sample::Short(Row::new(terminals)))
        }
        Some(_) => Ok(Sample::Long),
        None => Ok(Sample::Unknown),
    }
}

/// Whether the left side of a production has no longer sample than its right side has.
fn is_settled(samples: &[Sample], rule: &Production) -> bool
    ensures { IsTrue result → IsSettled samples.now rule.now }
{
    match (
        size_of(samples, rule.right.as_slice()),
        size_at(samples, rule.left),
    ) {
        (Some(size), Some(known)) => known <= size,
        (Some(_), None) => false,
        (None, _) => true,
    }
}

/// Whether each production is settled.
fn are_settled(samples: &[Sample], rules: &[Production]) -> bool
    ensures { IsTrue result → All (IsSettled samples.now) rules.now }
{
    rules.iter().all(|rule| is_settled(samples, rule))
}

/// The samples of the terminals.
fn first_samples(alloc: Global, g: &Grammar) -> Result<Vec<Sample>, NoMemory>
    ensures { IfOk result (λ v. AreKnown g.now v.items) }
{
    g.sound();
    let mut samples = Vec::new(alloc);
    for x in 0..g.symbols() {
        let sample = if x < g.terminals() {
            Sample::Short(Row::new(Vec::from_slice(alloc, &[x])?))
        } else {
            Sample::Unknown
        };
        samples.push(sample)?;
    }
    Ok(samples)
}

/// Gives a symbol another sample.
fn put_at(samples: &mut Vec<Sample>, x: u32, sample: Sample)
    requires { x < length samples.old.items }
    ensures { samples.new.items ≡ slice_set samples.old.items x sample }
{
    samples[x as usize] = sample;
}

/// Gives left sides the samples of their right sides where these are shorter, and returns whether some were.
fn improve(alloc: Global, g: &Grammar, samples: &mut Vec<Sample>) -> Result<bool, NoMemory>
    requires { AreKnown g.now samples.old.items }
    ensures { OnOk result (AreKnown g.now samples.new.items) }
{
    g.sound();
    let mut improved = false;
    for rule in g.rules() {
        if !is_settled(samples, rule) {
            let sample = made_of(alloc, samples, rule.right.as_slice())?;
            put_at(samples, rule.left, sample);
            improved = true;
        }
    }
    Ok(improved)
}

/// The table of a grammar. A round settles what derives its sample in one step more, so there are no more rounds than
/// productions.
pub(crate) fn table(alloc: Global, g: &Grammar) -> Result<Vec<Sample>, NoMemory>
    ensures { IfOk result (λ v. IsTable g.now v.items) }
{
    let mut samples = first_samples(alloc, g)?;
    'rounds: for _ in g.rules() {
        if !improve(alloc, g, &mut samples)? {
            break;
        }
    }
    if are_settled(&samples, g.rules()) {
        Ok(samples)
    } else {
        Err(NoMemory)
    }
}
