// Samples of strings, and the symbols that have none.
ghost use Rattle.std.specs.Prelude.{IfOk};
ghost use Rattle.sg_samples.specs.Samples.{AreBarren, IsSample};

use crate::table::{expanded, has_sample, most_for, table};
use sg_grammar::Grammar;
use sg_kinds::memory::NoMemory;
use std::alloc::Global;

/// Returns a string of symbols with shortest sentences in place of its nonterminals: of terminals alone where some such
/// string has at most `MOST`, else with those sentences that leave it at that or at its own length.
#[tactic(auto, using(crate::proofs::Steps::sampled))]
pub fn sample(alloc: Global, g: &Grammar, string: &[u32]) -> Result<Vec<u32>, NoMemory>
    ensures { IfOk result (λ v. IsSample g.now string.now v.items) }
{
    let samples = table(alloc, g)?;
    let most = most_for(&samples, string);
    expanded(alloc, &samples, string, most)
}

/// Returns all symbols that derive no tokens, in their order.
pub fn barren(alloc: Global, g: &Grammar) -> Result<Vec<u32>, NoMemory>
    ensures { IfOk result (λ v. AreBarren g.now v.items) }
{
    let samples = table(alloc, g)?;
    let mut barren = Vec::new(alloc);
    for x in 0..g.symbols() {
        if !has_sample(&samples, x) {
            barren.push(x)?;
        }
    }
    Ok(barren)
}
