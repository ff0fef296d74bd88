//! The first phylum whose made terms are not finite and small.
ghost use Rattle.std.specs.Prelude.{◌≡◌, IfOk};
ghost use Rattle.sg_shapes.specs.Counts.{deepened, no_counts};
ghost use Rattle.sg_shapes.specs.Unfinished.{unfinished};

use crate::counts::{both_fit, counts};
use sg_kinds::limits::DEPTH;
use sg_kinds::memory::NoMemory;
use sg_names::table::Table;
use std::alloc::Global;

/// The greatest depth of the terms below a made term.
const DEPTH_BELOW: u32 = DEPTH as u32 - 1;

/// The place of the first phylum that is not finished, by the counts of completing terms.
fn first(table: &Table, counts: &[Option<u32>]) -> Option<usize>
    requires { counts.now ≡ deepened table.now.phyla table.now.ops DEPTH_BELOW (no_counts table.now.phyla) }
    ensures { result ≡ unfinished table.now }
{
    let phyla = table.phyla.as_slice();
    let ops = table.ops.as_slice();
    for (place, phylum) in phyla.iter().enumerate() {
        if !both_fit(ops, counts, phylum) {
            return Some(place);
        }
    }
    None
}

/// The place of the first phylum of a table whose completing term or placeholder is not finite, or has more than 65,536
/// nodes, or is deeper than 1,024.
pub fn unfinished(alloc: Global, table: &Table) -> Result<Option<usize>, NoMemory>
    ensures { IfOk result (λ place. place ≡ unfinished table.now) }
{
    let phyla = table.phyla.as_slice();
    let counts = counts(alloc, phyla, table.ops.as_slice(), DEPTH_BELOW)?;
    Ok(first(table, &counts))
}
