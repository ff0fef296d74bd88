//! The pool numbers of made terms.
ghost use Rattle.std.specs.Prelude.{◌≡◌, List, [], Some, None, length, replicate, slice_get, slice_set, option_and_then, IfOk};
ghost use Rattle.sg_kinds.specs.Values.{Value};
ghost use Rattle.sg_kinds.specs.declared.marks.Made.{Made};
ghost use Rattle.sg_eval.specs.MadeTerms.{kept_of, kept_at, with_kept, AreMade};

use crate::live::Live;
use sg_kinds::ids::{PhylumId, ValueId};
use sg_kinds::marks::Made;
use sg_kinds::memory::NoMemory;
use sg_kinds::spec::Spec;
use std::alloc::Global;
use std::marker::Model;

/// The numbers that the values of completing terms and of placeholders have in a pool, by phylum. Each is kept from its
/// first use on. Contracts see the two lists. Beside them stand the rows of calls that have ended, for later calls.
#[derive(Drop)]
pub struct MadeTerms {
    completing: Vec<Option<ValueId>>,
    placeholders: Vec<Option<ValueId>>,
    rows: Vec<Vec<Live>>,
}

impl Model for MadeTerms {
    ghost use Rattle.std.specs.Prelude.{ℕ, List, Option};

    ghost Value = { List (Option ℕ) × List (Option ℕ) };

    ghost view = { λ m. (m.completing.items, m.placeholders.items) };
}

impl MadeTerms {
    /// No number is kept yet, so it is right for any pool.
    pub fn new(alloc: Global, spec: &Spec) -> Result<MadeTerms, NoMemory>
        ensures nothing { IfOk result
            (λ m. (kind : Made) → kept_of m kind ≡ replicate (length spec.now.phyla) None) }
        ensures made { IfOk result (λ m. (pool : List Value) → AreMade spec.now m pool) }
    {
        let count = spec.phyla.len();
        Ok(MadeTerms {
            completing: nothing(alloc, count)?,
            placeholders: nothing(alloc, count)?,
            rows: Vec::new(alloc),
        })
    }

    // the number that is kept for a phylum
    pub(crate) fn number(&self, kind: Made, p: PhylumId) -> Option<ValueId>
        ensures { result ≡ kept_at self.now kind p }
    {
        match kind {
            Made::Completing => number_in(&self.completing, p),
            Made::Placeholder => number_in(&self.placeholders, p),
        }
    }

    // keeps a number for a phylum
    pub(crate) fn keep(&mut self, kind: Made, p: PhylumId, id: ValueId)
        ensures { self.new ≡ with_kept self.old kind p id }
    {
        match kind {
            Made::Completing => keep_in(&mut self.completing, p, id),
            Made::Placeholder => keep_in(&mut self.placeholders, p, id),
        }
    }

    // an empty row: that of a call that has ended, else a new one
    #[inline(always)]
    pub(crate) fn take_row(&mut self, alloc: Global) -> Vec<Live>
        ensures empty { result.items ≡ [] }
        ensures same { self.new ≡ self.old }
    {
        let Some(mut row) = self.rows.pop() else {
            return Vec::new(alloc);
        };
        row.clear();
        row
    }

    // keeps the row of a call that has ended, where there is memory for it
    #[inline(always)]
    pub(crate) fn leave_row(&mut self, row: Vec<Live>)
        ensures { self.new ≡ self.old }
    {
        let _ = self.rows.push(row);
    }
}

// a place for each of so many phyla
fn nothing(alloc: Global, count: usize) -> Result<Vec<Option<ValueId>>, NoMemory>
    ensures { IfOk result (λ v. v.items ≡ replicate count None) }
{
    Ok(vec![in alloc; None; count]?)
}

// what stands at the phylum's place
fn number_in(numbers: &[Option<ValueId>], p: PhylumId) -> Option<ValueId>
    ensures { result ≡ option_and_then (λ o. o) (slice_get numbers.now p) }
{
    numbers.get(p.number as usize).copied().flatten()
}

// writes to the phylum's place, where there is one
fn keep_in(numbers: &mut [Option<ValueId>], p: PhylumId, id: ValueId)
    ensures { numbers.new ≡ slice_set numbers.old p (Some id) }
{
    let place = p.number as usize;
    if place < numbers.len() {
        numbers[place] = Some(id);
    }
}
