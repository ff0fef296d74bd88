// What the transformations of a name give, in all outermost places at which they apply.
ghost use Rattle.std.specs.Prelude.{◌≡◌, ◌≤◌, ◌<◌, ◌+◌, ℕ, false, slice_get, take, IfOk, MatchResult, Some};
ghost use Rattle.sg_kinds.specs.Fits.{Fits};
ghost use Rattle.sg_kinds.specs.Sound.{IsSmall};
ghost use Rattle.sg_kinds.specs.Terms.{Term as IsTerm};
ghost use Rattle.sg_kinds.specs.Values.{Bytes};
ghost use Rattle.sg_forest.specs.Trees.{IsLive};
ghost use Rattle.sg_groves.specs.Grove.{nodes};
ghost use Rattle.sg_groves.specs.Holds.{Holds};
ghost use Rattle.sg_terms.specs.Found.{op_at};
ghost use Rattle.sg_matching.specs.Transformation.{numbers_of};
ghost use Rattle.sg_select.specs.Around.{kids};
ghost use Rattle.sg_search.specs.Found.{applies_to};
ghost use Rattle.sg_search.specs.Made.{AreMade, IsCounted, IsMade, IsStop};
ghost use Rattle.sg_search.specs.ReplacedAll.{Makes, replaced_all};
ghost use Rattle.sg_search.specs.Why.{IsWhy};
ghost use Rattle.sg_search.specs.declared.replaced.SearchFault.TheVariants.{NoMemory as SearchNoMemory, Size};

use crate::places::{applies, is_known, kid_count};
use sg_build::{copy_out, counts};
use sg_eval::Evaluator;
use sg_forest::NodeId;
use sg_kinds::ids::{OpId, PatternId};
use sg_kinds::limits::{DEPTH, NODES};
use sg_kinds::marks::FaultKind;
use sg_kinds::memory::NoMemory;
use sg_kinds::term::{Term, TermNode};
use sg_matching::{TransformFault, numbers_of, transformed};
use sg_terms::Terms;
use std::alloc::Global;

/// Why a term has no replacement everywhere.
#[derive(Clone, Copy, PartialEq, Eq)]
pub enum SearchFault {
    /// no phylum has a transformation of the name
    Unknown,
    /// none applies in the term
    NoMatch,
    /// the result of the first outermost place that has a fault as its result
    Outcome(FaultKind),
    /// the new term would have more than 65,536 nodes or be deeper than 1,024
    Size,
    NoMemory,
}

impl From<NoMemory> for SearchFault {
    ghost from_gives = { λ _ e. e ≡ SearchNoMemory };

    fn from(_: NoMemory) -> SearchFault {
        SearchFault::NoMemory
    }
}

// what became of a term
#[derive(Drop)]
enum Walked {
    // nothing applies in it
    Same,
    New(Term),
    // the results have too many nodes: they are not kept
    Over,
}

// what became of the first children of a node
#[derive(Drop)]
enum WalkedRow {
    Same,
    New(Vec<Term>),
    Over,
}

/// The term under a node with what the transformations of a name give in all outermost places at which they apply. The
/// other nodes keep their schemes and marks. It fits the phyla that the term fits. Once the results have more than 65,536
/// nodes none is kept, and the others are only looked at for a fault.
pub fn all(
    alloc: Global,
    terms: &Terms,
    ev: &Evaluator,
    at: NodeId,
    name: &[u8],
) -> Result<Term, SearchFault>
    requires same { ev.now ≡ terms.now.spec }
    requires live { IsLive (nodes terms.now) at }
    ensures given { (x : IsTerm) → Holds terms.now at x → MatchResult result
        (λ s. replaced_all terms.now.spec name.now x ≡ Makes s) (IsWhy terms.now.spec name.now x) }
    ensures fits { (p : ℕ) (x : IsTerm) → Holds terms.now at x → Fits terms.now.spec x p
        → IfOk result (λ s. Fits terms.now.spec s p) }
    ensures small { IfOk result IsSmall }
{
    terms.facts();
    if !is_known(terms.spec(), name) {
        return Err(SearchFault::Unknown);
    }
    let numbers = numbers_of(alloc, terms, name)?;
    let mut left = NODES;
    match made(alloc, terms, ev, name, &numbers, at, &mut left)? {
        Walked::Same => Err(SearchFault::NoMatch),
        Walked::New(term) => within(term),
        Walked::Over => Err(SearchFault::Size),
    }
}

// a term that is in the limits
fn within(term: Term) -> Result<Term, SearchFault>
    ensures { MatchResult result (λ s. (s ≡ term) × IsSmall s) (λ e. (e ≡ Size) × (IsSmall term → ⊥)) }
{
    let whole = counts(&term);
    if whole.nodes > NODES || whole.depth > DEPTH {
        return Err(SearchFault::Size);
    }
    Ok(term)
}

// a result, unless it has more nodes than are left
fn counted(term: Term, left: &mut usize) -> Walked
    requires { left.old < usize.MAX }
    ensures made { IsCounted term left.old left.new result }
    ensures fewer { left.new ≤ left.old }
{
    let nodes = counts(&term).nodes;
    if nodes > *left {
        *left = 0;
        return Walked::Over;
    }
    *left -= nodes;
    Walked::New(term)
}

// what becomes of the term under a node, where so many nodes are left for results
#[cycle(made)]
fn made(
    alloc: Global,
    terms: &Terms,
    ev: &Evaluator,
    name: &[u8],
    numbers: &[PatternId],
    n: NodeId,
    left: &mut usize,
) -> Result<Walked, SearchFault>
    requires same { ev.now ≡ terms.now.spec }
    requires named { numbers.now ≡ numbers_of terms.now.spec name.now }
    requires live { IsLive (nodes terms.now) n }
    requires left { left.old < usize.MAX }
    ensures made { (x : IsTerm) → Holds terms.now n x → MatchResult result
        (IsMade terms.now.spec name.now x left.old left.new) (IsStop terms.now.spec name.now x) }
    ensures fewer { left.new ≤ left.old }
{
    terms.facts();
    if !applies(terms, numbers, n) {
        return below(alloc, terms, ev, name, numbers, n, left);
    }
    match transformed(alloc, terms, ev, name, n) {
        Ok(term) => Ok(counted(term, left)),
        Err(TransformFault::Outcome(why)) => Err(SearchFault::Outcome(why)),
        Err(TransformFault::NoMemory) => Err(SearchFault::NoMemory),
        // none applies
        Err(TransformFault::Unknown) => Ok(Walked::Same),
        Err(TransformFault::NoMatch) => Ok(Walked::Same),
    }
}

// the same of a node at which none applies
#[cycle(made)]
fn below(
    alloc: Global,
    terms: &Terms,
    ev: &Evaluator,
    name: &[u8],
    numbers: &[PatternId],
    n: NodeId,
    left: &mut usize,
) -> Result<Walked, SearchFault>
    requires same { ev.now ≡ terms.now.spec }
    requires named { numbers.now ≡ numbers_of terms.now.spec name.now }
    requires live { IsLive (nodes terms.now) n }
    requires left { left.old < usize.MAX }
    ensures made { (x : IsTerm) → Holds terms.now n x → applies_to terms.now.spec name.now x ≡ false → MatchResult result
        (IsMade terms.now.spec name.now x left.old left.new) (IsStop terms.now.spec name.now x) }
    ensures fewer { left.new ≤ left.old }
{
    terms.facts();
    let Some(op) = terms.op(n) else {
        return Ok(Walked::Same);
    };
    let count = kid_count(terms, op);
    let mut row = WalkedRow::Same;
    for k in 0..count {
        let kid = terms.kid(n, k);
        let new = made(alloc, terms, ev, name, numbers, kid, left)?;
        row = joined(alloc, terms, n, k, row, new)?;
    }
    Ok(over(terms, n, op, row))
}

// what became of the first children, and of the next
fn joined(
    alloc: Global,
    terms: &Terms,
    n: NodeId,
    k: usize,
    row: WalkedRow,
    new: Walked,
) -> Result<WalkedRow, NoMemory>
    requires live { IsLive (nodes terms.now) n }
    requires place { (x : _) → nodes terms.now n ≡ Some x → k < x.label.arity }
    ensures { (name : Bytes) (x y : IsTerm) (old mid now : ℕ) → Holds terms.now n x → slice_get (kids x) k ≡ Some y
        → AreMade terms.now.spec name (take k (kids x)) old mid row → IsMade terms.now.spec name y mid now new
        → IfOk result (AreMade terms.now.spec name (take (k + 1) (kids x)) old now) }
{
    terms.facts();
    match row {
        WalkedRow::Same => match new {
            Walked::Same => Ok(WalkedRow::Same),
            Walked::New(term) => {
                let mut all = first_kids(alloc, terms, n, k)?;
                all.push(term)?;
                Ok(WalkedRow::New(all))
            }
            Walked::Over => Ok(WalkedRow::Over),
        },
        WalkedRow::New(mut all) => match new {
            Walked::Same => {
                all.push(copy_out(alloc, terms, terms.kid(n, k))?)?;
                Ok(WalkedRow::New(all))
            }
            Walked::New(term) => {
                all.push(term)?;
                Ok(WalkedRow::New(all))
            }
            Walked::Over => Ok(WalkedRow::Over),
        },
        WalkedRow::Over => Ok(WalkedRow::Over),
    }
}

// the terms under the first children of a node
fn first_kids(alloc: Global, terms: &Terms, n: NodeId, count: usize) -> Result<Vec<Term>, NoMemory>
    requires live { IsLive (nodes terms.now) n }
    requires few { (x : _) → nodes terms.now n ≡ Some x → count ≤ x.label.arity }
    ensures { (x : IsTerm) → Holds terms.now n x → IfOk result (λ v. v.items ≡ take count (kids x)) }
{
    terms.facts();
    let mut all = Vec::new(alloc);
    for k in 0..count {
        all.push(copy_out(alloc, terms, terms.kid(n, k))?)?;
    }
    Ok(all)
}

// a node over what became of its children
fn over(terms: &Terms, n: NodeId, op: OpId, row: WalkedRow) -> Walked
    requires live { IsLive (nodes terms.now) n }
    requires op { op_at terms.now n ≡ Some op }
    ensures { (name : Bytes) (x : IsTerm) (old now : ℕ) → Holds terms.now n x
        → applies_to terms.now.spec name x ≡ false → AreMade terms.now.spec name (kids x) old now row
        → IsMade terms.now.spec name x old now result }
{
    terms.facts();
    match row {
        WalkedRow::Same => Walked::Same,
        WalkedRow::New(all) => Walked::New(Term {
            node: TermNode::Node(op, terms.scheme(n), terms.elided(n), all),
        }),
        WalkedRow::Over => Walked::Over,
    }
}
