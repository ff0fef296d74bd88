// The pool of shared values.
ghost use Rattle.std.specs.Prelude.{◌≡◌, ℕ, ◌<◌, ◌↔◌, [], length, map, All, IsTrue, IsErrOf, MatchOption, IfOk, OnOk, OnErr, true, false, Some};
ghost use Rattle.sg_kinds.specs.Values.{row_of, Truth, Number, Chars, Tree, Fault, size_of, depth_of, is_within as is_within_limits};
ghost use Rattle.sg_pool.specs.Pools.{value_at, StandsFor, tree_over, with_value, interned, interned_all, is_kept, IsGrown, AreDifferent};
ghost use Rattle.sg_pool.specs.PoolEntries.{entry_value, kid_numbers};
ghost use Rattle.sg_pool.specs.PoolView.{AreBelow, measured as measured_of, measure_of};
ghost use Rattle.sg_pool.specs.declared.pool.PoolFault.TheVariants.{NoMemory as PoolNoMemory};

use crate::entry::PoolEntry;
use indexmap::IndexSet;
use sg_kinds::ids::{OpId, ValueId};
use sg_kinds::limits::{VALUE_DEPTH, VALUE_SIZE};
use sg_kinds::marks::FaultKind;
use sg_kinds::memory::NoMemory;
use sg_kinds::row::{Row, item};
use sg_kinds::text::Text;
use sg_kinds::value::{Kids, Value, ValueNode};
use std::alloc::Global;
use std::marker::Model;

/// Why a pool has no number for a tree.
#[derive(Clone, Copy, Debug, PartialEq, Eq)]
pub enum PoolFault {
    /// the tree is over a limit of values
    Size,
    NoMemory,
}

impl From<NoMemory> for PoolFault {
    ghost from_gives = { λ _ e. e ≡ PoolNoMemory };

    fn from(_: NoMemory) -> PoolFault {
        PoolFault::NoMemory
    }
}

// what is kept of a value: its size and its depth, and whether it is in the limits of values
#[derive(Clone, Copy)]
struct Measure {
    size: u64,
    depth: u32,
    within: bool,
}

// of a value that is no text and no tree
const LEAF: Measure = Measure {
    size: 1,
    depth: 1,
    within: true,
};

// of a value of this size and depth
fn measured(size: u64, depth: u32) -> Measure
    ensures { result ≡ measured_of size depth }
{
    Measure {
        size,
        depth,
        within: size <= VALUE_SIZE as u64 && depth <= VALUE_DEPTH,
    }
}

/// Values that are shared: a value has one number, and equal numbers are equal values. Contracts see the values in the
/// order of their numbers. A pool only grows, and each number keeps its value.
#[derive(Drop)]
pub struct Pool {
    alloc: Global,
    entries: IndexSet<PoolEntry>,
    measures: Vec<Measure>,
}

impl Model for Pool {
    ghost use Rattle.std.specs.Prelude.{List};
    ghost use Rattle.std.specs.Coded.{coded_list};
    ghost use Rattle.sg_kinds.specs.Values.{Value as IsValue};
    ghost use Rattle.sg_kinds.specs.ValueCode.{value_code};

    ghost Value = { List IsValue };

    ghost coded = { coded_list value_code };

    ghost use Rattle.sg_pool.specs.PoolView.{pooled_values, IsPooled};

    ghost view = { λ p. pooled_values p.entries.keys };

    ghost invariant = { λ p. IsPooled p.entries.keys p.measures.items };
}

impl Pool {
    /// An empty pool.
    pub fn new(alloc: Global) -> Result<Pool, NoMemory>
        ensures { IfOk result (λ p. p ≡ []) }
    {
        Ok(Pool {
            alloc,
            entries: IndexSet::new(alloc),
            measures: Vec::new(alloc),
        })
    }

    /// How many values there are.
    pub fn len(&self) -> usize
        ensures { result ≡ length self.now }
    {
        self.entries.len()
    }

    /// Two numbers are equal exactly where their values are equal. This does nothing and tells it.
    #[tactic(auto, using(crate::proofs::Pooled::place_is))]
    pub fn sound(&self)
        ensures different { AreDifferent self.now }
        ensures one_number { (a b : ℕ) → a < length self.now → b < length self.now
            → value_at self.now a ≡ value_at self.now b → a ≡ b }
    {
        let _ = &self.entries;
    }

    /// The entry of a number: what its value is, with the numbers of its children.
    #[tactic(auto, using(crate::proofs::Pooled::entries_length, crate::proofs::Pooled::entry_told, crate::proofs::Pooled::kids_told))]
    pub fn entry(&self, id: ValueId) -> &PoolEntry
        requires { id < length self.now }
        ensures value { StandsFor self.now id (entry_value self.now result.now) }
        ensures kids { All (λ k. k < id) (kid_numbers result.now) }
    {
        item(self.entries.as_slice(), id.number)
    }

    /// The size of a number's value.
    pub fn size(&self, id: ValueId) -> u64
        requires { id < length self.now }
        ensures { result ≡ size_of (value_at self.now id) }
    {
        self.measures.get(id.number).unwrap().size
    }

    /// The depth of a number's value.
    pub fn depth(&self, id: ValueId) -> u32
        requires { id < length self.now }
        ensures { result ≡ depth_of (value_at self.now id) }
    {
        self.measures.get(id.number).unwrap().depth
    }

    /// Whether a number's value is in the limits of values.
    pub fn is_within(&self, id: ValueId) -> bool
        requires { id < length self.now }
        ensures { result ≡ is_within_limits (value_at self.now id) }
    {
        self.measures.get(id.number).unwrap().within
    }

    /// The value of a number.
    #[cycle(value)]
    pub fn value(&self, alloc: Global, id: ValueId) -> Result<Value, NoMemory>
        requires { id < length self.now }
        ensures { IfOk result (λ v. StandsFor self.now id v) }
    {
        match self.entry(id) {
            PoolEntry::Bool(b) => Ok(Value::truth(*b)),
            PoolEntry::Int(n) => Ok(Value::number(*n)),
            PoolEntry::Text(text) => Ok(Value::text(text.copy(alloc)?)),
            PoolEntry::Tree(op, kids) => Ok(Value::tree(
                *op,
                self.values(alloc, kids.as_slice(), id)?,
            )),
            PoolEntry::Fault(kind) => Ok(Value::fault(*kind)),
        }
    }

    // the values of numbers below a number
    #[cycle(value)]
    fn values(&self, alloc: Global, ids: &[ValueId], below: ValueId) -> Result<Kids, NoMemory>
        requires within { below < length self.now }
        requires smaller { All (λ k. k < below) ids.now }
        ensures { IfOk result (λ v. v.items ≡ map (value_at self.now) ids.now) }
    {
        let mut values = Vec::with_capacity(alloc, ids.len())?;
        for id in ids {
            values.push(self.value(alloc, *id)?)?;
        }
        Ok(values)
    }

    /// A number whose value is v. What is not there is put last, children from left to right before the whole.
    #[cycle(put)]
    #[tactic(auto, using(crate::proofs::Grown::kids_kept, crate::proofs::Grown::grown_with, crate::proofs::Grown::grown_twice))]
    pub fn put(&mut self, v: &Value) -> Result<ValueId, NoMemory>
        requires { IsTrue (is_kept v.now) }
        ensures stands { IfOk result (λ id. StandsFor self.new id v.now) }
        ensures pool { OnOk result (self.new ≡ interned self.old v.now) }
        ensures grown { IsGrown self.old self.new }
    {
        match &v.node {
            ValueNode::Bool(b) => self.put_truth(*b),
            ValueNode::Int(n) => self.put_number(*n),
            ValueNode::Text(text) => {
                let text = text.copy(self.alloc)?;
                self.put_text(text)
            }
            ValueNode::Tree(op, kids) => {
                let (size, depth) = v.measure();
                let numbers = self.put_all(kids)?;
                self.enter(
                    PoolEntry::Tree(*op, Row::new(numbers)),
                    measured(size as u64, depth),
                )
            }
            ValueNode::Fault(kind) => self.put_fault(*kind),
        }
    }

    // the numbers of these values
    #[cycle(put)]
    #[tactic(auto, using(crate::proofs::Grown::numbers_push, crate::proofs::Grown::below_grown, crate::proofs::Grown::grown_twice))]
    fn put_all(&mut self, values: &[Value]) -> Result<Vec<ValueId>, NoMemory>
        requires { All (λ v. IsTrue (is_kept v)) values.now }
        ensures numbers { IfOk result (λ ids. map (value_at self.new) ids.items ≡ values.now) }
        ensures below { IfOk result (λ ids. AreBelow (length self.new) ids.items) }
        ensures pool { OnOk result (self.new ≡ interned_all self.old (row_of values.now)) }
        ensures grown { IsGrown self.old self.new }
    {
        let mut numbers = Vec::with_capacity(self.alloc, values.len())?;
        for value in values {
            numbers.push(self.put(value)?)?;
        }
        Ok(numbers)
    }

    /// The number of a truth value.
    pub fn put_truth(&mut self, b: bool) -> Result<ValueId, NoMemory>
        ensures stands { IfOk result (λ id. StandsFor self.new id (Truth b)) }
        ensures pool { OnOk result (self.new ≡ with_value self.old (Truth b)) }
        ensures grown { IsGrown self.old self.new }
    {
        self.enter(PoolEntry::Bool(b), LEAF)
    }

    /// The number of a number.
    pub fn put_number(&mut self, n: i64) -> Result<ValueId, NoMemory>
        ensures stands { IfOk result (λ id. StandsFor self.new id (Number n)) }
        ensures pool { OnOk result (self.new ≡ with_value self.old (Number n)) }
        ensures grown { IsGrown self.old self.new }
    {
        self.enter(PoolEntry::Int(n), LEAF)
    }

    /// The number of a text, whatever its length.
    pub fn put_text(&mut self, text: Text) -> Result<ValueId, NoMemory>
        ensures stands { IfOk result (λ id. StandsFor self.new id (Chars text)) }
        ensures pool { OnOk result (self.new ≡ with_value self.old (Chars text)) }
        ensures grown { IsGrown self.old self.new }
    {
        let size = text.as_slice().len() as u64 + 1;
        self.enter(PoolEntry::Text(text), measured(size, 1))
    }

    /// The number of a fault.
    pub fn put_fault(&mut self, kind: FaultKind) -> Result<ValueId, NoMemory>
        ensures stands { IfOk result (λ id. StandsFor self.new id (Fault kind)) }
        ensures pool { OnOk result (self.new ≡ with_value self.old (Fault kind)) }
        ensures grown { IsGrown self.old self.new }
    {
        self.enter(PoolEntry::Fault(kind), LEAF)
    }

    /// A number whose value is the tree of an operator over the values of these numbers; `Size` exactly where that
    /// tree is over a limit of values.
    #[tactic(auto, using(crate::proofs::Pooled::below_all))]
    pub fn node(&mut self, op: OpId, kids: Vec<ValueId>) -> Result<ValueId, PoolFault>
        requires { All (λ k. k < length self.old) kids.items }
        ensures stands { IfOk result (λ id. StandsFor self.new id (tree_over self.old op kids.items)) }
        ensures pool { OnOk result (self.new ≡ with_value self.old (tree_over self.old op kids.items)) }
        ensures size { IsErrOf result PoolFault.Size ↔ (is_within_limits (tree_over self.old op kids.items) ≡ false) }
        ensures err { OnErr result (self.new ≡ self.old) }
        ensures grown { IsGrown self.old self.new }
    {
        let Some(measure) = self.measure_over(&kids) else {
            return Err(PoolFault::Size);
        };
        let numbers = Row::new(kids);
        Ok(self.enter(PoolEntry::Tree(op, numbers), measure)?)
    }

    // the measure of a tree over the values of these numbers, none where it is over a limit
    fn measure_over(&self, kids: &[ValueId]) -> Option<Measure>
        requires { All (λ k. k < length self.now) kids.now }
        ensures { MatchOption result (is_within_limits (tree_over self.now 0 kids.now)
            ≡ false) (λ m. (m ≡ measure_of (tree_over self.now 0 kids.now))
            × (is_within_limits (tree_over self.now 0 kids.now) ≡ true)) }
    {
        let mut size: u64 = 1;
        let mut depth: u32 = 1;
        for kid in kids {
            let (kid_size, kid_depth) = (self.size(*kid), self.depth(*kid));
            if kid_size > VALUE_SIZE as u64 - size || kid_depth >= VALUE_DEPTH {
                return None;
            }
            size += kid_size;
            depth = depth.max(kid_depth + 1);
        }
        Some(measured(size, depth))
    }

    // the number of an entry, which is put last where it is not there
    #[tactic(auto, using(crate::proofs::Grown::grown_same, crate::proofs::Grown::grown_put))]
    fn enter(&mut self, entry: PoolEntry, measure: Measure) -> Result<ValueId, NoMemory>
        requires kids { AreBelow (length self.old) (kid_numbers entry) }
        requires measure { measure ≡ measure_of (entry_value self.old entry) }
        ensures stands { IfOk result (λ id. StandsFor self.new id (entry_value self.old entry)) }
        ensures pool { OnOk result (self.new ≡ with_value self.old (entry_value self.old entry)) }
        ensures err { OnErr result (self.new ≡ self.old) }
        ensures grown { IsGrown self.old self.new }
    {
        self.measures.reserve(1)?;
        let (number, added) = self.entries.insert_full(entry)?;
        if added {
            self.measures.push(measure).unwrap();
        }
        Ok(ValueId { number })
    }
}
