// The entries of a pool.
ghost use Rattle.std.specs.Prelude.{◌≡◌};
ghost use Rattle.sg_kinds.specs.Values.{fault_number};
ghost use Rattle.sg_pool.specs.PoolEntries.{same_entry, entry_writes};
ghost use Rattle.sg_pool.specs.SameEntry.{entry_partial, entry_equal, entry_alike};

use sg_kinds::ids::{OpId, ValueId};
use sg_kinds::marks::FaultKind;
use sg_kinds::row::Row;
use sg_kinds::text::Text;
use std::hash::{Hash, Hasher};

/// An entry of a pool: a value that has no children, or an operator with the numbers of its children.
#[derive(Drop)]
pub enum PoolEntry {
    Bool(bool),
    Int(i64),
    Text(Text),
    Tree(OpId, Row<ValueId>),
    Fault(FaultKind),
}

// the place of a kind of fault in its declaration, counted from 0
fn place_of(kind: FaultKind) -> u8
    ensures { result ≡ fault_number kind }
{
    match kind {
        FaultKind::Fuel => 0,
        FaultKind::Depth => 1,
        FaultKind::Size => 2,
        FaultKind::Divide => 3,
        FaultKind::Overflow => 4,
        FaultKind::NoMatch => 5,
        FaultKind::Convert => 6,
    }
}

impl PartialEq for PoolEntry {
    ghost eq = { same_entry };

    ghost laws = { entry_partial };

    fn eq(&self, other: &PoolEntry) -> bool {
        match (self, other) {
            (PoolEntry::Bool(a), PoolEntry::Bool(b)) => *a == *b,
            (PoolEntry::Int(a), PoolEntry::Int(b)) => *a == *b,
            (PoolEntry::Text(a), PoolEntry::Text(b)) => a.as_slice() == b.as_slice(),
            (PoolEntry::Tree(a, xs), PoolEntry::Tree(b, ys)) => *a == *b
                && xs.as_slice() == ys.as_slice(),
            (PoolEntry::Fault(a), PoolEntry::Fault(b)) => *a == *b,
            _ => false,
        }
    }
}

impl Eq for PoolEntry {
    ghost laws = { entry_equal };
}

impl Hash for PoolEntry {
    ghost hash_input = { entry_writes };

    ghost respects_eq = { entry_alike.fed };

    fn hash<H: Hasher>(&self, state: &mut H) {
        match self {
            PoolEntry::Bool(b) => {
                0u8.hash(state);
                b.hash(state);
            }
            PoolEntry::Int(n) => {
                1u8.hash(state);
                n.hash(state);
            }
            PoolEntry::Text(text) => {
                2u8.hash(state);
                text.as_slice().hash(state);
            }
            PoolEntry::Tree(op, kids) => {
                3u8.hash(state);
                op.number.hash(state);
                kids.as_slice().hash(state);
            }
            PoolEntry::Fault(kind) => {
                4u8.hash(state);
                place_of(*kind).hash(state);
            }
        }
    }
}
