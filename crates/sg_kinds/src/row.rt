// The lists of the records.
ghost use Rattle.std.specs.Prelude.{◌≡◌, ◌<◌, length, slice_get, Some, None, MatchOption, IfOk};

use crate::memory::NoMemory;
use std::alloc::Global;
use std::marker::Model;

/// A list that a record keeps, which contracts see as a list. It is made from a `Vec` and gives it back, without
/// memory.
#[derive(Drop)]
pub struct Row<T> {
    items: Vec<T>,
}

/// A path in a term: child numbers from the root downward, each counted from 0.
pub type Path = Row<u32>;

impl<T> Model for Row<T> {
    ghost use Rattle.std.specs.Prelude.{List};

    ghost Value = { List T };

    ghost view = { λ r. r.items.items };
}

impl<T> Row<T> {
    /// The list of these elements.
    pub fn new(items: Vec<T>) -> Row<T>
        ensures { result ≡ items.items }
    {
        Row { items }
    }

    /// The elements as a `Vec`.
    pub fn into_vec(self) -> Vec<T>
        ensures { result.items ≡ self }
    {
        self.items
    }

    /// The elements as a slice.
    pub fn as_slice(&self) -> &[T]
        ensures { result.now ≡ self.now }
    {
        self.items.as_slice()
    }

    /// How many elements there are.
    pub fn len(&self) -> usize
        ensures { result ≡ length self.now }
    {
        self.items.len()
    }

    /// The element at a place counted from 0, or None exactly past the end.
    pub fn place(&self, k: u32) -> Option<&T>
        ensures { MatchOption result (slice_get self.now k ≡ None) (λ x. slice_get self.now k ≡ Some x.now) }
    {
        self.items.get(k as usize)
    }
}

impl<T: Copy> Row<T> {
    /// An equal list.
    pub fn copy(&self, alloc: Global) -> Result<Row<T>, NoMemory>
        ensures { IfOk result (λ r. r ≡ self.now) }
    {
        Ok(Row {
            items: Vec::from_slice(alloc, self.items.as_slice())?,
        })
    }
}

/// The element at a place that is there.
pub fn item<T>(items: &[T], k: usize) -> &T
    requires { k < length items.now }
    ensures { slice_get items.now k ≡ Some result.now }
{
    items.get(k).unwrap()
}
