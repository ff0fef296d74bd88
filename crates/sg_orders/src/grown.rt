//! Lists that grow in a table of lists.
ghost use Rattle.std.specs.Prelude.{◌≡◌, ◌<◌, [], ◌∷◌, ◌++◌, length, replicate, slice_set, slice_index_or, IfOk, OnOk};

use sg_kinds::memory::NoMemory;
use sg_kinds::row::Row;
use std::alloc::Global;
use std::mem;

/// So many empty lists.
pub fn empties<T: Drop>(alloc: Global, count: usize) -> Result<Vec<Row<T>>, NoMemory>
    ensures { IfOk result (λ v. v.items ≡ replicate count []) }
{
    let mut rows = Vec::new(alloc);
    for made in 0..count {
        rows.push(Row::new(Vec::new(alloc)))?;
    }
    Ok(rows)
}

/// Puts an element at the end of one of the lists.
pub fn push_at<T: Drop>(
    alloc: Global,
    rows: &mut [Row<T>],
    place: usize,
    element: T,
) -> Result<(), NoMemory>
    requires { place < length rows.old }
    ensures { OnOk result (rows.new ≡ slice_set rows.old place (slice_index_or rows.old place [] ++ element ∷ [])) }
{
    let mut row = mem::replace(&mut rows[place], Row::new(Vec::new(alloc))).into_vec();
    row.push(element)?;
    rows[place] = Row::new(row);
    Ok(())
}
