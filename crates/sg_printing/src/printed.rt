// A value as it is printed.
ghost use Rattle.std.specs.Prelude.{◌≡◌, ◌<◌, length, IfOk, option_map};
ghost use Rattle.sg_pool.specs.Pools.{value_at};
ghost use Rattle.sg_printing.specs.Printed.{page_text, saved_text, printed};

use sg_kinds::ids::{PhylumId, ValueId};
use sg_kinds::memory::NoMemory;
use sg_kinds::spec::Spec;
use sg_pool::entry::PoolEntry;
use sg_pool::pool::Pool;
use sg_saved::spell;
use sg_unparse::{fault_text, write_value};
use std::alloc::Global;

/// How values are printed.
#[derive(Clone, Copy, PartialEq, Eq)]
pub enum Form {
    /// As on a page, where a tree is not printed.
    Page,
    /// As in a saved file, but for the faults, which are printed as on a page.
    Saved,
}

// as on a page
fn page_text(
    alloc: Global,
    spec: &Spec,
    p: PhylumId,
    pool: &Pool,
    id: ValueId,
) -> Result<Option<Vec<u8>>, NoMemory>
    requires { id < length pool.now }
    ensures { IfOk result (λ o. option_map (λ s. s.items) o ≡ page_text spec.now p (value_at pool.now id)) }
{
    if matches!(pool.entry(id), PoolEntry::Tree(_, _)) {
        return Ok(None);
    }
    let mut text = Vec::new(alloc);
    write_value(&mut text, spec, p, pool, id)?;
    Ok(Some(text))
}

// as in a saved file
fn saved_text(alloc: Global, spec: &Spec, pool: &Pool, id: ValueId) -> Result<Vec<u8>, NoMemory>
    requires { id < length pool.now }
    ensures { IfOk result (λ s. s.items ≡ saved_text spec.now (value_at pool.now id)) }
{
    if let PoolEntry::Fault(kind) = pool.entry(id) {
        return Ok(Vec::from_slice(alloc, fault_text(*kind))?);
    }
    let value = pool.value(alloc, id)?;
    spell(alloc, spec, &value)
}

/// A value of a phylum in a form; none of a tree on a page.
pub fn printed(
    alloc: Global,
    spec: &Spec,
    p: PhylumId,
    pool: &Pool,
    id: ValueId,
    form: Form,
) -> Result<Option<Vec<u8>>, NoMemory>
    requires { id < length pool.now }
    ensures { IfOk result (λ o. option_map (λ s. s.items) o ≡ printed form spec.now p (value_at pool.now id)) }
{
    match form {
        Form::Page => page_text(alloc, spec, p, pool, id),
        Form::Saved => Ok(Some(saved_text(alloc, spec, pool, id)?)),
    }
}
