// The entries.
ghost use Rattle.std.specs.Prelude.{◌≡◌, ◌++◌, flat_map, OnOk};
ghost use Rattle.sg_plan_text.specs.Plan as meaning;

use sg_kinds::memory::NoMemory;
use sg_kinds::spec::{Entry, Spec};
use sg_printed::{nonterminal_name, phylum_name};

fn write_entry(out: &mut Vec<u8>, spec: &Spec, entry: Entry) -> Result<(), NoMemory>
    ensures { OnOk result (out.new.items ≡ out.old.items ++ meaning.entry_text spec.now entry) }
{
    let n = entry.nonterminal as usize;
    out.extend_from_slice(b"entry ")?;
    out.extend_from_slice(phylum_name(spec.phyla.as_slice(), entry.phylum.number as usize))?;
    out.extend_from_slice(b": ")?;
    out.extend_from_slice(nonterminal_name(spec.productions.as_slice(), n))?;
    out.push(b'\n')?;
    Ok(())
}

/// Writes the entries.
pub fn write_entries(out: &mut Vec<u8>, spec: &Spec) -> Result<(), NoMemory>
    ensures { OnOk result (out.new.items ≡ out.old.items ++ flat_map (meaning.entry_text spec.now) spec.now.entries) }
{
    for entry in spec.entries.as_slice() {
        write_entry(out, spec, *entry)?;
    }
    Ok(())
}
