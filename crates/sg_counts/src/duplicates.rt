//! Second definitions.
ghost use Rattle.std.specs.Prelude.{◌≡◌, ◌∷◌, ◌++◌, [], option_map, slice_get, IfOk};
ghost use Rattle.std.specs.BTreeMap.{is_at};
ghost use Rattle.sg_ast.specs.FirstFault.{first_repeat};
ghost use Rattle.sg_ast.specs.View.{trees_of};
ghost use Rattle.sg_counts.specs.Definitions.{adds_up, clashes, is_clash, is_same_key};
ghost use Rattle.sg_counts.specs.DefinitionsView.{key_of, definition_of, seen_of};
ghost use Rattle.sg_counts.specs.Duplicates.{duplicate, duplicate_fault, printed_name};

use crate::definitions::{Definition, Form, Key, Space, definitions};
use sg_ast::decl::Decl;
use sg_kinds::fault::SpecFault;
use sg_kinds::memory::NoMemory;
use sg_kinds::text::Text;
use std::alloc::Global;
use std::collections::BTreeMap;

/// Whether two definitions of one name add up.
fn adds_up(first: Form, second: Form) -> bool
    ensures { result ≡ adds_up first second }
{
    matches!(
        (first, second),
        (Form::Operators, Form::Operators) | (Form::Productions, Form::Productions)
    )
}

/// Whether a definition clashes with the last one of its name, if there is one.
fn is_clash(before: Option<Form>, form: Form) -> bool
    ensures { result ≡ is_clash before form }
{
    match before {
        Some(before) => !adds_up(before, form),
        None => false,
    }
}

/// The place of the first definition that clashes with one before it.
fn first_clash<K: Ord + Copy + Drop>(
    alloc: Global,
    definitions: &[Definition<K>],
) -> Result<Option<usize>, NoMemory>
    ensures { IfOk result (λ place. place ≡ first_repeat (clashes (λ a b. is_at (K.cmp a) b)) definitions.now) }
{
    let mut forms = BTreeMap::new(alloc);
    for (place, definition) in definitions.iter().enumerate() {
        let before = forms.insert(definition.key, definition.form)?;
        if is_clash(before, definition.form) {
            return Ok(Some(place));
        }
    }
    Ok(None)
}

/// The same, by the names that the keys spell.
fn clash(alloc: Global, definitions: &[Definition<Key<'_>>]) -> Result<Option<usize>, NoMemory>
    ensures { IfOk result (λ place. place ≡ first_repeat (clashes is_same_key) (seen_of definitions.now)) }
{
    first_clash(alloc, definitions)
}

/// A literal between quotes.
fn quoted(alloc: Global, literal: &[u8]) -> Result<Text, NoMemory>
    ensures { IfOk result (λ t. t ≡ 39 ∷ literal.now ++ 39 ∷ []) }
{
    let mut bytes = Vec::new(alloc);
    bytes.push(b'\'')?;
    bytes.extend_from_slice(literal)?;
    bytes.push(b'\'')?;
    Ok(Text::new(bytes))
}

/// The name as a fault prints it.
fn printed_name(alloc: Global, key: &Key<'_>) -> Result<Text, NoMemory>
    ensures { IfOk result (λ t. t ≡ printed_name (key_of key.now)) }
{
    match key.space {
        Space::Literals => quoted(alloc, key.name),
        _ => Text::from_slice(alloc, key.name),
    }
}

/// The fault of a definition that clashes.
fn fault(alloc: Global, definition: &Definition<Key<'_>>) -> Result<SpecFault, NoMemory>
    ensures { IfOk result (λ f. f ≡ duplicate_fault (definition_of definition.now)) }
{
    let name = printed_name(alloc, &definition.key)?;
    Ok(SpecFault::Duplicate(definition.place, name))
}

/// The fault of the definition at a place, if there is one.
#[tactic(auto, using(crate::proofs::SameKeys::seen_at))]
fn fault_at(
    alloc: Global,
    definitions: &[Definition<Key<'_>>],
    place: usize,
) -> Result<Option<SpecFault>, NoMemory>
    ensures { IfOk result (λ f. f ≡ option_map duplicate_fault (slice_get (seen_of definitions.now) place)) }
{
    match definitions.get(place) {
        Some(definition) => Ok(Some(fault(alloc, definition)?)),
        None => Ok(None),
    }
}

/// The first second definition where there may be one.
pub fn duplicate(alloc: Global, decls: &[Decl]) -> Result<Option<SpecFault>, NoMemory>
    ensures { IfOk result (λ fault. fault ≡ duplicate (trees_of decls.now)) }
{
    let definitions = definitions(alloc, decls)?;
    match clash(alloc, &definitions)? {
        Some(place) => fault_at(alloc, &definitions, place),
        None => Ok(None),
    }
}
