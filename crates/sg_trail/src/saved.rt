//! The numbers of a tree.
ghost use Rattle.std.specs.Prelude.{◌≡◌, ◌<◌, ◌^◌, ℕ, Some, Contains, length, OnOk};
ghost use Rattle.sg_kinds.specs.Specification.{args_of, rules_of};
ghost use Rattle.sg_kinds.specs.Typing.{slots_there};
ghost use Rattle.sg_dependencies.specs.Vertices.{AreInRange};
ghost use Rattle.sg_forest.specs.Trees.{IsLive};
ghost use Rattle.sg_groves.specs.Grove.{nodes};
ghost use Rattle.sg_groves.specs.Stored.{number_at};
ghost use Rattle.sg_terms.specs.Found.{op_at};
ghost use Rattle.sg_trail.specs.Trails.{AreCovered, AreSaved, IsCovered};

use crate::entry::WasStored;
use sg_forest::NodeId;
use sg_kinds::ids::OpId;
use sg_kinds::memory::NoMemory;
use sg_kinds::row::item;
use sg_kinds::spec::Spec;
use sg_terms::Terms;

// how many slots a node of an operator has
fn slot_count(spec: &Spec, op: OpId) -> usize
    requires op { op < length spec.now.ops }
    requires range { AreInRange (rules_of spec.now) }
    ensures count { result ≡ length (slots_there spec.now op 0) }
    ensures small { result < 2 ^ 32 }
{
    let operator = item(spec.ops.as_slice(), op.number as usize);
    let phylum = item(spec.phyla.as_slice(), operator.phylum.number as usize);
    phylum.attrs.len() + operator.locals.len()
}

// how many arguments an operator has
fn arg_count(spec: &Spec, op: OpId) -> usize
    requires { op < length spec.now.ops }
    ensures { result ≡ length (args_of spec.now.ops op) }
{
    item(spec.ops.as_slice(), op.number as usize).args.len()
}

// the numbers of a node of an operator, each as an entry
fn save_node(
    terms: &Terms,
    n: NodeId,
    op: OpId,
    entries: &mut Vec<WasStored>,
) -> Result<(), NoMemory>
    requires op { op_at terms.now n ≡ Some op }
    ensures saved { AreSaved terms.now entries.old.items → AreSaved terms.now entries.new.items }
    ensures stay { (e : _) → Contains entries.old.items e → Contains entries.new.items e }
    ensures covered { OnOk result ((slot id : ℕ) → number_at terms.now n slot ≡ Some id
        → IsCovered entries.new.items n slot) }
{
    terms.facts();
    let count = slot_count(terms.spec(), op);
    for k in 0..count {
        let slot = k as u32;
        let number = terms.stored(n, slot);
        entries.push(WasStored {
            node: n,
            slot,
            number,
        })?;
    }
    Ok(())
}

// the numbers of the nodes of operators in a tree
pub fn save_tree(terms: &Terms, n: NodeId, entries: &mut Vec<WasStored>) -> Result<(), NoMemory>
    requires { IsLive (nodes terms.now) n }
    ensures saved { AreSaved terms.now entries.old.items → AreSaved terms.now entries.new.items }
    ensures stay { (e : _) → Contains entries.old.items e → Contains entries.new.items e }
    ensures covered { OnOk result (AreCovered terms.now n entries.new.items) }
{
    terms.facts();
    let Some(op) = terms.op(n) else {
        return Ok(());
    };
    save_node(terms, n, op, entries)?;
    let count = arg_count(terms.spec(), op);
    for k in 0..count {
        save_tree(terms, terms.kid(n, k), entries)?;
    }
    Ok(())
}
