// What a new node is and keeps.
ghost use Rattle.std.specs.Prelude.{◌≡◌, ◌<◌, Some, All, IfOk, length};
ghost use Rattle.sg_kinds.specs.Specification.{args_of, phylum_of};
ghost use Rattle.sg_kinds.specs.declared.spec.Operator.{Operator};
ghost use Rattle.sg_kinds.specs.Typing.{slots_there};
ghost use Rattle.sg_kinds.specs.Sound.{AreCounted};

use sg_groves::{Kind, Values};
use sg_kinds::ids::{OpId, ValueId};
use sg_kinds::memory::NoMemory;
use sg_kinds::row::item;
use sg_kinds::spec::Spec;
use std::alloc::Global;

/// What a node of an operator is.
pub fn kind_of(spec: &Spec, op: OpId) -> Kind
    requires op { op < length spec.now.ops }
    requires counted { AreCounted spec.now }
    ensures op { result.op ≡ Some op }
    ensures phylum { phylum_of spec.now.ops op ≡ Some result.phylum }
    ensures arity { result.arity ≡ length (args_of spec.now.ops op) }
{
    let operator = item(spec.ops.as_slice(), op.number as usize);
    Kind {
        phylum: operator.phylum,
        op: Some(op),
        arity: operator.args.len() as u32,
    }
}

/// How many slots a node of an operator has.
fn slot_count(spec: &Spec, op: OpId) -> usize
    requires op { op < length spec.now.ops }
    requires counted { AreCounted spec.now }
    requires phyla { All (λ (o : Operator). o.phylum < length spec.now.phyla) spec.now.ops }
    ensures { result ≡ length (slots_there spec.now op 0) }
{
    let operator = item(spec.ops.as_slice(), op.number as usize);
    let phylum = item(spec.phyla.as_slice(), operator.phylum.number as usize);
    phylum.attrs.len() + operator.locals.len()
}

/// Number 0 for each slot of a node of an operator: no value is known yet.
pub fn unknown(alloc: Global, spec: &Spec, op: OpId) -> Result<Values, NoMemory>
    requires op { op < length spec.now.ops }
    requires counted { AreCounted spec.now }
    requires phyla { All (λ (o : Operator). o.phylum < length spec.now.phyla) spec.now.ops }
    ensures count { IfOk result (λ v. length v ≡ length (slots_there spec.now op 0)) }
    ensures zero { IfOk result (λ v. All (λ k. k ≡ 0) v) }
{
    Values::repeated(alloc, ValueId { number: 0 }, slot_count(spec, op))
}

/// How many arguments an equation has at most.
pub fn widest(spec: &Spec) -> usize {
    let mut most = 0;
    for rule in spec.rules.as_slice() {
        most = most.max(rule.args.len());
    }
    most
}
