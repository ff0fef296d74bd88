//! What stands before parentheses: operators, functions and builtins.
ghost use Rattle.std.specs.Prelude.{◌≡◌, ℕ, List, option_map, OnOk, IfOk};
ghost use Rattle.sg_ast.specs.FirstFault.{or_else};
ghost use Rattle.sg_names.specs.Lookups.{function_named, builtin_named, callable_in};
ghost use Rattle.sg_names.specs.Meaning.{meaning};
ghost use Rattle.sg_names.specs.Names.{op_named};
ghost use Rattle.sg_names.specs.declared.table.Callable.TheVariants as callable;

use crate::index::Index;
use crate::table::{Callable, Signature};
use sg_kinds::ids::OpId;
use sg_kinds::marks::Unary;
use sg_kinds::memory::NoMemory;
use sg_kinds::spec::Operator;
use std::alloc::Global;

/// A place as the tables keep it. No list in memory is too long for it.
pub fn number(place: usize) -> Result<u32, NoMemory>
    ensures { IfOk result (λ n. n ≡ place) }
{
    match u32::try_from(place) {
        Ok(number) => Ok(number),
        Err(_) => Err(NoMemory),
    }
}

/// The operators by their names.
pub fn by_operator(alloc: Global, ops: &[Operator]) -> Result<Index<Callable>, NoMemory>
    ensures { IfOk result (λ i. (n : List ℕ) → meaning i n ≡ option_map callable.Operator (op_named ops.now n)) }
{
    let mut index = Index::new(alloc);
    for (place, operator) in ops.iter().enumerate() {
        let op = OpId {
            number: number(place)?,
        };
        index.put(alloc, operator.name.as_slice(), Callable::Operator(op))?;
    }
    Ok(index)
}

/// Puts the functions behind what is there.
pub(crate) fn add_functions(
    alloc: Global,
    index: &mut Index<Callable>,
    functions: &[Signature],
) -> Result<(), NoMemory>
    ensures { OnOk result ((n : List ℕ) → meaning index.new n
        ≡ or_else (meaning index.old n) (option_map callable.Function (function_named functions.now n))) }
{
    for (place, function) in functions.iter().enumerate() {
        let place = number(place)?;
        index.put(alloc, function.name.as_slice(), Callable::Function(place))?;
    }
    Ok(())
}

/// Puts the builtins behind what is there.
pub(crate) fn add_builtins(alloc: Global, index: &mut Index<Callable>) -> Result<(), NoMemory>
    ensures { OnOk result ((n : List ℕ) → meaning index.new n
        ≡ or_else (meaning index.old n) (option_map callable.Builtin (builtin_named n))) }
{
    index.put(alloc, b"STRtoINT", Callable::Builtin(Unary::TextToNumber))?;
    index.put(alloc, b"INTtoSTR", Callable::Builtin(Unary::NumberToText))?;
    index.put(alloc, b"STRlen", Callable::Builtin(Unary::TextLength))
}

/// All of them.
pub(crate) fn all(
    alloc: Global,
    ops: &[Operator],
    functions: &[Signature],
) -> Result<Index<Callable>, NoMemory>
    ensures { IfOk result (λ i. (n : List ℕ) → meaning i n ≡ callable_in ops.now functions.now n) }
{
    let mut index = by_operator(alloc, ops)?;
    add_functions(alloc, &mut index, functions)?;
    add_builtins(alloc, &mut index)?;
    Ok(index)
}
