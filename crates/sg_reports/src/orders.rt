//! Faults of ordering as they are printed.
ghost use Rattle.std.specs.Prelude.{◌≡◌, ◌≢◌, IfOk};
ghost use Rattle.sg_ast.specs.View.{trees_of};
ghost use Rattle.sg_reports.specs.Orders.{printed_order};
ghost use Rattle.sg_reports.specs.Places.{place_in, operator_places};
ghost use Rattle.sg_reports.specs.Vertices.{printed_cycle, operator_name};

use crate::places::{operator_places, place_in};
use crate::vertices::{operator_name, printed_cycle};
use sg_ast::decl::Decl;
use sg_dependencies::OrderFault;
use sg_kinds::fault::{Position, PrintedVertex, SpecFault};
use sg_kinds::ids::OpId;
use sg_kinds::memory::NoMemory;
use sg_kinds::row::Row;
use sg_kinds::spec::Spec;
use sg_kinds::text::Text;
use std::alloc::Global;

/// What is printed of an operator with a cycle: its place, its name, the cycle.
#[derive(Drop)]
struct NamedCycle {
    place: Position,
    name: Text,
    cycle: Row<PrintedVertex>,
}

fn cycle_of(
    alloc: Global,
    decls: &[Decl],
    spec: &Spec,
    op: OpId,
    cycle: &[usize],
) -> Result<NamedCycle, NoMemory>
    ensures place { IfOk result (λ p. p.place ≡ place_in (operator_places (trees_of decls.now)) op) }
    ensures name { IfOk result (λ p. p.name ≡ operator_name spec.now op) }
    ensures cycle { IfOk result (λ p. p.cycle ≡ printed_cycle spec.now op cycle.now) }
{
    let places = operator_places(alloc, decls)?;
    Ok(NamedCycle {
        place: place_in(&places, op.number),
        name: operator_name(alloc, spec, op)?,
        cycle: printed_cycle(alloc, spec, op, cycle)?,
    })
}

/// A fault of ordering as it is printed.
#[tactic(auto, unfolding(crate::specs::Orders::printed_order))]
fn printed_order(
    alloc: Global,
    decls: &[Decl],
    spec: &Spec,
    fault: OrderFault,
) -> Result<SpecFault, NoMemory>
    ensures { IfOk result (λ f. f ≡ printed_order spec.now (trees_of decls.now) fault) }
{
    match fault {
        OrderFault::Direct(op, cycle) => {
            let p = cycle_of(alloc, decls, spec, op, cycle.as_slice())?;
            Ok(SpecFault::Direct(p.place, p.name, p.cycle))
        }
        OrderFault::Induced(op, cycle) => {
            let p = cycle_of(alloc, decls, spec, op, cycle.as_slice())?;
            Ok(SpecFault::Induced(p.place, p.name, p.cycle))
        }
        OrderFault::Ordered(op, cycle) => {
            let p = cycle_of(alloc, decls, spec, op, cycle.as_slice())?;
            Ok(SpecFault::Ordered(p.place, p.name, p.cycle))
        }
        OrderFault::NoMemory => Ok(SpecFault::NoMemory),
    }
}

/// A fault of the ordering of a specification's equations as it is printed: the operator at its declaration, and the
/// cycle.
pub fn order_fault(alloc: Global, decls: &[Decl], spec: &Spec, fault: OrderFault) -> SpecFault
    ensures { result ≢ SpecFault.NoMemory → result ≡ printed_order spec.now (trees_of decls.now) fault }
{
    match printed_order(alloc, decls, spec, fault) {
        Ok(printed) => printed,
        Err(_) => SpecFault::NoMemory,
    }
}
