// A cycle step by step, and the reasons of its steps.
ghost use Rattle.std.specs.Prelude.{◌≡◌, IfOk};
ghost use Rattle.sg_dependencies.specs.Frames.{frames_of};
ghost use Rattle.sg_dependencies.specs.Vertices.{AreInRange};
ghost use Rattle.sg_orders.specs.Layerings.{AreLayerings};
ghost use Rattle.sg_reasons.specs.Reasons.{IsAlong, IsOf, IsPath, all_vertices};
ghost use Rattle.sg_reasons.specs.Scenes.{AreLayered, IsScene};

use crate::checking::is_path;
use crate::pairs::{Graph, Pairs, all_pairs, graph_of};
use crate::scene::{Scene, item_at};
use crate::seeking::{Search, places, reasons, seek, way};
use crate::why::Path;
use sg_dependencies::{OrderFault, frames, induce};
use sg_kinds::ids::OpId;
use sg_kinds::memory::NoMemory;
use sg_kinds::row::Row;
use sg_kinds::spec::Rules;
use sg_orders::all_layers;
use std::alloc::Global;

// The layers of each phylum's attributes, where no operator has a cycle in its induced dependencies.
fn layers(alloc: Global, scene: &Scene) -> Result<Vec<Row<usize>>, NoMemory>
    requires { IsScene scene.now.rules.now scene.now.frames.now }
    ensures { IfOk result (λ v. AreLayerings scene.now.rules.now v.items) }
{
    match induce(alloc, scene.rules, scene.frames) {
        Ok(dependencies) => all_layers(alloc, scene.rules, &dependencies),
        Err(_) => Err(NoMemory),
    }
}

// The path along a cycle that is found, tested.
#[tactic(auto, using(crate::proofs::Steps::along))]
fn found(
    alloc: Global,
    scene: &Scene,
    layers: &[Row<usize>],
    op: OpId,
    cycle: &[usize],
) -> Result<Path, NoMemory>
    requires scene { IsScene scene.now.rules.now scene.now.frames.now }
    requires layers { AreLayered scene.now.rules.now layers.now }
    ensures path { IfOk result (IsPath scene.now.rules.now) }
    ensures operator { IfOk result (λ w. w.op ≡ op) }
    ensures along { IfOk result (λ w. IsAlong cycle.now w.cycle) }
{
    let Some(first) = item_at(cycle, 0) else {
        return Err(NoMemory);
    };
    let mut round = Vec::from_slice(alloc, cycle)?;
    round.push(*first)?;
    let graph = graph_of(alloc, scene)?;
    let pairs = all_pairs(alloc, scene, &graph)?;
    let path = searched(alloc, scene, &graph, &pairs, op, &round)?;
    if is_path(scene, layers, &path) {
        Ok(path)
    } else {
        Err(NoMemory)
    }
}

// The path along these vertices that a search finds.
fn searched(
    alloc: Global,
    scene: &Scene,
    graph: &Graph,
    pairs: &Pairs,
    op: OpId,
    round: &[usize],
) -> Result<Path, NoMemory>
    requires { IsScene scene.now.rules.now scene.now.frames.now }
    ensures operator { IfOk result (λ w. w.op ≡ op) }
    ensures along { IfOk result (λ w. all_vertices w.cycle ≡ round.now) }
{
    let search = Search {
        scene,
        graph,
        pairs,
    };
    let count = pairs.all.len();
    let place = op.number as usize;
    let found = seek(alloc, &search, place, round)?;
    let places = places(alloc, count, &found)?;
    let cycle = way(alloc, &search, place, round, count, &places)?;
    let reasons = reasons(alloc, &search, &found, &places)?;
    Ok(Path {
        op,
        cycle,
        reasons: Row::new(reasons),
    })
}

// The same by the layers too.
fn layered(alloc: Global, scene: &Scene, op: OpId, cycle: &[usize]) -> Result<Path, NoMemory>
    requires scene { IsScene scene.now.rules.now scene.now.frames.now }
    ensures path { IfOk result (IsPath scene.now.rules.now) }
    ensures operator { IfOk result (λ w. w.op ≡ op) }
    ensures along { IfOk result (λ w. IsAlong cycle.now w.cycle) }
{
    let layers = layers(alloc, scene)?;
    found(alloc, scene, &layers, op, cycle)
}

/// Returns the cycle of a fault step by step, each step with its cause, and the reasons of the causes, each once.
///
/// A step is by an equation, by what a phylum relates at an occurrence, or by the layers of a phylum's attributes.
pub fn path(alloc: Global, rules: &Rules, fault: &OrderFault) -> Result<Path, NoMemory>
    requires { AreInRange rules.now }
    ensures path { IfOk result (IsPath rules.now) }
    ensures fault { IfOk result (IsOf fault.now) }
{
    let frames = frames(alloc, rules)?;
    let scene = Scene {
        rules,
        frames: &frames,
    };
    match fault {
        OrderFault::Direct(op, cycle) => found(alloc, &scene, &[], *op, cycle.as_slice()),
        OrderFault::Induced(op, cycle) => found(alloc, &scene, &[], *op, cycle.as_slice()),
        OrderFault::Ordered(op, cycle) => layered(alloc, &scene, *op, cycle.as_slice()),
        OrderFault::NoMemory => Err(NoMemory),
    }
}
