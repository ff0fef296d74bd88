// Tests of steps and of their causes.
ghost use Rattle.std.specs.Prelude.{◌≡◌, ◌<◌, ◌↔◌, slice_index, All, IfSome, IsTrue};
ghost use Rattle.sg_reasons.specs.Reasons.{AreAt, AreReasons, AreSteps, IsByLayers, IsByPhylum, IsCause, IsInducing, IsPath, IsReason, Step as StepOf};
ghost use Rattle.sg_reasons.specs.Scenes.{AreLater, AreLayered, IsBetween, IsLater, IsPlace, IsScene};

use crate::scene::{Edge, Scene, is_equation, item_at, spot_at, stand_at};
use crate::why::{Cause, Path, Reason, Step, Way};
use sg_dependencies::Spot;
use sg_kinds::row::Row;

/// What causes may rest on: reasons, but for the first so many, and layers.
#[derive(Clone, Copy)]
pub struct Known<'a> {
    pub reasons: &'a [Reason],
    pub low: usize,
    pub layers: &'a [Row<usize>],
}

// Whether an occurrence is one of a reason's phylum, and two vertices are those of what it relates there.
fn is_of(spot: Spot, reason: &Reason, edge: Edge) -> bool
    ensures { IsTrue result → IsPlace spot reason.now.phylum reason.now.from reason.now.to edge.from edge.to }
{
    spot.phylum == reason.phylum.number as usize
        && stand_at(spot, reason.from, reason.to, edge.from, edge.to)
}

// Whether two vertices are those of what a reason relates, at an occurrence.
fn is_placed(scene: &Scene, reason: &Reason, edge: Edge, at: u32) -> bool
    requires { IsScene scene.now.rules.now scene.now.frames.now }
    ensures { IsTrue result → AreAt scene.now.rules.now edge.op at reason.now.phylum reason.now.from reason.now.to
        edge.from edge.to }
{
    match spot_at(scene, edge.op, at) {
        Some(spot) => is_of(spot, reason, edge),
        None => false,
    }
}

// Whether a reason that is known relates two vertices at an occurrence.
fn is_by_phylum(scene: &Scene, known: &Known, edge: Edge, at: u32, place: usize) -> bool
    requires { IsScene scene.now.rules.now scene.now.frames.now }
    ensures { IsTrue result → IsByPhylum scene.now.rules.now known.now.reasons.now known.now.low
        edge.op edge.from edge.to at place }
{
    if place < known.low {
        return false;
    }
    match item_at(known.reasons, place) {
        Some(reason) => is_placed(scene, reason, edge, at),
        None => false,
    }
}

// Whether the first of two slots is of an earlier evaluated layer.
fn is_earlier(layers: &[usize], a: u32, b: u32) -> bool
    ensures { IsTrue result → slice_index layers.now b < slice_index layers.now a }
{
    match (layers.get(a as usize), layers.get(b as usize)) {
        (Some(first), Some(second)) => second < first,
        _ => false,
    }
}

// Whether the first of two attributes of a phylum comes in an earlier evaluated layer.
fn is_later(known: &Known, phylum: usize, a: u32, b: u32) -> bool
    ensures { IsTrue result → IsLater known.now.layers.now phylum a b }
{
    match item_at(known.layers, phylum) {
        Some(row) => is_earlier(row.as_slice(), a, b),
        None => false,
    }
}

// Whether two vertices are those of two such attributes at an occurrence.
fn are_later(known: &Known, spot: Spot, edge: Edge, a: u32, b: u32) -> bool
    ensures { IsTrue result → AreLater known.now.layers.now spot a b edge.from edge.to }
{
    stand_at(spot, a, b, edge.from, edge.to) && is_later(known, spot.phylum, a, b)
}

// Whether the layers relate two vertices at an occurrence.
fn is_by_layers(scene: &Scene, known: &Known, edge: Edge, at: u32, a: u32, b: u32) -> bool
    requires scene { IsScene scene.now.rules.now scene.now.frames.now }
    requires layers { AreLayered scene.now.rules.now known.now.layers.now }
    ensures { IsTrue result → IsByLayers scene.now.rules.now edge.op edge.from edge.to at a b }
{
    match spot_at(scene, edge.op, at) {
        Some(spot) => are_later(known, spot, edge, a, b),
        None => false,
    }
}

// Whether this causes one vertex to depend on another.
fn is_cause(scene: &Scene, known: &Known, edge: Edge, cause: Cause) -> bool
    requires scene { IsScene scene.now.rules.now scene.now.frames.now }
    requires layers { AreLayered scene.now.rules.now known.now.layers.now }
    ensures { IsTrue result → IsCause scene.now.rules.now known.now.reasons.now known.now.low
        edge.op edge.from edge.to cause }
{
    match cause {
        Cause::ByEquation(place) => is_equation(scene, edge, place),
        Cause::ByPhylum(at, place) => is_by_phylum(scene, known, edge, at, place),
        Cause::ByLayers(at, a, b) => is_by_layers(scene, known, edge, at, a, b),
    }
}

// Where the steps of a way lead, if each has its cause.
fn last_of(scene: &Scene, known: &Known, op: usize, way: &Way) -> Option<usize>
    requires scene { IsScene scene.now.rules.now scene.now.frames.now }
    requires layers { AreLayered scene.now.rules.now known.now.layers.now }
    ensures { IfSome result (AreSteps scene.now.rules.now known.now.reasons.now known.now.low
        op way.now.from way.now.steps) }
{
    let mut from = way.from;
    for step in way.steps.as_slice() {
        let edge = Edge {
            op,
            from,
            to: step.to,
        };
        if is_cause(scene, known, edge, step.cause) {
            from = step.to;
        } else {
            return None;
        }
    }
    Some(from)
}

fn is_inducing(cause: Cause) -> bool
    ensures { IsTrue result ↔ IsInducing cause }
{
    match cause {
        Cause::ByEquation(_) | Cause::ByPhylum(..) => true,
        Cause::ByLayers(..) => false,
    }
}

fn are_induced(steps: &[Step]) -> bool
    ensures { IsTrue result ↔ All (λ (s : StepOf). IsInducing s.cause) steps.now }
{
    steps.iter().all(|step| is_inducing(step.cause))
}

// Whether what a reason relates stands at the ends of its way, which has steps, none of them by layers.
fn is_between(scene: &Scene, reason: &Reason, last: usize) -> bool
    requires { IsScene scene.now.rules.now scene.now.frames.now }
    ensures { IsTrue result → IsBetween scene.now.rules.now reason.now last }
{
    let edge = Edge {
        op: reason.op.number as usize,
        from: reason.way.from,
        to: last,
    };
    let steps = reason.way.steps.as_slice();
    is_placed(scene, reason, edge, reason.at) && !steps.is_empty() && are_induced(steps)
}

fn operator_of(reason: &Reason) -> usize
    ensures { result ≡ reason.now.op }
{
    reason.op.number as usize
}

fn way_of(reason: &Reason) -> &Way
    ensures { result.now ≡ reason.now.way }
{
    &reason.way
}

// Whether a reason rests on these alone.
fn is_reason(scene: &Scene, known: &Known, reason: &Reason) -> bool
    requires scene { IsScene scene.now.rules.now scene.now.frames.now }
    requires layers { AreLayered scene.now.rules.now known.now.layers.now }
    ensures { IsTrue result → IsReason scene.now.rules.now known.now.reasons.now known.now.low reason.now }
{
    let op = operator_of(reason);
    let way = way_of(reason);
    match last_of(scene, known, op, way) {
        Some(last) => is_between(scene, reason, last),
        None => false,
    }
}

// Whether each reason rests on those behind it.
fn are_reasons(scene: &Scene, reasons: &[Reason]) -> bool
    requires { IsScene scene.now.rules.now scene.now.frames.now }
    ensures { IsTrue result → AreReasons scene.now.rules.now reasons.now }
{
    for (place, reason) in reasons.iter().enumerate() {
        let known = Known {
            reasons,
            low: place + 1,
            layers: &[],
        };
        if is_reason(scene, &known, reason) {
            continue;
        }
        return false;
    }
    true
}

fn start_of(way: &Way) -> usize
    ensures { result ≡ way.now.from }
{
    way.from
}

// Whether the steps of a way have their causes and lead back.
fn is_closed(scene: &Scene, known: &Known, op: usize, way: &Way) -> bool
    requires scene { IsScene scene.now.rules.now scene.now.frames.now }
    requires layers { AreLayered scene.now.rules.now known.now.layers.now }
    ensures { IsTrue result → AreSteps scene.now.rules.now known.now.reasons.now known.now.low
        op way.now.from way.now.steps way.now.from }
{
    match last_of(scene, known, op, way) {
        Some(last) => last == start_of(way),
        None => false,
    }
}

fn reasons_of(path: &Path) -> &[Reason]
    ensures { result.now ≡ path.now.reasons }
{
    path.reasons.as_slice()
}

fn cycle_of(path: &Path) -> &Way
    ensures { result.now ≡ path.now.cycle }
{
    &path.cycle
}

fn place_of(path: &Path) -> usize
    ensures { result ≡ path.now.op }
{
    path.op.number as usize
}

/// Whether each step of a cycle and of its reasons has its cause.
pub fn is_path(scene: &Scene, layers: &[Row<usize>], path: &Path) -> bool
    requires scene { IsScene scene.now.rules.now scene.now.frames.now }
    requires layers { AreLayered scene.now.rules.now layers.now }
    ensures { IsTrue result → IsPath scene.now.rules.now path.now }
{
    let reasons = reasons_of(path);
    let op = place_of(path);
    let cycle = cycle_of(path);
    let known = Known {
        reasons,
        low: 0,
        layers,
    };
    is_closed(scene, &known, op, cycle) && are_reasons(scene, reasons)
}
