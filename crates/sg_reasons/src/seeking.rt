// The search for the reasons of a cycle: which pairs are wanted, by which ways they are related, and the causes of the
// steps. What is found is tested.
ghost use Rattle.std.specs.Prelude.{◌≡◌, ◌<◌, length, IfOk};
ghost use Rattle.sg_reasons.specs.Reasons.{all_vertices};
ghost use Rattle.sg_reasons.specs.Scenes.{IsScene};

use crate::pairs::{Graph, Pair, Pairs, joined};
use crate::scene::{Edge, Scene, is_equation};
use crate::why::{Cause, Reason, Step, Way};
use sg_dependencies::Spot;
use sg_kinds::ids::{OpId, PhylumId};
use sg_kinds::memory::NoMemory;
use sg_kinds::row::Row;
use sg_sets::BitSet;
use std::alloc::Global;

/// What a search goes by.
#[derive(Clone, Copy)]
pub struct Search<'a> {
    pub scene: &'a Scene<'a>,
    pub graph: &'a Graph,
    pub pairs: &'a Pairs,
}

/// A pair by its place, and the vertices of a way by which its operator relates it.
#[derive(Drop)]
pub struct Found {
    pub pair: usize,
    pub vertices: Vec<usize>,
}

// A number of 32 bits, the greatest where it is over.
fn narrow(number: usize) -> u32 {
    number.min(u32::MAX as usize) as u32
}

// The place of an equation that names the one vertex and defines the other.
fn equation(search: &Search, edge: Edge) -> Option<usize>
    requires { IsScene search.now.scene.now.rules.now search.now.scene.now.frames.now }
{
    if !search.graph.direct.get(edge.op)?.holds(edge.from, edge.to) {
        return None;
    }
    for place in search.graph.equations.get(edge.op)? {
        if is_equation(search.scene, edge, *place) {
            return Some(*place);
        }
    }
    None
}

// The slots of an occurrence at which two vertices stand.
fn slots(spot: Spot, edge: Edge) -> Option<(usize, usize)> {
    let from = edge.from.saturating_sub(spot.first);
    let to = edge.to.saturating_sub(spot.first);
    if spot.first <= edge.from && spot.first <= edge.to && from < spot.attrs && to < spot.attrs {
        Some((from, to))
    } else {
        None
    }
}

// Why one vertex depends on another, by the first so many pairs: in place of a reason stands the place of its pair.
fn cause(search: &Search, edge: Edge, known: usize) -> Result<Cause, NoMemory>
    requires { IsScene search.now.scene.now.rules.now search.now.scene.now.frames.now }
{
    if let Some(place) = equation(search, edge) {
        return Ok(Cause::ByEquation(place));
    }
    let Some(frame) = search.scene.frames.get(edge.op) else {
        return Err(NoMemory);
    };
    for (at, spot) in frame.spots.as_slice().iter().enumerate() {
        if let Some((from, to)) = slots(*spot, edge) {
            return match search.pairs.place_of(spot.phylum, from, to, known) {
                Some(place) => Ok(Cause::ByPhylum(narrow(at), place)),
                None => Ok(Cause::ByLayers(narrow(at), narrow(from), narrow(to))),
            };
        }
    }
    Err(NoMemory)
}

// Wants the pairs that a way goes by.
fn want(
    search: &Search,
    op: usize,
    vertices: &[usize],
    known: usize,
    wanted: &mut BitSet,
) -> Result<(), NoMemory>
    requires { IsScene search.now.scene.now.rules.now search.now.scene.now.frames.now }
{
    let mut from = 0;
    for (number, to) in vertices.iter().enumerate() {
        if number > 0 {
            let edge = Edge { op, from, to: *to };
            if let Cause::ByPhylum(_, place) = cause(search, edge, known)?
                && place < wanted.width()
            {
                wanted.insert(place);
            }
        }
        from = *to;
    }
    Ok(())
}

// The vertices of a way by which the operator of a pair relates it.
fn vertices(alloc: Global, search: &Search, pair: Pair) -> Result<Vec<usize>, NoMemory> {
    let relation = joined(
        alloc,
        search.scene,
        search.graph,
        search.pairs,
        pair.op,
        pair.known,
    )?;
    let Some(frame) = search.scene.frames.get(pair.op) else {
        return Err(NoMemory);
    };
    let Some(spot) = frame.spots.as_slice().get(pair.at) else {
        return Err(NoMemory);
    };
    let from = spot.first.saturating_add(pair.from);
    let to = spot.first.saturating_add(pair.to);
    match relation.way(alloc, from, to)? {
        Some(vertices) => Ok(vertices),
        None => Err(NoMemory),
    }
}

/// The pairs that a way goes by, and those by which they are related in turn, each in front of those that it rests on.
pub fn seek(
    alloc: Global,
    search: &Search,
    op: usize,
    cycle: &[usize],
) -> Result<Vec<Found>, NoMemory>
    requires { IsScene search.now.scene.now.rules.now search.now.scene.now.frames.now }
{
    let count = search.pairs.all.len();
    let mut wanted = BitSet::new(alloc, count)?;
    want(search, op, cycle, count, &mut wanted)?;
    let mut all = Vec::new(alloc);
    for place in (0..count).rev() {
        if wanted.contains(place)
            && let Some(pair) = search.pairs.all.get(place)
        {
            let vertices = vertices(alloc, search, *pair)?;
            want(search, pair.op, &vertices, pair.known, &mut wanted)?;
            all.push(Found {
                pair: place,
                vertices,
            })?;
        }
    }
    Ok(all)
}

/// Where the reasons of the pairs stand.
pub fn places(alloc: Global, count: usize, found: &[Found]) -> Result<Vec<usize>, NoMemory> {
    let mut places = vec![in alloc; 0usize; count]?;
    for (place, reason) in found.iter().enumerate() {
        if let Some(of_pair) = places.get_mut(reason.pair) {
            *of_pair = place;
        }
    }
    Ok(places)
}

// The cause with the place of a reason for that of its pair.
fn placed(cause: Cause, places: &[usize]) -> Cause {
    match cause {
        Cause::ByPhylum(at, pair) => {
            Cause::ByPhylum(at, places.get(pair).copied().unwrap_or(usize::MAX))
        }
        Cause::ByEquation(_) | Cause::ByLayers(..) => cause,
    }
}

/// The way along these vertices.
pub fn way(
    alloc: Global,
    search: &Search,
    op: usize,
    vertices: &[usize],
    known: usize,
    places: &[usize],
) -> Result<Way, NoMemory>
    requires { IsScene search.now.scene.now.rules.now search.now.scene.now.frames.now }
    ensures { IfOk result (λ w. all_vertices w ≡ vertices.now) }
{
    let Some((first, others)) = vertices.split_first() else {
        return Err(NoMemory);
    };
    let mut from = *first;
    let mut steps = Vec::new(alloc);
    for to in others {
        let edge = Edge { op, from, to: *to };
        let cause = placed(cause(search, edge, known)?, places);
        steps.push(Step { to: *to, cause })?;
        from = *to;
    }
    Ok(Way {
        from: *first,
        steps: Row::new(steps),
    })
}

/// The reasons that were found.
pub fn reasons(
    alloc: Global,
    search: &Search,
    found: &[Found],
    places: &[usize],
) -> Result<Vec<Reason>, NoMemory>
    requires { IsScene search.now.scene.now.rules.now search.now.scene.now.frames.now }
{
    let mut reasons = Vec::new(alloc);
    for one in found {
        let Some(pair) = search.pairs.all.get(one.pair) else {
            return Err(NoMemory);
        };
        reasons.push(Reason {
            phylum: PhylumId {
                number: narrow(pair.phylum),
            },
            from: narrow(pair.from),
            to: narrow(pair.to),
            op: OpId {
                number: narrow(pair.op),
            },
            at: narrow(pair.at),
            way: way(alloc, search, pair.op, &one.vertices, pair.known, places)?,
        })?;
    }
    Ok(reasons)
}
