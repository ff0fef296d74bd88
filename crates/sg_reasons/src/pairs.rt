// The pairs of attributes that operators relate, found round by round. A search for reasons goes by them: nothing is
// proved of them, as what it finds is tested.
ghost use Rattle.sg_reasons.specs.Scenes.{IsScene};

use crate::scene::Scene;
use sg_dependencies::{Frame, Spot, direct, operator};
use sg_kinds::memory::NoMemory;
use sg_kinds::spec::Rules;
use sg_sets::{BitSet, Relation};
use std::alloc::Global;

/// What equations name and define: the relation of each operator, and the places of its equations.
#[derive(Drop)]
pub struct Graph {
    pub direct: Vec<Relation>,
    pub equations: Vec<Vec<usize>>,
}

/// A pair of attributes of a phylum that an operator relates at one of its occurrences by the pairs known before.
#[derive(Clone, Copy)]
pub struct Pair {
    pub phylum: usize,
    pub from: usize,
    pub to: usize,
    pub op: usize,
    pub at: usize,
    /// how many pairs were known
    pub known: usize,
}

/// All pairs in the order in which they were found; for each phylum the places of its pairs, rising, and its relation.
#[derive(Drop)]
pub struct Pairs {
    pub all: Vec<Pair>,
    of: Vec<Vec<usize>>,
    phyla: Vec<Relation>,
}

fn equations(alloc: Global, rules: &Rules) -> Result<Vec<Vec<usize>>, NoMemory> {
    let mut equations = Vec::new(alloc);
    for _op in rules.ops.as_slice() {
        equations.push(Vec::new(alloc))?;
    }
    for (place, rule) in rules.rules.as_slice().iter().enumerate() {
        if let Some(own) = equations.get_mut(operator(rule)) {
            own.push(place)?;
        }
    }
    Ok(equations)
}

/// The graph of the equations.
pub fn graph_of(alloc: Global, scene: &Scene) -> Result<Graph, NoMemory>
    requires { IsScene scene.now.rules.now scene.now.frames.now }
{
    Ok(Graph {
        direct: direct(alloc, scene.rules, scene.frames)?,
        equations: equations(alloc, scene.rules)?,
    })
}

// Relates two vertices that are there.
fn relate(relation: &mut Relation, from: usize, to: usize) {
    if from < relation.size() && to < relation.size() {
        relation.add(from, to);
    }
}

impl Pairs {
    fn none(alloc: Global, rules: &Rules) -> Result<Pairs, NoMemory> {
        let mut of = Vec::new(alloc);
        let mut phyla = Vec::new(alloc);
        for phylum in rules.phyla.as_slice() {
            of.push(Vec::new(alloc))?;
            phyla.push(Relation::new(alloc, phylum.attrs.len())?)?;
        }
        let all = Vec::new(alloc);
        Ok(Pairs { all, of, phyla })
    }

    // Relates the attributes of a pair, and returns whether they were not related before.
    fn is_new(&mut self, pair: Pair) -> bool {
        match self.phyla.get_mut(pair.phylum) {
            Some(relation) => {
                pair.from < relation.size()
                    && pair.to < relation.size()
                    && relation.add(pair.from, pair.to)
            }
            None => false,
        }
    }

    fn add(&mut self, pair: Pair) -> Result<(), NoMemory> {
        if self.is_new(pair) {
            let place = self.all.len();
            if let Some(of) = self.of.get_mut(pair.phylum) {
                of.push(place)?;
            }
            self.all.push(pair)?;
        }
        Ok(())
    }

    // Relates the vertices of an occurrence by the first so many pairs.
    fn spread(&self, relation: &mut Relation, spot: Spot, known: usize) {
        let Some(of) = self.of.get(spot.phylum) else {
            return;
        };
        for place in of {
            match self.all.get(*place) {
                Some(pair) if *place < known => relate(
                    relation,
                    spot.first.saturating_add(pair.from),
                    spot.first.saturating_add(pair.to),
                ),
                _ => return,
            }
        }
    }

    /// The place of the pair that relates two attributes, among the first so many.
    pub fn place_of(&self, phylum: usize, from: usize, to: usize, known: usize) -> Option<usize> {
        for place in self.of.get(phylum)? {
            let pair = self.all.get(*place)?;
            if *place < known && pair.from == from && pair.to == to {
                return Some(*place);
            }
        }
        None
    }
}

/// The relation of an operator by its equations and the first so many pairs.
pub fn joined(
    alloc: Global,
    scene: &Scene,
    graph: &Graph,
    pairs: &Pairs,
    op: usize,
    known: usize,
) -> Result<Relation, NoMemory> {
    match (graph.direct.get(op), scene.frames.get(op)) {
        (Some(direct), Some(frame)) => {
            let mut relation = direct.copy(alloc)?;
            for spot in frame.spots.as_slice() {
                pairs.spread(&mut relation, *spot, known);
            }
            Ok(relation)
        }
        _ => Err(NoMemory),
    }
}

// Adds the pairs that an operator relates at an occurrence.
fn gather(
    pairs: &mut Pairs,
    closed: &Relation,
    spot: Spot,
    op: usize,
    at: usize,
    known: usize,
) -> Result<(), NoMemory> {
    for from in 0..spot.attrs {
        for to in 0..spot.attrs {
            if closed.holds(
                spot.first.saturating_add(from),
                spot.first.saturating_add(to),
            ) {
                pairs.add(Pair {
                    phylum: spot.phylum,
                    from,
                    to,
                    op,
                    at,
                    known,
                })?;
            }
        }
    }
    Ok(())
}

// Adds the pairs that an operator relates by those that are known.
fn settle(
    alloc: Global,
    scene: &Scene,
    graph: &Graph,
    op: usize,
    frame: &Frame,
    pairs: &mut Pairs,
) -> Result<(), NoMemory> {
    let known = pairs.all.len();
    let mut closed = joined(alloc, scene, graph, pairs, op, known)?;
    closed.close();
    for (at, spot) in frame.spots.as_slice().iter().enumerate() {
        gather(pairs, &closed, *spot, op, at, known)?;
    }
    Ok(())
}

fn has_one(spots: &[Spot], phyla: &BitSet) -> bool {
    spots.iter().any(|spot| phyla.contains(spot.phylum))
}

// Lets each operator wait that has a phylum of these pairs.
fn call(
    alloc: Global,
    scene: &Scene,
    gained: &[Pair],
    waiting: &mut [bool],
) -> Result<(), NoMemory> {
    let mut phyla = BitSet::new(alloc, scene.rules.phyla.len())?;
    for pair in gained {
        if pair.phylum < phyla.width() {
            phyla.insert(pair.phylum);
        }
    }
    for (op, frame) in scene.frames.iter().enumerate() {
        if op < waiting.len() && has_one(frame.spots.as_slice(), &phyla) {
            waiting[op] = true;
        }
    }
    Ok(())
}

// Adds what each operator that waits relates, and returns whether one waited.
fn round(
    alloc: Global,
    scene: &Scene,
    graph: &Graph,
    pairs: &mut Pairs,
    waiting: &mut [bool],
) -> Result<bool, NoMemory> {
    let mut any = false;
    for (op, frame) in scene.frames.iter().enumerate() {
        if op < waiting.len() && waiting[op] {
            any = true;
            waiting[op] = false;
            let known = pairs.all.len();
            settle(alloc, scene, graph, op, frame, pairs)?;
            if known < pairs.all.len() {
                let (_, gained) = pairs.all.as_slice().split_at(known);
                call(alloc, scene, gained, waiting)?;
            }
        }
    }
    Ok(any)
}

/// The pairs of all phyla.
pub fn all_pairs(alloc: Global, scene: &Scene, graph: &Graph) -> Result<Pairs, NoMemory> {
    let mut pairs = Pairs::none(alloc, scene.rules)?;
    let mut waiting = vec![in alloc; true; scene.frames.len()]?;
    for _round in 0..u64::MAX {
        if !round(alloc, scene, graph, &mut pairs, waiting.as_mut_slice())? {
            break;
        }
    }
    Ok(pairs)
}
