// Choices.
ghost use Rattle.std.specs.Prelude.{◌≡◌, ◌∷◌, if◌then◌else◌, IfOk};
ghost use Rattle.sg_kinds.specs.Places.{Place, place_of};
ghost use Rattle.sg_kinds.specs.Terms.{Term as IsTerm};
ghost use Rattle.sg_forest.specs.Trees.{IsLive};
ghost use Rattle.sg_groves.specs.Grove.{nodes};
ghost use Rattle.sg_groves.specs.Holds.{IsPlaced};
ghost use Rattle.sg_edits.specs.Choice.{choice_of, Put};

use sg_forest::NodeId;
use sg_kinds::memory::NoMemory;
use sg_kinds::row::{Path, Row};
use sg_kinds::term::Term;
use sg_script::Message;
use sg_select::path_of;
use sg_terms::Terms;
use std::alloc::Global;

/// What an editing command makes of a term: it is refused, or one term is to stand in a place.
#[derive(Drop)]
pub enum Choice {
    Refused(Message),
    /// the path of the place, the term that is to stand there, and the path of the node that is selected then, with how
    /// many elements of its list from there on, or 1
    Put {
        at: Path,
        term: Term,
        select: Path,
        count: usize,
    },
}

// a path, or that of the first child there
fn path_below(path: Path, first: bool) -> Result<Path, NoMemory>
    ensures { IfOk result (λ below. place_of below ≡ (if first then 0 ∷ place_of path else place_of path)) }
{
    if !first {
        return Ok(path);
    }
    let mut way = path.into_vec();
    way.push(0)?;
    Ok(Row::new(way))
}

/// A term in the place of a node; selected is a node, or its first child, with a count.
pub fn put(
    alloc: Global,
    terms: &Terms,
    at: NodeId,
    term: Term,
    select: NodeId,
    first: bool,
    count: usize,
) -> Result<Choice, NoMemory>
    requires at { IsLive (nodes terms.now) at }
    requires select { IsLive (nodes terms.now) select }
    ensures { IfOk result (λ c. (root : _) (t : IsTerm) (u v : Place) → IsPlaced terms.now root t u at
        → IsPlaced terms.now root t v select → choice_of c
        ≡ Put u term (record { place = if first then 0 ∷ v else v; count = count })) }
{
    let place = path_of(alloc, terms, at)?;
    let path = if at == select {
        place.copy(alloc)?
    } else {
        path_of(alloc, terms, select)?
    };
    let select = path_below(path, first)?;
    Ok(Choice::Put {
        at: place,
        term,
        select,
        count,
    })
}
