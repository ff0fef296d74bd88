//! Steps of the history whose trees hang in the forest.
ghost use Rattle.std.specs.Prelude.{◌≡◌, ◌≤◌, ◌≢◌, ◌+◌, ◌∷◌, [], List, take, length, option_copied, slice_get};
ghost use Rattle.sg_forest.specs.Trees.{IsRoot};
ghost use Rattle.sg_forest.specs.declared.node_id.NodeId.{NodeId as Id};
ghost use Rattle.sg_groves.specs.Grove.{nodes};
ghost use Rattle.sg_changes.specs.Changes.{chosen};
ghost use Rattle.sg_changes.specs.StepChanges.{hanging, hung, tops, tops_of};
ghost use Rattle.sg_changes.specs.declared.step.Step.{Step as IsStep};
ghost use Rattle.sg_exchanges.specs.Roots.{times, Drops};

use sg_changes::{Direction, Step};
use sg_forest::NodeId;
use sg_terms::Terms;
use sg_undo::History;

// drops the tree that hangs for a step
fn forget(terms: &mut Terms, step: &Step)
    requires { (n : Id) → times n (hanging step.now) ≢ 0 → IsRoot (nodes terms.old) n }
    ensures { Drops terms.old terms.new (hanging step.now) }
{
    terms.facts();
    match step.hanging() {
        Some(top) => terms.drop_tree(top),
        None => {}
    }
}

// drops the future with its trees
fn forget_future(terms: &mut Terms, history: &mut History<Step>)
    requires roots { (n : Id) → times n (tops_of history.old.future) ≢ 0 → IsRoot (nodes terms.old) n }
    requires once { (n : Id) → times n (tops_of history.old.future) ≤ 1 }
    ensures dropped { Drops terms.old terms.new (tops_of history.old.future) }
    ensures history { history.new ≡ record history.old { future = [] } }
{
    while let Some(step) = history.drop_forth() {
        forget(terms, &step);
    }
}

/// Makes a step the newest of the past, which keeps as many as its room, and drops the trees of the future and of the
/// step that falls off.
pub fn remember(terms: &mut Terms, history: &mut History<Step>, step: Step)
    requires roots { (n : Id) → times n (tops (step ∷ history.old.past) history.old.future) ≢ 0
        → IsRoot (nodes terms.old) n }
    requires once { (n : Id) → times n (tops (step ∷ history.old.past) history.old.future) ≤ 1 }
    requires room { length history.old.past ≤ history.old.room }
    ensures past { history.new.past ≡ take history.old.room (step ∷ history.old.past) }
    ensures future { history.new.future ≡ [] }
    ensures room { history.new.room ≡ history.old.room }
    ensures dropped { (gone : List Id) × Drops terms.old terms.new gone × ((n : Id) → times n (tops_of history.new.past)
        + times n gone ≡ times n (tops (step ∷ history.old.past) history.old.future)) }
{
    forget_future(terms, history);
    match history.push(step) {
        Some(oldest) => forget(terms, &oldest),
        None => {}
    }
}

// the newest past step goes to the future, with another top hanging
fn put_forth(history: &mut History<Step>, top: NodeId)
    requires { length history.old.past + length history.old.future ≤ history.old.room }
    ensures { (s : IsStep) (rest : List IsStep) → history.old.past ≡ s ∷ rest → history.new
        ≡ record history.old { past = rest; future = hung s top ∷ history.old.future } }
{
    if let Some(step) = history.take_back() {
        history.put_forth(step.hung(top));
    }
}

// the next future step goes to the past, with another top hanging
fn put_back(history: &mut History<Step>, top: NodeId)
    requires { length history.old.past + length history.old.future ≤ history.old.room }
    ensures { (s : IsStep) (rest : List IsStep) → history.old.future ≡ s ∷ rest → history.new
        ≡ record history.old { past = hung s top ∷ history.old.past; future = rest } }
{
    if let Some(step) = history.drop_forth() {
        history.put_back(step.hung(top));
    }
}

/// The nearest step that way: the newest one of the past, or the next one of the future.
pub fn next_along(history: &History<Step>, direction: Direction) -> Option<&Step>
    ensures { option_copied result ≡ slice_get (chosen direction history.now.past history.now.future) 0 }
{
    match direction {
        Direction::Back => history.peek_back(),
        Direction::Forth => history.peek_forth(),
    }
}

/// The nearest step that way goes to the other side, with another top hanging. There is one, and no more steps than the
/// room.
pub fn put_over(history: &mut History<Step>, direction: Direction, top: NodeId)
    requires { length history.old.past + length history.old.future ≤ history.old.room }
    ensures { (s : IsStep) (rest : List IsStep) → chosen direction history.old.past history.old.future ≡ s ∷ rest
        → history.new ≡ record history.old {
          past = chosen direction rest (hung s top ∷ history.old.past);
          future = chosen direction (hung s top ∷ history.old.future) rest;
        } }
{
    match direction {
        Direction::Back => put_forth(history, top),
        Direction::Forth => put_back(history, top),
    }
}
