//! Changes of a buffer's term, and the ways back and forth.
ghost use Rattle.std.specs.Prelude.{◌≡◌, ◌≢◌, ◌<◌, ℕ, [], true, false, IfOk, IsErrOf, IsErrAnd, OnErr, MatchOption, None, Some};
ghost use Rattle.sg_kinds.specs.Fits.{Fits};
ghost use Rattle.sg_kinds.specs.Places.{place_of, put, sub};
ghost use Rattle.sg_kinds.specs.Sound.{IsSmall};
ghost use Rattle.sg_kinds.specs.Terms.{Term as IsTerm, nodes_of};
ghost use Rattle.sg_eval.specs.Journal.{now_of, total_of};
ghost use Rattle.sg_forest.specs.Trees.{Climbs, IsRoot};
ghost use Rattle.sg_groves.specs.Evaluated.{IsEvaluated};
ghost use Rattle.sg_groves.specs.Grove.{nodes};
ghost use Rattle.sg_terms.specs.Entries.{GainedAll};
ghost use Rattle.sg_build.specs.Counted.{AreCounts};
ghost use Rattle.sg_states.specs.Paged.{IsLook, IsWhole};
ghost use Rattle.sg_states.specs.Seen.{settled_spot};
ghost use Rattle.sg_states.specs.States.{ahead, marked, replaced, viewed};
ghost use Rattle.sg_exchanges.specs.Noted.{NotedPut};
ghost use Rattle.sg_buffer.specs.AsBefore.{IsAsBefore};
ghost use Rattle.sg_buffer.specs.Gains.{NotedAlong, OfFirst, Went};
ghost use Rattle.sg_buffer.specs.Held.{state_of};

use crate::buffers::Buffer;
use crate::fault::BufferFault;
use crate::standing::Standing;
use sg_build::{Counts, counts, counts_replaced};
use sg_changes::{Direction, Selection, Step};
use sg_eval::Journal;
use sg_exchanges::{
    next_along, node_at, put_over, put_term, remarked, remember, spot_at, step_along, turned_marks,
};
use sg_forest::NodeId;
use sg_kinds::memory::NoMemory;
use sg_kinds::row::Path;
use sg_kinds::term::Term;
use sg_states::{Look, Mark, look_at};
use sg_terms::Terms;
use std::alloc::Global;

// shows the term that a root holds in a view, with this to be selected, settled there; without memory the view stays
fn look_in(
    alloc: Global,
    terms: &mut Terms,
    root: NodeId,
    v: u32,
    select: &Selection,
    height: usize,
    top: usize,
) -> Result<Look, NoMemory>
    requires root { IsRoot (nodes terms.old) root }
    requires tall { 0 < height }
    ensures look { (t : IsTerm) → IsWhole terms.new root t → IfOk result (IsLook terms.new root t
        (settled_spot terms.new.spec height terms.new.view t select.now top)) }
    ensures shown { IfOk result (λ _. terms.new ≡ record terms.old { view = v }) }
    ensures err { OnErr result (terms.new ≡ terms.old) }
{
    let was = terms.view();
    terms.set_view(v);
    match look_at(alloc, terms, root, select, height, top) {
        Ok(look) => Ok(look),
        Err(e) => {
            terms.set_view(was);
            Err(e)
        }
    }
}

impl Buffer {
    /// Turns a mark of the selected node: its scheme number is the next one, after the last the first, or its elided
    /// mark is turned over. One node is selected, and no text is being typed. False exactly where there is nothing to
    /// turn: at a leaf, and for another scheme where the operator has only one; nothing changes then, and nothing but
    /// the pool without memory.
    pub fn toggle(&mut self, mark: Mark) -> Result<bool, NoMemory>
        requires none { self.old.capture ≡ None }
        requires alone { self.old.count ≡ 1 }
        ensures told { IfOk result (λ r. MatchOption (marked self.old.grove.spec self.old.height mark
            (state_of self.old)) ((r ≡ false) × (self.new ≡ self.old))
            (λ st. (r ≡ true) × (state_of self.new ≡ st))) }
        ensures spec { self.new.grove.spec ≡ self.old.grove.spec }
        ensures height { self.new.height ≡ self.old.height }
        ensures err { OnErr result (IsAsBefore self.old self.new) }
    {
        let Some(marks) = turned_marks(&self.terms, self.selected, mark) else {
            return Ok(false);
        };
        let before = spot_at(
            self.alloc,
            &self.standing.way,
            self.count,
            self.top,
            self.terms.view(),
        )?;
        let path = before.selection.path.copy(self.alloc)?;
        let turned = remarked(
            self.alloc,
            &mut self.terms,
            self.root,
            self.selected,
            marks.new,
            &before.selection,
            self.height,
            self.top,
        )?;
        self.terms.facts();
        self.root = turned.root;
        let seen = turned.look;
        self.selected = seen.selected;
        self.count = seen.spot.selection.count;
        self.top = seen.spot.top;
        self.page = seen.page;
        self.standing = Standing {
            way: seen.way,
            begins: seen.begins,
        };
        let step = Step::marked(path, marks.old, marks.new, before, seen.spot);
        remember(&mut self.terms, &mut self.history, step);
        self.terms.facts();
        Ok(true)
    }

    /// Puts a term in the place of the subterm at a path of the term, whose phylum it fits, and selects what is given,
    /// settled. `Size` says exactly that the whole term would be over a limit, with its counts; nothing changes then,
    /// and nothing is evaluated. Without memory nothing changes but the pool, and some of the equations may be
    /// evaluated.
    pub fn replace(
        &mut self,
        at: &Path,
        t: &Term,
        select: &Selection,
        journal: &mut Journal,
    ) -> Result<(), BufferFault>
        requires fits { (x : IsTerm) × (p : ℕ) × (sub (state_of self.old).term (place_of at.now) ≡ Some x)
            × Fits self.old.grove.spec x p × Fits self.old.grove.spec t.now p }
        ensures state { IfOk result (λ _. state_of self.new ≡ replaced self.old.grove.spec self.old.height
            (place_of at.now) t.now select.now (state_of self.old)) }
        ensures evaluated { IfOk result (λ _. GainedAll self.new.grove self.new.root
            (put (state_of self.old).term (place_of at.now) t.now)
            (IsEvaluated self.old.grove.spec (state_of self.old).term (place_of at.now) t.now)
            (now_of journal.old) (now_of journal.new)) }
        ensures size { (c : Counts) → IsErrOf result (BufferFault.Size c)
            → (IsSmall (put (state_of self.old).term (place_of at.now) t.now) → ⊥)
            × AreCounts (put (state_of self.old).term (place_of at.now) t.now) c }
        ensures large { (IsSmall (put (state_of self.old).term (place_of at.now) t.now) → ⊥)
            → IsErrAnd result (λ e. (c : Counts) × (e ≡ BufferFault.Size c)) }
        ensures refused { (c : Counts) → IsErrOf result (BufferFault.Size c)
            → (self.new ≡ self.old) × (now_of journal.new ≡ now_of journal.old) }
        ensures as_before { IsErrOf result BufferFault.NoMemory → IsAsBefore self.old self.new }
        ensures noted { IsErrOf result BufferFault.NoMemory → NotedPut self.old.grove self.old.root None
            (state_of self.old).term (place_of at.now) t.now (now_of journal.old) (now_of journal.new) }
        ensures spec { self.new.grove.spec ≡ self.old.grove.spec }
        ensures height { self.new.height ≡ self.old.height }
        ensures total { total_of journal.new ≡ total_of journal.old }
    {
        let way = &self.standing.way;
        let n = node_at(&self.terms, self.root, at, self.selected, way);
        match counts_replaced(&self.terms, n, at.len(), self.nodes, &counts(t)) {
            Ok(nodes) => Ok(self.put_in(at, n, t, nodes, select, journal)?),
            Err(size) => Err(BufferFault::Size(size)),
        }
    }

    // puts a term in the place of a node, where the whole term is in the limits and has so many nodes
    fn put_in(
        &mut self,
        at: &Path,
        n: NodeId,
        t: &Term,
        known: usize,
        select: &Selection,
        journal: &mut Journal,
    ) -> Result<(), NoMemory>
        requires fits { (x : IsTerm) × (p : ℕ) × (sub (state_of self.old).term (place_of at.now) ≡ Some x)
            × Fits self.old.grove.spec x p × Fits self.old.grove.spec t.now p }
        requires there { Climbs (nodes self.old.grove) (place_of at.now) n self.old.root }
        requires small { IsSmall (put (state_of self.old).term (place_of at.now) t.now) }
        requires known { known ≡ nodes_of (put (state_of self.old).term (place_of at.now) t.now) }
        ensures state { IfOk result (λ _. state_of self.new ≡ replaced self.old.grove.spec self.old.height
            (place_of at.now) t.now select.now (state_of self.old)) }
        ensures evaluated { IfOk result (λ _. GainedAll self.new.grove self.new.root
            (put (state_of self.old).term (place_of at.now) t.now)
            (IsEvaluated self.old.grove.spec (state_of self.old).term (place_of at.now) t.now)
            (now_of journal.old) (now_of journal.new)) }
        ensures as_before { OnErr result (IsAsBefore self.old self.new) }
        ensures noted { OnErr result (NotedPut self.old.grove self.old.root None
            (state_of self.old).term (place_of at.now) t.now (now_of journal.old) (now_of journal.new)) }
        ensures spec { self.new.grove.spec ≡ self.old.grove.spec }
        ensures height { self.new.height ≡ self.old.height }
        ensures total { total_of journal.new ≡ total_of journal.old }
    {
        let before = spot_at(
            self.alloc,
            &self.standing.way,
            self.count,
            self.top,
            self.terms.view(),
        )?;
        let path = at.copy(self.alloc)?;
        let begins = self.beginning();
        self.attribution.facts();
        let placed = put_term(
            self.alloc,
            &mut self.terms,
            self.root,
            n,
            at,
            t,
            select,
            self.height,
            self.top,
            begins,
            self.attribution.plans(),
            self.attribution.evaluator(),
            journal,
        )?;
        self.terms.facts();
        self.root = placed.root;
        let look = placed.look;
        self.selected = look.selected;
        self.count = look.spot.selection.count;
        self.top = look.spot.top;
        self.page = look.page;
        self.standing = Standing {
            way: look.way,
            begins: look.begins,
        };
        let change = Step::replaced(path, n, before, look.spot);
        remember(&mut self.terms, &mut self.history, change);
        self.terms.facts();
        self.nodes = known;
        self.capture = None;
        Ok(())
    }

    // goes along the nearest change that way
    fn go_along(&mut self, direction: Direction, journal: &mut Journal) -> Result<bool, NoMemory>
        requires none { self.old.capture ≡ None }
        ensures went { IfOk result (Went direction self.old self.new (now_of journal.old) (now_of journal.new)) }
        ensures as_before { OnErr result (IsAsBefore self.old self.new) }
        ensures noted { OnErr result (OfFirst (ahead direction (state_of self.old)) (NotedAlong direction
            self.old.grove self.old.root (state_of self.old).term (now_of journal.old) (now_of journal.new))) }
        ensures some { OnErr result (ahead direction (state_of self.old) ≢ []) }
        ensures spec { self.new.grove.spec ≡ self.old.grove.spec }
        ensures height { self.new.height ≡ self.old.height }
        ensures total { total_of journal.new ≡ total_of journal.old }
    {
        let Some(step) = next_along(&self.history, direction) else {
            return Ok(false);
        };
        self.attribution.facts();
        let went = step_along(
            self.alloc,
            &mut self.terms,
            self.root,
            direction,
            step,
            self.height,
            self.nodes,
            self.selected,
            &self.standing.way,
            self.attribution.plans(),
            self.attribution.evaluator(),
            journal,
        )?;
        self.terms.facts();
        put_over(&mut self.history, direction, went.out);
        self.nodes = went.nodes;
        self.root = went.root;
        self.selected = went.selected;
        self.count = went.count;
        self.top = went.top;
        self.page = went.page;
        self.standing = Standing {
            way: went.way,
            begins: went.begins,
        };
        Ok(true)
    }

    /// Shows the term in a view, counted from 1; 0 is the ordinary one. The selection is settled there, and the
    /// window's top follows it. No text is being typed. Term, values and history stay. Without memory nothing changes.
    pub fn view(&mut self, v: u32) -> Result<(), NoMemory>
        requires { self.old.capture ≡ None }
        ensures state { IfOk result (λ _. state_of self.new
            ≡ viewed self.old.grove.spec self.old.height v (state_of self.old)) }
        ensures kept { IfOk result (λ _. self.new ≡ record self.old {
          grove = record self.old.grove { view = v };
          selected = self.new.selected;
          count = self.new.count;
          top = self.new.top;
        }) }
        ensures err { OnErr result (self.new ≡ self.old) }
    {
        let path = self.standing.way.copy(self.alloc)?;
        let select = Selection {
            path,
            count: self.count,
        };
        let there = look_in(
            self.alloc,
            &mut self.terms,
            self.root,
            v,
            &select,
            self.height,
            self.top,
        )?;
        self.selected = there.selected;
        self.count = there.spot.selection.count;
        self.top = there.spot.top;
        self.page = there.page;
        self.standing = Standing {
            way: there.way,
            begins: there.begins,
        };
        Ok(())
    }

    /// Undoes the newest change: the old subterm or marks, the selection and the window's first line are back, settled
    /// in the present view. No text is being typed. False exactly where there is no change to undo, and nothing
    /// changes then. Without memory nothing changes but the pool, and some of the equations may be evaluated.
    pub fn undo(&mut self, journal: &mut Journal) -> Result<bool, NoMemory>
        requires none { self.old.capture ≡ None }
        ensures went { IfOk result (Went Direction.Back self.old self.new (now_of journal.old) (now_of journal.new)) }
        ensures as_before { OnErr result (IsAsBefore self.old self.new) }
        ensures noted { OnErr result (OfFirst (state_of self.old).past (NotedAlong Direction.Back self.old.grove
            self.old.root (state_of self.old).term (now_of journal.old) (now_of journal.new))) }
        ensures some { OnErr result ((state_of self.old).past ≢ []) }
        ensures spec { self.new.grove.spec ≡ self.old.grove.spec }
        ensures height { self.new.height ≡ self.old.height }
        ensures total { total_of journal.new ≡ total_of journal.old }
    {
        self.go_along(Direction::Back, journal)
    }

    /// Does the next change of the future again: its new subterm or marks, the selection and the window's first line
    /// after it are back, settled in the present view. No text is being typed. False exactly where there is no change
    /// to do again, and nothing changes then. Without memory nothing changes but the pool, and some of the equations
    /// may be evaluated.
    pub fn redo(&mut self, journal: &mut Journal) -> Result<bool, NoMemory>
        requires none { self.old.capture ≡ None }
        ensures went { IfOk result (Went Direction.Forth self.old self.new (now_of journal.old) (now_of journal.new)) }
        ensures as_before { OnErr result (IsAsBefore self.old self.new) }
        ensures noted { OnErr result (OfFirst (state_of self.old).future (NotedAlong Direction.Forth self.old.grove
            self.old.root (state_of self.old).term (now_of journal.old) (now_of journal.new))) }
        ensures some { OnErr result ((state_of self.old).future ≢ []) }
        ensures spec { self.new.grove.spec ≡ self.old.grove.spec }
        ensures height { self.new.height ≡ self.old.height }
        ensures total { total_of journal.new ≡ total_of journal.old }
    {
        self.go_along(Direction::Forth, journal)
    }
}
