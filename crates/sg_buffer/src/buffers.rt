//! Buffers.
ghost use Rattle.std.specs.Prelude.{◌≡◌, ◌<◌, ◌≤◌, ◌↔◌, true, false, length, Contains, IfOk, IfSome, IsErrOf, IsErrAnd, OnErr, IsTrue, MatchOption, ⊤, None, Some, Option, option_map};
ghost use Rattle.sg_kinds.specs.Values.{is_text};
ghost use Rattle.sg_kinds.specs.Fits.{Fits};
ghost use Rattle.sg_kinds.specs.Instances.{instances};
ghost use Rattle.sg_kinds.specs.Places.{Place};
ghost use Rattle.sg_kinds.specs.Sound.{IsSmall, IsSound};
ghost use Rattle.sg_kinds.specs.Specification.{rules_of};
ghost use Rattle.sg_kinds.specs.Terms.{nodes_of};
ghost use Rattle.sg_eval.specs.Journal.{now_of, total_of};
ghost use Rattle.sg_forest.specs.Trees.{Climbs, IsInside};
ghost use Rattle.sg_groves.specs.Grove.{nodes};
ghost use Rattle.sg_terms.specs.Entries.{GainedAll};
ghost use Rattle.sg_build.specs.Counted.{AreCounts};
ghost use Rattle.sg_select.specs.RestingPlaces.{settled};
ghost use Rattle.sg_states.specs.States as states;
ghost use Rattle.sg_states.specs.States.{begun, selected_place, shown_spec, moved, picked, extension};
ghost use Rattle.sg_buffer.specs.Held.{shown, state_of};
ghost use Rattle.sg_buffer.specs.Buffers.{StandsFor};
ghost use Rattle.sg_exchanges.specs.Known.{IsKnown};
ghost use Rattle.sg_exchanges.specs.Noted.{Noted};

use crate::attribution::Attribution;
use crate::fault::BufferFault;
use crate::standing::Standing;
use crate::typing::{erase, typed};
use sg_build::Counts;
use sg_changes::{Capture, Step};
use sg_eval::Journal;
use sg_exchanges::{Known, begin, within};
use sg_forest::NodeId;
use sg_kinds::limits::STEPS;
use sg_kinds::memory::NoMemory;
use sg_kinds::row::Path;
use sg_kinds::term::Term;
use sg_select::{at_cell, elements_from, path_of, settle, spine_of};
use sg_states::{Extended, Move, begins_here, page_of, page_with, target, top_at};
use sg_terms::Terms;
use sg_undo::History;
use sg_unparse::Page;
use std::alloc::Global;
use std::marker::Model;
use std::rc::Rc;

/// A term in a forest, with its values and what computes them, which buffers share: a selection of it, the first line
/// that a window shows, the changes that can be undone and done again, whose other subtrees hang in the forest, and a
/// text that is being typed. The page that shows it is made where it is wanted, and kept as long as it is right; so is
/// where the selected node begins, which saves the page at a replacement. The path of the selected node is kept always,
/// and saves the way from the root.
///
/// Each call takes its state to that of one definition, or leaves everything as it was.
#[derive(Drop)]
pub struct Buffer {
    pub(crate) alloc: Global,
    pub(crate) attribution: Rc<Attribution>,
    pub(crate) terms: Terms,
    pub(crate) root: NodeId,
    pub(crate) selected: NodeId,
    pub(crate) count: usize,
    pub(crate) top: usize,
    pub(crate) height: usize,
    pub(crate) nodes: usize,
    pub(crate) history: History<Step>,
    pub(crate) capture: Option<Capture>,
    pub(crate) page: Option<Page>,
    pub(crate) standing: Standing,
}

impl Model for Buffer {
    ghost use Rattle.std.specs.Prelude.{◌≡◌};
    ghost use Rattle.sg_buffer.specs.Held.{Held, held_code};

    ghost Value = { Held };

    ghost coded = { held_code };

    ghost use Rattle.sg_buffer.specs.Buffers.{IsBuffer};

    ghost view = { λ b. record {
      grove = b.terms;
      root = b.root;
      selected = b.selected;
      count = b.count;
      top = b.top;
      height = b.height;
      past = b.history.past;
      future = b.history.future;
      capture = b.capture;
    } };

    ghost invariant = { λ b. IsBuffer (record {
      grove = b.terms;
      root = b.root;
      selected = b.selected;
      count = b.count;
      top = b.top;
      height = b.height;
      past = b.history.past;
      future = b.history.future;
      capture = b.capture;
    }) b.nodes b.history.room b.page b.standing × (b.attribution.value.spec ≡ b.terms.spec) };
}

impl Buffer {
    /// A buffer of a term of the root's phylum of this specification, whose root is selected, with a window of a height
    /// from 1 to 1,024. `Size` says exactly that the term is over a limit, and nothing is evaluated then; without memory
    /// some of the equations may be.
    pub fn new(
        alloc: Global,
        attribution: &Rc<Attribution>,
        t: &Term,
        height: usize,
        journal: &mut Journal,
    ) -> Result<Buffer, BufferFault>
        requires fits { Fits attribution.now.value.spec t.now attribution.now.value.spec.root }
        requires low { 1 ≤ height }
        requires high { height ≤ 1024 }
        ensures state { IfOk result (λ b. state_of b ≡ begun t.now) }
        ensures spec { IfOk result (λ b. b.grove.spec ≡ attribution.now.value.spec) }
        ensures height { IfOk result (λ b. b.height ≡ height) }
        ensures evaluated { IfOk result (λ b. GainedAll b.grove b.root t.now
            (Contains (instances (rules_of attribution.now.value.spec) t.now))
            (now_of journal.old) (now_of journal.new)) }
        ensures size { (c : Counts) → IsErrOf result (BufferFault.Size c) → (IsSmall t.now → ⊥) × AreCounts t.now c }
        ensures large { (IsSmall t.now → ⊥) → IsErrAnd result (λ e. (c : Counts) × (e ≡ BufferFault.Size c)) }
        ensures kept { (c : Counts) → IsErrOf result (BufferFault.Size c) → now_of journal.new ≡ now_of journal.old }
        ensures noted { IsErrOf result BufferFault.NoMemory → Noted attribution.now.value.spec t.now
            (Contains (instances (rules_of attribution.now.value.spec) t.now))
            (now_of journal.old) (now_of journal.new) }
        ensures total { total_of journal.new ≡ total_of journal.old }
    {
        let nodes = match within(t) {
            Ok(nodes) => nodes,
            Err(size) => return Err(BufferFault::Size(size)),
        };
        let attribution = attribution.clone()?;
        attribution.facts();
        let plans = attribution.plans();
        let evaluator = attribution.evaluator();
        match begin(alloc, evaluator.spec(), t, STEPS, plans, evaluator, journal) {
            Ok(fresh) => Ok(Buffer {
                alloc,
                attribution,
                terms: fresh.terms,
                root: fresh.root,
                selected: fresh.root,
                count: 1,
                top: 1,
                height,
                nodes,
                history: fresh.history,
                capture: None,
                page: None,
                standing: Standing::at_root(alloc),
            }),
            Err(_) => Err(BufferFault::NoMemory),
        }
    }

    /// What stands for the state. This does nothing and tells it.
    pub fn facts(&self)
        ensures { StandsFor self.now (state_of self.now) }
    {
        let _ = &self.root;
    }

    /// The specification is sound. This does nothing and tells it.
    pub fn sound(&self)
        ensures { IsSound self.now.grove.spec }
    {
        self.attribution.facts();
    }

    /// The plans and the evaluator of the term's specification.
    pub fn attribution(&self) -> &Attribution
        ensures { result.now.spec ≡ self.now.grove.spec }
    {
        &self.attribution
    }

    /// The terms, among them the edited one; the others hang for the history.
    pub fn terms(&self) -> &Terms
        ensures { result.now ≡ self.now.grove }
    {
        &self.terms
    }

    /// The root of the edited term.
    pub fn root(&self) -> NodeId
        ensures { result ≡ self.now.root }
    {
        self.root
    }

    /// The selected node, of a run its first element.
    pub fn selected(&self) -> NodeId
        ensures node { result ≡ self.now.selected }
        ensures place { Climbs (nodes self.now.grove) (selected_place (state_of self.now)) result self.now.root }
    {
        self.selected
    }

    /// How many elements are selected, from 1.
    pub fn count(&self) -> usize
        ensures { result ≡ (state_of self.now).spot.selection.count }
    {
        self.count
    }

    /// The first line of the window, from 1.
    pub fn top(&self) -> usize
        ensures { result ≡ (state_of self.now).spot.top }
    {
        self.top
    }

    /// How many nodes the term has.
    pub fn nodes(&self) -> usize
        ensures { result ≡ nodes_of (state_of self.now).term }
    {
        self.nodes
    }

    /// The text that is being typed, None exactly where none is.
    pub fn captured(&self) -> Option<&[u8]>
        ensures { MatchOption result (self.now.capture ≡ None)
            (λ s. option_map (λ c. c.text) self.now.capture ≡ Some s.now) }
    {
        match &self.capture {
            Some(capture) => Some(capture.text()),
            None => None,
        }
    }

    /// How many bytes of the text that is being typed stand before the point; 0 where none is.
    pub fn point(&self) -> usize
        ensures { MatchOption self.now.capture (result ≡ 0) (λ c. result ≡ c.point) }
    {
        match &self.capture {
            Some(capture) => capture.point(),
            None => 0,
        }
    }

    // makes the page that shows the term and what is being typed
    fn drawn(&self) -> Result<Page, NoMemory>
        ensures { IfOk result (λ page. page ≡ shown self.now) }
    {
        match &self.capture {
            Some(capture) => page_with(
                self.alloc,
                &self.terms,
                self.root,
                self.selected,
                capture.text(),
            ),
            None => page_of(self.alloc, &self.terms, self.root),
        }
    }

    /// Takes out the page that shows the term and what is being typed, made where none is kept.
    pub fn take_page(&mut self) -> Result<Page, NoMemory>
        ensures page { IfOk result (λ page. page ≡ shown self.old) }
        ensures same { self.new ≡ self.old }
    {
        match self.page.take() {
            Some(page) => Ok(page),
            None => self.drawn(),
        }
    }

    /// Keeps the page that was taken out.
    pub fn keep_page(&mut self, page: Page)
        requires { page ≡ shown self.old }
        ensures { self.new ≡ self.old }
    {
        self.page = Some(page);
    }

    /// Lets go of the page that is kept.
    pub fn forget_page(&mut self)
        ensures { self.new ≡ self.old }
    {
        self.page = None;
    }

    // what is known of the term where it is known where the selected node begins
    pub(crate) fn beginning(&self) -> Option<Known>
        ensures { IfSome result (IsKnown self.now.grove self.now.root) }
    {
        match self.standing.begins {
            Some(begins) => Some(Known {
                selected: self.selected,
                begins,
                count: self.nodes,
            }),
            None => None,
        }
    }

    /// The path of the selected node, of a run's first element.
    pub fn path(&self) -> &Path
        ensures { result.now ≡ (state_of self.now).spot.selection.path }
    {
        &self.standing.way
    }

    // selects a resting place; without memory nothing changes
    fn stand(&mut self, n: NodeId) -> Result<(), NoMemory>
        requires node { IsInside (nodes self.old.grove) n self.old.root }
        requires none { self.old.capture ≡ None }
        requires rests { (u : Place) → Climbs (nodes self.old.grove) u n self.old.root
            → settled (shown_spec self.old.grove.spec (state_of self.old)) (state_of self.old).term u ≡ u }
        ensures state { (u : Place) → Climbs (nodes self.old.grove) u n self.old.root → IfOk result (λ _.
            state_of self.new ≡ states.selected self.old.grove.spec self.old.height u (state_of self.old)) }
        ensures kept { IfOk result (λ _. self.new
            ≡ record self.old { selected = n; count = 1; top = self.new.top }) }
        ensures err { OnErr result (self.new ≡ self.old) }
    {
        let page = self.take_page()?;
        let way = path_of(self.alloc, &self.terms, n)?;
        self.top = top_at(&self.terms, &page, n, self.height, self.top);
        let begins = begins_here(&self.terms, &page, n);
        self.standing = Standing { way, begins };
        self.selected = n;
        self.count = 1;
        self.page = Some(page);
        Ok(())
    }

    /// Selects the nearest resting place at or above a node of the term. No text is being typed. Without memory nothing
    /// changes.
    pub fn select(&mut self, n: NodeId) -> Result<(), NoMemory>
        requires node { IsInside (nodes self.old.grove) n self.old.root }
        requires none { self.old.capture ≡ None }
        ensures state { (u : Place) → Climbs (nodes self.old.grove) u n self.old.root → IfOk result (λ _.
            state_of self.new ≡ states.selected self.old.grove.spec self.old.height
            (settled (shown_spec self.old.grove.spec (state_of self.old)) (state_of self.old).term u)
            (state_of self.old)) }
        ensures kept { IfOk result (λ _. self.new
            ≡ record self.old { selected = self.new.selected; count = 1; top = self.new.top }) }
        ensures err { OnErr result (self.new ≡ self.old) }
    {
        let to = settle(&self.terms, n);
        self.stand(to)
    }

    /// Selects the place to which a move leads, of a run from its first element; false exactly where it leads to none,
    /// and then nothing changes, nor without memory. No text is being typed.
    pub fn go(&mut self, to: Move) -> Result<bool, NoMemory>
        requires { self.old.capture ≡ None }
        ensures none { IfOk result (λ r. MatchOption (moved self.old.grove.spec self.old.height to
            (state_of self.old)) ((r ≡ false) × (self.new ≡ self.old))
            (λ st. (r ≡ true) × (state_of self.new ≡ st))) }
        ensures kept { self.new ≡ record self.old {
          selected = self.new.selected;
          count = self.new.count;
          top = self.new.top;
        } }
        ensures err { OnErr result (self.new ≡ self.old) }
    {
        match target(&self.terms, self.selected, to) {
            Some(n) => {
                self.stand(n)?;
                Ok(true)
            }
            None => Ok(false),
        }
    }

    /// Selects the nearest resting place at or above the node that owns a cell of the page, by line and column, each
    /// from 1; false exactly where there is no such cell, and then nothing changes, nor without memory. No text is being
    /// typed.
    pub fn pick(&mut self, line: usize, col: usize) -> Result<bool, NoMemory>
        requires { self.old.capture ≡ None }
        ensures none { IfOk result (λ r. MatchOption (picked self.old.grove.spec self.old.height line col
            (state_of self.old)) ((r ≡ false) × (self.new ≡ self.old))
            (λ st. (r ≡ true) × (state_of self.new ≡ st))) }
        ensures kept { self.new ≡ record self.old {
          selected = self.new.selected;
          count = self.new.count;
          top = self.new.top;
        } }
        ensures err { OnErr result (self.new ≡ self.old) }
    {
        let page = self.take_page()?;
        let at = at_cell(&self.terms, &page, line, col);
        self.keep_page(page);
        match at {
            Some(n) => {
                self.stand(n)?;
                Ok(true)
            }
            None => Ok(false),
        }
    }

    /// Selects one more element of the list. No text is being typed.
    pub fn extend(&mut self) -> Extended
        requires { self.old.capture ≡ None }
        ensures told { result ≡ extension self.old.grove.spec (state_of self.old) }
        ensures done { result ≡ Extended.Done → state_of self.new ≡ states.extended (state_of self.old) }
        ensures kept { self.new ≡ record self.old { count = self.new.count } }
        ensures refused { (result ≡ Extended.Done → ⊥) → self.new ≡ self.old }
    {
        let Some(spine) = spine_of(&self.terms, self.selected) else {
            return Extended::NotInList;
        };
        if elements_from(&self.terms, spine) <= self.count {
            return Extended::NoPlace;
        }
        self.count += 1;
        Extended::Done
    }

    /// Selects one element less; false exactly where one is selected, and then nothing changes. No text is being typed.
    pub fn shrink(&mut self) -> bool
        requires { self.old.capture ≡ None }
        ensures one { (result ≡ false) ↔ ((state_of self.old).spot.selection.count ≡ 1) }
        ensures done { result ≡ true → state_of self.new ≡ states.shrunk (state_of self.old) }
        ensures kept { self.new ≡ record self.old { count = self.new.count } }
        ensures refused { result ≡ false → self.new ≡ self.old }
    {
        if self.count == 1 {
            return false;
        }
        self.count -= 1;
        true
    }

    /// Puts bytes at the point of the text that is being typed, which begins empty at the selection where none is. The
    /// bytes are 10 or 32 to 126, and one node is selected. Without memory nothing changes.
    pub fn type_in(&mut self, bytes: &[u8]) -> Result<(), NoMemory>
        requires text { IsTrue (is_text bytes.now) }
        requires alone { self.old.count ≡ 1 }
        ensures typed { IfOk result (λ _. state_of self.new ≡ states.typed bytes.now (state_of self.old)) }
        ensures kept { self.new ≡ record self.old { capture = self.new.capture } }
        ensures err { OnErr result (self.new ≡ self.old) }
    {
        let capture = typed(self.alloc, &self.capture, bytes)?;
        self.capture = Some(capture);
        self.page = None;
        Ok(())
    }

    /// Takes away the byte before the point; false exactly where no text is being typed or no byte stands there, and
    /// then nothing changes. It takes no memory.
    pub fn erase(&mut self) -> bool
        ensures none { (result ≡ false) ↔ MatchOption self.old.capture ⊤ (λ c. c.point ≡ 0) }
        ensures done { result ≡ true → state_of self.new ≡ states.erased (state_of self.old) }
        ensures kept { self.new ≡ record self.old { capture = self.new.capture } }
        ensures refused { result ≡ false → self.new ≡ self.old }
    {
        if !erase(&mut self.capture) {
            return false;
        }
        self.page = None;
        true
    }

    /// Moves the point. A text is being typed, and is at least so long.
    pub fn move_point(&mut self, k: usize)
        requires { MatchOption self.old.capture ⊥ (λ c. k ≤ length c.text) }
        ensures state { state_of self.new ≡ states.pointed k (state_of self.old) }
        ensures kept { self.new ≡ record self.old { capture = self.new.capture } }
    {
        if let Some(capture) = &mut self.capture {
            capture.move_point(k);
        }
    }

    /// Ends the typing, if a text is being typed.
    pub fn end_capture(&mut self)
        ensures ended { state_of self.new ≡ states.ended (state_of self.old) }
        ensures kept { self.new ≡ record self.old { capture = self.new.capture } }
    {
        self.capture = None;
        self.page = None;
    }
}
