// What is printed of a session.
ghost use Rattle.std.specs.Prelude.{◌≡◌, ◌≤◌, List, ◌∷◌, None, Some, option_map, IfOk, MatchOption};
ghost use Rattle.sg_kinds.specs.Places.{Place};
ghost use Rattle.sg_kinds.specs.Terms.{Term};
ghost use Rattle.sg_forest.specs.Trees.{Climbs, IsLive};
ghost use Rattle.sg_groves.specs.Grove.{nodes};
ghost use Rattle.sg_groves.specs.Holds.{Holds};
ghost use Rattle.sg_unparse.specs.Cells.{Mark};
ghost use Rattle.sg_unparse.specs.Sheet.{as_region};
ghost use Rattle.sg_select.specs.Paths.{elements};
ghost use Rattle.sg_states.specs.States.{selected_place};
ghost use Rattle.sg_screen.specs.Block.{head_of};
ghost use Rattle.sg_buffer.specs.Held.{shown, state_of};
ghost use Rattle.sg_editor.specs.Editing.{IsKept, IsOver, session_in};
ghost use Rattle.sg_editor.specs.Screen.{header_of, last_region, region_of_run, run_from, screen, shown_in, view_shown, TellsRegions};

use crate::base::Base;
use crate::desk::{Desk, Named};
use sg_buffer::Buffer;
use sg_forest::NodeId;
use sg_kinds::memory::NoMemory;
use sg_kinds::row::item;
use sg_kinds::spec::Spec;
use sg_screen::{Head, bare, block};
use sg_script::Message;
use sg_select::spine_of;
use sg_terms::Terms;
use sg_unparse::{Page, Region};

/// The first position of a page.
const BEGIN: Region = Region {
    line: 1,
    col: 1,
    end_line: 1,
    end_col: 1,
};

// the region of the last of so many elements of a list that has one, from a list's node on
fn last_region(terms: &Terms, page: &Page, n: NodeId, count: usize) -> Option<Region>
    requires live { IsLive (nodes terms.now) n }
    requires long { (x : Term) → Holds terms.now n x → count ≤ elements terms.now.spec x }
    ensures { (root : _) (marks : List Mark) (p : Place) → TellsRegions terms.now root page.now marks
        → Climbs (nodes terms.now) p n root
        → option_map as_region result ≡ last_region marks (run_from count (0 ∷ p)) }
{
    terms.facts();
    if count == 0 {
        return None;
    }
    match last_region(terms, page, terms.kid(n, 1), count - 1) {
        Some(region) => Some(region),
        None => page.region(terms.kid(n, 0)),
    }
}

// the region of what is selected
fn selected_region(buffer: &Buffer, page: &Page) -> Region
    requires page { page.now ≡ shown buffer.now }
    ensures { as_region result ≡ region_of_run (shown_in buffer.now.grove.spec (state_of buffer.now))
        (selected_place (state_of buffer.now)) (state_of buffer.now).spot.selection.count }
{
    buffer.facts();
    let n = buffer.selected();
    let count = buffer.count();
    let first = page.region(n).unwrap_or(BEGIN);
    if count == 1 {
        return first;
    }
    let terms = buffer.terms();
    match spine_of(terms, n) {
        Some(spine) => {
            let last = last_region(terms, page, spine, count).unwrap_or(BEGIN);
            Region {
                line: first.line,
                col: first.col,
                end_line: last.end_line,
                end_col: last.end_col,
            }
        }
        None => first,
    }
}

// the name of a view, None of the ordinary one
fn view_shown(spec: &Spec, v: u32) -> Option<&[u8]>
    ensures { MatchOption result (view_shown spec.now v ≡ None) (λ name. view_shown spec.now v ≡ Some name.now) }
{
    let place = v.checked_sub(1)?;
    Some(spec.views.names.place(place)?.as_slice())
}

// what the header of a buffer tells, by its page
fn head<'a>(base: &'a Base, named: &'a Named, page: &Page, message: Message, ev: u64) -> Head<'a>
    requires over { IsOver base.now.contents.spec base.now.height named.now.buffer }
    requires page { page.now ≡ shown named.now.buffer }
    ensures { head_of result ≡ header_of base.now.contents.spec message ev named.now.name (state_of named.now.buffer) }
{
    let buffer = &named.buffer;
    buffer.facts();
    let spec = base.spec();
    let terms = buffer.terms();
    let phylum = terms.phylum(buffer.selected());
    Head {
        name: named.name.as_slice(),
        view: view_shown(spec, terms.view()),
        region: selected_region(buffer, page),
        phylum: item(spec.phyla.as_slice(), phylum.number as usize)
            .name
            .as_slice(),
        count: buffer.count(),
        top: buffer.top(),
        ev,
        message,
    }
}

impl Desk {
    /// What is printed: the block of the current buffer, or a line where there is none.
    pub fn screen(&mut self, base: &Base, message: Message, ev: u64) -> Result<Vec<u8>, NoMemory>
        requires { IsKept base.now.contents.spec base.now.height self.old }
        ensures printed { IfOk result (λ b. b.items ≡ screen base.now.contents.spec base.now.width base.now.height
            (session_in self.old) message ev) }
        ensures same { self.new ≡ self.old }
    {
        let Some(k) = self.current else {
            return bare(base.alloc(), message);
        };
        let named = &mut self.named[k];
        let page = named.buffer.take_page()?;
        let head = head(base, named, &page, message, ev);
        let printed = block(base.alloc(), &head, &page, base.width(), base.height());
        named.buffer.keep_page(page);
        printed
    }
}
