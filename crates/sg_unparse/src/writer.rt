// What is written of a page, cell by cell.
ghost use Rattle.std.specs.Prelude.{◌≡◌, ◌≤◌, ◌+◌, ◌-◌, [], ◌∷◌, min, length, OnOk, IfOk, IsTrue};
ghost use Rattle.sg_kinds.specs.Places.{Place};
ghost use Rattle.sg_forest.specs.declared.node_id.NodeId.{NodeId as Id};
ghost use Rattle.sg_unparse.specs.Cells.{Writing, as_they_are, ended, newline as a_newline, piece as a_piece, pieces as all_pieces, plain as plain_text};
ghost use Rattle.sg_unparse.specs.Written.{Owns, IsLastOf, HoldsMarks, Wrote, blanks_of};

use crate::page::{Run, Span};
use sg_forest::NodeId;
use sg_kinds::limits::CELLS;
use sg_kinds::memory::NoMemory;
use sg_kinds::spec::Piece;
use std::alloc::Global;

// blanks, written up to 64 at once
const BLANKS: [u8; 64] = [b' '; 64];

// for how many bytes, and for how many nodes, a page has room before it grows
const TEXT: usize = 8192;

const NODES: usize = 1024;

/// A page while it is written, and the margin in blanks.
#[derive(Drop)]
pub struct Writer {
    pub text: Vec<u8>,
    pub runs: Vec<Run>,
    pub spans: Vec<Span>,
    pub margin: usize,
    pub more: bool,
}

// whether the last run is of a node
fn is_last(runs: &[Run], owner: NodeId) -> bool
    ensures { IsTrue result → IsLastOf runs.now owner }
{
    match runs.last() {
        Some(run) => run.owner.key == owner.key,
        None => false,
    }
}

// lets a node own the cells from one on
fn own(runs: &mut Vec<Run>, from: u32, owner: NodeId) -> Result<(), NoMemory>
    ensures { OnOk result (Owns runs.old.items runs.new.items from owner) }
{
    if is_last(runs, owner) {
        return Ok(());
    }
    runs.push(Run { from, owner })?;
    Ok(())
}

impl Writer {
    /// Nothing is written, and the margin is 0. There is room for a page of some 250 lines.
    pub fn new(alloc: Global) -> Result<Writer, NoMemory>
        ensures { IfOk result (λ w. (at : Place → Id) → HoldsMarks at w [] 0) }
    {
        Ok(Writer {
            text: Vec::with_capacity(alloc, TEXT)?,
            runs: Vec::with_capacity(alloc, NODES)?,
            spans: Vec::with_capacity(alloc, NODES)?,
            margin: 0,
            more: false,
        })
    }

    /// How many cells there are.
    pub fn len(&self) -> u32
        ensures { result ≡ min (length self.now.text.items) 1048576 }
    {
        self.text.len().min(CELLS) as u32
    }

    /// Writes a byte that a node owns; where the page is full, notes that it is cut.
    #[inline(always)]
    pub fn put(&mut self, owner: NodeId, b: u8) -> Result<(), NoMemory>
        ensures { OnOk result ((at : Place → Id) (u : Place) → at u ≡ owner →
            Wrote at self.old self.new (as_they_are u (b ∷ []))) }
    {
        let at = self.text.len();
        if at >= CELLS {
            self.more = true;
            return Ok(());
        }
        own(&mut self.runs, at as u32, owner)?;
        self.text.push(b)?;
        Ok(())
    }

    // writes a text that the page has room for
    #[inline(always)]
    fn fill(&mut self, owner: NodeId, text: &[u8]) -> Result<(), NoMemory>
        requires { length text.now ≤ 1048576 - length self.old.text.items }
        ensures { OnOk result ((at : Place → Id) (u : Place) → at u ≡ owner →
            Wrote at self.old self.new (as_they_are u text.now)) }
    {
        if text.is_empty() {
            return Ok(());
        }
        let at = self.text.len() as u32;
        own(&mut self.runs, at, owner)?;
        self.text.extend_from_slice(text)?;
        Ok(())
    }

    // writes bytes as they are, as far as the page has room
    #[inline(never)]
    fn bytes_cut(&mut self, owner: NodeId, text: &[u8]) -> Result<(), NoMemory>
        ensures { OnOk result ((at : Place → Id) (u : Place) → at u ≡ owner →
            Wrote at self.old self.new (as_they_are u text.now)) }
    {
        if self.more {
            return Ok(());
        }
        for b in text {
            self.put(owner, *b)?;
        }
        Ok(())
    }

    /// Writes bytes as they are.
    #[inline(always)]
    pub fn bytes(&mut self, owner: NodeId, text: &[u8]) -> Result<(), NoMemory>
        ensures { OnOk result ((at : Place → Id) (u : Place) → at u ≡ owner →
            Wrote at self.old self.new (as_they_are u text.now)) }
    {
        if text.len() <= CELLS.saturating_sub(self.text.len()) {
            return self.fill(owner, text);
        }
        self.bytes_cut(owner, text)
    }

    // as many blanks as the margin, or as the page has room for and one more
    fn blank_count(&self) -> usize
        ensures { result ≡ min self.now.margin ((1048576 - length self.now.text.items) + 1) }
    {
        let room = CELLS.saturating_sub(self.text.len());
        self.margin.min(room + 1)
    }

    // writes as many blanks as the margin, as far as the page has room for them
    #[inline(never)]
    fn blanks(&mut self, owner: NodeId) -> Result<(), NoMemory>
        ensures { OnOk result ((at : Place → Id) (u : Place) → at u ≡ owner →
            Wrote at self.old self.new (blanks_of u)) }
    {
        let count = self.blank_count();
        let mut done = 0;
        while done < count {
            let some = (count - done).min(BLANKS.len());
            self.bytes(owner, BLANKS.split_at(some).0)?;
            done += some;
        }
        Ok(())
    }

    /// Writes a newline and the margin.
    #[inline(never)]
    pub fn newline(&mut self, owner: NodeId) -> Result<(), NoMemory>
        ensures { OnOk result ((at : Place → Id) (u : Place) → at u ≡ owner →
            Wrote at self.old self.new (a_newline u)) }
    {
        self.put(owner, b'\n')?;
        if self.margin == 0 {
            return Ok(());
        }
        self.blanks(owner)?;
        Ok(())
    }

    // writes a byte of a text
    fn plain_byte(&mut self, owner: NodeId, b: u8) -> Result<(), NoMemory>
        ensures { OnOk result ((at : Place → Id) (u : Place) → at u ≡ owner →
            Wrote at self.old self.new (plain_text u (b ∷ []))) }
    {
        if b == 10 {
            self.newline(owner)?;
            return Ok(());
        }
        self.put(owner, b)?;
        Ok(())
    }

    // writes a text byte by byte
    #[inline(never)]
    fn plain_bytes(&mut self, owner: NodeId, text: &[u8]) -> Result<(), NoMemory>
        ensures { OnOk result ((at : Place → Id) (u : Place) → at u ≡ owner →
            Wrote at self.old self.new (plain_text u text.now)) }
    {
        if self.more {
            return Ok(());
        }
        for b in text {
            self.plain_byte(owner, *b)?;
        }
        Ok(())
    }

    /// Writes a text, in which a byte 10 acts as a newline with its margin.
    #[inline(never)]
    pub fn plain(&mut self, owner: NodeId, text: &[u8]) -> Result<(), NoMemory>
        ensures { OnOk result ((at : Place → Id) (u : Place) → at u ≡ owner →
            Wrote at self.old self.new (plain_text u text.now)) }
    {
        if !text.contains(&b'\n') {
            return self.bytes(owner, text);
        }
        self.plain_bytes(owner, text)
    }

    // takes 2 off the margin so many times, not below 0, and then adds 2 so many times
    fn step(&mut self, back: u32, on: u32) -> Result<(), NoMemory>
        ensures { OnOk result ((at : Place → Id) (u : Place) →
            Wrote at self.old self.new (a_piece u (Piece.Margin back on))) }
    {
        let less = self.margin.saturating_sub(2 * back as usize);
        match less.checked_add(2 * on as usize) {
            Some(margin) => {
                self.margin = margin;
                Ok(())
            }
            None => Err(NoMemory),
        }
    }

    // writes a piece of a string
    #[inline(always)]
    fn piece(&mut self, owner: NodeId, piece: &Piece) -> Result<(), NoMemory>
        ensures { OnOk result ((at : Place → Id) (u : Place) → at u ≡ owner →
            Wrote at self.old self.new (a_piece u piece.now)) }
    {
        match piece {
            Piece::Written(text) => self.bytes(owner, text.as_slice()),
            Piece::Newline => self.newline(owner),
            Piece::Margin(back, on) => self.step(*back, *on),
        }
    }

    /// Writes the pieces of a string.
    #[inline(always)]
    pub fn pieces(&mut self, owner: NodeId, pieces: &[Piece]) -> Result<(), NoMemory>
        ensures { OnOk result ((at : Place → Id) (u : Place) → at u ≡ owner →
            Wrote at self.old self.new (all_pieces u pieces.now)) }
    {
        for piece in pieces {
            self.piece(owner, piece)?;
        }
        Ok(())
    }

    /// Ends a node before which so many cells were written.
    pub fn close(&mut self, n: NodeId, from: u32) -> Result<(), NoMemory>
        ensures { OnOk result ((at : Place → Id) (u : Place) (f : Writing) (before : _) → at u ≡ n →
            from ≡ min (length before.text.items) 1048576 →
            Wrote at before self.old f → Wrote at before self.new (ended u f)) }
    {
        let to = self.len();
        self.spans.push(Span { node: n, from, to })?;
        Ok(())
    }
}
