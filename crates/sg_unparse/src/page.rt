// Pages.
ghost use Rattle.std.specs.Prelude.{◌≡◌, ◌≤◌, ◌<◌, ◌-◌, [], ◌∷◌, ◌++◌, length, nat_lt, if◌then◌else◌, slice_get, slice_index, find, IfOk, MatchOption, Some, None, option_map};
ghost use Rattle.std.specs.List.{slice_split, range_with_len};
ghost use Rattle.std.specs.List.Sorted.{IsNonDecreasingBy};
ghost use Rattle.sg_unparse.specs.Page.{bytes_of, lines_of, is_newline, owner_at, position_at, stands_at};
ghost use Rattle.sg_unparse.specs.Begins.{begins_on};
ghost use Rattle.sg_unparse.specs.Sheet.{as_region, line_on, region_on, is_of, no_node, owner_in, starts_from, kept_cells, IsWritten};

use crate::writer::Writer;
use sg_forest::NodeId;
use sg_kinds::memory::NoMemory;
use std::alloc::Global;
use std::marker::Model;

/// From how many cells on and up to how many a node was written.
#[derive(Clone, Copy)]
pub struct Span {
    pub node: NodeId,
    pub from: u32,
    pub to: u32,
}

/// Cells of one owner, up to where the next run begins.
#[derive(Clone, Copy)]
pub struct Run {
    pub from: u32,
    pub owner: NodeId,
}

/// The line and the column of the first cell of a node and of its last one, each counted from 1. Where it has no cell,
/// both are those of the next cell.
#[derive(Clone, Copy, Debug, PartialEq, Eq)]
pub struct Region {
    pub line: usize,
    pub col: usize,
    pub end_line: usize,
    pub end_col: usize,
}

/// How many newlines and how many cells are before the first cell of a node.
#[derive(Clone, Copy, Debug, PartialEq, Eq)]
pub struct Beginning {
    pub newlines: usize,
    pub cells: usize,
}

/// The page of a term: at most 1,048,576 cells, which are bytes with the nodes that own them, and the spans of its
/// nodes.
#[derive(Drop)]
pub struct Page {
    text: Vec<u8>,
    runs: Vec<Run>,
    starts: Vec<u32>,
    spans: Vec<Span>,
    more: bool,
}

impl Model for Page {
    ghost use Rattle.std.specs.Prelude.{ℕ, Bool, List, refl};
    ghost use Rattle.std.specs.Coded.{code_by, coded×, coded_list, coded_ℕ, coded_bool};
    ghost use Rattle.sg_forest.specs.Node.{id_code};
    ghost use Rattle.sg_forest.specs.declared.node_id.NodeId.{NodeId};
    ghost use Rattle.sg_unparse.specs.contracts.page.Span as the_span;
    ghost use Rattle.sg_unparse.specs.declared.page.Span.{Span as OneSpan};
    ghost use Rattle.sg_unparse.specs.Sheet.{Sheet, kept_cells, IsKept};

    ghost Value = { Sheet };

    ghost coded = { code_by
        (List (ℕ × NodeId) × (List OneSpan × Bool))
        (coded× (coded_list (coded× coded_ℕ id_code)) (coded× (coded_list the_span.the_row.coded) coded_bool))
        (λ p. (p.cells, (p.spans, p.more)))
        (λ p. record { cells = p.0; spans = p.1.0; more = p.1.1 })
        (λ _. refl) };

    ghost view = { λ p. record { cells = kept_cells p.text.items p.runs.items; spans = p.spans.items; more = p.more } };

    ghost invariant = { λ p. IsKept p.text.items p.runs.items p.starts.items p.spans.items };
}

// where lines begin, but the first: behind each newline
#[tactic(auto, using(crate::proofs::Lines::starts_more, crate::proofs::Lines::starts_stay))]
fn line_starts(alloc: Global, text: &[u8]) -> Result<Vec<u32>, NoMemory>
    requires { length text.now ≤ 1048576 }
    ensures { IfOk result (λ v. v.items ≡ starts_from 0 text.now) }
{
    let mut starts = Vec::new(alloc);
    let mut behind = 0;
    for b in text {
        behind += 1;
        if *b == b'\n' {
            starts.push(behind)?;
        }
    }
    Ok(starts)
}

// how many cells stand before a line, counted from 0
fn line_start(starts: &[u32], k: usize) -> usize
    requires { k ≤ length starts.now }
    ensures { result ≡ slice_index (0 ∷ starts.now) k }
{
    if k == 0 { 0 } else { starts[k - 1] as usize }
}

// the number of the cell behind a line, counted from 0, and its newline; of the last line another number
fn line_after(starts: &[u32], last: usize, k: usize) -> usize
    requires { k ≤ length starts.now }
    ensures { result ≡ slice_index (starts.now ++ last ∷ []) k }
{
    match starts.get(k) {
        Some(start) => *start as usize,
        None => last,
    }
}

// a line of a text, counted from 0
fn line_of<'a>(text: &'a [u8], starts: &[u32], k: usize) -> &'a [u8]
    requires lines { starts.now ≡ starts_from 0 text.now }
    requires there { k ≤ length starts.now }
    requires small { length text.now ≤ 1048576 }
    ensures { slice_get (slice_split is_newline text.now) k ≡ Some result.now }
{
    let from = line_start(starts, k);
    let to = line_after(starts, text.len() + 1, k) - 1;
    let (front, _) = text.split_at(to);
    front.split_at(from).1
}

// the first span of a node
fn find_span(spans: &[Span], n: NodeId) -> Option<Span>
    ensures { result ≡ find (is_of n) spans.now }
{
    for span in spans {
        if span.node.key == n.key {
            return Some(*span);
        }
    }
    None
}

// the last cell of a span, or the next one where it has none
fn last_cell(span: Span) -> u32
    ensures { result ≡ (if nat_lt span.from span.to then span.to - 1 else span.from) }
{
    if span.from < span.to {
        span.to - 1
    } else {
        span.from
    }
}

// the owner of a cell
fn owner_in(runs: &[Run], k: u32) -> NodeId
    requires first { MatchOption (slice_get runs.now 0) ⊥ (λ r. r.from ≤ k) }
    requires rising { IsNonDecreasingBy (λ r. r.from) runs.now }
    ensures { result ≡ owner_in no_node runs.now k }
{
    let behind = runs.partition_point(|run| run.from <= k);
    runs[behind - 1].owner
}

impl Page {
    /// The page that a writer has written.
    pub(crate) fn of(alloc: Global, w: Writer) -> Result<Page, NoMemory>
        requires { IsWritten w.text.items w.runs.items w.spans.items }
        ensures { IfOk result (λ p. p ≡ record {
          cells = kept_cells w.text.items w.runs.items;
          spans = w.spans.items;
          more = w.more;
        }) }
    {
        let starts = line_starts(alloc, w.text.as_slice())?;
        Ok(Page {
            text: w.text,
            runs: w.runs,
            starts,
            spans: w.spans,
            more: w.more,
        })
    }

    /// The bytes of the cells.
    pub fn text(&self) -> &[u8]
        ensures { result.now ≡ bytes_of self.now.cells }
    {
        self.text.as_slice()
    }

    /// Whether cells were left off.
    pub fn cut(&self) -> bool
        ensures { result ≡ self.now.more }
    {
        self.more
    }

    /// How many lines there are: one more than newlines.
    pub fn lines(&self) -> usize
        ensures { result ≡ length (lines_of self.now.cells) }
    {
        self.starts.len() + 1
    }

    /// Line `k` without its newline, counted from 1. None exactly where there is no such line.
    pub fn line(&self, k: usize) -> Option<&[u8]>
        ensures { MatchOption result (line_on self.now k ≡ None) (λ s. line_on self.now k ≡ Some s.now) }
    {
        if k == 0 || k > self.starts.len() + 1 {
            return None;
        }
        Some(line_of(&self.text, &self.starts, k - 1))
    }

    // the line and the column of a cell, or of the next one
    fn position(&self, k: u32) -> (usize, usize)
        requires { k ≤ length self.now.cells }
        ensures line { result.0 ≡ (position_at self.now.cells k).line }
        ensures column { result.1 ≡ (position_at self.now.cells k).column }
    {
        let line = self.starts.as_slice().partition_point(|start| *start <= k);
        (line + 1, k as usize - line_start(&self.starts, line) + 1)
    }

    /// The region of a node; None exactly where it was not written.
    pub fn region(&self, n: NodeId) -> Option<Region>
        ensures { option_map as_region result ≡ region_on self.now n }
    {
        let span = find_span(&self.spans, n)?;
        let (line, col) = self.position(span.from);
        let (end_line, end_col) = self.position(last_cell(span));
        Some(Region {
            line,
            col,
            end_line,
            end_col,
        })
    }

    /// Where a node begins; None exactly where it was not written.
    pub fn begins(&self, n: NodeId) -> Option<Beginning>
        ensures { result ≡ begins_on self.now n }
    {
        let span = find_span(&self.spans, n)?;
        let (line, _) = self.position(span.from);
        Some(Beginning {
            newlines: line - 1,
            cells: span.from as usize,
        })
    }

    // the number of the cell at a line and a column
    fn place(&self, line: usize, col: usize) -> Option<u32>
        ensures { result ≡ find (stands_at self.now.cells line col) (range_with_len 0 (length self.now.cells)) }
    {
        if line == 0 || col == 0 || line > self.starts.len() + 1 {
            return None;
        }
        let from = line_start(&self.starts, line - 1);
        let after = line_after(&self.starts, self.text.len(), line - 1);
        if col > after - from {
            return None;
        }
        Some((from + (col - 1)) as u32)
    }

    // the owner of a cell
    fn owner_of(&self, k: u32) -> NodeId
        requires { k < length self.now.cells }
        ensures { option_map (λ c. c.1) (slice_get self.now.cells k) ≡ Some result }
    {
        owner_in(&self.runs, k)
    }

    /// The node that owns the cell at a line and a column, each counted from 1. None exactly where there is no such
    /// cell.
    pub fn owner(&self, line: usize, col: usize) -> Option<NodeId>
        ensures { result ≡ owner_at self.now.cells line col }
    {
        match self.place(line, col) {
            Some(k) => Some(self.owner_of(k)),
            None => None,
        }
    }
}
