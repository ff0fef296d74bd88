// Blocks.
ghost use Rattle.std.specs.Prelude.{◌≡◌, ◌++◌, ◌-◌, take, IfOk, OnOk};
ghost use Rattle.sg_unparse.specs.Page.{lines_of};
ghost use Rattle.sg_unparse.specs.Sheet.{as_region};
ghost use Rattle.sg_screen.specs.Block.{head_of, position_text, region_text, phylum_text, name_text, selected_text, counts_text, ending, header, shown_line, shown_lines, block, bare};

use sg_kinds::decimal::write_number;
use sg_kinds::memory::NoMemory;
use sg_script::{Message, write_message};
use sg_unparse::{Page, Region};
use std::alloc::Global;

/// What a header tells: the buffer's name and that of the view in which it is shown, None for the ordinary one; the
/// region of what is selected, the phylum's name of its first node and how many elements of a list it has, or 1; the
/// page's first line in the window, counted from 1, how many equations were evaluated, and the message.
#[derive(Clone, Copy)]
pub struct Head<'a> {
    pub name: &'a [u8],
    pub view: Option<&'a [u8]>,
    pub region: Region,
    pub phylum: &'a [u8],
    pub count: usize,
    pub top: usize,
    pub ev: u64,
    pub message: Message,
}

// writes a line and a column
fn write_position(alloc: Global, out: &mut Vec<u8>, line: usize, col: usize) -> Result<(), NoMemory>
    ensures { OnOk result (out.new.items ≡ out.old.items ++ position_text (record { line = line; column = col })) }
{
    write_number(alloc, out, line as u64)?;
    out.push(b':')?;
    write_number(alloc, out, col as u64)
}

// writes a region
fn write_region(alloc: Global, out: &mut Vec<u8>, region: Region) -> Result<(), NoMemory>
    ensures { OnOk result (out.new.items ≡ out.old.items ++ region_text (as_region region)) }
{
    write_position(alloc, out, region.line, region.col)?;
    out.push(b'-')?;
    write_position(alloc, out, region.end_line, region.end_col)
}

// writes the name of a phylum, and how many of it are selected, where these are several
fn write_phylum(
    alloc: Global,
    out: &mut Vec<u8>,
    phylum: &[u8],
    count: usize,
) -> Result<(), NoMemory>
    ensures { OnOk result (out.new.items ≡ out.old.items ++ phylum_text phylum.now count) }
{
    out.extend_from_slice(phylum)?;
    if count == 1 {
        return Ok(());
    }
    out.push(b'*')?;
    write_number(alloc, out, count as u64)
}

// writes the buffer's name, and that of the view
fn write_name(out: &mut Vec<u8>, head: &Head) -> Result<(), NoMemory>
    ensures { OnOk result (out.new.items
        ≡ out.old.items ++ name_text (head_of head.now).name (head_of head.now).view) }
{
    out.extend_from_slice(head.name)?;
    let Some(view) = head.view else {
        return Ok(());
    };
    out.push(b'/')?;
    out.extend_from_slice(view)?;
    Ok(())
}

// writes the buffer's name, and the region and phylum of what is selected
fn write_selected(alloc: Global, out: &mut Vec<u8>, head: &Head) -> Result<(), NoMemory>
    ensures { OnOk result (out.new.items ≡ out.old.items ++ selected_text (head_of head.now)) }
{
    out.extend_from_slice(b"= ")?;
    write_name(out, head)?;
    out.push(b' ')?;
    write_region(alloc, out, head.region)?;
    out.push(b' ')?;
    write_phylum(alloc, out, head.phylum, head.count)
}

// writes the window's top and how many equations were evaluated
fn write_counts(alloc: Global, out: &mut Vec<u8>, top: usize, ev: u64) -> Result<(), NoMemory>
    ensures { OnOk result (out.new.items ≡ out.old.items ++ counts_text top ev) }
{
    out.extend_from_slice(b" top ")?;
    write_number(alloc, out, top as u64)?;
    out.extend_from_slice(b" ev ")?;
    write_number(alloc, out, ev)
}

// writes the end of a header: its message and the newline
fn write_ending(alloc: Global, out: &mut Vec<u8>, message: Message) -> Result<(), NoMemory>
    ensures { OnOk result (out.new.items ≡ out.old.items ++ ending message) }
{
    out.push(b' ')?;
    write_message(alloc, out, message)?;
    out.push(b'\n')?;
    Ok(())
}

// writes a header
fn write_header(alloc: Global, out: &mut Vec<u8>, head: &Head) -> Result<(), NoMemory>
    ensures { OnOk result (out.new.items ≡ out.old.items ++ header (head_of head.now)) }
{
    write_selected(alloc, out, head)?;
    write_counts(alloc, out, head.top, head.ev)?;
    write_ending(alloc, out, head.message)?;
    Ok(())
}

// the first bytes of a line
fn front(line: &[u8], width: usize) -> &[u8]
    ensures { result.now ≡ take width line.now }
{
    line.split_at(width.min(line.len())).0
}

// writes a line in the window
fn write_line(out: &mut Vec<u8>, line: &[u8], width: usize) -> Result<(), NoMemory>
    ensures { OnOk result (out.new.items ≡ out.old.items ++ shown_line width line.now) }
{
    out.push(b'|')?;
    out.extend_from_slice(front(line, width))?;
    out.push(b'\n')?;
    Ok(())
}

// writes the lines in the window
fn write_lines(
    out: &mut Vec<u8>,
    page: &Page,
    top: usize,
    width: usize,
    height: usize,
) -> Result<(), NoMemory>
    ensures { OnOk result (out.new.items ≡ out.old.items ++ shown_lines top width height (lines_of page.now.cells)) }
{
    let first = top.saturating_sub(1);
    let end = page.lines().min(first.saturating_add(height));
    for k in first..end {
        if let Some(line) = page.line(k + 1) {
            write_line(out, line, width)?;
        }
    }
    Ok(())
}

/// The block of a command: the header, and the lines of the page that stand in a window of so many columns and lines,
/// each with its newline. A line is cut after the window's width.
pub fn block(
    alloc: Global,
    head: &Head,
    page: &Page,
    width: usize,
    height: usize,
) -> Result<Vec<u8>, NoMemory>
    ensures { IfOk result (λ v. v.items ≡ block (head_of head.now) (lines_of page.now.cells) width height) }
{
    let mut out = Vec::new(alloc);
    write_header(alloc, &mut out, head)?;
    write_lines(&mut out, page, head.top, width, height)?;
    Ok(out)
}

/// The block of a command where no buffer is current.
pub fn bare(alloc: Global, message: Message) -> Result<Vec<u8>, NoMemory>
    ensures { IfOk result (λ v. v.items ≡ bare message) }
{
    let mut out = Vec::new(alloc);
    out.extend_from_slice(b"= - ev 0")?;
    write_ending(alloc, &mut out, message)?;
    Ok(out)
}
