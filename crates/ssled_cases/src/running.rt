// Runs a case, and compares what came with what was wanted.
ghost use Rattle.std.specs.Prelude.{◌<◌, ◌^◌};
ghost use Rattle.sg_eval.specs.Journal.{counted};

use crate::case::{Case, File};
use anyhow::{Context, Result, ensure};
use sg_eval::Journal;
use sg_outside::{MemShelf, MemSink, Shelf};
use sg_run::run;
use std::alloc::{AllocError, Global};

// So many entries leave room for those of any run.
const ROOM: u64 = 1 << 60;

// How many entries the journal has in all.
pub fn entries(journal: &Journal) -> u64
    ensures { result < 2 ^ 60 → counted journal.now < 2 ^ 60 }
{
    journal.total().saturating_add(journal.now().len() as u64)
}

pub fn copies(alloc: Global, files: &[File]) -> Result<Vec<File>, AllocError> {
    let mut copies = Vec::new(alloc);
    for (name, bytes) in files {
        copies.push((name.clone()?, bytes.clone()?))?;
    }
    Ok(copies)
}

// The bytes of that file, by as many calls as are needed for one that does not fail.
fn content(alloc: Global, shelf: &mut MemShelf, name: &str, fails: usize) -> Option<Vec<u8>> {
    for _ in 0..fails {
        if let Ok(bytes) = shelf.fetch(alloc, name, usize::MAX) {
            return Some(bytes);
        }
    }
    shelf.fetch(alloc, name, usize::MAX).ok()
}

// Whether these bytes came, which is told if not.
pub fn came(rt: &HostRuntime, place: &str, what: &str, came: &[u8], wanted: &[u8]) -> Result<bool> {
    if came == wanted {
        return Ok(true);
    }
    println!(rt; "{place}: {what} came:")?;
    rt.write_all(came)?;
    println!(rt; "\n{place}: {what} wanted:")?;
    rt.write_all(wanted)?;
    println!(rt; "")?;
    Ok(false)
}

// Whether the file has these bytes after a run of which so many calls may fail.
fn stands(
    rt: &HostRuntime,
    place: &str,
    shelf: &mut MemShelf,
    fails: usize,
    file: &File,
) -> Result<bool> {
    match content(rt.alloc(), shelf, &file.0, fails) {
        Some(bytes) => came(rt, place, &file.0, &bytes, &file.1),
        None => {
            println!(rt; "{place}: {} is not there", file.0)?;
            Ok(false)
        }
    }
}

// Whether each file is as before, or as is wanted.
pub fn files_stand(
    rt: &HostRuntime,
    place: &str,
    case: &Case,
    shelf: &mut MemShelf,
) -> Result<bool> {
    let fails = case.calls.len();
    let mut all = true;
    for file in &case.kept {
        all = stands(rt, place, shelf, fails, file)? && all;
    }
    for file in &case.files {
        if !case.kept.iter().any(|kept| kept.0 == file.0) {
            all = stands(rt, place, shelf, fails, file)? && all;
        }
    }
    Ok(all)
}

/// Whether the run of a case does all that is wanted. Each difference is told.
pub fn passes(rt: &HostRuntime, place: &str, case: Case, journal: &mut Journal) -> Result<bool> {
    let alloc = rt.alloc();
    let before = entries(journal);
    ensure!(before < ROOM, "the journal is full");
    let shelf = MemShelf::new(alloc, copies(alloc, &case.files)?, case.calls.clone()?);
    let mut shelf = shelf.ok().context("no memory for the files")?;
    let mut sink = MemSink::new(alloc, case.puts.clone()?);
    let outcome = run(alloc, &case.words, &mut shelf, &mut sink, journal);
    let mut passed = came(rt, place, "output", sink.written(), &case.written)?;
    for (what, came, wanted) in [
        ("status", u64::from(outcome.status.number()), case.status),
        ("replies", outcome.replies.len() as u64, case.replies),
        ("rise", entries(journal).saturating_sub(before), case.rise),
    ] {
        if came != wanted {
            println!(rt; "{place}: {what} {came}, wanted {wanted}")?;
            passed = false;
        }
    }
    Ok(files_stand(rt, place, &case, &mut shelf)? && passed)
}
