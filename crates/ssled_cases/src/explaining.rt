// Explains the specification of a case, and compares what came with what was wanted.
use crate::case::Case;
use crate::running::{came, copies};
use anyhow::{Context, Result};
use sg_explain::run;
use sg_outside::{MemShelf, MemSink};

/// Whether the explanation of a case, and the status with it, are those that are wanted. Each difference is told.
pub fn explains(rt: &HostRuntime, place: &str, case: &Case) -> Result<bool> {
    let alloc = rt.alloc();
    let shelf = MemShelf::new(alloc, copies(alloc, &case.files)?, case.calls.clone()?);
    let mut shelf = shelf.ok().context("no memory for the files")?;
    let mut sink = MemSink::new(alloc, case.puts.clone()?);
    let ending = run(alloc, &case.words, &mut shelf, &mut sink);
    let same = came(rt, place, "explanation", sink.written(), &case.written)?;
    let status = u64::from(ending.number());
    if status != case.status {
        println!(rt; "{place}: status {status}, wanted {}", case.status)?;
    }
    Ok(same && status == case.status)
}
