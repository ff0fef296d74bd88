// Runs a case line by line, and compares what came with what was wanted.
use crate::case::Case;
use crate::running::{came, copies, entries, files_stand};
use anyhow::{Context, Result};
use sg_console::MemConsole;
use sg_eval::Journal;
use sg_live::live;
use sg_outside::MemShelf;

// The part of a case that a session takes besides its files.
#[derive(Drop)]
struct Session {
    words: Vec<String>,
    input: Vec<u8>,
    calls: Vec<u64>,
    reads: Vec<u64>,
}

// Whether a session does all that is wanted of the case. Each difference is told.
fn lives(
    rt: &HostRuntime,
    place: &str,
    case: &Case,
    session: Session,
    journal: &mut Journal,
) -> Result<bool> {
    let alloc = rt.alloc();
    let Session {
        words,
        input,
        calls,
        reads,
    } = session;
    let before = entries(journal);
    let shelf = MemShelf::new(alloc, copies(alloc, &case.files)?, calls);
    let mut shelf = shelf.ok().context("no memory for the files")?;
    let mut console = MemConsole::new(alloc, input, reads);
    let status = live(alloc, &words, &mut console, &mut shelf, journal);
    let mut passed = came(rt, place, "live output", &console.written()?, &case.written)?;
    for (what, came, wanted) in [
        ("live status", u64::from(status.number()), case.status),
        (
            "live rise",
            entries(journal).saturating_sub(before),
            case.rise,
        ),
    ] {
        if came != wanted {
            println!(rt; "{place}: {what} {came}, wanted {wanted}")?;
            passed = false;
        }
    }
    Ok(files_stand(rt, place, case, &mut shelf)? && passed)
}

/// Whether the run of a case that answers line by line does all that is wanted. Each difference is told.
pub fn answers(rt: &HostRuntime, place: &str, case: &Case, journal: &mut Journal) -> Result<bool> {
    let session = Session {
        words: case.words.clone()?,
        input: match &case.input {
            Some(input) => input.clone()?,
            None => Vec::new(rt.alloc()),
        },
        calls: case.calls.clone()?,
        reads: case.reads.clone()?,
    };
    lives(rt, place, case, session, journal)
}

// The session over the script of a case, which is not fetched then; none where the case is of another kind, has another
// status than 0, or fails a put or the fetch of the script.
fn session_of(rt: &HostRuntime, case: &Case) -> Result<Option<Session>> {
    let alloc = rt.alloc();
    let words = case.words.as_slice();
    let Some((job, rest)) = words.split_first() else {
        return Ok(None);
    };
    let [spec, script, size @ ..] = rest else {
        return Ok(None);
    };
    if job.as_str() != "run"
        || case.status != 0
        || !case.puts.is_empty()
        || case.calls.contains(&2)
    {
        return Ok(None);
    }
    let Some(file) = case.files.iter().rev().find(|file| file.0 == *script) else {
        return Ok(None);
    };
    let mut words = Vec::new(alloc);
    words.push(spec.clone()?)?;
    for word in size {
        words.push(word.clone()?)?;
    }
    let mut calls = Vec::new(alloc);
    for call in &case.calls {
        calls.push(if *call > 2 { *call - 1 } else { *call })?;
    }
    Ok(Some(Session {
        words,
        input: file.1.clone()?,
        calls,
        reads: Vec::new(alloc),
    }))
}

/// Whether a session over the script of a case, if it can be one, does all that is wanted of the run. Each difference is
/// told.
pub fn gives_same(
    rt: &HostRuntime,
    place: &str,
    case: &Case,
    journal: &mut Journal,
) -> Result<bool> {
    match session_of(rt, case)? {
        Some(session) => lives(rt, place, case, session, journal),
        None => Ok(true),
    }
}
