//! Runs the cases of tables, and tells each on which the run does something else.
//!
//! The file `tables` names the tables, one a line. The blocks of a table stand apart by one empty line. A block that
//! begins with `//` is a comment; the first one says how the table was made. The other blocks consist of lines of
//! words, with one blank between two words, of which some are followed by the lines of a text.
//!
//! A block that begins with `text NAME` is a text for the blocks below it. A block that begins with `run`, `live` or
//! `explain` is a case:
//!
//! | Line | What it says |
//! |---|---|
//! | `run WORD WORD ..` | the words of the command line |
//! | `live WORD WORD ..` and a text | the words of a session that answers line by line, and its input |
//! | `explain WORD WORD ..` | the words of the program that explains a specification |
//! | `file NAME` and a text | a file on the shelf |
//! | `call N` | call N of the shelf fails, from 1 on |
//! | `put N M` | put N into the sink fails after M bytes |
//! | `console N` | call N of the console fails |
//! | `gives STATUS REPLIES RISE` and a text | the number of the status, how many replies of the shelf there are, by how many entries the journal grows, and what is written |
//! | `after NAME` and a text | that file afterwards; each other file is to be as before |
//!
//! A text is the lines up to the next line of words, one after the other:
//!
//! | Line | What it stands for |
//! |---|---|
//! | `\|BYTES` without the backslash | the bytes and a newline |
//! | `.BYTES` | the bytes |
//! | `%HEX` | bytes as pairs of hexadecimal digits |
//! | `*N BYTES` | the bytes N times |
//! | `@NAME FROM TO` | the bytes of that text from place FROM to before place TO |
//!
//! Of the tables of sessions each script that is done to its end without a put that fails is also the input of a session
//! that answers line by line, which is to write the same.
//!
//! For each table one line tells how many cases passed and how many did not, and before it stands each difference in
//! full, with the table and the line of the case.
#![tactic(auto)]

mod case;
mod explaining;
mod living;
mod running;
mod table;

use anyhow::{Context, Result, bail};
use case::case_of;
use explaining::explains;
use living::{answers, gives_same};
use running::passes;
use sg_eval::Journal;
use std::fs;
use table::{Text, sections};

// The tables whose scripts are also given line by line.
const SESSIONS: [&str; 5] = [
    "commands.cases",
    "examples.cases",
    "hostile.cases",
    "sessions.cases",
    "tutorial.cases",
];

// How many cases passed, and how many did not.
#[derive(Clone, Copy)]
struct Tally {
    passed: u64,
    failed: u64,
}

// Runs the case of a block, adds its text to the texts, or passes over a comment. Whether a case passed, if it is one.
fn run_block(
    rt: &HostRuntime,
    place: &str,
    block: &str,
    is_session: bool,
    texts: &mut Vec<Text>,
    journal: &mut Journal,
) -> Result<Option<bool>> {
    let alloc = rt.alloc();
    if block.starts_with("//") {
        return Ok(None);
    }
    let mut sections = sections(alloc, texts, block)?;
    if block.starts_with("text ") {
        texts.push(sections.pop().context("a text")?)?;
        return Ok(None);
    }
    let is_run = block.starts_with("run") || block.starts_with("live");
    if !is_run && !block.starts_with("explain") {
        bail!("a block of another kind");
    }
    let case = case_of(alloc, sections)?;
    if case.explains {
        return Ok(Some(explains(rt, place, &case)?));
    }
    if case.input.is_some() {
        return Ok(Some(answers(rt, place, &case, journal)?));
    }
    let same = !is_session || gives_same(rt, place, &case, journal)?;
    Ok(Some(passes(rt, place, case, journal)? && same))
}

// Runs the cases of the table of that name.
fn run_table(rt: &HostRuntime, name: &str, journal: &mut Journal) -> Result<Tally> {
    let alloc = rt.alloc();
    let table = fs::read_to_string(rt, name).context(format_args!("reading {name}"))?;
    let mut texts = Vec::new(alloc);
    let mut tally = Tally {
        passed: 0,
        failed: 0,
    };
    let is_session = SESSIONS.iter().any(|table| *table == name);
    let mut line = 1usize;
    let table = table.as_str();
    for block in table.strip_suffix('\n').unwrap_or(table).split("\n\n") {
        let place = format!(in alloc; "{name}:{line}")?;
        let outcome = run_block(rt, &place, block, is_session, &mut texts, journal);
        match outcome.context(format_args!("{place}"))? {
            Some(true) => tally.passed = tally.passed.saturating_add(1),
            Some(false) => tally.failed = tally.failed.saturating_add(1),
            None => {}
        }
        line = line
            .saturating_add(block.split('\n').count())
            .saturating_add(1);
    }
    Ok(tally)
}

fn main(rt: HostRuntime) -> Result<()> {
    let mut journal = Journal::new(&rt);
    let mut sum = Tally {
        passed: 0,
        failed: 0,
    };
    let tables = fs::read_to_string(&rt, "tables").context("reading tables")?;
    for name in tables.as_str().lines() {
        let tally = run_table(&rt, name, &mut journal)?;
        println!(rt; "{name}: {} passed, {} failed", tally.passed, tally.failed)?;
        sum.passed = sum.passed.saturating_add(tally.passed);
        sum.failed = sum.failed.saturating_add(tally.failed);
    }
    println!(rt; "{} passed, {} failed", sum.passed, sum.failed)?;
    Ok(())
}
