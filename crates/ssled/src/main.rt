//! The program: hands its words, the files and the standard output of the system, and a new journal
//! to `run`, and ends with the number of its status.
#![tactic(auto)]

use sg_eval::Journal;
use sg_outside::{FileShelf, OutSink};
use sg_run::{Status, run};
use std::env;
use std::io::{self, ErrorKind};
use std::process::ExitCode;
use std::rt::Env;

// The status where the system does not give the words as texts.
const NO_TEXT: u8 = 8;

// The words after the program's own name.
fn words<R: Env + AllocGlobal>(rt: &R) -> io::Result<Vec<String>> {
    Ok(env::args(rt)?.skip(1).collect(rt.alloc())?)
}

fn main(rt: HostRuntime) -> ExitCode {
    let words = match words(&rt) {
        Ok(words) => words,
        Err(error) => {
            return ExitCode::from(match error.kind() {
                ErrorKind::OutOfMemory => Status::Memory.number(),
                _ => NO_TEXT,
            });
        }
    };
    let mut shelf = FileShelf::new(&rt);
    let mut sink = OutSink::new(&rt);
    let mut journal = Journal::new(&rt);
    let outcome = run(rt.alloc(), &words, &mut shelf, &mut sink, &mut journal);
    ExitCode::from(outcome.status.number())
}
