//! The program: hands its words, the files and the standard output of the system to `run`, and ends with the number of
//! its ending.
#![tactic(auto)]

use sg_explain::{Ending, run};
use sg_outside::{FileShelf, OutSink};
use std::env;
use std::io::{self, ErrorKind};
use std::process::ExitCode;
use std::rt::Env;

// The status where the system does not give the words as texts.
const NO_TEXT: u8 = 8;

// The words after the program's own name.
fn words<R: Env + AllocGlobal>(rt: &R) -> io::Result<Vec<String>> {
    Ok(env::args(rt)?.skip(1).collect(rt.alloc())?)
}

fn main(rt: HostRuntime) -> ExitCode {
    let words = match words(&rt) {
        Ok(words) => words,
        Err(error) => {
            return ExitCode::from(match error.kind() {
                ErrorKind::OutOfMemory => Ending::Memory.number(),
                _ => NO_TEXT,
            });
        }
    };
    let mut shelf = FileShelf::new(&rt);
    let mut sink = OutSink::new(&rt);
    let ending = run(rt.alloc(), &words, &mut shelf, &mut sink);
    ExitCode::from(ending.number())
}
