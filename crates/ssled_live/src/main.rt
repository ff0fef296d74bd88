//! The program that answers line by line: hands its words, the files, the standard input and output of the system, and a
//! new journal to `live`, and ends with the number of its status.
#![tactic(auto)]

use sg_console::SystemConsole;
use sg_eval::Journal;
use sg_live::{Status, live};
use sg_outside::FileShelf;
use std::env;
use std::io::{self, ErrorKind};
use std::process::ExitCode;
use std::rt::Env;

// The status where the system does not give the words as texts.
const NO_TEXT: u8 = 8;

// The words after the program's own name.
fn words<R: Env + AllocGlobal>(rt: &R) -> io::Result<Vec<String>> {
    Ok(env::args(rt)?.skip(1).collect(rt.alloc())?)
}

fn main(rt: HostRuntime) -> ExitCode {
    let words = match words(&rt) {
        Ok(words) => words,
        Err(error) => {
            return ExitCode::from(match error.kind() {
                ErrorKind::OutOfMemory => Status::Memory.number(),
                _ => NO_TEXT,
            });
        }
    };
    let Ok(mut console) = SystemConsole::new(rt.alloc(), &rt) else {
        return ExitCode::from(Status::Memory.number());
    };
    let mut shelf = FileShelf::new(&rt);
    let mut journal = Journal::new(&rt);
    let status = live(rt.alloc(), &words, &mut console, &mut shelf, &mut journal);
    ExitCode::from(status.number())
}
