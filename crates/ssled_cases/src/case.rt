// A case, as its block tells it.
use crate::table::{Text, number, size};
use anyhow::{Context, Result, bail};
use std::alloc::Global;

/// A file by its name.
pub type File = (String, Vec<u8>);

/// What a run finds, and what is wanted of it.
#[derive(Drop)]
pub struct Case {
    pub words: Vec<String>,
    /// Whether the specification is explained.
    pub explains: bool,
    /// The files on the shelf.
    pub files: Vec<File>,
    /// The numbers of the shelf's calls that fail.
    pub calls: Vec<u64>,
    /// The numbers of the sink's puts that fail, each with how many bytes it writes.
    pub puts: Vec<(u64, usize)>,
    /// What is read, where the run answers line by line.
    pub input: Option<Vec<u8>>,
    /// The numbers of the console's calls that fail.
    pub reads: Vec<u64>,
    pub status: u64,
    /// How many replies of the shelf there are.
    pub replies: u64,
    /// By how many entries the journal grows.
    pub rise: u64,
    pub written: Vec<u8>,
    /// The files that are not as before.
    pub kept: Vec<File>,
}

fn empty(alloc: Global) -> Case {
    Case {
        words: Vec::new(alloc),
        explains: false,
        files: Vec::new(alloc),
        calls: Vec::new(alloc),
        puts: Vec::new(alloc),
        input: None,
        reads: Vec::new(alloc),
        status: 0,
        replies: 0,
        rise: 0,
        written: Vec::new(alloc),
        kept: Vec::new(alloc),
    }
}

// The words of a line.
fn words_of(alloc: Global, line: &str) -> Result<Vec<String>> {
    let mut words = Vec::new(alloc);
    for word in line.split(' ') {
        words.push(String::from_str(alloc, word)?)?;
    }
    Ok(words)
}

// Adds to the case what one line of words and its text tell.
fn add(alloc: Global, case: &mut Case, section: Text) -> Result<()> {
    let Text { head, bytes } = section;
    let (word, rest) = head.as_str().split_once(' ').unwrap_or((head.as_str(), ""));
    let mut words = rest.split(' ');
    match word {
        "run" if head.as_str() == "run" => {}
        "run" => case.words = words_of(alloc, rest)?,
        "explain" => {
            case.explains = true;
            if head.as_str() != "explain" {
                case.words = words_of(alloc, rest)?;
            }
        }
        "live" => {
            case.input = Some(bytes);
            if head.as_str() != "live" {
                case.words = words_of(alloc, rest)?;
            }
        }
        "console" => case.reads.push(number(words.next())?)?,
        "file" => case.files.push((String::from_str(alloc, rest)?, bytes))?,
        "call" => case.calls.push(number(words.next())?)?,
        "put" => case
            .puts
            .push((number(words.next())?, size(words.next())?))?,
        "gives" => {
            case.status = number(words.next())?;
            case.replies = number(words.next())?;
            case.rise = number(words.next())?;
            case.written = bytes;
        }
        "after" => case.kept.push((String::from_str(alloc, rest)?, bytes))?,
        _ => bail!("a line of another kind"),
    }
    Ok(())
}

/// The case of a block.
pub fn case_of(alloc: Global, sections: Vec<Text>) -> Result<Case> {
    let mut case = empty(alloc);
    for section in sections {
        add(alloc, &mut case, section)?;
    }
    Ok(case)
}
