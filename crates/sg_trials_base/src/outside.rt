//! Shelves and sinks in memory with their failing calls, real files, a pipe that takes a few bytes at a time, and the
//! reply to each call.
use sg_outside::{
    FileShelf, MemShelf, MemSink, OutSink, Shelf, ShelfError, Sink, SinkError, SureShelf, SureSink,
};
use sg_replies::{Reply, add, fetched, kept};
use std::fmt::Display;
use std::fs;
use std::io::{self, PipeWriter, Print, Read, Write};
use std::process::Abort;

/// Files of these names and texts, as a shelf takes them.
fn files(rt: &(impl Abort + AllocGlobal), rows: &[(&str, &str)]) -> Vec<(String, Vec<u8>)> {
    let mut files = Vec::new(rt.alloc());
    for &(name, text) in rows {
        let name = String::from_str(rt.alloc(), name).expect(rt, "a name");
        let bytes = text.as_bytes().to_vec(rt.alloc()).expect(rt, "bytes");
        files.push((name, bytes)).expect(rt, "a file");
    }
    files
}

/// The bytes that a shelf gives, at most so many, are these; None stands for a failed call.
fn gives<S: Shelf>(
    rt: &(impl Abort + AllocGlobal),
    shelf: &mut S,
    name: &str,
    most: usize,
    want: Option<&str>,
) {
    match (shelf.fetch(rt.alloc(), name, most), want) {
        (Ok(bytes), Some(text)) => assert!(rt; bytes.as_slice() == text.as_bytes(), "{name}"),
        (Err(ShelfError::Failed), None) => {}
        _ => panic!(rt; "{name}"),
    }
}

/// Of three files, of which the third has the name of the first, and calls 3 and 6 fail.
const FETCHES: [(&str, usize, Option<&str>); 5] = [
    ("a", 2, Some("th")),
    ("b", 9, Some("two")),
    ("b", 9, None),
    ("c", 9, None),
    ("a", 0, Some("")),
];

#[test]
fn shelves_in_memory(rt: HostRuntime) {
    let rows = [("a", "one"), ("b", "two"), ("a", "three")];
    let fails = [3u64, 6].to_vec(rt.alloc()).expect(&rt, "a list");
    let mut shelf = MemShelf::new(rt.alloc(), files(&rt, &rows), fails).expect(&rt, "a shelf");
    for (name, most, want) in FETCHES {
        gives(&rt, &mut shelf, name, most, want);
    }
    assert_eq!(rt; shelf.keep("c", b"lost"), Err(ShelfError::Failed));
    assert_eq!(rt; shelf.keep("c", b"four"), Ok(()));
    gives(&rt, &mut shelf, "c", 9, Some("four"));
    let mut sure = SureShelf::new(rt.alloc(), files(&rt, &rows)).expect(&rt, "a shelf");
    assert_eq!(rt; sure.keep("d", b"five"), Ok(()));
    gives(&rt, &mut sure, "d", 9, Some("five"));
    gives(&rt, &mut sure, "e", 9, Some(""));
}

/// Pieces that are put, whether the call gives an answer, and what is written then: of the second call three bytes, of
/// the fourth all, of the fifth none.
const PUTS: [(&str, bool, &str); 6] = [
    ("abcd", true, "abcd"),
    ("efgh", false, "abcdefg"),
    ("", true, "abcdefg"),
    ("ij", false, "abcdefgij"),
    ("kl", false, "abcdefgij"),
    ("mn", true, "abcdefgijmn"),
];

#[test]
fn sinks_in_memory(rt: HostRuntime) {
    let fails = [(2u64, 3usize), (2, 1), (4, 100), (5, 0)];
    let mut sink = MemSink::new(rt.alloc(), fails.to_vec(rt.alloc()).expect(&rt, "a list"));
    let mut sure = SureSink::new(rt.alloc());
    for (piece, goes, written) in PUTS {
        assert_eq!(rt; sink.put(piece.as_bytes()).is_ok(), goes, "put {piece}");
        assert!(rt; sink.written() == written.as_bytes(), "after {piece}");
        assert_eq!(rt; sure.put(piece.as_bytes()), Ok(()));
    }
    assert!(rt; sure.written() == b"abcdefghijklmn".as_slice());
}

#[test]
fn files_of_the_system(rt: HostRuntime) {
    let name = "sg_trials_base.bytes";
    let mut long = Vec::new(rt.alloc());
    for k in 0..50_000u32 {
        long.push((k % 251) as u8).expect(&rt, "a byte");
    }
    let mut shelf = FileShelf::new(&rt);
    assert_eq!(rt; shelf.keep(name, &long), Ok(()));
    assert!(rt;
        fs::read(&rt, name).expect(&rt, "a file") == long,
        "the file has what was kept"
    );
    for most in [0usize, 1, 16_384, 16_385, 50_000, 60_000] {
        let got = shelf.fetch(rt.alloc(), name, most).expect(&rt, "bytes");
        assert!(rt;
            got.as_slice() == &long[..most.min(long.len())],
            "fetch {most}"
        );
    }
    assert_eq!(rt; shelf.keep(name, b"short"), Ok(()));
    gives(&rt, &mut shelf, name, 9, Some("short"));
    fs::remove_file(&rt, name).expect(&rt, "a file");
    gives(&rt, &mut shelf, name, 9, None);

    // A folder can be opened, and fails at the first read.
    gives(&rt, &mut shelf, ".", 9, None);
    assert_eq!(rt; shelf.keep(".", b"short"), Err(ShelfError::Failed));
}

/// A runtime whose standard output is a pipe that takes at most three bytes at a time.
#[derive(Drop)]
struct Narrow(PipeWriter);

impl Print for Narrow {
    fn print<D: Display + Drop>(&self, _value: D) -> io::Result<()> {
        Err(io::Error::from(io::ErrorKind::Unsupported))
    }

    fn println<D: Display + Drop>(&self, _value: D) -> io::Result<()> {
        Err(io::Error::from(io::ErrorKind::Unsupported))
    }

    fn write_all(&self, bytes: &[u8]) -> io::Result<()> {
        (&self.0).write_all(bytes)
    }

    fn write_some(&self, bytes: &[u8]) -> io::Result<usize> {
        (&self.0).write(&bytes[..bytes.len().min(3)])
    }
}

#[test]
fn a_narrow_output(rt: HostRuntime) {
    let (mut reader, writer) = io::pipe(&rt).expect(&rt, "a pipe");
    let narrow = Narrow(writer);
    let mut sink = OutSink::new(&narrow);
    for piece in ["first piece, ", "", "second piece\n"] {
        assert_eq!(rt; sink.put(piece.as_bytes()), Ok(()));
    }
    let mut got = [0u8; 26];
    reader.read_exact(&mut got).expect(&rt, "what was put");
    assert!(rt; got.as_slice() == b"first piece, second piece\n".as_slice());

    // Nobody reads any more.
    drop(reader);
    assert_eq!(rt; sink.put(b"third piece"), Err(SinkError::Failed));
    assert_eq!(rt;
        OutSink::new(&rt).put(b"a piece on the standard output\n"),
        Ok(())
    );
}

#[test]
fn each_call_has_its_reply(rt: HostRuntime) {
    let fails = [2u64, 3].to_vec(rt.alloc()).expect(&rt, "a list");
    let files = files(&rt, &[("a", "one")]);
    let mut shelf = MemShelf::new(rt.alloc(), files, fails).expect(&rt, "a shelf");
    let mut replies = Vec::new(rt.alloc());
    replies.reserve(1).expect(&rt, "room");
    let front = fetched(rt.alloc(), &mut shelf, "a", 2).expect(&rt, "a reply");
    assert!(rt; matches!(&front, Reply::Fetched(text) if text.as_slice() == b"on".as_slice()));
    let missing = fetched(rt.alloc(), &mut shelf, "a", 9);
    assert!(rt; matches!(missing, Ok(Reply::FetchFailed)));
    let lost = kept(&mut shelf, "b", b"two");
    assert!(rt; matches!(lost, Ok(Reply::KeepFailed)));
    let put = kept(&mut shelf, "b", b"two");
    assert!(rt; matches!(put, Ok(Reply::Kept)));
    add(&mut replies, front);
    assert_eq!(rt; replies.len(), 1);
}
