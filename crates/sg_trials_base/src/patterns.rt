//! Patterns with what they match at the front of a text, and the longest of several.
use sg_patterns::{longest, matches_empty, read};

/// A pattern, a text, how many bytes of it are the longest match, and whether the pattern matches the empty text.
const ROWS: [(&[u8], &[u8], Option<usize>, bool); 13] = [
    (b"a*b", b"aaab", Some(4), false),
    (b"(a|ab)(c|bcd)", b"abcd", Some(4), false),
    (b"((a*)*)*", b"aaa", Some(3), true),
    (b"(a|b)*abb", b"ababbabbc", Some(8), false),
    (b"[^a-y]+", b"zz\nz~a", Some(5), false),
    (b".*", b"ab\ncd", Some(2), true),
    (b"a?a?a?aaa", b"aaaa", Some(4), false),
    (b"\\**\\.", b"***.", Some(4), false),
    (b"(a*b|c)+d?", b"aabccbbdd", Some(8), false),
    (b"[0-9]+(\\.[0-9]+)?", b"12.x", Some(2), false),
    (b"a+", b"baa", None, false),
    (b"|a", b"aa", Some(1), true),
    (b"(ab?)*b", b"aababb", Some(6), false),
];

#[test]
fn patterns_match(rt: HostRuntime) {
    for (pattern, text, expected, empty) in ROWS {
        let lexeme = read(rt.alloc(), pattern).expect(&rt, "a pattern");
        assert_eq!(rt; matches_empty(rt.alloc(), &lexeme), Ok(empty));
        let mut all = Vec::new(rt.alloc());
        all.push(lexeme).expect(&rt, "a list");
        let found = longest(rt.alloc(), all.as_slice(), text, 0).expect(&rt, "memory");
        match (found, expected) {
            (Some((_, length)), Some(wanted)) => assert_eq!(rt; length, wanted),
            _ => assert!(rt; found.is_none() && expected.is_none()),
        }
    }
}

/// A place in `ab3 77f!`, and the number of the pattern with the longest match there, with its length.
const PLACES: [(usize, Option<(usize, usize)>); 8] = [
    (0, Some((0, 3))),
    (1, Some((0, 2))),
    (2, Some((2, 1))),
    (3, Some((1, 1))),
    (4, Some((3, 3))),
    (7, None),
    (8, None),
    (9, None),
];

#[test]
fn the_longest_of_several_patterns(rt: HostRuntime) {
    let mut all = Vec::new(rt.alloc());
    for pattern in [
        b"[a-z][a-z0-9]*".as_slice(),
        b"[ \n]+",
        b"[0-9]+",
        b"[0-9a-f]+",
    ] {
        let lexeme = read(rt.alloc(), pattern).expect(&rt, "a pattern");
        all.push(lexeme).expect(&rt, "a list");
    }
    for (at, expected) in PLACES {
        let found = longest(rt.alloc(), all.as_slice(), b"ab3 77f!", at);
        assert_eq!(rt; found, Ok(expected));
    }
}
