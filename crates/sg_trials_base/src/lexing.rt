//! The tokens of texts, with where they stand.
use sg_text::{lex, unescape};
use std::fmt::Write;

/// A text, and its tokens as `KIND FROM TO LINE`, each with a comma.
const ROWS: [(&[u8], &str); 4] = [
    (
        b"::= :: : .. . $$ $ && || | == = != ! <= < >= > + - * / % # ? , ; ( ) [ ] { } @ ^ ~",
        "Symbol(ColonColonEquals) 0 3 1,Symbol(ColonColon) 4 6 1,Symbol(Colon) 7 8 1,Symbol(DotDot) 9 11 1,Symbol(Dot) 12 13 1,Symbol(DollarDollar) 14 16 1,Symbol(Dollar) 17 18 1,Symbol(AmpersandAmpersand) 19 21 1,Symbol(BarBar) 22 24 1,Symbol(Bar) 25 26 1,Symbol(EqualsEquals) 27 29 1,Symbol(Equals) 30 31 1,Symbol(BangEquals) 32 34 1,Symbol(Bang) 35 36 1,Symbol(LessEquals) 37 39 1,Symbol(Less) 40 41 1,Symbol(GreaterEquals) 42 44 1,Symbol(Greater) 45 46 1,Symbol(Plus) 47 48 1,Symbol(Minus) 49 50 1,Symbol(Star) 51 52 1,Symbol(Slash) 53 54 1,Symbol(Percent) 55 56 1,Symbol(Hash) 57 58 1,Symbol(Question) 59 60 1,Symbol(Comma) 61 62 1,Symbol(Semicolon) 63 64 1,Symbol(LeftParenthesis) 65 66 1,Symbol(RightParenthesis) 67 68 1,Symbol(LeftBracket) 69 70 1,Symbol(RightBracket) 71 72 1,Symbol(LeftBrace) 73 74 1,Symbol(RightBrace) 75 76 1,Symbol(At) 77 78 1,Symbol(Caret) 79 80 1,Symbol(Tilde) 81 82 1,",
    ),
    (
        b":::= ::: ... $$$ === !== <== |||",
        "Symbol(ColonColon) 0 2 1,Symbol(Colon) 2 3 1,Symbol(Equals) 3 4 1,Symbol(ColonColon) 5 7 1,Symbol(Colon) 7 8 1,Symbol(DotDot) 9 11 1,Symbol(Dot) 11 12 1,Symbol(DollarDollar) 13 15 1,Symbol(Dollar) 15 16 1,Symbol(EqualsEquals) 17 19 1,Symbol(Equals) 19 20 1,Symbol(BangEquals) 21 23 1,Symbol(Equals) 23 24 1,Symbol(LessEquals) 25 27 1,Symbol(Equals) 27 28 1,Symbol(BarBar) 29 31 1,Symbol(Bar) 31 32 1,",
    ),
    (
        b"_a1 007 12ab \"a\\\"b\" '\"\\' 9223372036854775807",
        "Name 0 3 1,Number(7) 4 7 1,Number(12) 8 10 1,Name 10 12 1,Text 13 19 1,Quoted 20 24 1,Number(9223372036854775807) 25 44 1,",
    ),
    (b"/*\n*/a\n/***/\n b", "Name 5 6 2,Name 14 15 4,"),
];

#[test]
fn tokens_of_texts(rt: HostRuntime) {
    for &(text, expected) in &ROWS {
        assert!(rt; text.len() < 1000);
        let tokens = lex(rt.alloc(), text).expect(&rt, "tokens");
        let mut shown = String::new(rt.alloc());
        for token in tokens {
            let kind = token.kind;
            let from = token.from;
            let to = token.to;
            let line = token.line;
            write!(shown, "{kind:?} {from} {to} {line},").expect(&rt, "a line");
        }
        assert_eq!(rt; shown.as_str(), expected);
    }
    let unescaped = unescape(rt.alloc(), b"a\\\"\\\\\\nn").expect(&rt, "a text");
    assert!(rt; unescaped.as_slice() == b"a\"\\\nn".as_slice());
}
