// Words of a line.
ghost use Rattle.std.specs.Prelude.{◌≡◌, ◌<◌, ◌≤◌, false, length, MatchOption, Some, None, IfSome};
ghost use Rattle.sg_script.specs.Words.{word_len, word_at, spaces_at, behind_spaces, next_word, closing, string_in, string_at, next_string, is_end, last_word, last_string};

/// A word, or what stands between the quotes of a string, and what follows it on the line.
#[derive(Clone, Copy)]
pub struct Cut<'a> {
    pub word: &'a [u8],
    pub rest: &'a [u8],
}

// how many bytes stand up to the next space
fn word_len(bytes: &[u8]) -> usize
    ensures value { result ≡ word_len bytes.now }
    ensures within { result ≤ length bytes.now }
{
    bytes.iter().take_while(|b| **b != b' ').count()
}

/// What stands up to the next space, and the rest.
pub fn word_at(bytes: &[u8]) -> Cut<'_>
    ensures word { result.word.now ≡ (word_at bytes.now).0 }
    ensures rest { result.rest.now ≡ (word_at bytes.now).1 }
{
    let len = word_len(bytes);
    Cut {
        word: &bytes[..len],
        rest: &bytes[len..],
    }
}

// how many spaces stand in front
fn spaces_at(bytes: &[u8]) -> usize
    ensures value { result ≡ spaces_at bytes.now }
    ensures within { result ≤ length bytes.now }
{
    bytes.iter().take_while(|b| **b == b' ').count()
}

// what follows one or more spaces
fn behind_spaces(rest: &[u8]) -> Option<&[u8]>
    ensures { MatchOption result (behind_spaces rest.now ≡ None) (λ s. behind_spaces rest.now ≡ Some s.now) }
{
    let count = spaces_at(rest);
    if count == 0 {
        None
    } else {
        Some(&rest[count..])
    }
}

/// The next word, behind one or more spaces.
pub fn next_word(rest: &[u8]) -> Option<Cut<'_>>
    ensures { MatchOption result (next_word rest.now ≡ None) (λ c. next_word rest.now ≡ Some (c.word.now, c.rest.now)) }
{
    match behind_spaces(rest) {
        Some(bytes) => Some(word_at(bytes)),
        None => None,
    }
}

// the place of the quote that closes a string
fn closing(bytes: &[u8]) -> Option<usize>
    ensures place { result ≡ closing false bytes.now }
    ensures within { IfSome result (λ n. n < length bytes.now) }
{
    let mut escaped = false;
    for (place, byte) in bytes.iter().enumerate() {
        if escaped {
            if !matches!(*byte, b'"' | b'\\' | b'n') {
                return None;
            }
            escaped = false;
        } else if *byte == b'"' {
            return Some(place);
        } else if *byte == b'\n' || *byte == b'\r' {
            return None;
        } else {
            escaped = *byte == b'\\';
        }
    }
    None
}

// a string behind its quote
fn string_in(text: &[u8]) -> Option<Cut<'_>>
    ensures { MatchOption result (string_in text.now ≡ None) (λ c. string_in text.now ≡ Some (c.word.now, c.rest.now)) }
{
    match closing(text) {
        Some(place) => Some(Cut {
            word: &text[..place],
            rest: &text[place + 1..],
        }),
        None => None,
    }
}

// a string that begins with its quote
fn string_at(text: &[u8]) -> Option<Cut<'_>>
    ensures { MatchOption result (string_at text.now ≡ None) (λ c. string_at text.now ≡ Some (c.word.now, c.rest.now)) }
{
    match text {
        [] => None,
        [first, inner @ ..] => {
            if *first == b'"' {
                string_in(inner)
            } else {
                None
            }
        }
    }
}

// the next string, behind one or more spaces
fn next_string(text: &[u8]) -> Option<Cut<'_>>
    ensures { MatchOption result (next_string text.now ≡ None) (λ c. next_string text.now
        ≡ Some (c.word.now, c.rest.now)) }
{
    match behind_spaces(text) {
        Some(bytes) => string_at(bytes),
        None => None,
    }
}

/// Whether there are only spaces.
pub fn is_end(rest: &[u8]) -> bool
    ensures { result ≡ is_end rest.now }
{
    rest.iter().all(|b| *b == b' ')
}

/// The next word, where only spaces follow it.
pub fn last_word(rest: &[u8]) -> Option<&[u8]>
    ensures { MatchOption result (last_word rest.now ≡ None) (λ w. last_word rest.now ≡ Some w.now) }
{
    match next_word(rest) {
        Some(cut) if is_end(cut.rest) => Some(cut.word),
        _ => None,
    }
}

/// The next string, where only spaces follow it.
pub fn last_string(rest: &[u8]) -> Option<&[u8]>
    ensures { MatchOption result (last_string rest.now ≡ None) (λ w. last_string rest.now ≡ Some w.now) }
{
    match next_string(rest) {
        Some(cut) if is_end(cut.rest) => Some(cut.word),
        _ => None,
    }
}
