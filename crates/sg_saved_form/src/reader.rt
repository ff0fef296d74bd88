//! The reading of a saved file byte by byte.
ghost use Rattle.std.specs.Prelude.{◌≡◌, ◌+◌, ◌∷◌, [], ◌++◌, ℕ, ℤ, ◌-◌, List, Some, true, false, slice_get, if◌then◌else◌, None, length, max, OnOk, IfOk, MatchOption};
ghost use Rattle.sg_kinds.specs.Values.{Bytes, is_number};
ghost use Rattle.sg_text.specs.Bytes.{is_escape};
ghost use Rattle.sg_text.specs.Words as words;
ghost use Rattle.sg_saved_form.specs.Files.{Raw};
ghost use Rattle.sg_saved_form.specs.Machine as machine;
ghost use Rattle.sg_saved_form.specs.Machine.{State, Open, outer, ended, text_of, with_kid};
ghost use Rattle.sg_saved_form.specs.Notes.{notes_of, height_of, first_place};
ghost use Rattle.sg_saved_form.specs.Readers.{IsBefore, IsIn, IsAfter, Reads, Fed};
ghost use Rattle.sg_saved_form.specs.declared.notes.Noted.TheVariants as noted;
ghost use Rattle.sg_saved_form.specs.declared.reader.Mode.{Mode as IsMode};
ghost use Rattle.sg_saved_form.specs.declared.reader.Mode.TheVariants as mode;

use crate::kinds::{Kind, kind_of};
use crate::notes::{Note, Noted, Outline};
use sg_kinds::limits::NAME_BYTES;
use sg_kinds::memory::NoMemory;
use sg_text::{Keyword, keyword_of};
use std::alloc::Global;

/// Where the reading stands: behind so many bytes of the first line, before a term, in a name, behind a dash, in a
/// number other than 0, in a text, behind a backslash in it, behind a term, behind the last line.
#[derive(Clone, Copy)]
pub enum Mode {
    Frame(usize),
    Before,
    Name,
    Minus,
    Digits,
    Text,
    Escape,
    After,
    End,
}

/// What is read so far: the notes of the nodes, which of them are open, the innermost last, the greatest depth, the
/// first byte of a term that has not ended, the bytes of a name, and the value of a number.
#[derive(Drop)]
pub struct Reader {
    pub notes: Vec<Note>,
    pub path: Vec<usize>,
    pub depth: usize,
    pub from: u32,
    pub name: Vec<u8>,
    pub value: i64,
    pub mode: Mode,
}

const FRAME: [u8; 5] = *b"SGT1\n";

/// A number with one more digit, if it has 64 bits.
fn with_digit(value: i64, byte: u8) -> Option<i64>
    ensures { let z = machine.with_digit value byte in result ≡ (if is_number z then Some z else None) }
{
    let digit = i64::from(byte.saturating_sub(b'0'));
    let tens = value.checked_mul(10)?;
    if value < 0 {
        tens.checked_sub(digit)
    } else {
        tens.checked_add(digit)
    }
}

/// The truth value of a reserved word.
fn flag_of(word: Option<Keyword>) -> Option<bool>
    ensures { result ≡ machine.flag_of word }
{
    match word {
        Some(Keyword::True) => Some(true),
        Some(Keyword::False) => Some(false),
        _ => None,
    }
}

/// Whether a byte may stand behind a backslash.
fn is_escape(byte: u8) -> bool
    ensures { result ≡ is_escape byte }
{
    byte == b'"' || byte == b'\\' || byte == b'n'
}

impl Reader {
    /// The reader before the first byte.
    pub fn new(alloc: Global) -> Reader
        ensures { Reads result (machine.Frame 0) }
    {
        Reader {
            notes: Vec::new(alloc),
            path: Vec::new(alloc),
            depth: 0,
            from: 0,
            name: Vec::new(alloc),
            value: 0,
            mode: Mode::Frame(0),
        }
    }

    /// Notes the term that began at `from`, without children.
    fn note(&mut self, what: Noted) -> Result<(), NoMemory>
        ensures noted { OnOk result (self.new.notes.items
            ≡ self.old.notes.items ++ record { from = self.old.from; kids = 0; what = what } ∷ []) }
        ensures depth { OnOk result (self.new.depth ≡ max self.old.depth (length self.old.path.items + 1)) }
        ensures rest { self.new ≡ record self.old { notes = self.new.notes; depth = self.new.depth } }
    {
        self.notes.push(Note {
            from: self.from,
            kids: 0,
            what,
        })?;
        self.depth = self.depth.max(self.path.len() + 1);
        Ok(())
    }

    /// Ends a leaf.
    fn take_leaf(&mut self, what: Noted) -> Result<bool, NoMemory>
        ensures { (m : IsMode) (os : List Open) (x : Raw) → IsIn self.old m os
            → notes_of self.old.from x ≡ record { from = self.old.from; kids = 0; what = what } ∷ [] → height_of x ≡ 1
            → IfOk result (λ more. Fed (Some (machine.After os x)) more self.new) }
    {
        self.note(what)?;
        self.mode = Mode::After;
        Ok(true)
    }

    /// Begins a term at a place.
    fn begin(&mut self, at: u32, mode: Mode) -> bool
        ensures begun { result ≡ true }
        ensures rest { self.new ≡ record self.old { from = at; mode = mode } }
    {
        self.from = at;
        self.mode = mode;
        true
    }

    /// The place of the note of the innermost open node.
    fn innermost(&self) -> Option<usize>
        ensures { result ≡ slice_get self.now.path.items (length self.now.path.items - 1) }
    {
        self.path.last().copied()
    }

    /// Counts one more child of the innermost open node, if one is open.
    fn add_kid(&mut self) -> Result<bool, NoMemory>
        ensures none { (m : IsMode) (x : Raw) → IsAfter self.old m [] x → IfOk result (λ more. more ≡ false) }
        ensures some { (m : IsMode) (o : Open) (os : List Open) (x : Raw) → IsAfter self.old m (o ∷ os) x
            → IfOk result (λ more. (more ≡ true) × IsBefore self.new m (with_kid o x ∷ os)) }
        ensures same { self.new ≡ record self.old { notes = self.new.notes } }
    {
        let Some(place) = self.innermost() else {
            return Ok(false);
        };
        let Some(&note) = self.notes.get(place) else {
            return Ok(false);
        };
        let Some(kids) = note.kids.checked_add(1) else {
            return Err(NoMemory);
        };
        self.notes[place] = Note {
            from: note.from,
            kids,
            what: note.what,
        };
        Ok(true)
    }

    /// Takes a byte of the first line.
    fn feed_frame(&mut self, place: usize, byte: u8) -> bool
        ensures { (m : IsMode) → IsBefore self.old m [] → Fed (machine.feed_frame place byte) result self.new }
    {
        if place >= FRAME.len() || byte != FRAME[place] {
            return false;
        }
        self.mode = if place + 1 == FRAME.len() {
            Mode::Before
        } else {
            Mode::Frame(place + 1)
        };
        true
    }

    /// Closes the innermost open node, if one is open and has no children.
    fn close_empty(&mut self) -> bool
        ensures { (m : IsMode) (os : List Open) → IsBefore self.old m os
            → Fed (machine.close_empty os) result self.new }
    {
        let Some(place) = self.innermost() else {
            return false;
        };
        let Some(&note) = self.notes.get(place) else {
            return false;
        };
        if note.kids > 0 {
            return false;
        }
        let _ = self.path.pop();
        self.mode = Mode::After;
        true
    }

    /// Takes a byte at a place before a term.
    fn feed_before(&mut self, at: u32, byte: u8, kind: Kind) -> Result<bool, NoMemory>
        ensures { (m : IsMode) (os : List Open) → IsBefore self.old m os → at ≡ length (outer os)
            → IfOk result (λ more. Fed (machine.feed_before os byte kind) more self.new) }
    {
        match kind {
            Kind::Letter => {
                self.name.clear();
                self.name.push(byte)?;
                Ok(self.begin(at, Mode::Name))
            }
            Kind::Zero => {
                self.from = at;
                self.take_leaf(Noted::Number(0))
            }
            Kind::Digit => {
                self.value = i64::from(byte.saturating_sub(b'0'));
                Ok(self.begin(at, Mode::Digits))
            }
            Kind::Dash => Ok(self.begin(at, Mode::Minus)),
            Kind::DoubleQuote => Ok(self.begin(at, Mode::Text)),
            Kind::RightParenthesis => Ok(self.close_empty()),
            _ => Ok(false),
        }
    }

    /// Takes a byte behind a term.
    fn feed_after(&mut self, kind: Kind) -> Result<bool, NoMemory>
        ensures { (m : IsMode) (os : List Open) (x : Raw) → IsAfter self.old m os x
            → IfOk result (λ more. Fed (machine.feed_after os x kind) more self.new) }
    {
        match kind {
            Kind::Comma => {
                self.mode = Mode::Before;
                self.add_kid()
            }
            Kind::RightParenthesis => {
                self.mode = Mode::After;
                if !self.add_kid()? {
                    return Ok(false);
                }
                let _ = self.path.pop();
                Ok(true)
            }
            Kind::Newline => {
                self.mode = Mode::End;
                Ok(self.path.is_empty())
            }
            _ => Ok(false),
        }
    }

    /// Takes a byte that goes on with a name, up to 64 bytes.
    fn longer_name(&mut self, byte: u8) -> Result<bool, NoMemory>
        ensures { (os : List Open) (bs : Bytes) → Reads self.old (machine.Name os bs)
            → IfOk result (λ more. Fed (machine.longer_name os bs byte) more self.new) }
    {
        if self.name.len() >= NAME_BYTES {
            return Ok(false);
        }
        self.name.push(byte)?;
        Ok(true)
    }

    /// Opens a node behind its name, unless the name is reserved.
    fn open_node(&mut self, at: u32) -> Result<bool, NoMemory>
        ensures { (os : List Open) (bs : Bytes) → Reads self.old (machine.Name os bs) → at ≡ length (outer os ++ bs)
            → IfOk result (λ more. Fed (machine.open_node os bs) more self.new) }
    {
        if keyword_of(self.name.as_slice()).is_some() {
            return Ok(false);
        }
        let place = self.notes.len();
        self.note(Noted::Operator(at))?;
        self.path.push(place)?;
        self.mode = Mode::Before;
        Ok(true)
    }

    /// Takes a byte behind a name that stands alone.
    fn feed_flag(&mut self, kind: Kind) -> Result<bool, NoMemory>
        ensures { (os : List Open) (bs : Bytes) → Reads self.old (machine.Name os bs)
            → IfOk result
            (λ more. Fed (machine.feed_flag os (machine.flag_of (words.keyword_of bs)) kind) more self.new) }
    {
        let Some(flag) = flag_of(keyword_of(self.name.as_slice())) else {
            return Ok(false);
        };
        self.take_leaf(Noted::Truth(flag))?;
        self.feed_after(kind)
    }

    /// Takes a byte at a place behind a name.
    fn feed_name(&mut self, at: u32, byte: u8, kind: Kind) -> Result<bool, NoMemory>
        ensures { (os : List Open) (bs : Bytes) → Reads self.old (machine.Name os bs) → at ≡ length (outer os ++ bs)
            → IfOk result (λ more. Fed (machine.feed_name os bs byte kind) more self.new) }
    {
        match kind {
            Kind::Letter | Kind::Zero | Kind::Digit => self.longer_name(byte),
            Kind::LeftParenthesis => self.open_node(at),
            _ => self.feed_flag(kind),
        }
    }

    /// Takes a byte behind a dash.
    fn feed_minus(&mut self, byte: u8, kind: Kind) -> bool
        ensures { (os : List Open) → Reads self.old (machine.Minus os)
            → Fed (machine.feed_minus os byte kind) result self.new }
    {
        if !matches!(kind, Kind::Digit) {
            return false;
        }
        self.value = -1 - i64::from(byte.saturating_sub(b'1'));
        self.mode = Mode::Digits;
        true
    }

    /// What a number is noted as.
    fn number(&self) -> Noted
        ensures { result ≡ noted.Number self.now.value }
    {
        Noted::Number(self.value)
    }

    /// Takes a byte behind a number other than 0.
    fn feed_digits(&mut self, byte: u8, kind: Kind) -> Result<bool, NoMemory>
        ensures { (os : List Open) (z : ℤ) → Reads self.old (machine.Digits os z)
            → IfOk result (λ more. Fed (machine.feed_digits os z byte kind) more self.new) }
    {
        match kind {
            Kind::Zero | Kind::Digit => {
                let Some(value) = with_digit(self.value, byte) else {
                    return Ok(false);
                };
                self.value = value;
                Ok(true)
            }
            _ => {
                let what = self.number();
                self.take_leaf(what)?;
                self.feed_after(kind)
            }
        }
    }

    /// Takes a byte at a place in a text.
    fn feed_text(&mut self, at: u32, kind: Kind) -> Result<bool, NoMemory>
        ensures { (os : List Open) (s : Bytes) (byte : ℕ) → Reads self.old (machine.Text os s)
            → at ≡ length (text_of (machine.Text os s))
            → IfOk result (λ more. Fed (machine.feed_text os s byte kind) more self.new) }
    {
        match kind {
            Kind::DoubleQuote => self.take_leaf(Noted::Text(at)),
            Kind::Backslash => {
                self.mode = Mode::Escape;
                Ok(true)
            }
            Kind::Newline | Kind::Other => Ok(false),
            _ => Ok(true),
        }
    }

    /// Takes a byte behind a backslash.
    fn feed_escape(&mut self, byte: u8) -> bool
        ensures { (os : List Open) (s : Bytes) → Reads self.old (machine.Escape os s)
            → Fed (machine.feed_escape os s byte) result self.new }
    {
        self.mode = Mode::Text;
        is_escape(byte)
    }

    /// Takes the byte at a place, unless no file goes on so: then the answer is false.
    pub fn feed(&mut self, at: u32, byte: u8) -> Result<bool, NoMemory>
        ensures { (σ : State) → Reads self.old σ → at ≡ length (text_of σ)
            → IfOk result (λ more. Fed (machine.feed σ byte) more self.new) }
    {
        let kind = kind_of(byte);
        match self.mode {
            Mode::Frame(place) => Ok(self.feed_frame(place, byte)),
            Mode::Before => self.feed_before(at, byte, kind),
            Mode::Name => self.feed_name(at, byte, kind),
            Mode::Minus => Ok(self.feed_minus(byte, kind)),
            Mode::Digits => self.feed_digits(byte, kind),
            Mode::Text => self.feed_text(at, kind),
            Mode::Escape => Ok(self.feed_escape(byte)),
            Mode::After => self.feed_after(kind),
            Mode::End => Ok(false),
        }
    }

    /// The notes of the whole file, or None where it may not end here.
    pub fn finish(self) -> Option<Outline>
        ensures { (σ : State) → Reads self σ → MatchOption result (ended σ ≡ None)
            (λ o. (x : Raw) × (ended σ ≡ Some x) × (o.notes.items ≡ notes_of first_place x)
            × (o.depth ≡ height_of x)) }
    {
        match self.mode {
            Mode::End => Some(Outline {
                notes: self.notes,
                depth: self.depth,
            }),
            _ => None,
        }
    }
}
