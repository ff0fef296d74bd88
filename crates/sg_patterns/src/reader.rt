//! The reading of a pattern byte by byte.
ghost use Rattle.std.specs.Prelude.{◌≡◌, ℕ, Bool, ◌∷◌, [], List, Some, unwrap_or, true, OnOk, IfOk};
ghost use Rattle.sg_kinds.specs.Lexemes as plain;
ghost use Rattle.sg_kinds.specs.LexemeCode.{act};
ghost use Rattle.sg_kinds.specs.LexemeView.{instruction_of};
ghost use Rattle.sg_patterns.specs.Machine as machine;
ghost use Rattle.sg_patterns.specs.Machine.{State, with_piece, whole, joined, barred, opened, closed, ended};
ghost use Rattle.sg_patterns.specs.Readers.{flags_of, put_part, frame_parts, made_by, ReadsIn, Reads, InBrackets, Fed};
ghost use Rattle.sg_patterns.specs.declared.reader.Mode.{Mode as IsMode};
ghost use Rattle.sg_patterns.specs.declared.reader.Inside.TheVariants as inside;

use crate::kinds::{Kind, is_plain_inside, is_special, kind_of};
use sg_kinds::lexeme::{Lexeme, LexemeStep};
use sg_kinds::memory::NoMemory;
use sg_kinds::row::Row;
use std::alloc::Global;
use std::mem;

/// Where the reading stands in brackets: behind the first, behind `[^`, behind the low byte of a range, behind a range,
/// behind its dash, behind a backslash before the low byte, behind a backslash before the high one.
#[derive(Clone, Copy)]
pub enum Inside {
    Open,
    Start,
    Low(u8),
    Done,
    Dash(u8),
    StartEscape,
    EndEscape(u8),
}

/// Where the reading stands: before a base, behind a base which a sign may follow, behind a backslash, in brackets.
#[derive(Clone, Copy)]
pub enum Mode {
    Ready,
    Held,
    Escape,
    Bracket(Inside),
}

/// What stands in a parenthesis so far: whether there are alternatives before the last bar, and pieces after it.
#[derive(Clone, Copy)]
pub struct Frame {
    pub alternatives: bool,
    pub sequence: bool,
}

const EMPTY: Frame = Frame {
    alternatives: false,
    sequence: false,
};

/// The steps of what is read so far, the parentheses that are open, and the brackets.
#[derive(Drop)]
pub struct Reader {
    alloc: Global,
    pub steps: Vec<LexemeStep>,
    pub outer: Vec<Frame>,
    pub frame: Frame,
    pub negated: bool,
    pub ranges: Vec<(u8, u8)>,
    pub mode: Mode,
}

const DEEPEST: usize = 64;

// the greatest byte that may stand after a backslash
const GREATEST_SPECIAL: u8 = b'|';

impl Reader {
    /// The reader before the first byte.
    pub fn new(alloc: Global) -> Reader
        ensures { Reads result (machine.Ready [] machine.empty_frame) }
    {
        Reader {
            alloc,
            steps: Vec::new(alloc),
            outer: Vec::new(alloc),
            frame: EMPTY,
            negated: false,
            ranges: Vec::new(alloc),
            mode: Mode::Ready,
        }
    }

    /// Puts a step behind the others.
    fn emit(&mut self, step: LexemeStep) -> Result<(), NoMemory>
        ensures made { OnOk result (made_by self.new.steps.items
            ≡ act (instruction_of step) (made_by self.old.steps.items)) }
        ensures rest { self.new ≡ record self.old { steps = self.new.steps } }
    {
        self.steps.push(step)?;
        Ok(())
    }

    /// Joins the piece made last to those before it.
    fn join_piece(&mut self) -> Result<(), NoMemory>
        ensures made { (f : machine.Frame) (p : plain.Lexeme) (rest : List plain.Lexeme) → self.old.frame ≡ flags_of f
            → made_by self.old.steps.items ≡ p ∷ frame_parts f rest
            → OnOk result (made_by self.new.steps.items ≡ frame_parts (with_piece f p) rest) }
        ensures rest { OnOk result (self.new ≡ record self.old {
          steps = self.new.steps;
          frame = record self.old.frame { sequence = true };
        }) }
    {
        if self.frame.sequence {
            self.emit(LexemeStep::Then)?;
        }
        self.frame.sequence = true;
        Ok(())
    }

    /// Puts the pattern of the empty text where no piece stands behind the last bar.
    fn fill(&mut self) -> Result<(), NoMemory>
        ensures made { (f : machine.Frame) (rest : List plain.Lexeme) → self.old.frame ≡ flags_of f
            → made_by self.old.steps.items ≡ frame_parts f rest
            → OnOk result (made_by self.new.steps.items
            ≡ unwrap_or f.sequence plain.Nothing ∷ put_part f.alternatives rest) }
        ensures rest { self.new ≡ record self.old { steps = self.new.steps } }
    {
        if self.frame.sequence {
            return Ok(());
        }
        self.emit(LexemeStep::Nothing)
    }

    /// Joins the alternative behind the last bar to those before it.
    fn join_alternative(&mut self) -> Result<(), NoMemory>
        ensures made { (f : machine.Frame) (q : plain.Lexeme) (rest : List plain.Lexeme) → self.old.frame ≡ flags_of f
            → made_by self.old.steps.items ≡ q ∷ put_part f.alternatives rest
            → OnOk result (made_by self.new.steps.items ≡ joined f.alternatives q ∷ rest) }
        ensures rest { self.new ≡ record self.old { steps = self.new.steps } }
    {
        if !self.frame.alternatives {
            return Ok(());
        }
        self.emit(LexemeStep::Either)
    }

    /// Makes one pattern of what stands in the parenthesis.
    fn close(&mut self) -> Result<(), NoMemory>
        ensures made { (f : machine.Frame) (rest : List plain.Lexeme) → self.old.frame ≡ flags_of f
            → made_by self.old.steps.items ≡ frame_parts f rest
            → OnOk result (made_by self.new.steps.items ≡ whole f ∷ rest) }
        ensures rest { self.new ≡ record self.old { steps = self.new.steps } }
    {
        self.fill()?;
        self.join_alternative()
    }

    /// Ends an alternative.
    fn bar(&mut self) -> Result<bool, NoMemory>
        ensures { (m : IsMode) (outer : List machine.Frame) (f : machine.Frame) → ReadsIn self.old m outer f []
            → IfOk result (λ more. Fed (Some (machine.Ready outer (barred f))) more self.new) }
    {
        self.close()?;
        self.frame = Frame {
            alternatives: true,
            sequence: false,
        };
        self.mode = Mode::Ready;
        Ok(true)
    }

    /// Opens a parenthesis, unless as many are open as may be.
    fn open(&mut self) -> Result<bool, NoMemory>
        ensures { (m : IsMode) (outer : List machine.Frame) (f : machine.Frame) → ReadsIn self.old m outer f []
            → IfOk result (λ more. Fed (opened outer f) more self.new) }
    {
        if self.outer.len() >= DEEPEST {
            return Ok(false);
        }
        self.outer.push(self.frame)?;
        self.frame = EMPTY;
        self.mode = Mode::Ready;
        Ok(true)
    }

    /// Closes the innermost parenthesis, if one is open.
    fn close_parenthesis(&mut self) -> Result<bool, NoMemory>
        ensures { (m : IsMode) (outer : List machine.Frame) (f : machine.Frame) → ReadsIn self.old m outer f []
            → IfOk result (λ more. Fed (closed outer f) more self.new) }
    {
        let Some(around) = self.outer.pop() else {
            return Ok(false);
        };
        self.close()?;
        self.frame = around;
        self.mode = Mode::Held;
        Ok(true)
    }

    /// Takes a base of one step.
    fn hold(&mut self, step: LexemeStep) -> Result<bool, NoMemory>
        ensures { (m : IsMode) (outer : List machine.Frame) (f : machine.Frame) (p : plain.Lexeme)
            → ReadsIn self.old m outer f [] → ((ps : List plain.Lexeme) → act (instruction_of step) ps ≡ p ∷ ps)
            → IfOk result (λ more. Fed (Some (machine.Held outer f p)) more self.new) }
    {
        self.emit(step)?;
        self.mode = Mode::Held;
        Ok(true)
    }

    /// Takes a sign behind a base.
    fn sign(&mut self, step: LexemeStep) -> Result<bool, NoMemory>
        ensures { (m : IsMode) (outer : List machine.Frame) (f : machine.Frame) (p q : plain.Lexeme)
            → ReadsIn self.old m outer f (p ∷ []) → ((ps : List plain.Lexeme)
            → act (instruction_of step) (p ∷ ps) ≡ q ∷ ps)
            → IfOk result (λ more. Fed (Some (machine.Ready outer (with_piece f q))) more self.new) }
    {
        self.emit(step)?;
        self.join_piece()?;
        self.mode = Mode::Ready;
        Ok(true)
    }

    /// Takes a byte before a base.
    fn feed_ready(&mut self, byte: u8, kind: Kind) -> Result<bool, NoMemory>
        ensures { (m : IsMode) (outer : List machine.Frame) (f : machine.Frame) → ReadsIn self.old m outer f []
            → IfOk result (λ more. Fed (machine.feed_ready outer f byte kind) more self.new) }
    {
        match kind {
            Kind::Bar => self.bar(),
            Kind::LeftParenthesis => self.open(),
            Kind::RightParenthesis => self.close_parenthesis(),
            Kind::LeftBracket => {
                self.negated = false;
                self.ranges.clear();
                self.mode = Mode::Bracket(Inside::Open);
                Ok(true)
            }
            Kind::Backslash => {
                self.mode = Mode::Escape;
                Ok(true)
            }
            Kind::Stop => self.hold(LexemeStep::Dot),
            Kind::Plain | Kind::Caret | Kind::Dash => self.hold(LexemeStep::Byte(byte)),
            _ => Ok(false),
        }
    }

    /// Takes a byte behind a base.
    fn feed_held(&mut self, byte: u8, kind: Kind) -> Result<bool, NoMemory>
        ensures { (m : IsMode) (outer : List machine.Frame) (f : machine.Frame) (p : plain.Lexeme)
            → ReadsIn self.old m outer f (p ∷ []) → IfOk result
            (λ more. Fed (machine.feed_held outer f p byte kind) more self.new) }
    {
        match kind {
            Kind::Star => self.sign(LexemeStep::Many),
            Kind::Plus => self.sign(LexemeStep::Several),
            Kind::Query => self.sign(LexemeStep::Maybe),
            _ => {
                self.join_piece()?;
                self.feed_ready(byte, kind)
            }
        }
    }

    /// Takes the first byte of a range.
    fn feed_start(&mut self, byte: u8, kind: Kind) -> bool
        ensures { (m : IsMode) (outer : List machine.Frame) (f : machine.Frame) (negated : Bool) (rs : List (ℕ × ℕ))
            → InBrackets self.old m outer f negated rs
            → Fed (machine.feed_start outer f negated rs byte kind) result self.new }
    {
        match kind {
            Kind::Backslash => {
                self.mode = Mode::Bracket(Inside::StartEscape);
                true
            }
            Kind::Plain => {
                self.mode = Mode::Bracket(Inside::Low(byte));
                true
            }
            _ => false,
        }
    }

    /// Takes a byte behind a range.
    fn feed_next(&mut self, byte: u8, kind: Kind) -> Result<bool, NoMemory>
        ensures { (m : IsMode) (outer : List machine.Frame) (f : machine.Frame) (negated : Bool) (rs : List (ℕ × ℕ))
            → InBrackets self.old m outer f negated rs
            → IfOk result (λ more. Fed (machine.feed_next outer f negated rs byte kind) more self.new) }
    {
        match kind {
            Kind::RightBracket => {
                let ranges = mem::replace(&mut self.ranges, Vec::new(self.alloc));
                self.hold(LexemeStep::Class(self.negated, Row::new(ranges)))
            }
            _ => Ok(self.feed_start(byte, kind)),
        }
    }

    /// Takes the last byte of a range, if it may stand there and is not less than the first.
    fn feed_end(&mut self, low: u8, byte: u8, good: bool) -> Result<bool, NoMemory>
        ensures { (m : IsMode) (outer : List machine.Frame) (f : machine.Frame) (negated : Bool) (rs : List (ℕ × ℕ))
            → InBrackets self.old m outer f negated rs
            → IfOk result (λ more. Fed (machine.feed_end outer f negated rs low byte good) more self.new) }
    {
        if !(good && low <= byte) {
            return Ok(false);
        }
        self.ranges.push((low, byte))?;
        self.mode = Mode::Bracket(Inside::Done);
        Ok(true)
    }

    /// Takes a byte behind the low byte of a range.
    fn feed_low(&mut self, low: u8, byte: u8, kind: Kind) -> Result<bool, NoMemory>
        ensures { (m : IsMode) (outer : List machine.Frame) (f : machine.Frame) (negated : Bool) (rs : List (ℕ × ℕ))
            → InBrackets self.old m outer f negated rs
            → IfOk result (λ more. Fed (machine.feed_inside outer f negated rs
            (inside.Low low) byte kind) more self.new) }
    {
        match kind {
            Kind::Dash => {
                self.mode = Mode::Bracket(Inside::Dash(low));
                Ok(true)
            }
            _ => {
                self.ranges.push((low, low))?;
                self.feed_next(byte, kind)
            }
        }
    }

    /// Takes a byte behind the dash of a range.
    fn feed_dash(&mut self, low: u8, byte: u8, kind: Kind) -> Result<bool, NoMemory>
        ensures { (m : IsMode) (outer : List machine.Frame) (f : machine.Frame) (negated : Bool) (rs : List (ℕ × ℕ))
            → InBrackets self.old m outer f negated rs
            → IfOk result (λ more. Fed (machine.feed_inside outer f negated rs
            (inside.Dash low) byte kind) more self.new) }
    {
        match kind {
            Kind::Backslash => {
                if low > GREATEST_SPECIAL {
                    return Ok(false);
                }
                self.mode = Mode::Bracket(Inside::EndEscape(low));
                Ok(true)
            }
            _ => self.feed_end(low, byte, is_plain_inside(kind)),
        }
    }

    /// Takes a byte behind the first bracket.
    fn feed_open(&mut self, byte: u8, kind: Kind) -> bool
        ensures { (m : IsMode) (outer : List machine.Frame) (f : machine.Frame) (negated : Bool) (rs : List (ℕ × ℕ))
            → InBrackets self.old m outer f negated rs
            → Fed (machine.feed_inside outer f negated rs inside.Open byte kind) result self.new }
    {
        match kind {
            Kind::Caret => {
                self.negated = true;
                self.mode = Mode::Bracket(Inside::Start);
                true
            }
            _ => self.feed_start(byte, kind),
        }
    }

    /// Takes a byte behind a backslash before the low byte of a range.
    fn feed_escape(&mut self, byte: u8, kind: Kind) -> bool
        ensures { (m : IsMode) (outer : List machine.Frame) (f : machine.Frame) (negated : Bool) (rs : List (ℕ × ℕ))
            → InBrackets self.old m outer f negated rs
            → Fed (machine.feed_inside outer f negated rs inside.StartEscape byte kind) result self.new }
    {
        if !is_special(kind) {
            return false;
        }
        self.mode = Mode::Bracket(Inside::Low(byte));
        true
    }

    /// Takes a byte in brackets.
    fn feed_inside(&mut self, inside: Inside, byte: u8, kind: Kind) -> Result<bool, NoMemory>
        ensures { (m : IsMode) (outer : List machine.Frame) (f : machine.Frame) (negated : Bool) (rs : List (ℕ × ℕ))
            → InBrackets self.old m outer f negated rs
            → IfOk result (λ more. Fed (machine.feed_inside outer f negated rs inside byte kind) more self.new) }
    {
        match inside {
            Inside::Open => Ok(self.feed_open(byte, kind)),
            Inside::Start => Ok(self.feed_start(byte, kind)),
            Inside::Low(low) => self.feed_low(low, byte, kind),
            Inside::Done => self.feed_next(byte, kind),
            Inside::Dash(low) => self.feed_dash(low, byte, kind),
            Inside::StartEscape => Ok(self.feed_escape(byte, kind)),
            Inside::EndEscape(low) => self.feed_end(low, byte, is_special(kind)),
        }
    }

    /// Takes a byte behind a backslash outside brackets.
    fn feed_quoted(&mut self, byte: u8, kind: Kind) -> Result<bool, NoMemory>
        ensures { (m : IsMode) (outer : List machine.Frame) (f : machine.Frame) → ReadsIn self.old m outer f []
            → IfOk result (λ more. Fed (machine.feed_kind (machine.Escape outer f) byte kind) more self.new) }
    {
        if !is_special(kind) {
            return Ok(false);
        }
        self.hold(LexemeStep::Byte(byte))
    }

    /// Takes one more byte, unless no pattern goes on so: then the answer is false.
    pub fn feed(&mut self, byte: u8) -> Result<bool, NoMemory>
        ensures { (σ : State) → Reads self.old σ → IfOk result (λ more. Fed (machine.feed σ byte) more self.new) }
    {
        let kind = kind_of(byte);
        match self.mode {
            Mode::Ready => self.feed_ready(byte, kind),
            Mode::Held => self.feed_held(byte, kind),
            Mode::Escape => self.feed_quoted(byte, kind),
            Mode::Bracket(inside) => self.feed_inside(inside, byte, kind),
        }
    }

    /// The pattern of what stands outside all parentheses.
    fn end(mut self) -> Result<Option<Lexeme>, NoMemory>
        ensures { (m : IsMode) (f : machine.Frame) → ReadsIn self m [] f [] → IfOk result (λ l. l ≡ Some (whole f)) }
    {
        self.close()?;
        Ok(Some(Lexeme {
            steps: Row::new(self.steps),
        }))
    }

    /// The pattern, or None where it may not end here.
    pub fn finish(mut self) -> Result<Option<Lexeme>, NoMemory>
        ensures { (σ : State) → Reads self σ → IfOk result (λ l. l ≡ ended σ) }
    {
        if self.outer.len() > 0 {
            return Ok(None);
        }
        match self.mode {
            Mode::Ready => self.end(),
            Mode::Held => {
                self.join_piece()?;
                self.end()
            }
            Mode::Escape => Ok(None),
            Mode::Bracket(_) => Ok(None),
        }
    }
}
