//! The tokens that are left of a declaration.
ghost use Rattle.std.specs.Prelude.{◌≡◌, ◌+◌, ◌<◌, ◌^◌, [], ◌∷◌, length, drop, not, MatchOption, Some};
ghost use denote.Enum.Bare.{sameb};
ghost use Rattle.sg_text.specs.contracts.symbols.Symbol as symbols;
ghost use Rattle.sg_text.specs.contracts.words.Keyword as keywords;
ghost use Rattle.sg_ast.specs.ReadingNames as names;
ghost use Rattle.sg_ast.specs.ReadingExpressions as rules;
ghost use Rattle.sg_ast.specs.Reading as decl;
ghost use Rattle.sg_ast.specs.Readers as spec;
ghost use Rattle.sg_cursor.specs.LexedView.{lexeme_in};

use crate::levels::{infix_of, level};
use crate::lexed::{Lexed, said};
use crate::refusal::Refusal;
use sg_ast::expr::Infix;
use sg_ast::name::{Name, Quoted};
use sg_ast::number::Number;
use sg_kinds::fault::Position;
use sg_kinds::text::Text;
use sg_text::{Keyword, Symbol, Token, unescape};
use std::alloc::Global;

/// The tokens that are left of a declaration, the text that they are of, and the number of the first in the text.
#[derive(Drop)]
pub struct Tokens<'a> {
    bytes: &'a [u8],
    left: &'a [Token],
    number: u32,
    ghost within: { number + length left.now < 2 ^ 32 },
}

fn same_symbol(a: Symbol, b: Symbol) -> bool
    ensures { result ≡ sameb symbols.the_type a b }
{
    a == b
}

fn same_keyword(a: Keyword, b: Keyword) -> bool
    ensures { result ≡ sameb keywords.the_type a b }
{
    a == b
}

fn is_sign(symbol: Symbol, next: Lexed<'_>) -> bool
    ensures { result ≡ spec.is_sign symbol (lexeme_in next.entry) }
{
    match next {
        Lexed::Sign(other) => same_symbol(symbol, other),
        _ => false,
    }
}

fn is_reserved(keyword: Keyword, next: Lexed<'_>) -> bool
    ensures { result ≡ spec.is_reserved keyword (lexeme_in next.entry) }
{
    match next {
        Lexed::Reserved(other) => same_keyword(keyword, other),
        _ => false,
    }
}

fn is_truth(next: Lexed<'_>) -> bool
    ensures { result ≡ names.is_truth (lexeme_in next.entry) }
{
    is_reserved(Keyword::True, next) || is_reserved(Keyword::False, next)
}

/// Whether an operand begins with this reserved word.
fn is_word(next: Lexed<'_>) -> bool
    ensures { result ≡ rules.is_word (lexeme_in next.entry) }
{
    is_truth(next) || is_reserved(Keyword::Let, next) || is_reserved(Keyword::With, next)
}

/// Whether this is a symbol of a production.
fn is_part(next: Lexed<'_>) -> bool
    ensures { result ≡ decl.is_part (lexeme_in next.entry) }
{
    matches!(next, Lexed::Word(_) | Lexed::Literal(_))
}

/// The operator of a lexeme.
fn infix_in(next: Lexed<'_>) -> Option<Infix>
    ensures { result ≡ rules.infix_in (lexeme_in next.entry) }
{
    match next {
        Lexed::Sign(symbol) => infix_of(symbol),
        _ => None,
    }
}

/// The operator, if its level is in these bounds.
fn between(least: u8, most: u8, next: Option<Infix>) -> Option<Infix>
    ensures { result ≡ rules.between least most next }
{
    match next {
        Some(operator) if least <= level(operator) && level(operator) <= most => Some(operator),
        _ => None,
    }
}

impl<'a> Tokens<'a> {
    ghost use Rattle.sg_ast.specs.Spells.{marks_from};
    ghost use Rattle.sg_cursor.specs.Left.{left_of, Reads};

    pub fn new(bytes: &'a [u8], left: &'a [Token], number: u32) -> Tokens<'a>
        requires { number + length left.now < 2 ^ 32 }
        ensures { left_of result ≡ marks_from bytes.now number left.now }
    {
        Tokens {
            bytes,
            left,
            number,
        }
    }

    #[tactic(auto, using(crate::proofs::Marks::length_marks))]
    pub fn len(&self) -> usize
        ensures { result ≡ length (left_of self.now) }
    {
        self.left.len()
    }

    /// What the next token says, and its place.
    fn next(&self) -> Option<(Lexed<'a>, Position)>
        ensures { MatchOption result (left_of self.now ≡ [])
            (λ n. left_of self.now ≡ (lexeme_in n.0, n.1) ∷ drop 1 (left_of self.now)) }
    {
        match self.left {
            [] => None,
            [first, ..] => Some((
                said(self.bytes, first),
                Position {
                    token: self.number,
                    line: first.line,
                },
            )),
        }
    }

    /// Passes over the next token.
    pub fn skip(&mut self)
        ensures { left_of self.new ≡ drop 1 (left_of self.old) }
    {
        if let [_, rest @ ..] = self.left {
            *self = Tokens {
                bytes: self.bytes,
                left: rest,
                number: self.number + 1,
            };
        }
    }

    #[tactic(auto, unfolding(sg_ast::specs::Readers::sees))]
    pub fn sees_sign(&self, symbol: Symbol) -> bool
        ensures { result ≡ spec.sees (spec.is_sign symbol) (left_of self.now) }
    {
        match self.next() {
            None => false,
            Some((next, _)) => is_sign(symbol, next),
        }
    }

    /// Whether there is a next token, and it is not this sign.
    #[tactic(auto, unfolding(sg_ast::specs::Readers::sees))]
    pub fn sees_other(&self, symbol: Symbol) -> bool
        ensures { result ≡ spec.sees (λ l. not (spec.is_sign symbol l)) (left_of self.now) }
    {
        match self.next() {
            None => false,
            Some((next, _)) => !is_sign(symbol, next),
        }
    }

    #[tactic(auto, unfolding(sg_ast::specs::Readers::sees))]
    pub fn sees_reserved(&self, keyword: Keyword) -> bool
        ensures { result ≡ spec.sees (spec.is_reserved keyword) (left_of self.now) }
    {
        match self.next() {
            None => false,
            Some((next, _)) => is_reserved(keyword, next),
        }
    }

    #[tactic(auto, unfolding(sg_ast::specs::Readers::sees))]
    pub fn sees_name(&self) -> bool
        ensures { result ≡ spec.sees spec.is_name (left_of self.now) }
    {
        match self.next() {
            None => false,
            Some((next, _)) => matches!(next, Lexed::Word(_)),
        }
    }

    #[tactic(auto, unfolding(sg_ast::specs::Readers::sees))]
    pub fn sees_number(&self) -> bool
        ensures { result ≡ spec.sees spec.is_numeral (left_of self.now) }
    {
        match self.next() {
            None => false,
            Some((next, _)) => matches!(next, Lexed::Numeral(_)),
        }
    }

    #[tactic(auto, unfolding(sg_ast::specs::Readers::sees))]
    pub fn sees_string(&self) -> bool
        ensures { result ≡ spec.sees spec.is_string (left_of self.now) }
    {
        match self.next() {
            None => false,
            Some((next, _)) => matches!(next, Lexed::String(_)),
        }
    }

    #[tactic(auto, unfolding(sg_ast::specs::Readers::sees))]
    pub fn sees_quoted(&self) -> bool
        ensures { result ≡ spec.sees spec.is_literal (left_of self.now) }
    {
        match self.next() {
            None => false,
            Some((next, _)) => matches!(next, Lexed::Literal(_)),
        }
    }

    /// Whether `true` or `false` stands next.
    #[tactic(auto, unfolding(sg_ast::specs::Readers::sees))]
    pub fn sees_truth(&self) -> bool
        ensures { result ≡ spec.sees names.is_truth (left_of self.now) }
    {
        match self.next() {
            None => false,
            Some((next, _)) => is_truth(next),
        }
    }

    /// Whether a reserved word stands next with which an operand begins.
    #[tactic(auto, unfolding(sg_ast::specs::Readers::sees))]
    pub fn sees_word(&self) -> bool
        ensures { result ≡ spec.sees rules.is_word (left_of self.now) }
    {
        match self.next() {
            None => false,
            Some((next, _)) => is_word(next),
        }
    }

    /// Whether a symbol of a production stands next.
    #[tactic(auto, unfolding(sg_ast::specs::Readers::sees))]
    pub fn sees_part(&self) -> bool
        ensures { result ≡ spec.sees decl.is_part (left_of self.now) }
    {
        match self.next() {
            None => false,
            Some((next, _)) => is_part(next),
        }
    }

    #[tactic(auto, unfolding(sg_ast::specs::Readers::eat))]
    pub fn eat_sign(&mut self, symbol: Symbol) -> bool
        ensures { spec.eat (spec.is_sign symbol) (left_of self.old) ≡ Some (result, left_of self.new) }
    {
        let found = self.sees_sign(symbol);
        if found {
            self.skip();
        }
        found
    }

    #[tactic(auto, unfolding(sg_ast::specs::Readers::eat))]
    pub fn eat_reserved(&mut self, keyword: Keyword) -> bool
        ensures { spec.eat (spec.is_reserved keyword) (left_of self.old) ≡ Some (result, left_of self.new) }
    {
        let found = self.sees_reserved(keyword);
        if found {
            self.skip();
        }
        found
    }

    #[tactic(auto, unfolding(sg_ast::specs::Readers::expect))]
    pub fn expect_sign(&mut self, symbol: Symbol) -> Result<Position, Refusal>
        ensures { Reads (λ x. x) (spec.expect (spec.is_sign symbol) (left_of self.old))
            result (left_of self.new) }
    {
        match self.next() {
            Some((next, place)) if is_sign(symbol, next) => {
                self.skip();
                Ok(place)
            }
            _ => Err(Refusal::NoReading),
        }
    }

    #[tactic(auto, unfolding(sg_ast::specs::Readers::expect))]
    pub fn expect_reserved(&mut self, keyword: Keyword) -> Result<Position, Refusal>
        ensures { Reads (λ x. x) (spec.expect (spec.is_reserved keyword) (left_of self.old))
            result (left_of self.new) }
    {
        match self.next() {
            Some((next, place)) if is_reserved(keyword, next) => {
                self.skip();
                Ok(place)
            }
            _ => Err(Refusal::NoReading),
        }
    }

    #[tactic(auto, unfolding(sg_ast::specs::Readers::name))]
    pub fn name(&mut self, alloc: Global) -> Result<Name, Refusal>
        ensures { Reads (λ n. n) (spec.name (left_of self.old)) result (left_of self.new) }
    {
        match self.next() {
            Some((Lexed::Word(word), place)) => {
                let text = Text::from_slice(alloc, word)?;
                self.skip();
                Ok(Name { text, place })
            }
            _ => Err(Refusal::NoReading),
        }
    }

    #[tactic(auto, unfolding(sg_ast::specs::Readers::number))]
    pub fn number(&mut self) -> Result<(Number, Position), Refusal>
        ensures { Reads (λ n. n) (spec.number (left_of self.old)) result (left_of self.new) }
    {
        match self.next() {
            Some((Lexed::Numeral(value), place)) => {
                let number = Number::new(value).ok_or(Refusal::NoReading)?;
                self.skip();
                Ok((number, place))
            }
            _ => Err(Refusal::NoReading),
        }
    }

    #[tactic(auto, unfolding(sg_ast::specs::Readers::string))]
    pub fn string(&mut self, alloc: Global) -> Result<Quoted, Refusal>
        ensures { Reads (λ s. s) (spec.string (left_of self.old)) result (left_of self.new) }
    {
        match self.next() {
            Some((Lexed::String(written), place)) => {
                let text = Text::new(unescape(alloc, written)?);
                self.skip();
                Ok(Quoted { text, place })
            }
            _ => Err(Refusal::NoReading),
        }
    }

    #[tactic(auto, unfolding(sg_ast::specs::Readers::quoted))]
    pub fn quoted(&mut self, alloc: Global) -> Result<Quoted, Refusal>
        ensures { Reads (λ s. s) (spec.quoted (left_of self.old)) result (left_of self.new) }
    {
        match self.next() {
            Some((Lexed::Literal(bytes), place)) => {
                let text = Text::from_slice(alloc, bytes)?;
                self.skip();
                Ok(Quoted { text, place })
            }
            _ => Err(Refusal::NoReading),
        }
    }

    /// Whether a name goes on as an occurrence.
    pub fn refers(&self) -> bool
        ensures { result ≡ names.refers (left_of self.now) }
    {
        self.sees_sign(Symbol::Dollar) || self.sees_sign(Symbol::Dot)
    }

    /// The tokens behind the next one.
    fn behind(&self) -> Tokens<'a>
        ensures { left_of result ≡ drop 1 (left_of self.now) }
    {
        let mut behind = Tokens {
            bytes: self.bytes,
            left: self.left,
            number: self.number,
        };
        behind.skip();
        behind
    }

    /// Whether a further case stands next: a `,` without `default`.
    #[tactic(auto, unfolding(sg_ast::specs::ReadingExpressions::sees_case))]
    pub fn sees_case(&self) -> bool
        ensures { result ≡ rules.sees_case (left_of self.now) }
    {
        self.sees_sign(Symbol::Comma) && !self.behind().sees_reserved(Keyword::Default)
    }

    /// The operator that stands next, if its level is in these bounds.
    #[tactic(auto, unfolding(sg_ast::specs::ReadingExpressions::next_infix))]
    pub fn next_infix(&self, least: u8, most: u8) -> Option<Infix>
        ensures { result ≡ rules.next_infix least most (left_of self.now) }
    {
        match self.next() {
            None => None,
            Some((next, _)) => between(least, most, infix_in(next)),
        }
    }
}
