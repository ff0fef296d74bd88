// The small words of the records.

/// Why an evaluation has no value.
#[derive(Clone, Copy, PartialEq, Eq)]
pub enum FaultKind {
    /// no unit of fuel is left
    Fuel,
    /// too many nodes are entered and not left
    Depth,
    /// a value over the limits of size and depth
    Size,
    /// a zero divisor
    Divide,
    /// a number out of the range of 64 bits
    Overflow,
    /// no case matches
    NoMatch,
    /// a text that is no number in range
    Convert,
}

/// Which way an attribute's value goes.
#[derive(Clone, Copy, PartialEq, Eq)]
pub enum Way {
    Synthesized,
    Inherited,
}

/// What a phylum is: a base phylum, a lexeme phylum with the place of its pattern in `lexemes`, or a phylum with
/// operators.
#[derive(Clone, Copy, PartialEq, Eq)]
pub enum Shape {
    Truths,
    Numbers,
    Texts,
    Lexemes(u32),
    Ordinary,
    Optional,
    Listed,
    OptionalListed,
}

/// How a scheme shows a child: `@`, `^` and `..`.
#[derive(Clone, Copy, PartialEq, Eq)]
pub enum ChildPlace {
    Resting,
    Passed,
    Hidden,
}

/// The two terms that are made of a phylum: `[p]` and `<p>`.
#[derive(Clone, Copy, PartialEq, Eq)]
pub enum Made {
    Completing,
    Placeholder,
}

/// The forms with one operand: a parenthesis, the prefix signs, `STRtoINT`, `INTtoSTR`, `STRlen`.
#[derive(Clone, Copy, PartialEq, Eq)]
pub enum Unary {
    Paren,
    Negative,
    Not,
    TextToNumber,
    NumberToText,
    TextLength,
}

/// The operators that evaluate both operands.
#[derive(Clone, Copy, PartialEq, Eq)]
pub enum Sign {
    Add,
    Sub,
    Mul,
    Div,
    Rem,
    Equal,
    Unequal,
    Below,
    AtMost,
    Above,
    AtLeast,
    Join,
}

/// `&&` and `||`, which evaluate the second operand only where it decides.
#[derive(Clone, Copy, PartialEq, Eq)]
pub enum Connective {
    Both,
    Either,
}

/// How infix literals of one precedence line group: to the left, to the right, not at all.
#[derive(Clone, Copy, Debug, PartialEq, Eq)]
pub enum Group {
    Left,
    Right,
    NonAssoc,
}
