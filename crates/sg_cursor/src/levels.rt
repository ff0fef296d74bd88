//! How tightly operators bind.
ghost use Rattle.std.specs.Prelude.{◌≡◌, ◌≤◌};
ghost use Rattle.sg_ast.specs.Levels as spec;

use sg_ast::expr::Infix;
use sg_text::Symbol;

/// The level of `? :`, and so the least of a whole expression.
pub const CHOICE: u8 = 1;
/// The level of `::`, which groups to the right.
const CONS: u8 = 5;
/// The level of comparisons, which do not repeat.
const COMPARISON: u8 = 4;
/// The level of prefix operators.
pub const PREFIX: u8 = 9;
/// The level of atoms.
pub const ATOM: u8 = 10;

/// The operator of a symbol.
pub fn infix_of(symbol: Symbol) -> Option<Infix>
    ensures { result ≡ spec.infix_of symbol }
{
    match symbol {
        Symbol::BarBar => Some(Infix::Or),
        Symbol::AmpersandAmpersand => Some(Infix::And),
        Symbol::EqualsEquals => Some(Infix::Equal),
        Symbol::BangEquals => Some(Infix::Unequal),
        Symbol::Less => Some(Infix::Below),
        Symbol::LessEquals => Some(Infix::AtMost),
        Symbol::Greater => Some(Infix::Above),
        Symbol::GreaterEquals => Some(Infix::AtLeast),
        Symbol::ColonColon => Some(Infix::Cons),
        Symbol::Hash => Some(Infix::Join),
        Symbol::Plus => Some(Infix::Add),
        Symbol::Minus => Some(Infix::Sub),
        Symbol::Star => Some(Infix::Mul),
        Symbol::Slash => Some(Infix::Div),
        Symbol::Percent => Some(Infix::Rem),
        _ => None,
    }
}

/// The level of an operator between operands.
pub fn level(operator: Infix) -> u8
    ensures value { result ≡ spec.level operator }
    ensures some { 2 ≤ result }
    ensures small { result ≤ 8 }
{
    match operator {
        Infix::Or => 2,
        Infix::And => 3,
        Infix::Equal
        | Infix::Unequal
        | Infix::Below
        | Infix::AtMost
        | Infix::Above
        | Infix::AtLeast => COMPARISON,
        Infix::Cons => CONS,
        Infix::Join => 6,
        Infix::Add | Infix::Sub => 7,
        Infix::Mul | Infix::Div | Infix::Rem => 8,
    }
}

/// The least level of the right operand of an operator of this level.
pub fn right_by(level: u8) -> u8
    requires { level ≤ 8 }
    ensures { result ≡ spec.right_by level }
{
    if level == CONS { level } else { level + 1 }
}

/// The greatest level of an operator that may stand behind one of this level and its operands.
pub fn next_by(level: u8) -> u8
    requires { 2 ≤ level }
    ensures { result ≡ spec.next_by level }
{
    if level == COMPARISON || level == CONS {
        level - 1
    } else {
        level
    }
}
