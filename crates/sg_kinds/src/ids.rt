// Places in the lists of a specification, which contracts see as numbers.
use std::marker::Model;

/// A place in `phyla`.
#[derive(Clone, Copy, PartialEq, Eq)]
pub struct PhylumId {
    pub number: u32,
}

impl Model for PhylumId {
    ghost use Rattle.std.specs.Prelude.{ℕ};

    ghost Value = { ℕ };

    ghost view = { λ a. a.number };

    ghost inverse = { λ n. record { number = n } };
}

/// A place in `ops`.
#[derive(Clone, Copy, PartialEq, Eq)]
pub struct OpId {
    pub number: u32,
}

impl Model for OpId {
    ghost use Rattle.std.specs.Prelude.{ℕ};

    ghost Value = { ℕ };

    ghost view = { λ a. a.number };

    ghost inverse = { λ n. record { number = n } };
}

/// A place in `rules`.
#[derive(Clone, Copy, PartialEq, Eq)]
pub struct RuleId {
    pub number: u32,
}

impl Model for RuleId {
    ghost use Rattle.std.specs.Prelude.{ℕ};

    ghost Value = { ℕ };

    ghost view = { λ a. a.number };

    ghost inverse = { λ n. record { number = n } };
}

/// A place in `exprs`.
#[derive(Clone, Copy, PartialEq, Eq)]
pub struct ExprId {
    pub number: u32,
}

impl Model for ExprId {
    ghost use Rattle.std.specs.Prelude.{ℕ};

    ghost Value = { ℕ };

    ghost view = { λ a. a.number };

    ghost inverse = { λ n. record { number = n } };
}

/// The place in `transforms` of the transform whose pattern it is.
#[derive(Clone, Copy, PartialEq, Eq)]
pub struct PatternId {
    pub number: u32,
}

impl Model for PatternId {
    ghost use Rattle.std.specs.Prelude.{ℕ};

    ghost Value = { ℕ };

    ghost view = { λ a. a.number };

    ghost inverse = { λ n. record { number = n } };
}

/// The number of a value in a pool.
#[derive(Clone, Copy, PartialEq, Eq, Hash)]
pub struct ValueId {
    pub number: usize,
}

impl Model for ValueId {
    ghost use Rattle.std.specs.Prelude.{ℕ};

    ghost Value = { ℕ };

    ghost view = { λ a. a.number };

    ghost inverse = { λ n. record { number = n } };
}
