//! Numbers of a text.
ghost use Rattle.std.specs.Prelude.{◌≡◌, ◌^◌, nat_lt, nat_abs, pos, is_some, IfSome};

use std::marker::Model;

/// A number below 2^63, which contracts see as a natural number.
#[derive(Clone, Copy)]
pub struct Number {
    size: u64,
}

impl Model for Number {
    ghost use Rattle.std.specs.Prelude.{ℕ, ◌<◌, ◌^◌};

    ghost Value = { ℕ };

    ghost view = { λ n. n.size };

    ghost invariant = { λ n. n.size < 2 ^ 63 };

    ghost inverse = { λ n. record { size = n } };
}

impl Number {
    /// The number without its sign, where it is below 2^63.
    pub fn new(value: i64) -> Option<Number>
        ensures value { IfSome result (λ n. n ≡ nat_abs value) }
        ensures below { is_some result ≡ nat_lt (nat_abs value) (2 ^ 63) }
    {
        let size = value.unsigned_abs();
        if size < 1 << 63 {
            Some(Number { size })
        } else {
            None
        }
    }

    /// Its value.
    pub fn get(self) -> i64
        ensures { result ≡ pos self }
    {
        self.size as i64
    }
}
