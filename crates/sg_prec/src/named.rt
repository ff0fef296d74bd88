// How many nonterminals productions name.
ghost use Rattle.std.specs.Prelude.{◌≡◌, ◌≤◌, ◌^◌};
ghost use Rattle.sg_prec.specs.Levels.{named_in, named_over};

use sg_kinds::spec::{Production, Symbol};

/// How many are named on a right side: one more than the greatest number.
pub fn named_in(symbols: &[Symbol]) -> usize
    ensures count { result ≡ named_in symbols.now }
    ensures few { result ≤ 2 ^ 32 }
{
    let mut most = 0usize;
    for symbol in symbols {
        if let Symbol::Nonterminal(n) = symbol {
            most = most.max(*n as usize + 1);
        }
    }
    most
}

/// How many are named in productions.
pub fn named_over(productions: &[Production]) -> usize
    ensures count { result ≡ named_over productions.now }
    ensures few { result ≤ 2 ^ 32 }
{
    let mut most = 0usize;
    for production in productions {
        let right = named_in(production.right.as_slice());
        most = most.max(right.max(production.left as usize + 1));
    }
    most
}
