//! The symbols behind the dots of items.
ghost use Rattle.std.specs.Prelude.{◌≡◌, ◌^◌, ◌<◌, IfSome};
ghost use Rattle.sg_lalr.specs.Items.{symbol_of};
ghost use Rattle.sg_lalr.specs.Closure.{InRange};

use crate::items::Item;
use sg_grammar::Grammar;

/// The symbol behind an item's dot.
pub(crate) fn symbol_of(g: &Grammar, item: Item) -> Option<u32>
    requires { InRange g.now item }
    ensures symbol { result ≡ symbol_of g.now item }
    ensures within { IfSome result (λ X. X < g.now.symbols) }
    ensures short { IfSome result (λ _. item.dot < 2 ^ 30) }
{
    g.sound();
    g.symbol_at(item.production, item.dot)
}
