//! How many nonterminals entries name.
ghost use Rattle.std.specs.Prelude.{◌≡◌, ◌≤◌, ◌^◌};
ghost use Rattle.sg_grammar.specs.Numbered.{named_by};

use sg_kinds::spec::Entry;

/// How many are named by entries: one more than the greatest number.
pub(crate) fn named_by(entries: &[Entry]) -> usize
    ensures count { result ≡ named_by entries.now }
    ensures few { result ≤ 2 ^ 32 }
{
    let mut most = 0usize;
    for entry in entries {
        most = most.max(entry.nonterminal as usize + 1);
    }
    most
}
