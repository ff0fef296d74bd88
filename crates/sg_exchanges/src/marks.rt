//! Marks of a node that are turned.
ghost use Rattle.std.specs.Prelude.{◌≡◌, ◌≢◌, ◌<◌, ◌≤◌, None, Some, IfSome, MatchOption};
ghost use Rattle.sg_kinds.specs.Terms.{Term};
ghost use Rattle.sg_forest.specs.Trees.{IsLive};
ghost use Rattle.sg_groves.specs.Grove.{nodes, spec_shown};
ghost use Rattle.sg_groves.specs.Holds.{Holds};
ghost use Rattle.sg_changes.specs.Changes.{marks_of};
ghost use Rattle.sg_states.specs.Turned.{turned, turned_in};

use sg_changes::Marks;
use sg_forest::NodeId;
use sg_states::Mark;
use sg_terms::Terms;
use sg_unparse::scheme_count;

/// The marks of a node, and others that may come for them.
#[derive(Clone, Copy)]
pub struct Remark {
    pub old: Marks,
    pub new: Marks,
}

// the marks of a node of an operator with so many schemes, once one of them is turned
#[tactic(auto, using(crate::proofs::Turnable::no_other, crate::proofs::Turnable::another))]
fn turned(mark: Mark, count: usize, marks: Marks) -> Option<Marks>
    requires scheme { marks.scheme < 16 }
    requires count { count ≤ 16 }
    ensures marks { result ≡ turned mark count marks }
    ensures scheme { IfSome result (λ m. m.scheme < 16) }
{
    match mark {
        Mark::Alternate => {
            if count < 2 {
                return None;
            }
            Some(Marks {
                scheme: (marks.scheme + 1) % count as u32,
                elided: marks.elided,
            })
        }
        Mark::Elide => Some(Marks {
            scheme: marks.scheme,
            elided: !marks.elided,
        }),
    }
}

/// The marks of a node, and what they are once one of them is turned: the scheme number is the next one, after the last
/// the first, or the elided mark is turned over. None exactly where there is nothing to turn: at a leaf, and where the
/// operator has no other scheme.
pub fn turned_marks(terms: &Terms, n: NodeId, mark: Mark) -> Option<Remark>
    requires { IsLive (nodes terms.now) n }
    ensures turned { (t : Term) → Holds terms.now n t → MatchOption result (turned_in (spec_shown terms.now) mark t ≡ None)
        (λ r. (marks_of t ≡ Some r.old) × (turned_in (spec_shown terms.now) mark t ≡ Some r.new)) }
    ensures operator { IfSome result (λ r. (x : _) → nodes terms.now n ≡ Some x → x.label.op ≢ None) }
    ensures scheme { IfSome result (λ r. (r.old.scheme < 16) × (r.new.scheme < 16)) }
{
    terms.facts();
    let Some(_) = terms.op(n) else {
        return None;
    };
    let old = Marks {
        scheme: terms.scheme(n),
        elided: terms.elided(n),
    };
    match turned(mark, scheme_count(terms, n), old) {
        Some(new) => Some(Remark { old, new }),
        None => None,
    }
}
