// Completing terms, placeholders and plain terms.
ghost use Rattle.std.specs.Prelude.{◌≡◌, ◌<◌, false, IfOk, MatchOption, Some, None, slice_get, unwrap_or};
ghost use Rattle.sg_kinds.specs.Terms.{Leaf, Node, kids_of};
ghost use Rattle.sg_kinds.specs.Values.{Tree, row_of};
ghost use Rattle.sg_kinds.specs.Completing.{all_made, over, one_element, completing, completing_within};
ghost use Rattle.sg_kinds.specs.Placeholder.{placeholder, placeholder_within};
ghost use Rattle.sg_kinds.specs.Plain.{plain, plain_all};
ghost use Rattle.sg_kinds.specs.Specification.{args_of};

use crate::ids::{OpId, PhylumId};
use crate::limits::DEPTH;
use crate::marks::Shape;
use crate::memory::NoMemory;
use crate::row::Row;
use crate::spec::Spec;
use crate::term::{Term, TermNode, Terms0};
use crate::text::Text;
use crate::value::{Value, ValueNode};
use std::alloc::Global;

impl Term {
    /// A leaf of a phylum.
    pub fn leaf(p: PhylumId, v: Value) -> Term
        ensures { result ≡ Leaf p v }
    {
        Term {
            node: TermNode::Leaf(p, v),
        }
    }

    /// A node with scheme number 0 and no mark.
    pub fn plain(op: OpId, kids: Terms0) -> Term
        ensures { result ≡ Node op 0 false (kids_of kids.items) }
    {
        Term {
            node: TermNode::Node(op, 0, false, kids),
        }
    }
}

impl Spec {
    /// The completing term of a phylum: `[p]`.
    #[tactic(auto, unfolding(crate::specs::Completing::completing))]
    pub fn completing(&self, alloc: Global, p: PhylumId) -> Result<Term, NoMemory>
        ensures { IfOk result (λ t. t ≡ completing self.now p) }
    {
        match self.complete(alloc, p, DEPTH as u32)? {
            Some(t) => Ok(t),
            None => Ok(Term::leaf(p, Value::truth(false))),
        }
    }

    // the completing term, where its depth is at most `room`
    #[cycle(complete)]
    #[tactic(auto, using(crate::proofs::Completed::completed_at))]
    fn complete(&self, alloc: Global, p: PhylumId, room: u32) -> Result<Option<Term>, NoMemory>
        ensures { IfOk result (λ t. t ≡ completing_within self.now room p) }
    {
        if room == 0 {
            return Ok(None);
        }
        let Some(phylum) = self.phyla.place(p.number) else {
            return Ok(None);
        };
        match phylum.shape {
            Shape::Truths => Ok(Some(Term::leaf(p, Value::truth(false)))),
            Shape::Numbers => Ok(Some(Term::leaf(p, Value::number(0)))),
            Shape::Texts => Ok(Some(Term::leaf(p, Value::text(Text::new(Vec::new(alloc)))))),
            Shape::Lexemes(_) => Ok(Some(Term::leaf(p, Value::text(Text::new(Vec::new(alloc)))))),
            Shape::Ordinary => self.over(alloc, phylum.ops.place(0).copied(), room - 1),
            Shape::Optional => self.over(alloc, phylum.ops.place(0).copied(), room - 1),
            Shape::Listed => self.one_element(alloc, &phylum.ops, room - 1),
            Shape::OptionalListed => self.over(alloc, phylum.ops.place(0).copied(), room - 1),
        }
    }

    // an operator over completing terms whose depth is at most `room`
    #[cycle(complete)]
    fn over(&self, alloc: Global, op: Option<OpId>, room: u32) -> Result<Option<Term>, NoMemory>
        ensures { IfOk result (λ t. t ≡ over self.now (completing_within self.now room) op) }
    {
        let Some(op) = op else {
            return Ok(None);
        };
        let Some(operator) = self.ops.place(op.number) else {
            return Ok(Some(Term::plain(op, Vec::new(alloc))));
        };
        match self.complete_all(alloc, operator.args.as_slice(), room)? {
            Some(kids) => Ok(Some(Term::plain(op, kids))),
            None => Ok(None),
        }
    }

    // the completing terms of these phyla, where each has a depth of at most `room`
    #[cycle(complete)]
    #[tactic(auto, using(crate::proofs::Completed::made_first, crate::proofs::Completed::made_next, crate::proofs::Completed::made_not, crate::proofs::Completed::made_last))]
    fn complete_all(
        &self,
        alloc: Global,
        phyla: &[PhylumId],
        room: u32,
    ) -> Result<Option<Terms0>, NoMemory>
        ensures { IfOk result (λ ts. MatchOption ts (all_made (completing_within self.now room) phyla.now
            ≡ None) (λ v. all_made (completing_within self.now room) phyla.now ≡ Some (kids_of v.items))) }
    {
        let mut kids = Vec::with_capacity(alloc, phyla.len())?;
        for p in phyla {
            let Some(kid) = self.complete(alloc, *p, room)? else {
                return Ok(None);
            };
            kids.push(kid)?;
        }
        Ok(Some(kids))
    }

    // a list with one element, whose depth is at most `room`
    #[cycle(complete)]
    fn one_element(
        &self,
        alloc: Global,
        ops: &Row<OpId>,
        room: u32,
    ) -> Result<Option<Term>, NoMemory>
        ensures { IfOk result (λ t. t ≡ one_element self.now (completing_within self.now room) ops.now) }
    {
        let (Some(nil), Some(pair)) = (ops.place(0), ops.place(1)) else {
            return Ok(None);
        };
        let Some(operator) = self.ops.place(pair.number) else {
            return Ok(None);
        };
        let Some(element) = operator.args.place(0) else {
            return Ok(None);
        };
        let Some(first) = self.complete(alloc, *element, room)? else {
            return Ok(None);
        };
        let mut kids = Vec::with_capacity(alloc, 2)?;
        kids.push(first)?;
        kids.push(Term::plain(*nil, Vec::new(alloc)))?;
        Ok(Some(Term::plain(*pair, kids)))
    }

    /// The placeholder of a phylum: `<p>`.
    #[tactic(auto, unfolding(crate::specs::Placeholder::placeholder))]
    pub fn placeholder(&self, alloc: Global, p: PhylumId) -> Result<Term, NoMemory>
        ensures { IfOk result (λ t. t ≡ placeholder self.now p) }
    {
        match self.hold(alloc, p, DEPTH as u32 - 1)? {
            Some(t) => Ok(t),
            None => Ok(Term::leaf(p, Value::truth(false))),
        }
    }

    // the placeholder, over completing terms whose depth is at most `room`
    fn hold(&self, alloc: Global, p: PhylumId, room: u32) -> Result<Option<Term>, NoMemory>
        requires { room < 1024 }
        ensures { IfOk result (λ t. t ≡ placeholder_within self.now room p) }
    {
        let Some(phylum) = self.phyla.place(p.number) else {
            return Ok(None);
        };
        match phylum.shape {
            Shape::Optional => self.over(alloc, phylum.ops.place(1).copied(), room),
            Shape::OptionalListed => self.one_element(alloc, &phylum.ops, room),
            _ => self.complete(alloc, p, room + 1),
        }
    }

    /// The term of a value that fits a phylum, with scheme number 0 and nothing elided.
    #[cycle(plain)]
    #[tactic(auto, using(crate::proofs::Kids::depth_item))]
    pub fn plain(&self, alloc: Global, v: &Value, p: PhylumId) -> Result<Term, NoMemory>
        ensures { IfOk result (λ t. t ≡ plain self.now v.now p) }
    {
        match &v.node {
            ValueNode::Tree(op, kids) => Ok(Term::plain(*op, self.plain_all(alloc, kids, *op)?)),
            _ => Ok(Term::leaf(p, v.copy(alloc)?)),
        }
    }

    // the terms of an operator's children
    #[cycle(plain)]
    #[tactic(auto, using(crate::proofs::Planned::plain_first, crate::proofs::Planned::plain_next, crate::proofs::Planned::plain_last, crate::proofs::Kids::depth_at))]
    fn plain_all(&self, alloc: Global, kids: &[Value], op: OpId) -> Result<Terms0, NoMemory>
        ensures { IfOk result (λ ts. kids_of ts.items ≡ plain_all self.now (row_of kids.now)
            (args_of self.now.ops op)) }
    {
        let mut terms = Vec::with_capacity(alloc, kids.len())?;
        for k in 0..kids.len() {
            terms.push(self.plain(alloc, &kids[k], self.argument(op, k))?)?;
        }
        Ok(terms)
    }

    // the phylum of an operator's argument; BOOL where there is none
    fn argument(&self, op: OpId, k: usize) -> PhylumId
        ensures { result ≡ unwrap_or (slice_get (args_of self.now.ops op) k) 0 }
    {
        match self.ops.place(op.number) {
            Some(operator) => operator
                .args
                .as_slice()
                .get(k)
                .copied()
                .unwrap_or(PhylumId { number: 0 }),
            None => PhylumId { number: 0 },
        }
    }
}
