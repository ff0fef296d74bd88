// Terms in trees, with stored values.
ghost use Rattle.std.specs.Prelude.{◌≡◌, ◌≢◌, ◌<◌, ◌≤◌, ◌↔◌, ◌⊎◌, ℕ, List, [], ◌∷◌, ◌++◌, length, map, All, slice_get, IsSome, IfOk, IfErr, IfSome, OnOk, OnErr, Some, None};
ghost use Rattle.sg_kinds.specs.Values.{Fault};
ghost use Rattle.sg_kinds.specs.Terms.{Term, Leaf, Node};
ghost use Rattle.sg_kinds.specs.Fits.{Fits};
ghost use Rattle.sg_kinds.specs.Places.{child};
ghost use Rattle.sg_kinds.specs.Outcome.{outcome};
ghost use Rattle.sg_pool.specs.Pools.{StandsFor, value_at};
ghost use Rattle.sg_kinds.specs.Sound.{IsSound};
ghost use Rattle.sg_kinds.specs.Specification.{args_of};
ghost use Rattle.sg_kinds.specs.declared.spec.Rule.{Rule};
ghost use Rattle.sg_kinds.specs.Typing.{slot_type};
ghost use Rattle.sg_kinds.specs.declared.marks.FaultKind.TheVariants.{Fuel};
ghost use Rattle.sg_eval.specs.Journal.{now_of, total_of};
ghost use Rattle.sg_forest.specs.Trees.{IsLive, IsRoot, IsChild, IsInside, room_below};
ghost use Rattle.sg_forest.specs.Steps.{AreDistinct, SameSort, KeepsParts, IsPartSet, IsSwapped, IsDropped};
ghost use Rattle.sg_forest.specs.Tree.{KeepsWaysWithin, MovesWays, KeepsWaysTo, KeepsWaysOutside};
ghost use Rattle.sg_groves.specs.Grove.{nodes, IsGrove};
ghost use Rattle.sg_groves.specs.Stored.{number_at};
ghost use Rattle.sg_groves.specs.Holds.{Holds};
ghost use Rattle.sg_groves.specs.Unchanged.{OnlyStored};
ghost use Rattle.sg_terms.specs.Labels.{op_of, scheme_of, elided_of, with_scheme, with_elided};
ghost use Rattle.sg_terms.specs.Found.{op_at};
ghost use Rattle.sg_terms.specs.Storable.{IsStorable, IsSlot, IsNoSlot};
ghost use Rattle.sg_terms.specs.Occurrences.{value_for, IsBearer, NotedAtMost};
ghost use Rattle.sg_terms.specs.Kept.{AllHold, AreRootsOf, IsAdded, KeepsTerms, KeepsTermsWithout, KeepsTermsNotOver, KeepsTermsOutside, ChangesTerms, ReplacesTerms};

use crate::grown::{grow, grow_leaf};
use crate::occurrences::{gather, number, there};
use crate::parts::{put_elided, put_scheme, put_value};
use crate::rows::{kind_of, unknown, widest};
use sg_eval::made::MadeTerms;
use sg_eval::{Evaluator, Instance, Journal};
use sg_forest::{Forest, NodeId};
use sg_groves::{Kind, Part, Values};
use sg_kinds::ids::{OpId, PhylumId, RuleId, ValueId};
use sg_kinds::marks::FaultKind;
use sg_kinds::memory::NoMemory;
use sg_kinds::row::{Row, item};
use sg_kinds::spec::Spec;
use sg_kinds::value::Value;
use sg_pool::pool::Pool;
use std::alloc::Global;
use std::marker::Model;

/// What an evaluation stored: the node and the slot, and the numbers of the values before and after.
#[derive(Clone, Copy, PartialEq, Eq)]
pub struct Renewed {
    pub node: NodeId,
    pub slot: u32,
    pub before: ValueId,
    pub after: ValueId,
}

/// Terms of a specification, in trees, whose nodes keep their values as numbers of one pool. Each child is of the
/// phylum that its place wants, and each stored value of its slot's type.
#[derive(Drop)]
pub struct Terms {
    alloc: Global,
    spec: Spec,
    trees: Forest<Kind, Part>,
    pool: Pool,
    made: MadeTerms,
    // the numbers of an equation's arguments, while it is evaluated
    args: Vec<ValueId>,
    // the view in which the terms are shown, 0 for the ordinary one
    view: u32,
}

impl Model for Terms {
    ghost use Rattle.std.specs.Prelude.{ℕ, List, refl};
    ghost use Rattle.std.specs.Coded.{code_by, coded×, coded_list, coded_ℕ};
    ghost use Rattle.sg_kinds.specs.Values.{Value as IsValue};
    ghost use Rattle.sg_kinds.specs.ValueCode.{value_code};
    ghost use Rattle.sg_kinds.specs.declared.spec.Spec.{Spec};
    ghost use Rattle.sg_kinds.specs.contracts.spec.Spec as the_spec;
    ghost use Rattle.sg_forest.specs.Trees.{Trees, trees_code};
    ghost use Rattle.sg_groves.specs.declared.kind.Kind.{Kind};
    ghost use Rattle.sg_groves.specs.declared.part.Part.{Part};
    ghost use Rattle.sg_groves.specs.contracts.kind.Kind as the_kind;
    ghost use Rattle.sg_groves.specs.contracts.part.Part as the_part;
    ghost use Rattle.sg_groves.specs.Grove.{Grove, IsGrove};
    ghost use Rattle.sg_eval.specs.MadeTerms.{AreMade};

    ghost Value = { Grove };

    ghost coded = { code_by
        (Spec × (Trees Kind Part × (List IsValue × ℕ)))
        (coded× the_spec.the_row.coded (coded× (trees_code the_kind.the_row.coded the_part.the_row.coded)
        (coded× (coded_list value_code) coded_ℕ)))
        (λ g. (g.spec, (g.trees, (g.pool, g.view))))
        (λ p. record { spec = p.0; trees = p.1.0; pool = p.1.1.0; view = p.1.1.1 })
        (λ _. refl) };

    ghost view = { λ t. record { spec = t.spec; trees = t.trees; pool = t.pool; view = t.view } };

    ghost invariant = { λ t. IsGrove (record { spec = t.spec; trees = t.trees; pool = t.pool; view = t.view })
        × AreMade t.spec t.made t.pool };
}

impl Terms {
    /// No terms of a specification. Number 0 of the pool is the fault `fuel`, which stands for what is not known yet.
    pub fn new(alloc: Global, spec: &Spec) -> Result<Terms, NoMemory>
        requires { IsSound spec.now }
        ensures spec { IfOk result (λ t. t.spec ≡ spec.now) }
        ensures empty { IfOk result (λ t. (n : _) → nodes t n ≡ None) }
        ensures pool { IfOk result (λ t. t.pool ≡ Fault Fuel ∷ []) }
        ensures view { IfOk result (λ t. t.view ≡ 0) }
    {
        let mut pool = Pool::new(alloc)?;
        let _unknown = pool.put_fault(FaultKind::Fuel)?;
        Ok(Terms {
            alloc,
            spec: spec.copy(alloc)?,
            trees: Forest::new(alloc)?,
            pool,
            made: MadeTerms::new(alloc, spec)?,
            args: Vec::with_capacity(alloc, widest(spec))?,
            view: 0,
        })
    }

    /// The trees are those of typed terms. This does nothing and tells it.
    pub fn facts(&self)
        ensures { IsGrove self.now }
    {
        let _ = &self.trees;
    }

    /// The specification.
    pub fn spec(&self) -> &Spec
        ensures { result.now ≡ self.now.spec }
    {
        &self.spec
    }

    /// The view in which the terms are shown, counted from 1; 0 is the ordinary one.
    pub fn view(&self) -> u32
        ensures { result ≡ self.now.view }
    {
        self.view
    }

    /// Shows the terms in another view; a number without a view shows the ordinary one. Nothing else changes.
    pub fn set_view(&mut self, v: u32)
        ensures { self.new ≡ record self.old { view = v } }
    {
        self.view = v;
    }

    /// The pool of the stored values.
    pub fn pool(&self) -> &Pool
        ensures { result.now ≡ self.now.pool }
    {
        &self.pool
    }

    /// The operator of a node, None exactly at a leaf.
    pub fn op(&self, n: NodeId) -> Option<OpId>
        requires { IsLive (nodes self.now) n }
        ensures op { result ≡ op_at self.now n }
        ensures term { (t : Term) → Holds self.now n t → result ≡ op_of t }
    {
        self.trees.label(n).op
    }

    /// The phylum of a node's term.
    pub fn phylum(&self, n: NodeId) -> PhylumId
        requires { IsLive (nodes self.now) n }
        ensures phylum { (x : _) → nodes self.now n ≡ Some x → result ≡ x.label.phylum }
        ensures term { (t : Term) → Holds self.now n t → Fits self.now.spec t result }
    {
        self.trees.label(n).phylum
    }

    /// The node above, with the place among its children, counted from 0. None exactly at a root.
    pub fn parent(&self, n: NodeId) -> Option<(NodeId, usize)>
        requires { IsLive (nodes self.now) n }
        ensures root { (result ≡ None) ↔ IsRoot (nodes self.now) n }
        ensures child { IfSome result (λ up. IsChild (nodes self.now) n up.0 up.1) }
        ensures rises { IfSome result (λ up. room_below self.now.trees n < room_below self.now.trees up.0) }
    {
        self.trees.parent(n)
    }

    /// Child `k` of a node, counted from 0.
    pub fn kid(&self, n: NodeId, k: usize) -> NodeId
        requires live { IsLive (nodes self.now) n }
        requires place { (x : _) → nodes self.now n ≡ Some x → k < x.label.arity }
        ensures child { IsChild (nodes self.now) result n k }
        ensures term { (t s : Term) → Holds self.now n t → child k t ≡ Some s → Holds self.now result s }
        ensures falls { room_below self.now.trees result < room_below self.now.trees n }
    {
        self.trees.kid(n, k)
    }

    /// The scheme number of a node, below 16; 0 at a leaf.
    pub fn scheme(&self, n: NodeId) -> u32
        requires { IsLive (nodes self.now) n }
        ensures scheme { (x : _) → nodes self.now n ≡ Some x → result ≡ x.part.scheme }
        ensures term { (t : Term) → Holds self.now n t → result ≡ scheme_of t }
    {
        self.trees.part(n).scheme
    }

    /// The elided mark of a node; a leaf has none.
    pub fn elided(&self, n: NodeId) -> bool
        requires { IsLive (nodes self.now) n }
        ensures elided { (x : _) → nodes self.now n ≡ Some x → result ≡ x.part.elided }
        ensures term { (t : Term) → Holds self.now n t → result ≡ elided_of t }
    {
        self.trees.part(n).elided
    }

    /// The number that a node keeps in a slot: that of an attribute or, past these, of a local. A leaf has slot 0,
    /// its value.
    pub fn stored(&self, n: NodeId, slot: u32) -> ValueId
        requires { IsSome (number_at self.now n slot) }
        ensures number { number_at self.now n slot ≡ Some result }
        ensures within { result < length self.now.pool }
        ensures typed { (op : ℕ) → op_at self.now n ≡ Some op → IsStorable self.now n slot result }
        ensures leaf { (p : ℕ) (v : _) → Holds self.now n (Leaf p v) → StandsFor self.now.pool result v }
    {
        number(&self.trees, n, slot)
    }

    /// Makes a leaf of a base or lexeme phylum, as a root. It is refused for want of memory alone.
    pub fn leaf(&mut self, p: PhylumId, v: &Value) -> Result<NodeId, NoMemory>
        requires { Fits self.old.spec (Leaf p v.now) p }
        ensures held { IfOk result (λ id. Holds self.new id (Leaf p v.now)) }
        ensures fresh { IfOk result (λ id. nodes self.old id ≡ None) }
        ensures root { IfOk result (IsRoot (nodes self.new)) }
        ensures roots { IfOk result (λ id. (n : _) → n ≢ id → IsRoot (nodes self.new) n ↔ IsRoot (nodes self.old) n) }
        ensures err { OnErr result (self.new.trees.nodes ≡ self.old.trees.nodes) }
        ensures kept { IsAdded self.old self.new }
        ensures terms { KeepsTerms self.old self.new }
    {
        let id = self.pool.put(v)?;
        grow_leaf(self.alloc, &mut self.trees, p, id)
    }

    /// Makes a node of an operator over roots, as a root. No value of its slots is known: each has number 0. It is
    /// refused for want of memory alone, and then hands the children back.
    pub fn node(
        &mut self,
        op: OpId,
        scheme: u32,
        elided: bool,
        kids: Vec<NodeId>,
    ) -> Result<NodeId, Vec<NodeId>>
        requires op { op < length self.old.spec.ops }
        requires scheme { scheme < 16 }
        requires count { length kids.items ≡ length (args_of self.old.spec.ops op) }
        requires roots { AreRootsOf self.old (args_of self.old.spec.ops op) kids.items }
        requires distinct { AreDistinct kids.items }
        ensures held { IfOk result (λ id. (ts : _) → AllHold self.old kids.items ts
            → Holds self.new id (Node op scheme elided ts)) }
        ensures unknown { IfOk result (λ id. (slot type : ℕ) → slot_type self.old.spec op 0 slot ≡ Some type
            → number_at self.new id slot ≡ Some 0) }
        ensures fresh { IfOk result (λ id. nodes self.old id ≡ None) }
        ensures root { IfOk result (IsRoot (nodes self.new)) }
        ensures hung { IfOk result (λ id. (k : ℕ) (kid : _)
            → slice_get kids.items k ≡ Some kid → IsChild (nodes self.new) kid id k) }
        ensures roots { IfOk result (λ id. (n : _) → n ≢ id → IsRoot (nodes self.new) n
            ↔ IsRoot (nodes self.old) n × ((k : ℕ) → slice_get kids.items k ≢ Some n)) }
        ensures err { OnErr result (self.new.trees.nodes ≡ self.old.trees.nodes) }
        ensures refused { IfErr result (λ back. back.items ≡ kids.items) }
        ensures kept { IsAdded self.old self.new }
        ensures terms { KeepsTerms self.old self.new }
        ensures pool { self.new.pool ≡ self.old.pool }
    {
        let Ok(values) = unknown(self.alloc, &self.spec, op) else {
            return Err(kids);
        };
        let kind = kind_of(&self.spec, op);
        let part = Part {
            scheme,
            elided,
            values,
        };
        grow(&mut self.trees, kind, part, kids)
    }

    /// Stores a value for a slot of a node of an operator, and hands back the number before. It takes no memory.
    pub fn store(&mut self, n: NodeId, slot: u32, v: ValueId) -> ValueId
        requires { IsStorable self.old n slot v }
        ensures before { number_at self.old n slot ≡ Some result }
        ensures stored { number_at self.new n slot ≡ Some v }
        ensures kept { OnlyStored self.old self.new (IsSlot n slot) }
        ensures pool { self.new.pool ≡ self.old.pool }
    {
        put_value(&mut self.trees, n, slot, v)
    }

    /// Writes the scheme number of a node of an operator. It takes no memory.
    pub fn set_scheme(&mut self, n: NodeId, k: u32)
        requires node { (x : _) → nodes self.old n ≡ Some x → x.label.op ≢ None }
        requires live { IsLive (nodes self.old) n }
        requires scheme { k < 16 }
        ensures set { (x : _) → nodes self.old n ≡ Some x
            → IsPartSet (nodes self.old) (nodes self.new) n (record x.part { scheme = k }) }
        ensures over { ChangesTerms self.old self.new n (with_scheme k) }
        ensures others { KeepsTermsWithout self.old self.new n }
        ensures numbers { (m : _) (slot : ℕ) → number_at self.new m slot ≡ number_at self.old m slot }
        ensures room { (m : _) → room_below self.new.trees m ≡ room_below self.old.trees m }
        ensures spec { self.new.spec ≡ self.old.spec }
        ensures view { self.new.view ≡ self.old.view }
        ensures pool { self.new.pool ≡ self.old.pool }
    {
        put_scheme(&mut self.trees, n, k);
    }

    /// Writes the elided mark of a node of an operator. It takes no memory.
    pub fn set_elided(&mut self, n: NodeId, on: bool)
        requires node { (x : _) → nodes self.old n ≡ Some x → x.label.op ≢ None }
        requires live { IsLive (nodes self.old) n }
        ensures set { (x : _) → nodes self.old n ≡ Some x
            → IsPartSet (nodes self.old) (nodes self.new) n (record x.part { elided = on }) }
        ensures over { ChangesTerms self.old self.new n (with_elided on) }
        ensures others { KeepsTermsWithout self.old self.new n }
        ensures numbers { (m : _) (slot : ℕ) → number_at self.new m slot ≡ number_at self.old m slot }
        ensures room { (m : _) → room_below self.new.trees m ≡ room_below self.old.trees m }
        ensures spec { self.new.spec ≡ self.old.spec }
        ensures view { self.new.view ≡ self.old.view }
        ensures pool { self.new.pool ≡ self.old.pool }
    {
        put_elided(&mut self.trees, n, on);
    }

    /// The tree under `at` and that of the root `detached` change places. Where `at` is a root nothing changes. It
    /// takes no memory.
    pub fn swap(&mut self, at: NodeId, detached: NodeId)
        requires live { IsLive (nodes self.old) at }
        requires root { IsRoot (nodes self.old) detached }
        requires apart { IsInside (nodes self.old) at detached → ⊥ }
        requires phyla { SameSort (λ k. k.phylum) (nodes self.old) at detached }
        ensures swapped { (p : _) (k : ℕ) → IsChild (nodes self.old) at p k
            → IsSwapped (nodes self.old) (nodes self.new) at detached p k }
        ensures unchanged { IsRoot (nodes self.old) at → self.new ≡ self.old }
        ensures spec { self.new.spec ≡ self.old.spec }
        ensures view { self.new.view ≡ self.old.view }
        ensures pool { self.new.pool ≡ self.old.pool }

        // Each node keeps what it is and its values, and each term over `at` has the other term in its place.
        ensures parts { KeepsParts (nodes self.old) (nodes self.new) }
        ensures numbers { (m : _) (slot : ℕ) → number_at self.new m slot ≡ number_at self.old m slot }
        ensures replaced { ReplacesTerms self.old self.new at detached }
        ensures terms { KeepsTermsNotOver self.old self.new at }

        // Roots and ways up.
        ensures freed { IsRoot (nodes self.new) at }
        ensures placed { (p : _) (k : ℕ) → IsChild (nodes self.old) at p k
            → IsChild (nodes self.new) detached p k }
        ensures roots { (n : _) → n ≢ at → n ≢ detached
            → IsRoot (nodes self.new) n ↔ IsRoot (nodes self.old) n }
        ensures ways { KeepsWaysWithin (nodes self.old) (nodes self.new) at }
        ensures ways_over { MovesWays (nodes self.old) (nodes self.new) at detached }
        ensures ways_below { KeepsWaysTo (nodes self.old) (nodes self.new) detached }
    {
        self.trees.swap(at, detached);
    }

    /// Removes the tree of a root, in time linear in its nodes. It takes no memory.
    pub fn drop_tree(&mut self, root: NodeId)
        requires { IsRoot (nodes self.old) root }
        ensures dropped { IsDropped (nodes self.old) (nodes self.new) root }
        ensures terms { KeepsTermsOutside self.old self.new root }
        ensures roots { (n : _) → IsRoot (nodes self.new) n ↔ IsRoot (nodes self.old) n × (n ≢ root) }
        ensures ways { KeepsWaysOutside (nodes self.old) (nodes self.new) root }
        ensures spec { self.new.spec ≡ self.old.spec }
        ensures view { self.new.view ≡ self.old.view }
        ensures pool { self.new.pool ≡ self.old.pool }
    {
        self.trees.drop_tree(root);
    }

    /// The number of the outcome of an equation on the values of these numbers, after an entry of it in the journal.
    pub fn evaluate(
        &mut self,
        ev: &Evaluator,
        rule: RuleId,
        args: &[ValueId],
        who: Instance,
        journal: &mut Journal,
    ) -> Result<ValueId, NoMemory>
        requires same { ev.now ≡ self.old.spec }
        requires rule { rule < length self.old.spec.rules }
        requires who { who.rule ≡ rule }
        requires args { All (λ k. k < length self.old.pool) args.now }
        ensures outcome { (r : Rule) → slice_get self.old.spec.rules rule ≡ Some r → IfOk result
            (λ id. StandsFor self.new.pool id (outcome self.old.spec r (map (value_at self.old.pool) args.now))) }
        ensures noted { OnOk result (now_of journal.new ≡ now_of journal.old ++ who ∷ []) }
        ensures err { OnErr result ((now_of journal.new ≡ now_of journal.old)
            ⊎ (now_of journal.new ≡ now_of journal.old ++ who ∷ [])) }
        ensures total { total_of journal.new ≡ total_of journal.old }
        ensures trees { self.new.trees ≡ self.old.trees }
        ensures kept { OnlyStored self.old self.new IsNoSlot }
    {
        ev.run(rule, args, who, &mut self.pool, &mut self.made, journal)
    }

    /// Evaluates an equation of a node's operator on the values that are stored for its arguments, after an entry of
    /// it in the journal, and stores the outcome for what the equation defines there.
    pub fn evaluate_at(
        &mut self,
        ev: &Evaluator,
        n: NodeId,
        rule: RuleId,
        journal: &mut Journal,
    ) -> Result<Renewed, NoMemory>
        requires same { ev.now ≡ self.old.spec }
        requires rule { rule < length self.old.spec.rules }
        requires operator { (r : Rule) → slice_get self.old.spec.rules rule ≡ Some r → op_at self.old n ≡ Some r.op }
        ensures bearer { (r : Rule) → slice_get self.old.spec.rules rule ≡ Some r
            → IfOk result (λ it. IsBearer self.old n r it.node it.slot) }
        ensures outcome { (r : Rule) → slice_get self.old.spec.rules rule ≡ Some r → IfOk result
            (λ it. StandsFor self.new.pool it.after (outcome self.old.spec r (map (value_for self.old n) r.args))) }
        ensures before { IfOk result (λ it. number_at self.old it.node it.slot ≡ Some it.before) }
        ensures after { IfOk result (λ it. number_at self.new it.node it.slot ≡ Some it.after) }
        ensures kept { IfOk result (λ it. OnlyStored self.old self.new (IsSlot it.node it.slot)) }
        ensures err { OnErr result (OnlyStored self.old self.new IsNoSlot) }
        ensures noted { IfOk result (λ it. now_of journal.new
            ≡ now_of journal.old ++ record { node = it.node; slot = it.slot; rule = rule } ∷ []) }
        ensures noted_err { (r : Rule) → slice_get self.old.spec.rules rule ≡ Some r
            → OnErr result (NotedAtMost self.old n rule r (now_of journal.old) (now_of journal.new)) }
        ensures total { total_of journal.new ≡ total_of journal.old }
    {
        let (node, slot) = self.bearer(n, rule);
        let after = self.outcome_at(ev, n, rule, node, slot, journal)?;
        let before = self.store(node, slot, after);
        Ok(Renewed {
            node,
            slot,
            before,
            after,
        })
    }

    // what an equation defines at a node: the node at its target, and the slot
    fn bearer(&self, n: NodeId, rule: RuleId) -> (NodeId, u32)
        requires rule { rule < length self.now.spec.rules }
        requires operator { (r : Rule) → slice_get self.now.spec.rules rule ≡ Some r → op_at self.now n ≡ Some r.op }
        ensures { (r : Rule) → slice_get self.now.spec.rules rule ≡ Some r → IsBearer self.now n r result.0 result.1 }
    {
        let target = item(self.spec.rules.as_slice(), rule.number as usize).target;
        (there(&self.trees, n, target.at), target.slot)
    }

    // the number of an equation's outcome on the values that are stored for its arguments at a node, after its entry
    fn outcome_at(
        &mut self,
        ev: &Evaluator,
        n: NodeId,
        rule: RuleId,
        node: NodeId,
        slot: u32,
        journal: &mut Journal,
    ) -> Result<ValueId, NoMemory>
        requires same { ev.now ≡ self.old.spec }
        requires rule { rule < length self.old.spec.rules }
        requires operator { (r : Rule) → slice_get self.old.spec.rules rule ≡ Some r → op_at self.old n ≡ Some r.op }
        requires bearer { (r : Rule) → slice_get self.old.spec.rules rule ≡ Some r → IsBearer self.old n r node slot }
        ensures outcome { (r : Rule) → slice_get self.old.spec.rules rule ≡ Some r → IfOk result
            (λ id. StandsFor self.new.pool id (outcome self.old.spec r (map (value_for self.old n) r.args))) }
        ensures storable { IfOk result (IsStorable self.new node slot) }
        ensures noted { OnOk result
            (now_of journal.new ≡ now_of journal.old ++ record { node = node; slot = slot; rule = rule } ∷ []) }
        ensures err { OnErr result ((now_of journal.new ≡ now_of journal.old)
            ⊎ (now_of journal.new ≡ now_of journal.old ++ record { node = node; slot = slot; rule = rule } ∷ [])) }
        ensures total { total_of journal.new ≡ total_of journal.old }
        ensures trees { self.new.trees ≡ self.old.trees }
        ensures kept { OnlyStored self.old self.new IsNoSlot }
    {
        let equation = item(self.spec.rules.as_slice(), rule.number as usize);
        gather(&self.trees, n, equation.args.as_slice(), &mut self.args)?;
        let who = Instance { node, slot, rule };
        ev.run(
            rule,
            &self.args,
            who,
            &mut self.pool,
            &mut self.made,
            journal,
        )
    }
}
