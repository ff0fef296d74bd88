//! The tables of names.
ghost use Rattle.std.specs.Prelude.{◌≡◌, ◌<◌, ◌≤◌, ◌&&◌, ℕ, List, length, bytes_eq, position, IfOk, IfSome, OnOk};
ghost use Rattle.sg_kinds.specs.Dependencies.{phylum_there};
ghost use Rattle.sg_kinds.specs.Far as far;
ghost use Rattle.sg_kinds.specs.Specification.{attrs_of, args_of, locals_of, has_shape, is_lexical_shape, is_leaf_shape};
ghost use Rattle.std.specs.List.{list_all};
ghost use Rattle.sg_kinds.specs.declared.spec.Local.{Local};
ghost use Rattle.sg_kinds.specs.declared.spec.Phylum.{Phylum};
ghost use Rattle.sg_kinds.specs.declared.spec.Operator.{Operator};
ghost use Rattle.sg_names.specs.Indexed as indexed;
ghost use Rattle.sg_names.specs.Lookups as spec;
ghost use Rattle.sg_names.specs.Meaning.{meaning};
ghost use Rattle.sg_names.specs.More.{and_attrs, behind, with_more};
ghost use Rattle.sg_names.specs.Names.{map_from, op_named};
ghost use Rattle.sg_names.specs.Rows.{row_at, row_in};

use crate::callables;
use crate::groups::Groups;
use crate::index::Index;
use crate::occurrences::{IsNamed, IsPhylum, chosen};
use crate::table::{Callable, Operand, Table};
use sg_ast::decl::Part;
use sg_ast::name::{Name, Occurrence as Written, Pair, Reference, Remote};
use sg_ast::number::Number;
use sg_kinds::ids::{OpId, PhylumId};
use sg_kinds::marks::{Shape, Unary};
use sg_kinds::memory::NoMemory;
use sg_kinds::row::Row;
use sg_kinds::spec::{Attr, Far, Local, Occurrence, Operator, Phylum};
use sg_kinds::text::Text;
use std::alloc::Global;
use std::marker::Model;
use std::mem;

const INT: PhylumId = PhylumId { number: 1 };

const STR: PhylumId = PhylumId { number: 2 };

fn result_of(builtin: Unary) -> PhylumId
    ensures { result ≡ spec.builtin_result builtin }
{
    match builtin {
        Unary::NumberToText => STR,
        _ => INT,
    }
}

fn is(name: &Text, other: &[u8]) -> bool
    ensures { result ≡ bytes_eq name.now other.now }
{
    name.as_slice() == other
}

pub fn is_leaf(shape: Shape) -> bool
    ensures { result ≡ is_leaf_shape shape }
{
    matches!(
        shape,
        Shape::Truths | Shape::Numbers | Shape::Texts | Shape::Lexemes(_)
    )
}

/// A list is shorter than this, so that places among attributes, locals and occurrences are numbers of 32 bits. No
/// list in memory is longer.
const LONG: usize = 4294967295;

fn are_short_phyla(phyla: &[Phylum]) -> bool
    ensures { result ≡ list_all (λ (x : Phylum). indexed.is_short x.attrs) phyla.now }
{
    phyla.iter().all(|phylum| phylum.attrs.len() < LONG)
}

fn has_short_lists(op: &Operator) -> bool
    ensures { result ≡ (indexed.is_short op.now.args && indexed.is_short op.now.locals) }
{
    op.args.len() < LONG && op.locals.len() < LONG
}

fn are_short_ops(ops: &[Operator]) -> bool
    ensures { result ≡ list_all (λ (o : Operator). indexed.is_short o.args && indexed.is_short o.locals) ops.now }
{
    ops.iter().all(|op| has_short_lists(op))
}

fn is_numbered(table: &Table) -> bool
    ensures { result ≡ indexed.is_numbered table.now }
{
    are_short_phyla(table.phyla.as_slice()) && are_short_ops(table.ops.as_slice())
}

/// The place of an attribute of a name.
#[tactic(auto, using(crate::proofs::Firsts::from_zero, crate::proofs::Firsts::passes, crate::proofs::Firsts::fails, crate::proofs::Firsts::ends))]
fn slot_of(attrs: &[Attr], name: &Text) -> Option<u32>
    requires { length attrs.now < 4294967295 }
    ensures { result ≡ spec.slot_named attrs.now name.now }
{
    for (place, attr) in attrs.iter().enumerate() {
        if is(name, attr.name.as_slice()) {
            return Some(place as u32);
        }
    }
    None
}

fn same_far(a: &[Far], b: &[Far]) -> bool
    ensures { result ≡ far.same_far a.now b.now }
{
    a == b
}

/// The place of the attribute with a list.
#[tactic(auto, using(crate::proofs::Firsts::from_zero, crate::proofs::Firsts::passes, crate::proofs::Firsts::fails, crate::proofs::Firsts::ends))]
fn slot_of_far(attrs: &[Attr], list: &[Far]) -> Option<u32>
    requires { length attrs.now < 4294967295 }
    ensures { result ≡ far.slot_of_far attrs.now list.now }
{
    for (place, attr) in attrs.iter().enumerate() {
        if same_far(attr.far.as_slice(), list) {
            return Some(place as u32);
        }
    }
    None
}

/// Puts attributes behind those of a phylum.
fn put_behind(alloc: Global, phylum: &mut Phylum, more: Row<Attr>) -> Result<(), NoMemory>
    ensures { OnOk result (phylum.new ≡ behind more phylum.old) }
{
    let own = mem::replace(&mut phylum.attrs, Row::new(Vec::new(alloc)));
    let mut attrs = own.into_vec();
    attrs.append(&mut more.into_vec())?;
    phylum.attrs = Row::new(attrs);
    Ok(())
}

/// Phyla with further attributes behind their own.
fn and_more(
    alloc: Global,
    mut phyla: Vec<Phylum>,
    mut more: Groups<Attr>,
) -> Result<Vec<Phylum>, NoMemory>
    ensures { IfOk result (λ v. v.items ≡ map_from (and_attrs (row_at more)) 0 phyla.items) }
{
    for place in 0..phyla.len() {
        put_behind(alloc, &mut phyla[place], more.take(alloc, place))?;
    }
    Ok(phyla)
}

fn longer(alloc: Global, mut table: Table, more: Vec<Vec<Attr>>) -> Result<Table, NoMemory>
    ensures { IfOk result (λ t. t ≡ with_more table (row_in more.items)) }
{
    let own = mem::replace(&mut table.phyla, Row::new(Vec::new(alloc)));
    table.phyla = Row::new(and_more(alloc, own.into_vec(), Groups { rows: more })?);
    Ok(table)
}

/// The occurrence of a phylum with a number, or the only one.
fn occurrence_of(operator: &Operator, number: Option<Number>, phylum: PhylumId) -> Option<usize>
    ensures value { result ≡ spec.occurrence_of operator.now number phylum }
    ensures within { IfSome result (λ at. at ≤ length operator.now.args) }
{
    let left = phylum.number == operator.phylum.number;
    chosen(&IsPhylum(phylum), left, operator.args.as_slice(), number)
}

/// The type of the first attribute of a name.
fn type_of(attrs: &[Attr], name: &Text) -> Option<PhylumId>
    ensures { result ≡ spec.attr_type attrs.now name.now }
{
    let attr = attrs.iter().find(|attr| is(name, attr.name.as_slice()))?;
    Some(attr.of)
}

/// The place of a local of a name.
#[tactic(auto, using(crate::proofs::Firsts::from_zero, crate::proofs::Firsts::passes, crate::proofs::Firsts::fails, crate::proofs::Firsts::ends))]
fn local_of(locals: &[Local], name: &Text) -> Option<u32>
    requires { length locals.now < 4294967295 }
    ensures { result ≡ position (λ (l : Local). bytes_eq name.now l.name) locals.now }
{
    for (place, local) in locals.iter().enumerate() {
        if is(name, local.name.as_slice()) {
            return Some(place as u32);
        }
    }
    None
}

/// What the names of a specification mean, with an index of the names. Contracts see its table.
#[derive(Drop)]
pub struct Names {
    table: Table,
    phyla: Index<u32>,
    nonterminals: Index<u32>,
    callables: Index<Callable>,
}

impl Model for Names {
    ghost use Rattle.sg_names.specs.declared.table.Table.{Table};
    ghost use Rattle.sg_names.specs.Indexed.{IsIndexed};

    ghost Value = { Table };

    ghost view = { λ n. n.table };

    ghost invariant = { λ n. IsIndexed n.table n.phyla n.nonterminals n.callables };
}

impl Names {
    /// These lists, with the indexes of the phyla and the nonterminals.
    pub fn new(
        alloc: Global,
        table: Table,
        phyla: Index<u32>,
        nonterminals: Index<u32>,
    ) -> Result<Names, NoMemory>
        requires phyla { (n : List ℕ) → meaning phyla n ≡ spec.phylum_named table n }
        requires nonterminals { (n : List ℕ) → meaning nonterminals n ≡ spec.nonterminal_named table n }
        ensures { IfOk result (λ n. n ≡ table) }
    {
        if !is_numbered(&table) {
            return Err(NoMemory);
        }
        let callables = callables::all(alloc, table.ops.as_slice(), table.functions.as_slice())?;
        Ok(Names {
            table,
            phyla,
            nonterminals,
            callables,
        })
    }

    /// The same names, each phylum with these attributes behind its own.
    pub fn with_more(self, alloc: Global, more: Vec<Vec<Attr>>) -> Result<Names, NoMemory>
        ensures { IfOk result (λ n. n ≡ with_more self (row_in more.items)) }
    {
        let Names {
            table,
            phyla,
            nonterminals,
            callables,
        } = self;
        let table = longer(alloc, table, more)?;
        if !is_numbered(&table) {
            return Err(NoMemory);
        }
        Ok(Names {
            table,
            phyla,
            nonterminals,
            callables,
        })
    }

    /// The lists.
    pub fn table(&self) -> &Table
        ensures { result.now ≡ self.now }
    {
        &self.table
    }

    /// The lists, given away.
    pub fn into_table(self) -> Table
        ensures { result ≡ self }
    {
        let Names { table, .. } = self;
        table
    }

    /// The phylum of a name.
    pub fn phylum_named(&self, name: &Text) -> Option<PhylumId>
        ensures { result ≡ spec.phylum_named self.now name.now }
    {
        let number = self.phyla.get(name.as_slice())?;
        Some(PhylumId { number })
    }

    /// The phylum of a name that may be used, so not the lexeme phylum WHITESPACE.
    pub fn usable_named(&self, name: &Text) -> Option<PhylumId>
        ensures { result ≡ spec.usable_named self.now name.now }
    {
        let phylum = self.phylum_named(name)?;
        if is(name, b"WHITESPACE") && self.is_lexical(phylum) {
            return None;
        }
        Some(phylum)
    }

    /// The nonterminal of a name, by its place in the table.
    pub fn nonterminal_named(&self, name: &Text) -> Option<u32>
        ensures { result ≡ spec.nonterminal_named self.now name.now }
    {
        self.nonterminals.get(name.as_slice())
    }

    /// What a name before parentheses means.
    pub fn callable(&self, name: &Text) -> Option<Callable>
        ensures { result ≡ spec.callable self.now name.now }
    {
        self.callables.get(name.as_slice())
    }

    /// The operator of a name, of whatever phylum.
    pub fn op_named(&self, name: &Text) -> Option<OpId>
        ensures { result ≡ op_named self.now.ops name.now }
    {
        self.callable(name)?.operator()
    }

    /// How many parts stand between the parentheses after it; none for a number out of range.
    pub fn arity(&self, called: Callable) -> usize
        ensures { result ≡ length (spec.params_of self.now called) }
    {
        match called {
            Callable::Operator(op) => self
                .table
                .ops
                .place(op.number)
                .map_or(0, |operator| operator.args.len()),
            Callable::Function(place) => self
                .table
                .functions
                .place(place)
                .map_or(0, |function| function.params.len()),
            Callable::Builtin(_) => 1,
        }
    }

    /// The phylum of its result, or None exactly for a number out of range.
    pub fn result(&self, called: Callable) -> Option<PhylumId>
        ensures { result ≡ spec.result_of self.now called }
    {
        match called {
            Callable::Operator(op) => self
                .table
                .ops
                .place(op.number)
                .map(|operator| operator.phylum),
            Callable::Function(place) => self
                .table
                .functions
                .place(place)
                .map(|function| function.result),
            Callable::Builtin(builtin) => Some(result_of(builtin)),
        }
    }

    /// The operator of a name, if it is one of a phylum.
    pub fn operator_named(&self, phylum: PhylumId, name: &Text) -> Option<OpId>
        ensures { result ≡ spec.operator_named self.now phylum name.now }
    {
        let op = self.op_named(name)?;
        let operator = self.table.ops.place(op.number)?;
        if operator.phylum.number == phylum.number {
            Some(op)
        } else {
            None
        }
    }

    /// The operator of a name, if it is one of the phylum of a name.
    pub fn operator_at(&self, phylum: &Name, op: &Name) -> Option<OpId>
        ensures { result ≡ spec.operator_at self.now phylum.now op.now }
    {
        self.operator_named(self.phylum_named(&phylum.text)?, &op.text)
    }

    /// Whether a phylum is a lexeme phylum.
    pub fn is_lexical(&self, phylum: PhylumId) -> bool
        ensures { result ≡ has_shape self.now.phyla is_lexical_shape phylum }
    {
        match self.table.phyla.place(phylum.number) {
            Some(phylum) => matches!(phylum.shape, Shape::Lexemes(_)),
            None => false,
        }
    }

    /// Whether the terms of a phylum are leaves.
    pub fn is_leaf(&self, phylum: PhylumId) -> bool
        ensures { result ≡ has_shape self.now.phyla is_leaf_shape phylum }
    {
        match self.table.phyla.place(phylum.number) {
            Some(phylum) => is_leaf(phylum.shape),
            None => false,
        }
    }

    /// The attributes of a phylum; none for a number out of range.
    #[tactic(auto, using(crate::proofs::Shorts::attrs_short))]
    pub fn attrs(&self, phylum: PhylumId) -> &[Attr]
        ensures attrs { result.now ≡ attrs_of self.now.phyla phylum }
        ensures short { length result.now < 4294967295 }
    {
        match self.table.phyla.place(phylum.number) {
            Some(phylum) => phylum.attrs.as_slice(),
            None => &[],
        }
    }

    /// The arguments of an operator; none for a number out of range.
    #[tactic(auto, using(crate::proofs::Shorts::args_short))]
    pub fn args(&self, op: OpId) -> &[PhylumId]
        ensures args { result.now ≡ args_of self.now.ops op }
        ensures short { length result.now < 4294967295 }
    {
        match self.table.ops.place(op.number) {
            Some(operator) => operator.args.as_slice(),
            None => &[],
        }
    }

    /// The locals of an operator; none for a number out of range.
    #[tactic(auto, using(crate::proofs::Shorts::locals_short))]
    pub fn locals(&self, op: OpId) -> &[Local]
        ensures locals { result.now ≡ locals_of self.now.ops op }
        ensures short { length result.now < 4294967295 }
    {
        match self.table.ops.place(op.number) {
            Some(operator) => operator.locals.as_slice(),
            None => &[],
        }
    }

    /// The slot of an attribute of a phylum.
    pub fn attribute(&self, phylum: PhylumId, name: &Text) -> Option<u32>
        ensures { result ≡ spec.attribute self.now phylum name.now }
    {
        slot_of(self.attrs(phylum), name)
    }

    /// The place of a local among those of its operator.
    pub fn local(&self, op: OpId, name: &Text) -> Option<u32>
        ensures { result ≡ spec.local self.now op name.now }
    {
        local_of(self.locals(op), name)
    }

    /// An occurrence of an operator: 0 for the left side, k + 1 for argument k.
    #[tactic(auto, using(crate::proofs::Shorts::args_short))]
    pub fn occurrence(&self, op: OpId, written: &Written) -> Option<u32>
        ensures { result ≡ spec.occurrence self.now op written.now }
    {
        match written {
            Written::Own(_) => Some(0),
            Written::Named(name, number) => {
                let phylum = self.usable_named(&name.text)?;
                let operator = self.table.ops.place(op.number)?;
                let at = occurrence_of(operator, *number, phylum)?;
                Some(at as u32)
            }
        }
    }

    /// The phylum at an occurrence of an operator.
    pub fn phylum_there(&self, op: OpId, at: u32) -> Option<PhylumId>
        ensures { result ≡ phylum_there self.now.ops op at }
    {
        if at == 0 {
            return Some(self.table.ops.place(op.number)?.phylum);
        }
        self.args(op).get((at - 1) as usize).copied()
    }

    /// An attribute of a name at an occurrence of an operator.
    pub fn attribute_at(&self, op: OpId, at: u32, name: &Text) -> Option<Occurrence>
        ensures { result ≡ spec.attribute_at self.now op at name.now }
    {
        let phylum = self.phylum_there(op, at)?;
        let slot = self.attribute(phylum, name)?;
        Some(Occurrence { at, slot })
    }

    /// The attributes of the nonterminal, or else of the phylum, of a name.
    pub fn symbol_attrs(&self, name: &Text) -> &[Attr]
        ensures { result.now ≡ spec.symbol_attrs self.now name.now }
    {
        if let Some(place) = self.nonterminals.get(name.as_slice()) {
            if let Some(nonterminal) = self.table.nonterminals.place(place) {
                return nonterminal.attrs.as_slice();
            }
        }
        match self.phylum_named(name) {
            Some(phylum) => self.attrs(phylum),
            None => &[],
        }
    }

    /// What a reference means in the equations of an operator: an attribute of an occurrence.
    pub fn reference(&self, op: OpId, reference: &Reference) -> Option<Occurrence>
        ensures { result ≡ spec.reference self.now op reference.now }
    {
        let at = self.occurrence(op, &reference.of)?;
        self.attribute_at(op, at, &reference.attr.text)
    }

    /// What a pair of a reference to enclosing nodes lists: the number past the last where its phylum is unknown, and
    /// the slot 0 where its attribute is.
    fn far_of(&self, pair: &Pair) -> Result<Far, NoMemory>
        ensures { IfOk result (λ f. f ≡ spec.far_of self.now pair.now) }
    {
        let phylum = match self.phylum_named(&pair.phylum.text) {
            Some(phylum) => phylum,
            None => PhylumId {
                number: callables::number(self.table.phyla.len())?,
            },
        };
        let slot = self.attribute(phylum, &pair.attr.text).unwrap_or(0);
        Ok(Far { phylum, slot })
    }

    /// What a reference to enclosing nodes lists.
    pub fn far_list(&self, alloc: Global, remote: &Remote) -> Result<Vec<Far>, NoMemory>
        ensures { IfOk result (λ v. v.items ≡ spec.far_list self.now remote.now) }
    {
        let mut list = Vec::new(alloc);
        let pairs = remote.pairs.as_slice();
        for pair in pairs {
            list.push(self.far_of(pair)?)?;
        }
        Ok(list)
    }

    /// The slot that the phylum of an operator has for what a reference to enclosing nodes lists.
    pub fn far_slot(
        &self,
        alloc: Global,
        op: OpId,
        remote: &Remote,
    ) -> Result<Option<u32>, NoMemory>
        ensures { IfOk result (λ s. s ≡ spec.far_slot self.now op remote.now) }
    {
        let Some(operator) = self.table.ops.place(op.number) else {
            return Ok(None);
        };
        let list = self.far_list(alloc, remote)?;
        Ok(slot_of_far(self.attrs(operator.phylum), &list))
    }

    /// The type of the attribute that a pair lists.
    pub fn pair_type(&self, pair: &Pair) -> Option<PhylumId>
        ensures { result ≡ spec.pair_type self.now pair.now }
    {
        let phylum = self.phylum_named(&pair.phylum.text)?;
        type_of(self.attrs(phylum), &pair.attr.text)
    }

    fn first_type(&self, pairs: &[Pair]) -> Option<PhylumId>
        ensures { result ≡ spec.first_type self.now pairs.now }
    {
        match pairs {
            [first, ..] => self.pair_type(first),
            [] => None,
        }
    }

    fn lists_type(&self, of: PhylumId, pair: &Pair) -> bool
        ensures { result ≡ spec.lists_type self.now of pair.now }
    {
        match self.pair_type(pair) {
            Some(found) => of.number == found.number,
            None => false,
        }
    }

    fn list_type(&self, of: PhylumId, pairs: &[Pair]) -> bool
        ensures { result ≡ list_all (spec.lists_type self.now of) pairs.now }
    {
        pairs.iter().all(|pair| self.lists_type(of, pair))
    }

    /// Whether the attributes that a reference to enclosing nodes lists have one type.
    pub fn are_alike(&self, remote: &Remote) -> bool
        ensures { result ≡ spec.are_alike self.now remote.now }
    {
        let pairs = remote.pairs.as_slice();
        match self.first_type(pairs) {
            Some(of) => self.list_type(of, pairs),
            None => false,
        }
    }

    /// The type of an attribute of the nonterminal, or else of the phylum, of a name.
    pub fn symbol_type(&self, name: &Text, attr: &Text) -> Option<PhylumId>
        ensures { result ≡ spec.symbol_type self.now name.now attr.now }
    {
        type_of(self.symbol_attrs(name), attr)
    }

    /// What a reference means in an input production: an attribute of a nonterminal, or the text of a lexeme.
    pub fn operand(&self, left: &Text, parts: &[Part], reference: &Reference) -> Option<Operand>
        ensures { result ≡ spec.operand self.now left.now parts.now reference.now }
    {
        match &reference.of {
            Written::Own(_) => None,
            Written::Named(name, number) => {
                let test = IsNamed(&name.text);
                let left = is(&name.text, left.as_slice());
                let at = chosen(&test, left, parts, *number)?;
                if at == 0 {
                    return None;
                }
                let of = self.symbol_type(&name.text, &reference.attr.text)?;
                Some(Operand { at, of })
            }
        }
    }
}
