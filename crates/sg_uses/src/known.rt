//! The tests of what a name means where it stands.
ghost use Rattle.std.specs.Prelude.{◌≡◌, is_some, OnOk};
ghost use Rattle.sg_uses.specs.Noted as noted;
ghost use Rattle.sg_uses.specs.SiteView.{site_of};
ghost use Rattle.sg_names.specs.UnknownName as spec;
ghost use Rattle.sg_names.specs.Uses as uses;

use crate::found::Found;
use crate::scope::Scope;
use sg_ast::decl::Part;
use sg_ast::name::{Name, Occurrence, Pair, Reference};
use sg_kinds::ids::OpId;
use sg_kinds::memory::NoMemory;
use sg_kinds::text::Text;
use sg_names::names::Names;
use sg_names::occurrences::symbol;
use std::alloc::Global;

/// Where an expression stands: in an equation of an operator, in an input production with its left side and its
/// symbols, or where no reference may stand.
#[derive(Clone, Copy)]
pub(crate) enum Site<'a> {
    Operator(OpId),
    Production(&'a Text, &'a [Part]),
    Elsewhere,
}

/// What names mean, and where they stand.
#[derive(Clone, Copy)]
pub(crate) struct Context<'a> {
    pub alloc: Global,
    pub names: &'a Names,
    pub site: Site<'a>,
}

fn has_operators(names: &Names, name: &Text) -> bool
    ensures { result ≡ spec.has_operators names.now name.now }
{
    match names.phylum_named(name) {
        Some(phylum) => !names.is_leaf(phylum),
        None => false,
    }
}

fn is_lexeme(names: &Names, name: &Text) -> bool
    ensures { result ≡ spec.is_lexeme names.now name.now }
{
    match names.usable_named(name) {
        Some(phylum) => names.is_lexical(phylum),
        None => false,
    }
}

fn is_attribute(names: &Names, pair: &Pair) -> bool
    ensures { result ≡ spec.is_attribute names.now pair.now.phylum.text pair.now.attr.text }
{
    match names.phylum_named(&pair.phylum.text) {
        Some(phylum) => names.attribute(phylum, &pair.attr.text).is_some(),
        None => false,
    }
}

fn is_nonterminal(names: &Names, name: &Text) -> bool
    ensures { result ≡ spec.is_nonterminal names.now name.now }
{
    names.nonterminal_named(name).is_some()
}

impl Context<'_> {
    pub fn phylum(&self, found: &mut Found, name: &Name) -> Result<(), NoMemory>
        ensures { OnOk result (found.new ≡ noted.noted_at self.now.names.now found.old (uses.UsesPhylum name.now)) }
    {
        let known = self.names.usable_named(&name.text).is_some();
        found.note_unknown(self.alloc, known, name)
    }

    pub fn with_operators(&self, found: &mut Found, name: &Name) -> Result<(), NoMemory>
        ensures { OnOk result (found.new ≡ noted.noted_at self.now.names.now found.old (uses.HasOperators name.now)) }
    {
        let known = has_operators(self.names, &name.text);
        found.note_unknown(self.alloc, known, name)
    }

    pub fn with_attributes(&self, found: &mut Found, name: &Name) -> Result<(), NoMemory>
        ensures { OnOk result (found.new ≡ noted.noted_at self.now.names.now found.old (uses.HasAttributes name.now)) }
    {
        let known = has_operators(self.names, &name.text) || is_nonterminal(self.names, &name.text);
        found.note_unknown(self.alloc, known, name)
    }

    pub fn operator_use(
        &self,
        found: &mut Found,
        phylum: &Name,
        name: &Name,
    ) -> Result<(), NoMemory>
        ensures { OnOk result (found.new ≡ noted.noted_at self.now.names.now found.old
            (uses.UsesOperator phylum.now name.now)) }
    {
        if self.names.usable_named(&phylum.text).is_none() {
            return found.note_unknown(self.alloc, false, phylum);
        }
        let known = self.names.operator_at(phylum, name).is_some();
        found.note_unknown(self.alloc, known, name)
    }

    pub fn symbol(&self, found: &mut Found, name: &Name) -> Result<(), NoMemory>
        ensures { OnOk result (found.new ≡ noted.noted_at self.now.names.now found.old (uses.UsesSymbol name.now)) }
    {
        let known = is_lexeme(self.names, &name.text) || is_nonterminal(self.names, &name.text);
        found.note_unknown(self.alloc, known, name)
    }

    pub fn result(&self, found: &mut Found, name: &Name, attr: &Name) -> Result<(), NoMemory>
        ensures { OnOk result (found.new ≡ noted.noted_at self.now.names.now found.old
            (uses.UsesResult name.now attr.now)) }
    {
        if !is_nonterminal(self.names, &name.text) {
            return found.note_unknown(self.alloc, false, name);
        }
        let known = self.names.symbol_type(&name.text, &attr.text).is_some();
        found.note_unknown(self.alloc, known, attr)
    }

    /// Whether an occurrence is there.
    fn is_there(&self, of: &Occurrence) -> bool
        ensures { result ≡ spec.is_there self.now.names.now (site_of self.now.site) of.now }
    {
        match self.site {
            Site::Operator(op) => self.names.occurrence(op, of).is_some(),
            Site::Production(left, parts) => symbol(left, parts, of).is_some(),
            Site::Elsewhere => false,
        }
    }

    /// Whether a reference has a meaning.
    fn is_known(&self, reference: &Reference) -> bool
        ensures { result ≡ spec.is_known self.now.names.now (site_of self.now.site) reference.now }
    {
        match self.site {
            Site::Operator(op) => self.names.reference(op, reference).is_some(),
            Site::Production(left, parts) => {
                self.names.operand(left, parts, reference).is_some()
            }
            Site::Elsewhere => false,
        }
    }

    pub fn reference(&self, found: &mut Found, reference: &Reference) -> Result<(), NoMemory>
        ensures { OnOk result (found.new ≡ noted.noted_at self.now.names.now found.old
            (uses.Refers (site_of self.now.site) reference.now)) }
    {
        if self.is_there(&reference.of) {
            let known = self.is_known(reference);
            return found.note_unknown(self.alloc, known, &reference.attr);
        }
        match &reference.of {
            Occurrence::Own(_) => found.note_unknown(self.alloc, false, &reference.attr),
            Occurrence::Named(name, _) => found.note_unknown(self.alloc, false, name),
        }
    }

    /// Whether nodes of a phylum may enclose where this expression stands.
    fn may_enclose(&self, name: &Text) -> bool
        ensures { result ≡ spec.may_enclose self.now.names.now (site_of self.now.site) name.now }
    {
        match self.site {
            Site::Operator(_) => has_operators(self.names, name),
            Site::Production(_, _) | Site::Elsewhere => false,
        }
    }

    pub fn encloses(&self, found: &mut Found, pair: &Pair) -> Result<(), NoMemory>
        ensures { OnOk result (found.new ≡ noted.noted_at self.now.names.now found.old
            (uses.Encloses (site_of self.now.site) pair.now)) }
    {
        if !self.may_enclose(&pair.phylum.text) {
            return found.note_unknown(self.alloc, false, &pair.phylum);
        }
        let known = is_attribute(self.names, pair);
        found.note_unknown(self.alloc, known, &pair.attr)
    }

    pub fn variable(&self, scope: &Scope, found: &mut Found, name: &Name) -> Result<(), NoMemory>
        ensures { OnOk result (found.new ≡ noted.noted_at self.now.names.now found.old
            (uses.UsesVariable scope.now name.now)) }
    {
        let known = scope.has(name.text.as_slice());
        found.note_unknown(self.alloc, known, name)
    }

    pub fn binding(&self, scope: &Scope, found: &mut Found, name: &Name) -> Result<(), NoMemory>
        ensures { OnOk result (found.new ≡ noted.noted_at self.now.names.now found.old
            (uses.Binds scope.now name.now)) }
    {
        let visible = scope.has(name.text.as_slice());
        found.note_twice(self.alloc, visible, name)
    }

    pub fn call(&self, found: &mut Found, name: &Name, parts: usize) -> Result<(), NoMemory>
        ensures { OnOk result (found.new ≡ noted.noted_at self.now.names.now found.old (uses.Calls name.now parts)) }
    {
        match self.names.callable(&name.text) {
            Some(called) => {
                let declared = self.names.arity(called);
                found.note_arity(self.alloc, declared, parts, name)
            }
            None => found.note_unknown(self.alloc, false, name),
        }
    }

    pub fn match_(&self, found: &mut Found, name: &Name, parts: usize) -> Result<(), NoMemory>
        ensures { OnOk result (found.new ≡ noted.noted_at self.now.names.now found.old (uses.Matches name.now parts)) }
    {
        match self.names.op_named(&name.text) {
            Some(op) => {
                let declared = self.names.args(op).len();
                found.note_arity(self.alloc, declared, parts, name)
            }
            None => found.note_unknown(self.alloc, false, name),
        }
    }
}
