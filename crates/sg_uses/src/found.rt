//! The first faults of a walk.
ghost use Rattle.std.specs.Prelude.{◌≡◌, OnOk};
ghost use Rattle.sg_names.specs.Arity.{unless_many};
ghost use Rattle.sg_uses.specs.Noted.{and_unknown, and_twice, and_arity};
ghost use Rattle.sg_names.specs.TwiceBound.{twice_if};
ghost use Rattle.sg_names.specs.UnknownName.{unless_known};

use sg_ast::name::Name;
use sg_kinds::fault::SpecFault;
use sg_kinds::memory::NoMemory;
use std::alloc::Global;

/// The first unknown name, the first name that is bound twice, and the first wrong number of parts.
#[derive(Drop)]
pub struct Found {
    pub unknown: Option<SpecFault>,
    pub twice: Option<SpecFault>,
    pub arity: Option<SpecFault>,
}

impl Found {
    /// Notes a name that is not known.
    #[tactic(auto, using(sg_ast::proofs::FirstLaws::or_none))]
    pub(crate) fn note_unknown(
        &mut self,
        alloc: Global,
        known: bool,
        name: &Name,
    ) -> Result<(), NoMemory>
        ensures { OnOk result (self.new ≡ and_unknown self.old (unless_known known name.now)) }
    {
        if self.unknown.is_none() && !known {
            self.unknown = Some(SpecFault::UnknownName(name.place, name.text.copy(alloc)?));
        }
        Ok(())
    }

    /// Notes a name that is bound while it is visible.
    #[tactic(auto, using(sg_ast::proofs::FirstLaws::or_none))]
    pub(crate) fn note_twice(
        &mut self,
        alloc: Global,
        visible: bool,
        name: &Name,
    ) -> Result<(), NoMemory>
        ensures { OnOk result (self.new ≡ and_twice self.old (twice_if visible name.now)) }
    {
        if self.twice.is_none() && visible {
            self.twice = Some(SpecFault::TwiceBound(name.place, name.text.copy(alloc)?));
        }
        Ok(())
    }

    /// Notes a number of parts that is not as declared.
    #[tactic(auto, using(sg_ast::proofs::FirstLaws::or_none))]
    pub(crate) fn note_arity(
        &mut self,
        alloc: Global,
        declared: usize,
        parts: usize,
        name: &Name,
    ) -> Result<(), NoMemory>
        ensures { OnOk result (self.new ≡ and_arity self.old (unless_many declared parts name.now)) }
    {
        if self.arity.is_none() && declared != parts {
            self.arity = Some(SpecFault::Arity(name.place, name.text.copy(alloc)?));
        }
        Ok(())
    }
}
