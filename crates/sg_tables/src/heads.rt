//! The first definitions of phyla and nonterminals.
ghost use Rattle.std.specs.Prelude.{◌≡◌, ℕ, List, [], position, IfOk};
ghost use Rattle.sg_names.specs.Meaning.{meaning};
ghost use Rattle.sg_names.specs.Heads as spec;

use sg_ast::name::Name;
use sg_kinds::fault::Position;
use sg_kinds::memory::NoMemory;
use sg_kinds::text::Text;
use sg_names::heads::Head;
use sg_names::index::Index;
use std::alloc::Global;
use std::marker::Model;

/// The first definitions, each with its number. Contracts see their list.
#[derive(Drop)]
pub(crate) struct Heads {
    list: Vec<Head>,
    count: u32,
    index: Index<u32>,
}

impl Model for Heads {
    ghost use Rattle.std.specs.Prelude.{List};
    ghost use Rattle.sg_names.specs.declared.heads.Head.{Head};
    ghost use Rattle.sg_tables.specs.HeadViews.{IsCounted};

    ghost Value = { List Head };

    ghost view = { λ h. h.list.items };

    ghost invariant = { λ h. IsCounted h.list.items h.count h.index };
}

fn base_head(alloc: Global, name: &[u8]) -> Result<Head, NoMemory>
    ensures { IfOk result (λ h. h ≡ spec.base_head name.now) }
{
    Ok(Head {
        name: Text::from_slice(alloc, name)?,
        place: Position { token: 0, line: 0 },
        lexical: false,
    })
}

impl Heads {
    /// No definitions.
    pub fn new(alloc: Global) -> Heads
        ensures { result ≡ [] }
    {
        Heads {
            list: Vec::new(alloc),
            count: 0,
            index: Index::new(alloc),
        }
    }

    /// BOOL, INT and STR, which are defined before the text.
    pub fn base(alloc: Global) -> Result<Heads, NoMemory>
        ensures { IfOk result (λ h. h ≡ spec.base_heads) }
    {
        let heads = Heads::new(alloc).with(alloc, base_head(alloc, b"BOOL")?)?;
        let heads = heads.with(alloc, base_head(alloc, b"INT")?)?;
        heads.with(alloc, base_head(alloc, b"STR")?)
    }

    /// The definitions as a slice.
    pub fn as_slice(&self) -> &[Head]
        ensures { result.now ≡ self.now }
    {
        self.list.as_slice()
    }

    /// The index of the numbers.
    pub fn into_index(self) -> Index<u32>
        ensures { (n : List ℕ) → meaning result n ≡ position (spec.is_head n) self }
    {
        let Heads { index, .. } = self;
        index
    }

    /// The number of a name, or how many definitions there are, where it is not there.
    #[tactic(auto, using(crate::proofs::HeadLaws::number_there))]
    pub fn number(&self, name: &Text) -> u32
        ensures { result ≡ spec.number_in self.now name.now }
    {
        match self.index.get(name.as_slice()) {
            Some(number) => number,
            None => self.count,
        }
    }

    /// These with a definition more, if its name is new.
    #[tactic(auto, using(crate::proofs::HeadLaws::with_new, crate::proofs::HeadLaws::with_old, crate::proofs::HeadLaws::counted_push))]
    fn with(self, alloc: Global, head: Head) -> Result<Heads, NoMemory>
        ensures { IfOk result (λ h. h ≡ spec.with_head self head) }
    {
        if self.index.get(head.name.as_slice()).is_some() {
            return Ok(self);
        }
        let Heads {
            mut list,
            count,
            mut index,
        } = self;
        index.put(alloc, head.name.as_slice(), count)?;
        list.push(head)?;
        let Some(next) = count.checked_add(1) else {
            return Err(NoMemory);
        };
        Ok(Heads {
            list,
            count: next,
            index,
        })
    }

    /// These with the definition of a name more, if it is new.
    pub fn with_name(self, alloc: Global, name: &Name, lexical: bool) -> Result<Heads, NoMemory>
        ensures { IfOk result (λ h. h ≡ spec.with_head self (spec.head_of name.now lexical)) }
    {
        let text = name.text.copy(alloc)?;
        self.with(
            alloc,
            Head {
                name: text,
                place: name.place,
                lexical,
            },
        )
    }
}
