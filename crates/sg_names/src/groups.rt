//! Things of owners, each row in the order in which they came.
ghost use Rattle.std.specs.Prelude.{◌≡◌, ◌≢◌, ◌<◌, length, ◌++◌, ◌∷◌, [], ℕ, nat_eq, if◌then◌else◌, OnOk};
ghost use Rattle.sg_names.specs.Rows.{row_at};

use sg_kinds::memory::NoMemory;
use sg_kinds::row::Row;
use std::alloc::Global;
use std::mem;

/// The things of each owner.
#[derive(Drop)]
pub struct Groups<T> {
    pub rows: Vec<Vec<T>>,
}

impl<T: Drop> Groups<T> {
    /// Nothing.
    pub fn new(alloc: Global) -> Groups<T>
        ensures { (k : ℕ) → row_at result k ≡ [] }
    {
        Groups {
            rows: Vec::new(alloc),
        }
    }

    /// Gives an owner a row, if it has none.
    #[tactic(auto, using(crate::proofs::RowLaws::one_more))]
    fn reach(&mut self, alloc: Global, owner: usize) -> Result<(), NoMemory>
        ensures reached { OnOk result (owner < length self.new.rows.items) }
        ensures rows { OnOk result ((k : ℕ) → row_at self.new k ≡ row_at self.old k) }
    {
        while self.rows.len() <= owner {
            self.rows.push(Vec::new(alloc))?;
        }
        Ok(())
    }

    /// Puts a thing of an owner last.
    pub fn put(&mut self, alloc: Global, owner: u32, thing: T) -> Result<(), NoMemory>
        ensures { OnOk result ((k : ℕ) → row_at self.new k
            ≡ row_at self.old k ++ (if nat_eq owner k then thing ∷ [] else [])) }
    {
        let owner = owner as usize;
        self.reach(alloc, owner)?;
        self.rows[owner].push(thing)?;
        Ok(())
    }

    /// Takes the things of an owner.
    pub fn take(&mut self, alloc: Global, owner: usize) -> Row<T>
        ensures row { result ≡ row_at self.old owner }
        ensures others { (k : ℕ) → k ≢ owner → row_at self.new k ≡ row_at self.old k }
    {
        if owner < self.rows.len() {
            Row::new(mem::replace(&mut self.rows[owner], Vec::new(alloc)))
        } else {
            Row::new(Vec::new(alloc))
        }
    }
}
