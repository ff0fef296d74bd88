//! The variables that are visible.
ghost use Rattle.std.specs.Prelude.{◌≡◌, ◌++◌, ◌∷◌, [], length, take, OnOk, OnErr};
ghost use Rattle.sg_types.specs.Scopes.{found};

use sg_kinds::ids::PhylumId;
use sg_kinds::memory::NoMemory;
use sg_kinds::text::Text;
use std::alloc::Global;
use std::collections::BTreeMap;
use std::marker::Model;

/// A variable, and its type if it has one.
#[derive(Drop)]
pub struct Variable {
    pub name: Text,
    pub of: Option<PhylumId>,
}

/// The variables that are visible, which contracts see as a list from the outermost on, beside an ordered map of
/// their first places: an author may write many.
#[derive(Drop)]
pub struct Scope {
    alloc: Global,
    variables: Vec<Variable>,
    places: BTreeMap<Vec<u8>, usize>,
}

impl Model for Scope {
    ghost use Rattle.std.specs.Prelude.{List};
    ghost use Rattle.sg_types.specs.Scopes.{AreFirst};
    ghost use Rattle.sg_types.specs.declared.scope.Variable.{Variable};

    ghost Value = { List Variable };

    ghost view = { λ s. s.variables.items };

    ghost invariant = { λ s. AreFirst s.variables.items s.places };
}

impl Scope {
    /// No variables.
    pub fn new(alloc: Global) -> Scope
        ensures { result ≡ [] }
    {
        Scope {
            alloc,
            variables: Vec::new(alloc),
            places: BTreeMap::new(alloc),
        }
    }

    /// How many there are.
    pub fn len(&self) -> usize
        ensures { result ≡ length self.now }
    {
        self.variables.len()
    }

    /// Makes a variable more visible.
    pub fn bind(&mut self, variable: Variable) -> Result<(), NoMemory>
        ensures ok { OnOk result (self.new ≡ self.old ++ variable ∷ []) }
        ensures err { OnErr result (self.new ≡ self.old) }
    {
        if self.places.contains_key(variable.name.as_slice()) {
            self.variables.push(variable)?;
            return Ok(());
        }
        let place = self.variables.len();
        let key = Vec::from_slice(self.alloc, variable.name.as_slice())?;
        self.variables.push(variable)?;
        match self.places.insert(key, place) {
            Ok(_) => Ok(()),
            Err(_) => {
                self.variables.pop();
                Err(NoMemory)
            }
        }
    }

    /// Leaves the first variables.
    pub fn leave(&mut self, count: usize)
        ensures { self.new ≡ take count self.old }
    {
        while self.variables.len() > count {
            if let Some(variable) = self.variables.pop() {
                let first = self.places.get(variable.name.as_slice()).copied();
                if first == Some(self.variables.len()) {
                    self.places.remove(variable.name.as_slice());
                }
            }
        }
    }

    /// The place of the first variable of a name, and its type.
    pub fn find(&self, name: &Text) -> Option<(usize, Option<PhylumId>)>
        ensures { result ≡ found self.now name.now }
    {
        let place = *self.places.get(name.as_slice())?;
        let variable = self.variables.get(place)?;
        Some((place, variable.of))
    }
}
