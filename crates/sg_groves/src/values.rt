// The numbers of a node's values.
ghost use Rattle.std.specs.Prelude.{◌≡◌, ◌<◌, [], ◌∷◌, length, replicate, slice_get, slice_set, Some, IfOk};

use sg_kinds::ids::ValueId;
use sg_kinds::memory::NoMemory;
use std::alloc::Global;
use std::marker::Model;

/// The numbers of a node's values, which contracts see as a list. Up to three stand in their place and need no memory
/// of their own.
#[derive(Drop)]
pub struct Values {
    form: Form,
}

#[derive(Drop)]
enum Form {
    Empty,
    One([ValueId; 1]),
    Two([ValueId; 2]),
    Three([ValueId; 3]),
    Long(Vec<ValueId>),
}

impl Model for Values {
    ghost use Rattle.std.specs.Prelude.{List, ℕ};
    ghost use Rattle.sg_groves.specs.Numbers.{numbers_of};

    ghost Value = { List ℕ };

    ghost view = { λ v. numbers_of v.form };
}

impl Values {
    /// No numbers. It takes no memory.
    pub fn none() -> Values
        ensures { result ≡ [] }
    {
        Values { form: Form::Empty }
    }

    /// One number. It takes no memory.
    pub fn one(number: ValueId) -> Values
        ensures { result ≡ number ∷ [] }
    {
        Values {
            form: Form::One([number]),
        }
    }

    /// A number so many times. Up to three take no memory.
    pub fn repeated(alloc: Global, number: ValueId, count: usize) -> Result<Values, NoMemory>
        ensures { IfOk result (λ v. v ≡ replicate count number) }
    {
        let form = match count {
            0 => Form::Empty,
            1 => Form::One([number]),
            2 => Form::Two([number; 2]),
            3 => Form::Three([number; 3]),
            _ => Form::Long(vec![in alloc; number; count]?),
        };
        Ok(Values { form })
    }

    /// The number in a slot, counted from 0.
    pub fn at(&self, slot: u32) -> ValueId
        requires { slot < length self.now }
        ensures { slice_get self.now slot ≡ Some result }
    {
        let k = slot as usize;
        match &self.form {
            Form::Empty => unreachable!(),
            Form::One(numbers) => numbers[k],
            Form::Two(numbers) => numbers[k],
            Form::Three(numbers) => numbers[k],
            Form::Long(numbers) => numbers[k],
        }
    }

    /// The numbers with another one in a slot, counted from 0. It takes no memory.
    pub fn with(mut self, slot: u32, number: ValueId) -> Values
        requires { slot < length self }
        ensures { result ≡ slice_set self slot number }
    {
        let k = slot as usize;
        match &mut self.form {
            Form::Empty => {}
            Form::One(numbers) => numbers[k] = number,
            Form::Two(numbers) => numbers[k] = number,
            Form::Three(numbers) => numbers[k] = number,
            Form::Long(numbers) => numbers[k] = number,
        }
        self
    }
}
