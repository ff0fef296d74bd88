// What a node keeps.
ghost use Rattle.std.specs.Prelude.{◌≡◌, ◌<◌, [], false, length, slice_get, slice_set, Some};

use crate::values::Values;
use sg_kinds::ids::ValueId;

/// What a node keeps: its scheme number, its elided mark, and the numbers of its values in a pool. A node of an
/// operator has a value for each slot, a leaf the one that it holds.
#[derive(Drop)]
pub struct Part {
    pub scheme: u32,
    pub elided: bool,
    pub values: Values,
}

impl Part {
    /// A part without values. It takes no memory.
    pub fn blank() -> Part
        ensures { result ≡ record { scheme = 0; elided = false; values = [] } }
    {
        Part {
            scheme: 0,
            elided: false,
            values: Values::none(),
        }
    }

    /// The part with another value in a slot, counted from 0, and the number of the value before. It takes no memory.
    pub fn with_value(self, slot: u32, value: ValueId) -> (Part, ValueId)
        requires { slot < length self.values }
        ensures part { result.0 ≡ record self { values = slice_set self.values slot value } }
        ensures before { slice_get self.values slot ≡ Some result.1 }
    {
        let before = self.values.at(slot);
        let part = Part {
            scheme: self.scheme,
            elided: self.elided,
            values: self.values.with(slot, value),
        };
        (part, before)
    }

    /// The part with this scheme number and this mark. It takes no memory.
    pub fn with_marks(self, scheme: u32, elided: bool) -> Part
        ensures { result ≡ record self { scheme = scheme; elided = elided } }
    {
        Part {
            scheme,
            elided,
            values: self.values,
        }
    }
}
