// Views: schemes of a second set and further ones, each set under a name.
ghost use Rattle.std.specs.Prelude.{◌≡◌, ◌≢◌, [], MatchOption};
ghost use Rattle.sg_kinds.specs.InView.{schemes_in_view};

use crate::copy::TryCopy;
use crate::ids::OpId;
use crate::memory::NoMemory;
use crate::row::Row;
use crate::spec::Scheme;
use crate::text::Text;
use std::alloc::Global;

/// The views of a specification. View v, counted from 1, has its name and its row at place v - 1; a row has one list
/// of schemes for each operator, which is empty where the operator has none in that view. View 0 is the ordinary one.
#[derive(Drop)]
pub struct Views {
    pub names: Row<Text>,
    pub rows: Row<Row<Row<Scheme>>>,
}

impl Views {
    /// No view but the ordinary one.
    pub fn none(alloc: Global) -> Views
        ensures { result ≡ record { names = []; rows = [] } }
    {
        Views {
            names: Row::new(Vec::new(alloc)),
            rows: Row::new(Vec::new(alloc)),
        }
    }

    /// The schemes that an operator has in view v alone, or None where it has none there, also where there is no such
    /// view or operator.
    pub fn schemes(&self, v: u32, op: OpId) -> Option<&[Scheme]>
        ensures { MatchOption result (schemes_in_view self.now v op ≡ [])
            (λ s. (s.now ≡ schemes_in_view self.now v op) × (s.now ≢ [])) }
    {
        let place = v.checked_sub(1)?;
        let schemes = self.rows.place(place)?.place(op.number)?.as_slice();
        if schemes.is_empty() {
            return None;
        }
        Some(schemes)
    }
}

impl TryCopy for Views {
    fn try_copy(&self, alloc: Global) -> Result<Views, NoMemory> {
        Ok(Views {
            names: self.names.try_copy(alloc)?,
            rows: self.rows.try_copy(alloc)?,
        })
    }
}
