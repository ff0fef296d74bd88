// What is selected, and what a window shows.
ghost use Rattle.std.specs.Prelude.{◌≡◌, IfOk};

use sg_kinds::memory::NoMemory;
use sg_kinds::row::Path;
use std::alloc::Global;

/// What is selected: a node, or a run of elements of a list.
#[derive(Drop)]
pub struct Selection {
    /// the path of the node, of a run's first element
    pub path: Path,
    /// how many nodes are selected, from 1
    pub count: usize,
}

impl Selection {
    /// An equal selection.
    pub fn copy(&self, alloc: Global) -> Result<Selection, NoMemory>
        ensures { IfOk result (λ s. s ≡ self.now) }
    {
        Ok(Selection {
            path: self.path.copy(alloc)?,
            count: self.count,
        })
    }
}

/// A selection with the first line that a window shows.
#[derive(Drop)]
pub struct Spot {
    pub selection: Selection,
    /// the line at the window's top, from 1
    pub top: usize,
    /// the view in which it was seen, 0 for the ordinary one
    pub view: u32,
}

impl Spot {
    /// An equal spot.
    pub fn copy(&self, alloc: Global) -> Result<Spot, NoMemory>
        ensures { IfOk result (λ s. s ≡ self.now) }
    {
        Ok(Spot {
            selection: self.selection.copy(alloc)?,
            top: self.top,
            view: self.view,
        })
    }
}
