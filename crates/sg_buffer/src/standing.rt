//! Where the selected node of a buffer stands.
ghost use Rattle.std.specs.Prelude.{◌≡◌, [], None};

use sg_kinds::row::{Path, Row};
use sg_unparse::Beginning;
use std::alloc::Global;

/// The path of the selected node, and where it begins, where that is told.
#[derive(Drop)]
pub struct Standing {
    pub way: Path,
    pub begins: Option<Beginning>,
}

impl Standing {
    /// That of the root, where nothing is told of where it begins. It takes no memory.
    pub fn at_root(alloc: Global) -> Standing
        ensures { result ≡ record { way = []; begins = None } }
    {
        Standing {
            way: Row::new(Vec::new(alloc)),
            begins: None,
        }
    }
}
