//! Locations of walks.

ghost use Rattle.std.specs.Prelude.{◌≡◌, IfOk, string_bytes};
ghost use Rattle.wax_tree.specs.{Courses.onward_location, Walking.located};

use std::alloc::{AllocError, Global};
use wax_walk::WalkedPath;

/// A path with its depth, which is the number of its candidate's names. For a folder that is being
/// listed, `depth` is that of what is in it.
#[derive(Drop)]
pub(crate) struct Location {
    pub(crate) path: WalkedPath,
    pub(crate) depth: usize,
}

impl Location {
    /// Returns the location of a name in the folder here, one level deeper.
    pub(crate) fn below(&self, alloc: Global, name: String) -> Result<Location, AllocError>
        ensures { IfOk result (λ next. located next
            ≡ onward_location (located self.now) (string_bytes name)) }
    {
        let path = WalkedPath::in_folder(alloc, &self.path, name)?;
        Ok(Location {
            path,
            depth: self.depth.saturating_add(1),
        })
    }
}
