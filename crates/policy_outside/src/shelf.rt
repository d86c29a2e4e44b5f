// Where texts are fetched from.
ghost use Rattle.policy_outside.specs.Shelf.{ShelfView, Fetches};

use crate::faults::FetchFault;
use std::alloc::Global;

/// A place that holds texts under names: a directory of files, or a list in memory.
pub trait Shelf {
    /// What the shelf means: its texts, where it tells them, its count of faults, and the name of its
    /// last fault.
    ghost seen: { Self → ShelfView };

    /// The text under `name`, a list of at most `most` bytes.
    ///
    /// `Failed` comes only where the count of faults rose in this call, and the name of the last fault is then
    /// `name`. `TooLong` comes where the text has more than `most` bytes. `Memory` is want of memory.
    fn fetch(&mut self, alloc: Global, name: &str, most: u64) -> Result<Vec<u8>, FetchFault>
        ensures { Fetches (seen self.old) (seen self.new) name.now most result };
}
