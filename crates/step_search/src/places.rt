//! Where each name of a list stands.
ghost use Rattle.std.specs.Prelude.{◌≡◌, ◌+◌, ◌<◌, ◌++◌, ℕ, List, [], Some, OnOk, length, slice_get};
ghost use Rattle.step_search.specs.Tables.{IsTable, kept_below, places_in};

use name_maps::NameMap;
use std::alloc::Global;
use text_words::{Memory, Row};

/// The last place of each name of a list, and for each place the last one before it that has the same name.
#[derive(Drop)]
pub struct Places<'a> {
    last: NameMap<'a, usize>,
    earlier: Vec<Option<usize>>,
}

impl<'a> Places<'a> {
    /// The places of an empty list. It takes no memory.
    pub fn new(alloc: Global) -> Places<'a>
        ensures { (names : List (List ℕ)) → IsTable names result 0 }
    {
        Places {
            last: NameMap::new(alloc),
            earlier: Vec::new(alloc),
        }
    }

    /// Adds the next name. Its one error is want of memory.
    pub fn add(&mut self, name: &'a [u8]) -> Result<(), Memory>
        ensures { OnOk result ((names : List (List ℕ)) (n : ℕ) → IsTable names self.old n → slice_get names n ≡ Some name.now → IsTable names self.new (n + 1)) }
    {
        let place = self.earlier.len();
        self.earlier.push(self.last.get(name))?;
        self.last.put(name, place)?;
        Ok(())
    }

    // The last place before this one that has the same name.
    fn before(&self, place: usize) -> Option<usize>
        ensures { result ≡ kept_below self.now.earlier.items place }
    {
        match self.earlier.get(place) {
            None => None,
            Some(None) => None,
            Some(Some(before)) => {
                if *before < place {
                    return Some(*before);
                }
                None
            }
        }
    }

    /// Puts the places of a name behind what is in the row, the last one first. Its one error is want of memory.
    pub fn push_places(&self, row: &mut Row<usize>, name: &'a [u8]) -> Result<(), Memory>
        ensures { OnOk result ((names : List (List ℕ)) → IsTable names self.now (length names) → row.new ≡ row.old ++ places_in names name.now) }
    {
        let mut at = self.last.get(name);
        while let Some(place) = at {
            row.push(place)?;
            at = self.before(place);
        }
        Ok(())
    }
}
