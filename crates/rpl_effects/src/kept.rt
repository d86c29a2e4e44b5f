//! What was found of policies, each with the words that are handed to it.
ghost use Rattle.std.specs.Prelude.{◌≡◌, ◌⊎◌, ℕ, List, None, Some, IfOk, Vec};
ghost use Rattle.std.specs.Borrow.{Bor};
ghost use Rattle.rpl_effects.specs.Kept.{Key, kept_at, words_of};
ghost use Rattle.rpl_effects.specs.declared.kept.Found.{Found as SpecFound};

use route_types::Memory;
use std::alloc::Global;
use std::collections::BTreeMap;

/// Numbers of levels, from the least to the most.
#[derive(Clone, Copy, Debug)]
pub struct Levels {
    pub least: u8,
    pub most: u8,
}

/// Where in a table the effect of a policy stands, and for how many levels of `apply` below it this is what it does.
#[derive(Clone, Copy, Debug)]
pub struct Found {
    pub place: usize,
    pub levels: Levels,
}

/// What was found, under the name of a policy and the words that are handed to it.
#[derive(Drop)]
pub struct Kept<'a> {
    entries: BTreeMap<Vec<&'a [u8]>, Found>,
}

impl<'a> Kept<'a> {
    /// Nothing was found. It takes no memory.
    pub fn new(alloc: Global) -> Kept<'a>
        ensures { (key : Key) → kept_at result.entries key ≡ None }
    {
        Kept {
            entries: BTreeMap::new(alloc),
        }
    }

    /// What was found under these words. It takes no memory.
    pub fn get(&self, key: &Vec<&'a [u8]>) -> Option<Found>
        ensures { result ≡ kept_at self.now.entries key.now }
    {
        match self.entries.get(key) {
            Some(found) => Some(*found),
            None => None,
        }
    }

    /// Puts what was found under these words, in the place of what stood there. The one error is want of memory.
    pub fn put(&mut self, key: Vec<&'a [u8]>, found: Found) -> Result<(), Memory>
        ensures there { IfOk result (λ _. kept_at self.new.entries key.entry ≡ Some found) }
        // Under other words stands what stood there.
        ensures others { IfOk result (λ _. (other : Key) (o : SpecFound) → kept_at self.new.entries other ≡ Some o → (kept_at self.old.entries other ≡ Some o) ⊎ ((words_of other ≡ words_of key.entry) × (o ≡ found))) }
    {
        self.entries.insert(key, found)?;
        Ok(())
    }
}
