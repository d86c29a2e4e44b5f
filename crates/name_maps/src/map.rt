ghost use Rattle.std.specs.Prelude.{◌≡◌, ℕ, List, Some, None, IfOk, true, false, bytes_eq};
ghost use Rattle.name_maps.specs.Under.{under, first_of};

use std::alloc::Global;
use std::collections::BTreeMap;
use text_words::Memory;

/// What stands under names, each of which is lent and not copied.
#[derive(Drop)]
pub struct NameMap<'a, V> {
    entries: BTreeMap<&'a [u8], V>,
}

impl<'a, V: Copy> NameMap<'a, V> {
    /// A map in which nothing stands. It takes no memory.
    pub fn new(alloc: Global) -> NameMap<'a, V>
        ensures { (q : List ℕ) → under result.entries q ≡ None }
    {
        NameMap {
            entries: BTreeMap::new(alloc),
        }
    }

    /// What stands under a name. It takes no memory.
    pub fn get(&self, name: &'a [u8]) -> Option<V>
        ensures { result ≡ under self.now.entries name.now }
    {
        match self.entries.get(&name) {
            Some(value) => Some(*value),
            None => None,
        }
    }

    /// Puts a value under a name, in the place of one that stands there. Its one error is want of memory.
    pub fn put(&mut self, name: &'a [u8], value: V) -> Result<(), Memory>
        ensures { IfOk result (λ _. (q : List ℕ) → under self.new.entries q ≡ elim (bytes_eq q name.now) [ true ↦ Some value | false ↦ under self.old.entries q ]) }
    {
        self.entries.insert(name, value)?;
        Ok(())
    }

    /// Puts a value under a name where none stands there yet. Its one error is want of memory.
    pub fn put_first(&mut self, name: &'a [u8], value: V) -> Result<(), Memory>
        ensures { IfOk result (λ _. (q : List ℕ) → under self.new.entries q ≡ elim (bytes_eq q name.now) [ true ↦ first_of (under self.old.entries q) value | false ↦ under self.old.entries q ]) }
    {
        if self.entries.contains_key(&name) {
            return Ok(());
        }
        self.entries.insert(name, value)?;
        Ok(())
    }
}
