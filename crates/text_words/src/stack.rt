ghost use Rattle.std.specs.Prelude.{◌≡◌, [], ◌∷◌, length, reverse, IfNone, IfOk, MatchOption};

use crate::memory::Memory;
use std::alloc::Global;
use std::marker::Model;

/// A stack. Contracts see it as the list of its items, the last one that was put there first.
#[derive(Debug, Drop)]
pub struct Stack<T> {
    items: Vec<T>,
}

impl<T> Model for Stack<T> {
    ghost use Rattle.std.specs.Prelude.{List, reverse};
    ghost use Rattle.std.specs.Coded.{coded_list};

    ghost Value = { List T };

    ghost coded = { coded_list T.code };

    ghost view = { λ s. reverse s.items.items };
}

impl<T> Stack<T> {
    /// A stack without items. It takes no memory.
    pub fn new(alloc: Global) -> Stack<T>
        ensures { result ≡ [] }
    {
        Stack {
            items: Vec::new(alloc),
        }
    }

    /// Puts an item on top.
    pub fn push(&mut self, item: T) -> Result<(), Memory>
    where
        T: Drop,
        ensures { IfOk result (λ _. self.new ≡ item ∷ self.old) }
    {
        self.items.push(item)?;
        Ok(())
    }

    /// Takes the item on top away; none where there is no item.
    pub fn pop(&mut self) -> Option<T>
        ensures top { MatchOption result (self.old ≡ []) (λ item. self.old ≡ item ∷ self.new) }
        // An empty stack stays empty.
        ensures empty { IfNone result (self.new ≡ []) }
    {
        self.items.pop()
    }

    /// How many items there are.
    pub fn len(&self) -> usize
        ensures { result ≡ length self.now }
    {
        self.items.len()
    }
}
