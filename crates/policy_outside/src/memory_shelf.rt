// A shelf over a list in memory, whose calls can be made to fail.
ghost use Rattle.std.specs.Prelude.{◌≡◌, ◌++◌, ◌∷◌, [], OnOk, OnErr, IfOk, option_copied};
ghost use Rattle.policy_outside.specs.Texts.{text_at};
ghost use Rattle.policy_outside.specs.MemoryShelf.{shelf_view, Adds, AnswersNextFetch};
ghost use Rattle.policy_outside.specs.MemoryShelf.{FetchesInMemory};
ghost use Rattle.policy_outside.specs.Shelf.{Fetches};

use crate::counts::is_next_to_fail;
use crate::faults::{FetchFault, Memory};
use crate::shelf::Shelf;
use std::alloc::{AllocError, Global};
use std::marker::Model;

/// A shelf that keeps its texts in memory and tells them. Its calls of `fetch` are counted from 1, and
/// those that `fail_at` names answer `Failed`, as does a call for a name that it does not hold.
#[derive(Drop)]
pub struct MemoryShelf {
    texts: Vec<HeldText>,
    failing: Vec<u64>,
    calls: u64,
    faults: u64,
    last_fault: Vec<u8>,
}

impl Model for MemoryShelf {
    ghost use Rattle.policy_outside.specs.MemoryShelf.{ShelfInMemory};

    ghost Value = { ShelfInMemory };

    ghost view = { λ s. record {
      texts = s.texts.items;
      failing = s.failing.items;
      calls = s.calls;
      faults = s.faults;
      last_fault = s.last_fault.items;
    } };
}

impl MemoryShelf {
    /// A shelf with no texts and no faults, none of whose calls is to fail.
    pub fn new(alloc: Global) -> MemoryShelf
        ensures { result ≡ record
            { texts = []; failing = []; calls = 0; faults = 0; last_fault = [] } }
    {
        MemoryShelf {
            texts: Vec::new(alloc),
            failing: Vec::new(alloc),
            calls: 0,
            faults: 0,
            last_fault: Vec::new(alloc),
        }
    }

    /// Holds `text` under `name` from now on, in place of a text that was held there.
    /// After `Memory` the shelf is unchanged.
    pub fn add(&mut self, name: &str, text: &[u8]) -> Result<(), Memory>
        ensures ok { OnOk result (Adds self.old self.new name.now text.now) }
        ensures err { OnErr result (self.new ≡ self.old) }
    {
        let alloc = *self.texts.allocator();
        let held = held_text(alloc, name.as_bytes(), text)?;
        self.texts.insert(0, held)?;
        Ok(())
    }

    /// Makes the call of `fetch` with this number fail; the first call has number 1.
    /// After `Memory` the shelf is unchanged.
    pub fn fail_at(&mut self, call: u64) -> Result<(), Memory>
        ensures ok { OnOk result
            (self.new ≡ record self.old { failing = self.old.failing ++ call ∷ [] }) }
        ensures err { OnErr result (self.new ≡ self.old) }
    {
        self.failing.push(call)?;
        Ok(())
    }

    /// What the next call of `fetch` answers.
    fn next_answer(&self, alloc: Global, name: &[u8], most: u64) -> Result<Vec<u8>, FetchFault>
        ensures { AnswersNextFetch self.now name.now most result }
    {
        if is_next_to_fail(self.failing.as_slice(), self.calls) {
            return Err(FetchFault::Failed);
        }
        let Some(text) = find_text(self.texts.as_slice(), name) else {
            return Err(FetchFault::Failed);
        };
        if text.len() as u64 > most {
            return Err(FetchFault::TooLong);
        }
        Ok(Vec::from_slice(alloc, text)?)
    }
}

impl Shelf for MemoryShelf {
    ghost seen = { shelf_view };

    fn fetch(&mut self, alloc: Global, name: &str, most: u64) -> Result<Vec<u8>, FetchFault>
        ensures fetches { Fetches (shelf_view self.old) (shelf_view self.new) name.now most result }
        ensures exact { FetchesInMemory self.old self.new name.now most result }
    {
        let answer = self.next_answer(alloc, name.as_bytes(), most);
        self.calls = self.calls.saturating_add(1);
        if let Err(FetchFault::Failed) = answer {
            self.last_fault = Vec::from_slice(alloc, name.as_bytes())?;
            self.faults = self.faults.saturating_add(1);
        }
        answer
    }
}

/// A text under its name; to a contract, the pair of both.
#[derive(Drop)]
struct HeldText {
    name: Vec<u8>,
    text: Vec<u8>,
}

impl Model for HeldText {
    ghost use Rattle.std.specs.Prelude.{ℕ, List};

    ghost Value = { List ℕ × List ℕ };

    ghost view = { λ h. (h.name.items, h.text.items) };
}

/// A copy of a name and its text.
fn held_text(alloc: Global, name: &[u8], text: &[u8]) -> Result<HeldText, AllocError>
    ensures { IfOk result (λ held. held ≡ (name.now, text.now)) }
{
    let name = Vec::from_slice(alloc, name)?;
    let text = Vec::from_slice(alloc, text)?;
    Ok(HeldText { name, text })
}

/// The text under `name`. `None` where no text is held there.
fn find_text<'a>(texts: &'a [HeldText], name: &[u8]) -> Option<&'a [u8]>
    ensures { option_copied result ≡ text_at texts.now name.now }
{
    let mut rest = texts;
    while let [first, others @ ..] = rest {
        if first.name.as_slice() == name {
            return Some(first.text.as_slice());
        }
        rest = others;
    }
    None
}
