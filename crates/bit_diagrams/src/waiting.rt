// The choices that wait for the answers of their halves, and what a choice is.
ghost use Rattle.std.specs.Prelude.{◌≡◌, ◌∷◌, [], OnOk, OnErr, MatchOption};

use crate::parts::{Id, Memory};
use std::alloc::Global;
use std::marker::Model;

// The choice between two Ids by a third: `high` where `test` holds, else `low`.
#[derive(Clone, Copy, Debug, PartialEq, Eq, Hash)]
pub struct Choice {
    pub test: Id,
    pub high: Id,
    pub low: Id,
}

// The choices that wait, of which contracts see the newest first.
#[derive(Drop)]
pub struct Waiting {
    choices: Vec<Choice>,
}

impl Model for Waiting {
    ghost use Rattle.std.specs.Prelude.{List, reverse};
    ghost use Rattle.bit_diagrams.specs.declared.waiting.Choice.{Choice};

    ghost Value = { List Choice };

    ghost view = { λ w. reverse w.choices.items };
}

impl Waiting {
    // Nothing waits.
    pub fn new(alloc: Global) -> Waiting
        ensures { result ≡ [] }
    {
        Waiting {
            choices: Vec::new(alloc),
        }
    }

    // A further choice waits.
    pub fn push(&mut self, choice: Choice) -> Result<(), Memory>
        ensures ok { OnOk result (self.new ≡ choice ∷ self.old) }
        ensures err { OnErr result (self.new ≡ self.old) }
    {
        self.choices.push(choice)?;
        Ok(())
    }

    // The newest of the choices waits no more.
    pub fn pop(&mut self) -> Option<Choice>
        ensures { MatchOption result ((self.old ≡ []) × (self.new ≡ []))
            (λ choice. self.old ≡ choice ∷ self.new) }
    {
        self.choices.pop()
    }
}
