// How a store makes the Id of a choice: with work lists in place of recursion, each answer kept.
ghost use Rattle.std.specs.Prelude.{◌≡◌, ◌<◌, ◌≤◌, IfOk, OnOk, MatchOption};
ghost use Rattle.bit_diagrams.specs.Store.{IsIdOf, place_of, IsStore};
ghost use Rattle.bit_diagrams.specs.Meaning.{holds};
ghost use Rattle.bit_diagrams.specs.Choice.{Grows, IsChoiceOf, IsAnswer, IsSound, IsOpen, IsStepFor, IsHalf, IsCofactor, Remembers, choice_place, answer_in};

use crate::parts::{FALSE, Id, Memory, Node, TRUE};
use crate::store::Diagrams;
use crate::waiting::{Choice, Waiting};
use indexmap::IndexMap;

// The answers found so far.
type Memo = IndexMap<Choice, Id>;

// What to do next about a choice: first work out one of its halves, or make its node.
#[derive(Clone, Copy, Debug)]
pub enum Step {
    Descend(Choice),
    Join(Node),
}

// The answer that was found for a choice.
fn recall(memo: &Memo, choice: &Choice) -> Option<Id>
    ensures { result ≡ answer_in memo.now choice.now }
{
    memo.get(choice).copied()
}

// Keeps an answer.
fn remember(memo: &mut Memo, choice: Choice, id: Id) -> Result<(), Memory>
    ensures { OnOk result (Remembers memo.old memo.new choice id) }
{
    memo.insert(choice, id)?;
    Ok(())
}

impl Diagrams {
    // The Id of a choice whose test is no constant.
    pub(crate) fn settle(&mut self, start: Choice) -> Result<Id, Memory>
        requires of_store { IsChoiceOf self.old start }
        requires tests { 2 ≤ start.test }
        ensures answer { IfOk result (IsAnswer self.new start) }
        ensures grows { Grows self.old self.new }
    {
        let alloc = self.allocator();
        let mut memo = IndexMap::new(alloc);
        let mut waiting = Waiting::new(alloc);
        let mut current = start;
        loop {
            match self.next_step(&memo, &current) {
                Step::Descend(half) => {
                    waiting.push(current)?;
                    current = half;
                }
                Step::Join(node) => {
                    let id = self.branch(node)?;
                    remember(&mut memo, current, id)?;
                    match waiting.pop() {
                        None => return Ok(id),
                        Some(parent) => current = parent,
                    }
                }
            }
        }
    }

    // What to do next about a choice that is open.
    fn next_step(&self, memo: &Memo, choice: &Choice) -> Step
        requires choice_is_open { IsOpen self.now (answer_in memo.now) choice.now }
        requires sound { IsSound self.now (answer_in memo.now) }
        ensures step { IsStepFor self.now (answer_in memo.now) choice.now result }
        ensures facts { IsStore self.now }
    {
        let place = self.choice_place(choice);
        let low_half = self.half(choice, place, false);
        let Some(low) = self.known(memo, &low_half) else {
            return Step::Descend(low_half);
        };
        let high_half = self.half(choice, place, true);
        let Some(high) = self.known(memo, &high_half) else {
            return Step::Descend(high_half);
        };
        Step::Join(Node { place, low, high })
    }

    // The answer of a choice, where it shows at once or was found.
    fn known(&self, memo: &Memo, choice: &Choice) -> Option<Id>
        requires of_store { IsChoiceOf self.now choice.now }
        requires sound { IsSound self.now (answer_in memo.now) }
        ensures { MatchOption result (IsOpen self.now (answer_in memo.now) choice.now)
            (IsAnswer self.now choice.now) }
    {
        match self.simple(choice) {
            Some(id) => Some(id),
            None => recall(memo, choice),
        }
    }

    // The answer of a choice where it shows at once.
    pub(crate) fn simple(&self, choice: &Choice) -> Option<Id>
        requires { IsChoiceOf self.now choice.now }
        ensures { MatchOption result (2 ≤ choice.now.test) (IsAnswer self.now choice.now) }
    {
        if choice.test == FALSE {
            return Some(choice.low);
        }
        if choice.test == TRUE || choice.high == choice.low {
            return Some(choice.high);
        }
        if choice.high == TRUE && choice.low == FALSE {
            return Some(choice.test);
        }
        None
    }

    // The first place that a choice looks at.
    fn choice_place(&self, choice: &Choice) -> usize
        ensures place { result ≡ choice_place self.now choice.now }
        ensures facts { IsStore self.now }
    {
        let others = self.place_of(choice.high).min(self.place_of(choice.low));
        self.place_of(choice.test).min(others)
    }

    // The choice, where the bit at the place is known.
    fn half(&self, choice: &Choice, place: usize, value: bool) -> Choice
        requires of_store { IsChoiceOf self.now choice.now }
        requires first { place ≡ choice_place self.now choice.now }
        requires within { place < self.now.places }
        ensures { IsHalf self.now choice.now place value result }
    {
        Choice {
            test: self.cofactor(choice.test, place, value),
            high: self.cofactor(choice.high, place, value),
            low: self.cofactor(choice.low, place, value),
        }
    }

    // The Id, where the bit at the place is known.
    fn cofactor(&self, id: Id, place: usize, value: bool) -> Id
        requires of_store { IsIdOf self.now id }
        requires first { place ≤ place_of self.now.places self.now.nodes id }
        requires within { place < self.now.places }
        ensures { IsCofactor self.now id place value result }
    {
        let Some(node) = self.node(id) else {
            return id;
        };
        if node.place != place {
            return id;
        }
        node.way(value)
    }
}
