// The answers of a state, and the classes of states that answer alike.
ghost use Rattle.std.specs.Prelude.{◌≡◌, ◌++◌, ◌∷◌, ◌<◌, ℕ, List, Bool, false, Some, IfOk, OnOk, length, slice_get};
ghost use Rattle.std.specs.List.{IsDistinct};
ghost use Rattle.path_classes.specs.Answers.{is_over, marked_one, marked, answers_of};
ghost use Rattle.path_classes.specs.Sorting.{same_answers, IsClassFound, IsClassPut, AddsState, AllSorted};

use crate::states::States;
use crate::threads::{Stage, Thread};
use indexmap::IndexSet;
use route_types::{Memory, Row};
use std::alloc::Global;

/// The classes of states: the class of each state, and for each class a path and what the patterns answer.
#[derive(Drop)]
pub(crate) struct Sorting {
    pub(crate) answers: IndexSet<Row<bool>>,
    pub(crate) members: Row<Row<u32>>,
    pub(crate) classes: Row<usize>,
}

// Whether the path may end here.
fn is_over(stage: &Stage) -> bool
    ensures { result ≡ is_over stage.now }
{
    match stage {
        Stage::Always | Stage::Ended => true,
        Stage::Inside(_) => false,
    }
}

// Marks the pattern of a thread whose path may end here.
fn mark(answers: &mut [bool], thread: &Thread)
    ensures { answers.new ≡ marked_one answers.old thread.now }
{
    if is_over(&thread.stage) && thread.pattern < answers.len() {
        answers[thread.pattern] = true;
    }
}

// What each of so many patterns answers to the paths of a state.
#[tactic(auto, unfolding(crate::specs::Answers::marked))]
fn answers_of(alloc: Global, count: usize, threads: &[Thread]) -> Result<Row<bool>, Memory>
    ensures { IfOk result (λ a. a ≡ answers_of count threads.now) }
{
    let mut answers = vec![in alloc; false; count]?;
    let mut rest = threads;
    while let [thread, tail @ ..] = rest {
        mark(&mut answers, thread);
        rest = tail;
    }
    Ok(Row::from_vec(answers))
}

impl Sorting {
    // The class in which patterns answer this: one that is there, or a new one with this path.
    fn class_for(
        &mut self,
        alloc: Global,
        answers: Row<bool>,
        path: &[u32],
    ) -> Result<usize, Memory>
        ensures found { IfOk result (IsClassFound self.old self.new answers path.now) }
        ensures distinct { OnOk result (IsDistinct same_answers self.new.answers.keys) }
    {
        let (class, is_new) = self.answers.insert_full(answers)?;
        if is_new {
            let member = Row::from_slice(alloc, path)?;
            self.members.push(member)?;
        }
        Ok(class)
    }

    // Puts the next state into the class in which patterns answer this; the path leads to the state.
    fn put(&mut self, alloc: Global, answers: Row<bool>, path: &[u32]) -> Result<(), Memory>
        ensures put { OnOk result (IsClassPut self.old self.new answers path.now) }
        ensures distinct { OnOk result (IsDistinct same_answers self.new.answers.keys) }
    {
        let class = self.class_for(alloc, answers, path)?;
        self.classes.push(class)?;
        Ok(())
    }

    // Puts what so many patterns answer to the paths of the state at this place.
    fn add_state(
        &mut self,
        alloc: Global,
        count: usize,
        states: &States,
        place: usize,
    ) -> Result<(), Memory>
        ensures put { OnOk result (AddsState count states.now self.old self.new place) }
        ensures distinct { OnOk result (IsDistinct same_answers self.old.answers.keys → IsDistinct same_answers self.new.answers.keys) }
    {
        let Some(threads) = states.configs.get_index(place) else {
            return Ok(());
        };
        let Some(path) = states.paths.as_slice().get(place) else {
            return Ok(());
        };
        let answers = answers_of(alloc, count, threads.as_slice())?;
        self.put(alloc, answers, path.as_slice())
    }
}

/// The classes of states in which so many patterns answer alike. Its one error is want of memory.
pub(crate) fn sort(alloc: Global, count: usize, states: &States) -> Result<Sorting, Memory>
    ensures { IfOk result (λ s. length states.now.configs.keys ≡ length states.now.paths → AllSorted count states.now s) }
{
    let mut sorting = Sorting {
        answers: IndexSet::new(alloc),
        members: Row::new(alloc),
        classes: Row::new(alloc),
    };
    let mut place = 0;
    while place < states.configs.len() {
        sorting.add_state(alloc, count, states, place)?;
        place += 1;
    }
    Ok(sorting)
}
