ghost use Rattle.std.specs.Prelude.{◌≡◌, ◌<◌, IfOk, length};
ghost use Rattle.path_classes.specs.Walk.{letter_in, state_behind, state_in, class_in, member_at, answer_at, at_or_zero};
ghost use Rattle.path_classes.specs.Classes.{Tells};

use crate::answers::sort;
use crate::letters::letters_of;
use crate::lines::lines_of;
use crate::numbers::Sorted;
use crate::states::explore;
use aspath_text::TokenPattern;
use indexmap::IndexSet;
use route_types::{Memory, Row};
use std::alloc::Global;

/// The classes of AS paths in which patterns answer alike, by the places from 0 to below their count. Each has a path.
#[derive(Drop)]
pub struct Classes {
    ends: Sorted,
    letters: Row<usize>,
    next: Row<Row<usize>>,
    classes: Row<usize>,
    answers: IndexSet<Row<bool>>,
    members: Row<Row<u32>>,
}

// The item at a place, and 0 where none is.
fn at_or_zero(items: &[usize], place: usize) -> usize
    ensures { result ≡ at_or_zero items.now place }
{
    items.get(place).copied().unwrap_or(0)
}

impl Classes {
    /// The classes of these patterns. Two paths are in one class exactly where each pattern matches both or none of
    /// them. The time is linear in what the result holds, the states and the letters of an automaton; patterns that are
    /// independent of one another multiply its states. Its one error is want of memory.
    pub fn new(alloc: Global, patterns: &[TokenPattern]) -> Result<Classes, Memory>
        ensures { IfOk result (Tells patterns.now) }
    {
        let lines = lines_of(alloc, patterns)?;
        let letters = letters_of(alloc, lines.as_slice())?;
        let states = explore(alloc, lines.as_slice(), letters.numbers.as_slice())?;
        let sorting = sort(alloc, patterns.len(), &states)?;
        Ok(Classes {
            ends: letters.ends,
            letters: letters.letters,
            next: states.next,
            classes: sorting.classes,
            answers: sorting.answers,
            members: sorting.members,
        })
    }

    /// How many classes there are. It takes no memory.
    pub fn count(&self) -> usize
        ensures { result ≡ length self.now.members }
    {
        self.members.len()
    }

    // The letter of a number.
    fn letter(&self, number: u32) -> usize
        ensures { result ≡ letter_in self.now number }
    {
        at_or_zero(self.letters.as_slice(), self.ends.below(number))
    }

    // The state to which a number leads from another one.
    fn state_behind(&self, state: usize, number: u32) -> usize
        ensures { result ≡ state_behind self.now state number }
    {
        match self.next.as_slice().get(state) {
            None => 0,
            Some(row) => at_or_zero(row.as_slice(), self.letter(number)),
        }
    }

    // The state to which a path leads.
    #[tactic(auto, unfolding(crate::specs::Walk::state_in))]
    fn state(&self, path: &[u32]) -> usize
        ensures { result ≡ state_in self.now 0 path.now }
    {
        let mut state = 0;
        let mut rest = path;
        while let [number, tail @ ..] = rest {
            state = self.state_behind(state, *number);
            rest = tail;
        }
        state
    }

    /// The class of a path, in one walk along it. It takes no memory.
    pub fn class_of(&self, path: &[u32]) -> usize
        ensures { result ≡ class_in self.now path.now }
    {
        at_or_zero(self.classes.as_slice(), self.state(path))
    }

    /// A path of the class, which is below the count: one of the shortest. It takes no memory.
    pub fn member(&self, class: usize) -> &[u32]
        requires { class < length self.now.members }
        ensures { result.now ≡ member_at self.now class }
    {
        self.members.as_slice()[class].as_slice()
    }

    /// Whether the pattern at this place of the patterns matches the paths of the class, which is below the count. It
    /// takes no memory.
    pub fn answer(&self, class: usize, pattern: usize) -> bool
        requires { class < length self.now.members }
        ensures { result ≡ answer_at self.now class pattern }
    {
        match self.answers.get_index(class) {
            None => false,
            Some(answers) => answers.as_slice().get(pattern).copied().unwrap_or(false),
        }
    }
}
