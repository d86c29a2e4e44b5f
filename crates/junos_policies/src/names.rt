// How what is planned is named.
ghost use Rattle.std.specs.Prelude.{◌≡◌, ◌<◌, ◌^◌, ◌+◌, ◌∷◌, [], map, IfOk};
ghost use Rattle.junos_layout.specs.Options.{own_name};
ghost use Rattle.junos_layout.specs.Writing.{OfList, Unless, AllOf};
ghost use Rattle.junos_policies.specs.Names.{writing};

use crate::parts::PlanParts;
use crate::sets::{count, place_of};
use junos_plans::{PlannedList, PlannedLiteral, PlannedTest};
use route_types::{Memory, Rect, Row, push_number};
use std::alloc::Global;

/// What is named by: the name of the policy, and the place of what is defined among its sort.
#[derive(Clone, Copy)]
pub(crate) struct Names<'a> {
    pub name: &'a [u8],
    pub parts: &'a PlanParts,
}

/// The name of the definition at a place: `NAME-a1` is the one at place 0 under the letter `-a`. Its one error is want of memory.
pub(crate) fn own_name(
    alloc: Global,
    name: &[u8],
    letter: &[u8],
    place: usize,
) -> Result<Row<u8>, Memory>
    requires { place < 2 ^ 63 }
    ensures { IfOk result (λ text. text ≡ own_name name.now letter.now place) }
{
    let mut text = Vec::new(alloc);
    text.extend_from_slice(name)?;
    text.extend_from_slice(letter)?;
    push_number(&mut text, place as u64 + 1)?;
    Ok(Row::from_vec(text))
}

/// A place behind others. `Memory` comes where that is 2^63 or more, as no memory holds so many.
pub(crate) fn place_behind(before: usize, place: usize) -> Result<usize, Memory>
    ensures sum { IfOk result (λ n. n ≡ before + place) }
    ensures small { IfOk result (λ n. n < 2 ^ 63) }
{
    const LIMIT: usize = 1 << 62;
    if before >= LIMIT || place >= LIMIT {
        return Err(Memory);
    }
    Ok(before + place)
}

impl<'a> Names<'a> {
    /// The name of an AS path. Its one error is want of memory.
    #[tactic(auto, unfolding(crate::specs::Names::writing, crate::specs::Parts::written_by))]
    pub(crate) fn path(&self, alloc: Global, text: &Row<u8>) -> Result<Row<u8>, Memory>
        ensures { IfOk result (λ word. word ≡ (writing self.now).path text.now) }
    {
        let parts = self.parts;
        let place = place_of(&parts.paths, text);
        own_name(alloc, self.name, b"-a", place)
    }

    /// The name of a community. Its one error is want of memory.
    #[tactic(auto, unfolding(crate::specs::Names::writing, crate::specs::Parts::written_by))]
    pub(crate) fn community(&self, alloc: Global, members: &Row<Rect>) -> Result<Row<u8>, Memory>
        ensures { IfOk result (λ word. word ≡ (writing self.now).community members.now) }
    {
        let parts = self.parts;
        let place = place_of(&parts.communities, members);
        own_name(alloc, self.name, b"-c", place)
    }

    /// The name of the subroutine of a list. Its one error is want of memory.
    #[tactic(auto, unfolding(crate::specs::Names::writing, crate::specs::Parts::written_by))]
    pub(crate) fn list(&self, alloc: Global, list: &PlannedList) -> Result<Row<u8>, Memory>
        ensures { IfOk result (λ word. word ≡ (writing self.now).subroutine (OfList list.now)) }
    {
        let parts = self.parts;
        let place = place_of(&parts.lists, list);
        own_name(alloc, self.name, b"-s", place)
    }

    /// The name of the subroutine that refuses where a test holds. Its one error is want of memory.
    #[tactic(auto, unfolding(crate::specs::Names::writing, crate::specs::Parts::written_by))]
    pub(crate) fn refusal(&self, alloc: Global, test: &PlannedTest) -> Result<Row<u8>, Memory>
        ensures { IfOk result (λ word. word ≡ (writing self.now).subroutine (Unless test.now)) }
    {
        let parts = self.parts;
        let place = place_behind(count(&parts.lists), place_of(&parts.tests, test))?;
        own_name(alloc, self.name, b"-s", place)
    }

    /// The name of the subroutine of a guard's literals. Its one error is want of memory.
    #[tactic(auto, unfolding(crate::specs::Names::writing, crate::specs::Parts::written_by))]
    pub(crate) fn guard(
        &self,
        alloc: Global,
        literals: &Row<PlannedLiteral>,
    ) -> Result<Row<u8>, Memory>
        ensures { IfOk result (λ word. word ≡ (writing self.now).subroutine (AllOf literals.now)) }
    {
        let parts = self.parts;
        let behind = place_behind(count(&parts.tests), place_of(&parts.guards, literals))?;
        let place = place_behind(count(&parts.lists), behind)?;
        own_name(alloc, self.name, b"-s", place)
    }

    /// The names of AS paths. Its one error is want of memory.
    pub(crate) fn paths(&self, alloc: Global, texts: &[Row<u8>]) -> Result<Row<Row<u8>>, Memory>
        ensures { IfOk result (λ words. words ≡ map (writing self.now).path texts.now) }
    {
        let mut words = Row::new(alloc);
        let mut rest = texts;
        while let [text, tail @ ..] = rest {
            let word = self.path(alloc, text)?;
            words.push(word)?;
            rest = tail;
        }
        Ok(words)
    }

    /// The names of communities. Its one error is want of memory.
    pub(crate) fn communities(
        &self,
        alloc: Global,
        sets: &[Row<Rect>],
    ) -> Result<Row<Row<u8>>, Memory>
        ensures { IfOk result (λ words. words ≡ map (writing self.now).community sets.now) }
    {
        let mut words = Row::new(alloc);
        let mut rest = sets;
        while let [members, tail @ ..] = rest {
            let word = self.community(alloc, members)?;
            words.push(word)?;
            rest = tail;
        }
        Ok(words)
    }

    /// The names of lists. Its one error is want of memory.
    pub(crate) fn lists(&self, alloc: Global, lists: &[PlannedList]) -> Result<Row<Row<u8>>, Memory>
        ensures { IfOk result (λ words. words ≡ map (λ l. (writing self.now).subroutine (OfList l)) lists.now) }
    {
        let mut words = Row::new(alloc);
        let mut rest = lists;
        while let [list, tail @ ..] = rest {
            let word = self.list(alloc, list)?;
            words.push(word)?;
            rest = tail;
        }
        Ok(words)
    }
}
