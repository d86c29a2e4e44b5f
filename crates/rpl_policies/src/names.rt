// Tests as they are written: a test of a set by the set's name.
ghost use Rattle.std.specs.Prelude.{◌≡◌, ◌<◌, ◌^◌, IfOk};
ghost use Rattle.rpl_words.specs.declared.condition.RplTest.TheVariants.{Med};
ghost use Rattle.rpl_words.specs.declared.number.RplNumber.TheVariants.{Fixed};
ghost use Rattle.rpl_layout.specs.Forms.{set_name};
ghost use Rattle.rpl_policies.specs.Names.{writing};

use crate::sets::{PlanSets, place_of};
use route_types::{Memory, Row, push_number};
use rpl_plans::PlannedTest;
use rpl_words::{Comparison, MedTest, RplNumber, RplSet, RplTest};
use std::alloc::Global;

/// What sets are named by: the name of the policy, and the place of a set among them.
#[derive(Clone, Copy)]
pub(crate) struct Names<'a> {
    pub name: &'a [u8],
    pub sets: &'a PlanSets,
}

/// The name of the set at a place: `NAME-p1` is the one at place 0 under the letter `-p`. Its one error is want of memory.
pub(crate) fn set_name(
    alloc: Global,
    name: &[u8],
    letter: &[u8],
    place: usize,
) -> Result<Row<u8>, Memory>
    requires { place < 2 ^ 63 }
    ensures { IfOk result (λ text. text ≡ set_name name.now letter.now place) }
{
    let mut text = Vec::with_capacity(alloc, name.len().saturating_add(8))?;
    text.extend_from_slice(name)?;
    text.extend_from_slice(letter)?;
    push_number(&mut text, place as u64 + 1)?;
    Ok(Row::from_vec(text))
}

fn med_test(comparison: Comparison, number: u32) -> RplTest
    ensures { result ≡ Med (record { comparison = comparison; med = Fixed number }) }
{
    RplTest::Med(MedTest {
        comparison,
        med: RplNumber::Fixed(number),
    })
}

impl<'a> Names<'a> {
    /// A test by the name of its set. Its one error is want of memory.
    #[tactic(auto, unfolding(crate::specs::Names::writing, crate::specs::Own::own))]
    pub(crate) fn written(&self, alloc: Global, test: &PlannedTest) -> Result<RplTest, Memory>
        ensures { IfOk result (λ t. t ≡ writing self.now test.now) }
    {
        let sets = self.sets;
        match test {
            PlannedTest::Destination(ranges) => {
                let place = place_of(&sets.prefixes, ranges);
                let set = set_name(alloc, self.name, b"-p", place)?;
                Ok(RplTest::Destination(RplSet::Named(set)))
            }
            PlannedTest::NextHop(ranges) => {
                let place = place_of(&sets.prefixes, ranges);
                let set = set_name(alloc, self.name, b"-p", place)?;
                Ok(RplTest::NextHop(RplSet::Named(set)))
            }
            PlannedTest::PathIn(texts) => {
                let place = place_of(&sets.paths, texts);
                let set = set_name(alloc, self.name, b"-a", place)?;
                Ok(RplTest::PathIn(RplSet::Named(set)))
            }
            PlannedTest::MatchesAny(rects) => {
                let place = place_of(&sets.communities, rects);
                let set = set_name(alloc, self.name, b"-c", place)?;
                Ok(RplTest::MatchesAny(RplSet::Named(set)))
            }
            PlannedTest::MatchesEvery(rects) => {
                let place = place_of(&sets.communities, rects);
                let set = set_name(alloc, self.name, b"-c", place)?;
                Ok(RplTest::MatchesEvery(RplSet::Named(set)))
            }
            PlannedTest::NoCommunity => Ok(RplTest::IsEmpty),
            PlannedTest::MedIs(number) => Ok(med_test(Comparison::Equal, *number)),
            PlannedTest::MedAtLeast(number) => Ok(med_test(Comparison::AtLeast, *number)),
            PlannedTest::MedAtMost(number) => Ok(med_test(Comparison::AtMost, *number)),
            PlannedTest::Origin(origin) => Ok(RplTest::Origin(*origin)),
        }
    }
}
