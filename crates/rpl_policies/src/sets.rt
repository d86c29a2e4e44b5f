// The sets of a plan, each once.
ghost use Rattle.std.specs.Prelude.{◌≡◌, ◌<◌, ◌^◌, length, OnOk};
ghost use Rattle.rpl_layout.specs.Sharing.{noted, place_in};
ghost use Rattle.rpl_policies.specs.Noting.{no_sets, noted_test};

use indexmap::IndexSet;
use prefix_sets::PrefixRange;
use route_types::{Duplicate, Memory, Rect, Row};
use rpl_plans::PlannedTest;
use std::alloc::Global;
use std::hash::Hash;
use std::marker::Model;

/// The sets of a plan, those of each sort in the order of their first use.
#[derive(Drop)]
pub(crate) struct PlanSets {
    pub prefixes: IndexSet<Row<PrefixRange>>,
    pub communities: IndexSet<Row<Rect>>,
    pub paths: IndexSet<Row<Row<u8>>>,
}

impl Model for PlanSets {
    ghost use Rattle.rpl_layout.specs.Forms.{PlannedSets};

    ghost Value = { PlannedSets };

    ghost view = { λ s. record { prefixes = s.prefixes.keys; communities = s.communities.keys; paths = s.paths.keys } };
}

impl PlanSets {
    /// No sets. It takes no memory.
    pub(crate) fn new(alloc: Global) -> PlanSets
        ensures { result ≡ no_sets }
    {
        PlanSets {
            prefixes: IndexSet::new(alloc),
            communities: IndexSet::new(alloc),
            paths: IndexSet::new(alloc),
        }
    }

    /// Notes the set of a test, if it has one. Its one error is want of memory.
    #[tactic(auto, unfolding(crate::specs::Noting::noted_test, crate::specs::Own::own))]
    pub(crate) fn note_test(&mut self, alloc: Global, test: &PlannedTest) -> Result<(), Memory>
        ensures { OnOk result (self.new ≡ noted_test self.old test.now) }
    {
        match test {
            PlannedTest::Destination(ranges) => note(alloc, &mut self.prefixes, ranges),
            PlannedTest::NextHop(ranges) => note(alloc, &mut self.prefixes, ranges),
            PlannedTest::PathIn(texts) => note(alloc, &mut self.paths, texts),
            PlannedTest::MatchesAny(rects) => note(alloc, &mut self.communities, rects),
            PlannedTest::MatchesEvery(rects) => note(alloc, &mut self.communities, rects),
            PlannedTest::NoCommunity => Ok(()),
            PlannedTest::MedIs(_) => Ok(()),
            PlannedTest::MedAtLeast(_) => Ok(()),
            PlannedTest::MedAtMost(_) => Ok(()),
            PlannedTest::Origin(_) => Ok(()),
        }
    }
}

// Notes a set, of which a copy goes to the end where none stands that is equal to it.
fn note<T: Eq + Hash + Duplicate>(
    alloc: Global,
    sets: &mut IndexSet<T>,
    set: &T,
) -> Result<(), Memory>
    ensures { OnOk result (sets.new.keys ≡ noted T.eq sets.old.keys set.now) }
{
    if sets.contains(set) {
        return Ok(());
    }
    let copy = set.duplicate(alloc)?;
    sets.insert_full(copy)?;
    Ok(())
}

/// The sets in their order. It takes no memory.
pub(crate) fn all<T: Eq + Hash>(sets: &IndexSet<T>) -> &[T]
    ensures sets { result.now ≡ sets.now.keys }
    ensures few { length sets.now.keys < 2 ^ 63 }
{
    sets.iter().as_slice()
}

/// The place of the set that is equal to this one; their count where none is. It takes no memory.
#[tactic(auto, using(crate::proofs::Noted::place_of_position, crate::proofs::Noted::place_of_none))]
pub(crate) fn place_of<T: Eq + Hash>(sets: &IndexSet<T>, set: &T) -> usize
    ensures place { result ≡ place_in (T.eq set.now) sets.now.keys }
    ensures small { result < 2 ^ 63 }
{
    let count = sets.len();
    match sets.get_index_of(set) {
        None => count,
        Some(place) => place,
    }
}
