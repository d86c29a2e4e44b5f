ghost use Rattle.std.specs.Prelude.{◌≡◌, ◌==◌, IfOk};
ghost use Rattle.std.specs.List.{list_any, list_all};
ghost use Rattle.route_types.specs.Community.{fits};
ghost use Rattle.community_sets.specs.Tests.{all_fitted, is_member, same_set, test_holds, list_answers};

use route_types::{Community, Duplicate, Memory, Rect, Row};
use std::alloc::Global;

/// What an entry asks of the communities of a route.
#[derive(Debug, PartialEq, Eq, Hash, Drop)]
pub enum CommTest {
    /// Each rectangle is fitted by one of the communities.
    AllOf(Row<Rect>),
    /// The communities are these and no others.
    Exactly(Row<Community>),
}

/// An entry of a community list: what it answers where its test holds.
#[derive(Debug, PartialEq, Eq, Hash, Drop)]
pub struct CommEntry {
    pub permit: bool,
    pub test: CommTest,
}

/// A community list: its entries in the order in which they are tried.
#[derive(Debug, PartialEq, Eq, Hash, Drop)]
pub struct CommList {
    pub entries: Row<CommEntry>,
}

fn is_fitted(rect: &Rect, communities: &[Community]) -> bool
    ensures { result ≡ list_any (λ c. fits rect.now c) communities.now }
{
    communities.iter().any(|community| rect.fits(community))
}

fn all_fitted(rects: &[Rect], communities: &[Community]) -> bool
    ensures { result ≡ all_fitted rects.now communities.now }
{
    rects.iter().all(|rect| is_fitted(rect, communities))
}

fn is_member(member: &Community, communities: &[Community]) -> bool
    ensures { result ≡ is_member member.now communities.now }
{
    communities.iter().any(|community| member.0 == community.0)
}

fn all_members(members: &[Community], communities: &[Community]) -> bool
    ensures { result ≡ list_all (λ c. is_member c communities.now) members.now }
{
    members.iter().all(|member| is_member(member, communities))
}

fn same_set(one: &[Community], other: &[Community]) -> bool
    ensures { result ≡ same_set one.now other.now }
{
    all_members(one, other) && all_members(other, one)
}

fn test_holds(test: &CommTest, communities: &[Community]) -> bool
    ensures { result ≡ test_holds test.now communities.now }
{
    match test {
        CommTest::AllOf(rects) => all_fitted(rects.as_slice(), communities),
        CommTest::Exactly(members) => same_set(members.as_slice(), communities),
    }
}

#[tactic(auto, unfolding(crate::specs::Tests::list_answers))]
fn first_match(entries: &[CommEntry], communities: &[Community]) -> bool
    ensures { result ≡ list_answers entries.now communities.now }
{
    let mut rest = entries;
    while let [first, tail @ ..] = rest {
        if test_holds(&first.test, communities) {
            return first.permit;
        }
        rest = tail;
    }
    false
}

/// Whether the list permits a set of communities: the first entry whose test holds decides, and
/// where none does the answer is no. It takes no memory.
pub fn list_holds(list: &CommList, communities: &[Community]) -> bool
    ensures { result ≡ list_answers list.now.entries communities.now }
{
    first_match(list.entries.as_slice(), communities)
}

impl Duplicate for CommTest {
    fn duplicate(&self, alloc: Global) -> Result<CommTest, Memory> {
        match self {
            CommTest::AllOf(rects) => {
                let copied = rects.duplicate(alloc)?;
                Ok(CommTest::AllOf(copied))
            }
            CommTest::Exactly(members) => {
                let copied = members.duplicate(alloc)?;
                Ok(CommTest::Exactly(copied))
            }
        }
    }
}

impl Duplicate for CommEntry {
    fn duplicate(&self, alloc: Global) -> Result<CommEntry, Memory> {
        Ok(CommEntry {
            permit: self.permit,
            test: self.test.duplicate(alloc)?,
        })
    }
}

impl Duplicate for CommList {
    fn duplicate(&self, alloc: Global) -> Result<CommList, Memory> {
        Ok(CommList {
            entries: self.entries.duplicate(alloc)?,
        })
    }
}
