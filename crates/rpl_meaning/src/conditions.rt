//! What conditions answer on the arriving route.
ghost use Rattle.std.specs.Prelude.{◌≡◌, ◌==◌, ◌^◌, ◌-◌, List, [], ◌∷◌, IfOk, OnOk, map, length};
ghost use Rattle.std.specs.List.{list_any, list_all};
ghost use Rattle.rpl_meaning.specs.Blocks.{IsWorld, word_in};
ghost use Rattle.rpl_meaning.specs.Conditions.{same_origin, some_fits, test_holds, join_of, joined_by, turned, answers_behind, last_answer, terms_hold};
ghost use Rattle.rpl_tree.specs.Tree.{forms};

use crate::blocks::CommunitySets;
use crate::elements::members_of;
use crate::tests::{World, compares, destination, next_hop, path_in, path_test};
use crate::words::{Words, value_32};
use route_types::{Community, Memory, Origin, Rect};
use rpl_forms::{MedTest, RplSet, RplTest, Term};
use std::alloc::Global;
use text_words::Stack;

// ---- communities

fn some_fits(communities: &[Community], rect: &Rect) -> bool
    ensures { result ≡ some_fits communities.now rect.now }
{
    communities.iter().any(|community| rect.fits(community))
}

fn any_fits(communities: &[Community], rects: &[&Rect]) -> bool
    ensures { result ≡ list_any (some_fits communities.now) (map (λ r. r.now) rects.now) }
{
    let mut rest = rects;
    while let [first, tail @ ..] = rest {
        if some_fits(communities, first) {
            return true;
        }
        rest = tail;
    }
    false
}

fn every_fits(communities: &[Community], rects: &[&Rect]) -> bool
    ensures { result ≡ list_all (some_fits communities.now) (map (λ r. r.now) rects.now) }
{
    let mut rest = rects;
    while let [first, tail @ ..] = rest {
        if !some_fits(communities, first) {
            return false;
        }
        rest = tail;
    }
    true
}

fn matches_any<'a>(
    alloc: Global,
    world: &World<'a>,
    words: &Words<'a>,
    set: &'a RplSet<Rect>,
) -> Result<bool, Memory>
    requires { IsWorld world.now }
    ensures { IfOk result (λ b. b ≡ test_holds (forms world.now.items.now) (word_in words.now.entries) world.now.route.now (RplTest.MatchesAny set.now)) }
{
    let rects = members_of::<Rect, CommunitySets>(
        alloc,
        world.items,
        &world.community_sets,
        words,
        set,
    )?;
    let found = any_fits(world.route.communities(), rects.as_slice());
    Ok(found)
}

fn matches_every<'a>(
    alloc: Global,
    world: &World<'a>,
    words: &Words<'a>,
    set: &'a RplSet<Rect>,
) -> Result<bool, Memory>
    requires { IsWorld world.now }
    ensures { IfOk result (λ b. b ≡ test_holds (forms world.now.items.now) (word_in words.now.entries) world.now.route.now (RplTest.MatchesEvery set.now)) }
{
    let rects = members_of::<Rect, CommunitySets>(
        alloc,
        world.items,
        &world.community_sets,
        words,
        set,
    )?;
    let found = every_fits(world.route.communities(), rects.as_slice());
    Ok(found)
}

// ---- tests

fn med<'a>(world: &World<'a>, words: &Words<'a>, test: &'a MedTest) -> bool
    ensures { result ≡ test_holds (forms world.now.items.now) (word_in words.now.entries) world.now.route.now (RplTest.Med test.now) }
{
    let number = value_32(words, &test.med);
    compares(
        test.comparison,
        u64::from(world.route.med()),
        u64::from(number),
    )
}

fn same_origin(one: &Origin, other: &Origin) -> bool
    ensures { result ≡ same_origin one.now other.now }
{
    match (one, other) {
        (Origin::Igp, Origin::Igp) => true,
        (Origin::Egp, Origin::Egp) => true,
        (Origin::Incomplete, Origin::Incomplete) => true,
        _ => false,
    }
}

// Whether a test holds for the arriving route.
fn test_holds<'a>(
    alloc: Global,
    world: &World<'a>,
    words: &Words<'a>,
    test: &'a RplTest,
) -> Result<bool, Memory>
    requires { IsWorld world.now }
    ensures { IfOk result (λ b. b ≡ test_holds (forms world.now.items.now) (word_in words.now.entries) world.now.route.now test.now) }
{
    match test {
        RplTest::Destination(set) => destination(alloc, world, words, set),
        RplTest::NextHop(set) => next_hop(alloc, world, words, set),
        RplTest::PathIn(set) => path_in(alloc, world, words, set),
        RplTest::Path(test) => Ok(path_test(words, world.route.path(), test)),
        RplTest::MatchesAny(set) => matches_any(alloc, world, words, set),
        RplTest::MatchesEvery(set) => matches_every(alloc, world, words, set),
        RplTest::IsEmpty => Ok(world.route.communities().is_empty()),
        RplTest::Med(test) => Ok(med(world, words, test)),
        RplTest::Origin(origin) => Ok(same_origin(world.route.origin(), origin)),
    }
}

// ---- conditions

fn turn(answers: &mut Stack<bool>) -> Result<(), Memory>
    ensures { OnOk result (answers.new ≡ turned answers.old) }
{
    match answers.pop() {
        Some(answer) => answers.push(!answer),
        None => Ok(()),
    }
}

// Joins the two answers that stand last, as `and` does or as `or` does.
fn join(answers: &mut Stack<bool>, both: bool) -> Result<(), Memory>
    ensures { OnOk result (answers.new ≡ joined_by (join_of both) answers.old) }
{
    let Some(last) = answers.pop() else {
        return Ok(());
    };
    let Some(first) = answers.pop() else {
        return Ok(());
    };
    if both {
        return answers.push(first && last);
    }
    answers.push(first || last)
}

// Takes a term behind the answers so far.
fn take_term<'a>(
    alloc: Global,
    world: &World<'a>,
    words: &Words<'a>,
    answers: &mut Stack<bool>,
    term: &'a Term,
) -> Result<(), Memory>
    requires { IsWorld world.now }
    ensures { OnOk result (answers.new ≡ answers_behind (test_holds (forms world.now.items.now) (word_in words.now.entries) world.now.route.now) term.now answers.old) }
{
    match term {
        Term::Test(test) => {
            let answer = test_holds(alloc, world, words, test)?;
            answers.push(answer)
        }
        Term::Group => Ok(()),
        Term::Not => turn(answers),
        Term::And => join(answers, true),
        Term::Or => join(answers, false),
    }
}

/// Whether a condition holds for the arriving route.
#[tactic(auto, unfolding(crate::specs::Conditions::terms_hold))]
pub(crate) fn condition_holds<'a>(
    alloc: Global,
    world: &World<'a>,
    words: &Words<'a>,
    terms: &'a [Term],
) -> Result<bool, Memory>
    requires { IsWorld world.now }
    ensures { IfOk result (λ b. b ≡ terms_hold (test_holds (forms world.now.items.now) (word_in words.now.entries) world.now.route.now) [] terms.now) }
{
    let mut answers = Stack::new(alloc);
    let mut rest = terms;
    while let [first, tail @ ..] = rest {
        take_term(alloc, world, words, &mut answers, first)?;
        rest = tail;
    }
    Ok(answers.pop().unwrap_or(false))
}
