//! What conditions answer on the arriving route.
ghost use Rattle.std.specs.Prelude.{◌≡◌, ◌==◌, ◌&&◌, ◌^◌, ◌-◌, List, ℕ, [], ◌∷◌, IfOk, map, length, nat_le};
ghost use Rattle.std.specs.List.{list_any, list_all};
ghost use Rattle.prefix_sets.specs.Range.{in_range};
ghost use Rattle.rpl_meaning.specs.Blocks.{IsWorld, word_in};
ghost use Rattle.rpl_meaning.specs.Conditions.{compares, range_of, some_holds, some_holds_hop, is_first, is_last, path_test_holds, path_element_holds, test_holds};
ghost use Rattle.route_types.specs.Address.{full_prefix};
ghost use Rattle.rpl_tree.specs.Tree.{forms};

use crate::blocks::{Blocks, CommunitySets, PathSets, Policies, PrefixSets, blocks_of};
use crate::elements::members_of;
use crate::words::{Words, value_8, value_16, value_32};
use aspath_text::finds;
use route_types::{Address, Memory, NextHop, Prefix, Route};
use rpl_forms::{Comparison, PathElement, PathTest, PrefixElement, RplItem, RplSet, RplTest};
use std::alloc::Global;

/// A text with its blocks by their names, and the arriving route.
#[derive(Drop)]
pub(crate) struct World<'a> {
    pub(crate) items: &'a [RplItem],
    pub(crate) route: &'a Route,
    pub(crate) prefix_sets: Blocks<'a>,
    pub(crate) community_sets: Blocks<'a>,
    pub(crate) path_sets: Blocks<'a>,
    pub(crate) policies: Blocks<'a>,
}

/// The blocks of a text by their names, each map made once.
pub(crate) fn world_of<'a>(
    alloc: Global,
    items: &'a [RplItem],
    route: &'a Route,
) -> Result<World<'a>, Memory>
    ensures world { IfOk result IsWorld }
    ensures items { IfOk result (λ w. w.items.now ≡ items.now) }
    ensures route { IfOk result (λ w. w.route.now ≡ route.now) }
{
    Ok(World {
        items,
        route,
        prefix_sets: blocks_of::<PrefixSets>(alloc, items)?,
        community_sets: blocks_of::<CommunitySets>(alloc, items)?,
        path_sets: blocks_of::<PathSets>(alloc, items)?,
        policies: blocks_of::<Policies>(alloc, items)?,
    })
}

pub(crate) fn compares(comparison: Comparison, number: u64, with: u64) -> bool
    ensures { result ≡ compares comparison number with }
{
    match comparison {
        Comparison::Equal => number == with,
        Comparison::AtLeast => with <= number,
        Comparison::AtMost => number <= with,
    }
}

// ---- prefix sets

fn holds<'a>(words: &Words<'a>, element: &'a PrefixElement, prefix: &Prefix) -> bool
    ensures { result ≡ in_range (range_of (word_in words.now.entries) element.now) prefix.now }
{
    element.prefix.contains(prefix)
        && value_8(words, &element.least) <= prefix.length()
        && prefix.length() <= value_8(words, &element.most)
}

fn some_holds<'a>(words: &Words<'a>, elements: &[&'a PrefixElement], prefix: &Prefix) -> bool
    ensures { result ≡ some_holds (word_in words.now.entries) (map (λ e. e.now) elements.now) prefix.now }
{
    let mut rest = elements;
    while let [first, tail @ ..] = rest {
        if holds(words, first, prefix) {
            return true;
        }
        rest = tail;
    }
    false
}

fn holds_address<'a>(words: &Words<'a>, element: &'a PrefixElement, address: &Address) -> bool
    ensures { result ≡ in_range (range_of (word_in words.now.entries) element.now) (full_prefix address.now) }
{
    let length = address.family.width();
    element.prefix.contains_address(address)
        && value_8(words, &element.least) <= length
        && length <= value_8(words, &element.most)
}

fn some_holds_address<'a>(
    words: &Words<'a>,
    elements: &[&'a PrefixElement],
    address: &Address,
) -> bool
    ensures { result ≡ some_holds (word_in words.now.entries) (map (λ e. e.now) elements.now) (full_prefix address.now) }
{
    let mut rest = elements;
    while let [first, tail @ ..] = rest {
        if holds_address(words, first, address) {
            return true;
        }
        rest = tail;
    }
    false
}

fn some_holds_hop<'a>(words: &Words<'a>, elements: &[&'a PrefixElement], hop: &NextHop) -> bool
    ensures { result ≡ some_holds_hop (word_in words.now.entries) (map (λ e. e.now) elements.now) hop.now }
{
    match hop {
        NextHop::At(address) => some_holds_address(words, elements, address),
        NextHop::Own => false,
    }
}

pub(crate) fn destination<'a>(
    alloc: Global,
    world: &World<'a>,
    words: &Words<'a>,
    set: &'a RplSet<PrefixElement>,
) -> Result<bool, Memory>
    requires { IsWorld world.now }
    ensures { IfOk result (λ b. b ≡ test_holds (forms world.now.items.now) (word_in words.now.entries) world.now.route.now (RplTest.Destination set.now)) }
{
    let elements = members_of::<PrefixElement, PrefixSets>(
        alloc,
        world.items,
        &world.prefix_sets,
        words,
        set,
    )?;
    let found = some_holds(words, elements.as_slice(), world.route.prefix());
    Ok(found)
}

pub(crate) fn next_hop<'a>(
    alloc: Global,
    world: &World<'a>,
    words: &Words<'a>,
    set: &'a RplSet<PrefixElement>,
) -> Result<bool, Memory>
    requires { IsWorld world.now }
    ensures { IfOk result (λ b. b ≡ test_holds (forms world.now.items.now) (word_in words.now.entries) world.now.route.now (RplTest.NextHop set.now)) }
{
    let elements = members_of::<PrefixElement, PrefixSets>(
        alloc,
        world.items,
        &world.prefix_sets,
        words,
        set,
    )?;
    let found = some_holds_hop(words, elements.as_slice(), world.route.next_hop());
    Ok(found)
}

// ---- paths

fn passes_through(number: u32, path: &[u32]) -> bool
    ensures { result ≡ list_any (λ m. m == number) path.now }
{
    path.iter().any(|n| *n == number)
}

fn is_first(number: u32, path: &[u32]) -> bool
    ensures { result ≡ is_first number path.now }
{
    match path {
        [first, ..] => *first == number,
        [] => false,
    }
}

#[tactic(auto, unfolding(crate::specs::Conditions::is_last))]
fn is_last(number: u32, path: &[u32]) -> bool
    ensures { result ≡ is_last number path.now }
{
    let mut rest = path;
    while let [first, tail @ ..] = rest {
        if tail.is_empty() {
            return *first == number;
        }
        rest = tail;
    }
    false
}

pub(crate) fn path_test<'a>(words: &Words<'a>, path: &[u32], test: &'a PathTest) -> bool
    ensures { result ≡ path_test_holds (word_in words.now.entries) path.now test.now }
{
    match test {
        PathTest::Length(test) => {
            let length = value_16(words, &test.length);
            compares(test.comparison, path.len() as u64, u64::from(length))
        }
        PathTest::PassesThrough(number) => passes_through(value_32(words, number), path),
        PathTest::OriginatesFrom(number) => is_last(value_32(words, number), path),
        PathTest::NeighborIs(number) => is_first(value_32(words, number), path),
    }
}

fn path_element<'a>(
    alloc: Global,
    words: &Words<'a>,
    path: &[u32],
    element: &'a PathElement,
) -> Result<bool, Memory>
    ensures { IfOk result (λ b. b ≡ path_element_holds (word_in words.now.entries) path.now element.now) }
{
    match element {
        PathElement::Pattern(pattern) => {
            let found = finds(alloc, pattern, path)?;
            Ok(found)
        }
        PathElement::Test(test) => Ok(path_test(words, path, test)),
    }
}

fn some_path_element<'a>(
    alloc: Global,
    words: &Words<'a>,
    path: &[u32],
    elements: &[&'a PathElement],
) -> Result<bool, Memory>
    ensures { IfOk result (λ b. b ≡ list_any (path_element_holds (word_in words.now.entries) path.now) (map (λ e. e.now) elements.now)) }
{
    let mut rest = elements;
    while let [first, tail @ ..] = rest {
        if path_element(alloc, words, path, first)? {
            return Ok(true);
        }
        rest = tail;
    }
    Ok(false)
}

pub(crate) fn path_in<'a>(
    alloc: Global,
    world: &World<'a>,
    words: &Words<'a>,
    set: &'a RplSet<PathElement>,
) -> Result<bool, Memory>
    requires { IsWorld world.now }
    ensures { IfOk result (λ b. b ≡ test_holds (forms world.now.items.now) (word_in words.now.entries) world.now.route.now (RplTest.PathIn set.now)) }
{
    let elements = members_of::<PathElement, PathSets>(
        alloc,
        world.items,
        &world.path_sets,
        words,
        set,
    )?;
    let found = some_path_element(alloc, words, world.route.path(), elements.as_slice())?;
    Ok(found)
}
