//! What the match lines of an entry test, as atoms.

ghost use Rattle.std.specs.Prelude.{◌≡◌, ◌∷◌, ℕ, List, IfOk, map};
ghost use Rattle.std.specs.List.{list_all, AllByRecursion};
ghost use Rattle.route_types.specs.Route.{RouteParts};
ghost use Rattle.path_patterns.specs.Items.{IsPath};
ghost use Rattle.core_nodes.specs.Atoms.{atom_holds};
ghost use Rattle.ios_meaning.specs.Meaning.{line_holds};
ghost use Rattle.ios_meaning.specs.Lists.{single, prefix_list, test_of, community_list, path_list};
ghost use Rattle.ios_tree.specs.declared.item.MapLine.{MapLine as Line};
ghost use Rattle.ios_lower.specs.Named.{under, entries_under};
ghost use Rattle.ios_lower.specs.Lists.{AreLists};
ghost use Rattle.ios_lower.specs.Atoms.{prefix_list_of, community_list_of, path_list_of, atom_of, atoms_of};
ghost use Rattle.ios_lower.specs.AtomSteps.{community_entry_of, IsMatched, holds_if, AtomsFound};

use crate::deletion::single;
use crate::lists::Lists;
use crate::named::{Listed, Named};
use community_sets::{CommEntry, CommList, CommTest};
use ios_reader::{
    CommunityListEntry, CommunityMatch, CommunityShape, MapLine, PathMatch, PrefixMatch,
};
use policy_core::{Atom, PathEntry, PathList};
use prefix_sets::{PrefixEntry, PrefixList};
use route_types::{Community, Duplicate, Family, Memory, Rect, Row};
use std::alloc::Global;

// ---- prefix lists

fn prefix_entries(alloc: Global, entries: &[&PrefixEntry]) -> Result<Row<PrefixEntry>, Memory>
    ensures { IfOk result (λ es. es ≡ map (λ e. e.now) entries.now) }
{
    let mut found = Row::new(alloc);
    let mut rest = entries;
    while let [first, behind @ ..] = rest {
        found.push(**first)?;
        rest = behind;
    }
    Ok(found)
}

fn listed_prefixes(
    alloc: Global,
    family: Family,
    entries: &[&PrefixEntry],
) -> Result<PrefixList, Memory>
    ensures { IfOk result (λ l. l ≡ record { family = family; entries = map (λ e. e.now) entries.now }) }
{
    let entries = prefix_entries(alloc, entries)?;
    Ok(PrefixList { family, entries })
}

fn prefix_list_in<'a>(
    alloc: Global,
    family: Family,
    lists: &Named<'a, PrefixEntry>,
    name: &'a [u8],
) -> Result<PrefixList, Memory>
    ensures { IfOk result (λ l. l ≡ record { family = family; entries = entries_under lists.now name.now }) }
{
    match lists.get(&name) {
        Some(entries) => listed_prefixes(alloc, family, entries.as_slice()),
        None => listed_prefixes(alloc, family, &[]),
    }
}

fn prefix_list<'a>(
    alloc: Global,
    lists: &Lists<'a>,
    family: Family,
    name: &'a [u8],
) -> Result<PrefixList, Memory>
    requires { AreLists lists.now }
    ensures { IfOk result (λ l. l ≡ prefix_list_of lists.now.items.now family name.now) }
{
    match family {
        Family::V4 => prefix_list_in(alloc, family, &lists.of_v4, name),
        Family::V6 => prefix_list_in(alloc, family, &lists.of_v6, name),
    }
}

// The prefix lists that a line names.
fn prefix_lists<'a>(
    alloc: Global,
    lists: &Lists<'a>,
    line: &'a PrefixMatch,
) -> Result<Row<PrefixList>, Memory>
    requires { AreLists lists.now }
    ensures { IfOk result (λ ls. ls ≡ map (prefix_list_of lists.now.items.now line.now.family) line.now.lists) }
{
    let mut found = Row::new(alloc);
    let mut rest = line.lists.as_slice();
    while let [name, behind @ ..] = rest {
        found.push(prefix_list(alloc, lists, line.family, name.as_slice())?)?;
        rest = behind;
    }
    Ok(found)
}

// ---- community lists

fn singles(alloc: Global, members: &[Community]) -> Result<Row<Rect>, Memory>
    ensures { IfOk result (λ rects. rects ≡ map single members.now) }
{
    let mut found = Row::new(alloc);
    let mut rest = members;
    while let [first, behind @ ..] = rest {
        found.push(single(first))?;
        rest = behind;
    }
    Ok(found)
}

fn members_test(alloc: Global, exact: bool, members: &[Community]) -> Result<CommTest, Memory>
    ensures { IfOk result (λ t. t ≡ test_of exact (CommunityShape.Standard members.now)) }
{
    if exact {
        let exactly = Row::from_slice(alloc, members)?;
        return Ok(CommTest::Exactly(exactly));
    }
    let rects = singles(alloc, members)?;
    Ok(CommTest::AllOf(rects))
}

fn test_of(alloc: Global, exact: bool, shape: &CommunityShape) -> Result<CommTest, Memory>
    ensures { IfOk result (λ t. t ≡ test_of exact shape.now) }
{
    match shape {
        CommunityShape::Standard(members) => members_test(alloc, exact, members.as_slice()),
        CommunityShape::Expanded(rect) => {
            let mut rects = Row::new(alloc);
            rects.push(*rect)?;
            Ok(CommTest::AllOf(rects))
        }
    }
}

fn community_entries(
    alloc: Global,
    exact: bool,
    entries: &[&CommunityListEntry],
) -> Result<Row<CommEntry>, Memory>
    ensures { IfOk result (λ es. es ≡ map (community_entry_of exact) (map (λ e. e.now) entries.now)) }
{
    let mut found = Row::new(alloc);
    let mut rest = entries;
    while let [first, behind @ ..] = rest {
        let test = test_of(alloc, exact, &first.shape)?;
        found.push(CommEntry {
            permit: first.permit,
            test,
        })?;
        rest = behind;
    }
    Ok(found)
}

fn listed_communities(
    alloc: Global,
    exact: bool,
    entries: &[&CommunityListEntry],
) -> Result<CommList, Memory>
    ensures { IfOk result (λ l. l ≡ record { entries = map (community_entry_of exact) (map (λ e. e.now) entries.now) }) }
{
    let entries = community_entries(alloc, exact, entries)?;
    Ok(CommList { entries })
}

fn community_list_in<'a>(
    alloc: Global,
    exact: bool,
    lists: &Named<'a, CommunityListEntry>,
    name: &'a [u8],
) -> Result<CommList, Memory>
    ensures { IfOk result (λ l. l ≡ record { entries = map (community_entry_of exact) (entries_under lists.now name.now) }) }
{
    match lists.get(&name) {
        Some(entries) => listed_communities(alloc, exact, entries.as_slice()),
        None => listed_communities(alloc, exact, &[]),
    }
}

#[tactic(auto, using(crate::proofs::AtomLaws::community_list_found))]
fn community_list<'a>(
    alloc: Global,
    lists: &Lists<'a>,
    exact: bool,
    name: &'a [u8],
) -> Result<CommList, Memory>
    requires { AreLists lists.now }
    ensures { IfOk result (λ l. l ≡ community_list_of exact lists.now.items.now name.now) }
{
    let list = community_list_in(alloc, exact, &lists.of_communities, name)?;
    Ok(list)
}

// The community lists that a line names.
fn community_lists<'a>(
    alloc: Global,
    lists: &Lists<'a>,
    line: &'a CommunityMatch,
) -> Result<Row<CommList>, Memory>
    requires { AreLists lists.now }
    ensures { IfOk result (λ ls. ls ≡ map (community_list_of line.now.exact lists.now.items.now) line.now.lists) }
{
    let mut found = Row::new(alloc);
    let mut rest = line.lists.as_slice();
    while let [name, behind @ ..] = rest {
        found.push(community_list(alloc, lists, line.exact, name.as_slice())?)?;
        rest = behind;
    }
    Ok(found)
}

// ---- path lists

fn copied_paths(alloc: Global, entries: &[PathEntry]) -> Result<PathList, Memory>
    ensures { IfOk result (λ l. l ≡ record { entries = entries.now }) }
{
    let mut copies = Row::new(alloc);
    let mut rest = entries;
    while let [first, behind @ ..] = rest {
        copies.push(first.duplicate(alloc)?)?;
        rest = behind;
    }
    Ok(PathList { entries: copies })
}

fn path_list_in<'a>(
    alloc: Global,
    lists: &Listed<'a, PathEntry>,
    name: &'a [u8],
) -> Result<PathList, Memory>
    ensures { IfOk result (λ l. l ≡ record { entries = under lists.now name.now }) }
{
    match lists.get(&name) {
        Some(entries) => copied_paths(alloc, entries.as_slice()),
        None => copied_paths(alloc, &[]),
    }
}

fn path_list<'a>(alloc: Global, lists: &Lists<'a>, name: &'a [u8]) -> Result<PathList, Memory>
    requires { AreLists lists.now }
    ensures same { IfOk result (λ l. l ≡ path_list_of lists.now.items.now name.now) }
    ensures matched { IfOk result (λ l. AllByRecursion IsMatched (path_list name.now lists.now.items.now)) }
{
    let list = path_list_in(alloc, &lists.of_paths, name)?;
    Ok(list)
}

// The path lists that a line names.
fn path_lists<'a>(
    alloc: Global,
    lists: &Lists<'a>,
    line: &'a PathMatch,
) -> Result<Row<PathList>, Memory>
    requires { AreLists lists.now }
    ensures same { IfOk result (λ ls. ls ≡ map (path_list_of lists.now.items.now) line.now.lists) }
    ensures matched { IfOk result (λ ls. AllByRecursion (λ list. AllByRecursion IsMatched (path_list list lists.now.items.now)) line.now.lists) }
{
    let mut found = Row::new(alloc);
    let mut rest = line.lists.as_slice();
    while let [name, behind @ ..] = rest {
        found.push(path_list(alloc, lists, name.as_slice())?)?;
        rest = behind;
    }
    Ok(found)
}

// ---- lines

// What a line tests, if it tests something.
fn atom_of<'a>(alloc: Global, lists: &Lists<'a>, line: &'a MapLine) -> Result<Option<Atom>, Memory>
    requires { AreLists lists.now }
    ensures same { IfOk result (λ o. o ≡ atom_of lists.now.items.now line.now) }
    ensures holds { IfOk result (λ o. (r : RouteParts) → IsPath r.path → holds_if o r ≡ line_holds lists.now.items.now r line.now) }
{
    match line {
        MapLine::MatchPrefix(named) => {
            let tested = prefix_lists(alloc, lists, named)?;
            Ok(Some(Atom::Prefix(tested)))
        }
        MapLine::MatchNextHop(named) => {
            let tested = prefix_lists(alloc, lists, named)?;
            Ok(Some(Atom::NextHop(tested)))
        }
        MapLine::MatchCommunity(named) => {
            let tested = community_lists(alloc, lists, named)?;
            Ok(Some(Atom::Community(tested)))
        }
        MapLine::MatchPath(named) => {
            let tested = path_lists(alloc, lists, named)?;
            Ok(Some(Atom::Path(tested)))
        }
        MapLine::MatchMetric(numbers) => {
            let tested = Row::from_slice(alloc, numbers.as_slice())?;
            Ok(Some(Atom::MedOneOf(tested)))
        }
        MapLine::SetLocalPreference(_) | MapLine::SetMetric(_) | MapLine::SetWeight(_) => Ok(None),
        MapLine::SetPrepend(_) | MapLine::SetOrigin(_) | MapLine::SetNextHop(_) => Ok(None),
        MapLine::SetCommunity(_) | MapLine::DeleteCommunities(_) => Ok(None),
        MapLine::Continue(_) | MapLine::Description => Ok(None),
    }
}

// Adds what the first of the lines that are left tests, if it tests something.
fn push_atom<'a>(
    alloc: Global,
    lists: &Lists<'a>,
    line: &'a MapLine,
    found: &mut Vec<Atom>,
) -> Result<(), Memory>
    requires { AreLists lists.now }
    ensures { IfOk result (λ _. (all left : List Line) → AtomsFound lists.now.items.now all (line.now ∷ left) found.old.items → AtomsFound lists.now.items.now all left found.new.items) }
{
    let tested = atom_of(alloc, lists, line)?;
    match tested {
        Some(atom) => {
            found.push(atom)?;
            Ok(())
        }
        None => Ok(()),
    }
}

/// What the lines of an entry test, one after the other: an entry holds where all of them do. The lists are those of the
/// tree that the lines stand in. The one error is want of memory.
pub fn atoms_of<'a>(
    alloc: Global,
    lists: &Lists<'a>,
    lines: &[&'a MapLine],
) -> Result<Vec<Atom>, Memory>
    requires { AreLists lists.now }
    ensures same { IfOk result (λ found. found.items ≡ atoms_of lists.now.items.now (map (λ l. l.now) lines.now)) }
    ensures holds { IfOk result (λ found. (r : RouteParts) → IsPath r.path → list_all (λ a. atom_holds a r) found.items ≡ list_all (line_holds lists.now.items.now r) (map (λ l. l.now) lines.now)) }
{
    let mut found = Vec::new(alloc);
    let mut rest = lines;
    while let [line, behind @ ..] = rest {
        push_atom(alloc, lists, line, &mut found)?;
        rest = behind;
    }
    Ok(found)
}
