// The entries of a community list by the communities alone that they hold for.
ghost use Rattle.std.specs.Prelude.{◌≡◌, ◌==◌, ◌<◌, ◌^◌, ℕ, List, IfOk, true, false, Some, map, filter};
ghost use Rattle.std.specs.Option.{option_or};
ghost use Rattle.ios_meaning.specs.Drafts.{answers_alone};
ghost use Rattle.ios_meaning.specs.Deletions.{in_place, has_key, is_other, reaches, first_answer, earlier, answer_at, answer_on, HoldsFirst, IsIndex};

use crate::reach::{KeySort, Reach, is_other, key_of, reach_of, reaches};
use ios_reader::CommunityListEntry;
use route_types::{Community, Memory};
use std::alloc::Global;
use std::collections::BTreeMap;

/// What an entry answers where it decides, and how many entries of its list stand behind it.
#[derive(Clone, Copy)]
pub struct Answer {
    pub permit: bool,
    pub behind: usize,
}

/// An entry of a list in its place.
#[derive(Clone, Copy)]
pub struct Placed {
    pub reach: Reach,
    pub answer: Answer,
}

/// The entries of a community list by the communities alone that they hold for: the first one for each
/// community, for each upper half, for each lower half and for all, and the entries of any other rectangle.
#[derive(Drop)]
pub struct Index<'a> {
    pub entries: &'a [&'a CommunityListEntry],
    pub ones: BTreeMap<u32, Answer>,
    pub highs: BTreeMap<u32, Answer>,
    pub lows: BTreeMap<u32, Answer>,
    pub every: BTreeMap<u32, Answer>,
    pub others: Vec<Placed>,
}

// The entries, each in its place.
fn in_place(alloc: Global, entries: &[&CommunityListEntry]) -> Result<Vec<Placed>, Memory>
    ensures { IfOk result (λ found. found.items ≡ in_place (map (λ e. e.now) entries.now)) }
{
    let mut found = Vec::new(alloc);
    let mut rest = entries;
    while let [entry, tail @ ..] = rest {
        found.push(Placed {
            reach: reach_of(&entry.shape),
            answer: Answer {
                permit: entry.permit,
                behind: tail.len(),
            },
        })?;
        rest = tail;
    }
    Ok(found)
}

// Notes the answer of an entry under a number that has none yet.
fn note(found: &mut BTreeMap<u32, Answer>, key: u32, answer: Answer) -> Result<(), Memory>
    ensures { IfOk result (λ _. (n : ℕ) → answer_at found.new n ≡ elim (n == key) [ true ↦ option_or (answer_at found.old n) (Some answer) | false ↦ answer_at found.old n ]) }
{
    if found.contains_key(&key) {
        return Ok(());
    }
    found.insert(key, answer)?;
    Ok(())
}

// Takes one more entry into the map of a sort.
fn add_entry(found: &mut BTreeMap<u32, Answer>, sort: KeySort, entry: &Placed) -> Result<(), Memory>
    ensures { IfOk result (λ _. (n : ℕ) → answer_at found.new n ≡ elim (has_key sort n entry.now.reach) [ true ↦ option_or (answer_at found.old n) (Some entry.now.answer) | false ↦ answer_at found.old n ]) }
{
    if let Some(key) = key_of(sort, &entry.reach) {
        note(found, key, entry.answer)?;
    }
    Ok(())
}

// The map of a sort.
#[tactic(auto, unfolding(crate::specs::Deletions::answer_from))]
fn map_of(alloc: Global, sort: KeySort, entries: &[Placed]) -> Result<BTreeMap<u32, Answer>, Memory>
    ensures { IfOk result (HoldsFirst sort entries.now) }
{
    let mut found = BTreeMap::new(alloc);
    let mut rest = entries;
    while let [entry, behind @ ..] = rest {
        add_entry(&mut found, sort, entry)?;
        rest = behind;
    }
    Ok(found)
}

// The entries that are in none of the maps, and may hold.
fn others_of(alloc: Global, entries: &[Placed]) -> Result<Vec<Placed>, Memory>
    ensures { IfOk result (λ found. found.items ≡ filter (λ p. is_other p.reach) entries.now) }
{
    let mut found = Vec::new(alloc);
    let mut rest = entries;
    while let [entry, behind @ ..] = rest {
        if is_other(&entry.reach) {
            found.push(*entry)?;
        }
        rest = behind;
    }
    Ok(found)
}

/// The index of the entries of a list.
pub fn index_of<'a>(
    alloc: Global,
    entries: &'a [&'a CommunityListEntry],
) -> Result<Index<'a>, Memory>
    ensures right { IfOk result IsIndex }
    ensures entries { IfOk result (λ i. i.entries.now ≡ entries.now) }
{
    let placed = in_place(alloc, entries)?;
    let placed = placed.as_slice();
    let ones = map_of(alloc, KeySort::OfOne, placed)?;
    let highs = map_of(alloc, KeySort::OfHigh, placed)?;
    let lows = map_of(alloc, KeySort::OfLow, placed)?;
    let every = map_of(alloc, KeySort::OfEvery, placed)?;
    let others = others_of(alloc, placed)?;
    Ok(Index {
        entries,
        ones,
        highs,
        lows,
        every,
        others,
    })
}

fn answer_at(found: &BTreeMap<u32, Answer>, key: u32) -> Option<Answer>
    ensures { result ≡ answer_at found.now key }
{
    found.get(&key).copied()
}

// The answer of the first of these entries that holds for a community.
fn first_answer(entries: &[Placed], community: &Community) -> Option<Answer>
    ensures { result ≡ first_answer (reaches community.now) entries.now }
{
    let mut rest = entries;
    while let [entry, behind @ ..] = rest {
        if reaches(&entry.reach, community) {
            return Some(entry.answer);
        }
        rest = behind;
    }
    None
}

// Of two answers the one of the entry that stands first.
fn earlier(one: Option<Answer>, other: Option<Answer>) -> Option<Answer>
    ensures { result ≡ earlier one other }
{
    match (one, other) {
        (None, _) => other,
        (Some(_), None) => one,
        (Some(x), Some(y)) => { if x.behind < y.behind { other } else { one } }
    }
}

// The answer of the first entry that holds for a community.
fn answer_on<'a>(index: &Index<'a>, community: &Community) -> Option<Answer>
    ensures value { result ≡ answer_on index.now community.now }
    ensures range { community.now.0 < 2 ^ 32 }
{
    let one = answer_at(&index.ones, community.0);
    let high = answer_at(&index.highs, u32::from(community.high()));
    let low = answer_at(&index.lows, u32::from(community.low()));
    let every = answer_at(&index.every, 0);
    let other = first_answer(index.others.as_slice(), community);
    earlier(one, earlier(high, earlier(low, earlier(every, other))))
}

/// What the entries of an index answer on a community alone.
pub fn answers_alone<'a>(index: &Index<'a>, community: &Community) -> bool
    requires { IsIndex index.now }
    ensures { result ≡ answers_alone (map (λ e. e.now) index.now.entries.now) community.now }
{
    match answer_on(index, community) {
        Some(answer) => answer.permit,
        None => false,
    }
}
