//! The entries of lists, and the headers of route-maps.

ghost use Rattle.std.specs.Prelude.{◌≡◌, [], ◌∷◌, IfOk, codes, map, option_map};
ghost use Rattle.policy_text.specs.Phrases.{texts};
ghost use Rattle.ios_tree.specs.Forms.{is_written, written_number, range_in, range_or_in, prefix_form, prefix_list_in, head_in, standard_in, expanded_in, community_list_in, path_entry_in, map_header_in};
ghost use Rattle.ios_tree.specs.Names.{list_in, numbered_list_in};

use crate::item::{
    CommunityListEntry, CommunityShape, IosForm, MapHeader, PathListEntry, PrefixDescription,
    PrefixListEntry,
};
use crate::words::{
    ActionWord, CommunityWord, ExpandedNumber, ListWord, PathNumber, ShapeWord, StandardNumber,
    permit_in,
};
use aspath_text::{IosPattern, IosPatternWord};
use policy_text::{
    NameWord, Number64, Reads, Word, after, bounds, one_word, optional_at, read_prefix, some_words,
    value_at,
};
use prefix_sets::{PrefixEntry, PrefixRange};
use route_types::{Community, Family, Memory, Rect, Row};
use std::alloc::Global;

// ---- prefix lists

fn written_number(number: Option<u64>) -> u64
    ensures { result ≡ written_number number }
{
    match number {
        None => 0,
        Some(number) => number,
    }
}

fn is_written(number: Option<u64>) -> bool
    ensures { result ≡ is_written number }
{
    number.is_some()
}

// What `permit|deny P [ge G] [le E]` says.
fn range_in(words: &[Word]) -> Option<PrefixEntry>
    ensures { result ≡ range_in (texts words.now) }
{
    let [action, rest @ ..] = words else {
        return None;
    };
    let permit = permit_in(action.text.as_slice())?;
    let [prefix, lengths @ ..] = rest else {
        return None;
    };
    let prefix = read_prefix(prefix.text.as_slice())?;
    let (least, most) = bounds(prefix.length(), lengths)?;
    let range = PrefixRange::new(prefix, least, most);
    Some(PrefixEntry { permit, range })
}

// What an entry says, or nothing for a description.
#[tactic(auto, unfolding(crate::specs::Forms::range_or_in, policy_text::specs::Phrases::after))]
fn range_or_in(words: &[Word]) -> Option<Option<PrefixEntry>>
    ensures { result ≡ range_or_in (texts words.now) }
{
    if let Some(entry) = range_in(words) {
        return Some(Some(entry));
    }
    match after(words, &[b"description"]) {
        None => None,
        Some(_) => Some(None),
    }
}

fn prefix_form(list: Row<u8>, number: Option<u64>, entry: Option<PrefixEntry>) -> IosForm
    ensures { result ≡ prefix_form (list, (number, entry)) }
{
    match entry {
        None => IosForm::PrefixDescription(PrefixDescription {
            family: Family::V4,
            list,
        }),
        Some(entry) => IosForm::PrefixEntry(PrefixListEntry {
            list,
            has_seq: is_written(number),
            number: written_number(number),
            entry,
        }),
    }
}

// `ip prefix-list N [seq S] permit|deny P [ge G] [le E]`, `ip prefix-list N [seq S] description W..`
#[tactic(auto, unfolding(crate::specs::Forms::prefix_list_in))]
pub(crate) fn prefix_list_in(alloc: Global, words: &[Word]) -> Result<Option<IosForm>, Memory>
    ensures { IfOk result (λ o. o ≡ prefix_list_in (texts words.now)) }
{
    let Some(rest) = after(words, &[b"ip", b"prefix-list"]) else {
        return Ok(None);
    };
    let Some((list, rest)) = value_at::<Row<u8>, ListWord>(alloc, rest)? else {
        return Ok(None);
    };
    let Some((number, rest)) = optional_at::<u64, Number64>(alloc, rest, &[b"seq"])? else {
        return Ok(None);
    };
    match range_or_in(rest) {
        None => Ok(None),
        Some(entry) => Ok(Some(prefix_form(list, number, entry))),
    }
}

// ---- other entries

// Behind the keys the name of a list and `permit` or `deny`, and the words behind them.
fn head_in<'a, L: Reads<Row<u8>>>(
    alloc: Global,
    words: &'a [Word],
    keys: &[&[u8]],
) -> Result<Option<(Row<u8>, bool, &'a [Word])>, Memory>
    ensures { IfOk result (λ o. option_map (λ h. (h.0, h.1, texts h.2.now)) o ≡ head_in (map (λ k. k.now) keys.now) L.find (texts words.now)) }
{
    let Some(rest) = after(words, keys) else {
        return Ok(None);
    };
    let Some((list, rest)) = value_at::<Row<u8>, L>(alloc, rest)? else {
        return Ok(None);
    };
    let Some((permit, rest)) = value_at::<bool, ActionWord>(alloc, rest)? else {
        return Ok(None);
    };
    Ok(Some((list, permit, rest)))
}

// An entry of a standard list whose name stands behind the keys.
#[tactic(auto, unfolding(crate::specs::Forms::standard_in))]
fn standard_in<L: Reads<Row<u8>>>(
    alloc: Global,
    words: &[Word],
    keys: &[&[u8]],
) -> Result<Option<IosForm>, Memory>
    ensures { IfOk result (λ o. o ≡ standard_in (map (λ k. k.now) keys.now) L.find (texts words.now)) }
{
    let Some((list, permit, rest)) = head_in::<L>(alloc, words, keys)? else {
        return Ok(None);
    };
    let Some(communities) = some_words::<Community, CommunityWord>(alloc, rest)? else {
        return Ok(None);
    };
    let shape = CommunityShape::Standard(communities);
    Ok(Some(IosForm::CommunityEntry(CommunityListEntry {
        list,
        permit,
        shape,
    })))
}

// An entry of an expanded list whose name stands behind the keys.
#[tactic(auto, unfolding(crate::specs::Forms::expanded_in))]
fn expanded_in<L: Reads<Row<u8>>>(
    alloc: Global,
    words: &[Word],
    keys: &[&[u8]],
) -> Result<Option<IosForm>, Memory>
    ensures { IfOk result (λ o. o ≡ expanded_in (map (λ k. k.now) keys.now) L.find (texts words.now)) }
{
    let Some((list, permit, rest)) = head_in::<L>(alloc, words, keys)? else {
        return Ok(None);
    };
    let Some(rect) = one_word::<Rect, ShapeWord>(alloc, rest)? else {
        return Ok(None);
    };
    let shape = CommunityShape::Expanded(rect);
    Ok(Some(IosForm::CommunityEntry(CommunityListEntry {
        list,
        permit,
        shape,
    })))
}

// `ip community-list standard N permit|deny C..`
#[tactic(auto, unfolding(crate::specs::Forms::standard_in, policy_text::specs::Phrases::after))]
fn named_standard_in(alloc: Global, words: &[Word]) -> Result<Option<IosForm>, Memory>
    ensures { IfOk result (λ o. o ≡ standard_in (codes "ip" ∷ codes "community-list" ∷ codes "standard" ∷ []) list_in (texts words.now)) }
{
    standard_in::<ListWord>(alloc, words, &[b"ip", b"community-list", b"standard"])
}

// `ip community-list expanded N permit|deny X`
#[tactic(auto, unfolding(crate::specs::Forms::expanded_in, policy_text::specs::Phrases::after))]
fn named_expanded_in(alloc: Global, words: &[Word]) -> Result<Option<IosForm>, Memory>
    ensures { IfOk result (λ o. o ≡ expanded_in (codes "ip" ∷ codes "community-list" ∷ codes "expanded" ∷ []) list_in (texts words.now)) }
{
    expanded_in::<ListWord>(alloc, words, &[b"ip", b"community-list", b"expanded"])
}

// `ip community-list n permit|deny C..`, n from 1 to 99
#[tactic(auto, unfolding(crate::specs::Forms::standard_in, policy_text::specs::Phrases::after))]
fn numbered_standard_in(alloc: Global, words: &[Word]) -> Result<Option<IosForm>, Memory>
    ensures { IfOk result (λ o. o ≡ standard_in (codes "ip" ∷ codes "community-list" ∷ []) (numbered_list_in 1 99) (texts words.now)) }
{
    standard_in::<StandardNumber>(alloc, words, &[b"ip", b"community-list"])
}

// `ip community-list n permit|deny X`, n from 100 to 500
#[tactic(auto, unfolding(crate::specs::Forms::expanded_in, policy_text::specs::Phrases::after))]
fn numbered_expanded_in(alloc: Global, words: &[Word]) -> Result<Option<IosForm>, Memory>
    ensures { IfOk result (λ o. o ≡ expanded_in (codes "ip" ∷ codes "community-list" ∷ []) (numbered_list_in 100 500) (texts words.now)) }
{
    expanded_in::<ExpandedNumber>(alloc, words, &[b"ip", b"community-list"])
}

// An entry of a community list, named or numbered.
#[tactic(auto, unfolding(crate::specs::Forms::community_list_in))]
pub(crate) fn community_list_in(alloc: Global, words: &[Word]) -> Result<Option<IosForm>, Memory>
    ensures { IfOk result (λ o. o ≡ community_list_in (texts words.now)) }
{
    if let Some(entry) = named_standard_in(alloc, words)? {
        return Ok(Some(entry));
    }
    if let Some(entry) = named_expanded_in(alloc, words)? {
        return Ok(Some(entry));
    }
    if let Some(entry) = numbered_standard_in(alloc, words)? {
        return Ok(Some(entry));
    }
    numbered_expanded_in(alloc, words)
}

// `ip as-path access-list n permit|deny X`
#[tactic(auto, unfolding(crate::specs::Forms::path_entry_in, policy_text::specs::Phrases::after))]
pub(crate) fn path_entry_in(alloc: Global, words: &[Word]) -> Result<Option<IosForm>, Memory>
    ensures { IfOk result (λ o. o ≡ path_entry_in (texts words.now)) }
{
    let keys: &[&[u8]] = &[b"ip", b"as-path", b"access-list"];
    let Some((list, permit, rest)) = head_in::<PathNumber>(alloc, words, keys)? else {
        return Ok(None);
    };
    let Some(pattern) = one_word::<IosPattern, IosPatternWord>(alloc, rest)? else {
        return Ok(None);
    };
    Ok(Some(IosForm::PathEntry(PathListEntry {
        list,
        permit,
        pattern,
    })))
}

// `route-map N permit|deny S`
#[tactic(auto, unfolding(crate::specs::Forms::map_header_in))]
pub(crate) fn map_header_in(alloc: Global, words: &[Word]) -> Result<Option<IosForm>, Memory>
    ensures { IfOk result (λ o. o ≡ map_header_in (texts words.now)) }
{
    let Some((map, permit, rest)) = head_in::<NameWord>(alloc, words, &[b"route-map"])? else {
        return Ok(None);
    };
    let Some(number) = one_word::<u64, Number64>(alloc, rest)? else {
        return Ok(None);
    };
    Ok(Some(IosForm::MapHeader(MapHeader {
        map,
        permit,
        number,
    })))
}
