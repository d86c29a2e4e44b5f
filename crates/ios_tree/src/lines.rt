//! The lines of an entry of a route-map.

ghost use Rattle.std.specs.Prelude.{◌≡◌, ◌∷◌, [], ◌-◌, ◌^◌, IfOk, codes};
ghost use Rattle.policy_text.specs.Phrases.{texts, behind};
ghost use Rattle.ios_tree.specs.Forms.{with_option, none_in, communities_in, followed_in, target_in, line_of, match_prefix_in, match_line_in, set_number_in, set_value_in, set_list_in, other_line_in, line_in};
ghost use Rattle.ios_tree.specs.Names.{list_in};

use crate::item::{CommunityMatch, CommunitySetting, MapLine, PathMatch, PrefixMatch};
use crate::words::{CommunityWord, ListWord, PathNumber, SetOriginWord, option_in};
use policy_text::{
    AddressWord, Number16, Number32, Number64, Reads, Word, after, is, one_behind, one_word,
    some_behind, some_words,
};
use route_types::{Address, Community, Family, Memory, Origin, Row};
use std::alloc::Global;

// ---- values behind the first words

// The values of one or more words, and whether the option stands behind them.
#[tactic(auto, unfolding(crate::specs::Forms::with_option))]
fn with_option<T: Drop, R: Reads<T>>(
    alloc: Global,
    words: &[Word],
    key: &[u8],
) -> Result<Option<(Row<T>, bool)>, Memory>
    ensures { IfOk result (λ o. o ≡ with_option key.now R.find (texts words.now)) }
{
    let (words, is_there) = option_in(words, key);
    match some_words::<T, R>(alloc, words)? {
        None => Ok(None),
        Some(values) => Ok(Some((values, is_there))),
    }
}

// `N.. [exact-match]`
#[tactic(auto, unfolding(policy_text::specs::Phrases::after))]
fn community_match(alloc: Global, words: &[Word]) -> Result<Option<(Row<Row<u8>>, bool)>, Memory>
    ensures { IfOk result (λ o. o ≡ behind (codes "match" ∷ codes "community" ∷ []) (with_option (codes "exact-match") list_in) (texts words.now)) }
{
    match after(words, &[b"match", b"community"]) {
        None => Ok(None),
        Some(rest) => with_option::<Row<u8>, ListWord>(alloc, rest, b"exact-match"),
    }
}

// `none`
fn none_in(alloc: Global, words: &[Word]) -> Option<CommunitySetting>
    ensures { result ≡ none_in (texts words.now) }
{
    let rest = after(words, &[b"none"])?;
    if !rest.is_empty() {
        return None;
    }
    Some(CommunitySetting {
        communities: Row::new(alloc),
        additive: false,
    })
}

// `C.. [additive]`, or `none`
#[tactic(auto, unfolding(crate::specs::Forms::communities_in))]
fn communities_in(alloc: Global, words: &[Word]) -> Result<Option<CommunitySetting>, Memory>
    ensures { IfOk result (λ o. o ≡ communities_in (texts words.now)) }
{
    if let Some(setting) = none_in(alloc, words) {
        return Ok(Some(setting));
    }
    match with_option::<Community, CommunityWord>(alloc, words, b"additive")? {
        None => Ok(None),
        Some((communities, additive)) => Ok(Some(CommunitySetting {
            communities,
            additive,
        })),
    }
}

#[tactic(auto, unfolding(policy_text::specs::Phrases::after))]
fn setting_behind(alloc: Global, words: &[Word]) -> Result<Option<CommunitySetting>, Memory>
    ensures { IfOk result (λ o. o ≡ behind (codes "set" ∷ codes "community" ∷ []) communities_in (texts words.now)) }
{
    match after(words, &[b"set", b"community"]) {
        None => Ok(None),
        Some(rest) => communities_in(alloc, rest),
    }
}

// `N delete`
fn list_to_delete(alloc: Global, words: &[Word]) -> Result<Option<Row<u8>>, Memory>
    ensures { IfOk result (λ o. o ≡ followed_in (codes "delete") list_in (texts words.now)) }
{
    let [name, delete] = words else {
        return Ok(None);
    };
    if !is(delete, b"delete") {
        return Ok(None);
    }
    ListWord::read(alloc, name.text.as_slice())
}

fn deletion_behind(alloc: Global, words: &[Word]) -> Result<Option<Row<u8>>, Memory>
    ensures { IfOk result (λ o. o ≡ behind (codes "set" ∷ codes "comm-list" ∷ []) (followed_in (codes "delete") list_in) (texts words.now)) }
{
    match after(words, &[b"set", b"comm-list"]) {
        None => Ok(None),
        Some(rest) => list_to_delete(alloc, rest),
    }
}

// Nothing, or `S`.
fn target_in(alloc: Global, words: &[Word]) -> Result<Option<Option<u64>>, Memory>
    ensures { IfOk result (λ o. o ≡ target_in (texts words.now)) }
{
    if words.is_empty() {
        return Ok(Some(None));
    }
    match one_word::<u64, Number64>(alloc, words)? {
        None => Ok(None),
        Some(number) => Ok(Some(Some(number))),
    }
}

// ---- lines

// A line that tests a prefix or a next hop.
#[tactic(auto, unfolding(crate::specs::Forms::line_of, crate::specs::Forms::match_prefix_in, policy_text::specs::Phrases::after))]
fn match_prefix_in(alloc: Global, words: &[Word]) -> Result<Option<MapLine>, Memory>
    ensures { IfOk result (λ o. o ≡ match_prefix_in (texts words.now)) }
{
    let family = Family::V4;
    let keys: &[&[u8]] = &[b"match", b"ip", b"address", b"prefix-list"];
    if let Some(lists) = some_behind::<Row<u8>, ListWord>(alloc, words, keys)? {
        return Ok(Some(MapLine::MatchPrefix(PrefixMatch { family, lists })));
    }
    let keys: &[&[u8]] = &[b"match", b"ip", b"next-hop", b"prefix-list"];
    match some_behind::<Row<u8>, ListWord>(alloc, words, keys)? {
        None => Ok(None),
        Some(lists) => Ok(Some(MapLine::MatchNextHop(PrefixMatch { family, lists }))),
    }
}

// A line that tests.
#[tactic(auto, unfolding(crate::specs::Forms::line_of, crate::specs::Forms::match_line_in))]
fn match_line_in(alloc: Global, words: &[Word]) -> Result<Option<MapLine>, Memory>
    ensures { IfOk result (λ o. o ≡ match_line_in (texts words.now)) }
{
    if let Some(line) = match_prefix_in(alloc, words)? {
        return Ok(Some(line));
    }
    if let Some((lists, exact)) = community_match(alloc, words)? {
        return Ok(Some(MapLine::MatchCommunity(CommunityMatch { lists, exact })));
    }
    if let Some(lists) = some_behind::<Row<u8>, PathNumber>(
        alloc,
        words,
        &[b"match", b"as-path"],
    )? {
        return Ok(Some(MapLine::MatchPath(PathMatch { lists })));
    }
    match some_behind::<u32, Number32>(alloc, words, &[b"match", b"metric"])? {
        None => Ok(None),
        Some(values) => Ok(Some(MapLine::MatchMetric(values))),
    }
}

// A line that sets a number.
#[tactic(auto, unfolding(crate::specs::Forms::line_of, crate::specs::Forms::set_number_in))]
fn set_number_in(alloc: Global, words: &[Word]) -> Result<Option<MapLine>, Memory>
    ensures { IfOk result (λ o. o ≡ set_number_in (texts words.now)) }
{
    let keys: &[&[u8]] = &[b"set", b"local-preference"];
    if let Some(number) = one_behind::<u32, Number32>(alloc, words, keys)? {
        return Ok(Some(MapLine::SetLocalPreference(number)));
    }
    if let Some(number) = one_behind::<u32, Number32>(alloc, words, &[b"set", b"metric"])? {
        return Ok(Some(MapLine::SetMetric(number)));
    }
    match one_behind::<u16, Number16>(alloc, words, &[b"set", b"weight"])? {
        None => Ok(None),
        Some(number) => Ok(Some(MapLine::SetWeight(number))),
    }
}

// A line that sets a single value.
#[tactic(auto, unfolding(crate::specs::Forms::line_of, crate::specs::Forms::set_value_in))]
fn set_value_in(alloc: Global, words: &[Word]) -> Result<Option<MapLine>, Memory>
    ensures { IfOk result (λ o. o ≡ set_value_in (texts words.now)) }
{
    if let Some(line) = set_number_in(alloc, words)? {
        return Ok(Some(line));
    }
    if let Some(origin) = one_behind::<Origin, SetOriginWord>(alloc, words, &[b"set", b"origin"])? {
        return Ok(Some(MapLine::SetOrigin(origin)));
    }
    let keys: &[&[u8]] = &[b"set", b"ip", b"next-hop"];
    match one_behind::<Address, AddressWord>(alloc, words, keys)? {
        None => Ok(None),
        Some(address) => Ok(Some(MapLine::SetNextHop(address))),
    }
}

// A line that changes the path or the communities.
#[tactic(auto, unfolding(crate::specs::Forms::line_of, crate::specs::Forms::set_list_in))]
fn set_list_in(alloc: Global, words: &[Word]) -> Result<Option<MapLine>, Memory>
    ensures { IfOk result (λ o. o ≡ set_list_in (texts words.now)) }
{
    let keys: &[&[u8]] = &[b"set", b"as-path", b"prepend"];
    if let Some(path) = some_behind::<u32, Number32>(alloc, words, keys)? {
        return Ok(Some(MapLine::SetPrepend(path)));
    }
    if let Some(setting) = setting_behind(alloc, words)? {
        return Ok(Some(MapLine::SetCommunity(setting)));
    }
    match deletion_behind(alloc, words)? {
        None => Ok(None),
        Some(list) => Ok(Some(MapLine::DeleteCommunities(list))),
    }
}

fn target_behind(alloc: Global, words: &[Word]) -> Result<Option<Option<u64>>, Memory>
    ensures { IfOk result (λ o. o ≡ behind (codes "continue" ∷ []) target_in (texts words.now)) }
{
    match after(words, &[b"continue"]) {
        None => Ok(None),
        Some(rest) => target_in(alloc, rest),
    }
}

// A line that neither tests nor sets.
#[tactic(auto, unfolding(crate::specs::Forms::line_of, crate::specs::Forms::other_line_in))]
fn other_line_in(alloc: Global, words: &[Word]) -> Result<Option<MapLine>, Memory>
    ensures { IfOk result (λ o. o ≡ other_line_in (texts words.now)) }
{
    if let Some(target) = target_behind(alloc, words)? {
        return Ok(Some(MapLine::Continue(target)));
    }
    match after(words, &[b"description"]) {
        None => Ok(None),
        Some(_) => Ok(Some(MapLine::Description)),
    }
}

// A line of an entry.
#[tactic(auto, unfolding(crate::specs::Forms::line_in))]
pub(crate) fn line_in(alloc: Global, words: &[Word]) -> Result<Option<MapLine>, Memory>
    ensures { IfOk result (λ o. o ≡ line_in (texts words.now)) }
{
    if let Some(line) = match_line_in(alloc, words)? {
        return Ok(Some(line));
    }
    if let Some(line) = set_value_in(alloc, words)? {
        return Ok(Some(line));
    }
    if let Some(line) = set_list_in(alloc, words)? {
        return Ok(Some(line));
    }
    other_line_in(alloc, words)
}
