//! What a statement is, the name that it stands under, and the form that it has.

ghost use Rattle.std.specs.Prelude.{◌≡◌, IfOk, option_map, slice_get, map};
ghost use Rattle.policy_text.specs.Phrases.{texts};
ghost use Rattle.ios_tree.specs.Names.{list_name};
ghost use Rattle.ios_tree.specs.Tree.{begin_with, begins_line, sort_at_margin, sort_of, community_list_word, name_under, known_form, form_of};
ghost use Rattle.ios_tree.specs.declared.item.ItemSort.TheVariants.{CommunityList, Line};

use crate::item::{IosForm, ItemSort, OtherItem};
use crate::lines::line_in;
use crate::lists::{community_list_in, map_header_in, path_entry_in, prefix_list_in};
use crate::words::list_name;
use policy_text::{Word, after, copied, is};
use route_types::{Family, Memory, Row};
use std::alloc::Global;

// ---- what a statement is

fn begin_with(words: &[Word], keys: &[&[u8]]) -> bool
    ensures { result ≡ begin_with (map (λ k. k.now) keys.now) (texts words.now) }
{
    after(words, keys).is_some()
}

// A line of an entry by its first word, also where it stands at depth 0.
fn begins_line(words: &[Word]) -> bool
    ensures { result ≡ begins_line (texts words.now) }
{
    match words {
        [first, ..] => {
            is(first, b"match")
                || is(first, b"set")
                || is(first, b"continue")
                || is(first, b"description")
        }
        [] => false,
    }
}

fn sort_at_margin(words: &[Word]) -> Option<ItemSort>
    ensures { result ≡ sort_at_margin (texts words.now) }
{
    if begin_with(words, &[b"ip", b"prefix-list"]) {
        return Some(ItemSort::PrefixList(Family::V4));
    }
    if begin_with(words, &[b"ip", b"community-list"]) {
        return Some(ItemSort::CommunityList);
    }
    if begin_with(words, &[b"ip", b"as-path", b"access-list"]) {
        return Some(ItemSort::PathList);
    }
    if begin_with(words, &[b"route-map"]) {
        return Some(ItemSort::Map);
    }
    if begins_line(words) {
        return Some(ItemSort::Line);
    }
    None
}

pub(crate) fn sort_of(depth: u64, words: &[Word]) -> Option<ItemSort>
    ensures { result ≡ sort_of depth (texts words.now) }
{
    if depth == 0 {
        sort_at_margin(words)
    } else {
        Some(ItemSort::Line)
    }
}

// ---- the name that it stands under

fn word_at(words: &[Word], place: usize) -> Option<&[u8]>
    ensures { option_map (λ w. w.now) result ≡ slice_get (texts words.now) place }
{
    let word = words.get(place)?;
    Some(word.text.as_slice())
}

fn community_list_word(words: &[Word]) -> Option<&[u8]>
    ensures { option_map (λ w. w.now) result ≡ community_list_word (texts words.now) }
{
    match words {
        [] => None,
        [first, rest @ ..] => {
            if is(first, b"standard") || is(first, b"expanded") {
                return word_at(rest, 0);
            }
            Some(first.text.as_slice())
        }
    }
}

fn community_list_name(words: &[Word]) -> Option<&[u8]>
    ensures { option_map (λ w. w.now) result ≡ name_under CommunityList (texts words.now) }
{
    match words {
        [_, _, rest @ ..] => Some(list_name(community_list_word(rest)?)),
        _ => None,
    }
}

pub(crate) fn list_name_at(words: &[Word], place: usize) -> Option<&[u8]>
    ensures { option_map (λ w. w.now) result ≡ option_map list_name (slice_get (texts words.now) place) }
{
    let word = word_at(words, place)?;
    Some(list_name(word))
}

// The name that a policy statement stands under; a line of an entry stands under none of its own.
fn name_word(sort: ItemSort, words: &[Word]) -> Option<&[u8]>
    ensures { option_map (λ w. w.now) result ≡ name_under sort (texts words.now) }
{
    match sort {
        ItemSort::PrefixList(_) => list_name_at(words, 2),
        ItemSort::CommunityList => community_list_name(words),
        ItemSort::PathList => list_name_at(words, 3),
        ItemSort::Map => word_at(words, 1),
        ItemSort::Line => None,
    }
}

fn name_under(alloc: Global, sort: ItemSort, words: &[Word]) -> Result<Option<Row<u8>>, Memory>
    ensures { IfOk result (λ o. o ≡ name_under sort (texts words.now)) }
{
    match name_word(sort, words) {
        None => Ok(None),
        Some(name) => Ok(Some(copied(alloc, name)?)),
    }
}

// ---- the form that it has

fn line_form(alloc: Global, words: &[Word]) -> Result<Option<IosForm>, Memory>
    ensures { IfOk result (λ o. o ≡ known_form Line (texts words.now)) }
{
    match line_in(alloc, words)? {
        None => Ok(None),
        Some(line) => Ok(Some(IosForm::Line(line))),
    }
}

fn known_form(alloc: Global, sort: ItemSort, words: &[Word]) -> Result<Option<IosForm>, Memory>
    ensures { IfOk result (λ o. o ≡ known_form sort (texts words.now)) }
{
    match sort {
        ItemSort::PrefixList(Family::V4) => prefix_list_in(alloc, words),
        ItemSort::PrefixList(Family::V6) => Ok(None),
        ItemSort::CommunityList => community_list_in(alloc, words),
        ItemSort::PathList => path_entry_in(alloc, words),
        ItemSort::Map => map_header_in(alloc, words),
        ItemSort::Line => line_form(alloc, words),
    }
}

#[tactic(auto, unfolding(crate::specs::Tree::form_of))]
pub(crate) fn form_of(alloc: Global, sort: ItemSort, words: &[Word]) -> Result<IosForm, Memory>
    ensures { IfOk result (λ f. f ≡ form_of sort (texts words.now)) }
{
    match known_form(alloc, sort, words)? {
        Some(form) => Ok(form),
        None => {
            let name = name_under(alloc, sort, words)?;
            Ok(IosForm::Other(OtherItem { sort, name }))
        }
    }
}
