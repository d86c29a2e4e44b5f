ghost use Rattle.std.specs.Prelude.{◌≡◌, vec_items, option_map, codes, IfOk, IfErr, IfSome};
ghost use Rattle.route_types.specs.Words.{number_in, community_in};
ghost use Rattle.route_types.specs.Community.{IsAscending};
ghost use Rattle.text_words.specs.Pieces.{texts};
ghost use Rattle.text_words.specs.LineText.{words_of_lines};
ghost use Rattle.route_types.specs.RouteText.{words_by_line, SpellsRoute};
ghost use Rattle.route_types.specs.RouteLines.{next_hop_in, origin_in, each_in, prefix_of_line, next_hop_of_line, origin_of_line, path_of_line, number_of_line, communities_of_line};
ghost use Rattle.route_types.specs.RouteRead.{Answers, first_line, found, at_end, route_of, route_in, IsRefusal};

use crate::address::Prefix;
use crate::community::{Community, set_of};
use crate::fault::RouteFault;
use crate::line_words::{word_behind, words_behind};
use crate::route::{NextHop, Origin, Route};
use crate::words::{read_address, read_community, read_number, read_prefix};
use std::alloc::Global;
use text_words::{Memory, Row, Statement, Word, line_statements};

// ---- what a line says

fn prefix_of(words: &[Word]) -> Option<Prefix>
    ensures { result ≡ prefix_of_line (texts words.now) }
{
    let word = word_behind(words, b"route")?;
    read_prefix(word)
}

/// The next hop that a word spells: `self`, or an address. `None` for another word. It takes no memory.
#[tactic(auto, unfolding(crate::specs::RouteLines::next_hop_in))]
pub fn read_next_hop(word: &[u8]) -> Option<NextHop>
    ensures { result ≡ next_hop_in word.now }
{
    if word == b"self".as_slice() {
        return Some(NextHop::Own);
    }
    let address = read_address(word)?;
    Some(NextHop::At(address))
}

fn next_hop_of(words: &[Word]) -> Option<NextHop>
    ensures { result ≡ next_hop_of_line (texts words.now) }
{
    let word = word_behind(words, b"next-hop")?;
    read_next_hop(word)
}

/// The origin that a word spells: `igp`, `egp` or `incomplete` (RFC 4271, 5.1.1). `None` where it spells
/// none. It takes no memory.
#[tactic(auto, unfolding(crate::specs::RouteLines::origin_in))]
pub fn read_origin(word: &[u8]) -> Option<Origin>
    ensures { result ≡ origin_in word.now }
{
    if word == b"igp".as_slice() {
        return Some(Origin::Igp);
    }
    if word == b"egp".as_slice() {
        return Some(Origin::Egp);
    }
    if word == b"incomplete".as_slice() {
        return Some(Origin::Incomplete);
    }
    None
}

fn origin_of(words: &[Word]) -> Option<Origin>
    ensures { result ≡ origin_of_line (texts words.now) }
{
    let word = word_behind(words, b"origin")?;
    read_origin(word)
}

#[tactic(auto, using(crate::proofs::Numbers::number_in_within))]
fn number_of(words: &[Word], name: &[u8]) -> Option<u32>
    ensures { result ≡ number_of_line name.now 4294967295 (texts words.now) }
{
    let word = word_behind(words, name)?;
    let number = read_number(word, 4294967295)?;
    Some(number as u32)
}

#[tactic(auto, using(crate::proofs::Numbers::number_in_within))]
fn weight_of(words: &[Word]) -> Option<u16>
    ensures { result ≡ number_of_line (codes "weight") 65535 (texts words.now) }
{
    let word = word_behind(words, b"weight")?;
    let number = read_number(word, 65535)?;
    Some(number as u16)
}

#[tactic(auto, using(crate::proofs::Numbers::number_in_within))]
fn number_in(word: &[u8]) -> Option<u32>
    ensures { result ≡ number_in 4294967295 word.now }
{
    let number = read_number(word, 4294967295)?;
    Some(number as u32)
}

// The numbers that all the words spell. `None` where one spells none.
fn numbers_in(alloc: Global, words: &[Word]) -> Result<Option<Row<u32>>, Memory>
    ensures { IfOk result (λ o. o ≡ each_in (number_in 4294967295) (texts words.now)) }
{
    let mut numbers = Row::new(alloc);
    let mut rest = words;
    while let [word, tail @ ..] = rest {
        match number_in(word.text.as_slice()) {
            Some(number) => numbers.push(number)?,
            None => return Ok(None),
        }
        rest = tail;
    }
    Ok(Some(numbers))
}

fn path_of(alloc: Global, words: &[Word]) -> Result<Option<Row<u32>>, Memory>
    ensures { IfOk result (λ o. o ≡ path_of_line (texts words.now)) }
{
    match words_behind(words, b"as-path") {
        Some(behind) => numbers_in(alloc, behind),
        None => Ok(None),
    }
}

// The communities that all the words spell. `None` where one spells none.
fn communities_in(alloc: Global, words: &[Word]) -> Result<Option<Vec<Community>>, Memory>
    ensures { IfOk result (λ o. option_map vec_items o ≡ each_in community_in (texts words.now)) }
{
    let mut communities = Vec::new(alloc);
    let mut rest = words;
    while let [word, tail @ ..] = rest {
        match read_community(word.text.as_slice()) {
            Some(community) => communities.push(community)?,
            None => return Ok(None),
        }
        rest = tail;
    }
    Ok(Some(communities))
}

#[tactic(auto, using(crate::proofs::Sets::is_ascending_set))]
fn communities_of(alloc: Global, words: &[Word]) -> Result<Option<Row<Community>>, Memory>
    ensures ascending { IfOk result (λ o. IfSome o (λ set. IsAscending set)) }
    ensures value { IfOk result (λ o. o ≡ communities_of_line (texts words.now)) }
{
    let Some(behind) = words_behind(words, b"communities") else {
        return Ok(None);
    };
    match communities_in(alloc, behind)? {
        Some(listed) => Ok(Some(Row::from_vec(set_of(listed)))),
        None => Ok(None),
    }
}

// ---- the lines in turn

// The words of the first line, which has this number, and the lines behind it.
fn line(number: u64, lines: &[Statement]) -> Result<(&[Word], &[Statement]), RouteFault>
    ensures { Answers (λ p. (texts p.0.now, words_of_lines p.1.now)) result (first_line number (words_of_lines lines.now)) }
{
    match lines {
        [first, behind @ ..] => Ok((first.words.as_slice(), behind)),
        [] => Err(RouteFault::Line { number }),
    }
}

fn found<T: Drop>(number: u64, value: Option<T>) -> Result<T, RouteFault>
    ensures { Answers (λ x. x) result (found number value) }
{
    match value {
        Some(value) => Ok(value),
        None => Err(RouteFault::Line { number }),
    }
}

// The value, where there is no further line, which would have this number.
fn at_end<T: Drop>(number: u64, value: T, lines: &[Statement]) -> Result<T, RouteFault>
    ensures { Answers (λ x. x) result (at_end number value (words_of_lines lines.now)) }
{
    match lines {
        [] => Ok(value),
        [_, ..] => Err(RouteFault::Line { number }),
    }
}

#[tactic(auto, unfolding(crate::specs::RouteRead::route_of))]
fn route_of(alloc: Global, lines: &[Statement]) -> Result<Route, RouteFault>
    ensures { Answers (λ r. r) result (route_of (words_of_lines lines.now)) }
{
    let (words, rest) = line(1, lines)?;
    let prefix = found(1, prefix_of(words))?;
    let (words, rest) = line(2, rest)?;
    let next_hop = found(2, next_hop_of(words))?;
    let (words, rest) = line(3, rest)?;
    let path = found(3, path_of(alloc, words)?)?;
    let (words, rest) = line(4, rest)?;
    let origin = found(4, origin_of(words))?;
    let (words, rest) = line(5, rest)?;
    let local_preference = found(5, number_of(words, b"local-preference"))?;
    let (words, rest) = line(6, rest)?;
    let med = found(6, number_of(words, b"med"))?;
    let (words, rest) = line(7, rest)?;
    let weight = found(7, weight_of(words))?;
    let (words, rest) = line(8, rest)?;
    let communities = found(8, communities_of(alloc, words)?)?;
    let route = Route {
        prefix,
        next_hop,
        path,
        origin,
        local_preference,
        med,
        weight,
        communities,
    };
    at_end(9, route, rest)
}

#[tactic(auto, unfolding(crate::specs::RouteRead::route_in, crate::specs::RouteText::words_by_line))]
fn route_in(alloc: Global, text: &[u8]) -> Result<Route, RouteFault>
    ensures { Answers (λ r. r) result (route_in text.now) }
{
    let lines = line_statements(alloc, text)?;
    route_of(alloc, lines.as_slice())
}

/// The route that a text spells: eight lines in this order, the last LF optional, a CR right before
/// an LF dropped, words set apart by spaces and tabs. They are `route` and a prefix; `next-hop` and
/// an address or `self`; `as-path` and its numbers; `origin` and `igp`, `egp` or `incomplete`;
/// `local-preference`, `med` and `weight`, each with a number; `communities` and communities in any
/// order, with or without repeats. Numbers go up to 2^32 - 1, a weight up to 65535.
///
/// `Line` comes exactly where the text spells no route, with the first line that is not the form,
/// from 1; a missing line has the number that it would have, and a ninth line is not the form.
/// `Memory` is want of memory.
#[tactic(auto, using(crate::proofs::RouteSpelled::found_by, crate::proofs::RouteSpelled::refused_by))]
pub fn read_route(alloc: Global, text: &[u8]) -> Result<Route, RouteFault>
    ensures found { IfOk result (λ r. SpellsRoute text.now r) }
    ensures refused { IfErr result (λ fault. IsRefusal text.now fault) }
    ensures exact { Answers (λ r. r) result (route_in text.now) }
{
    route_in(alloc, text)
}
