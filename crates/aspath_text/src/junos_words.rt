ghost use Rattle.std.specs.Prelude.{◌≡◌, ◌≤◌, ◌==◌, [], Some, None, length, IfSome, option_map, bytes_eq};
ghost use Rattle.std.specs.List.{list_all, position, position_or_len};
ghost use Rattle.text_words.specs.Text.{is_blank};
ghost use Rattle.route_types.specs.Words.{number_in, parts_at};
ghost use Rattle.path_patterns.specs.Items.{greatest};
ghost use Rattle.aspath_text.specs.JunosRead.{ends_in, range_in, behind_blanks, range_before, member_in, sign_in, upper_in, bounds_in, braced_in, count_in};

use path_patterns::NumberRange;
use policy_text::{parts_at, read_number};

// ---- numbers and members

#[tactic(auto, using(route_types::proofs::Numbers::number_in_within))]
fn number_up_to(word: &[u8], most: u32) -> Option<u32>
    ensures { result ≡ number_in most word.now }
{
    let number = read_number(word, u64::from(most))?;
    Some(number as u32)
}

fn one_number(word: &[u8]) -> Option<NumberRange>
    ensures { result ≡ ends_in None word.now }
{
    let number = number_up_to(word, u32::MAX)?;
    Some(NumberRange {
        least: number,
        most: number,
    })
}

fn two_numbers(front: &[u8], behind: &[u8]) -> Option<NumberRange>
    ensures { result ≡ ends_in (Some (front.now, behind.now)) [] }
{
    let least = number_up_to(front, u32::MAX)?;
    let most = number_up_to(behind, u32::MAX)?;
    if most < least {
        return None;
    }
    Some(NumberRange { least, most })
}

fn ends(word: &[u8]) -> Option<NumberRange>
    ensures { result ≡ ends_in (parts_at 45 word.now) word.now }
{
    match parts_at(word, b'-') {
        None => one_number(word),
        Some((front, behind)) => two_numbers(front, behind),
    }
}

// The range that a word spells: `.`, a number, or two joined by a dash.
#[tactic(auto, unfolding(crate::specs::JunosRead::range_in))]
pub(crate) fn read_range(word: &[u8]) -> Option<NumberRange>
    ensures { result ≡ range_in word.now }
{
    if word == b".".as_slice() {
        return Some(NumberRange {
            least: 0,
            most: u32::MAX,
        });
    }
    ends(word)
}

pub(crate) fn is_blank(byte: u8) -> bool
    ensures { result ≡ is_blank byte }
{
    byte == b' ' || byte == b'\t'
}

// What stands behind the blanks in front.
#[tactic(auto, unfolding(crate::specs::JunosRead::behind_blanks))]
pub(crate) fn behind_blanks(text: &[u8]) -> &[u8]
    ensures { result.now ≡ behind_blanks text.now }
{
    let mut rest = text;
    while let [first, tail @ ..] = rest {
        if !is_blank(*first) {
            return rest;
        }
        rest = tail;
    }
    rest
}

fn place_of_blank(text: &[u8]) -> Option<usize>
    ensures { result ≡ position is_blank text.now }
{
    text.iter().position(|c| is_blank(*c))
}

#[tactic(auto, using(crate::proofs::Positions::len_by_position, crate::proofs::JunosCut::place_within))]
fn word_len(text: &[u8]) -> usize
    ensures value { result ≡ position_or_len is_blank text.now }
    ensures within { result ≤ length text.now }
{
    place_of_blank(text).unwrap_or(text.len())
}

fn are_blanks(text: &[u8]) -> bool
    ensures { result ≡ list_all is_blank text.now }
{
    text.iter().all(|c| is_blank(*c))
}

fn range_before(place: usize, text: &[u8]) -> Option<NumberRange>
    requires { place ≤ length text.now }
    ensures { result ≡ range_before place text.now }
{
    if !are_blanks(&text[place..]) {
        return None;
    }
    read_range(&text[..place])
}

// The range that a member of a group spells, with blanks on either side.
#[tactic(auto, unfolding(crate::specs::JunosRead::member_in))]
pub(crate) fn read_member(text: &[u8]) -> Option<NumberRange>
    ensures { result ≡ member_in text.now }
{
    let rest = behind_blanks(text);
    range_before(word_len(rest), rest)
}

// ---- counts

// How many numbers an item takes; `None` is no upper end.
#[derive(Clone, Copy, Debug, PartialEq, Eq)]
pub(crate) struct Count {
    pub least: u32,
    pub most: Option<u32>,
}

fn sign(byte: u8) -> Option<Count>
    ensures { result ≡ sign_in byte }
{
    match byte {
        b'*' => Some(Count {
            least: 0,
            most: None,
        }),
        b'+' => Some(Count {
            least: 1,
            most: None,
        }),
        b'?' => Some(Count {
            least: 0,
            most: Some(1),
        }),
        _ => None,
    }
}

fn upper(least: u32, text: &[u8]) -> Option<Count>
    ensures { result ≡ upper_in least text.now }
{
    if text.is_empty() {
        return Some(Count { least, most: None });
    }
    let most = number_up_to(text, 255)?;
    if most < least {
        return None;
    }
    Some(Count {
        least,
        most: Some(most),
    })
}

fn one_bound(text: &[u8]) -> Option<Count>
    ensures { result ≡ bounds_in None text.now }
{
    let number = number_up_to(text, 255)?;
    Some(Count {
        least: number,
        most: Some(number),
    })
}

fn two_bounds(front: &[u8], behind: &[u8]) -> Option<Count>
    ensures { result ≡ bounds_in (Some (front.now, behind.now)) [] }
{
    let least = number_up_to(front, 255)?;
    upper(least, behind)
}

fn bounds(text: &[u8]) -> Option<Count>
    ensures { result ≡ bounds_in (parts_at 44 text.now) text.now }
{
    match parts_at(text, b',') {
        None => one_bound(text),
        Some((front, behind)) => two_bounds(front, behind),
    }
}

fn braced(text: &[u8]) -> Option<Count>
    ensures { result ≡ braced_in text.now }
{
    let (inner, behind) = parts_at(text, b'}')?;
    if !behind.is_empty() {
        return None;
    }
    bounds(inner)
}

// The count that a text spells: nothing, a sign, or bounds in braces.
#[tactic(auto, unfolding(crate::specs::JunosRead::count_in))]
pub(crate) fn read_count(text: &[u8]) -> Option<Count>
    ensures { result ≡ count_in text.now }
{
    match text {
        [] => Some(Count {
            least: 1,
            most: Some(1),
        }),
        [byte] => sign(*byte),
        [first, behind @ ..] => {
            if *first != b'{' {
                return None;
            }
            braced(behind)
        }
    }
}
