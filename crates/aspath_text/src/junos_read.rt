ghost use Rattle.std.specs.Prelude.{◌≡◌, ◌<◌, ◌≤◌, false, List, [], ◌∷◌, length, IfOk, IfSome, MatchOption, Err, bytes_eq};
ghost use Rattle.std.specs.List.{position, position_or_len};
ghost use Rattle.policy_text.specs.Phrases.{each};
ghost use Rattle.aspath_text.specs.JunosGrammar.{SpellsJunos};
ghost use Rattle.aspath_text.specs.JunosRead.{member_in, members_of, is_sign, item_of, plain_in, group_in, item_in, in_group, items_of, items_in, junos_pattern_in};
ghost use Rattle.aspath_text.specs.JunosWalk.{item_end};
ghost use Rattle.aspath_text.specs.Printing.{Reads};
ghost use Rattle.aspath_text.specs.declared.fault.PatternFault.TheVariants.{NotShaped};
ghost use Rattle.path_patterns.specs.declared.items.TokenPattern.{TokenPattern};

use crate::fault::PatternFault;
use crate::junos_words::{Count, behind_blanks, is_blank, read_count, read_member, read_range};
use path_patterns::{NumberRange, NumberSet, TokenBranch, TokenItem, TokenPattern};
use policy_text::parts_at;
use route_types::Row;
use std::alloc::Global;

/// The Junos AS-path pattern that a text spells, of one branch: `()`, or items with blanks between them,
/// each of them `.`, a number, a range or a group in parentheses, and how often it is taken (Junos OS
/// Routing Policies User Guide, 'AS path regular expressions'). Numbers go up to 4294967295, counts in
/// braces up to 255. `NotShaped` comes exactly where the text spells no pattern; the other error is want
/// of memory. The time is proportional to the length of the text.
#[tactic(auto, using(crate::proofs::JunosRead::junos_pattern_found))]
pub fn read_junos_pattern(alloc: Global, text: &[u8]) -> Result<TokenPattern, PatternFault>
    ensures exact { Reads (junos_pattern_in text.now) result }
    ensures found { IfOk result (λ p. SpellsJunos text.now p) }
    ensures refused { result ≡ Err NotShaped → (p : TokenPattern) → SpellsJunos text.now p → ⊥ }
{
    pattern(alloc, text)
}

#[tactic(auto, unfolding(crate::specs::JunosRead::junos_pattern_in))]
fn pattern(alloc: Global, text: &[u8]) -> Result<TokenPattern, PatternFault>
    ensures { Reads (junos_pattern_in text.now) result }
{
    let items = items(alloc, text)?;
    let mut branches = Row::new(alloc);
    branches.push(TokenBranch { items })?;
    Ok(TokenPattern { branches })
}

#[tactic(auto, unfolding(crate::specs::JunosRead::items_in))]
fn items(alloc: Global, text: &[u8]) -> Result<Row<TokenItem>, PatternFault>
    ensures { Reads (items_in text.now) result }
{
    if text == b"()".as_slice() {
        return Ok(Row::new(alloc));
    }
    each_item(alloc, text)
}

fn each_item(alloc: Global, text: &[u8]) -> Result<Row<TokenItem>, PatternFault>
    ensures { Reads (each item_in (items_of false text.now)) result }
{
    let mut items = Row::new(alloc);
    let mut rest = text;
    while let Some((front, behind)) = next_item(rest) {
        items.push(item(alloc, front)?)?;
        rest = behind;
    }
    items.push(item(alloc, rest)?)?;
    Ok(items)
}

// ---- the cut into items

fn in_group(inside: bool, byte: u8) -> bool
    ensures { result ≡ in_group inside byte }
{
    match byte {
        b'(' => true,
        b')' => false,
        _ => inside,
    }
}

// The place of the first blank outside of groups.
#[tactic(auto, unfolding(crate::specs::JunosWalk::item_end))]
fn item_end(text: &[u8]) -> Option<usize>
    ensures value { result ≡ item_end false 0 text.now }
    ensures within { IfSome result (λ n. n ≤ length text.now) }
{
    let mut inside = false;
    for (place, byte) in text.iter().enumerate() {
        if !inside && is_blank(*byte) {
            return Some(place);
        }
        inside = in_group(inside, *byte);
    }
    None
}

// The first item's text, and what stands behind the blanks behind it. `None` where no blank stands
// outside of groups.
#[tactic(auto, using(crate::proofs::JunosCut::items_alone))]
fn next_item(text: &[u8]) -> Option<(&[u8], &[u8])>
    ensures parted { MatchOption result (items_of false text.now ≡ text.now ∷ []) (λ p. items_of false text.now ≡ p.0.now ∷ items_of false p.1.now) }
    ensures shorter { IfSome result (λ p. length p.1.now < length text.now) }
{
    let end = item_end(text)?;
    Some((&text[..end], behind_blanks(&text[end..])))
}

// ---- an item

fn item_of(ranges: Row<NumberRange>, count: Count) -> TokenItem
    ensures { result ≡ item_of ranges count }
{
    TokenItem {
        set: NumberSet { ranges },
        least: count.least,
        most: count.most,
    }
}

fn is_sign(byte: u8) -> bool
    ensures { result ≡ is_sign byte }
{
    matches!(byte, b'*' | b'+' | b'?' | b'{')
}

fn place_of_sign(text: &[u8]) -> Option<usize>
    ensures { result ≡ position is_sign text.now }
{
    text.iter().position(|c| is_sign(*c))
}

#[tactic(auto, using(crate::proofs::Positions::len_by_position, crate::proofs::JunosCut::place_within))]
fn set_len(text: &[u8]) -> usize
    ensures value { result ≡ position_or_len is_sign text.now }
    ensures within { result ≤ length text.now }
{
    place_of_sign(text).unwrap_or(text.len())
}

// The item of a set that is no group.
fn plain(alloc: Global, place: usize, text: &[u8]) -> Result<TokenItem, PatternFault>
    requires { place ≤ length text.now }
    ensures { Reads (plain_in place text.now) result }
{
    let Some(range) = read_range(&text[..place]) else {
        return Err(PatternFault::NotShaped);
    };
    let Some(count) = read_count(&text[place..]) else {
        return Err(PatternFault::NotShaped);
    };
    let mut ranges = Row::new(alloc);
    ranges.push(range)?;
    Ok(item_of(ranges, count))
}

// The item of a group, from behind its opening parenthesis on.
fn group(alloc: Global, text: &[u8]) -> Result<TokenItem, PatternFault>
    ensures { Reads (group_in text.now) result }
{
    let Some((inner, behind)) = parts_at(text, b')') else {
        return Err(PatternFault::NotShaped);
    };
    let ranges = each_member(alloc, inner)?;
    let Some(count) = read_count(behind) else {
        return Err(PatternFault::NotShaped);
    };
    Ok(item_of(ranges, count))
}

#[tactic(auto, unfolding(crate::specs::JunosRead::item_in))]
fn item(alloc: Global, text: &[u8]) -> Result<TokenItem, PatternFault>
    ensures { Reads (item_in text.now) result }
{
    match text {
        [] => Err(PatternFault::NotShaped),
        [first, behind @ ..] => {
            if *first == b'(' {
                return group(alloc, behind);
            }
            plain(alloc, set_len(text), text)
        }
    }
}

// ---- the members of a group

// The first member's text, and what stands behind the bar. `None` where there is no bar.
#[tactic(auto, using(crate::proofs::JunosCut::members_alone))]
fn next_member(text: &[u8]) -> Option<(&[u8], &[u8])>
    ensures parted { MatchOption result (members_of text.now ≡ text.now ∷ []) (λ p. members_of text.now ≡ p.0.now ∷ members_of p.1.now) }
    ensures shorter { IfSome result (λ p. length p.1.now < length text.now) }
{
    let (front, behind) = parts_at(text, b'|')?;
    Some((front, behind))
}

fn each_member(alloc: Global, text: &[u8]) -> Result<Row<NumberRange>, PatternFault>
    ensures { Reads (each member_in (members_of text.now)) result }
{
    let mut ranges = Row::new(alloc);
    let mut rest = text;
    while let Some((front, behind)) = next_member(rest) {
        let Some(range) = read_member(front) else {
            return Err(PatternFault::NotShaped);
        };
        ranges.push(range)?;
        rest = behind;
    }
    let Some(range) = read_member(rest) else {
        return Err(PatternFault::NotShaped);
    };
    ranges.push(range)?;
    Ok(ranges)
}
