ghost use Rattle.std.specs.Prelude.{◌≡◌, ◌++◌, ◌∷◌, [], codes, decimal, flat_map, map, IfOk, option_map};
ghost use Rattle.aspath_text.specs.IosGrammar.{joined_by};
ghost use Rattle.aspath_text.specs.JunosText.{range_text, ranges_text, set_text, exact_text, more_text, between_text, count_text, item_text, items_text};
ghost use Rattle.aspath_text.specs.Printing.{PrintsJunos};

use path_patterns::{NumberRange, TokenBranch, TokenItem, written};
use route_types::{Memory, push_number};
use std::alloc::Global;

fn push(out: &mut Vec<u8>, bytes: &[u8]) -> Result<(), Memory>
    ensures { IfOk result (λ _. out.new.items ≡ out.old.items ++ bytes.now) }
{
    out.extend_from_slice(bytes)?;
    Ok(())
}

#[tactic(auto, unfolding(crate::specs::JunosText::range_text))]
fn push_range(out: &mut Vec<u8>, range: &NumberRange) -> Result<(), Memory>
    ensures { IfOk result (λ _. out.new.items ≡ out.old.items ++ range_text range.now) }
{
    if range.least == range.most {
        return push_number(out, u64::from(range.least));
    }
    if range.least == 0 && range.most == u32::MAX {
        return push(out, b".");
    }
    push_number(out, u64::from(range.least))?;
    push(out, b"-")?;
    push_number(out, u64::from(range.most))
}

// Ranges, a bar before each.
fn push_barred(out: &mut Vec<u8>, ranges: &[NumberRange]) -> Result<(), Memory>
    ensures { IfOk result (λ _. out.new.items ≡ out.old.items ++ flat_map (λ r. 124 ∷ range_text r) ranges.now) }
{
    let mut rest = ranges;
    while let [range, tail @ ..] = rest {
        push(out, b"|")?;
        push_range(out, range)?;
        rest = tail;
    }
    Ok(())
}

fn push_ranges(out: &mut Vec<u8>, first: &NumberRange, others: &[NumberRange]) -> Result<(), Memory>
    ensures { IfOk result (λ _. out.new.items ≡ out.old.items ++ ranges_text (first.now ∷ others.now)) }
{
    push_range(out, first)?;
    push_barred(out, others)?;
    Ok(())
}

fn push_group(out: &mut Vec<u8>, first: &NumberRange, others: &[NumberRange]) -> Result<(), Memory>
    ensures { IfOk result (λ _. out.new.items ≡ out.old.items ++ (40 ∷ (ranges_text (first.now ∷ others.now) ++ (41 ∷ [])))) }
{
    push(out, b"(")?;
    push_ranges(out, first, others)?;
    push(out, b")")
}

#[tactic(auto, unfolding(crate::specs::JunosText::set_text))]
fn push_set(out: &mut Vec<u8>, ranges: &[NumberRange]) -> Result<(), Memory>
    ensures { IfOk result (λ _. out.new.items ≡ out.old.items ++ set_text ranges.now) }
{
    match ranges {
        [] => push(out, b"()"),
        [range] => push_range(out, range),
        [first, others @ ..] => push_group(out, first, others),
    }
}

fn push_exact(out: &mut Vec<u8>, count: u32) -> Result<(), Memory>
    ensures { IfOk result (λ _. out.new.items ≡ out.old.items ++ exact_text count) }
{
    if count == 1 {
        return Ok(());
    }
    push(out, b"{")?;
    push_number(out, u64::from(count))?;
    push(out, b"}")
}

fn push_more(out: &mut Vec<u8>, least: u32) -> Result<(), Memory>
    ensures { IfOk result (λ _. out.new.items ≡ out.old.items ++ more_text least) }
{
    if least == 0 {
        return push(out, b"*");
    }
    if least == 1 {
        return push(out, b"+");
    }
    push(out, b"{")?;
    push_number(out, u64::from(least))?;
    push(out, b",}")
}

fn push_between(out: &mut Vec<u8>, least: u32, most: u32) -> Result<(), Memory>
    ensures { IfOk result (λ _. out.new.items ≡ out.old.items ++ between_text least most) }
{
    if least == 0 && most == 1 {
        return push(out, b"?");
    }
    push(out, b"{")?;
    push_number(out, u64::from(least))?;
    push(out, b",")?;
    push_number(out, u64::from(most))?;
    push(out, b"}")
}

#[tactic(auto, unfolding(crate::specs::JunosText::count_text))]
fn push_count(out: &mut Vec<u8>, least: u32, most: Option<u32>) -> Result<(), Memory>
    ensures { IfOk result (λ _. out.new.items ≡ out.old.items ++ count_text least most) }
{
    let Some(most) = most else {
        return push_more(out, least);
    };
    if least == most {
        return push_exact(out, least);
    }
    push_between(out, least, most)
}

#[tactic(auto, unfolding(crate::specs::JunosText::item_text))]
fn push_item(out: &mut Vec<u8>, item: &TokenItem) -> Result<(), Memory>
    ensures { IfOk result (λ _. out.new.items ≡ out.old.items ++ item_text item.now) }
{
    push_set(out, item.set.ranges.as_slice())?;
    push_count(out, item.least, item.most)
}

// Items, a space before each.
fn push_later(out: &mut Vec<u8>, items: &[TokenItem]) -> Result<(), Memory>
    ensures { IfOk result (λ _. out.new.items ≡ out.old.items ++ flat_map (λ i. 32 ∷ item_text i) items.now) }
{
    let mut rest = items;
    while let [item, tail @ ..] = rest {
        push(out, b" ")?;
        push_item(out, item)?;
        rest = tail;
    }
    Ok(())
}

fn push_spaced(out: &mut Vec<u8>, first: &TokenItem, others: &[TokenItem]) -> Result<(), Memory>
    ensures { IfOk result (λ _. out.new.items ≡ out.old.items ++ joined_by 32 (map item_text (first.now ∷ others.now))) }
{
    push_item(out, first)?;
    push_later(out, others)?;
    Ok(())
}

#[tactic(auto, unfolding(crate::specs::JunosText::items_text))]
fn push_items(out: &mut Vec<u8>, items: &[TokenItem]) -> Result<(), Memory>
    ensures { IfOk result (λ _. out.new.items ≡ out.old.items ++ items_text items.now) }
{
    match items {
        [] => push(out, b"()"),
        [first, others @ ..] => push_spaced(out, first, others),
    }
}

fn text_of(alloc: Global, items: &[TokenItem]) -> Result<Vec<u8>, Memory>
    ensures { IfOk result (λ text. text.items ≡ items_text items.now) }
{
    let mut out = Vec::new(alloc);
    push_items(&mut out, items)?;
    Ok(out)
}

/// The text of a branch as a Junos AS-path pattern, which matches the same paths. `None` comes exactly
/// where no path is matched. Its one error is want of memory.
pub fn print_junos(alloc: Global, branch: &TokenBranch) -> Result<Option<Vec<u8>>, Memory>
    ensures { IfOk result (λ text. PrintsJunos branch.now (option_map (λ t. t.items) text)) }
{
    let Some(items) = written(alloc, branch.items.as_slice())? else {
        return Ok(None);
    };
    Ok(Some(text_of(alloc, items.as_slice())?))
}
