//! The numbers of prefix list entries: one that isn't written is 5 more than the greatest of its list
//! so far.

ghost use Rattle.std.specs.Prelude.{◌≡◌, ◌+◌, ◌-◌, ◌^◌, ◌&&◌, true, false, List, ℕ, IfOk, OnOk, nat_le, bytes_eq};
ghost use Rattle.policy_text.specs.Phrases.{texts};
ghost use Rattle.route_types.specs.Address.{same_family};
ghost use Rattle.route_types.specs.Words.{when};
ghost use Rattle.route_types.specs.declared.address.Family.{Family};
ghost use Rattle.ios_tree.specs.Tree.{greater, greatest_with};
ghost use Rattle.ios_tree.specs.Numbering.{greatest_in, greatest_of, numbered_by, NamesList};
ghost use Rattle.ios_tree.specs.declared.item.IosForm.TheVariants.{PrefixEntry};

use crate::item::{IosForm, ItemSort, OtherItem, PrefixListEntry};
use crate::items::list_name_at;
use policy_text::Word;
use route_types::{Family, Memory};
use std::alloc::Global;
use std::collections::BTreeMap;

/// The greatest number that each prefix list has so far, by its family and its name.
#[derive(Drop)]
pub(crate) struct Greatest<'a> {
    v4: BTreeMap<&'a [u8], u64>,
    v6: BTreeMap<&'a [u8], u64>,
}

fn greatest_in<'a>(numbers: &BTreeMap<&'a [u8], u64>, list: &'a [u8]) -> u64
    ensures { result ≡ greatest_in numbers.now list.now }
{
    match numbers.get(&list) {
        None => 0,
        Some(number) => *number,
    }
}

fn raise_in<'a>(
    numbers: &mut BTreeMap<&'a [u8], u64>,
    list: &'a [u8],
    number: u64,
) -> Result<(), Memory>
    ensures { OnOk result ((q : List ℕ) → greatest_in numbers.new q ≡ elim (bytes_eq q list.now) [ true ↦ greater number (greatest_in numbers.old q) | false ↦ greatest_in numbers.old q ]) }
{
    if greatest_in(numbers, list) < number {
        numbers.insert(list, number)?;
    }
    Ok(())
}

impl<'a> Greatest<'a> {
    // No list has a number.
    pub(crate) fn new(alloc: Global) -> Greatest<'a>
        ensures { (family : Family) (list : List ℕ) → greatest_of result family list ≡ 0 }
    {
        Greatest {
            v4: BTreeMap::new(alloc),
            v6: BTreeMap::new(alloc),
        }
    }

    fn of(&self, family: Family, list: &'a [u8]) -> u64
        ensures { result ≡ greatest_of self.now family list.now }
    {
        match family {
            Family::V4 => greatest_in(&self.v4, list),
            Family::V6 => greatest_in(&self.v6, list),
        }
    }

    fn raise(&mut self, family: Family, list: &'a [u8], number: u64) -> Result<(), Memory>
        ensures { OnOk result ((f : Family) (q : List ℕ) → greatest_of self.new f q ≡ elim (same_family f family && bytes_eq q list.now) [ true ↦ greater number (greatest_of self.old f q) | false ↦ greatest_of self.old f q ]) }
    {
        match family {
            Family::V4 => raise_in(&mut self.v4, list, number),
            Family::V6 => raise_in(&mut self.v6, list, number),
        }
    }
}

// 5 more, where a number may be so great.
fn next_number(greatest: u64) -> Option<u64>
    ensures { result ≡ when (nat_le (greatest + 5) (2 ^ 64 - 1)) (greatest + 5) }
{
    greatest.checked_add(5)
}

// An entry with its number.
fn numbered_entry<'a>(
    greatest: &mut Greatest<'a>,
    entry: PrefixListEntry,
    list: &'a [u8],
) -> Result<IosForm, Memory>
    requires { list.now ≡ entry.list }
    ensures value { IfOk result (λ f. f ≡ numbered_by (greatest_of greatest.old) (PrefixEntry entry)) }
    ensures raised { IfOk result (λ f. (family : Family) (q : List ℕ) → greatest_of greatest.new family q ≡ greatest_with family q f (greatest_of greatest.old family q)) }
{
    let family = entry.entry.range.prefix().address().family;
    if entry.has_seq {
        greatest.raise(family, list, entry.number)?;
        return Ok(IosForm::PrefixEntry(entry));
    }
    let PrefixListEntry {
        list: name,
        has_seq,
        number: _,
        entry,
    } = entry;
    match next_number(greatest.of(family, list)) {
        None => Ok(IosForm::Other(OtherItem {
            sort: ItemSort::PrefixList(family),
            name: Some(name),
        })),
        Some(number) => {
            greatest.raise(family, list, number)?;
            Ok(IosForm::PrefixEntry(PrefixListEntry {
                list: name,
                has_seq,
                number,
                entry,
            }))
        }
    }
}

// A form with its number. The words are those of its statement.
pub(crate) fn numbered<'a>(
    greatest: &mut Greatest<'a>,
    form: IosForm,
    words: &'a [Word],
) -> Result<IosForm, Memory>
    requires { NamesList (texts words.now) form }
    ensures value { IfOk result (λ f. f ≡ numbered_by (greatest_of greatest.old) form) }
    ensures raised { IfOk result (λ f. (family : Family) (q : List ℕ) → greatest_of greatest.new family q ≡ greatest_with family q f (greatest_of greatest.old family q)) }
{
    match form {
        IosForm::PrefixEntry(entry) => match list_name_at(words, 2) {
            Some(list) => numbered_entry(greatest, entry, list),
            None => Ok(IosForm::PrefixEntry(entry)),
        },
        other => Ok(other),
    }
}
