//! The names that the items of a tree define, and those that the lines of a map name.
ghost use Rattle.std.specs.Prelude.{◌≡◌, ℕ, ◌||◌, ◌&&◌, ◌==◌, List, ◌∷◌, IfOk, OnOk, false, bytes_eq, option_map};
ghost use Rattle.std.specs.List.{list_any};
ghost use Rattle.policy_text.specs.NameSets.{has_name};
ghost use Rattle.ios_reader.specs.Entries.{onto_lines, lines_of};
ghost use Rattle.ios_reader.specs.Items.{is_under, defines, is_marked};
ghost use Rattle.ios_reader.specs.Lines.{names_list};
ghost use Rattle.ios_tree.specs.declared.item.IosItem.{IosItem as SpecItem};
ghost use Rattle.ios_tree.specs.declared.item.MapLine.{MapLine as SpecLine};

use crate::items::{defined_name, heads, is_line, mark_of, name_of_form, sort_code, sort_of_form};
use crate::lines::lists_named;
use ios_tree::{IosForm, IosItem, MapLine};
use policy_text::{NameOf, NameSet, add_name};
use route_types::{Memory, Row};
use std::alloc::Global;
use std::collections::BTreeSet;

// Adds a name with its sort and its number, where it has both a name and a number.
fn add_under<'a>(
    names: &mut NameSet<'a>,
    name: Option<&'a [u8]>,
    sort: u64,
    number: Option<u64>,
) -> Result<(), Memory>
    ensures { OnOk result ((q : List ℕ) (s n : ℕ) → has_name names.new q s n ≡ (is_under q s n (option_map (λ w. w.now) name.entry) sort number || has_name names.old q s n)) }
{
    match (name, number) {
        (Some(name), Some(number)) => add_name(names, name, sort, number),
        _ => Ok(()),
    }
}

// The lists and maps that are there.
pub(crate) struct Defined;

impl NameOf<IosItem> for Defined {
    ghost gives = { λ q s n i. defines q s n i.form };

    fn note<'a>(names: &mut NameSet<'a>, item: &'a IosItem) -> Result<(), Memory> {
        let sort = sort_code(sort_of_form(&item.form));
        add_under(names, defined_name(&item.form), sort, Some(0))
    }
}

// The marks that are there.
pub(crate) struct Marked;

impl NameOf<IosItem> for Marked {
    ghost gives = { λ q s n i. is_marked q s n i.form };

    fn note<'a>(names: &mut NameSet<'a>, item: &'a IosItem) -> Result<(), Memory> {
        let sort = sort_code(sort_of_form(&item.form));
        add_under(names, name_of_form(&item.form), sort, mark_of(&item.form))
    }
}

// ---- the lists that lines name

fn add_lists<'a>(names: &mut NameSet<'a>, sort: u64, lists: &'a [Row<u8>]) -> Result<(), Memory>
    ensures { OnOk result ((q : List ℕ) (s n : ℕ) → has_name names.new q s n ≡ (((n == 0) && (s == sort) && list_any (bytes_eq q) lists.now) || has_name names.old q s n)) }
{
    let mut rest = lists;
    while let [first, tail @ ..] = rest {
        add_name(names, first.as_slice(), sort, 0)?;
        rest = tail;
    }
    Ok(())
}

fn note_line<'a>(names: &mut NameSet<'a>, line: &'a MapLine) -> Result<(), Memory>
    ensures { OnOk result ((q : List ℕ) (s n : ℕ) → has_name names.new q s n ≡ (names_list q s n line.now || has_name names.old q s n)) }
{
    let (sort, lists) = lists_named(line);
    add_lists(names, sort_code(sort), lists)
}

fn note_form<'a>(names: &mut NameSet<'a>, form: &'a IosForm) -> Result<(), Memory>
    ensures { OnOk result ((q : List ℕ) (s n : ℕ) (ls : List SpecLine) → (has_name names.new q s n || list_any (names_list q s n) ls) ≡ (has_name names.old q s n || list_any (names_list q s n) (onto_lines form.now ls))) }
{
    match form {
        IosForm::Line(line) => note_line(names, line),
        _ => Ok(()),
    }
}

// Adds the lists that an item names, where it is a line of the policy. Says whether the entry that is open behind it
// is one of the policy.
fn note_inside<'a>(
    policy: &[u8],
    names: &mut NameSet<'a>,
    inside: bool,
    item: &'a IosItem,
) -> Result<bool, Memory>
    ensures { IfOk result (λ o. (q : List ℕ) (s n : ℕ) (is : List SpecItem) → (has_name names.new q s n || list_any (names_list q s n) (lines_of policy.now o is)) ≡ (has_name names.old q s n || list_any (names_list q s n) (lines_of policy.now inside (item.now ∷ is)))) }
{
    if !is_line(&item.form) {
        return Ok(heads(policy, &item.form));
    }
    if inside {
        note_form(names, &item.form)?;
        return Ok(true);
    }
    Ok(false)
}

// The lists that the lines of the policy name.
pub(crate) fn named_lists<'a>(
    alloc: Global,
    policy: &[u8],
    items: &'a [IosItem],
) -> Result<NameSet<'a>, Memory>
    ensures { IfOk result (λ names. (q : List ℕ) (s n : ℕ) → has_name names q s n ≡ list_any (names_list q s n) (lines_of policy.now false items.now)) }
{
    let mut names = BTreeSet::new(alloc);
    let mut inside = false;
    let mut rest = items;
    while let [first, tail @ ..] = rest {
        inside = note_inside(policy, &mut names, inside, first)?;
        rest = tail;
    }
    Ok(names)
}
