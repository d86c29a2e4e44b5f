//! What the kinds ask of the lists of a tree, each found in one walk.

ghost use Rattle.std.specs.Prelude.{◌≡◌, ◌||◌, ◌==◌, ℕ, List, true, IfOk, OnOk};
ghost use Rattle.route_types.specs.Address.{width};
ghost use Rattle.route_types.specs.declared.address.Family.{Family};
ghost use Rattle.policy_text.specs.NameSets.{has_name};
ghost use Rattle.expressible_table.specs.Kinds.{has_short};
ghost use Rattle.expressible_table.specs.Noted.{gives_short, gives_deny, is_hop_line, has_hop_line, TellLists};

use ios_reader::{IosForm, IosItem, MapLine};
use policy_text::{NameOf, NameSet, add_name, names_of};
use prefix_sets::PrefixEntry;
use route_types::Memory;
use std::alloc::Global;
use std::collections::BTreeSet;

/// The items of a tree, the prefix lists among them with an entry that isn't of full length, if a line tests the next
/// hop, and the community lists with one that denies.
#[derive(Drop)]
pub struct Lists<'a> {
    pub items: &'a [IosItem],
    pub short: NameSet<'a>,
    pub deny: NameSet<'a>,
}

// The prefix lists with an entry that isn't of full length, each with the width of its family.
pub(crate) struct Short;

fn is_full_length(entry: &PrefixEntry) -> bool
    ensures { result ≡ (entry.now.range.prefix.length == width entry.now.range.prefix.address.family) }
{
    let prefix = entry.range.prefix();
    prefix.length() == prefix.address().family.width()
}

fn family_width(entry: &PrefixEntry) -> u64
    ensures { result ≡ width entry.now.range.prefix.address.family }
{
    u64::from(entry.range.prefix().address().family.width())
}

fn note_short<'a>(names: &mut NameSet<'a>, form: &'a IosForm) -> Result<(), Memory>
    ensures { OnOk result ((q : List ℕ) (s n : ℕ) → has_name names.new q s n ≡ (gives_short q s n form.now || has_name names.old q s n)) }
{
    let IosForm::PrefixEntry(entry) = form else {
        return Ok(());
    };
    if is_full_length(&entry.entry) {
        return Ok(());
    }
    add_name(names, entry.list.as_slice(), family_width(&entry.entry), 0)
}

impl NameOf<IosItem> for Short {
    ghost gives = { λ q s n i. gives_short q s n i.form };

    fn note<'a>(names: &mut NameSet<'a>, item: &'a IosItem) -> Result<(), Memory> {
        note_short(names, &item.form)
    }
}

// The community lists with an entry that denies.
pub(crate) struct Deny;

fn note_deny<'a>(names: &mut NameSet<'a>, form: &'a IosForm) -> Result<(), Memory>
    ensures { OnOk result ((q : List ℕ) (s n : ℕ) → has_name names.new q s n ≡ (gives_deny q s n form.now || has_name names.old q s n)) }
{
    let IosForm::CommunityEntry(entry) = form else {
        return Ok(());
    };
    if entry.permit {
        return Ok(());
    }
    add_name(names, entry.list.as_slice(), 0, 0)
}

impl NameOf<IosItem> for Deny {
    ghost gives = { λ q s n i. gives_deny q s n i.form };

    fn note<'a>(names: &mut NameSet<'a>, item: &'a IosItem) -> Result<(), Memory> {
        note_deny(names, &item.form)
    }
}

fn is_hop_line(form: &IosForm) -> bool
    ensures { result ≡ is_hop_line form.now }
{
    match form {
        IosForm::Line(MapLine::MatchNextHop(_)) => true,
        _ => false,
    }
}

// Whether a line tests the next hop.
fn has_hop_line(items: &[IosItem]) -> bool
    ensures { result ≡ has_hop_line items.now }
{
    items.iter().any(|item| is_hop_line(&item.form))
}

// The prefix lists with an entry that isn't of full length; none is noted where no line tests the next hop.
fn short_lists<'a>(alloc: Global, items: &'a [IosItem]) -> Result<NameSet<'a>, Memory>
    ensures { IfOk result (λ names. has_hop_line items.now ≡ true → (family : Family) (list : List ℕ) → has_name names list (width family) 0 ≡ has_short items.now family list) }
{
    if !has_hop_line(items) {
        return Ok(BTreeSet::new(alloc));
    }
    let names = names_of::<IosItem, Short>(alloc, items)?;
    Ok(names)
}

/// What the kinds ask of the lists of a tree. The one error is want of memory.
pub(crate) fn lists_of<'a>(alloc: Global, items: &'a [IosItem]) -> Result<Lists<'a>, Memory>
    ensures tell { IfOk result TellLists }
    ensures items { IfOk result (λ l. l.items.now ≡ items.now) }
{
    let short = short_lists(alloc, items)?;
    let deny = names_of::<IosItem, Deny>(alloc, items)?;
    Ok(Lists { items, short, deny })
}
