//! The blocks of a text under their names.
ghost use Rattle.std.specs.Prelude.{◌≡◌, ℕ, List, Option, ◌||◌, ◌&&◌, ◌∷◌, false, IfOk, OnOk};
ghost use Rattle.policy_text.specs.Names.{is_named};
ghost use Rattle.policy_text.specs.NameSets.{has_name};
ghost use Rattle.text_words.specs.declared.rpl_blocks.BlockKind.TheVariants.{CommunitySet};
ghost use Rattle.rpl_forms.specs.declared.item.RplItem.{RplItem as SpecItem};
ghost use Rattle.rpl_facts.specs.Blocks.{name_opened, is_kind, is_single, is_wide};
ghost use Rattle.rpl_facts.specs.Told.{kind_code, lent, gives_block, is_block, TellsBlocks, TellsWide, IsWidening};

use policy_text::{NameOf, NameSet, add_name, has_name, names_of};
use route_types::{Memory, Rect};
use rpl_calls::opens;
use rpl_forms::{BlockKind, Element, Header, RplForm, RplItem};
use std::alloc::Global;
use std::collections::BTreeSet;

/// The number of a kind of blocks, by which blocks stand in a set of names. It takes no memory.
pub fn kind_code(kind: BlockKind) -> u64
    ensures { result ≡ kind_code kind }
{
    match kind {
        BlockKind::PrefixSet => 0,
        BlockKind::CommunitySet => 1,
        BlockKind::PathSet => 2,
        BlockKind::Policy => 3,
    }
}

/// The name that a first line stands under, if it has one. It takes no memory.
pub fn name_opened(form: &RplForm) -> Option<&[u8]>
    ensures { lent result ≡ name_opened form.now }
{
    match form {
        RplForm::Header(Header::PrefixSet(name)) => Some(name.as_slice()),
        RplForm::Header(Header::CommunitySet(name)) => Some(name.as_slice()),
        RplForm::Header(Header::PathSet(name)) => Some(name.as_slice()),
        RplForm::Header(Header::Policy(policy)) => Some(policy.name.as_slice()),
        RplForm::Other(other) => match &other.name {
            Some(name) => Some(name.as_slice()),
            None => None,
        },
        _ => None,
    }
}

/// Adds a block under the number of its kind, where it has a name. Its one error is want of memory.
pub fn add_block<'a>(
    names: &mut NameSet<'a>,
    kind: Option<BlockKind>,
    name: Option<&'a [u8]>,
) -> Result<(), Memory>
    ensures { OnOk result ((q : List ℕ) (s n : ℕ) → has_name names.new q s n ≡ (is_block q s n kind (lent name.entry) || has_name names.old q s n)) }
{
    match (kind, name) {
        (Some(kind), Some(name)) => add_name(names, name, kind_code(kind), 0),
        _ => Ok(()),
    }
}

/// The blocks that are there.
struct Blocks;

impl NameOf<RplItem> for Blocks {
    ghost gives = { λ q s n i. gives_block q s n i };

    fn note<'a>(names: &mut NameSet<'a>, item: &'a RplItem) -> Result<(), Memory> {
        add_block(names, opens(&item.form), name_opened(&item.form))
    }
}

/// The blocks of a text. Its one error is want of memory.
pub fn blocks_of<'a>(alloc: Global, items: &'a [RplItem]) -> Result<NameSet<'a>, Memory>
    ensures { IfOk result (λ names. TellsBlocks names items.now) }
{
    let names = names_of::<RplItem, Blocks>(alloc, items)?;
    Ok(names)
}

// ---- community sets that have an element that isn't a single community

/// Whether it is a single community. It takes no memory.
pub fn is_single(rect: &Rect) -> bool
    ensures { result ≡ is_single rect.now }
{
    rect.high_least() == rect.high_most() && rect.low_least() == rect.low_most()
}

fn is_wide(form: &RplForm) -> bool
    ensures { result ≡ is_wide form.now }
{
    match form {
        RplForm::Element(Element::Community(rect)) => !is_single(rect),
        _ => false,
    }
}

// The name of the community set that is open behind a first line, if one is.
fn community_opened<'a>(kind: BlockKind, form: &'a RplForm) -> Option<&'a [u8]>
    ensures { (q : List ℕ) → is_named q (lent result) ≡ (is_kind CommunitySet kind && is_named q (name_opened form.now)) }
{
    match kind {
        BlockKind::CommunitySet => name_opened(form),
        BlockKind::PrefixSet => None,
        BlockKind::PathSet => None,
        BlockKind::Policy => None,
    }
}

// Notes the name of the open community set, where the item is an element that isn't a single community, and gives
// the name of the set that is open behind the item.
fn note_wide<'a>(
    names: &mut NameSet<'a>,
    name: Option<&'a [u8]>,
    item: &'a RplItem,
) -> Result<Option<&'a [u8]>, Memory>
    ensures { IfOk result (λ behind. (rest all : List SpecItem) → IsWidening names.old name.entry (item.now ∷ rest) all → IsWidening names.new behind rest all) }
{
    if let Some(kind) = opens(&item.form) {
        return Ok(community_opened(kind, &item.form));
    }
    if !is_wide(&item.form) {
        return Ok(name);
    }
    let Some(set) = name else {
        return Ok(None);
    };
    add_name(names, set, 0, 0)?;
    Ok(Some(set))
}

/// The names of the community sets that have an element that isn't a single community. Its one error is want of memory.
pub fn wide_sets<'a>(alloc: Global, items: &'a [RplItem]) -> Result<NameSet<'a>, Memory>
    ensures { IfOk result (λ names. TellsWide names items.now) }
{
    let mut names = BTreeSet::new(alloc);
    let mut name = None;
    let mut rest = items;
    while let [first, tail @ ..] = rest {
        name = note_wide(&mut names, name, first)?;
        rest = tail;
    }
    Ok(names)
}
