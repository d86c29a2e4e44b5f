//! The sets and policies of a text by their names.
ghost use Rattle.std.specs.Prelude.{◌≡◌, List, ℕ, [], ◌∷◌, Option, None, IfOk, OnOk, option_map};
ghost use Rattle.rpl_forms.specs.declared.item.RplForm.{RplForm as SpecForm};
ghost use Rattle.rpl_meaning.specs.Blocks.{Tells, Goes, block_or};
ghost use Rattle.rpl_meaning.specs.Sets.{policy_named, prefix_set_named, community_set_named, path_set_named, block_at};
ghost use Rattle.rpl_tree.specs.Tree.{forms};

use name_maps::NameMap;
use route_types::Memory;
use rpl_forms::{Header, RplForm, RplItem};
use std::alloc::Global;

/// The blocks of one sort under their names, each from its first line on.
pub(crate) type Blocks<'a> = NameMap<'a, &'a [RplItem]>;

/// A sort of blocks.
pub(crate) trait BlockSort {
    ghost named: { SpecForm → Option (List ℕ) };

    /// The name under which a form opens a block of the sort.
    fn name_in(form: &RplForm) -> Option<&[u8]>
        ensures { option_map (λ w. w.now) result ≡ named form.now };
}

/// Prefix sets.
pub(crate) struct PrefixSets;

impl BlockSort for PrefixSets {
    ghost named = { prefix_set_named };

    fn name_in(form: &RplForm) -> Option<&[u8]> {
        match form {
            RplForm::Header(Header::PrefixSet(name)) => Some(name.as_slice()),
            _ => None,
        }
    }
}

/// Community sets.
pub(crate) struct CommunitySets;

impl BlockSort for CommunitySets {
    ghost named = { community_set_named };

    fn name_in(form: &RplForm) -> Option<&[u8]> {
        match form {
            RplForm::Header(Header::CommunitySet(name)) => Some(name.as_slice()),
            _ => None,
        }
    }
}

/// Path sets.
pub(crate) struct PathSets;

impl BlockSort for PathSets {
    ghost named = { path_set_named };

    fn name_in(form: &RplForm) -> Option<&[u8]> {
        match form {
            RplForm::Header(Header::PathSet(name)) => Some(name.as_slice()),
            _ => None,
        }
    }
}

/// Policies.
pub(crate) struct Policies;

impl BlockSort for Policies {
    ghost named = { policy_named };

    fn name_in(form: &RplForm) -> Option<&[u8]> {
        match form {
            RplForm::Header(Header::Policy(header)) => Some(header.name.as_slice()),
            _ => None,
        }
    }
}

// Puts the block that begins here, if one does, behind those that were found.
fn add_block<'a, S: BlockSort>(
    blocks: &mut Blocks<'a>,
    rest: &'a [RplItem],
    first: &'a RplItem,
    tail: &'a [RplItem],
) -> Result<(), Memory>
    requires { rest.now ≡ first.now ∷ tail.now }
    ensures { OnOk result ((q : List ℕ) → block_or blocks.new.entries q (block_at S.named q (forms tail.now)) ≡ block_or blocks.old.entries q (block_at S.named q (forms rest.now))) }
{
    match S::name_in(&first.form) {
        Some(name) => blocks.put_first(name, rest),
        None => Ok(()),
    }
}

/// The blocks of the sort.
pub(crate) fn blocks_of<'a, S: BlockSort>(
    alloc: Global,
    items: &'a [RplItem],
) -> Result<Blocks<'a>, Memory>
    ensures { IfOk result (λ m. Tells S.named m.entries items.now) }
{
    let mut blocks = NameMap::new(alloc);
    let mut rest = items;
    while let [first, tail @ ..] = rest {
        add_block::<S>(&mut blocks, rest, first, tail)?;
        rest = tail;
    }
    Ok(blocks)
}
