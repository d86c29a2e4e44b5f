//! The definitions of a tree by their names.
ghost use Rattle.std.specs.Prelude.{◌≡◌, List, ℕ, [], ◌∷◌, Option, None, IfOk, OnOk, option_map};
ghost use Rattle.junos_tree.specs.declared.item.JunosForm.{JunosForm as SpecForm};
ghost use Rattle.junos_reader.specs.Facts.{forms_of};
ghost use Rattle.junos_meaning.specs.Maps.{Tells, Goes, block_or};
ghost use Rattle.junos_meaning.specs.Sets.{community_named, path_named, policy_named, defined_at};

use junos_reader::{JunosForm, JunosItem};
use name_maps::NameMap;
use route_types::Memory;
use std::alloc::Global;

/// The definitions of one sort under their names: the items from each one on.
pub(crate) type Blocks<'a> = NameMap<'a, &'a [JunosItem]>;

/// A sort of definitions.
pub(crate) trait BlockSort {
    ghost named: { SpecForm → Option (List ℕ) };

    /// The name under which a form defines something of the sort.
    fn name_in(form: &JunosForm) -> Option<&[u8]>
        ensures { option_map (λ w. w.now) result ≡ named form.now };
}

/// Communities.
pub(crate) struct Communities;

impl BlockSort for Communities {
    ghost named = { community_named };

    fn name_in(form: &JunosForm) -> Option<&[u8]> {
        match form {
            JunosForm::Community(community) => Some(community.name.as_slice()),
            _ => None,
        }
    }
}

/// AS paths.
pub(crate) struct Paths;

impl BlockSort for Paths {
    ghost named = { path_named };

    fn name_in(form: &JunosForm) -> Option<&[u8]> {
        match form {
            JunosForm::AsPath(path) => Some(path.name.as_slice()),
            _ => None,
        }
    }
}

/// Policies.
pub(crate) struct Policies;

impl BlockSort for Policies {
    ghost named = { policy_named };

    fn name_in(form: &JunosForm) -> Option<&[u8]> {
        match form {
            JunosForm::Policy(name) => Some(name.as_slice()),
            _ => None,
        }
    }
}

// Puts the definition that begins here, if one does, behind those that were found.
#[tactic(auto, using(crate::proofs::MapLaws::passed))]
fn add_block<'a, S: BlockSort>(
    blocks: &mut Blocks<'a>,
    rest: &'a [JunosItem],
    first: &'a JunosItem,
    tail: &'a [JunosItem],
) -> Result<(), Memory>
    requires { rest.now ≡ first.now ∷ tail.now }
    ensures { OnOk result ((q : List ℕ) → block_or blocks.new.entries q (defined_at S.named q (forms_of tail.now)) ≡ block_or blocks.old.entries q (defined_at S.named q (first.now.form ∷ forms_of tail.now))) }
{
    match S::name_in(&first.form) {
        Some(name) => blocks.put_first(name, rest),
        None => Ok(()),
    }
}

/// The definitions of the sort.
pub(crate) fn blocks_of<'a, S: BlockSort>(
    alloc: Global,
    items: &'a [JunosItem],
) -> Result<Blocks<'a>, Memory>
    ensures { IfOk result (λ m. Tells S.named m.entries items.now) }
{
    let mut blocks = NameMap::new(alloc);
    let mut rest = items;
    while let [first, tail @ ..] = rest {
        add_block::<S>(&mut blocks, rest, first, tail)?;
        rest = tail;
    }
    Ok(blocks)
}
