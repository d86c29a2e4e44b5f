ghost use Rattle.std.specs.Prelude.{◌≡◌, [], ◌∷◌, true, None, IfOk, IfErr, MatchOption};
ghost use Rattle.ios_reader.specs.Profile.{InProfile, all_forms, first_fault_within, is_defined};
ghost use Rattle.ios_reader.specs.Faults.{IsCheckFault};

use crate::checked::CheckedIos;
use crate::faults::fault_of;
use crate::items::heads;
use crate::known::known_of;
use crate::names::Marked;
use crate::place::{place_behind, place_of_start};
use crate::takes::{AllForms, Takes};
use ios_tree::{IosItem, IosTree};
use policy_text::{Cause, CheckFault, NameOf, Span, copied};
use route_types::{Memory, Row};
use std::alloc::Global;
use std::collections::BTreeSet;

fn first_fault<'a, T: Takes>(
    alloc: Global,
    policy: &'a [u8],
    items: &'a [IosItem],
) -> Result<Option<(Span, Cause)>, Memory>
    ensures { IfOk result (λ o. o ≡ first_fault_within T.takes policy.now items.now) }
{
    let known = known_of(alloc, policy, items)?;
    let mut marks = BTreeSet::new(alloc);
    let mut place = place_of_start();
    let mut rest = items;
    while let [item, tail @ ..] = rest {
        if let Some(cause) = fault_of::<T>(&known, &place, &marks, &item.form) {
            return Ok(Some((item.span, cause)));
        }
        Marked::note(&mut marks, item)?;
        place = place_behind(policy, place, item);
        rest = tail;
    }
    Ok(None)
}

#[tactic(auto, unfolding(crate::specs::Profile::is_defined))]
fn is_defined(policy: &[u8], items: &[IosItem]) -> bool
    ensures { result ≡ is_defined policy.now items.now }
{
    let mut rest = items;
    while let [first, tail @ ..] = rest {
        if heads(policy, &first.form) {
            return true;
        }
        rest = tail;
    }
    false
}

// Why the policy of this name lies outside the profile, for a caller who takes these forms, if it does.
fn refusal<T: Takes>(alloc: Global, name: &[u8], items: &[IosItem]) -> Option<CheckFault>
    ensures { MatchOption result ((is_defined name.now items.now ≡ true) × (first_fault_within T.takes name.now items.now ≡ None)) (IsCheckFault T.takes name.now items.now) }
{
    if !is_defined(name, items) {
        return Some(CheckFault::NoPolicy { place: 0 });
    }
    match first_fault::<T>(alloc, name, items) {
        Ok(None) => None,
        Ok(Some((span, cause))) => Some(CheckFault::Outside { span, cause }),
        Err(_) => Some(CheckFault::Memory),
    }
}

fn one_name(alloc: Global, name: &[u8]) -> Result<Row<Row<u8>>, Memory>
    ensures { IfOk result (λ ns. ns ≡ name.now ∷ []) }
{
    let mut names = Row::new(alloc);
    names.push(copied(alloc, name)?)?;
    Ok(names)
}

/// As `check_ios`, for a caller who takes the forms of `T` alone: a reached statement of another form is
/// of an unknown one (`UnknownForm`), and counts among the faults by its place in the text.
#[tactic(auto, using(crate::proofs::LeastFault::is_in_profile))]
pub fn check_ios_within<T: Takes>(
    alloc: Global,
    tree: IosTree,
    name: &[u8],
) -> Result<CheckedIos, CheckFault>
    // The tree and the name are the ones given.
    ensures value { IfOk result (λ p. p ≡ record { items = tree; names = name.now ∷ [] }) }
    // A policy is checked only in profile.
    ensures profile { IfOk result (λ p. InProfile name.now tree) }
    // No reached statement is of a form that isn't taken.
    ensures sound { IfOk result (λ p. first_fault_within T.takes name.now tree ≡ None) }
    // What a fault says of the policy.
    ensures fault { IfErr result (IsCheckFault T.takes name.now tree) }
{
    if let Some(fault) = refusal::<T>(alloc, name, tree.items()) {
        return Err(fault);
    }
    let Ok(names) = one_name(alloc, name) else {
        return Err(CheckFault::Memory);
    };
    Ok(CheckedIos { tree, names })
}

/// Checks that the policy of this name lies in the profile: a `route-map` stands under the name, and
/// no statement of it, or of a list that its lines name, has a fault. What other policies say is not
/// looked at. The name is copied.
///
/// - `NoPolicy` with place 0: no `route-map` stands under the name.
/// - `Outside`: the first statement in the text that has a fault, and the first of its causes:
///   it spells no form (`UnknownForm`); its community list is of the other sort before it
///   (`DefinedTwice`); an earlier entry of its name has its number (`SequenceTwice`); a list or an
///   entry that it names isn't there (`Undefined`); its entry has a line of this form already
///   (`SameKindTwice`); it continues at an entry that isn't above (`BackwardContinue`), or in an entry
///   that denies (`DenyContinue`); it tests what an entry below sets that continues (`UnsettledTest`);
///   it wants an exact match of an expanded list (`ExactExpanded`).
/// - `Memory`: an allocation was refused.
pub fn check_ios(alloc: Global, tree: IosTree, name: &[u8]) -> Result<CheckedIos, CheckFault>
    // The tree and the name are the ones given.
    ensures value { IfOk result (λ p. p ≡ record { items = tree; names = name.now ∷ [] }) }
    // A policy is checked only in profile.
    ensures profile { IfOk result (λ p. InProfile name.now tree) }
    // What a fault says of the policy.
    ensures fault { IfErr result (IsCheckFault all_forms name.now tree) }
{
    check_ios_within::<AllForms>(alloc, tree, name)
}
