ghost use Rattle.std.specs.Prelude.{◌≡◌, ◌<◌, ℕ, List, [], ◌∷◌, true, None, Some, IfOk, IfErr, MatchOption, length};
ghost use Rattle.std.specs.List.{list_any, list_all};
ghost use Rattle.policy_text.specs.NameSets.{has_name};
ghost use Rattle.junos_tree.specs.Sorts.{defines};
ghost use Rattle.junos_tree.specs.declared.item.StatementSort.{StatementSort as SpecSort};
ghost use Rattle.junos_reader.specs.Forms.{sort_code};
ghost use Rattle.junos_reader.specs.Profile.{InProfile, first_fault, is_defined};
ghost use Rattle.junos_reader.specs.Faults.{IsCheckFault, undefined_from};

use crate::checked::CheckedJunos;
use crate::faults::fault_of;
use crate::known::{definitions, known_of};
use crate::state::{pass_item, state_of_start};
use junos_tree::{JunosItem, JunosTree};
use policy_text::{Cause, CheckFault, NameSet, Span, copied, has_name};
use route_types::{Memory, Row};
use std::alloc::Global;

fn first_fault<'a>(
    alloc: Global,
    names: &'a [Row<u8>],
    items: &'a [JunosItem],
) -> Result<Option<(Span, Cause)>, Memory>
    ensures { IfOk result (λ o. o ≡ first_fault names.now items.now) }
{
    let known = known_of(alloc, names, items)?;
    let mut state = state_of_start(alloc);
    let mut rest = items;
    while let [item, tail @ ..] = rest {
        if let Some(cause) = fault_of(&known, &state, &item.form) {
            return Ok(Some((item.span, cause)));
        }
        pass_item(alloc, &mut state, &item.form)?;
        rest = tail;
    }
    Ok(None)
}

// The place of the first name under which no policy-statement stands.
#[tactic(auto, unfolding(crate::specs::Faults::undefined_from, crate::specs::Profile::is_defined))]
fn first_undefined<'a>(
    defined: &NameSet<'a>,
    names: &'a [Row<u8>],
    items: &[JunosItem],
) -> Option<usize>
    requires { (sort : SpecSort) (q : List ℕ) → has_name defined.now q (sort_code sort) 0 ≡ list_any (defines sort q) items.now }
    ensures { result ≡ undefined_from items.now 0 names.now }
{
    let mut place = 0;
    let mut rest = names;
    while let [first, tail @ ..] = rest {
        if !has_name(defined, first.as_slice(), 3, 0) {
            return Some(place);
        }
        place += 1;
        rest = tail;
    }
    None
}

// The place of the first name under which no policy-statement stands.
fn undefined_name(
    alloc: Global,
    names: &[Row<u8>],
    items: &[JunosItem],
) -> Result<Option<usize>, Memory>
    ensures { IfOk result (λ o. o ≡ undefined_from items.now 0 names.now) }
{
    let defined = definitions(alloc, items)?;
    Ok(first_undefined(&defined, names, items))
}

// Why the chain of these names lies outside the profile, if it does.
#[tactic(auto, using(crate::proofs::LeastFault::all_defined))]
fn refusal(alloc: Global, names: &[Row<u8>], items: &[JunosItem]) -> Option<CheckFault>
    ensures { MatchOption result (InProfile names.now items.now) (IsCheckFault names.now items.now) }
{
    match undefined_name(alloc, names, items) {
        Ok(None) => (),
        Ok(Some(place)) => return Some(CheckFault::NoPolicy { place }),
        Err(_) => return Some(CheckFault::Memory),
    }
    match first_fault(alloc, names, items) {
        Ok(None) => None,
        Ok(Some((span, cause))) => Some(CheckFault::Outside { span, cause }),
        Err(_) => Some(CheckFault::Memory),
    }
}

fn copied_names(alloc: Global, names: &[Row<u8>]) -> Result<Row<Row<u8>>, Memory>
    ensures { IfOk result (λ ns. ns ≡ names.now) }
{
    let mut copies = Row::new(alloc);
    let mut rest = names;
    while let [first, tail @ ..] = rest {
        copies.push(copied(alloc, first.as_slice())?)?;
        rest = tail;
    }
    Ok(copies)
}

/// Checks that a chain of policies lies in the profile: a `policy-statement` stands under each name, and no statement of
/// these, of the policies that their `policy` conditions lead to, or of what all of these name has a fault. What other
/// policies say is not looked at. There is at least one name; a name that is given twice stands at both places of the
/// chain. The tree is moved into the checked policy, and the names are copied.
///
/// - `NoPolicy`: the place, from 0, of the first name under which no `policy-statement` stands.
/// - `Outside`: the first statement in the text that has a fault, and the first of its causes: it spells no form
///   (`UnknownForm`); an earlier definition has its sort and name, or an earlier term of its policy its name
///   (`DefinedTwice`); it names a definition that isn't there (`Undefined`); its `from` has a `metric`,
///   `local-preference` or `origin` already, or its `then` a flow action (`SameKindTwice`); it sets or adds a community
///   whose members are not all single communities (`NotPlain`); it is the first to test the prefix in a second way
///   (`MixedPrefixTests`); its `from` has a route-filter of its prefix already (`SamePrefixTwice`); it tests the path
///   behind a term of the chain that puts numbers before it and goes on (`PathTestAfterPrepend`); it changes the route
///   (`SubroutineChanges`) or goes to the next policy (`NextPolicyInSubroutine`) in a policy that a condition calls; it
///   calls a policy that leads back to its own (`Cycle`); it would be the 129th call one in the other (`TooDeep`).
/// - `Memory`: an allocation was refused.
pub fn check_junos(
    alloc: Global,
    tree: JunosTree,
    names: &[Row<u8>],
) -> Result<CheckedJunos, CheckFault>
    requires { 0 < length names.now }
    // The tree and the names are the ones given.
    ensures value { IfOk result (λ p. p ≡ record { items = tree; names = names.now }) }
    // A chain is checked only in profile.
    ensures profile { IfOk result (λ p. InProfile names.now tree) }
    // What a fault says of the chain.
    ensures fault { IfErr result (IsCheckFault names.now tree) }
{
    if let Some(fault) = refusal(alloc, names, tree.items()) {
        return Err(fault);
    }
    let Ok(names) = copied_names(alloc, names) else {
        return Err(CheckFault::Memory);
    };
    Ok(CheckedJunos { tree, names })
}
