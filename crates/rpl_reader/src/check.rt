ghost use Rattle.std.specs.Prelude.{◌≡◌, ◌∷◌, [], IfOk, IfErr, MatchOption};
ghost use Rattle.rpl_reader.specs.Profile.{is_defined, InProfile, IsSound, IsFirstFault, IsCheckFault};

use crate::checked::CheckedRpl;
use crate::faults::Fault;
use crate::given::{earliest_given, earliest_setting};
use crate::items::earliest_item;
use crate::known::known_of;
use crate::possible::possible_of;
use policy_text::{CheckFault, copied, has_name};
use route_types::Memory;
use rpl_calls::{Arguments, demands, said_by};
use rpl_facts::{blocks_of, kind_code};
use rpl_forms::{BlockKind, RplItem};
use rpl_tree::RplTree;
use std::alloc::Global;

// The first fault of the policy of this name.
fn first_fault<'a>(
    alloc: Global,
    name: &'a [u8],
    items: &'a [RplItem],
) -> Result<Option<Fault>, Memory>
    ensures { IfOk result (λ o. MatchOption o (IsSound name.now items.now) (λ f. IsFirstFault name.now items.now f.0 f.1)) }
{
    let said = said_by(alloc, items)?;
    let calls = said.calls.as_slice();
    let arguments = Arguments::of(alloc, calls)?;
    let asks = said.asks.as_slice();
    let set = demands(alloc, &arguments, asks)?;
    let asked = set.as_slice();
    let known = known_of(alloc, name, items, calls, &arguments, asked)?;
    let possible = possible_of(alloc, &known, &arguments)?;
    let given = earliest_given(&known, &possible, &arguments, asked);
    let settings = said.settings.as_slice();
    let other = earliest_setting(&possible, given, settings);
    let fault = earliest_item(alloc, &known, other, items)?;
    Ok(fault)
}

// Whether a policy stands under the name.
#[tactic(auto, unfolding(crate::specs::Profile::is_defined))]
fn is_defined<'a>(alloc: Global, name: &'a [u8], items: &'a [RplItem]) -> Result<bool, Memory>
    ensures { IfOk result (λ b. b ≡ is_defined name.now items.now) }
{
    let blocks = blocks_of(alloc, items)?;
    Ok(has_name(&blocks, name, kind_code(BlockKind::Policy), 0))
}

// Why the policy of this name lies outside the profile, if it does.
fn refusal(alloc: Global, name: &[u8], items: &[RplItem]) -> Option<CheckFault>
    ensures { MatchOption result (InProfile name.now items.now) (IsCheckFault name.now items.now) }
{
    match is_defined(alloc, name, items) {
        Ok(true) => (),
        Ok(false) => return Some(CheckFault::NoPolicy { place: 0 }),
        Err(_) => return Some(CheckFault::Memory),
    }
    match first_fault(alloc, name, items) {
        Ok(None) => None,
        Ok(Some((span, cause))) => Some(CheckFault::Outside { span, cause }),
        Err(_) => Some(CheckFault::Memory),
    }
}

/// Checks that a policy lies in the profile: a `route-policy` stands under the name, and no statement of it, of the
/// policies that its `apply` statements lead to, or of the sets that all of these name or are handed has a fault. What
/// other blocks say is not looked at. The tree is moved into the checked policy, and the name is copied.
///
/// - `NoPolicy`: no `route-policy` stands under the name; the place is 0.
/// - `Outside`: the first statement in the text that has a fault, and the first of its causes: it spells no form
///   (`UnknownForm`); an earlier block has its kind and name, or a parameter its name twice (`DefinedTwice`); it names a
///   set, a policy or a parameter that isn't there (`Undefined`); it sets communities of which one element isn't a single
///   community (`NotPlain`); it applies a policy that leads back to its own (`Cycle`); it is an `if`, has a parenthesis,
///   or would be a call, beyond nesting 128 (`TooDeep`); it applies a policy with another number of parameters, or it is
///   the first line of the policy of the name and gives it parameters (`ArgumentCount`); an argument that it writes is
///   neither a number in range nor the name of a set that is there, where it is used (`BadArgument`).
/// - `Memory`: an allocation was refused.
pub fn check_rpl(alloc: Global, tree: RplTree, name: &[u8]) -> Result<CheckedRpl, CheckFault>
    // The tree and the name are the ones given.
    ensures value { IfOk result (λ p. p ≡ record { items = tree; names = name.now ∷ [] }) }
    // A policy is checked only in profile.
    ensures profile { IfOk result (λ p. InProfile name.now tree) }
    // What a fault says of the policy.
    ensures fault { IfErr result (IsCheckFault name.now tree) }
{
    if let Some(fault) = refusal(alloc, name, tree.items()) {
        return Err(fault);
    }
    let Ok(name) = copied(alloc, name) else {
        return Err(CheckFault::Memory);
    };
    Ok(CheckedRpl { tree, name })
}
