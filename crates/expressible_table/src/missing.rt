//! The first construct that a language can't say.

ghost use Rattle.std.specs.Prelude.{◌≡◌, IfOk};
ghost use Rattle.expressible_table.specs.Constructs.{constructs_of};
ghost use Rattle.expressible_table.specs.Missing.{LacksFirst, first_missing};

use crate::construct::Construct;
use crate::kind::{Dialect, grants};
use crate::listing::constructs;
use crate::policy::Policy;
use route_types::Memory;
use std::alloc::Global;

#[tactic(auto, unfolding(crate::specs::Missing::first_missing))]
fn first_among(found: &[Construct], target: Dialect) -> Option<Construct>
    ensures { result ≡ first_missing target found.now }
{
    let mut rest = found;
    while let [first, behind @ ..] = rest {
        if !grants(first.kind, target) {
            return Some(*first);
        }
        rest = behind;
    }
    None
}

/// The first construct of a policy that a text of the language can't say, in text order, and none exactly where each is
/// granted. The one error is want of memory. The time is near-linear in the statements of the text.
#[tactic(auto, using(crate::proofs::FirstMissing::lacks_first))]
pub fn first_missing(
    alloc: Global,
    policy: &Policy,
    target: Dialect,
) -> Result<Option<Construct>, Memory>
    // Each construct is granted, or it is the first one that isn't.
    ensures found { IfOk result (LacksFirst target (constructs_of policy.now)) }
    ensures exact { IfOk result (λ o. o ≡ first_missing target (constructs_of policy.now)) }
{
    let found = constructs(alloc, policy)?;
    Ok(first_among(found.as_slice(), target))
}
