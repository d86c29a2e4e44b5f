//! What a policy of any language makes of a route.
ghost use Rattle.std.specs.Prelude.{◌≡◌, IfOk};
ghost use Rattle.policy_sources.specs.Source.{meaning};
ghost use Rattle.policy_sources.specs.Loading.{policy_of};

use crate::loads::LoadedPolicy;
use ios_meaning::judge_ios;
use junos_meaning::judge_junos;
use route_types::{Memory, Outcome, Route};
use rpl_meaning::judge_rpl;
use std::alloc::Global;

/// What a loaded policy makes of a route, by the meaning of its language. The one error is want of memory.
pub fn outcome_of(alloc: Global, policy: &LoadedPolicy, route: &Route) -> Result<Outcome, Memory>
    ensures { IfOk result (λ o. o ≡ meaning (policy_of policy.now) route.now) }
{
    match policy {
        LoadedPolicy::Ios(checked) => judge_ios(alloc, checked, route),
        LoadedPolicy::Junos(checked) => judge_junos(alloc, checked, route),
        LoadedPolicy::Rpl(checked) => judge_rpl(alloc, checked, route),
    }
}
