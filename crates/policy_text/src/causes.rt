//! The table of the causes, and the first of those that hold.
ghost use Rattle.std.specs.Prelude.{◌≡◌, Bool};
ghost use Rattle.policy_text.specs.Causes.{first_cause};
ghost use Rattle.policy_text.specs.declared.fault.Cause.{Cause as SpecCause};

use crate::fault::Cause;

const CAUSES: [Cause; 19] = [
    Cause::UnknownForm,
    Cause::DefinedTwice,
    Cause::SequenceTwice,
    Cause::Undefined,
    Cause::SameKindTwice,
    Cause::BackwardContinue,
    Cause::DenyContinue,
    Cause::UnsettledTest,
    Cause::ExactExpanded,
    Cause::NotPlain,
    Cause::MixedPrefixTests,
    Cause::SamePrefixTwice,
    Cause::PathTestAfterPrepend,
    Cause::SubroutineChanges,
    Cause::NextPolicyInSubroutine,
    Cause::Cycle,
    Cause::TooDeep,
    Cause::ArgumentCount,
    Cause::BadArgument,
];

/// The rules of a language at one item, with what is known of the whole tree and of the items before it.
pub trait Rules {
    ghost holds: { Self → SpecCause → Bool };

    /// Whether this cause holds at the item. It takes no memory.
    fn holds(&self, cause: Cause) -> bool
        ensures { result ≡ holds self.now cause };
}

/// The first cause that holds, in the order of the table. It takes no memory.
#[tactic(auto, unfolding(crate::specs::Causes::first_cause))]
pub fn first_cause<R: Rules>(rules: &R) -> Option<Cause>
    ensures { result ≡ first_cause (R.holds rules.now) }
{
    CAUSES.iter().copied().find(|cause| rules.holds(*cause))
}
