//! Which of two faults comes first.
ghost use Rattle.std.specs.Prelude.{◌≡◌, ◌<◌};
ghost use Rattle.rpl_reader.specs.Profile.{rank};
ghost use Rattle.rpl_reader.specs.Faults.{goes_first, earlier};

use policy_text::{Cause, Span};

/// A statement's span, and a cause that it has.
pub(crate) type Fault = (Span, Cause);

// The place of a cause in the table of causes.
fn rank(cause: Cause) -> u64
    ensures { result ≡ rank cause }
{
    match cause {
        Cause::UnknownForm => 0,
        Cause::DefinedTwice => 1,
        Cause::SequenceTwice => 2,
        Cause::Undefined => 3,
        Cause::SameKindTwice => 4,
        Cause::BackwardContinue => 5,
        Cause::DenyContinue => 6,
        Cause::UnsettledTest => 7,
        Cause::ExactExpanded => 8,
        Cause::NotPlain => 9,
        Cause::MixedPrefixTests => 10,
        Cause::SamePrefixTwice => 11,
        Cause::PathTestAfterPrepend => 12,
        Cause::SubroutineChanges => 13,
        Cause::NextPolicyInSubroutine => 14,
        Cause::Cycle => 15,
        Cause::TooDeep => 16,
        Cause::ArgumentCount => 17,
        Cause::BadArgument => 18,
    }
}

fn goes_first(first: Fault, second: Fault) -> bool
    ensures { result ≡ goes_first first second }
{
    let (first_span, first_cause) = first;
    let (second_span, second_cause) = second;
    first_span.start < second_span.start
        || first_span.start == second_span.start && rank(first_cause) <= rank(second_cause)
}

// Of two faults that may be there, the one that comes first.
pub(crate) fn earlier(first: Option<Fault>, second: Option<Fault>) -> Option<Fault>
    ensures { result ≡ earlier first second }
{
    let Some(one) = first else {
        return second;
    };
    let Some(other) = second else {
        return first;
    };
    if goes_first(one, other) {
        return first;
    }
    second
}
