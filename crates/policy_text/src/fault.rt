ghost use Rattle.std.specs.Prelude.{◌≡◌};
ghost use Rattle.policy_text.specs.CauseNames.{cause_name};

use text_words::Span;

/// Why a policy lies outside the profile. Where several stand at one statement, the first of this
/// order is named.
#[derive(Clone, Copy, Debug, PartialEq, Eq)]
pub enum Cause {
    /// A statement spells no form.
    UnknownForm,
    /// A name has a second definition of its sort.
    DefinedTwice,
    /// An entry has a number that an earlier one of its name has.
    SequenceTwice,
    /// A list, set, policy, parameter or entry is named that isn't there.
    Undefined,
    /// An entry or term has a second line of one form.
    SameKindTwice,
    /// `continue S` leads to no later entry.
    BackwardContinue,
    /// `continue` stands in a deny entry.
    DenyContinue,
    /// A test behind a `continue` reads what an entry before it sets.
    UnsettledTest,
    /// `exact-match` stands with an expanded list.
    ExactExpanded,
    /// Members that are set are not all single communities.
    NotPlain,
    /// A `from` tests the prefix in more than one way.
    MixedPrefixTests,
    /// Two route-filters of one `from` have one prefix.
    SamePrefixTwice,
    /// A path is tested behind a term that prepends and goes on.
    PathTestAfterPrepend,
    /// A policy that a condition calls changes the route.
    SubroutineChanges,
    /// `next policy` stands in a policy that a condition calls.
    NextPolicyInSubroutine,
    /// A policy leads back to itself.
    Cycle,
    /// Nesting goes beyond 128.
    TooDeep,
    /// An `apply` has not as many arguments as there are parameters.
    ArgumentCount,
    /// An argument does not fit where it is used.
    BadArgument,
}

/// The name of a cause as it is printed: lower case, with dashes between its words.
pub fn cause_name(cause: Cause) -> &'static str
    ensures { result.now ≡ cause_name cause }
{
    match cause {
        Cause::UnknownForm => "unknown-form",
        Cause::DefinedTwice => "defined-twice",
        Cause::SequenceTwice => "sequence-twice",
        Cause::Undefined => "undefined",
        Cause::SameKindTwice => "same-kind-twice",
        Cause::BackwardContinue => "backward-continue",
        Cause::DenyContinue => "deny-continue",
        Cause::UnsettledTest => "unsettled-test",
        Cause::ExactExpanded => "exact-expanded",
        Cause::NotPlain => "not-plain",
        Cause::MixedPrefixTests => "mixed-prefix-tests",
        Cause::SamePrefixTwice => "same-prefix-twice",
        Cause::PathTestAfterPrepend => "path-test-after-prepend",
        Cause::SubroutineChanges => "subroutine-changes",
        Cause::NextPolicyInSubroutine => "next-policy-in-subroutine",
        Cause::Cycle => "cycle",
        Cause::TooDeep => "too-deep",
        Cause::ArgumentCount => "argument-count",
        Cause::BadArgument => "bad-argument",
    }
}

/// Why a policy could not be checked.
#[derive(Clone, Copy, Debug, PartialEq, Eq)]
pub enum CheckFault {
    /// The name at this place, from 0, of the names given stands for no policy.
    NoPolicy { place: usize },
    /// A statement of a reached item lies outside the profile.
    Outside { span: Span, cause: Cause },
    /// Want of memory.
    Memory,
}
