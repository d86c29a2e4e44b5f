// How guards are said: by a subroutine of their literals, or by lists that they call.
ghost use Rattle.std.specs.Prelude.{◌≡◌};
ghost use Rattle.junos_policies.specs.Parts.{is_by_lists, needs_guard, test_lists, wanted_lists, guard_lists, unwanted_lists};

use junos_plans::{PlannedList, PlannedLiteral, PlannedTest};

fn is_by_lists(literal: &PlannedLiteral) -> bool
    ensures { result ≡ is_by_lists literal.now.test literal.now.wanted }
{
    match &literal.test {
        PlannedTest::Asked(_) => false,
        PlannedTest::Listed(_) => literal.wanted,
    }
}

/// Whether a subroutine says the literals.
pub(crate) fn needs_guard(literals: &[PlannedLiteral]) -> bool
    ensures { result ≡ needs_guard literals.now }
{
    match literals {
        [] => false,
        [literal] => !is_by_lists(literal),
        [_, _, ..] => true,
    }
}

/// The lists of a test, if it is one of lists.
pub(crate) fn test_lists(test: &PlannedTest) -> &[PlannedList]
    ensures { result.now ≡ test_lists test.now }
{
    match test {
        PlannedTest::Asked(_) => &[],
        PlannedTest::Listed(lists) => lists.as_slice(),
    }
}

fn wanted_lists(literal: &PlannedLiteral) -> &[PlannedList]
    ensures { result.now ≡ wanted_lists literal.now }
{
    if literal.wanted {
        return test_lists(&literal.test);
    }
    &[]
}

/// The lists of a literal that isn't wanted.
pub(crate) fn unwanted_lists(literal: &PlannedLiteral) -> &[PlannedList]
    ensures { result.now ≡ unwanted_lists literal.now }
{
    if literal.wanted {
        return &[];
    }
    test_lists(&literal.test)
}

/// The lists that a guard of these literals calls itself.
pub(crate) fn guard_lists(literals: &[PlannedLiteral]) -> &[PlannedList]
    ensures { result.now ≡ guard_lists literals.now }
{
    match literals {
        [] => &[],
        [literal] => wanted_lists(literal),
        [_, _, ..] => &[],
    }
}
