//! What the statements of a policy use: sets by their names, and parameters.
ghost use Rattle.std.specs.Prelude.{◌≡◌, ◌++◌, OnOk};
ghost use Rattle.std.specs.List.{flat_map};
ghost use Rattle.rpl_calls.specs.declared.ask.SetSort.TheVariants.{Prefix};
ghost use Rattle.rpl_calls.specs.declared.ask.SetSort.TheVariants.{Path as PathSort};
ghost use Rattle.rpl_facts.specs.Uses.{of_number, of_prefix, of_path_test, of_path, of_set, of_communities, of_test, of_term, of_action, of_argument, uses_of};
ghost use Rattle.rpl_facts.specs.Used.{uses_in};

use route_types::{Memory, Rect, Row};
use rpl_calls::SetSort;
use rpl_forms::{
    Action, Argument, PathElement, PathTest, PolicyStatement, PrefixElement, RplForm, RplNumber,
    RplSet, RplTest, Term,
};

/// What a statement uses: a set of a sort, by its name, or a parameter, without its `$`.
#[derive(Clone, Copy)]
pub enum Used<'a> {
    Set(SetSort, &'a [u8]),
    Parameter(&'a [u8]),
}

fn push_number<'a, N>(row: &mut Row<Used<'a>>, number: &'a RplNumber<N>) -> Result<(), Memory>
    ensures { OnOk result (uses_in row.new ≡ uses_in row.old ++ of_number number.now) }
{
    match number {
        RplNumber::Fixed(_) => Ok(()),
        RplNumber::Parameter(name) => row.push(Used::Parameter(name.as_slice())),
    }
}

fn push_prefix<'a>(row: &mut Row<Used<'a>>, element: &'a PrefixElement) -> Result<(), Memory>
    ensures { OnOk result (uses_in row.new ≡ uses_in row.old ++ of_prefix element.now) }
{
    push_number(row, &element.least)?;
    push_number(row, &element.most)
}

fn push_path_test<'a>(row: &mut Row<Used<'a>>, test: &'a PathTest) -> Result<(), Memory>
    ensures { OnOk result (uses_in row.new ≡ uses_in row.old ++ of_path_test test.now) }
{
    match test {
        PathTest::Length(test) => push_number(row, &test.length),
        PathTest::PassesThrough(number) => push_number(row, number),
        PathTest::OriginatesFrom(number) => push_number(row, number),
        PathTest::NeighborIs(number) => push_number(row, number),
    }
}

fn push_path<'a>(row: &mut Row<Used<'a>>, element: &'a PathElement) -> Result<(), Memory>
    ensures { OnOk result (uses_in row.new ≡ uses_in row.old ++ of_path element.now) }
{
    match element {
        PathElement::Pattern(_) => Ok(()),
        PathElement::Test(test) => push_path_test(row, test),
    }
}

fn push_prefixes<'a>(row: &mut Row<Used<'a>>, elements: &'a [PrefixElement]) -> Result<(), Memory>
    ensures { OnOk result (uses_in row.new ≡ uses_in row.old ++ flat_map of_prefix elements.now) }
{
    let mut rest = elements;
    while let [first, tail @ ..] = rest {
        push_prefix(row, first)?;
        rest = tail;
    }
    Ok(())
}

fn push_paths<'a>(row: &mut Row<Used<'a>>, elements: &'a [PathElement]) -> Result<(), Memory>
    ensures { OnOk result (uses_in row.new ≡ uses_in row.old ++ flat_map of_path elements.now) }
{
    let mut rest = elements;
    while let [first, tail @ ..] = rest {
        push_path(row, first)?;
        rest = tail;
    }
    Ok(())
}

fn push_prefix_set<'a>(
    row: &mut Row<Used<'a>>,
    set: &'a RplSet<PrefixElement>,
) -> Result<(), Memory>
    ensures { OnOk result (uses_in row.new ≡ uses_in row.old ++ of_set Prefix of_prefix set.now) }
{
    match set {
        RplSet::Named(name) => row.push(Used::Set(SetSort::Prefix, name.as_slice())),
        RplSet::Parameter(name) => row.push(Used::Parameter(name.as_slice())),
        RplSet::Listed(elements) => push_prefixes(row, elements.as_slice()),
    }
}

fn push_path_set<'a>(row: &mut Row<Used<'a>>, set: &'a RplSet<PathElement>) -> Result<(), Memory>
    ensures { OnOk result (uses_in row.new ≡ uses_in row.old ++ of_set PathSort of_path set.now) }
{
    match set {
        RplSet::Named(name) => row.push(Used::Set(SetSort::Path, name.as_slice())),
        RplSet::Parameter(name) => row.push(Used::Parameter(name.as_slice())),
        RplSet::Listed(elements) => push_paths(row, elements.as_slice()),
    }
}

fn push_communities<'a>(row: &mut Row<Used<'a>>, set: &'a RplSet<Rect>) -> Result<(), Memory>
    ensures { OnOk result (uses_in row.new ≡ uses_in row.old ++ of_communities set.now) }
{
    match set {
        RplSet::Named(name) => row.push(Used::Set(SetSort::Community, name.as_slice())),
        RplSet::Parameter(name) => row.push(Used::Parameter(name.as_slice())),
        RplSet::Listed(_) => Ok(()),
    }
}

fn push_test<'a>(row: &mut Row<Used<'a>>, test: &'a RplTest) -> Result<(), Memory>
    ensures { OnOk result (uses_in row.new ≡ uses_in row.old ++ of_test test.now) }
{
    match test {
        RplTest::Destination(set) => push_prefix_set(row, set),
        RplTest::NextHop(set) => push_prefix_set(row, set),
        RplTest::PathIn(set) => push_path_set(row, set),
        RplTest::Path(test) => push_path_test(row, test),
        RplTest::MatchesAny(set) => push_communities(row, set),
        RplTest::MatchesEvery(set) => push_communities(row, set),
        RplTest::Med(test) => push_number(row, &test.med),
        _ => Ok(()),
    }
}

fn push_terms<'a>(row: &mut Row<Used<'a>>, terms: &'a [Term]) -> Result<(), Memory>
    ensures { OnOk result (uses_in row.new ≡ uses_in row.old ++ flat_map of_term terms.now) }
{
    let mut rest = terms;
    while let [first, tail @ ..] = rest {
        if let Term::Test(test) = first {
            push_test(row, test)?;
        }
        rest = tail;
    }
    Ok(())
}

fn push_action<'a>(row: &mut Row<Used<'a>>, action: &'a Action) -> Result<(), Memory>
    ensures { OnOk result (uses_in row.new ≡ uses_in row.old ++ of_action action.now) }
{
    match action {
        Action::SetMed(number) => push_number(row, number),
        Action::SetLocalPreference(number) => push_number(row, number),
        Action::SetWeight(number) => push_number(row, number),
        Action::SetCommunity(setting) => push_communities(row, &setting.set),
        Action::DeleteCommunity(set) => push_communities(row, set),
        Action::Prepend(prepend) => {
            push_number(row, &prepend.number)?;
            push_number(row, &prepend.count)
        }
        _ => Ok(()),
    }
}

fn push_arguments<'a>(row: &mut Row<Used<'a>>, arguments: &'a [Argument]) -> Result<(), Memory>
    ensures { OnOk result (uses_in row.new ≡ uses_in row.old ++ flat_map of_argument arguments.now) }
{
    let mut rest = arguments;
    while let [first, tail @ ..] = rest {
        if let Argument::Parameter(name) = first {
            row.push(Used::Parameter(name.as_slice()))?;
        }
        rest = tail;
    }
    Ok(())
}

/// Puts what a form uses behind what is in the row. Its one error is want of memory.
#[tactic(auto, unfolding(crate::specs::Uses::uses_of))]
pub fn push_uses<'a>(row: &mut Row<Used<'a>>, form: &'a RplForm) -> Result<(), Memory>
    ensures { OnOk result (uses_in row.new ≡ uses_in row.old ++ uses_of form.now) }
{
    match form {
        RplForm::Statement(PolicyStatement::If(terms)) => push_terms(row, terms.as_slice()),
        RplForm::Statement(PolicyStatement::ElseIf(terms)) => push_terms(row, terms.as_slice()),
        RplForm::Statement(PolicyStatement::Act(action)) => push_action(row, action),
        RplForm::Statement(PolicyStatement::Apply(apply)) => {
            push_arguments(row, apply.arguments.as_slice())
        }
        _ => Ok(()),
    }
}
