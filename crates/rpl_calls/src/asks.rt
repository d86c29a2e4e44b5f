//! What the statements of a policy ask of what is handed to it.
ghost use Rattle.std.specs.Prelude.{◌≡◌, ◌++◌, OnOk, List, []};
ghost use Rattle.std.specs.List.{flat_map};
ghost use Rattle.name_maps.specs.Under.{under};
ghost use Rattle.rpl_calls.specs.declared.ask.Question.TheVariants.{Set};
ghost use Rattle.rpl_calls.specs.declared.ask.SetSort.TheVariants.{Prefix};
ghost use Rattle.rpl_calls.specs.declared.ask.SetSort.TheVariants.{Path as PathSort};
ghost use Rattle.rpl_calls.specs.Asks.{of_parameter, number_asks, wide_asks, rising_asks, bounds_asks, prefix_asks, path_test_asks, path_asks, set_asks, community_asks, test_asks, term_asks, action_asks, form_asks};

use crate::ask::{Ask, NumberRange, Question, SetSort};
use name_maps::NameMap;
use route_types::{Memory, Rect, Row};
use rpl_forms::{
    Action, PathElement, PathTest, PolicyStatement, PrefixElement, RplForm, RplNumber, RplSet,
    RplTest, Term,
};

fn push_question<'a>(
    asks: &mut Row<Ask>,
    places: &NameMap<'a, usize>,
    name: &'a [u8],
    question: Question,
) -> Result<(), Memory>
    ensures { OnOk result (asks.new ≡ asks.old ++ of_parameter (under places.now.entries) name.now question) }
{
    match places.get(name) {
        None => Ok(()),
        Some(place) => asks.push(Ask { place, question }),
    }
}

fn push_number<'a, N>(
    asks: &mut Row<Ask>,
    places: &NameMap<'a, usize>,
    least: u64,
    most: u64,
    number: &'a RplNumber<N>,
) -> Result<(), Memory>
    ensures { OnOk result (asks.new ≡ asks.old ++ number_asks (under places.now.entries) least most number.now) }
{
    match number {
        RplNumber::Fixed(_) => Ok(()),
        RplNumber::Parameter(name) => {
            let question = Question::Number(NumberRange { least, most });
            push_question(asks, places, name.as_slice(), question)
        }
    }
}

fn push_wide<'a>(
    asks: &mut Row<Ask>,
    places: &NameMap<'a, usize>,
    number: &'a RplNumber<u32>,
) -> Result<(), Memory>
    ensures { OnOk result (asks.new ≡ asks.old ++ wide_asks (under places.now.entries) number.now) }
{
    push_number(asks, places, 0, 4294967295, number)
}

fn push_rising<'a>(
    asks: &mut Row<Ask>,
    places: &NameMap<'a, usize>,
    low: &'a [u8],
    high: &'a [u8],
) -> Result<(), Memory>
    ensures { OnOk result (asks.new ≡ asks.old ++ rising_asks (under places.now.entries) low.now high.now) }
{
    match places.get(low) {
        None => Ok(()),
        Some(place) => push_question(asks, places, high, Question::NotBelow(place)),
    }
}

fn push_bounds<'a>(
    asks: &mut Row<Ask>,
    places: &NameMap<'a, usize>,
    low: &'a RplNumber<u8>,
    high: &'a RplNumber<u8>,
) -> Result<(), Memory>
    ensures { OnOk result (asks.new ≡ asks.old ++ bounds_asks (under places.now.entries) low.now high.now) }
{
    match (low, high) {
        (RplNumber::Fixed(least), _) => push_number(asks, places, *least as u64, 32, high),
        (_, RplNumber::Fixed(most)) => push_number(asks, places, 0, *most as u64, low),
        (RplNumber::Parameter(low), RplNumber::Parameter(high)) => {
            push_rising(asks, places, low.as_slice(), high.as_slice())
        }
    }
}

fn push_prefix<'a>(
    asks: &mut Row<Ask>,
    places: &NameMap<'a, usize>,
    element: &'a PrefixElement,
) -> Result<(), Memory>
    ensures { OnOk result (asks.new ≡ asks.old ++ prefix_asks (under places.now.entries) element.now) }
{
    let length = element.prefix.length() as u64;
    push_number(asks, places, length, 32, &element.least)?;
    push_number(asks, places, length, 32, &element.most)?;
    push_bounds(asks, places, &element.least, &element.most)
}

fn push_path_test<'a>(
    asks: &mut Row<Ask>,
    places: &NameMap<'a, usize>,
    test: &'a PathTest,
) -> Result<(), Memory>
    ensures { OnOk result (asks.new ≡ asks.old ++ path_test_asks (under places.now.entries) test.now) }
{
    match test {
        PathTest::Length(test) => push_number(asks, places, 0, 2047, &test.length),
        PathTest::PassesThrough(number) => push_wide(asks, places, number),
        PathTest::OriginatesFrom(number) => push_wide(asks, places, number),
        PathTest::NeighborIs(number) => push_wide(asks, places, number),
    }
}

fn push_path<'a>(
    asks: &mut Row<Ask>,
    places: &NameMap<'a, usize>,
    element: &'a PathElement,
) -> Result<(), Memory>
    ensures { OnOk result (asks.new ≡ asks.old ++ path_asks (under places.now.entries) element.now) }
{
    match element {
        PathElement::Pattern(_) => Ok(()),
        PathElement::Test(test) => push_path_test(asks, places, test),
    }
}

fn push_prefixes<'a>(
    asks: &mut Row<Ask>,
    places: &NameMap<'a, usize>,
    elements: &'a [PrefixElement],
) -> Result<(), Memory>
    ensures { OnOk result (asks.new ≡ asks.old ++ flat_map (prefix_asks (under places.now.entries)) elements.now) }
{
    let mut rest = elements;
    while let [first, tail @ ..] = rest {
        push_prefix(asks, places, first)?;
        rest = tail;
    }
    Ok(())
}

fn push_paths<'a>(
    asks: &mut Row<Ask>,
    places: &NameMap<'a, usize>,
    elements: &'a [PathElement],
) -> Result<(), Memory>
    ensures { OnOk result (asks.new ≡ asks.old ++ flat_map (path_asks (under places.now.entries)) elements.now) }
{
    let mut rest = elements;
    while let [first, tail @ ..] = rest {
        push_path(asks, places, first)?;
        rest = tail;
    }
    Ok(())
}

fn push_prefix_set<'a>(
    asks: &mut Row<Ask>,
    places: &NameMap<'a, usize>,
    set: &'a RplSet<PrefixElement>,
) -> Result<(), Memory>
    ensures { OnOk result (asks.new ≡ asks.old ++ set_asks (under places.now.entries) Prefix (prefix_asks (under places.now.entries)) set.now) }
{
    match set {
        RplSet::Named(_) => Ok(()),
        RplSet::Parameter(name) => push_question(
            asks,
            places,
            name.as_slice(),
            Question::Set(SetSort::Prefix),
        ),
        RplSet::Listed(elements) => push_prefixes(asks, places, elements.as_slice()),
    }
}

fn push_path_set<'a>(
    asks: &mut Row<Ask>,
    places: &NameMap<'a, usize>,
    set: &'a RplSet<PathElement>,
) -> Result<(), Memory>
    ensures { OnOk result (asks.new ≡ asks.old ++ set_asks (under places.now.entries) PathSort (path_asks (under places.now.entries)) set.now) }
{
    match set {
        RplSet::Named(_) => Ok(()),
        RplSet::Parameter(name) => push_question(
            asks,
            places,
            name.as_slice(),
            Question::Set(SetSort::Path),
        ),
        RplSet::Listed(elements) => push_paths(asks, places, elements.as_slice()),
    }
}

fn push_community_set<'a>(
    asks: &mut Row<Ask>,
    places: &NameMap<'a, usize>,
    set: &'a RplSet<Rect>,
) -> Result<(), Memory>
    ensures { OnOk result (asks.new ≡ asks.old ++ community_asks (under places.now.entries) set.now) }
{
    match set {
        RplSet::Named(_) => Ok(()),
        RplSet::Parameter(name) => {
            push_question(
                asks,
                places,
                name.as_slice(),
                Question::Set(SetSort::Community),
            )
        }
        RplSet::Listed(_) => Ok(()),
    }
}

fn push_test<'a>(
    asks: &mut Row<Ask>,
    places: &NameMap<'a, usize>,
    test: &'a RplTest,
) -> Result<(), Memory>
    ensures { OnOk result (asks.new ≡ asks.old ++ test_asks (under places.now.entries) test.now) }
{
    match test {
        RplTest::Destination(set) => push_prefix_set(asks, places, set),
        RplTest::NextHop(set) => push_prefix_set(asks, places, set),
        RplTest::PathIn(set) => push_path_set(asks, places, set),
        RplTest::Path(test) => push_path_test(asks, places, test),
        RplTest::MatchesAny(set) => push_community_set(asks, places, set),
        RplTest::MatchesEvery(set) => push_community_set(asks, places, set),
        RplTest::Med(test) => push_wide(asks, places, &test.med),
        _ => Ok(()),
    }
}

fn push_terms<'a>(
    asks: &mut Row<Ask>,
    places: &NameMap<'a, usize>,
    terms: &'a [Term],
) -> Result<(), Memory>
    ensures { OnOk result (asks.new ≡ asks.old ++ flat_map (term_asks (under places.now.entries)) terms.now) }
{
    let mut rest = terms;
    while let [first, tail @ ..] = rest {
        if let Term::Test(test) = first {
            push_test(asks, places, test)?;
        }
        rest = tail;
    }
    Ok(())
}

fn push_action<'a>(
    asks: &mut Row<Ask>,
    places: &NameMap<'a, usize>,
    action: &'a Action,
) -> Result<(), Memory>
    ensures { OnOk result (asks.new ≡ asks.old ++ action_asks (under places.now.entries) action.now) }
{
    match action {
        Action::SetMed(number) => push_wide(asks, places, number),
        Action::SetLocalPreference(number) => push_wide(asks, places, number),
        Action::SetWeight(number) => push_number(asks, places, 0, 65535, number),
        Action::SetCommunity(setting) => push_community_set(asks, places, &setting.set),
        Action::DeleteCommunity(set) => push_community_set(asks, places, set),
        Action::Prepend(prepend) => {
            push_wide(asks, places, &prepend.number)?;
            push_number(asks, places, 1, 63, &prepend.count)
        }
        _ => Ok(()),
    }
}

// Puts what a form asks behind what is in the row.
#[tactic(auto, unfolding(crate::specs::Asks::form_asks))]
pub(crate) fn push_asks<'a>(
    asks: &mut Row<Ask>,
    places: &NameMap<'a, usize>,
    form: &'a RplForm,
) -> Result<(), Memory>
    ensures { OnOk result (asks.new ≡ asks.old ++ form_asks (under places.now.entries) form.now) }
{
    match form {
        RplForm::Statement(PolicyStatement::If(terms)) => push_terms(
            asks,
            places,
            terms.as_slice(),
        ),
        RplForm::Statement(PolicyStatement::ElseIf(terms)) => {
            push_terms(asks, places, terms.as_slice())
        }
        RplForm::Statement(PolicyStatement::Act(action)) => push_action(asks, places, action),
        _ => Ok(()),
    }
}
