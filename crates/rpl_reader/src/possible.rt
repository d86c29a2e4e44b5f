//! What the parameters of policies may be, by what is written in the policies that are reached.
ghost use Rattle.std.specs.Prelude.{◌≡◌, ◌++◌, ◌||◌, ◌≤◌, [], ◌∷◌, ℕ, List, Option, Some, None, IfOk, OnOk, map, option_map, length};
ghost use Rattle.std.specs.List.{list_any};
ghost use Rattle.policy_text.specs.NameSets.{has_name};
ghost use Rattle.route_types.specs.Words.{number_in};
ghost use Rattle.step_search.specs.Found.{IsIn, IsFound};
ghost use Rattle.rpl_calls.specs.Givens.{next_givens};
ghost use Rattle.rpl_calls.specs.Listed.{handing_parts, handings_in};
ghost use Rattle.rpl_calls.specs.Table.{parameter_parts};
ghost use Rattle.rpl_calls.specs.declared.given.Fact.{Fact as SpecFact};
ghost use Rattle.rpl_calls.specs.declared.given.Given.{Given as SpecGiven};
ghost use Rattle.rpl_reader.specs.Givens.{wide_fact, length_fact, word_facts, written_facts, argument_facts, first_givens};
ghost use Rattle.rpl_reader.specs.Known.{known_facts, known_policy};
ghost use Rattle.rpl_reader.specs.Possible.{known_may, fact_wide, fact_length, gives_wide, gives_length, HoldsGivens, Finds};

use crate::known::{Known, is_reached_policy};
use policy_text::{NameSet, add_name, has_name, read_number};
use route_types::{Memory, Row};
use rpl_calls::{Arguments, Fact, Given, Handing, Parameter, givens, target, word_at};
use std::alloc::Global;
use std::collections::BTreeSet;

/// The parameters that may be a set that isn't plain, each by the name of its policy and its place, and those
/// that may be a number, with the number.
#[derive(Drop)]
pub(crate) struct Possible<'a> {
    pub(crate) wide: NameSet<'a>,
    pub(crate) lengths: NameSet<'a>,
}

// Whether a parameter may be this.
pub(crate) fn may_be<'a>(possible: &Possible<'a>, parameter: Parameter<'a>, fact: Fact) -> bool
    ensures { result ≡ known_may possible.now (parameter_parts parameter.entry) fact }
{
    let place = parameter.place as u64;
    match fact {
        Fact::Wide => has_name(&possible.wide, parameter.policy, place, 0),
        Fact::Length(number) => has_name(&possible.lengths, parameter.policy, place, number),
    }
}

// ---- what is written

fn push_wide(row: &mut Row<Fact>, wide: bool) -> Result<(), Memory>
    ensures { OnOk result (row.new ≡ row.old ++ wide_fact wide) }
{
    if wide {
        return row.push(Fact::Wide);
    }
    Ok(())
}

fn push_length(row: &mut Row<Fact>, number: Option<u64>) -> Result<(), Memory>
    ensures { OnOk result (row.new ≡ row.old ++ length_fact number) }
{
    match number {
        None => Ok(()),
        Some(number) => row.push(Fact::Length(number)),
    }
}

fn word_facts<'a>(
    alloc: Global,
    known: &Known<'a>,
    word: Option<&'a [u8]>,
) -> Result<Row<Fact>, Memory>
    ensures { IfOk result (λ row. row ≡ written_facts (known_facts known.now) (option_map (λ w. w.now) word.entry)) }
{
    let mut row = Row::new(alloc);
    let Some(word) = word else {
        return Ok(row);
    };
    push_wide(&mut row, has_name(&known.wide, word, 0, 0))?;
    push_length(&mut row, read_number(word, 32))?;
    Ok(row)
}

// What an argument is that is written in a policy that is reached.
fn argument_facts<'a>(
    alloc: Global,
    known: &Known<'a>,
    argument: Handing<'_, 'a>,
) -> Result<Row<Fact>, Memory>
    ensures { IfOk result (λ row. row ≡ argument_facts (known_facts known.now) (known_policy known.now) (handing_parts argument.entry)) }
{
    let call = argument.call;
    if is_reached_policy(known, call.caller) {
        return word_facts(alloc, known, word_at(call, argument.place));
    }
    Ok(Row::new(alloc))
}

// Adds these of an argument.
fn push_facts(row: &mut Row<Given>, argument: usize, facts: &[Fact]) -> Result<(), Memory>
    ensures { OnOk result (row.new ≡ row.old ++ map (λ f. record { argument = argument; fact = f }) facts.now) }
{
    let mut rest = facts;
    while let [first, tail @ ..] = rest {
        row.push(Given {
            argument,
            fact: *first,
        })?;
        rest = tail;
    }
    Ok(())
}

// What arguments are that are written in policies that are reached.
#[tactic(auto, unfolding(crate::specs::Givens::first_givens))]
fn first_givens<'a>(
    alloc: Global,
    known: &Known<'a>,
    arguments: &[Handing<'_, 'a>],
) -> Result<Row<Given>, Memory>
    ensures { IfOk result (λ row. row ≡ first_givens (known_facts known.now) (known_policy known.now) 0 (handings_in arguments.now)) }
{
    let mut row = Row::new(alloc);
    let mut place = 0;
    let mut rest = arguments;
    while let [first, tail @ ..] = rest {
        let facts = argument_facts(alloc, known, *first)?;
        push_facts(&mut row, place, facts.as_slice())?;
        place += 1;
        rest = tail;
    }
    Ok(row)
}

// ---- what may be

// Notes what an argument may be for the parameter that it is handed to.
fn note_fact<'a>(
    possible: &mut Possible<'a>,
    parameter: Parameter<'a>,
    fact: Fact,
) -> Result<(), Memory>
    ensures wide { OnOk result ((q : List ℕ) (s n : ℕ) → has_name possible.new.wide q s n ≡ (fact_wide q s n (parameter_parts parameter.entry) fact || has_name possible.old.wide q s n)) }
    ensures lengths { OnOk result ((q : List ℕ) (s n : ℕ) → has_name possible.new.lengths q s n ≡ (fact_length q s n (parameter_parts parameter.entry) fact || has_name possible.old.lengths q s n)) }
{
    let place = parameter.place as u64;
    match fact {
        Fact::Wide => add_name(&mut possible.wide, parameter.policy, place, 0),
        Fact::Length(number) => add_name(&mut possible.lengths, parameter.policy, place, number),
    }
}

fn note_given<'a>(
    possible: &mut Possible<'a>,
    arguments: &Arguments<'_, 'a>,
    given: Given,
) -> Result<(), Memory>
    ensures wide { OnOk result ((q : List ℕ) (s n : ℕ) → has_name possible.new.wide q s n ≡ (gives_wide arguments.now q s n given || has_name possible.old.wide q s n)) }
    ensures lengths { OnOk result ((q : List ℕ) (s n : ℕ) → has_name possible.new.lengths q s n ≡ (gives_length arguments.now q s n given || has_name possible.old.lengths q s n)) }
{
    let Some(argument) = arguments.get(given.argument) else {
        return Ok(());
    };
    note_fact(possible, target(argument), given.fact)
}

// What parameters may be, where this is what arguments may be.
fn possible_by<'a>(
    alloc: Global,
    arguments: &Arguments<'_, 'a>,
    found: &[Given],
) -> Result<Possible<'a>, Memory>
    ensures { IfOk result (λ m. HoldsGivens arguments.now found.now m) }
{
    let mut possible = Possible {
        wide: BTreeSet::new(alloc),
        lengths: BTreeSet::new(alloc),
    };
    let mut rest = found;
    while let [first, tail @ ..] = rest {
        note_given(&mut possible, arguments, *first)?;
        rest = tail;
    }
    Ok(possible)
}

// What parameters may be. Its one error is want of memory.
pub(crate) fn possible_of<'g, 'a: 'g>(
    alloc: Global,
    known: &Known<'a>,
    arguments: &Arguments<'g, 'a>,
) -> Result<Possible<'a>, Memory>
    ensures { IfOk result (λ m. Finds (known_facts known.now) (known_policy known.now) arguments.now m) }
{
    let all = arguments.as_slice();
    let row = first_givens(alloc, known, all)?;
    let start = row.as_slice();
    let set = givens(alloc, arguments, start)?;
    let found = set.as_slice();
    let possible = possible_by(alloc, arguments, found)?;
    Ok(possible)
}
