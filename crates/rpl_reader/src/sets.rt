//! The sets that are reached: those that statements of reached policies name, and those that are handed to them.
ghost use Rattle.std.specs.Prelude.{◌≡◌, ◌||◌, ◌&&◌, ◌∷◌, ℕ, List, IfOk, OnOk, slice_get, option_map};
ghost use Rattle.std.specs.List.{list_any};
ghost use Rattle.policy_text.specs.NameSets.{has_name};
ghost use Rattle.rpl_calls.specs.Arguments.{written};
ghost use Rattle.rpl_calls.specs.Listed.{handing_parts};
ghost use Rattle.rpl_calls.specs.declared.ask.SetSort.{SetSort as SpecSort};
ghost use Rattle.rpl_facts.specs.Blocks.{block_of};
ghost use Rattle.rpl_facts.specs.Used.{use_of, uses_in};
ghost use Rattle.rpl_facts.specs.Spoken.{spoken_parts, spoken_in};
ghost use Rattle.rpl_reader.specs.Sets.{names, uses_named, is_written, is_given_at, gives};

use policy_text::{NameSet, add_name, has_name};
use route_types::{Memory, Row};
use rpl_calls::{Arguments, Demand, Handing, Question, SetSort, name_under, word_at};
use rpl_facts::{Spoken, Used, kind_code, push_uses};
use rpl_forms::BlockKind;
use std::alloc::Global;

pub(crate) fn block_of(sort: SetSort) -> BlockKind
    ensures { result ≡ block_of sort }
{
    match sort {
        SetSort::Prefix => BlockKind::PrefixSet,
        SetSort::Community => BlockKind::CommunitySet,
        SetSort::Path => BlockKind::PathSet,
    }
}

fn note_use<'a>(sets: &mut NameSet<'a>, used: Used<'a>) -> Result<(), Memory>
    ensures { OnOk result ((q : List ℕ) (s n : ℕ) → has_name sets.new q s n ≡ (names q s n (use_of used.entry) || has_name sets.old q s n)) }
{
    match used {
        Used::Set(sort, name) => add_name(sets, name, kind_code(block_of(sort)), 0),
        Used::Parameter(_) => Ok(()),
    }
}

fn note_uses<'a>(sets: &mut NameSet<'a>, uses: &[Used<'a>]) -> Result<(), Memory>
    ensures { OnOk result ((q : List ℕ) (s n : ℕ) → has_name sets.new q s n ≡ (list_any (names q s n) (uses_in uses.now) || has_name sets.old q s n)) }
{
    let mut rest = uses;
    while let [first, tail @ ..] = rest {
        note_use(sets, *first)?;
        rest = tail;
    }
    Ok(())
}

// Notes the sets that a statement names, where its policy is reached.
fn note_statement<'a>(
    alloc: Global,
    sets: &mut NameSet<'a>,
    reached: &NameSet<'a>,
    statement: &Spoken<'a>,
) -> Result<(), Memory>
    ensures { OnOk result ((q : List ℕ) (s n : ℕ) → has_name sets.new q s n ≡ (uses_named (λ p. has_name reached.now p 0 0) q s n (spoken_parts statement.now) || has_name sets.old q s n)) }
{
    if !has_name(reached, name_under(statement.line), 0, 0) {
        return Ok(());
    }
    let mut uses = Row::new(alloc);
    push_uses(&mut uses, &statement.item.form)?;
    note_uses(sets, uses.as_slice())
}

// Notes the sets that statements of reached policies name.
pub(crate) fn note_named<'a>(
    alloc: Global,
    sets: &mut NameSet<'a>,
    reached: &NameSet<'a>,
    statements: &[Spoken<'a>],
) -> Result<(), Memory>
    ensures { OnOk result ((q : List ℕ) (s n : ℕ) → has_name sets.new q s n ≡ (list_any (uses_named (λ p. has_name reached.now p 0 0) q s n) (spoken_in statements.now) || has_name sets.old q s n)) }
{
    let mut rest = statements;
    while let [first, tail @ ..] = rest {
        note_statement(alloc, sets, reached, first)?;
        rest = tail;
    }
    Ok(())
}

// ---- sets that are handed on

// Notes the set whose name is written where a set is asked for.
fn note_written<'a>(
    sets: &mut NameSet<'a>,
    argument: Handing<'_, 'a>,
    question: Question,
) -> Result<(), Memory>
    ensures { OnOk result ((q : List ℕ) (s n : ℕ) → has_name sets.new q s n ≡ (is_written q s n (written (handing_parts argument.entry)) question || has_name sets.old q s n)) }
{
    let Question::Set(sort) = question else {
        return Ok(());
    };
    match word_at(argument.call, argument.place) {
        None => Ok(()),
        Some(name) => add_name(sets, name, kind_code(block_of(sort)), 0),
    }
}

// Notes the set that an argument of a reached policy is asked for, if its name is written there.
fn note_given<'a>(
    sets: &mut NameSet<'a>,
    reached: &NameSet<'a>,
    arguments: &Arguments<'_, 'a>,
    demand: Demand,
) -> Result<(), Memory>
    ensures { OnOk result ((q : List ℕ) (s n : ℕ) → has_name sets.new q s n ≡ (gives (λ p. has_name reached.now p 0 0) arguments.now q s n demand || has_name sets.old q s n)) }
{
    let Some(argument) = arguments.get(demand.argument) else {
        return Ok(());
    };
    if !has_name(reached, argument.call.caller, 0, 0) {
        return Ok(());
    }
    note_written(sets, argument, demand.question)
}

// Notes the sets that are handed to reached policies.
pub(crate) fn note_all_given<'a>(
    sets: &mut NameSet<'a>,
    reached: &NameSet<'a>,
    arguments: &Arguments<'_, 'a>,
    demands: &[Demand],
) -> Result<(), Memory>
    ensures { OnOk result ((q : List ℕ) (s n : ℕ) → has_name sets.new q s n ≡ (list_any (gives (λ p. has_name reached.now p 0 0) arguments.now q s n) demands.now || has_name sets.old q s n)) }
{
    let mut rest = demands;
    while let [first, tail @ ..] = rest {
        note_given(sets, reached, arguments, *first)?;
        rest = tail;
    }
    Ok(())
}
