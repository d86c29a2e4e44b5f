//! What arguments are asked.
ghost use Rattle.std.specs.Prelude.{◌≡◌, ◌++◌, ℕ, Option, Some, IfOk, OnOk, option_map};
ghost use Rattle.std.specs.List.{flat_map};
ghost use Rattle.step_search.specs.Found.{IsIn, IsFound};
ghost use Rattle.rpl_calls.specs.declared.ask.Question.TheVariants.{NotBelow};
ghost use Rattle.rpl_calls.specs.Demands.{number_within, bound_up, question_up, ask_up, asked_of, asked_above, next_demands, first_demands};
ghost use Rattle.rpl_calls.specs.Linked.{asked_at, last_asked, linked_demands, starting_demands};
ghost use Rattle.rpl_calls.specs.Listed.{handing_parts};
ghost use Rattle.rpl_calls.specs.Said.{call_parts, ask_parts, asks_in};

use crate::arguments::{Arguments, Handing, own_at, word_at};
use crate::ask::{Ask, NumberRange, Question};
use crate::parameters::Parameter;
use crate::said::{Call, OwnAsk};
use indexmap::IndexSet;
use policy_text::read_number;
use route_types::{Memory, Row};
use std::alloc::Global;
use step_search::{Key, Steps, all_found};

/// What an argument is asked, by its place among all arguments.
#[derive(Clone, Copy, PartialEq, Eq, Hash)]
pub struct Demand {
    pub argument: usize,
    pub question: Question,
}

impl Key for Demand {
    ghost use Rattle.rpl_calls.specs.OneDemand.{one_demand};

    ghost one = { one_demand };
}

/// The number from one to another that a word is. It takes no memory.
pub fn number_within(least: u64, most: u64, word: &[u8]) -> Option<u64>
    ensures { result ≡ number_within least most word.now }
{
    let number = read_number(word, most)?;
    if least <= number {
        return Some(number);
    }
    None
}

// What is asked of the second of two bounds, where the first is this word.
fn bound_above(word: &[u8]) -> Option<Question>
    ensures { (own : Option ℕ) → result ≡ bound_up (Some word.now) own }
{
    let least = read_number(word, 32)?;
    Some(Question::Number(NumberRange { least, most: 32 }))
}

// The same where the first stands at a place of the call's arguments.
fn bound_up(call: &Call<'_>, place: usize) -> Option<Question>
    ensures { result ≡ question_up (call_parts call.now) (NotBelow place) }
{
    match word_at(call, place) {
        Some(word) => bound_above(word),
        None => {
            let own = own_at(call, place)?;
            Some(Question::NotBelow(own))
        }
    }
}

// What is asked of a parameter that is handed on in a call where this is asked.
fn question_up(call: &Call<'_>, question: Question) -> Option<Question>
    ensures { result ≡ question_up (call_parts call.now) question }
{
    match question {
        Question::Number(range) => Some(Question::Number(range)),
        Question::Set(sort) => Some(Question::Set(sort)),
        Question::NotBelow(place) => bound_up(call, place),
    }
}

// What an argument that is asked this asks of the parameter that it hands on.
fn ask_up<'a>(argument: Handing<'_, 'a>, question: Question) -> Option<OwnAsk<'a>>
    ensures { option_map ask_parts result ≡ ask_up (handing_parts argument.entry) question }
{
    let place = own_at(argument.call, argument.place)?;
    let question = question_up(argument.call, question)?;
    Some(OwnAsk {
        policy: argument.call.caller,
        ask: Ask { place, question },
    })
}

fn asked_above<'a>(arguments: &Arguments<'_, 'a>, demand: Demand) -> Option<OwnAsk<'a>>
    ensures { option_map ask_parts result ≡ asked_above arguments.now demand }
{
    let argument = arguments.get(demand.argument)?;
    ask_up(argument, demand.question)
}

// Puts a question of an argument behind what is in the row, if there is one.
fn push_asked(
    row: &mut Row<Demand>,
    question: Question,
    argument: Option<usize>,
) -> Result<(), Memory>
    ensures { OnOk result (row.new ≡ row.old ++ asked_at question argument) }
{
    match argument {
        None => Ok(()),
        Some(argument) => row.push(Demand { argument, question }),
    }
}

// Puts the question of the last argument that is handed to the parameter behind what is in the row.
fn push_last<'a>(
    row: &mut Row<Demand>,
    arguments: &Arguments<'_, 'a>,
    asked: OwnAsk<'a>,
) -> Result<(), Memory>
    ensures { OnOk result (row.new ≡ row.old ++ last_asked arguments.now (ask_parts asked.entry)) }
{
    let ask = asked.ask;
    let last = arguments.last_to(Parameter {
        policy: asked.policy,
        place: ask.place,
    });
    push_asked(row, ask.question, last)
}

// From what an argument is asked to what others are.
#[derive(Clone, Copy)]
struct Upwards<'s, 'g, 'a: 'g> {
    arguments: &'s Arguments<'g, 'a>,
}

impl<'s, 'g, 'a: 'g> Steps<Demand> for Upwards<'s, 'g, 'a> {
    ghost next = { λ s d. linked_demands s.arguments.now d };

    fn push_next(&self, row: &mut Row<Demand>, from: Demand) -> Result<(), Memory> {
        push_asked(row, from.question, self.arguments.before_to(from.argument))?;
        match asked_above(self.arguments, from) {
            None => Ok(()),
            Some(asked) => push_last(row, self.arguments, asked),
        }
    }
}

// What the last arguments are asked by the policies that they are handed to.
fn starting_demands<'a>(
    alloc: Global,
    arguments: &Arguments<'_, 'a>,
    asks: &[OwnAsk<'a>],
) -> Result<Row<Demand>, Memory>
    ensures { IfOk result (λ row. row ≡ starting_demands arguments.now (asks_in asks.now)) }
{
    let mut row = Row::new(alloc);
    let mut rest = asks;
    while let [first, tail @ ..] = rest {
        push_last(&mut row, arguments, *first)?;
        rest = tail;
    }
    Ok(row)
}

/// All that arguments are asked. The one error is want of memory.
pub fn demands<'g, 'a: 'g>(
    alloc: Global,
    arguments: &Arguments<'g, 'a>,
    asks: &[OwnAsk<'a>],
) -> Result<IndexSet<Demand>, Memory>
    ensures sound { IfOk result (λ set. (d : Demand) → IsIn d set.keys → IsFound (next_demands arguments.now) (first_demands arguments.now (asks_in asks.now)) d) }
    ensures whole { IfOk result (λ set. (d : Demand) → IsFound (next_demands arguments.now) (first_demands arguments.now (asks_in asks.now)) d → IsIn d set.keys) }
{
    let start = starting_demands(alloc, arguments, asks)?;
    let upwards = Upwards { arguments };
    let found = all_found(alloc, &upwards, start.as_slice())?;
    Ok(found)
}
