//! The arguments of calls, and which parameters they are handed to and hand on.
ghost use Rattle.std.specs.Prelude.{◌≡◌, ◌++◌, ◌<◌, ℕ, List, Option, OnOk, IfOk, length, map, option_map, slice_get};
ghost use Rattle.std.specs.List.{flat_map};
ghost use Rattle.rpl_calls.specs.Parameters.{last_in, earlier_of};
ghost use Rattle.rpl_calls.specs.Table.{parameter_parts, parameter_in, IsTable};
ghost use Rattle.rpl_calls.specs.Calls.{CallParts};
ghost use Rattle.rpl_calls.specs.Arguments.{word_at, own_at, arguments_in, arguments_of, target, handed_at, source, written, targets, sources};
ghost use Rattle.rpl_calls.specs.Said.{call_parts, calls_in};
ghost use Rattle.rpl_calls.specs.Listed.{handing_parts, handings_in};

use crate::parameters::Parameter;
use crate::said::Call;
use crate::table::Table;
use route_types::{Memory, Row};
use rpl_forms::Argument;
use std::alloc::Global;
use std::marker::Model;

/// An argument: its call, and its place among the arguments of that, from 0.
#[derive(Clone, Copy)]
pub struct Handing<'g, 'a> {
    pub call: &'g Call<'a>,
    pub place: usize,
}

/// The word that is written at a place of a call's arguments. It takes no memory.
pub fn word_at<'a>(call: &Call<'a>, place: usize) -> Option<&'a [u8]>
    ensures { option_map (λ w. w.now) result ≡ word_at (call_parts call.now) place }
{
    let apply = call.apply;
    match apply.arguments.as_slice().get(place) {
        None => None,
        Some(Argument::Written(word)) => Some(word.as_slice()),
        Some(Argument::Parameter(_)) => None,
    }
}

/// The place, among the parameters of the policy in which the call stands, of what is handed on at a place of
/// its arguments. It takes no memory.
pub fn own_at(call: &Call<'_>, place: usize) -> Option<usize>
    ensures { result ≡ own_at (call_parts call.now) place }
{
    let apply = call.apply;
    let argument = apply.arguments.as_slice().get(place);
    let own = call.own.as_slice().get(place);
    match (argument, own) {
        (Some(Argument::Parameter(_)), Some(own)) => *own,
        _ => None,
    }
}

/// The parameter that is handed on at a place of a call's arguments, if one is. It takes no memory.
pub fn handed_at<'a>(call: &Call<'a>, place: usize) -> Option<Parameter<'a>>
    ensures { parameter_in result ≡ handed_at (call_parts call.now) place }
{
    match own_at(call, place) {
        None => None,
        Some(place) => Some(Parameter {
            policy: call.caller,
            place,
        }),
    }
}

/// The parameter that an argument is handed to. It takes no memory.
pub fn target<'a>(argument: Handing<'_, 'a>) -> Parameter<'a>
    ensures { parameter_parts result ≡ target (handing_parts argument.entry) }
{
    let apply = argument.call.apply;
    Parameter {
        policy: apply.policy.as_slice(),
        place: argument.place,
    }
}

/// The arguments of calls by their places among all, and where those are that are handed to a parameter and
/// that hand one on.
#[derive(Drop)]
pub struct Arguments<'g, 'a> {
    row: Row<Handing<'g, 'a>>,
    to: Table<'a>,
    on: Table<'a>,
}

impl<'g, 'a> Model for Arguments<'g, 'a> {
    ghost use Rattle.std.specs.Prelude.{List, length};
    ghost use Rattle.rpl_calls.specs.Arguments.{ArgumentParts};
    ghost use Rattle.rpl_calls.specs.Listed.{handings_in, AreTold};

    ghost Value = { List ArgumentParts };

    ghost view = { λ a. handings_in a.row };

    ghost invariant = { λ a. AreTold (handings_in a.row) a.to a.on };
}

// Puts the arguments of a call behind what is in the row.
#[tactic(auto, unfolding(crate::specs::Arguments::arguments_from))]
fn push_arguments<'g, 'a>(row: &mut Row<Handing<'g, 'a>>, call: &'g Call<'a>) -> Result<(), Memory>
    ensures { OnOk result (handings_in row.new ≡ handings_in row.old ++ arguments_in (call_parts call.now)) }
{
    let apply = call.apply;
    let mut place = 0;
    let mut rest = apply.arguments.as_slice();
    while let [_, tail @ ..] = rest {
        row.push(Handing { call, place })?;
        place += 1;
        rest = tail;
    }
    Ok(())
}

// The arguments of calls, in text order.
fn arguments_of<'g, 'a>(
    alloc: Global,
    calls: &'g [Call<'a>],
) -> Result<Row<Handing<'g, 'a>>, Memory>
    ensures { IfOk result (λ row. handings_in row ≡ arguments_of (calls_in calls.now)) }
{
    let mut row = Row::new(alloc);
    let mut rest = calls;
    while let [first, tail @ ..] = rest {
        push_arguments(&mut row, first)?;
        rest = tail;
    }
    Ok(row)
}

// Where the arguments are that are handed to a parameter.
fn table_of_targets<'a>(alloc: Global, arguments: &[Handing<'_, 'a>]) -> Result<Table<'a>, Memory>
    ensures { IfOk result (λ table. IsTable (targets (handings_in arguments.now)) table (length (targets (handings_in arguments.now)))) }
{
    let mut table = Table::new(alloc);
    let mut place = 0;
    while place < arguments.len() {
        table.add(Some(target(arguments[place])))?;
        place += 1;
    }
    Ok(table)
}

// Where the arguments are that hand a parameter on.
fn table_of_sources<'a>(alloc: Global, arguments: &[Handing<'_, 'a>]) -> Result<Table<'a>, Memory>
    ensures { IfOk result (λ table. IsTable (sources (handings_in arguments.now)) table (length (sources (handings_in arguments.now)))) }
{
    let mut table = Table::new(alloc);
    let mut place = 0;
    while place < arguments.len() {
        let argument = arguments[place];
        table.add(handed_at(argument.call, argument.place))?;
        place += 1;
    }
    Ok(table)
}

impl<'g, 'a> Arguments<'g, 'a> {
    /// The arguments of these calls. The one error is want of memory.
    pub fn of(alloc: Global, calls: &'g [Call<'a>]) -> Result<Arguments<'g, 'a>, Memory>
        ensures { IfOk result (λ a. a ≡ arguments_of (calls_in calls.now)) }
    {
        let row = arguments_of(alloc, calls)?;
        let to = table_of_targets(alloc, row.as_slice())?;
        let on = table_of_sources(alloc, row.as_slice())?;
        Ok(Arguments { row, to, on })
    }

    /// The arguments in text order. It takes no memory.
    pub fn as_slice(&self) -> &[Handing<'g, 'a>]
        ensures { handings_in result.now ≡ self.now }
    {
        self.row.as_slice()
    }

    /// The argument at a place, if there is one. It takes no memory.
    pub fn get(&self, place: usize) -> Option<Handing<'g, 'a>>
        ensures { option_map handing_parts result ≡ slice_get self.now place }
    {
        match self.row.as_slice().get(place) {
            None => None,
            Some(argument) => Some(*argument),
        }
    }

    // The last argument that is handed to a parameter.
    pub(crate) fn last_to(&self, parameter: Parameter<'a>) -> Option<usize>
        ensures { result ≡ last_in (targets self.now) (parameter_parts parameter.entry) }
    {
        self.to.last(parameter)
    }

    // The last argument before this one that is handed to the same parameter.
    pub(crate) fn before_to(&self, place: usize) -> Option<usize>
        ensures { result ≡ earlier_of (targets self.now) place }
    {
        self.to.before(place)
    }

    // The last argument that hands a parameter on.
    pub(crate) fn last_on(&self, parameter: Parameter<'a>) -> Option<usize>
        ensures { result ≡ last_in (sources self.now) (parameter_parts parameter.entry) }
    {
        self.on.last(parameter)
    }

    // The last argument before this one that hands the same parameter on.
    pub(crate) fn before_on(&self, place: usize) -> Option<usize>
        ensures { result ≡ earlier_of (sources self.now) place }
    {
        self.on.before(place)
    }
}
