//! The calls of a text, and what its policies ask of what is handed to them, and set by it.
ghost use Rattle.std.specs.Prelude.{◌≡◌, ◌++◌, ◌∷◌, [], List, OnOk, IfOk, map};
ghost use Rattle.std.specs.List.{flat_map};
ghost use Rattle.name_maps.specs.Under.{under};
ghost use Rattle.rpl_forms.specs.declared.item.RplItem.{RplItem as SpecItem};
ghost use Rattle.rpl_calls.specs.Policies.{name_under};
ghost use Rattle.rpl_calls.specs.Asks.{form_asks, asks_of, OwnAsk as AskParts};
ghost use Rattle.rpl_calls.specs.Calls.{own_place, call_in, calls_of};
ghost use Rattle.rpl_calls.specs.Settings.{setting_in, settings_of};
ghost use Rattle.rpl_calls.specs.Said.{call_parts, ask_parts, calls_in, asks_in, settings_in, IsSaying};
ghost use Rattle.rpl_calls.specs.declared.ask.Ask.{Ask as SpecAsk};

use crate::ask::Ask;
use crate::asks::push_asks;
use crate::policies::{Open, name_under, open_behind, opens};
use crate::settings::set_place;
use name_maps::NameMap;
use route_types::{Memory, Row};
use rpl_forms::{Apply, Argument, PolicyStatement, RplForm, RplItem};
use std::alloc::Global;
use text_words::Span;

/// A call: the name of the policy that it stands in, what is applied, for each argument its place among
/// the parameters of that policy, from 0, if it is one of them, and where it stands.
#[derive(Drop)]
pub struct Call<'a> {
    pub caller: &'a [u8],
    pub apply: &'a Apply,
    pub own: Row<Option<usize>>,
    pub span: Span,
}

/// What the policies of a name ask of what is handed to them.
#[derive(Clone, Copy)]
pub struct OwnAsk<'a> {
    pub policy: &'a [u8],
    pub ask: Ask,
}

/// A statement in the policies of a name that sets the communities of the set that is handed to them at a
/// place, and where it stands.
#[derive(Clone, Copy)]
pub struct Setting<'a> {
    pub policy: &'a [u8],
    pub place: usize,
    pub span: Span,
}

/// The calls of a text, what its policies ask, and which communities that are handed to them they set, each in
/// text order.
#[derive(Drop)]
pub struct Said<'a> {
    pub calls: Row<Call<'a>>,
    pub asks: Row<OwnAsk<'a>>,
    pub settings: Row<Setting<'a>>,
}

// The place of each argument among the parameters.
fn own_places<'a>(
    alloc: Global,
    places: &NameMap<'a, usize>,
    arguments: &'a [Argument],
) -> Result<Row<Option<usize>>, Memory>
    ensures { IfOk result (λ row. row ≡ map (own_place (under places.now.entries)) arguments.now) }
{
    let mut row = Row::new(alloc);
    let mut rest = arguments;
    while let [first, tail @ ..] = rest {
        match first {
            Argument::Written(_) => row.push(None)?,
            Argument::Parameter(name) => row.push(places.get(name.as_slice()))?,
        }
        rest = tail;
    }
    Ok(row)
}

// Adds the call that a statement of the open policy is, if it is one.
fn push_call<'a>(
    alloc: Global,
    calls: &mut Row<Call<'a>>,
    policy: &Open<'a>,
    item: &'a RplItem,
) -> Result<(), Memory>
    ensures { OnOk result (calls_in calls.new ≡ calls_in calls.old ++ call_in (name_under policy.now.line.now) (under policy.now.places.entries) item.now.span item.now.form) }
{
    match &item.form {
        RplForm::Statement(PolicyStatement::Apply(apply)) => {
            let own = own_places(alloc, &policy.places, apply.arguments.as_slice())?;
            calls.push(Call {
                caller: name_under(policy.line),
                apply,
                own,
                span: item.span,
            })
        }
        _ => Ok(()),
    }
}

// Adds asks of the policies of a name.
fn push_named<'a>(asks: &mut Row<OwnAsk<'a>>, policy: &'a [u8], more: &[Ask]) -> Result<(), Memory>
    ensures { OnOk result (asks_in asks.new ≡ asks_in asks.old ++ flat_map (λ ask. record { policy = policy.now; ask = ask } ∷ []) more.now) }
{
    let mut rest = more;
    while let [first, tail @ ..] = rest {
        asks.push(OwnAsk {
            policy,
            ask: *first,
        })?;
        rest = tail;
    }
    Ok(())
}

// Adds what a statement of the open policy asks.
fn push_own<'a>(
    alloc: Global,
    asks: &mut Row<OwnAsk<'a>>,
    policy: &Open<'a>,
    item: &'a RplItem,
) -> Result<(), Memory>
    ensures { OnOk result (asks_in asks.new ≡ asks_in asks.old ++ flat_map (λ ask. record { policy = name_under policy.now.line.now; ask = ask } ∷ []) (form_asks (under policy.now.places.entries) item.now.form)) }
{
    let mut row = Row::new(alloc);
    push_asks(&mut row, &policy.places, &item.form)?;
    push_named(asks, name_under(policy.line), row.as_slice())
}

// Adds the setting that a statement of the open policy is, if it is one.
fn push_setting<'a>(
    settings: &mut Row<Setting<'a>>,
    policy: &Open<'a>,
    item: &'a RplItem,
) -> Result<(), Memory>
    ensures { OnOk result (settings_in settings.new ≡ settings_in settings.old ++ setting_in (name_under policy.now.line.now) (under policy.now.places.entries) item.now.span item.now.form) }
{
    match set_place(&policy.places, &item.form) {
        None => Ok(()),
        Some(place) => settings.push(Setting {
            policy: name_under(policy.line),
            place,
            span: item.span,
        }),
    }
}

// Adds what an item says, and gives what is open behind it.
fn say<'a>(
    alloc: Global,
    said: &mut Said<'a>,
    policy: Option<Open<'a>>,
    item: &'a RplItem,
) -> Result<Option<Open<'a>>, Memory>
    ensures { IfOk result (λ behind. (all rest : List SpecItem) → IsSaying all said.old policy.entry (item.now ∷ rest) → IsSaying all said.new behind rest) }
{
    if let Some(kind) = opens(&item.form) {
        let behind = open_behind(alloc, kind, &item.form)?;
        return Ok(behind);
    }
    let Some(open) = policy else {
        return Ok(None);
    };
    push_call(alloc, &mut said.calls, &open, item)?;
    push_own(alloc, &mut said.asks, &open, item)?;
    push_setting(&mut said.settings, &open, item)?;
    Ok(Some(open))
}

/// The calls of a text, what its policies ask, and what they set. The one error is want of memory.
pub fn said_by<'a>(alloc: Global, items: &'a [RplItem]) -> Result<Said<'a>, Memory>
    ensures calls { IfOk result (λ s. calls_in s.calls ≡ calls_of items.now) }
    ensures asks { IfOk result (λ s. asks_in s.asks ≡ asks_of items.now) }
    ensures settings { IfOk result (λ s. settings_in s.settings ≡ settings_of items.now) }
{
    let mut said = Said {
        calls: Row::new(alloc),
        asks: Row::new(alloc),
        settings: Row::new(alloc),
    };
    let mut policy = None;
    let mut rest = items;
    while let [first, tail @ ..] = rest {
        policy = say(alloc, &mut said, policy, first)?;
        rest = tail;
    }
    Ok(said)
}
