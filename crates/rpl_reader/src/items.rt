//! The faults that items have by themselves.
ghost use Rattle.std.specs.Prelude.{◌≡◌, IfOk, false};
ghost use Rattle.rpl_reader.specs.Facts.{nothing_before};
ghost use Rattle.rpl_reader.specs.Known.{known_facts, known_block, told};
ghost use Rattle.rpl_reader.specs.Faults.{item_fault, earliest_item};

use crate::causes::cause_of;
use crate::faults::{Fault, earlier};
use crate::known::Known;
use crate::state::{State, open_behind, pass_form, state_of_start};
use route_types::Memory;
use rpl_forms::RplItem;
use std::alloc::Global;

// The first of the faults that an item has by itself, where it is reached.
fn item_fault<'a>(
    alloc: Global,
    known: &Known<'a>,
    state: &State<'a>,
    reached: bool,
    item: &'a RplItem,
) -> Result<Option<Fault>, Memory>
    ensures { IfOk result (λ o. o ≡ item_fault known.now.policy.now (known_facts known.now) (told state.now) reached item.now) }
{
    if !reached {
        return Ok(None);
    }
    match cause_of(alloc, known, state, &item.form)? {
        None => Ok(None),
        Some(cause) => Ok(Some((item.span, cause))),
    }
}

// The first fault of the items of a text, or this one.
#[tactic(auto, unfolding(crate::specs::Faults::earliest_item))]
pub(crate) fn earliest_item<'a>(
    alloc: Global,
    known: &Known<'a>,
    other: Option<Fault>,
    items: &'a [RplItem],
) -> Result<Option<Fault>, Memory>
    ensures { IfOk result (λ o. o ≡ earliest_item known.now.policy.now (known_facts known.now) (known_block known.now) other nothing_before false items.now) }
{
    let mut found = other;
    let mut state = state_of_start(alloc);
    let mut rest = items;
    while let [first, tail @ ..] = rest {
        let reached = open_behind(known, &first.form, state.reached);
        let fault = item_fault(alloc, known, &state, reached, first)?;
        found = earlier(found, fault);
        pass_form(alloc, &mut state, &first.form, reached)?;
        rest = tail;
    }
    Ok(found)
}
