//! What stands before an item.
ghost use Rattle.std.specs.Prelude.{◌≡◌, ◌<◌, ◌||◌, List, [], ◌∷◌, OnOk, IfSome, true, false, option_map};
ghost use Rattle.route_types.specs.Address.{PrefixParts};
ghost use Rattle.junos_tree.specs.Sorts.{is_inner};
ghost use Rattle.junos_tree.specs.declared.item.JunosForm.{JunosForm as SpecForm};
ghost use Rattle.junos_tree.specs.declared.item.JunosForm.TheVariants.{Term as TermHeader};
ghost use Rattle.junos_reader.specs.Before.{definition_of};
ghost use Rattle.junos_reader.specs.Forms.{kind_of, filter_of, is_prefix};
ghost use Rattle.junos_reader.specs.Known.{no_kinds, kinds_with, has_prefix, is_statement, IsNoted, IsBehind};

use crate::flags::{Flags, flags_behind, no_flags};
use crate::forms::{filter_of, is_inner, is_unnamed, kind_of, name_of_form, sort_of_form};
use crate::known::add_definition;
use crate::sets::{PrefixSet, add_prefix};
use junos_tree::{JunosForm, StatementSort};
use policy_text::{NameSet, add_name};
use route_types::{Memory, Row};
use std::alloc::Global;
use std::collections::BTreeSet;

// What stands before in a term: which kinds of statements, and the prefixes of route-filters.
#[derive(Drop)]
pub(crate) struct TermState {
    pub(crate) kinds: [bool; 8],
    pub(crate) filters: PrefixSet,
}

// The definition that an item stands in, those that start before it, the terms of its definition, what stands before it
// in the named term and in the one without a name, and what the terms do.
#[derive(Drop)]
pub(crate) struct State<'a> {
    pub(crate) definition: Option<(StatementSort, &'a [u8])>,
    pub(crate) defined: NameSet<'a>,
    pub(crate) terms: NameSet<'a>,
    pub(crate) named: TermState,
    pub(crate) unnamed: TermState,
    pub(crate) flags: Flags,
}

fn empty_term(alloc: Global) -> TermState
    ensures kinds { result.kinds ≡ no_kinds }
    ensures filters { (p : PrefixParts) → has_prefix result.filters p ≡ false }
{
    TermState {
        kinds: [false; 8],
        filters: BTreeSet::new(alloc),
    }
}

// Before the first item.
pub(crate) fn state_of_start<'a>(alloc: Global) -> State<'a>
    ensures { IsBehind [] result }
{
    let defined = BTreeSet::new(alloc);
    let terms = BTreeSet::new(alloc);
    let named = empty_term(alloc);
    let unnamed = empty_term(alloc);
    let flags = no_flags();
    State {
        definition: None,
        defined,
        terms,
        named,
        unnamed,
        flags,
    }
}

fn kinds_with(kinds: [bool; 8], form: &JunosForm) -> [bool; 8]
    ensures value { result ≡ kinds_with kinds (kind_of form.now) }
    ensures within { IfSome (kind_of form.now) (λ k. k < 8) }
{
    let mut more = kinds;
    if let Some(kind) = kind_of(form) {
        more[kind] = true;
    }
    more
}

fn note_filter(filters: &mut PrefixSet, form: &JunosForm) -> Result<(), Memory>
    ensures { OnOk result ((p : PrefixParts) → has_prefix filters.new p ≡ (is_prefix p (filter_of form.now) || has_prefix filters.old p)) }
{
    match filter_of(form) {
        None => Ok(()),
        Some(prefix) => add_prefix(filters, &prefix),
    }
}

// Notes a condition or action in its term.
fn note_statement(term: &mut TermState, form: &JunosForm) -> Result<(), Memory>
    ensures { OnOk result (IsNoted form.now term.old term.new) }
{
    term.kinds = kinds_with(term.kinds, form);
    note_filter(&mut term.filters, form)?;
    Ok(())
}

// The definition that a form starts.
fn definition_of(form: &JunosForm) -> Option<(StatementSort, &[u8])>
    ensures { option_map (λ d. (d.0, d.1.now)) result ≡ definition_of form.now }
{
    match name_of_form(form) {
        None => None,
        Some(name) => Some((sort_of_form(form), name)),
    }
}

// Behind a form that starts a definition.
fn start_definition<'a>(
    alloc: Global,
    state: &mut State<'a>,
    form: &'a JunosForm,
) -> Result<(), Memory>
    requires { is_inner form.now ≡ false }
    ensures { OnOk result ((before : List SpecForm) → IsBehind before state.old → IsBehind (form.now ∷ before) state.new) }
{
    add_definition(&mut state.defined, form)?;
    let terms = BTreeSet::new(alloc);
    let named = empty_term(alloc);
    let unnamed = empty_term(alloc);
    state.definition = definition_of(form);
    state.terms = terms;
    state.named = named;
    state.unnamed = unnamed;
    state.flags = no_flags();
    Ok(())
}

// Behind the header of a term.
fn start_term<'a>(
    alloc: Global,
    state: &mut State<'a>,
    name: &'a Row<u8>,
    form: &JunosForm,
) -> Result<(), Memory>
    requires { form.now ≡ TermHeader name.now }
    ensures { OnOk result ((before : List SpecForm) → IsBehind before state.old → IsBehind (form.now ∷ before) state.new) }
{
    add_name(&mut state.terms, name.as_slice(), 0, 0)?;
    let named = empty_term(alloc);
    state.named = named;
    state.flags = flags_behind(state.flags, form);
    Ok(())
}

// Behind a condition or an action.
fn add_statement<'a>(state: &mut State<'a>, form: &JunosForm) -> Result<(), Memory>
    requires { is_statement form.now ≡ true }
    ensures { OnOk result ((before : List SpecForm) → IsBehind before state.old → IsBehind (form.now ∷ before) state.new) }
{
    state.flags = flags_behind(state.flags, form);
    if is_unnamed(form) {
        note_statement(&mut state.unnamed, form)?;
        return Ok(());
    }
    note_statement(&mut state.named, form)?;
    Ok(())
}

// Behind one more item.
pub(crate) fn pass_item<'a>(
    alloc: Global,
    state: &mut State<'a>,
    form: &'a JunosForm,
) -> Result<(), Memory>
    ensures { OnOk result ((before : List SpecForm) → IsBehind before state.old → IsBehind (form.now ∷ before) state.new) }
{
    if !is_inner(form) {
        return start_definition(alloc, state, form);
    }
    match form {
        JunosForm::Term(name) => start_term(alloc, state, name, form),
        JunosForm::Condition(_) => add_statement(state, form),
        JunosForm::Action(_) => add_statement(state, form),
        _ => Ok(()),
    }
}
