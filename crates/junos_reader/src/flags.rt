//! Which terms put numbers before the path and go on.
ghost use Rattle.std.specs.Prelude.{◌≡◌, ℕ, ◌||◌, List, [], ◌∷◌, ◌++◌, IfOk, OnOk, option_map, None};
ghost use Rattle.policy_calls.specs.Callees.{nows};
ghost use Rattle.junos_reader.specs.Terms.{onto_passing, passing};
ghost use Rattle.junos_reader.specs.Facts.{forms_of};
ghost use Rattle.junos_reader.specs.Known.{flags_of, behind_header, behind_action, flags_behind, goes_on_by, goes_on_in, passing_from};
ghost use Rattle.junos_reader.specs.declared.flags.TermChoice.TheVariants.{Named};

use crate::forms::{ends, is_inner, policy_in, prepends};
use junos_tree::{JunosForm, JunosItem, TermAction};
use route_types::{Memory, Row};
use std::alloc::Global;

// Whether the named term that a place stands in puts numbers before the path, and whether it accepts or rejects; the
// same of the term without a name; and whether an earlier named term goes on.
#[derive(Clone, Copy)]
pub(crate) struct Flags {
    pub(crate) named_prepends: bool,
    pub(crate) named_ends: bool,
    pub(crate) unnamed_prepends: bool,
    pub(crate) unnamed_ends: bool,
    pub(crate) goes_on: bool,
}

// Where a definition starts.
#[tactic(auto, unfolding(junos_tree::specs::Terms::term_before, crate::specs::Terms::goes_on_before))]
pub(crate) fn no_flags() -> Flags
    ensures { result ≡ flags_of [] }
{
    Flags {
        named_prepends: false,
        named_ends: false,
        unnamed_prepends: false,
        unnamed_ends: false,
        goes_on: false,
    }
}

// Which terms of a policy are asked about.
#[derive(Clone, Copy)]
pub(crate) enum TermChoice {
    Named,
    All,
}

fn named_goes_on(flags: Flags) -> bool
    ensures { result ≡ goes_on_by Named flags }
{
    flags.named_prepends && !flags.named_ends || flags.goes_on
}

// Whether some of these terms goes on, at the end of a block.
fn goes_on(terms: TermChoice, flags: Flags) -> bool
    ensures { result ≡ goes_on_by terms flags }
{
    match terms {
        TermChoice::Named => named_goes_on(flags),
        TermChoice::All => { named_goes_on(flags) || flags.unnamed_prepends && !flags.unnamed_ends }
    }
}

fn behind_header(flags: Flags) -> Flags
    ensures { result ≡ behind_header flags }
{
    Flags {
        named_prepends: false,
        named_ends: false,
        unnamed_prepends: flags.unnamed_prepends,
        unnamed_ends: flags.unnamed_ends,
        goes_on: named_goes_on(flags),
    }
}

fn behind_action(flags: Flags, action: &TermAction) -> Flags
    ensures { result ≡ behind_action flags action.now }
{
    if action.unnamed {
        return Flags {
            unnamed_prepends: prepends(&action.action) || flags.unnamed_prepends,
            unnamed_ends: ends(&action.action) || flags.unnamed_ends,
            ..flags
        };
    }
    Flags {
        named_prepends: prepends(&action.action) || flags.named_prepends,
        named_ends: ends(&action.action) || flags.named_ends,
        ..flags
    }
}

// The flags behind one more form.
pub(crate) fn flags_behind(flags: Flags, form: &JunosForm) -> Flags
    ensures { result ≡ flags_behind flags form.now }
{
    if !is_inner(form) {
        return no_flags();
    }
    match form {
        JunosForm::Term(_) => behind_header(flags),
        JunosForm::Action(action) => behind_action(flags, action),
        _ => flags,
    }
}

// Adds the policy of a block that passes.
fn push_passing<'a>(
    row: &mut Row<&'a [u8]>,
    passes: bool,
    policy: Option<&'a [u8]>,
) -> Result<(), Memory>
    ensures { OnOk result ((rest : List (List ℕ)) → (nows row.new ++ rest) ≡ (nows row.old ++ onto_passing passes (option_map (λ n. n.now) policy.entry) rest)) }
{
    match (passes, policy) {
        (true, Some(policy)) => row.push(policy),
        _ => Ok(()),
    }
}

// The policies with such a term that puts numbers before the path and goes on.
#[tactic(auto, unfolding(crate::specs::Known::passing_from))]
fn walk<'a>(
    alloc: Global,
    items: &'a [JunosItem],
    terms: TermChoice,
) -> Result<Row<&'a [u8]>, Memory>
    ensures { IfOk result (λ row. nows row ≡ passing_from terms (flags_of []) None (forms_of items.now)) }
{
    let mut row = Row::new(alloc);
    let mut flags = no_flags();
    let mut policy = None;
    let mut rest = items;
    while let [first, tail @ ..] = rest {
        if !is_inner(&first.form) {
            push_passing(&mut row, goes_on(terms, flags), policy)?;
            policy = policy_in(&first.form);
        }
        flags = flags_behind(flags, &first.form);
        rest = tail;
    }
    push_passing(&mut row, goes_on(terms, flags), policy)?;
    Ok(row)
}

// The policies with such a term that puts numbers before the path and goes on.
#[tactic(auto, using(crate::proofs::FlagLaws::passing_at_start))]
pub(crate) fn going_on<'a>(
    alloc: Global,
    items: &'a [JunosItem],
    terms: TermChoice,
) -> Result<Row<&'a [u8]>, Memory>
    ensures { IfOk result (λ row. nows row ≡ passing (goes_on_in terms) [] (forms_of items.now)) }
{
    let row = walk(alloc, items, terms)?;
    Ok(row)
}
