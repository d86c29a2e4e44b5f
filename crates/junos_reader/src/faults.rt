//! The causes, each a rule of its own, and the fault of an item.
ghost use Rattle.std.specs.Prelude.{◌≡◌, not, option_map};
ghost use Rattle.std.specs.List.{list_any};
ghost use Rattle.policy_text.specs.Causes.{first_cause};
ghost use Rattle.policy_text.specs.NameSets.{has_name};
ghost use Rattle.policy_calls.specs.Callees.{has_pair};
ghost use Rattle.junos_reader.specs.Forms.{sort_code};
ghost use Rattle.junos_reader.specs.Known.{known_facts, told, told_term};
ghost use Rattle.junos_reader.specs.Profile.{passes, policy_at, is_reached, term_at, is_second_definition, is_undefined, repeats_kind, sets_many, exactly_one, tests_one_way, mixes_tests, repeats_prefix, asks_path, is_behind_prepend, tests_after_prepend, changes_in_subroutine, leaves_subroutine, calls_back, calls_too_deep, has_cause, is_fault};

use crate::forms::{
    called_by, filter_of, has_no_form, is_call, is_change, is_inner, is_next_policy, is_path_test,
    is_unnamed, kind_of, name_of_form, named_by, set_or_added_by, sort_code, sort_of_form,
};
use crate::known::{Known, is_reached};
use crate::sets::has_prefix;
use crate::state::{State, TermState};
use junos_tree::{JunosForm, StatementSort};
use policy_calls::{PairSet, has_pair};
use policy_text::{Cause, NameSet, Rules, any_missing, first_cause, has_name};
use route_types::Row;

// What the rules look at: the facts of the tree, what stands before the item, and its form.
#[derive(Clone, Copy)]
struct At<'w, 'a> {
    known: &'w Known<'a>,
    state: &'w State<'a>,
    form: &'a JunosForm,
}

// ---- what is reached

fn form_is_reached<'a>(known: &Known<'a>, state: &State<'a>, form: &'a JunosForm) -> bool
    ensures { result ≡ is_reached (known_facts known.now) (told state.now) form.now }
{
    if is_inner(form) {
        return match state.definition {
            None => false,
            Some((sort, name)) => is_reached(known, sort, name),
        };
    }
    match name_of_form(form) {
        None => false,
        Some(name) => is_reached(known, sort_of_form(form), name),
    }
}

// The policy that an item stands in.
fn policy_of<'a>(state: &State<'a>) -> Option<&'a [u8]>
    ensures { option_map (λ n. n.now) result ≡ policy_at (told state.now) }
{
    match state.definition {
        None => None,
        Some((sort, name)) => match sort {
            StatementSort::PrefixList => None,
            StatementSort::Community => None,
            StatementSort::AsPath => None,
            StatementSort::Policy => Some(name),
            StatementSort::Inner => None,
        },
    }
}

// ---- definitions

fn is_second_definition<'a>(state: &State<'a>, form: &'a JunosForm) -> bool
    ensures { result ≡ is_second_definition (told state.now) form.now }
{
    if let JunosForm::Term(name) = form {
        return has_name(&state.terms, name.as_slice(), 0, 0);
    }
    if is_inner(form) {
        return false;
    }
    match name_of_form(form) {
        None => false,
        Some(name) => has_name(&state.defined, name, sort_code(sort_of_form(form)), 0),
    }
}

fn is_undefined<'a>(known: &Known<'a>, form: &'a JunosForm) -> bool
    ensures { result ≡ is_undefined (known_facts known.now) form.now }
{
    let (sort, names) = named_by(form);
    any_missing(&known.defined, sort_code(sort), names)
}

fn sets_many<'a>(known: &Known<'a>, form: &'a JunosForm) -> bool
    ensures { result ≡ sets_many (known_facts known.now) form.now }
{
    match set_or_added_by(form) {
        None => false,
        Some(name) => has_name(&known.not_plain, name, 0, 0),
    }
}

// ---- what stands before in the term

fn term_of<'w, 'a>(state: &'w State<'a>, form: &JunosForm) -> &'w TermState
    ensures value { told_term result.now ≡ term_at (told state.now) form.now }
{
    if is_unnamed(form) {
        return &state.unnamed;
    }
    &state.named
}

fn repeats_kind<'a>(state: &State<'a>, form: &JunosForm) -> bool
    ensures { result ≡ repeats_kind (told state.now) form.now }
{
    match kind_of(form) {
        None => false,
        Some(kind) => kind < 4 && term_of(state, form).kinds[kind],
    }
}

fn exactly_one(first: bool, second: bool, third: bool, fourth: bool) -> bool
    ensures { result ≡ exactly_one first second third fourth }
{
    if first {
        return !(second || third || fourth);
    }
    if second {
        return !(third || fourth);
    }
    if third {
        return !fourth;
    }
    fourth
}

// Whether the statements before in the term test the prefix in exactly one way.
fn tests_one_way(term: &TermState) -> bool
    ensures { result ≡ tests_one_way (told_term term.now) }
{
    exactly_one(term.kinds[4], term.kinds[5], term.kinds[6], term.kinds[7])
}

fn mixes_tests<'a>(state: &State<'a>, form: &JunosForm) -> bool
    ensures { result ≡ mixes_tests (told state.now) form.now }
{
    match kind_of(form) {
        None => false,
        Some(kind) => {
            let term = term_of(state, form);
            4 <= kind && !term.kinds[kind] && tests_one_way(term)
        }
    }
}

fn repeats_prefix<'a>(state: &State<'a>, form: &JunosForm) -> bool
    ensures { result ≡ repeats_prefix (told state.now) form.now }
{
    match filter_of(form) {
        None => false,
        Some(prefix) => has_prefix(&term_of(state, form).filters, &prefix),
    }
}

// ---- calls

fn any_has<'a>(names: &NameSet<'a>, policies: &'a [Row<u8>]) -> bool
    ensures { result ≡ list_any (λ q. has_name names.now q 0 0) policies.now }
{
    let mut rest = policies;
    while let [first, tail @ ..] = rest {
        if has_name(names, first.as_slice(), 0, 0) {
            return true;
        }
        rest = tail;
    }
    false
}

fn any_turns<'a>(pairs: &PairSet<'a>, policy: &'a [u8], called: &'a [Row<u8>]) -> bool
    ensures { result ≡ list_any (λ q. has_pair pairs.now policy.now q) called.now }
{
    let mut rest = called;
    while let [first, tail @ ..] = rest {
        if has_pair(pairs, policy, first.as_slice()) {
            return true;
        }
        rest = tail;
    }
    false
}

fn asks_path<'a>(known: &Known<'a>, form: &'a JunosForm) -> bool
    ensures { result ≡ asks_path (known_facts known.now) form.now }
{
    is_path_test(form) || any_has(&known.tests_path, called_by(form))
}

fn is_behind_prepend<'a>(
    known: &Known<'a>,
    state: &State<'a>,
    form: &JunosForm,
    policy: &'a [u8],
) -> bool
    ensures { result ≡ is_behind_prepend (known_facts known.now) (told state.now) form.now policy.now }
{
    if has_name(&known.behind_prepend, policy, 0, 0) {
        return true;
    }
    if !has_name(&known.chain, policy, 0, 0) {
        return false;
    }
    if is_unnamed(form) {
        return has_name(&known.prepends, policy, 0, 0);
    }
    state.flags.goes_on
}

fn tests_after_prepend<'a>(known: &Known<'a>, state: &State<'a>, form: &'a JunosForm) -> bool
    ensures { result ≡ tests_after_prepend (known_facts known.now) (told state.now) form.now }
{
    if !asks_path(known, form) {
        return false;
    }
    match policy_of(state) {
        None => false,
        Some(policy) => is_behind_prepend(known, state, form, policy),
    }
}

// Whether the item stands in a policy that a condition calls.
fn is_in_subroutine<'a>(known: &Known<'a>, state: &State<'a>) -> bool
    ensures { result ≡ passes (λ q. has_name known.now.called q 0 0) (policy_at (told state.now)) }
{
    match policy_of(state) {
        None => false,
        Some(policy) => has_name(&known.called, policy, 0, 0),
    }
}

fn changes_in_subroutine<'a>(known: &Known<'a>, state: &State<'a>, form: &JunosForm) -> bool
    ensures { result ≡ changes_in_subroutine (known_facts known.now) (told state.now) form.now }
{
    is_change(form) && is_in_subroutine(known, state)
}

fn leaves_subroutine<'a>(known: &Known<'a>, state: &State<'a>, form: &JunosForm) -> bool
    ensures { result ≡ leaves_subroutine (known_facts known.now) (told state.now) form.now }
{
    is_next_policy(form) && is_in_subroutine(known, state)
}

fn calls_back<'a>(known: &Known<'a>, state: &State<'a>, form: &'a JunosForm) -> bool
    ensures { result ≡ calls_back (known_facts known.now) (told state.now) form.now }
{
    match policy_of(state) {
        None => false,
        Some(policy) => any_turns(&known.turning, policy, called_by(form)),
    }
}

fn calls_too_deep<'a>(known: &Known<'a>, state: &State<'a>, form: &'a JunosForm) -> bool
    ensures { result ≡ calls_too_deep (known_facts known.now) (told state.now) form.now }
{
    if !is_call(form) {
        return false;
    }
    match policy_of(state) {
        None => false,
        Some(policy) => has_name(&known.too_deep, policy, 0, 0),
    }
}

// ---- the causes

fn has_cause<'a>(known: &Known<'a>, state: &State<'a>, form: &'a JunosForm, cause: Cause) -> bool
    ensures { result ≡ has_cause (known_facts known.now) (told state.now) form.now cause }
{
    match cause {
        Cause::UnknownForm => has_no_form(form),
        Cause::DefinedTwice => is_second_definition(state, form),
        Cause::Undefined => is_undefined(known, form),
        Cause::SameKindTwice => repeats_kind(state, form),
        Cause::NotPlain => sets_many(known, form),
        Cause::MixedPrefixTests => mixes_tests(state, form),
        Cause::SamePrefixTwice => repeats_prefix(state, form),
        Cause::PathTestAfterPrepend => tests_after_prepend(known, state, form),
        Cause::SubroutineChanges => changes_in_subroutine(known, state, form),
        Cause::NextPolicyInSubroutine => leaves_subroutine(known, state, form),
        Cause::Cycle => calls_back(known, state, form),
        Cause::TooDeep => calls_too_deep(known, state, form),
        _ => false,
    }
}

impl<'w, 'a> Rules for At<'w, 'a> {
    ghost holds = { λ at cause. has_cause (known_facts at.known.now) (told at.state.now) at.form.now cause };

    fn holds(&self, cause: Cause) -> bool {
        has_cause(self.known, self.state, self.form, cause)
    }
}

// The first cause of an item that is reached.
#[tactic(auto, unfolding(policy_text::specs::Causes::first_cause))]
pub(crate) fn fault_of<'a>(
    known: &Known<'a>,
    state: &State<'a>,
    form: &'a JunosForm,
) -> Option<Cause>
    ensures { result ≡ first_cause (is_fault (known_facts known.now) (told state.now) form.now) }
{
    if !form_is_reached(known, state, form) {
        return None;
    }
    first_cause(&At { known, state, form })
}
