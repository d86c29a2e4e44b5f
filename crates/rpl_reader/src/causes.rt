//! The causes that a statement has by itself, each a rule of its own.
ghost use Rattle.std.specs.Prelude.{◌≡◌, ◌||◌, ◌<◌, IfOk, length};
ghost use Rattle.std.specs.List.{list_any, list_all};
ghost use Rattle.policy_text.specs.Causes.{first_cause};
ghost use Rattle.rpl_calls.specs.Policies.{opens, parameters_in};
ghost use Rattle.rpl_facts.specs.Blocks.{is_single, takes_other, name_opened};
ghost use Rattle.rpl_facts.specs.Uses.{uses_of};
ghost use Rattle.rpl_facts.specs.Used.{use_of, uses_in};
ghost use Rattle.rpl_reader.specs.Known.{known_facts, told};
ghost use Rattle.rpl_reader.specs.Causes.{is_unknown, stands_before, repeats, is_second, misses, misses_policy, is_undefined, is_wide_set, sets_wide, leads_back, call_deep, counts_differ, has_cause};
ghost use Rattle.rpl_reader.specs.Holding.{causes_of, cause_in};

use crate::depth::is_too_deep;
use crate::known::Known;
use crate::sets::block_of;
use crate::state::State;
use policy_calls::has_pair;
use policy_text::{Cause, Rules, add_name, first_cause, has_name};
use route_types::{Memory, Rect, Row};
use rpl_calls::{opens, parameters_in};
use rpl_facts::{Used, is_single, kind_code, name_opened, push_uses, takes_other};
use rpl_forms::{Action, BlockKind, Header, PolicyStatement, RplForm, RplSet};
use std::alloc::Global;
use std::collections::BTreeSet;

/// Which causes a statement has by itself.
#[derive(Clone, Copy)]
pub(crate) struct Causes {
    pub(crate) unknown_form: bool,
    pub(crate) defined_twice: bool,
    pub(crate) undefined: bool,
    pub(crate) not_plain: bool,
    pub(crate) cycle: bool,
    pub(crate) too_deep: bool,
    pub(crate) argument_count: bool,
}

fn is_unknown(form: &RplForm) -> bool
    ensures { result ≡ is_unknown form.now }
{
    match form {
        RplForm::Other(_) => true,
        _ => false,
    }
}

// ---- defined-twice

fn stands_before<'a>(state: &State<'a>, form: &'a RplForm) -> bool
    ensures { result ≡ stands_before (opens form.now) (name_opened form.now) (told state.now) }
{
    match opens(form) {
        None => false,
        Some(kind) => match name_opened(form) {
            None => false,
            Some(name) => has_name(&state.stands, name, kind_code(kind), 0),
        },
    }
}

fn repeats(alloc: Global, names: &[Row<u8>]) -> Result<bool, Memory>
    ensures { IfOk result (λ b. b ≡ repeats names.now) }
{
    let mut seen = BTreeSet::new(alloc);
    let mut rest = names;
    while let [first, tail @ ..] = rest {
        let name = first.as_slice();
        if has_name(&seen, name, 0, 0) {
            return Ok(true);
        }
        add_name(&mut seen, name, 0, 0)?;
        rest = tail;
    }
    Ok(false)
}

fn is_second<'a>(alloc: Global, state: &State<'a>, form: &'a RplForm) -> Result<bool, Memory>
    ensures { IfOk result (λ b. b ≡ is_second (told state.now) form.now) }
{
    if stands_before(state, form) {
        return Ok(true);
    }
    repeats(alloc, parameters_in(form))
}

// ---- undefined

fn misses<'a>(known: &Known<'a>, state: &State<'a>, used: Used<'a>) -> bool
    ensures { result ≡ misses (known_facts known.now) (told state.now) (use_of used.entry) }
{
    match used {
        Used::Set(sort, name) => !has_name(&known.there, name, kind_code(block_of(sort)), 0),
        Used::Parameter(name) => !has_name(&state.parameters, name, 0, 0),
    }
}

fn any_misses<'a>(known: &Known<'a>, state: &State<'a>, uses: &[Used<'a>]) -> bool
    ensures { result ≡ list_any (misses (known_facts known.now) (told state.now)) (uses_in uses.now) }
{
    let mut rest = uses;
    while let [first, tail @ ..] = rest {
        if misses(known, state, *first) {
            return true;
        }
        rest = tail;
    }
    false
}

fn misses_policy<'a>(known: &Known<'a>, form: &'a RplForm) -> bool
    ensures { result ≡ misses_policy (known_facts known.now) form.now }
{
    match form {
        RplForm::Statement(PolicyStatement::Apply(apply)) => {
            let name = apply.policy.as_slice();
            !has_name(&known.there, name, kind_code(BlockKind::Policy), 0)
        }
        _ => false,
    }
}

fn is_undefined<'a>(
    alloc: Global,
    known: &Known<'a>,
    state: &State<'a>,
    form: &'a RplForm,
) -> Result<bool, Memory>
    ensures { IfOk result (λ b. b ≡ is_undefined (known_facts known.now) (told state.now) form.now) }
{
    let mut uses = Row::new(alloc);
    push_uses(&mut uses, form)?;
    if any_misses(known, state, uses.as_slice()) {
        return Ok(true);
    }
    Ok(misses_policy(known, form))
}

// ---- not-plain

fn are_single(communities: &[Rect]) -> bool
    ensures { result ≡ list_all is_single communities.now }
{
    let mut rest = communities;
    while let [first, tail @ ..] = rest {
        if !is_single(first) {
            return false;
        }
        rest = tail;
    }
    true
}

fn is_wide_set<'a>(known: &Known<'a>, set: &'a RplSet<Rect>) -> bool
    ensures { result ≡ is_wide_set (known_facts known.now) set.now }
{
    match set {
        RplSet::Named(name) => has_name(&known.wide, name.as_slice(), 0, 0),
        RplSet::Parameter(_) => false,
        RplSet::Listed(communities) => !are_single(communities.as_slice()),
    }
}

fn sets_wide<'a>(known: &Known<'a>, form: &'a RplForm) -> bool
    ensures { result ≡ sets_wide (known_facts known.now) form.now }
{
    match form {
        RplForm::Statement(PolicyStatement::Act(Action::SetCommunity(setting))) => {
            is_wide_set(known, &setting.set)
        }
        _ => false,
    }
}

// ---- calls

fn leads_back<'a>(known: &Known<'a>, state: &State<'a>, form: &'a RplForm) -> bool
    ensures { result ≡ leads_back (known_facts known.now) (told state.now) form.now }
{
    match form {
        RplForm::Statement(PolicyStatement::Apply(apply)) => {
            has_pair(&known.turning, state.name, apply.policy.as_slice())
        }
        _ => false,
    }
}

fn call_deep<'a>(known: &Known<'a>, state: &State<'a>, form: &RplForm) -> bool
    ensures { result ≡ call_deep (known_facts known.now) (told state.now) form.now }
{
    match form {
        RplForm::Statement(PolicyStatement::Apply(_)) => has_name(&known.deep, state.name, 0, 0),
        _ => false,
    }
}

fn counts_differ<'a>(known: &Known<'a>, form: &'a RplForm) -> bool
    ensures { result ≡ counts_differ (known_facts known.now) form.now }
{
    match form {
        RplForm::Statement(PolicyStatement::Apply(apply)) => {
            takes_other(
                &known.counts,
                apply.policy.as_slice(),
                apply.arguments.len(),
            )
        }
        _ => false,
    }
}

// Whether the form is the first line of the policy of this name, and gives it parameters.
fn has_parameters(policy: &[u8], form: &RplForm) -> bool
    ensures { result ≡ takes_other policy.now 0 form.now }
{
    match form {
        RplForm::Header(Header::Policy(header)) => {
            policy == header.name.as_slice() && header.parameters.len() != 0
        }
        _ => false,
    }
}

// ---- all causes

fn causes_of<'a>(
    alloc: Global,
    known: &Known<'a>,
    state: &State<'a>,
    form: &'a RplForm,
) -> Result<Causes, Memory>
    ensures { IfOk result (λ c. c ≡ causes_of known.now.policy.now (known_facts known.now) (told state.now) form.now) }
{
    let unknown_form = is_unknown(form);
    let defined_twice = is_second(alloc, state, form)?;
    let undefined = is_undefined(alloc, known, state, form)?;
    let not_plain = sets_wide(known, form);
    let cycle = leads_back(known, state, form);
    let deep = is_too_deep(alloc, state.ifs, form)?;
    let too_deep = deep || call_deep(known, state, form);
    let argument_count = has_parameters(known.policy, form) || counts_differ(known, form);
    Ok(Causes {
        unknown_form,
        defined_twice,
        undefined,
        not_plain,
        cycle,
        too_deep,
        argument_count,
    })
}

impl Rules for Causes {
    ghost holds = { λ causes cause. cause_in causes cause };

    fn holds(&self, cause: Cause) -> bool {
        match cause {
            Cause::UnknownForm => self.unknown_form,
            Cause::DefinedTwice => self.defined_twice,
            Cause::Undefined => self.undefined,
            Cause::NotPlain => self.not_plain,
            Cause::Cycle => self.cycle,
            Cause::TooDeep => self.too_deep,
            Cause::ArgumentCount => self.argument_count,
            _ => false,
        }
    }
}

// The first cause that a statement has by itself.
pub(crate) fn cause_of<'a>(
    alloc: Global,
    known: &Known<'a>,
    state: &State<'a>,
    form: &'a RplForm,
) -> Result<Option<Cause>, Memory>
    ensures { IfOk result (λ o. o ≡ first_cause (has_cause known.now.policy.now (known_facts known.now) (told state.now) form.now)) }
{
    let causes = causes_of(alloc, known, state, form)?;
    let cause = first_cause(&causes);
    Ok(cause)
}
