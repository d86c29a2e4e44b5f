//! What a form is: its sort, its name, its kind among the statements of a term, and what it names, calls and does.
ghost use Rattle.std.specs.Prelude.{◌≡◌, ◌<◌, ◌&&◌, IfSome, bytes_eq, option_map, false, true};
ghost use Rattle.std.specs.List.{list_any};
ghost use Rattle.junos_tree.specs.Sorts.{sort_of_form, name_of_form, is_inner_sort, is_inner};
ghost use Rattle.junos_tree.specs.Terms.{is_term_header};
ghost use Rattle.junos_reader.specs.Statements.{policy_in, named_by_condition, named_by_action, named_by, called_by_condition, called_by, is_call, is_path_test};
ghost use Rattle.junos_reader.specs.Forms.{sort_code, has_no_form, kind_of_condition, kind_of_action, kind_of, filter_of_condition, filter_of, changes, prepends, ends, leaves, acts, set_or_added, set_or_added_by, is_wild, is_unnamed};

use junos_tree::{Action, CommunityVerb, Condition, Flow, JunosForm, StatementSort};
use route_types::{Prefix, Rect, Row};

pub(crate) fn sort_of_form(form: &JunosForm) -> StatementSort
    ensures { result ≡ sort_of_form form.now }
{
    match form {
        JunosForm::PrefixList(_) => StatementSort::PrefixList,
        JunosForm::Community(_) => StatementSort::Community,
        JunosForm::AsPath(_) => StatementSort::AsPath,
        JunosForm::Policy(_) => StatementSort::Policy,
        JunosForm::Other(other) => other.sort,
        _ => StatementSort::Inner,
    }
}

pub(crate) fn sort_code(sort: StatementSort) -> u64
    ensures { result ≡ sort_code sort }
{
    match sort {
        StatementSort::PrefixList => 0,
        StatementSort::Community => 1,
        StatementSort::AsPath => 2,
        StatementSort::Policy => 3,
        StatementSort::Inner => 4,
    }
}

fn name_of_other(name: &Option<Row<u8>>) -> Option<&[u8]>
    ensures { option_map (λ n. n.now) result ≡ name.now }
{
    match name {
        None => None,
        Some(name) => Some(name.as_slice()),
    }
}

pub(crate) fn name_of_form(form: &JunosForm) -> Option<&[u8]>
    ensures { option_map (λ n. n.now) result ≡ name_of_form form.now }
{
    match form {
        JunosForm::PrefixList(name) => Some(name.as_slice()),
        JunosForm::Community(community) => Some(community.name.as_slice()),
        JunosForm::AsPath(path) => Some(path.name.as_slice()),
        JunosForm::Policy(name) => Some(name.as_slice()),
        JunosForm::Other(other) => name_of_other(&other.name),
        _ => None,
    }
}

pub(crate) fn is_inner(form: &JunosForm) -> bool
    ensures { result ≡ is_inner form.now }
{
    match sort_of_form(form) {
        StatementSort::PrefixList => false,
        StatementSort::Community => false,
        StatementSort::AsPath => false,
        StatementSort::Policy => false,
        StatementSort::Inner => true,
    }
}

pub(crate) fn policy_in(form: &JunosForm) -> Option<&[u8]>
    ensures { option_map (λ n. n.now) result ≡ policy_in form.now }
{
    match form {
        JunosForm::Policy(name) => Some(name.as_slice()),
        _ => None,
    }
}

pub(crate) fn has_no_form(form: &JunosForm) -> bool
    ensures { result ≡ has_no_form form.now }
{
    matches!(form, JunosForm::Other(_))
}

pub(crate) fn is_term_header(form: &JunosForm) -> bool
    ensures { result ≡ is_term_header form.now }
{
    matches!(form, JunosForm::Term(_))
}

pub(crate) fn is_unnamed(form: &JunosForm) -> bool
    ensures { result ≡ is_unnamed form.now }
{
    match form {
        JunosForm::Condition(condition) => condition.unnamed,
        JunosForm::Action(action) => action.unnamed,
        _ => false,
    }
}

// ---- what a form names

fn named_by_condition(condition: &Condition) -> (StatementSort, &[Row<u8>])
    ensures { (result.0, result.1.now) ≡ named_by_condition condition.now }
{
    match condition {
        Condition::Community(names) => (StatementSort::Community, names.as_slice()),
        Condition::AsPath(names) => (StatementSort::AsPath, names.as_slice()),
        Condition::Policy(names) => (StatementSort::Policy, names.as_slice()),
        Condition::PrefixList(names) => (StatementSort::PrefixList, names.as_slice()),
        Condition::ListFilter(filter) => {
            (
                StatementSort::PrefixList,
                std::slice::from_ref(&filter.list),
            )
        }
        _ => (StatementSort::Inner, &[]),
    }
}

fn named_by_action(action: &Action) -> (StatementSort, &[Row<u8>])
    ensures { (result.0, result.1.now) ≡ named_by_action action.now }
{
    match action {
        Action::Community(change) => {
            (
                StatementSort::Community,
                std::slice::from_ref(&change.community),
            )
        }
        _ => (StatementSort::Inner, &[]),
    }
}

pub(crate) fn named_by(form: &JunosForm) -> (StatementSort, &[Row<u8>])
    ensures { (result.0, result.1.now) ≡ named_by form.now }
{
    match form {
        JunosForm::Condition(condition) => named_by_condition(&condition.condition),
        JunosForm::Action(action) => named_by_action(&action.action),
        _ => (StatementSort::Inner, &[]),
    }
}

fn called_by_condition(condition: &Condition) -> &[Row<u8>]
    ensures { result.now ≡ called_by_condition condition.now }
{
    match condition {
        Condition::Policy(names) => names.as_slice(),
        _ => &[],
    }
}

pub(crate) fn called_by(form: &JunosForm) -> &[Row<u8>]
    ensures { result.now ≡ called_by form.now }
{
    match form {
        JunosForm::Condition(condition) => called_by_condition(&condition.condition),
        _ => &[],
    }
}

pub(crate) fn is_call(form: &JunosForm) -> bool
    ensures { result ≡ is_call form.now }
{
    match form {
        JunosForm::Condition(condition) => matches!(condition.condition, Condition::Policy(_)),
        _ => false,
    }
}

pub(crate) fn is_path_test(form: &JunosForm) -> bool
    ensures { result ≡ is_path_test form.now }
{
    match form {
        JunosForm::Condition(condition) => matches!(condition.condition, Condition::AsPath(_)),
        _ => false,
    }
}

// ---- the kind of a statement in its term

fn kind_of_condition(condition: &Condition) -> Option<usize>
    ensures value { result ≡ kind_of_condition condition.now }
    ensures within { IfSome result (λ k. k < 8) }
{
    match condition {
        Condition::Metric(_) => Some(0),
        Condition::LocalPreference(_) => Some(1),
        Condition::Origin(_) => Some(2),
        Condition::RouteFilter(_) => Some(4),
        Condition::PrefixList(_) => Some(5),
        Condition::ListFilter(filter) => { if filter.or_longer { Some(7) } else { Some(6) } }
        _ => None,
    }
}

fn kind_of_action(action: &Action) -> Option<usize>
    ensures value { result ≡ kind_of_action action.now }
    ensures within { IfSome result (λ k. k < 8) }
{
    match action {
        Action::Flow(_) => Some(3),
        _ => None,
    }
}

pub(crate) fn kind_of(form: &JunosForm) -> Option<usize>
    ensures value { result ≡ kind_of form.now }
    ensures within { IfSome result (λ k. k < 8) }
{
    match form {
        JunosForm::Condition(condition) => kind_of_condition(&condition.condition),
        JunosForm::Action(action) => kind_of_action(&action.action),
        _ => None,
    }
}

fn filter_of_condition(condition: &Condition) -> Option<Prefix>
    ensures { result ≡ filter_of_condition condition.now }
{
    match condition {
        Condition::RouteFilter(range) => Some(range.prefix()),
        _ => None,
    }
}

pub(crate) fn filter_of(form: &JunosForm) -> Option<Prefix>
    ensures { result ≡ filter_of form.now }
{
    match form {
        JunosForm::Condition(condition) => filter_of_condition(&condition.condition),
        _ => None,
    }
}

// ---- what an action does

fn changes(action: &Action) -> bool
    ensures { result ≡ changes action.now }
{
    !matches!(action, Action::Flow(_))
}

fn leaves(action: &Action) -> bool
    ensures { result ≡ leaves action.now }
{
    match action {
        Action::Flow(flow) => matches!(flow, Flow::NextPolicy),
        _ => false,
    }
}

pub(crate) fn prepends(action: &Action) -> bool
    ensures { result ≡ prepends action.now }
{
    matches!(action, Action::Prepend(_))
}

pub(crate) fn ends(action: &Action) -> bool
    ensures { result ≡ ends action.now }
{
    match action {
        Action::Flow(flow) => matches!(flow, Flow::Accept | Flow::Reject),
        _ => false,
    }
}

// Whether the form is an action that changes the route.
pub(crate) fn is_change(form: &JunosForm) -> bool
    ensures { result ≡ acts changes form.now }
{
    match form {
        JunosForm::Action(action) => changes(&action.action),
        _ => false,
    }
}

// Whether the form is `next policy`.
pub(crate) fn is_next_policy(form: &JunosForm) -> bool
    ensures { result ≡ acts leaves form.now }
{
    match form {
        JunosForm::Action(action) => leaves(&action.action),
        _ => false,
    }
}

fn set_or_added(action: &Action) -> Option<&[u8]>
    ensures { option_map (λ n. n.now) result ≡ set_or_added action.now }
{
    let Action::Community(change) = action else {
        return None;
    };
    match change.verb {
        CommunityVerb::Set => Some(change.community.as_slice()),
        CommunityVerb::Add => Some(change.community.as_slice()),
        CommunityVerb::Delete => None,
    }
}

pub(crate) fn set_or_added_by(form: &JunosForm) -> Option<&[u8]>
    ensures { option_map (λ n. n.now) result ≡ set_or_added_by form.now }
{
    match form {
        JunosForm::Action(action) => set_or_added(&action.action),
        _ => None,
    }
}

fn is_wild(rect: &Rect) -> bool
    ensures { result ≡ is_wild rect.now }
{
    !(rect.high_least() == rect.high_most() && rect.low_least() == rect.low_most())
}

// Whether a member stands for more than one community.
pub(crate) fn has_wild(members: &[Rect]) -> bool
    ensures { result ≡ list_any is_wild members.now }
{
    members.iter().any(|member| is_wild(member))
}
