//! The statements of the policies of a tree, and what they call, test and name.
ghost use Rattle.std.specs.Prelude.{◌≡◌, ℕ, ◌||◌, ◌&&◌, ◌==◌, List, ◌∷◌, ◌++◌, None, IfOk, OnOk, bytes_eq, option_map, map};
ghost use Rattle.std.specs.List.{list_any};
ghost use Rattle.policy_text.specs.NameSets.{has_name};
ghost use Rattle.policy_calls.specs.Callees.{nows, links_of};
ghost use Rattle.policy_calls.specs.Calls.{Link};
ghost use Rattle.junos_reader.specs.Statements.{Statement, policy_behind, onto_statements, statements_from, statements_of, links_to, links_in, testers_in, names_it};
ghost use Rattle.junos_reader.specs.Forms.{sort_code};
ghost use Rattle.junos_reader.specs.Known.{plain_statements};
ghost use Rattle.junos_tree.specs.declared.item.StatementSort.{StatementSort as SpecSort};

use crate::forms::{called_by, is_inner, is_path_test, named_by, policy_in, sort_code};
use junos_tree::{JunosForm, JunosItem};
use policy_calls::Call;
use policy_text::{NameSet, add_name, has_name};
use route_types::{Memory, Row};
use std::alloc::Global;
use std::collections::BTreeSet;

// A statement of a policy.
#[derive(Clone, Copy)]
pub(crate) struct PolicyStatement<'a> {
    pub(crate) policy: &'a [u8],
    pub(crate) form: &'a JunosForm,
}

// The policy that a form stands in or starts, behind a form that stands in this one.
fn policy_behind<'a>(policy: Option<&'a [u8]>, form: &'a JunosForm) -> Option<&'a [u8]>
    ensures { option_map (λ n. n.now) result ≡ policy_behind (option_map (λ n. n.now) policy.entry) form.now }
{
    if is_inner(form) {
        return policy;
    }
    policy_in(form)
}

// Adds a form with its policy, if it is in one.
fn push_statement<'a>(
    statements: &mut Row<PolicyStatement<'a>>,
    policy: Option<&'a [u8]>,
    form: &'a JunosForm,
) -> Result<(), Memory>
    ensures { OnOk result ((rest : List Statement) → (plain_statements statements.new ++ rest) ≡ (plain_statements statements.old ++ onto_statements (option_map (λ n. n.now) policy.entry) form.now rest)) }
{
    match policy {
        None => Ok(()),
        Some(policy) => statements.push(PolicyStatement { policy, form }),
    }
}

// The statements of the policies, in text order.
#[tactic(auto, unfolding(crate::specs::Statements::statements_from))]
pub(crate) fn statements<'a>(
    alloc: Global,
    items: &'a [JunosItem],
) -> Result<Row<PolicyStatement<'a>>, Memory>
    ensures { IfOk result (λ row. plain_statements row ≡ statements_of items.now) }
{
    let mut statements = Row::new(alloc);
    let mut policy = None;
    let mut rest = items;
    while let [first, tail @ ..] = rest {
        policy = policy_behind(policy, &first.form);
        push_statement(&mut statements, policy, &first.form)?;
        rest = tail;
    }
    Ok(statements)
}

// Adds the calls of a policy to these.
fn push_calls<'a>(
    calls: &mut Row<Call<'a>>,
    caller: &'a [u8],
    callees: &'a [Row<u8>],
) -> Result<(), Memory>
    ensures { OnOk result ((rest : List Link) → (links_of calls.new ++ rest) ≡ (links_of calls.old ++ links_to caller.now callees.now rest)) }
{
    let mut rest = callees;
    while let [first, tail @ ..] = rest {
        calls.push(Call {
            caller,
            callee: first.as_slice(),
        })?;
        rest = tail;
    }
    Ok(())
}

// The calls of the statements.
#[tactic(auto, unfolding(crate::specs::Statements::links_in))]
pub(crate) fn calls<'a>(
    alloc: Global,
    statements: &[PolicyStatement<'a>],
) -> Result<Row<Call<'a>>, Memory>
    ensures { IfOk result (λ row. links_of row ≡ links_in (plain_statements statements.now)) }
{
    let mut calls = Row::new(alloc);
    let mut rest = statements;
    while let [first, tail @ ..] = rest {
        push_calls(&mut calls, first.policy, called_by(first.form))?;
        rest = tail;
    }
    Ok(calls)
}

// The policies of the statements that are `as-path` conditions.
#[tactic(auto, unfolding(crate::specs::Statements::testers_in))]
pub(crate) fn testers<'a>(
    alloc: Global,
    statements: &[PolicyStatement<'a>],
) -> Result<Row<&'a [u8]>, Memory>
    ensures { IfOk result (λ row. nows row ≡ testers_in (plain_statements statements.now)) }
{
    let mut testers = Row::new(alloc);
    let mut rest = statements;
    while let [first, tail @ ..] = rest {
        if is_path_test(first.form) {
            testers.push(first.policy)?;
        }
        rest = tail;
    }
    Ok(testers)
}

fn add_names<'a>(names: &mut NameSet<'a>, sort: u64, more: &'a [Row<u8>]) -> Result<(), Memory>
    ensures { OnOk result ((q : List ℕ) (s n : ℕ) → has_name names.new q s n ≡ (((n == 0) && (s == sort) && list_any (bytes_eq q) more.now) || has_name names.old q s n)) }
{
    let mut rest = more;
    while let [first, tail @ ..] = rest {
        add_name(names, first.as_slice(), sort, 0)?;
        rest = tail;
    }
    Ok(())
}

// Adds the definitions that a form names.
#[tactic(auto, using(crate::proofs::Sorts::named_added))]
fn add_named<'a>(names: &mut NameSet<'a>, form: &'a JunosForm) -> Result<(), Memory>
    ensures { OnOk result ((sort : SpecSort) (q : List ℕ) → has_name names.new q (sort_code sort) 0 ≡ (names_it sort q form.now || has_name names.old q (sort_code sort) 0)) }
{
    let (sort, more) = named_by(form);
    add_names(names, sort_code(sort), more)
}

// The definitions that statements of these policies name, each with its sort.
pub(crate) fn used<'a>(
    alloc: Global,
    statements: &[PolicyStatement<'a>],
    reached: &NameSet<'a>,
) -> Result<NameSet<'a>, Memory>
    ensures { IfOk result (λ set. (sort : SpecSort) (q : List ℕ) → has_name set q (sort_code sort) 0 ≡ list_any (λ s. has_name reached.now s.policy 0 0 && names_it sort q s.form) (plain_statements statements.now)) }
{
    let mut set = BTreeSet::new(alloc);
    let mut rest = statements;
    while let [first, tail @ ..] = rest {
        if has_name(reached, first.policy, 0, 0) {
            add_named(&mut set, first.form)?;
        }
        rest = tail;
    }
    Ok(set)
}
