//! What the check knows of the whole tree and of the chain before its walk.
ghost use Rattle.std.specs.Prelude.{◌≡◌, ℕ, ◌||◌, List, ◌∷◌, IfOk, OnOk, bytes_eq, option_map};
ghost use Rattle.std.specs.List.{list_any};
ghost use Rattle.policy_text.specs.NameSets.{has_name};
ghost use Rattle.policy_calls.specs.Callees.{nows, links_of};
ghost use Rattle.junos_tree.specs.Sorts.{defines};
ghost use Rattle.junos_tree.specs.declared.item.StatementSort.{StatementSort as SpecSort};
ghost use Rattle.junos_reader.specs.Forms.{sort_code, is_not_plain};
ghost use Rattle.junos_reader.specs.Facts.{facts_of};
ghost use Rattle.junos_reader.specs.Before.{is_as};
ghost use Rattle.junos_reader.specs.Known.{known_facts, known_reached, plain_statements};
ghost use Rattle.junos_reader.specs.Tells.{Holds};

use crate::flags::{TermChoice, going_on};
use crate::forms::{has_wild, name_of_form, sort_code, sort_of_form};
use crate::sets::{lent, names_behind, set_of};
use crate::statements::{PolicyStatement, calls, statements, testers, used};
use junos_tree::{JunosForm, JunosItem, StatementSort};
use policy_calls::{Call, PairSet, called, leading_to, reached, too_deep, turning_back};
use policy_text::{NameSet, add_name, has_name};
use route_types::{Memory, Row};
use std::alloc::Global;
use std::collections::BTreeSet;

// The definitions that are there and those that statements of reached policies name, each with its sort; and policies and
// communities: those that are reached, that a reached one calls, that lead to a test of the path, that have a member that
// stands for more than one community, that stand in the chain, there behind a prepend, with a named term that prepends and
// goes on; the calls that lead back to their caller; and the policies in which a call is too deep.
#[derive(Drop)]
pub(crate) struct Known<'a> {
    pub(crate) defined: NameSet<'a>,
    pub(crate) reached: NameSet<'a>,
    pub(crate) used: NameSet<'a>,
    pub(crate) called: NameSet<'a>,
    pub(crate) tests_path: NameSet<'a>,
    pub(crate) not_plain: NameSet<'a>,
    pub(crate) chain: NameSet<'a>,
    pub(crate) behind_prepend: NameSet<'a>,
    pub(crate) prepends: NameSet<'a>,
    pub(crate) turning: PairSet<'a>,
    pub(crate) too_deep: NameSet<'a>,
}

// Whether the definition of this sort and name is reached.
pub(crate) fn is_reached<'a>(known: &Known<'a>, sort: StatementSort, name: &'a [u8]) -> bool
    ensures { result ≡ known_reached known.now sort name.now }
{
    match sort {
        StatementSort::PrefixList => has_name(
            &known.used,
            name,
            sort_code(StatementSort::PrefixList),
            0,
        ),
        StatementSort::Community => has_name(
            &known.used,
            name,
            sort_code(StatementSort::Community),
            0,
        ),
        StatementSort::AsPath => has_name(&known.used, name, sort_code(StatementSort::AsPath), 0),
        StatementSort::Policy => has_name(&known.reached, name, 0, 0),
        StatementSort::Inner => has_name(&known.used, name, sort_code(StatementSort::Inner), 0),
    }
}

// Adds the definition that a form starts, if it starts one under a name.
#[tactic(auto, using(crate::proofs::Sorts::definition_added))]
pub(crate) fn add_definition<'a>(names: &mut NameSet<'a>, form: &'a JunosForm) -> Result<(), Memory>
    ensures { OnOk result ((sort : SpecSort) (q : List ℕ) → has_name names.new q (sort_code sort) 0 ≡ (is_as sort q form.now || has_name names.old q (sort_code sort) 0)) }
{
    match name_of_form(form) {
        None => Ok(()),
        Some(name) => add_name(names, name, sort_code(sort_of_form(form)), 0),
    }
}

// The definitions that are there.
pub(crate) fn definitions<'a>(alloc: Global, items: &'a [JunosItem]) -> Result<NameSet<'a>, Memory>
    ensures { IfOk result (λ set. (sort : SpecSort) (q : List ℕ) → has_name set q (sort_code sort) 0 ≡ list_any (defines sort q) items.now) }
{
    let mut set = BTreeSet::new(alloc);
    let mut rest = items;
    while let [first, tail @ ..] = rest {
        add_definition(&mut set, &first.form)?;
        rest = tail;
    }
    Ok(set)
}

fn add_not_plain<'a>(names: &mut NameSet<'a>, form: &'a JunosForm) -> Result<(), Memory>
    ensures { OnOk result ((q : List ℕ) → has_name names.new q 0 0 ≡ (is_not_plain q form.now || has_name names.old q 0 0)) }
{
    let JunosForm::Community(community) = form else {
        return Ok(());
    };
    if !has_wild(community.members.as_slice()) {
        return Ok(());
    }
    add_name(names, community.name.as_slice(), 0, 0)
}

// The communities with a member that stands for more than one.
fn not_plain<'a>(alloc: Global, items: &'a [JunosItem]) -> Result<NameSet<'a>, Memory>
    ensures { IfOk result (λ set. (q : List ℕ) → has_name set q 0 0 ≡ list_any (λ i. is_not_plain q i.form) items.now) }
{
    let mut set = BTreeSet::new(alloc);
    let mut rest = items;
    while let [first, tail @ ..] = rest {
        add_not_plain(&mut set, &first.form)?;
        rest = tail;
    }
    Ok(set)
}

// What is known by the names of the chain, the statements of policies, their calls, the policies that test the path, and
// those with a term, or with a named one, that prepends and goes on.
fn known_by<'a>(
    alloc: Global,
    items: &'a [JunosItem],
    names: &[&'a [u8]],
    statements: &[PolicyStatement<'a>],
    calls: &[Call<'a>],
    testers: &[&'a [u8]],
    going: &[&'a [u8]],
    named_going: &[&'a [u8]],
) -> Result<Known<'a>, Memory>
    ensures { IfOk result (λ k. Holds k items.now (links_of calls.now) (nows names.now) (plain_statements statements.now) (nows testers.now) (nows going.now) (nows named_going.now)) }
{
    let reached = reached(alloc, calls, names)?;
    let turning = turning_back(alloc, calls)?;
    let too_deep = too_deep(alloc, calls, names, &reached, &turning)?;
    let used = used(alloc, statements, &reached)?;
    let called = called(alloc, calls, &reached)?;
    let tests_path = leading_to(alloc, calls, testers)?;
    let going_set = set_of(alloc, going)?;
    let behind_prepend = names_behind(alloc, &going_set, names, going)?;
    let prepends = set_of(alloc, named_going)?;
    let chain = set_of(alloc, names)?;
    let defined = definitions(alloc, items)?;
    let not_plain = not_plain(alloc, items)?;
    Ok(Known {
        defined,
        reached,
        used,
        called,
        tests_path,
        not_plain,
        chain,
        behind_prepend,
        prepends,
        turning,
        too_deep,
    })
}

// What is known of the tree for the chain of these names.
pub(crate) fn known_of<'a>(
    alloc: Global,
    names: &'a [Row<u8>],
    items: &'a [JunosItem],
) -> Result<Known<'a>, Memory>
    ensures { IfOk result (λ k. known_facts k ≡ facts_of names.now items.now) }
{
    let chain_row = lent(alloc, names)?;
    let chain = chain_row.as_slice();
    let statement_row = statements(alloc, items)?;
    let found = statement_row.as_slice();
    let call_row = calls(alloc, found)?;
    let links = call_row.as_slice();
    let tester_row = testers(alloc, found)?;
    let ends = tester_row.as_slice();
    let going_row = going_on(alloc, items, TermChoice::All)?;
    let going = going_row.as_slice();
    let named_row = going_on(alloc, items, TermChoice::Named)?;
    let named = named_row.as_slice();
    let known = known_by(alloc, items, chain, found, links, ends, going, named)?;
    Ok(known)
}
