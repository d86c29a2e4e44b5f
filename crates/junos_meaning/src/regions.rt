//! The terms of a policy, each as the items that its conditions and actions stand among.
ghost use Rattle.std.specs.Prelude.{◌≡◌, ◌++◌, List, [], ◌∷◌, true, false, IfOk, OnOk, map, option_map};
ghost use Rattle.junos_tree.specs.Sorts.{is_inner};
ghost use Rattle.junos_tree.specs.Terms.{own_forms, parts, is_term_header};
ghost use Rattle.junos_reader.specs.Facts.{forms_of};
ghost use Rattle.junos_meaning.specs.Sets.{contents_of};
ghost use Rattle.junos_meaning.specs.Regions.{content_of, part_of, named_contents, ends_region, same, condition_in, action_in};

use junos_reader::{Action, Condition, JunosForm, JunosItem, StatementSort};
use route_types::Memory;
use std::alloc::Global;

/// A term: the items behind its header, or behind that of the policy for the term without a name.
#[derive(Clone, Copy)]
pub(crate) struct Region<'a> {
    pub(crate) unnamed: bool,
    pub(crate) items: &'a [JunosItem],
}

fn is_inner(form: &JunosForm) -> bool
    ensures { result ≡ is_inner form.now }
{
    match form {
        JunosForm::PrefixList(_) | JunosForm::Community(_) => false,
        JunosForm::AsPath(_) | JunosForm::Policy(_) => false,
        JunosForm::Other(other) => match other.sort {
            StatementSort::Inner => true,
            StatementSort::PrefixList | StatementSort::Community => false,
            StatementSort::AsPath | StatementSort::Policy => false,
        },
        JunosForm::Member(_) | JunosForm::Term(_) => true,
        JunosForm::Condition(_) | JunosForm::Action(_) => true,
    }
}

fn is_term_header(form: &JunosForm) -> bool
    ensures { result ≡ is_term_header form.now }
{
    matches!(form, JunosForm::Term(_))
}

fn ends_region(unnamed: bool, form: &JunosForm) -> bool
    ensures { result ≡ ends_region unnamed form.now }
{
    !is_inner(form) || (!unnamed && is_term_header(form))
}

/// The terms of a policy whose items these begin with: the named ones in order, and then the one without a name.
#[tactic(auto, using(crate::proofs::RegionLaws::unnamed_last))]
pub(crate) fn regions_of<'a>(
    alloc: Global,
    items: &'a [JunosItem],
) -> Result<Vec<Region<'a>>, Memory>
    ensures { IfOk result (λ v. map content_of v.items ≡ contents_of (own_forms (forms_of items.now))) }
{
    let mut regions = named_regions(alloc, items)?;
    regions.push(Region {
        unnamed: true,
        items,
    })?;
    Ok(regions)
}

// Takes a form of a policy into account: a header starts a term.
#[tactic(auto, using(crate::proofs::RegionLaws::found_term, crate::proofs::RegionLaws::found_same))]
fn add_region<'a>(
    found: &mut Vec<Region<'a>>,
    first: &'a JunosItem,
    tail: &'a [JunosItem],
) -> Result<(), Memory>
    requires { is_inner first.now.form ≡ true }
    ensures { OnOk result (map content_of found.new.items ++ named_contents (parts (own_forms (forms_of tail.now))) ≡ map content_of found.old.items ++ named_contents (parts (own_forms (first.now.form ∷ forms_of tail.now)))) }
{
    if !is_term_header(&first.form) {
        return Ok(());
    }
    found.push(Region {
        unnamed: false,
        items: tail,
    })?;
    Ok(())
}

// The named terms.
#[tactic(auto, using(crate::proofs::RegionLaws::policy_ends), unfolding(junos_tree::specs::Terms::own_forms, junos_tree::specs::Terms::parts))]
fn named_regions<'a>(alloc: Global, items: &'a [JunosItem]) -> Result<Vec<Region<'a>>, Memory>
    ensures { IfOk result (λ v. map content_of v.items ≡ named_contents (parts (own_forms (forms_of items.now)))) }
{
    let mut found = Vec::new(alloc);
    let mut rest = items;
    while let [first, tail @ ..] = rest {
        if !is_inner(&first.form) {
            return Ok(found);
        }
        add_region(&mut found, first, tail)?;
        rest = tail;
    }
    Ok(found)
}

fn same(one: bool, other: bool) -> bool
    ensures { result ≡ same one other }
{
    if one {
        return other;
    }
    !other
}

fn condition_in(unnamed: bool, form: &JunosForm) -> Option<&Condition>
    ensures { option_map (λ x. x.now) result ≡ condition_in unnamed form.now }
{
    let JunosForm::Condition(found) = form else {
        return None;
    };
    if same(unnamed, found.unnamed) {
        return Some(&found.condition);
    }
    None
}

fn action_in(unnamed: bool, form: &JunosForm) -> Option<&Action>
    ensures { option_map (λ x. x.now) result ≡ action_in unnamed form.now }
{
    let JunosForm::Action(found) = form else {
        return None;
    };
    if same(unnamed, found.unnamed) {
        return Some(&found.action);
    }
    None
}

// Takes a form of a term into account.
#[tactic(auto, using(crate::proofs::RegionLaws::no_condition))]
fn add_condition<'a>(
    found: &mut Vec<&'a Condition>,
    unnamed: bool,
    first: &'a JunosItem,
    tail: &[JunosItem],
) -> Result<(), Memory>
    requires { ends_region unnamed first.now.form ≡ false }
    ensures { OnOk result (map (λ x. x.now) found.new.items ++ (part_of unnamed (parts (own_forms (forms_of tail.now)))).conditions ≡ map (λ x. x.now) found.old.items ++ (part_of unnamed (parts (own_forms (first.now.form ∷ forms_of tail.now)))).conditions) }
{
    if let Some(condition) = condition_in(unnamed, &first.form) {
        found.push(condition)?;
    }
    Ok(())
}

/// The conditions of a term, in the order of the text.
#[tactic(auto, using(crate::proofs::RegionLaws::conditions_end), unfolding(junos_tree::specs::Terms::own_forms, junos_tree::specs::Terms::parts))]
pub(crate) fn conditions_of<'a>(
    alloc: Global,
    region: &Region<'a>,
) -> Result<Vec<&'a Condition>, Memory>
    ensures { IfOk result (λ v. map (λ c. c.now) v.items ≡ (content_of region.now).conditions) }
{
    let mut found = Vec::new(alloc);
    let mut rest = region.items;
    while let [first, tail @ ..] = rest {
        if ends_region(region.unnamed, &first.form) {
            return Ok(found);
        }
        add_condition(&mut found, region.unnamed, first, tail)?;
        rest = tail;
    }
    Ok(found)
}

// Takes a form of a term into account.
#[tactic(auto, using(crate::proofs::RegionLaws::no_action))]
fn add_action<'a>(
    found: &mut Vec<&'a Action>,
    unnamed: bool,
    first: &'a JunosItem,
    tail: &[JunosItem],
) -> Result<(), Memory>
    requires { ends_region unnamed first.now.form ≡ false }
    ensures { OnOk result (map (λ x. x.now) found.new.items ++ (part_of unnamed (parts (own_forms (forms_of tail.now)))).actions ≡ map (λ x. x.now) found.old.items ++ (part_of unnamed (parts (own_forms (first.now.form ∷ forms_of tail.now)))).actions) }
{
    if let Some(action) = action_in(unnamed, &first.form) {
        found.push(action)?;
    }
    Ok(())
}

/// The actions of a term, in the order of the text.
#[tactic(auto, using(crate::proofs::RegionLaws::actions_end), unfolding(junos_tree::specs::Terms::own_forms, junos_tree::specs::Terms::parts))]
pub(crate) fn actions_of<'a>(alloc: Global, region: &Region<'a>) -> Result<Vec<&'a Action>, Memory>
    ensures { IfOk result (λ v. map (λ a. a.now) v.items ≡ (content_of region.now).actions) }
{
    let mut found = Vec::new(alloc);
    let mut rest = region.items;
    while let [first, tail @ ..] = rest {
        if ends_region(region.unnamed, &first.form) {
            return Ok(found);
        }
        add_action(&mut found, region.unnamed, first, tail)?;
        rest = tail;
    }
    Ok(found)
}
