//! What the prefix lists of a tree answer on one prefix, each asked once.
ghost use Rattle.std.specs.Prelude.{◌≡◌, ◌==◌, ◌&&◌, List, ℕ, [], ◌∷◌, IfOk, OnOk, option_map};
ghost use Rattle.prefix_sets.specs.LongestMatch.{same_prefix};
ghost use Rattle.route_types.specs.Address.{contains, same_family};
ghost use Rattle.junos_reader.specs.Facts.{forms_of};
ghost use Rattle.junos_meaning.specs.Maps.{answers_on, answers_or, no_answers, TellsAnswers, GoesAnswers};
ghost use Rattle.junos_meaning.specs.Sets.{list_named, defined_at, behind, members};
ghost use Rattle.junos_meaning.specs.Conditions.{is_member, is_within};

use junos_reader::{JunosForm, JunosItem};
use name_maps::NameMap;
use route_types::{Address, Memory, Prefix};
use std::alloc::Global;

/// What a prefix list answers on a prefix.
#[derive(Clone, Copy, Debug)]
pub(crate) struct ListAnswers {
    /// The prefix is a member.
    pub(crate) member: bool,
    /// Some member contains it.
    pub(crate) within: bool,
}

/// The answers of prefix lists under their names.
pub(crate) type Lists<'a> = NameMap<'a, ListAnswers>;

/// Whether two addresses are one.
pub(crate) fn same_address(one: &Address, other: &Address) -> bool
    ensures { result ≡ (same_family one.now.family other.now.family && (one.now.bits == other.now.bits)) }
{
    one.family == other.family && one.bits == other.bits
}

fn same_prefix(one: &Prefix, other: &Prefix) -> bool
    ensures { result ≡ same_prefix one.now other.now }
{
    same_address(&one.address(), &other.address()) && one.length() == other.length()
}

// Whether the prefix is one of the members at the front of items.
#[tactic(auto, unfolding(crate::specs::Sets::members))]
fn is_member(prefix: &Prefix, items: &[JunosItem]) -> bool
    ensures { result ≡ is_member (members (forms_of items.now)) prefix.now }
{
    let mut rest = items;
    while let [first, tail @ ..] = rest {
        let JunosForm::Member(found) = &first.form else {
            return false;
        };
        if same_prefix(found, prefix) {
            return true;
        }
        rest = tail;
    }
    false
}

// Whether one of the members at the front of items contains the prefix.
#[tactic(auto, unfolding(crate::specs::Sets::members))]
fn is_within(prefix: &Prefix, items: &[JunosItem]) -> bool
    ensures { result ≡ is_within (members (forms_of items.now)) prefix.now }
{
    let mut rest = items;
    while let [first, tail @ ..] = rest {
        let JunosForm::Member(found) = &first.form else {
            return false;
        };
        if found.contains(prefix) {
            return true;
        }
        rest = tail;
    }
    false
}

// What the list answers whose members stand at the front of items.
fn answers_on(prefix: &Prefix, items: &[JunosItem]) -> ListAnswers
    ensures { result ≡ answers_on prefix.now (forms_of items.now) }
{
    ListAnswers {
        member: is_member(prefix, items),
        within: is_within(prefix, items),
    }
}

fn list_named(form: &JunosForm) -> Option<&[u8]>
    ensures { option_map (λ w. w.now) result ≡ list_named form.now }
{
    match form {
        JunosForm::PrefixList(name) => Some(name.as_slice()),
        _ => None,
    }
}

// Notes the answers of the list that begins here, if one does, behind those that were found.
#[tactic(auto, using(crate::proofs::MapLaws::unlisted))]
fn add_list<'a>(
    lists: &mut Lists<'a>,
    prefix: &Prefix,
    first: &'a JunosItem,
    tail: &'a [JunosItem],
) -> Result<(), Memory>
    ensures { OnOk result ((q : List ℕ) → answers_or lists.new.entries q (answers_on prefix.now (behind (defined_at list_named q (forms_of tail.now)))) ≡ answers_or lists.old.entries q (answers_on prefix.now (behind (defined_at list_named q (first.now.form ∷ forms_of tail.now))))) }
{
    match list_named(&first.form) {
        Some(name) => lists.put_first(name, answers_on(prefix, tail)),
        None => Ok(()),
    }
}

/// The answers of all lists on a prefix.
pub(crate) fn lists_of<'a>(
    alloc: Global,
    prefix: &Prefix,
    items: &'a [JunosItem],
) -> Result<Lists<'a>, Memory>
    ensures { IfOk result (λ m. TellsAnswers prefix.now m.entries items.now) }
{
    let mut lists = NameMap::new(alloc);
    let mut rest = items;
    while let [first, tail @ ..] = rest {
        add_list(&mut lists, prefix, first, tail)?;
        rest = tail;
    }
    Ok(lists)
}
