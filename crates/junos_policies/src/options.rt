// The definitions of what a plan names.
ghost use Rattle.std.specs.Prelude.{◌≡◌, ◌++◌, ◌+◌, ◌<◌, ◌^◌, ◌∷◌, [], List, length, IfOk, OnOk};
ghost use Rattle.std.specs.List.{AllByRecursion};
ghost use Rattle.junos_tree.specs.Terms.{Content as IsContent};
ghost use Rattle.junos_plans.specs.Fits.{FitsText};
ghost use Rattle.junos_layout.specs.Options.{defined_from, pattern_of, numbered, subroutine_name};
ghost use Rattle.junos_layout.specs.Terms.{subroutine_terms};
ghost use Rattle.junos_layout.specs.Writing.{OfList, Unless, AllOf};
ghost use Rattle.junos_policies.specs.Names.{writing};
ghost use Rattle.junos_policies.specs.Options.{path_option, community_option, terms_option};
ghost use Rattle.junos_policies.specs.declared.names.Names.{Names as AreNames};

use crate::names::{Names, own_name};
use crate::terms::{guard_terms, list_terms, refusal_terms};
use aspath_text::{PatternFault, TokenPattern, read_junos_pattern};
use junos_plans::{PlannedList, PlannedLiteral, PlannedTest};
use junos_text::{PolicyDefinition, PolicyOption, PolicyTerm};
use junos_tree::{CommunityDefinition, PathDefinition};
use route_types::{Duplicate, Memory, Rect, Row};
use std::alloc::Global;

// ---- AS paths

fn pattern_of(alloc: Global, text: &[u8]) -> Result<TokenPattern, Memory>
    requires { FitsText text.now }
    ensures { IfOk result (λ pattern. pattern ≡ pattern_of text.now) }
{
    match read_junos_pattern(alloc, text) {
        Ok(pattern) => Ok(pattern),
        Err(PatternFault::Memory) => Err(Memory),
        Err(PatternFault::NotShaped) => unreachable!(),
    }
}

fn path_option(
    alloc: Global,
    name: &[u8],
    place: usize,
    text: &Row<u8>,
) -> Result<PolicyOption, Memory>
    requires fits { FitsText text.now }
    requires few { place < 2 ^ 63 }
    ensures { IfOk result (λ option. option ≡ path_option name.now place text.now) }
{
    let name = own_name(alloc, name, b"-a", place)?;
    let pattern = pattern_of(alloc, text.as_slice())?;
    let text = text.duplicate(alloc)?;
    Ok(PolicyOption::AsPath(PathDefinition {
        name,
        pattern,
        text,
    }))
}

/// Puts the definitions of AS paths at the end. Its one error is want of memory.
#[tactic(auto, unfolding(junos_layout::specs::Options::defined_from))]
pub(crate) fn push_paths(
    alloc: Global,
    out: &mut Row<PolicyOption>,
    name: &[u8],
    texts: &[Row<u8>],
) -> Result<(), Memory>
    requires fits { AllByRecursion FitsText texts.now }
    requires few { length texts.now < 2 ^ 63 }
    ensures { OnOk result (out.new ≡ out.old ++ defined_from (path_option name.now) 0 texts.now) }
{
    let mut place: usize = 0;
    let mut rest = texts;
    while let [text, tail @ ..] = rest {
        let option = path_option(alloc, name, place, text)?;
        out.push(option)?;
        place += 1;
        rest = tail;
    }
    Ok(())
}

// ---- communities

fn community_option(
    alloc: Global,
    name: &[u8],
    place: usize,
    members: &Row<Rect>,
) -> Result<PolicyOption, Memory>
    requires { place < 2 ^ 63 }
    ensures { IfOk result (λ option. option ≡ community_option name.now place members.now) }
{
    let name = own_name(alloc, name, b"-c", place)?;
    let members = members.duplicate(alloc)?;
    Ok(PolicyOption::Community(CommunityDefinition { name, members }))
}

/// Puts the definitions of communities at the end. Its one error is want of memory.
#[tactic(auto, unfolding(junos_layout::specs::Options::defined_from))]
pub(crate) fn push_communities(
    alloc: Global,
    out: &mut Row<PolicyOption>,
    name: &[u8],
    sets: &[Row<Rect>],
) -> Result<(), Memory>
    requires { length sets.now < 2 ^ 63 }
    ensures { OnOk result (out.new ≡ out.old ++ defined_from (community_option name.now) 0 sets.now) }
{
    let mut place: usize = 0;
    let mut rest = sets;
    while let [members, tail @ ..] = rest {
        let option = community_option(alloc, name, place, members)?;
        out.push(option)?;
        place += 1;
        rest = tail;
    }
    Ok(())
}

// ---- subroutines

/// What the terms of a sort of subroutines are.
pub(crate) trait Subroutines<D> {
    ghost terms: { AreNames → D → List IsContent };

    /// The terms of a subroutine. Its one error is want of memory.
    fn terms(alloc: Global, names: &Names, item: &D) -> Result<Row<PolicyTerm>, Memory>
        ensures { IfOk result (λ found. found ≡ numbered 1 (terms names.now item.now)) };
}

/// The subroutines of lists.
pub(crate) struct Lists;

impl Subroutines<PlannedList> for Lists {
    ghost terms = { λ names l. subroutine_terms (writing names) (OfList l) };

    #[tactic(auto, using(crate::proofs::Numbered::numbered_all))]
    fn terms(alloc: Global, names: &Names, list: &PlannedList) -> Result<Row<PolicyTerm>, Memory> {
        list_terms(alloc, names, list)
    }
}

/// The subroutines that refuse where a test holds.
pub(crate) struct Refusals;

impl Subroutines<PlannedTest> for Refusals {
    ghost terms = { λ names t. subroutine_terms (writing names) (Unless t) };

    #[tactic(auto, using(crate::proofs::Numbered::numbered_all))]
    fn terms(alloc: Global, names: &Names, test: &PlannedTest) -> Result<Row<PolicyTerm>, Memory> {
        refusal_terms(alloc, names, test)
    }
}

/// The subroutines of guards.
pub(crate) struct Guards;

impl Subroutines<Row<PlannedLiteral>> for Guards {
    ghost terms = { λ names g. subroutine_terms (writing names) (AllOf g) };

    #[tactic(auto, using(crate::proofs::Numbered::numbered_all))]
    fn terms(
        alloc: Global,
        names: &Names,
        literals: &Row<PlannedLiteral>,
    ) -> Result<Row<PolicyTerm>, Memory> {
        guard_terms(alloc, names, literals)
    }
}

// A subroutine, of which there are fewer than 2^63 terms.
#[tactic(auto, using(crate::proofs::Numbered::few_terms))]
fn subroutine_option<D, S: Subroutines<D>>(
    alloc: Global,
    names: &Names,
    place: usize,
    item: &D,
) -> Result<PolicyOption, Memory>
    requires { place < 2 ^ 63 }
    ensures option { IfOk result (λ option. option ≡ terms_option (subroutine_name names.now.name.now place) (S.terms names.now item.now)) }
    ensures few { OnOk result (length (S.terms names.now item.now) < 2 ^ 63) }
{
    let name = own_name(alloc, names.name, b"-s", place)?;
    let terms = S::terms(alloc, names, item)?;
    let _count = terms.as_slice().len();
    Ok(PolicyOption::Policy(PolicyDefinition { name, terms }))
}

/// Puts the definitions of subroutines at the end, which have the places behind those before them. Its one error is want of
/// memory.
#[tactic(auto, unfolding(junos_layout::specs::Options::defined_from))]
pub(crate) fn push_subroutines<D, S: Subroutines<D>>(
    alloc: Global,
    out: &mut Row<PolicyOption>,
    names: &Names,
    before: usize,
    items: &[D],
) -> Result<(), Memory>
    requires { before + length items.now < 2 ^ 63 }
    ensures options { OnOk result (out.new ≡ out.old ++ defined_from (λ n d. terms_option (subroutine_name names.now.name.now n) (S.terms names.now d)) before items.now) }
    ensures few { OnOk result (AllByRecursion (λ d. length (S.terms names.now d) < 2 ^ 63) items.now) }
{
    let mut place = before;
    let mut rest = items;
    while let [item, tail @ ..] = rest {
        let option = subroutine_option::<D, S>(alloc, names, place, item)?;
        out.push(option)?;
        place += 1;
        rest = tail;
    }
    Ok(())
}
