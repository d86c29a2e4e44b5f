//! Loading: what a source has under its names, read and checked.
ghost use Rattle.std.specs.Prelude.{◌≡◌, ◌<◌, [], ◌∷◌, IfErr, IfOk, length};
ghost use Rattle.ios_reader.specs.Profile.{all_forms};
ghost use Rattle.rpl_meaning.specs.Meaning.{name_of};
ghost use Rattle.policy_request.specs.Languages.{names_from, texts_of};
ghost use Rattle.policy_sources.specs.Source.{Loaded, Loads, OfJunos, OfRpl, ios_source, junos_source, rpl_source, source_in};
ghost use Rattle.policy_sources.specs.Loading.{FailsToLoad, IsLoaded, fault_of_check, fault_of_text, policy_of};

use ios_reader::{AllForms, CheckedIos, Takes, check_ios_within, read_ios};
use junos_meaning::{CheckedJunos, check_junos, read_junos};
use policy_request::{Language, names_of};
use policy_text::{BrokenKind, Cause, CheckFault, Span, TextFault, copied};
use route_types::{Memory, Row};
use rpl_reader::{CheckedRpl, check_rpl};
use rpl_tree::read_rpl;
use std::alloc::Global;

/// Why a source does not load.
#[derive(Clone, Copy, Debug, PartialEq, Eq)]
pub enum LoadFault {
    /// The text is broken here, so that it has no tree.
    Broken { span: Span, kind: BrokenKind },
    /// The name at this place, from 0, is the first under which no policy stands.
    NoPolicy { place: usize },
    /// The first fault of the profile, or a statement of a form that isn't taken.
    Outside { span: Span, cause: Cause },
    /// Want of memory.
    Memory,
}

/// A policy that is loaded, by its language.
#[derive(Drop)]
pub enum LoadedPolicy {
    /// A route-map.
    Ios(CheckedIos),
    /// A chain of policy-statements.
    Junos(CheckedJunos),
    /// A route-policy.
    Rpl(CheckedRpl),
}

fn fault_of_text(fault: TextFault) -> LoadFault
    ensures { result ≡ fault_of_text fault }
{
    match fault {
        TextFault::Broken { span, kind } => LoadFault::Broken { span, kind },
        TextFault::Memory => LoadFault::Memory,
    }
}

fn fault_of_check(fault: CheckFault) -> LoadFault
    ensures { result ≡ fault_of_check fault }
{
    match fault {
        CheckFault::NoPolicy { place } => LoadFault::NoPolicy { place },
        CheckFault::Outside { span, cause } => LoadFault::Outside { span, cause },
        CheckFault::Memory => LoadFault::Memory,
    }
}

/// The policy of this name in an IOS text, for a verb that takes the forms that `T` says.
///
/// `NoPolicy` where no route-map stands under the name, `Outside` with the first fault of the profile where the
/// policy has one, a form that isn't taken being unknown, `Memory` for want of memory. An IOS text is never broken.
#[tactic(auto, using(crate::proofs::Loaded::loaded, crate::proofs::Loaded::fails))]
pub fn load_ios<T: Takes>(
    alloc: Global,
    text: &[u8],
    policy: &[u8],
) -> Result<CheckedIos, LoadFault>
    ensures loaded { IfOk result (IsLoaded T.takes text.now policy.now) }
    ensures fault { IfErr result (FailsToLoad T.takes (ios_source policy.now text.now)) }
{
    let Ok(tree) = read_ios(alloc, text) else {
        return Err(LoadFault::Memory);
    };
    match check_ios_within::<T>(alloc, tree, policy) {
        Ok(checked) => Ok(checked),
        Err(fault) => Err(fault_of_check(fault)),
    }
}

/// The names as rows of bytes.
fn rows_of(alloc: Global, names: &[&[u8]]) -> Result<Row<Row<u8>>, Memory>
    ensures { IfOk result (λ rows. rows ≡ texts_of names.now) }
{
    let mut rows = Row::new(alloc);
    let mut rest = names;
    while let [name, tail @ ..] = rest {
        rows.push(copied(alloc, name)?)?;
        rest = tail;
    }
    Ok(rows)
}

/// The chain of the policies of these names in a Junos text.
///
/// `Broken` with the first fault of a text that has no tree, `NoPolicy` with the first name under which no
/// policy-statement stands, `Outside` with the first fault of the profile where the chain has one, `Memory` for want of
/// memory.
#[tactic(auto, using(crate::proofs::Loaded::chain_loaded, crate::proofs::Loaded::chain_broken, crate::proofs::Loaded::chain_fails))]
pub fn load_junos(alloc: Global, text: &[u8], names: &[&[u8]]) -> Result<CheckedJunos, LoadFault>
    requires { 0 < length names.now }
    ensures loaded { IfOk result (λ c. Loads all_forms (junos_source (texts_of names.now) text.now) (Loaded (OfJunos c.items c.names))) }
    ensures fault { IfErr result (FailsToLoad all_forms (junos_source (texts_of names.now) text.now)) }
{
    let Ok(rows) = rows_of(alloc, names) else {
        return Err(LoadFault::Memory);
    };
    match read_junos(alloc, text) {
        Ok(tree) => match check_junos(alloc, tree, rows.as_slice()) {
            Ok(checked) => Ok(checked),
            Err(fault) => Err(fault_of_check(fault)),
        },
        Err(fault) => Err(fault_of_text(fault)),
    }
}

/// The policy of this name in an RPL text.
///
/// `Broken` with the first fault of a text that has no tree, `NoPolicy` where no route-policy stands under the name,
/// `Outside` with the first fault of the profile where the policy has one, `Memory` for want of memory.
#[tactic(auto, using(crate::proofs::Loaded::named_loaded, crate::proofs::Loaded::named_broken, crate::proofs::Loaded::named_fails))]
pub fn load_rpl(alloc: Global, text: &[u8], policy: &[u8]) -> Result<CheckedRpl, LoadFault>
    ensures loaded { IfOk result (λ c. Loads all_forms (rpl_source policy.now text.now) (Loaded (OfRpl c.items (name_of c)))) }
    ensures fault { IfErr result (FailsToLoad all_forms (rpl_source policy.now text.now)) }
{
    match read_rpl(alloc, text) {
        Ok(tree) => match check_rpl(alloc, tree, policy) {
            Ok(checked) => Ok(checked),
            Err(fault) => Err(fault_of_check(fault)),
        },
        Err(fault) => Err(fault_of_text(fault)),
    }
}

/// What a policy word of a language names in a text: its policy, or why there is none.
pub fn load(
    alloc: Global,
    language: Language,
    word: &[u8],
    text: &[u8],
) -> Result<LoadedPolicy, LoadFault>
    ensures loaded { IfOk result (λ p. Loads all_forms (source_in language word.now text.now) (Loaded (policy_of p))) }
    ensures fault { IfErr result (FailsToLoad all_forms (source_in language word.now text.now)) }
{
    match language {
        Language::Ios => load_map(alloc, word, text),
        Language::Junos => load_chain(alloc, word, text),
        Language::Rpl => load_policy(alloc, word, text),
    }
}

/// The same of an IOS text.
#[tactic(auto, using(crate::proofs::Loaded::map_loaded))]
fn load_map(alloc: Global, word: &[u8], text: &[u8]) -> Result<LoadedPolicy, LoadFault>
    ensures loaded { IfOk result (λ p. Loads all_forms (ios_source word.now text.now) (Loaded (policy_of p))) }
    ensures fault { IfErr result (FailsToLoad all_forms (ios_source word.now text.now)) }
{
    match load_ios::<AllForms>(alloc, text, word) {
        Ok(checked) => Ok(LoadedPolicy::Ios(checked)),
        Err(fault) => Err(fault),
    }
}

/// The same of a Junos text.
fn load_chain(alloc: Global, word: &[u8], text: &[u8]) -> Result<LoadedPolicy, LoadFault>
    ensures loaded { IfOk result (λ p. Loads all_forms (junos_source (names_from [] word.now) text.now) (Loaded (policy_of p))) }
    ensures fault { IfErr result (FailsToLoad all_forms (junos_source (names_from [] word.now) text.now)) }
{
    let Ok(names) = names_of(alloc, Language::Junos, word) else {
        return Err(LoadFault::Memory);
    };
    match load_junos(alloc, text, names.as_slice()) {
        Ok(checked) => Ok(LoadedPolicy::Junos(checked)),
        Err(fault) => Err(fault),
    }
}

/// The same of an RPL text.
fn load_policy(alloc: Global, word: &[u8], text: &[u8]) -> Result<LoadedPolicy, LoadFault>
    ensures loaded { IfOk result (λ p. Loads all_forms (rpl_source word.now text.now) (Loaded (policy_of p))) }
    ensures fault { IfErr result (FailsToLoad all_forms (rpl_source word.now text.now)) }
{
    match load_rpl(alloc, text, word) {
        Ok(checked) => Ok(LoadedPolicy::Rpl(checked)),
        Err(fault) => Err(fault),
    }
}
