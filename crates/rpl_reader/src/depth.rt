//! How deep `if`s and the parentheses of conditions are nested.
ghost use Rattle.std.specs.Prelude.{◌≡◌, ◌+◌, ◌<◌, ◌≤◌, ◌^◌, ℕ, List, [], ◌∷◌, ◌||◌, IfOk, OnOk, false};
ghost use Rattle.rpl_words.specs.declared.condition.Term.{Term as SpecTerm};
ghost use Rattle.rpl_words.specs.declared.condition.Term.TheVariants.{Group};
ghost use Rattle.rpl_reader.specs.Depth.{is_if, ifs_behind, ifs_past_word, joined, has_deep_group, groups_deep, condition_deep, is_too_deep};

use route_types::Memory;
use rpl_forms::{IfWord, OtherItem, PolicyStatement, RplForm, Term};
use std::alloc::Global;
use text_words::Stack;

pub(crate) fn is_if(form: &RplForm) -> bool
    ensures { result ≡ is_if form.now }
{
    match form {
        RplForm::Statement(PolicyStatement::If(_)) => true,
        RplForm::Other(
            OtherItem {
                keyword: Some(IfWord::If),
                ..
            },
        ) => true,
        _ => false,
    }
}

fn if_word(form: &RplForm) -> Option<IfWord>
    ensures { (n : ℕ) → ifs_behind form.now n ≡ ifs_past_word result n }
{
    match form {
        RplForm::Statement(PolicyStatement::If(_)) => Some(IfWord::If),
        RplForm::Statement(PolicyStatement::EndIf) => Some(IfWord::EndIf),
        RplForm::Other(other) => other.keyword,
        _ => None,
    }
}

// The `if`s that are open behind a form.
pub(crate) fn ifs_behind(form: &RplForm, open_ifs: u64) -> u64
    requires { open_ifs < 2 ^ 63 }
    ensures value { result ≡ ifs_behind form.now open_ifs }
    ensures few { result ≤ open_ifs + 1 }
{
    match if_word(form) {
        Some(IfWord::If) => open_ifs + 1,
        Some(IfWord::EndIf) => open_ifs.saturating_sub(1),
        _ => open_ifs,
    }
}

// ---- parentheses

// Joins the last two conditions.
fn join(depths: &mut Stack<u64>) -> Result<(), Memory>
    ensures { OnOk result (depths.new ≡ joined depths.old) }
{
    let Some(last) = depths.pop() else {
        return Ok(());
    };
    let Some(before) = depths.pop() else {
        return depths.push(last);
    };
    if last < before {
        return depths.push(before);
    }
    depths.push(last)
}

// Puts a parenthesis round the last condition; says whether that lies beyond nesting 128.
#[tactic(auto, unfolding(crate::specs::Depth::has_deep_group))]
fn group(depths: &mut Stack<u64>) -> Result<bool, Memory>
    ensures { IfOk result (λ deep. (rest : List SpecTerm) → has_deep_group depths.old (Group ∷ rest) ≡ (deep || has_deep_group depths.new rest)) }
{
    let Some(depth) = depths.pop() else {
        return Ok(false);
    };
    if 128 <= depth {
        return Ok(true);
    }
    depths.push(depth + 1)?;
    Ok(false)
}

// Takes a term; says whether it is a parenthesis beyond nesting 128.
#[tactic(auto, unfolding(crate::specs::Depth::has_deep_group))]
fn take(depths: &mut Stack<u64>, term: &Term) -> Result<bool, Memory>
    ensures { IfOk result (λ deep. (rest : List SpecTerm) → has_deep_group depths.old (term.now ∷ rest) ≡ (deep || has_deep_group depths.new rest)) }
{
    match term {
        Term::Test(_) => {
            depths.push(0)?;
            Ok(false)
        }
        Term::Group => {
            let deep = group(depths)?;
            Ok(deep)
        }
        Term::Not => Ok(false),
        Term::And => {
            join(depths)?;
            Ok(false)
        }
        Term::Or => {
            join(depths)?;
            Ok(false)
        }
    }
}

// Whether a parenthesis of the terms lies beyond nesting 128.
#[tactic(auto, unfolding(crate::specs::Depth::has_deep_group))]
fn has_deep_group(alloc: Global, terms: &[Term]) -> Result<bool, Memory>
    ensures { IfOk result (λ b. b ≡ has_deep_group [] terms.now) }
{
    let mut depths = Stack::new(alloc);
    let mut rest = terms;
    while let [first, tail @ ..] = rest {
        if take(&mut depths, first)? {
            return Ok(true);
        }
        rest = tail;
    }
    Ok(false)
}

fn condition_deep(alloc: Global, form: &RplForm) -> Result<bool, Memory>
    ensures { IfOk result (λ b. b ≡ condition_deep form.now) }
{
    match form {
        RplForm::Statement(PolicyStatement::If(terms)) => has_deep_group(alloc, terms.as_slice()),
        RplForm::Statement(PolicyStatement::ElseIf(terms)) => {
            has_deep_group(alloc, terms.as_slice())
        }
        _ => Ok(false),
    }
}

// Whether the form is an `if`, or has a parenthesis, beyond nesting 128, where so many `if`s are open.
pub(crate) fn is_too_deep(alloc: Global, open_ifs: u64, form: &RplForm) -> Result<bool, Memory>
    ensures { IfOk result (λ b. b ≡ is_too_deep open_ifs form.now) }
{
    if is_if(form) && 128 <= open_ifs {
        return Ok(true);
    }
    condition_deep(alloc, form)
}
