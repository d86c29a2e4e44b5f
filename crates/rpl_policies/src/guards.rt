// Guards as conditions: their terms, each behind what it joins.
ghost use Rattle.std.specs.Prelude.{◌≡◌, ◌++◌, ◌∷◌, [], OnOk, IfOk, map};
ghost use Rattle.std.specs.List.{flat_map};
ghost use Rattle.std.specs.Prelude.{true};
ghost use Rattle.rpl_words.specs.Conditions.{Asks, Negated, terms_of};
ghost use Rattle.rpl_words.specs.declared.condition.Term.TheVariants.{Test as IsTest, And as IsAnd, Or as IsOr};
ghost use Rattle.rpl_layout.specs.Guards.{term_conditions, term_condition, terms_condition, unwanted, wanted_among, literal_among, literal_alone, guard_condition, behind_denied};
ghost use Rattle.rpl_policies.specs.Names.{writing};
ghost use Rattle.rpl_policies.specs.Postfix.{each_before, and_where, joined_terms, is_lone};

use crate::names::Names;
use route_types::{Memory, Row};
use rpl_plans::{PlannedLiteral, PlannedTerm, PlannedTerms, PlannedTest};
use rpl_words::Term;
use std::alloc::Global;

// ---- tests and the terms of lists

fn push_test(
    alloc: Global,
    out: &mut Row<Term>,
    names: &Names,
    test: &PlannedTest,
) -> Result<(), Memory>
    ensures { OnOk result (out.new ≡ out.old ++ IsTest (writing names.now test.now) ∷ []) }
{
    let test = names.written(alloc, test)?;
    out.push(Term::Test(test))
}

// `not` before a test.
#[tactic(auto, unfolding(rpl_words::specs::Conditions::terms_of))]
fn push_denied(
    alloc: Global,
    out: &mut Row<Term>,
    names: &Names,
    test: &PlannedTest,
) -> Result<(), Memory>
    ensures { OnOk result (out.new ≡ out.old ++ terms_of (Negated (Asks (writing names.now test.now)))) }
{
    push_test(alloc, out, names, test)?;
    out.push(Term::Not)
}

#[tactic(auto, unfolding(crate::specs::Postfix::each_before))]
fn push_later_denied(
    alloc: Global,
    out: &mut Row<Term>,
    names: &Names,
    tests: &[PlannedTest],
) -> Result<(), Memory>
    ensures { OnOk result (out.new ≡ out.old ++ each_before IsAnd (map (λ t. Negated (Asks (writing names.now t))) tests.now)) }
{
    let mut rest = tests;
    while let [test, tail @ ..] = rest {
        push_denied(alloc, out, names, test)?;
        out.push(Term::And)?;
        rest = tail;
    }
    Ok(())
}

// `and`, where something stands before.
#[tactic(auto, unfolding(crate::specs::Postfix::and_where))]
fn push_and(out: &mut Row<Term>, joined: bool) -> Result<(), Memory>
    ensures { OnOk result (out.new ≡ out.old ++ and_where joined) }
{
    if joined {
        return out.push(Term::And);
    }
    Ok(())
}

// A permit set behind `not` of the deny sets.
fn push_denied_first(
    alloc: Global,
    out: &mut Row<Term>,
    names: &Names,
    joined: bool,
    first: &PlannedTest,
    others: &[PlannedTest],
    permitted: &PlannedTest,
) -> Result<(), Memory>
    ensures { OnOk result (out.new ≡ out.old ++ joined_terms joined (behind_denied (writing names.now) (first.now ∷ others.now) permitted.now)) }
{
    push_denied(alloc, out, names, first)?;
    push_and(out, joined)?;
    push_later_denied(alloc, out, names, others)?;
    push_test(alloc, out, names, permitted)?;
    out.push(Term::And)?;
    Ok(())
}

fn push_lone(
    alloc: Global,
    out: &mut Row<Term>,
    names: &Names,
    joined: bool,
    permitted: &PlannedTest,
) -> Result<(), Memory>
    ensures { OnOk result (out.new ≡ out.old ++ joined_terms joined (behind_denied (writing names.now) [] permitted.now)) }
{
    push_test(alloc, out, names, permitted)?;
    push_and(out, joined)?;
    Ok(())
}

fn push_term(
    alloc: Global,
    out: &mut Row<Term>,
    names: &Names,
    joined: bool,
    term: &PlannedTerm,
) -> Result<(), Memory>
    ensures { OnOk result (out.new ≡ out.old ++ joined_terms joined (term_conditions (writing names.now) term.now)) }
{
    match term.denied.as_slice() {
        [] => push_lone(alloc, out, names, joined, &term.permitted),
        [first, others @ ..] => {
            push_denied_first(alloc, out, names, joined, first, others, &term.permitted)
        }
    }
}

// A term with nothing before it.
#[tactic(auto, using(crate::proofs::Postfix::term_terms))]
fn push_term_alone(
    alloc: Global,
    out: &mut Row<Term>,
    names: &Names,
    term: &PlannedTerm,
) -> Result<(), Memory>
    ensures { OnOk result (out.new ≡ out.old ++ terms_of (term_condition (writing names.now) term.now)) }
{
    push_term(alloc, out, names, false, term)
}

// Terms, each with `or` behind it.
#[tactic(auto, unfolding(crate::specs::Postfix::each_before))]
fn push_later_terms(
    alloc: Global,
    out: &mut Row<Term>,
    names: &Names,
    terms: &[PlannedTerm],
) -> Result<(), Memory>
    ensures { OnOk result (out.new ≡ out.old ++ each_before IsOr (map (λ u. term_condition (writing names.now) u) terms.now)) }
{
    let mut rest = terms;
    while let [term, tail @ ..] = rest {
        push_term_alone(alloc, out, names, term)?;
        out.push(Term::Or)?;
        rest = tail;
    }
    Ok(())
}

fn push_terms(
    alloc: Global,
    out: &mut Row<Term>,
    names: &Names,
    terms: &PlannedTerms,
) -> Result<(), Memory>
    ensures { OnOk result (out.new ≡ out.old ++ terms_of (terms_condition (writing names.now) terms.now.first terms.now.others)) }
{
    push_term_alone(alloc, out, names, &terms.first)?;
    push_later_terms(alloc, out, names, terms.others.as_slice())?;
    Ok(())
}

// ---- literals

fn is_lone(denied: &[PlannedTest], others: &[PlannedTerm]) -> bool
    ensures { result ≡ is_lone denied.now others.now }
{
    denied.is_empty() && others.is_empty()
}

// `not` before a literal that isn't wanted.
fn push_unwanted(
    alloc: Global,
    out: &mut Row<Term>,
    names: &Names,
    terms: &PlannedTerms,
) -> Result<(), Memory>
    ensures { OnOk result (out.new ≡ out.old ++ terms_of (unwanted (writing names.now) terms.now.first.denied terms.now.first.permitted terms.now.others)) }
{
    if is_lone(terms.first.denied.as_slice(), terms.others.as_slice()) {
        return push_denied(alloc, out, names, &terms.first.permitted);
    }
    push_terms(alloc, out, names, terms)?;
    out.push(Term::Group)?;
    out.push(Term::Not)?;
    Ok(())
}

// A wanted literal among others, its terms in parentheses where there are several.
fn push_wanted(
    alloc: Global,
    out: &mut Row<Term>,
    names: &Names,
    joined: bool,
    terms: &PlannedTerms,
) -> Result<(), Memory>
    ensures { OnOk result (out.new ≡ out.old ++ joined_terms joined (wanted_among (writing names.now) terms.now.first terms.now.others)) }
{
    if terms.others.is_empty() {
        return push_term(alloc, out, names, joined, &terms.first);
    }
    push_terms(alloc, out, names, terms)?;
    out.push(Term::Group)?;
    push_and(out, joined)?;
    Ok(())
}

fn push_literal(
    alloc: Global,
    out: &mut Row<Term>,
    names: &Names,
    joined: bool,
    literal: &PlannedLiteral,
) -> Result<(), Memory>
    ensures { OnOk result (out.new ≡ out.old ++ joined_terms joined (literal_among (writing names.now) literal.now)) }
{
    if literal.wanted {
        return push_wanted(alloc, out, names, joined, &literal.terms);
    }
    push_unwanted(alloc, out, names, &literal.terms)?;
    push_and(out, joined)?;
    Ok(())
}

fn push_later_literals(
    alloc: Global,
    out: &mut Row<Term>,
    names: &Names,
    literals: &[PlannedLiteral],
) -> Result<(), Memory>
    ensures { OnOk result (out.new ≡ out.old ++ flat_map (λ m. joined_terms true (literal_among (writing names.now) m)) literals.now) }
{
    let mut rest = literals;
    while let [literal, tail @ ..] = rest {
        push_literal(alloc, out, names, true, literal)?;
        rest = tail;
    }
    Ok(())
}

fn push_literal_alone(
    alloc: Global,
    out: &mut Row<Term>,
    names: &Names,
    literal: &PlannedLiteral,
) -> Result<(), Memory>
    ensures { OnOk result (out.new ≡ out.old ++ terms_of (literal_alone (writing names.now) literal.now)) }
{
    if literal.wanted {
        return push_terms(alloc, out, names, &literal.terms);
    }
    push_unwanted(alloc, out, names, &literal.terms)
}

/// The condition of a guard, of a literal and those behind it. Its one error is want of memory.
pub(crate) fn guard_terms(
    alloc: Global,
    names: &Names,
    first: &PlannedLiteral,
    others: &[PlannedLiteral],
) -> Result<Row<Term>, Memory>
    ensures { IfOk result (λ terms. terms ≡ terms_of (guard_condition (writing names.now) first.now others.now)) }
{
    let mut out = Row::new(alloc);
    if others.is_empty() {
        push_literal_alone(alloc, &mut out, names, first)?;
        return Ok(out);
    }
    push_literal(alloc, &mut out, names, false, first)?;
    push_later_literals(alloc, &mut out, names, others)?;
    Ok(out)
}
