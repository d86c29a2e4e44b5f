// The words of tests and conditions.
ghost use Rattle.std.specs.Prelude.{◌≡◌, ◌++◌, ◌∷◌, [], List, ℕ, IfOk, codes};
ghost use Rattle.text_words.specs.Pieces.{pieces_text};
ghost use Rattle.rpl_words.specs.declared.condition.RplTest.TheVariants.{Med as HasMed};
ghost use Rattle.rpl_words.specs.declared.condition.Term.{Term as IsTerm};
ghost use Rattle.rpl_words.specs.declared.condition.Term.TheVariants.{And as IsAnd, Or as IsOr, Not as IsNot, Group as IsGroup};
ghost use Rattle.rpl_text.specs.Texts.{operands_text};
ghost use Rattle.rpl_text.specs.Words.{phrase_text, test_phrase, condition_phrase};

use crate::bytes::{push, push_all};
use crate::elements::push_path_test;
use crate::sets::{PathWords, PrefixWords, RectWords, push_set_behind};
use crate::values::{comparison_word, number32, origin_word};
use route_types::Rect;
use rpl_forms::{MedTest, PathElement, PrefixElement, RplTest, Term};
use std::alloc::Global;
use text_words::{Memory, Row, Stack};

#[tactic(auto, unfolding(text_words::specs::Pieces::pieces_text))]
fn push_med_test(alloc: Global, out: &mut Vec<u8>, test: &MedTest) -> Result<(), Memory>
    ensures { IfOk result (λ _. out.new.items ≡ out.old.items ++ phrase_text (test_phrase (HasMed test.now))) }
{
    let number = number32(alloc, &test.med)?;
    push_all(
        out,
        &[
            b"med ",
            comparison_word(test.comparison),
            b" ",
            number.as_slice(),
        ],
    )
}

#[tactic(auto, unfolding(text_words::specs::Pieces::pieces_text))]
fn push_test(alloc: Global, out: &mut Vec<u8>, test: &RplTest) -> Result<(), Memory>
    ensures { IfOk result (λ _. out.new.items ≡ out.old.items ++ phrase_text (test_phrase test.now)) }
{
    match test {
        RplTest::Destination(set) => {
            push_set_behind::<PrefixElement, PrefixWords>(alloc, out, b"destination in ", set)
        }
        RplTest::NextHop(set) => {
            push_set_behind::<PrefixElement, PrefixWords>(alloc, out, b"next-hop in ", set)
        }
        RplTest::PathIn(set) => {
            push_set_behind::<PathElement, PathWords>(alloc, out, b"as-path in ", set)
        }
        RplTest::Path(test) => {
            push(out, b"as-path ")?;
            push_path_test(alloc, out, test)
        }
        RplTest::MatchesAny(set) => {
            push_set_behind::<Rect, RectWords>(alloc, out, b"community matches-any ", set)
        }
        RplTest::MatchesEvery(set) => {
            push_set_behind::<Rect, RectWords>(alloc, out, b"community matches-every ", set)
        }
        RplTest::IsEmpty => push(out, b"community is-empty"),
        RplTest::Med(test) => push_med_test(alloc, out, test),
        RplTest::Origin(origin) => push_all(out, &[b"origin is ", origin_word(*origin)]),
    }
}

// ---- conditions: a stack of the texts of operands, the last one on top

#[tactic(auto, unfolding(crate::specs::Texts::operands_text))]
fn put_test(alloc: Global, stack: &mut Stack<Row<u8>>, test: &RplTest) -> Result<(), Memory>
    ensures { IfOk result (λ _. stack.new ≡ phrase_text (test_phrase test.now) ∷ stack.old) }
{
    let mut text = Vec::new(alloc);
    push_test(alloc, &mut text, test)?;
    stack.push(Row::from_vec(text))
}

// Parentheses round the last operand.
#[tactic(auto, unfolding(crate::specs::Texts::operands_text))]
fn group(alloc: Global, stack: &mut Stack<Row<u8>>) -> Result<(), Memory>
    ensures { IfOk result (λ _. (ts : List IsTerm) → operands_text stack.new ts ≡ operands_text stack.old (IsGroup ∷ ts)) }
{
    let Some(inner) = stack.pop() else {
        return Ok(());
    };
    let mut text = Vec::new(alloc);
    push(&mut text, b"(")?;
    push(&mut text, inner.as_slice())?;
    push(&mut text, b")")?;
    stack.push(Row::from_vec(text))
}

// `not` in front of the last operand.
#[tactic(auto, unfolding(crate::specs::Texts::operands_text))]
fn negate(alloc: Global, stack: &mut Stack<Row<u8>>) -> Result<(), Memory>
    ensures { IfOk result (λ _. (ts : List IsTerm) → operands_text stack.new ts ≡ operands_text stack.old (IsNot ∷ ts)) }
{
    let Some(inner) = stack.pop() else {
        return Ok(());
    };
    let mut text = Vec::new(alloc);
    push(&mut text, b"not ")?;
    push(&mut text, inner.as_slice())?;
    stack.push(Row::from_vec(text))
}

// A text, a word between blanks, and another text.
fn joined(first: Row<u8>, key: &[u8], second: &Row<u8>) -> Result<Row<u8>, Memory>
    ensures { IfOk result (λ r. r ≡ first ++ (key.now ++ second.now)) }
{
    let mut text = first.into_vec();
    push(&mut text, key)?;
    push(&mut text, second.as_slice())?;
    Ok(Row::from_vec(text))
}

// The last two operands with `and` between them.
#[tactic(auto, unfolding(crate::specs::Texts::operands_text))]
fn join(stack: &mut Stack<Row<u8>>) -> Result<(), Memory>
    ensures { IfOk result (λ _. (ts : List IsTerm) → operands_text stack.new ts ≡ operands_text stack.old (IsAnd ∷ ts)) }
{
    let Some(second) = stack.pop() else {
        return Ok(());
    };
    let Some(first) = stack.pop() else {
        return stack.push(second);
    };
    let text = joined(first, b" and ", &second)?;
    stack.push(text)
}

// The last two operands with `or` between them.
#[tactic(auto, unfolding(crate::specs::Texts::operands_text))]
fn divide(stack: &mut Stack<Row<u8>>) -> Result<(), Memory>
    ensures { IfOk result (λ _. (ts : List IsTerm) → operands_text stack.new ts ≡ operands_text stack.old (IsOr ∷ ts)) }
{
    let Some(second) = stack.pop() else {
        return Ok(());
    };
    let Some(first) = stack.pop() else {
        return stack.push(second);
    };
    let text = joined(first, b" or ", &second)?;
    stack.push(text)
}

#[tactic(auto, unfolding(crate::specs::Texts::operands_text))]
fn put_term(alloc: Global, stack: &mut Stack<Row<u8>>, term: &Term) -> Result<(), Memory>
    ensures { IfOk result (λ _. (ts : List IsTerm) → operands_text stack.new ts ≡ operands_text stack.old (term.now ∷ ts)) }
{
    match term {
        Term::Test(test) => put_test(alloc, stack, test),
        Term::Group => group(alloc, stack),
        Term::Not => negate(alloc, stack),
        Term::And => join(stack),
        Term::Or => divide(stack),
    }
}

#[tactic(auto, unfolding(crate::specs::Texts::operands_text))]
fn top(alloc: Global, stack: Stack<Row<u8>>) -> Row<u8>
    ensures { result ≡ operands_text stack [] }
{
    let mut stack = stack;
    match stack.pop() {
        None => Row::new(alloc),
        Some(text) => text,
    }
}

fn operands(alloc: Global, terms: &[Term]) -> Result<Row<u8>, Memory>
    ensures { IfOk result (λ r. r ≡ operands_text [] terms.now) }
{
    let mut stack = Stack::new(alloc);
    let mut rest = terms;
    while let [term, tail @ ..] = rest {
        put_term(alloc, &mut stack, term)?;
        rest = tail;
    }
    Ok(top(alloc, stack))
}

/// The text of a condition.
#[tactic(auto, using(crate::proofs::Texts::condition_text))]
pub(crate) fn condition(alloc: Global, terms: &[Term]) -> Result<Row<u8>, Memory>
    ensures { IfOk result (λ r. r ≡ phrase_text (condition_phrase terms.now)) }
{
    operands(alloc, terms)
}
