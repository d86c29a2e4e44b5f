// The words of actions.
ghost use Rattle.std.specs.Prelude.{◌≡◌, ◌++◌, ◌∷◌, [], IfOk, codes, decimal};
ghost use Rattle.text_words.specs.Pieces.{words_text};
ghost use Rattle.junos_text.specs.Texts.{quoted, prepend_text, action_text};
ghost use Rattle.junos_text.specs.Words.{flow_words, numbers_text, verb_text};

use crate::lines::push_quoted;
use crate::words::{digits, next_hop_word, numbers_word, origin_word, push, verb_word};
use junos_tree::{Action, CommunityVerb, Flow};
use std::alloc::Global;
use text_words::{Memory, push_words};

fn push_two(out: &mut Vec<u8>, first: &[u8], second: &[u8]) -> Result<(), Memory>
    ensures { IfOk result (λ _. out.new.items ≡ out.old.items ++ words_text (first.now ∷ second.now ∷ [])) }
{
    push_words(out, &[first, second])
}

fn push_three(out: &mut Vec<u8>, first: &[u8], second: &[u8], third: &[u8]) -> Result<(), Memory>
    ensures { IfOk result (λ _. out.new.items ≡ out.old.items ++ words_text (first.now ∷ second.now ∷ third.now ∷ [])) }
{
    push_words(out, &[first, second, third])
}

#[tactic(auto, unfolding(text_words::specs::Pieces::words_text))]
fn push_flow(out: &mut Vec<u8>, flow: Flow) -> Result<(), Memory>
    ensures { IfOk result (λ _. out.new.items ≡ out.old.items ++ words_text (flow_words flow)) }
{
    match flow {
        Flow::Accept => push(out, b"accept"),
        Flow::Reject => push(out, b"reject"),
        Flow::NextTerm => push(out, b"next term"),
        Flow::NextPolicy => push(out, b"next policy"),
    }
}

fn push_setting(alloc: Global, out: &mut Vec<u8>, key: &[u8], number: u32) -> Result<(), Memory>
    ensures { IfOk result (λ _. out.new.items ≡ out.old.items ++ words_text (key.now ∷ decimal number ∷ [])) }
{
    let word = digits(alloc, u64::from(number))?;
    push_two(out, key, word.as_slice())
}

fn push_preference(alloc: Global, out: &mut Vec<u8>, number: u32) -> Result<(), Memory>
    ensures { IfOk result (λ _. out.new.items ≡ out.old.items ++ words_text (codes "local-preference" ∷ decimal number ∷ [])) }
{
    push_setting(alloc, out, b"local-preference", number)
}

fn push_community(out: &mut Vec<u8>, verb: CommunityVerb, name: &[u8]) -> Result<(), Memory>
    ensures { IfOk result (λ _. out.new.items ≡ out.old.items ++ words_text (codes "community" ∷ verb_text verb ∷ name.now ∷ [])) }
{
    push_three(out, b"community", verb_word(verb), name)
}

// A word, and a text in quotes.
fn push_key_quoted(out: &mut Vec<u8>, key: &[u8], text: &[u8]) -> Result<(), Memory>
    ensures { IfOk result (λ _. out.new.items ≡ out.old.items ++ (words_text (key.now ∷ []) ++ quoted text.now)) }
{
    push_words(out, &[key])?;
    push_quoted(out, text)
}

fn push_prepend_word(out: &mut Vec<u8>, word: &[u8]) -> Result<(), Memory>
    ensures { IfOk result (λ _. out.new.items ≡ out.old.items ++ prepend_text word.now) }
{
    push_key_quoted(out, b"as-path-prepend", word)
}

fn push_prepend(alloc: Global, out: &mut Vec<u8>, numbers: &[u32]) -> Result<(), Memory>
    ensures { IfOk result (λ _. out.new.items ≡ out.old.items ++ prepend_text (numbers_text numbers.now)) }
{
    let word = numbers_word(alloc, numbers)?;
    push_prepend_word(out, word.as_slice())
}

/// The words of an action.
pub(crate) fn push_action(alloc: Global, out: &mut Vec<u8>, action: &Action) -> Result<(), Memory>
    ensures { IfOk result (λ _. out.new.items ≡ out.old.items ++ action_text action.now) }
{
    match action {
        Action::Flow(flow) => push_flow(out, *flow),
        Action::Metric(number) => push_setting(alloc, out, b"metric", *number),
        Action::LocalPreference(number) => push_preference(alloc, out, *number),
        Action::Origin(origin) => push_two(out, b"origin", origin_word(*origin)),
        Action::NextHop(hop) => {
            let word = next_hop_word(alloc, hop)?;
            push_two(out, b"next-hop", word.as_slice())
        }
        Action::Community(change) => push_community(out, change.verb, change.community.as_slice()),
        Action::Prepend(numbers) => push_prepend(alloc, out, numbers.as_slice()),
    }
}
