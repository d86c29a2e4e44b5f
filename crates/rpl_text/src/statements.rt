// The words of statements of a policy and of first lines.
ghost use Rattle.std.specs.Prelude.{◌≡◌, ◌++◌, ◌∷◌, [], IfOk, codes};
ghost use Rattle.text_words.specs.Pieces.{pieces_text};
ghost use Rattle.rpl_text.specs.Words.{phrase_text, laid, called, given, argument_text, set_phrase, rect_phrase, additive_words, count_words, next_hop_text, action_phrase, branch_phrase, statement_phrase, header_phrase};
ghost use Rattle.rpl_forms.specs.declared.item.Action.TheVariants.{SetCommunity as SetsCommunity, Prepend as Prepends};

use crate::bytes::{push, push_all};
use crate::conditions::condition;
use crate::sets::{ArgumentWord, GivenWord, RectWords, push_list, push_set_behind};
use crate::values::{digits, number16, number32, origin_word};
use route_types::{NextHop, Rect, push_address};
use rpl_forms::{
    Action, Apply, Argument, CommunitySetting, Header, PolicyStatement, Prepend, RplNumber, RplSet,
    Term,
};
use std::alloc::Global;
use text_words::{Memory, Row};

// ---- statements that change the route

// A number behind a keyword.
fn push_number(out: &mut Vec<u8>, key: &[u8], number: &Row<u8>) -> Result<(), Memory>
    ensures { IfOk result (λ _. out.new.items ≡ out.old.items ++ (key.now ++ (number.now ++ []))) }
{
    push_all(out, &[key, number.as_slice()])
}

fn next_hop(alloc: Global, hop: &NextHop) -> Result<Row<u8>, Memory>
    ensures { IfOk result (λ r. r ≡ next_hop_text hop.now) }
{
    let mut out = Vec::new(alloc);
    match hop {
        NextHop::At(address) => push_address(&mut out, address)?,
        NextHop::Own => push(&mut out, b"self")?,
    }
    Ok(Row::from_vec(out))
}

// A set behind words, with `additive` behind it or not.
fn push_set_then(
    alloc: Global,
    out: &mut Vec<u8>,
    words: &[u8],
    set: &RplSet<Rect>,
    additive: bool,
) -> Result<(), Memory>
    ensures { IfOk result (λ _. out.new.items ≡ out.old.items ++ (words.now ++ (phrase_text (set_phrase rect_phrase set.now) ++ pieces_text 39 (additive_words additive)))) }
{
    push_set_behind::<Rect, RectWords>(alloc, out, words, set)?;
    push_additive(out, additive)
}

fn push_setting(alloc: Global, out: &mut Vec<u8>, setting: &CommunitySetting) -> Result<(), Memory>
    ensures { IfOk result (λ _. out.new.items ≡ out.old.items ++ phrase_text (action_phrase (SetsCommunity setting.now))) }
{
    push_set_then(
        alloc,
        out,
        b"set community ",
        &setting.set,
        setting.additive,
    )
}

#[tactic(auto, unfolding(text_words::specs::Pieces::pieces_text))]
fn push_additive(out: &mut Vec<u8>, additive: bool) -> Result<(), Memory>
    ensures { IfOk result (λ _. out.new.items ≡ out.old.items ++ pieces_text 39 (additive_words additive)) }
{
    if additive {
        return push(out, b" additive");
    }
    Ok(())
}

#[tactic(auto, unfolding(text_words::specs::Pieces::pieces_text))]
fn push_count(alloc: Global, out: &mut Vec<u8>, count: &RplNumber<u8>) -> Result<(), Memory>
    ensures { IfOk result (λ _. out.new.items ≡ out.old.items ++ pieces_text 39 (count_words count.now)) }
{
    match count {
        RplNumber::Fixed(n) => {
            if *n == 1 {
                return Ok(());
            }
            let text = digits(alloc, u64::from(*n))?;
            push_all(out, &[b" ", text.as_slice()])
        }
        RplNumber::Parameter(x) => push_all(out, &[b" $", x.as_slice()]),
    }
}

// A number behind words, and how often it is put before the path.
fn push_counted(
    alloc: Global,
    out: &mut Vec<u8>,
    words: &[u8],
    number: &Row<u8>,
    count: &RplNumber<u8>,
) -> Result<(), Memory>
    ensures { IfOk result (λ _. out.new.items ≡ out.old.items ++ (words.now ++ (number.now ++ pieces_text 39 (count_words count.now)))) }
{
    push(out, words)?;
    push(out, number.as_slice())?;
    push_count(alloc, out, count)
}

#[tactic(auto, unfolding(text_words::specs::Pieces::pieces_text))]
fn push_prepend(alloc: Global, out: &mut Vec<u8>, prepend: &Prepend) -> Result<(), Memory>
    ensures { IfOk result (λ _. out.new.items ≡ out.old.items ++ phrase_text (action_phrase (Prepends prepend.now))) }
{
    let number = number32(alloc, &prepend.number)?;
    push_counted(alloc, out, b"prepend as-path ", &number, &prepend.count)
}

#[tactic(auto, unfolding(text_words::specs::Pieces::pieces_text))]
fn push_action(alloc: Global, out: &mut Vec<u8>, action: &Action) -> Result<(), Memory>
    ensures { IfOk result (λ _. out.new.items ≡ out.old.items ++ phrase_text (action_phrase action.now)) }
{
    match action {
        Action::SetMed(n) => {
            let number = number32(alloc, n)?;
            push_number(out, b"set med ", &number)
        }
        Action::SetLocalPreference(n) => {
            let number = number32(alloc, n)?;
            push_number(out, b"set local-preference ", &number)
        }
        Action::SetWeight(n) => {
            let number = number16(alloc, n)?;
            push_number(out, b"set weight ", &number)
        }
        Action::SetOrigin(origin) => push_all(out, &[b"set origin ", origin_word(*origin)]),
        Action::SetNextHop(hop) => {
            let hop = next_hop(alloc, hop)?;
            push_number(out, b"set next-hop ", &hop)
        }
        Action::SetCommunity(setting) => push_setting(alloc, out, setting),
        Action::DeleteCommunity(set) => {
            push_set_behind::<Rect, RectWords>(alloc, out, b"delete community in ", set)
        }
        Action::Prepend(prepend) => push_prepend(alloc, out, prepend),
    }
}

// ---- statements

// A name, and words in parentheses behind it, if there are any.
#[tactic(auto, unfolding(text_words::specs::Pieces::pieces_text))]
fn push_parameters(
    alloc: Global,
    out: &mut Vec<u8>,
    name: &[u8],
    parameters: &[Row<u8>],
) -> Result<(), Memory>
    ensures { IfOk result (λ _. out.new.items ≡ out.old.items ++ phrase_text (called given name.now parameters.now)) }
{
    match parameters {
        [] => push_all(out, &[name]),
        _ => {
            push(out, name)?;
            push_list::<Row<u8>, GivenWord>(alloc, out, parameters)
        }
    }
}

#[tactic(auto, unfolding(text_words::specs::Pieces::pieces_text))]
fn push_call(alloc: Global, out: &mut Vec<u8>, apply: &Apply) -> Result<(), Memory>
    ensures { IfOk result (λ _. out.new.items ≡ out.old.items ++ phrase_text (called argument_text apply.now.policy apply.now.arguments)) }
{
    let arguments = apply.arguments.as_slice();
    match arguments {
        [] => push_all(out, &[apply.policy.as_slice()]),
        _ => {
            push(out, apply.policy.as_slice())?;
            push_list::<Argument, ArgumentWord>(alloc, out, arguments)
        }
    }
}

// A text between a word and `then`.
fn push_then(out: &mut Vec<u8>, key: &[u8], condition: &Row<u8>) -> Result<(), Memory>
    ensures { IfOk result (λ _. out.new.items ≡ out.old.items ++ (key.now ++ 32 ∷ (condition.now ++ codes " then"))) }
{
    push(out, key)?;
    push(out, b" ")?;
    push(out, condition.as_slice())?;
    push(out, b" then")
}

// A condition between a word and `then`.
fn push_branch(alloc: Global, out: &mut Vec<u8>, key: &[u8], terms: &[Term]) -> Result<(), Memory>
    ensures { IfOk result (λ _. out.new.items ≡ out.old.items ++ phrase_text (branch_phrase key.now terms.now)) }
{
    let condition = condition(alloc, terms)?;
    push_then(out, key, &condition)
}

/// A statement of a policy.
#[tactic(auto, unfolding(text_words::specs::Pieces::pieces_text))]
pub(crate) fn push_statement(
    alloc: Global,
    out: &mut Vec<u8>,
    statement: &PolicyStatement,
) -> Result<(), Memory>
    ensures { IfOk result (λ _. out.new.items ≡ out.old.items ++ phrase_text (statement_phrase statement.now)) }
{
    match statement {
        PolicyStatement::If(terms) => push_branch(alloc, out, b"if", terms.as_slice()),
        PolicyStatement::ElseIf(terms) => push_branch(alloc, out, b"elseif", terms.as_slice()),
        PolicyStatement::Else => push(out, b"else"),
        PolicyStatement::EndIf => push(out, b"endif"),
        PolicyStatement::Pass => push(out, b"pass"),
        PolicyStatement::Done => push(out, b"done"),
        PolicyStatement::Drop => push(out, b"drop"),
        PolicyStatement::Act(action) => push_action(alloc, out, action),
        PolicyStatement::Apply(apply) => {
            push(out, b"apply ")?;
            push_call(alloc, out, apply)
        }
    }
}

/// What stands behind the keyword in the first line of a block.
#[tactic(auto, unfolding(text_words::specs::Pieces::pieces_text))]
pub(crate) fn push_header(alloc: Global, out: &mut Vec<u8>, header: &Header) -> Result<(), Memory>
    ensures { IfOk result (λ _. out.new.items ≡ out.old.items ++ phrase_text (header_phrase header.now)) }
{
    match header {
        Header::PrefixSet(name) => push_all(out, &[name.as_slice()]),
        Header::CommunitySet(name) => push_all(out, &[name.as_slice()]),
        Header::PathSet(name) => push_all(out, &[name.as_slice()]),
        Header::Policy(policy) => {
            push_parameters(
                alloc,
                out,
                policy.name.as_slice(),
                policy.parameters.as_slice(),
            )
        }
    }
}
