//! Headers of blocks, and statements within blocks.

ghost use Rattle.std.specs.Prelude.{◌≡◌, ◌∷◌, [], IfOk, codes, option_map};
ghost use Rattle.route_types.specs.Words.{address_in};
ghost use Rattle.policy_text.specs.Phrases.{one_of};
ghost use Rattle.rpl_words.specs.Tokens.{token, tokens, plain_in, only, behind, called_in};
ghost use Rattle.rpl_words.specs.Values.{header_name_in, parameter_in, inner_name_in, number_or_given};
ghost use Rattle.rpl_forms.specs.Statements.{single_words, set_header_in, policy_header_in, header_in, branch_in, next_hop_in, argument_in, apply_in, single_word_in, conditional_in, statement_in, form_in};
ghost use Rattle.rpl_forms.specs.Statements.{action_in};
ghost use Rattle.rpl_forms.specs.declared.item.Header.TheVariants.{PrefixSet, CommunitySet, PathSet};
ghost use Rattle.rpl_forms.specs.declared.item.PolicyStatement.TheVariants.{Act};
ghost use Rattle.text_words.specs.declared.rpl_blocks.BlockKind.TheVariants.{PrefixSet as PrefixBlock, CommunitySet as CommunityBlock, PathSet as PathBlock, Policy as PolicyBlock};

use crate::actions::action_in;
use crate::condition_words::condition_in;
use crate::item::{Apply, Argument, Header, PolicyHeader, PolicyStatement, RplForm};
use policy_text::{Reads, Word};
use route_types::{Memory, Rect, Row};
use rpl_words::{
    Element, HeaderName, InnerName, OwnPath, OwnPrefix, ParameterName, PathElement, PrefixElement,
    ReadsWords, RectElement, Term, after, called, ended_by, one_plain,
};
use std::alloc::Global;
use text_words::BlockKind;

// ---- headers

// The name of a set behind its keyword.
#[tactic(auto, unfolding(crate::specs::Statements::set_header_in))]
fn set_header(alloc: Global, words: &[Word], key: &[u8]) -> Result<Option<Row<u8>>, Memory>
    ensures { IfOk result (λ o. o ≡ set_header_in key.now (tokens words.now)) }
{
    match after(words, &[key]) {
        None => Ok(None),
        Some(rest) => one_plain::<Row<u8>, HeaderName>(alloc, rest),
    }
}

fn prefix_set_header(alloc: Global, words: &[Word]) -> Result<Option<Header>, Memory>
    ensures { IfOk result (λ o. o ≡ option_map (λ n. PrefixSet n) (set_header_in (codes "prefix-set") (tokens words.now))) }
{
    match set_header(alloc, words, b"prefix-set")? {
        None => Ok(None),
        Some(name) => Ok(Some(Header::PrefixSet(name))),
    }
}

fn community_set_header(alloc: Global, words: &[Word]) -> Result<Option<Header>, Memory>
    ensures { IfOk result (λ o. o ≡ option_map (λ n. CommunitySet n) (set_header_in (codes "community-set") (tokens words.now))) }
{
    match set_header(alloc, words, b"community-set")? {
        None => Ok(None),
        Some(name) => Ok(Some(Header::CommunitySet(name))),
    }
}

fn path_set_header(alloc: Global, words: &[Word]) -> Result<Option<Header>, Memory>
    ensures { IfOk result (λ o. o ≡ option_map (λ n. PathSet n) (set_header_in (codes "as-path-set") (tokens words.now))) }
{
    match set_header(alloc, words, b"as-path-set")? {
        None => Ok(None),
        Some(name) => Ok(Some(Header::PathSet(name))),
    }
}

// The name of a policy and its parameters.
#[tactic(auto, unfolding(crate::specs::Statements::policy_header_in, rpl_words::specs::Tokens::after))]
fn policy_header(alloc: Global, words: &[Word]) -> Result<Option<Header>, Memory>
    ensures { IfOk result (λ o. o ≡ policy_header_in (tokens words.now)) }
{
    match after(words, &[b"route-policy"]) {
        None => Ok(None),
        Some(rest) => match called::<Row<u8>, HeaderName, ParameterName>(alloc, rest)? {
            None => Ok(None),
            Some((name, parameters)) => {
                Ok(Some(Header::Policy(PolicyHeader { name, parameters })))
            }
        },
    }
}

/// The form of the first line of a block of this kind; `None` where its words spell none. The error is
/// want of memory.
#[tactic(auto, unfolding(crate::specs::Statements::header_in))]
pub fn header_in(alloc: Global, kind: BlockKind, words: &[Word]) -> Result<Option<Header>, Memory>
    ensures { IfOk result (λ o. o ≡ header_in kind (tokens words.now)) }
{
    match kind {
        BlockKind::PrefixSet => prefix_set_header(alloc, words),
        BlockKind::CommunitySet => community_set_header(alloc, words),
        BlockKind::PathSet => path_set_header(alloc, words),
        BlockKind::Policy => policy_header(alloc, words),
    }
}

// ---- statements of policies

// A condition between a keyword and `then`.
#[tactic(auto, unfolding(crate::specs::Statements::branch_in))]
fn branch(alloc: Global, words: &[Word], key: &[u8]) -> Result<Option<Row<Term>>, Memory>
    ensures { IfOk result (λ o. o ≡ branch_in key.now (tokens words.now)) }
{
    match after(words, &[key]) {
        None => Ok(None),
        Some(rest) => match ended_by(rest, b"then") {
            None => Ok(None),
            Some(inner) => condition_in(alloc, inner),
        },
    }
}

// A statement with a condition.
#[tactic(auto, unfolding(crate::specs::Statements::conditional_in))]
fn conditional(alloc: Global, words: &[Word]) -> Result<Option<PolicyStatement>, Memory>
    ensures { IfOk result (λ o. o ≡ conditional_in (tokens words.now)) }
{
    if let Some(terms) = branch(alloc, words, b"if")? {
        return Ok(Some(PolicyStatement::If(terms)));
    }
    match branch(alloc, words, b"elseif")? {
        None => Ok(None),
        Some(terms) => Ok(Some(PolicyStatement::ElseIf(terms))),
    }
}

/// What is handed to a policy.
pub(crate) struct ArgumentWord;

impl Reads<Argument> for ArgumentWord {
    ghost find = { argument_in };

    #[tactic(auto, unfolding(crate::specs::Statements::argument_in))]
    fn read(alloc: Global, word: &[u8]) -> Result<Option<Argument>, Memory> {
        if let Some(text) = InnerName::read(alloc, word)? {
            return Ok(Some(Argument::Written(text)));
        }
        match ParameterName::read(alloc, word)? {
            None => Ok(None),
            Some(name) => Ok(Some(Argument::Parameter(name))),
        }
    }
}

// The policy that is applied, and what is handed to it.
#[tactic(auto, unfolding(crate::specs::Statements::apply_in))]
fn apply(alloc: Global, words: &[Word]) -> Result<Option<PolicyStatement>, Memory>
    ensures { IfOk result (λ o. o ≡ apply_in (tokens words.now)) }
{
    match after(words, &[b"apply"]) {
        None => Ok(None),
        Some(rest) => match called::<Argument, InnerName, ArgumentWord>(alloc, rest)? {
            None => Ok(None),
            Some((policy, arguments)) => {
                Ok(Some(PolicyStatement::Apply(Apply { policy, arguments })))
            }
        },
    }
}

fn single_word_of(text: &[u8]) -> Option<PolicyStatement>
    ensures { result ≡ one_of single_words text.now }
{
    if text == b"else".as_slice() {
        return Some(PolicyStatement::Else);
    }
    if text == b"endif".as_slice() {
        return Some(PolicyStatement::EndIf);
    }
    if text == b"pass".as_slice() {
        return Some(PolicyStatement::Pass);
    }
    if text == b"done".as_slice() {
        return Some(PolicyStatement::Done);
    }
    if text == b"drop".as_slice() {
        return Some(PolicyStatement::Drop);
    }
    None
}

// A statement of one word.
#[tactic(auto, unfolding(crate::specs::Statements::single_word_in))]
fn single_word(words: &[Word]) -> Option<PolicyStatement>
    ensures { result ≡ single_word_in (tokens words.now) }
{
    let [word] = words else {
        return None;
    };
    if word.quoted {
        return None;
    }
    single_word_of(word.text.as_slice())
}

fn action(alloc: Global, words: &[Word]) -> Result<Option<PolicyStatement>, Memory>
    ensures { IfOk result (λ o. o ≡ option_map (λ a. Act a) (action_in (tokens words.now))) }
{
    match action_in(alloc, words)? {
        None => Ok(None),
        Some(action) => Ok(Some(PolicyStatement::Act(action))),
    }
}

// A statement of a policy.
#[tactic(auto, unfolding(crate::specs::Statements::statement_in))]
fn statement_in(alloc: Global, words: &[Word]) -> Result<Option<PolicyStatement>, Memory>
    ensures { IfOk result (λ o. o ≡ statement_in (tokens words.now)) }
{
    if let Some(statement) = single_word(words) {
        return Ok(Some(statement));
    }
    if let Some(statement) = conditional(alloc, words)? {
        return Ok(Some(statement));
    }
    if let Some(statement) = action(alloc, words)? {
        return Ok(Some(statement));
    }
    apply(alloc, words)
}

// ---- statements within blocks

#[tactic(auto, unfolding(crate::specs::Statements::form_in))]
fn prefix_form(alloc: Global, words: &[Word]) -> Result<Option<RplForm>, Memory>
    ensures { IfOk result (λ o. o ≡ form_in PrefixBlock (tokens words.now)) }
{
    match OwnPrefix::read(alloc, words)? {
        None => Ok(None),
        Some(element) => Ok(Some(RplForm::Element(Element::Prefix(element)))),
    }
}

#[tactic(auto, unfolding(crate::specs::Statements::form_in))]
fn community_form(alloc: Global, words: &[Word]) -> Result<Option<RplForm>, Memory>
    ensures { IfOk result (λ o. o ≡ form_in CommunityBlock (tokens words.now)) }
{
    match RectElement::read(alloc, words)? {
        None => Ok(None),
        Some(rect) => Ok(Some(RplForm::Element(Element::Community(rect)))),
    }
}

#[tactic(auto, unfolding(crate::specs::Statements::form_in))]
fn path_form(alloc: Global, words: &[Word]) -> Result<Option<RplForm>, Memory>
    ensures { IfOk result (λ o. o ≡ form_in PathBlock (tokens words.now)) }
{
    match OwnPath::read(alloc, words)? {
        None => Ok(None),
        Some(element) => Ok(Some(RplForm::Element(Element::Path(element)))),
    }
}

#[tactic(auto, unfolding(crate::specs::Statements::form_in))]
fn policy_form(alloc: Global, words: &[Word]) -> Result<Option<RplForm>, Memory>
    ensures { IfOk result (λ o. o ≡ form_in PolicyBlock (tokens words.now)) }
{
    match statement_in(alloc, words)? {
        None => Ok(None),
        Some(statement) => Ok(Some(RplForm::Statement(statement))),
    }
}

/// The form of a statement within a block of this kind; `None` where its words spell none. The error is
/// want of memory.
#[tactic(auto, unfolding(crate::specs::Statements::form_in))]
pub fn form_in(alloc: Global, kind: BlockKind, words: &[Word]) -> Result<Option<RplForm>, Memory>
    ensures { IfOk result (λ o. o ≡ form_in kind (tokens words.now)) }
{
    match kind {
        BlockKind::PrefixSet => prefix_form(alloc, words),
        BlockKind::CommunitySet => community_form(alloc, words),
        BlockKind::PathSet => path_form(alloc, words),
        BlockKind::Policy => policy_form(alloc, words),
    }
}
