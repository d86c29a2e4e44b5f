// Definitions, line by line.
ghost use Rattle.std.specs.Prelude.{◌≡◌, ◌++◌, ◌∷◌, [], Some, IfOk, codes, option_map};
ghost use Rattle.std.specs.List.{flat_map};
ghost use Rattle.text_words.specs.Pieces.{words_text};
ghost use Rattle.junos_tree.specs.Tree.{junos_tree};
ghost use Rattle.junos_text.specs.Layout.{forms_of, text_of};
ghost use Rattle.junos_text.specs.Texts.{action_text, path_text, statement_text, conditions_text, actions_text, from_text, then_text, term_text, option_text, opening_text, closing_text, whole_text};
ghost use Rattle.junos_text.specs.Words.{condition_words, community_words, values_words};
ghost use Rattle.junos_text.specs.Written.{MayBeWritten, ReadsAs, forms};
ghost use Rattle.junos_text.specs.declared.option.PolicyOption.TheVariants.{Policy};

use crate::actions::push_action;
use crate::conditions::push_condition;
use crate::lines::{push_closing, push_margin, push_named, push_opening, push_quoted, push_semi};
use crate::option::{PolicyDefinition, PolicyOption, PolicyTerm};
use crate::words::{member_words, push_values};
use junos_tree::{Action, CommunityDefinition, Condition, PathDefinition};
use std::alloc::Global;
use text_words::{Memory, Row, push_words};

fn push_condition_line(
    alloc: Global,
    out: &mut Vec<u8>,
    condition: &Condition,
) -> Result<(), Memory>
    ensures { IfOk result (λ _. out.new.items ≡ out.old.items ++ statement_text 4 (words_text (condition_words condition.now))) }
{
    push_margin(out, 4)?;
    push_condition(alloc, out, condition)?;
    push_semi(out)
}

fn push_action_line(alloc: Global, out: &mut Vec<u8>, action: &Action) -> Result<(), Memory>
    ensures { IfOk result (λ _. out.new.items ≡ out.old.items ++ statement_text 4 (action_text action.now)) }
{
    push_margin(out, 4)?;
    push_action(alloc, out, action)?;
    push_semi(out)
}

fn push_conditions(alloc: Global, out: &mut Vec<u8>, conditions: &[Condition]) -> Result<(), Memory>
    ensures { IfOk result (λ _. out.new.items ≡ out.old.items ++ conditions_text conditions.now) }
{
    let mut rest = conditions;
    while let [first, tail @ ..] = rest {
        push_condition_line(alloc, out, first)?;
        rest = tail;
    }
    Ok(())
}

fn push_actions(alloc: Global, out: &mut Vec<u8>, actions: &[Action]) -> Result<(), Memory>
    ensures { IfOk result (λ _. out.new.items ≡ out.old.items ++ actions_text actions.now) }
{
    let mut rest = actions;
    while let [first, tail @ ..] = rest {
        push_action_line(alloc, out, first)?;
        rest = tail;
    }
    Ok(())
}

fn push_from(alloc: Global, out: &mut Vec<u8>, conditions: &[Condition]) -> Result<(), Memory>
    ensures { IfOk result (λ _. out.new.items ≡ out.old.items ++ from_text conditions.now) }
{
    if let [_, ..] = conditions {
        push_opening(out, 3, b"from")?;
        push_conditions(alloc, out, conditions)?;
        return push_closing(out, 3);
    }
    Ok(())
}

fn push_then(alloc: Global, out: &mut Vec<u8>, actions: &[Action]) -> Result<(), Memory>
    ensures { IfOk result (λ _. out.new.items ≡ out.old.items ++ then_text actions.now) }
{
    push_opening(out, 3, b"then")?;
    push_actions(alloc, out, actions)?;
    push_closing(out, 3)
}

fn push_term(alloc: Global, out: &mut Vec<u8>, term: &PolicyTerm) -> Result<(), Memory>
    ensures { IfOk result (λ _. out.new.items ≡ out.old.items ++ term_text term.now) }
{
    push_named(out, 2, b"term", term.name.as_slice())?;
    push_from(alloc, out, term.conditions.as_slice())?;
    push_then(alloc, out, term.actions.as_slice())?;
    push_closing(out, 2)
}

fn push_terms(alloc: Global, out: &mut Vec<u8>, terms: &[PolicyTerm]) -> Result<(), Memory>
    ensures { IfOk result (λ _. out.new.items ≡ out.old.items ++ flat_map term_text terms.now) }
{
    let mut rest = terms;
    while let [first, tail @ ..] = rest {
        push_term(alloc, out, first)?;
        rest = tail;
    }
    Ok(())
}

// A block of terms that this word and the policy's name open.
fn push_policy_block(
    alloc: Global,
    out: &mut Vec<u8>,
    key: &[u8],
    policy: &PolicyDefinition,
) -> Result<(), Memory>
    ensures { IfOk result (λ _. out.new.items ≡ out.old.items ++ (opening_text 1 (words_text (key.now ∷ policy.now.name ∷ [])) ++ (flat_map term_text policy.now.terms ++ closing_text 1))) }
{
    push_named(out, 1, key, policy.name.as_slice())?;
    push_terms(alloc, out, policy.terms.as_slice())?;
    push_closing(out, 1)
}

fn push_policy(alloc: Global, out: &mut Vec<u8>, policy: &PolicyDefinition) -> Result<(), Memory>
    ensures { IfOk result (λ _. out.new.items ≡ out.old.items ++ option_text (Policy policy.now)) }
{
    push_policy_block(alloc, out, b"policy-statement", policy)
}

// Three words, and values behind them.
fn push_members(
    out: &mut Vec<u8>,
    first: &[u8],
    second: &[u8],
    third: &[u8],
    members: &[Row<u8>],
) -> Result<(), Memory>
    ensures { IfOk result (λ _. out.new.items ≡ out.old.items ++ words_text (first.now ∷ second.now ∷ third.now ∷ values_words members.now)) }
{
    push_words(out, &[first, second, third])?;
    push_values(out, members)
}

fn push_community(
    alloc: Global,
    out: &mut Vec<u8>,
    community: &CommunityDefinition,
) -> Result<(), Memory>
    ensures { IfOk result (λ _. out.new.items ≡ out.old.items ++ words_text (community_words community.now)) }
{
    let members = member_words(alloc, community.members.as_slice())?;
    push_members(
        out,
        b"community",
        community.name.as_slice(),
        b"members",
        members.as_slice(),
    )
}

fn push_community_line(
    alloc: Global,
    out: &mut Vec<u8>,
    community: &CommunityDefinition,
) -> Result<(), Memory>
    ensures { IfOk result (λ _. out.new.items ≡ out.old.items ++ statement_text 1 (words_text (community_words community.now))) }
{
    push_margin(out, 1)?;
    push_community(alloc, out, community)?;
    push_semi(out)
}

fn push_path_head(out: &mut Vec<u8>, name: &[u8]) -> Result<(), Memory>
    ensures { IfOk result (λ _. out.new.items ≡ out.old.items ++ words_text (codes "as-path" ∷ name.now ∷ [])) }
{
    push_words(out, &[b"as-path", name])
}

fn push_path_line(out: &mut Vec<u8>, path: &PathDefinition) -> Result<(), Memory>
    ensures { IfOk result (λ _. out.new.items ≡ out.old.items ++ statement_text 1 (path_text path.now)) }
{
    push_margin(out, 1)?;
    push_path_head(out, path.name.as_slice())?;
    push_quoted(out, path.text.as_slice())?;
    push_semi(out)
}

fn push_option(alloc: Global, out: &mut Vec<u8>, option: &PolicyOption) -> Result<(), Memory>
    ensures { IfOk result (λ _. out.new.items ≡ out.old.items ++ option_text option.now) }
{
    match option {
        PolicyOption::AsPath(path) => push_path_line(out, path),
        PolicyOption::Community(community) => push_community_line(alloc, out, community),
        PolicyOption::Policy(policy) => push_policy(alloc, out, policy),
    }
}

fn push_options(alloc: Global, out: &mut Vec<u8>, options: &[PolicyOption]) -> Result<(), Memory>
    ensures { IfOk result (λ _. out.new.items ≡ out.old.items ++ flat_map option_text options.now) }
{
    let mut rest = options;
    while let [first, tail @ ..] = rest {
        push_option(alloc, out, first)?;
        rest = tail;
    }
    Ok(())
}

// A block of definitions that this word opens.
fn push_whole(
    alloc: Global,
    out: &mut Vec<u8>,
    key: &[u8],
    options: &[PolicyOption],
) -> Result<(), Memory>
    ensures { IfOk result (λ _. out.new.items ≡ out.old.items ++ (opening_text 0 (words_text (key.now ∷ [])) ++ (flat_map option_text options.now ++ closing_text 0))) }
{
    push_opening(out, 0, key)?;
    push_options(alloc, out, options)?;
    push_closing(out, 0)
}

fn push_options_block(
    alloc: Global,
    out: &mut Vec<u8>,
    options: &[PolicyOption],
) -> Result<(), Memory>
    ensures { IfOk result (λ _. out.new.items ≡ out.old.items ++ whole_text options.now) }
{
    push_whole(alloc, out, b"policy-options", options)
}

fn whole(alloc: Global, options: &[PolicyOption]) -> Result<Row<u8>, Memory>
    ensures { IfOk result (λ t. t ≡ whole_text options.now) }
{
    let mut out = Vec::new(alloc);
    push_options_block(alloc, &mut out, options)?;
    Ok(Row::from_vec(out))
}

/// The text of definitions (Junos OS Routing Policies, Firewall Filters, and Traffic Policers User Guide), all in
/// `policy-options`, a statement a line, four spaces a level, which reads back as these definitions. Their values lie in
/// their ranges, and their names may stand where they do. It takes time in step with the length of the text. Its one error is
/// want of memory.
#[tactic(auto, using(crate::proofs::Written::text_written, crate::proofs::Written::reads_written, crate::proofs::Written::tree_written))]
pub fn write_junos(alloc: Global, options: &[PolicyOption]) -> Result<Row<u8>, Memory>
    requires { MayBeWritten options.now }
    // The text is that of the lines.
    ensures text { IfOk result (λ t. t ≡ text_of options.now) }
    // It reads as a tree, which says these definitions.
    ensures reads { IfOk result (λ t. ReadsAs t options.now) }
    // The tree that is found says them.
    ensures tree { IfOk result (λ t. option_map forms (junos_tree t) ≡ Some (forms_of options.now)) }
{
    whole(alloc, options)
}
