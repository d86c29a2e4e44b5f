// Translation of one policy from IOS to RPL.
ghost use Rattle.std.specs.Prelude.{◌≡◌, ◌<◌, [], ◌∷◌, length, true, IfOk};
ghost use Rattle.ios_meaning.specs.Meaning.{ios_meaning, name_of};
ghost use Rattle.ios_lower.specs.OfPolicy.{PolicySays};
ghost use Rattle.route_types.specs.Route.{RouteParts, InRange};
ghost use Rattle.core_nodes.specs.Outcome.{outcome_at};
ghost use Rattle.policy_core.specs.Guards.{said_at};
ghost use Rattle.policy_core.specs.Sayable.{rpl_atom, rpl_change};
ghost use Rattle.policy_core.specs.Settled.{IsSettled};
ghost use Rattle.rpl_text.specs.Written.{HeadsBlock};
ghost use Rattle.policy_request.specs.NewNames.{is_new_name};
ghost use Rattle.policy_request.specs.Words.{Translate, translate_view};
ghost use Rattle.policy_program.specs.Written.{HasSteps, IsOfText, Says, WritesPolicy, parts_of};
ghost use Rattle.policy_program.specs.Layers.{AnswersOn, TranslatesTo, fault_of_load};

use crate::refusal::{Fault, refused_translation};
use crate::request::Output;
use crate::status::Status;
use expressible_table::{Dialect, Kind, Policy, first_missing};
use ios_graph::lower_ios;
use ios_lower::has_continue;
use ios_reader::{AllForms, CheckedIos};
use policy_core::{Core, Node, Step, steps};
use policy_request::TranslateWords;
use policy_sources::{LoadFault, load_ios};
use policy_text::{BrokenKind, Cause, Span};
use route_types::Memory;
use rpl_printer::print_rpl_policy;
use settled_graph::settle;
use std::alloc::Global;

/// Why a policy is not translated.
#[derive(Clone, Copy, Debug, PartialEq, Eq)]
pub enum TranslateFault {
    /// The source is broken here, so that it has no tree.
    Broken { span: Span, kind: BrokenKind },
    /// The name at this place, from 0, is the first under which no policy stands.
    NoPolicy { place: usize },
    /// The first fault of the profile, or a statement of a form that isn't taken.
    Outside { span: Span, cause: Cause },
    /// The first construct that the target can't say.
    Inexpressible { span: Span, kind: Kind },
    /// Want of memory.
    Memory,
}

fn fault_of_load(fault: LoadFault) -> TranslateFault
    ensures { result ≡ fault_of_load fault }
{
    match fault {
        LoadFault::Broken { span, kind } => TranslateFault::Broken { span, kind },
        LoadFault::NoPolicy { place } => TranslateFault::NoPolicy { place },
        LoadFault::Outside { span, cause } => TranslateFault::Outside { span, cause },
        LoadFault::Memory => TranslateFault::Memory,
    }
}

// A policy as nodes of which no test follows a change. Without a `continue` line none does at once.
#[tactic(auto, using(crate::proofs::Settled::settled_says))]
fn settled_policy(alloc: Global, policy: &CheckedIos) -> Result<(Core, Node), Memory>
    ensures of_core { IfOk result (λ p. p.1 < length p.0) }
    ensures settled { IfOk result (λ p. IsSettled p.0 p.1) }
    ensures meaning { IfOk result (λ p. (r : RouteParts) → InRange r → outcome_at p.0 p.1 r ≡ ios_meaning policy.now.items (name_of policy.now) r) }
    ensures said { IfOk result (λ p. PolicySays rpl_atom rpl_change policy.now.items (name_of policy.now) → said_at rpl_atom rpl_change p.0 p.1 ≡ true) }
{
    let (core, node) = lower_ios(alloc, policy)?;
    if !has_continue(policy) {
        return Ok((core, node));
    }
    let settled = settle(alloc, &core, node)?;
    Ok(settled)
}

/// The guarded steps of a policy that RPL can say. The policy is let go.
fn policy_steps(alloc: Global, policy: Policy) -> Result<Vec<Step>, Memory>
    requires sayable { PolicySays rpl_atom rpl_change (parts_of policy).items (name_of (parts_of policy)) }
    ensures { IfOk result (λ listed. HasSteps (parts_of policy) listed.items) }
{
    let Policy::Ios(checked) = policy;
    let (core, node) = settled_policy(alloc, &checked)?;
    let listed = steps(alloc, &core, node)?;
    Ok(listed)
}

/// The text that says in RPL, under `name`, what a policy says that RPL can say.
fn print_policy(alloc: Global, policy: Policy, name: &[u8]) -> Result<Vec<u8>, Memory>
    requires sayable { PolicySays rpl_atom rpl_change (parts_of policy).items (name_of (parts_of policy)) }
    requires named { HeadsBlock name.now }
    ensures { IfOk result (λ text. Says (parts_of policy) name.now text.items) }
{
    let listed = policy_steps(alloc, policy)?;
    let text = print_rpl_policy(alloc, name, listed.as_slice())?;
    Ok(text.into_vec())
}

/// The same of a policy that RPL may not be able to say.
fn write_policy(alloc: Global, policy: Policy, name: &[u8]) -> Result<Vec<u8>, TranslateFault>
    requires of_text { IsOfText (parts_of policy) }
    requires named { HeadsBlock name.now }
    ensures { WritesPolicy policy name.now result }
{
    match first_missing(alloc, &policy, Dialect::Rpl) {
        Ok(None) => match print_policy(alloc, policy, name) {
            Ok(text) => Ok(text),
            Err(_) => Err(TranslateFault::Memory),
        },
        Ok(Some(construct)) => Err(TranslateFault::Inexpressible {
            span: construct.span,
            kind: construct.kind,
        }),
        Err(_) => Err(TranslateFault::Memory),
    }
}

/// The text that says in RPL, under `name`, what the route-map `policy` of the IOS text `source` says.
///
/// `NoPolicy` where no route-map stands under the name, `Outside` with the first fault of the profile where the policy has
/// one, `Inexpressible` with the first construct that RPL can't say,
/// `Memory` for want of memory. The time is near-linear in the size of the source and of the text.
pub fn translate(
    alloc: Global,
    source: &[u8],
    policy: &[u8],
    name: &[u8],
) -> Result<Vec<u8>, TranslateFault>
    requires { is_new_name name.now ≡ true }
    ensures { TranslatesTo source.now policy.now name.now result }
{
    match load_ios::<AllForms>(alloc, source, policy) {
        Ok(checked) => write_policy(alloc, Policy::Ios(checked), name),
        Err(fault) => Err(fault_of_load(fault)),
    }
}

/// The answer of `translate` on the text of its file.
pub(crate) fn translate_text<'a>(
    alloc: Global,
    asked: &TranslateWords<'a>,
    text: &[u8],
) -> Result<Output, Fault<'a>>
    requires { is_new_name asked.now.name.now ≡ true }
    ensures { AnswersOn (Translate (translate_view asked.now)) (text.now ∷ []) result }
{
    match translate(alloc, text, asked.policy.as_bytes(), asked.name.as_bytes()) {
        Ok(written) => Ok(Output {
            status: Status::Done,
            text: written,
        }),
        Err(fault) => Err(refused_translation(asked.file, &[asked.policy.as_bytes()], text, fault)),
    }
}
