// What the policy of a source makes of a route.
ghost use Rattle.std.specs.Prelude.{◌≡◌, [], ◌∷◌, IfErr, IfOk};
ghost use Rattle.ios_reader.specs.Profile.{all_forms};
ghost use Rattle.policy_program.specs.Results.{outcome_text};
ghost use Rattle.policy_request.specs.Words.{Judge, judge_view};
ghost use Rattle.policy_sources.specs.Source.{Loaded, Loads, source_in};
ghost use Rattle.policy_sources.specs.Loading.{policy_of};
ghost use Rattle.policy_program.specs.Requests.{judged_file};
ghost use Rattle.policy_program.specs.Layers.{AnswersOn, RefusesUnsound, TellsOutcome};

use crate::refusal::{Fault, Refusal, Told, refused_load};
use crate::request::Output;
use crate::status::Status;
use policy_request::{JudgeWords, names_of};
use policy_sources::{LoadedPolicy, load, outcome_of};
use route_types::{Memory, Outcome, Route, RouteFault, print_route, read_route};
use std::alloc::Global;

/// The answer of `judge` on the text of its policy's file and that of its route file.
///
/// Its result is the text of what the policy makes of the route: `reject`, or `accept` and the eight lines of the
/// changed route.
#[tactic(auto, using(crate::proofs::Judged::unsound_first))]
pub(crate) fn judge_texts<'a>(
    alloc: Global,
    asked: &JudgeWords<'a>,
    source: &[u8],
    route_text: &[u8],
) -> Result<Output, Fault<'a>>
    ensures { AnswersOn (Judge (judge_view asked.now)) (source.now ∷ route_text.now ∷ []) result }
{
    match load_judged(alloc, asked, source) {
        Ok(policy) => judge_loaded(alloc, asked, &policy, source, route_text),
        Err(fault) => Err(fault),
    }
}

/// What judge is asked about, of its text: the policy, or what is told of the file that does not load.
#[tactic(auto, using(crate::proofs::Unsound::unsound))]
fn load_judged<'a>(
    alloc: Global,
    asked: &JudgeWords<'a>,
    text: &[u8],
) -> Result<LoadedPolicy, Fault<'a>>
    ensures loaded { IfOk result (λ p. Loads all_forms (source_in asked.now.language asked.now.policy.now text.now) (Loaded (policy_of p))) }
    ensures fault { IfErr result (RefusesUnsound all_forms (judged_file (judge_view asked.now)) text.now) }
{
    let word = asked.policy.as_bytes();
    let Ok(names) = names_of(alloc, asked.language, word) else {
        return Err(Fault::Memory);
    };
    match load(alloc, asked.language, word, text) {
        Ok(policy) => Ok(policy),
        Err(fault) => Err(refused_load(asked.file, names.as_slice(), text, fault)),
    }
}

/// The answer of `judge` where its policy is loaded from the source.
#[tactic(auto, using(crate::proofs::Judged::no_route, crate::proofs::Judged::judged))]
fn judge_loaded<'a>(
    alloc: Global,
    asked: &JudgeWords<'a>,
    policy: &LoadedPolicy,
    source: &[u8],
    route_text: &[u8],
) -> Result<Output, Fault<'a>>
    requires { Loads all_forms (source_in asked.now.language asked.now.policy.now source.now) (Loaded (policy_of policy.now)) }
    ensures { AnswersOn (Judge (judge_view asked.now)) (source.now ∷ route_text.now ∷ []) result }
{
    match read_route(alloc, route_text) {
        Ok(route) => match judge_route(alloc, policy, &route) {
            Ok(text) => Ok(Output {
                status: Status::Done,
                text,
            }),
            Err(_) => Err(Fault::Memory),
        },
        Err(RouteFault::Line { number }) => Err(Fault::Refused(Refusal {
            file: asked.route_file,
            told: Told::SpellsNoRoute { line: number },
        })),
        Err(RouteFault::Memory) => Err(Fault::Memory),
    }
}

/// The text of what a loaded policy makes of a route.
fn judge_route(alloc: Global, policy: &LoadedPolicy, route: &Route) -> Result<Vec<u8>, Memory>
    ensures { IfOk result (λ text. TellsOutcome (policy_of policy.now) route.now text.items) }
{
    match outcome_of(alloc, policy, route) {
        Ok(outcome) => outcome_text(alloc, &outcome),
        Err(fault) => Err(fault),
    }
}

/// The text of an outcome.
fn outcome_text(alloc: Global, outcome: &Outcome) -> Result<Vec<u8>, Memory>
    ensures { IfOk result (λ text. text.items ≡ outcome_text outcome.now) }
{
    match outcome {
        Outcome::Reject => Ok(Vec::from_slice(alloc, b"reject\n")?),
        Outcome::Accept(route) => {
            let printed = print_route(alloc, route)?;
            let mut text = Vec::from_slice(alloc, b"accept\n")?;
            text.extend_from_slice(printed.as_slice())?;
            Ok(text)
        }
    }
}
