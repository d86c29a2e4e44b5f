ghost use Rattle.std.specs.Prelude.{◌≡◌, [], IfOk, map};
ghost use Rattle.ios_meaning.specs.Meaning.{continuation_of, at_end, run, set_by_entries, ios_meaning, name_of};
ghost use Rattle.ios_meaning.specs.Answers.{AreAnswers};
ghost use Rattle.ios_meaning.specs.Drafts.{entry_of};

use crate::answers::{Answers, answers_on, lines_hold};
use crate::draft::changed;
use crate::entries::{MapEntry, ordered_entries};
use ios_reader::{CheckedIos, MapLine};
use route_types::{Memory, Outcome, Route};
use std::alloc::Global;

/// What the policy makes of a route: `Reject`, or `Accept` with the changed route (Cisco IOS IP Routing:
/// Protocol-Independent command reference, 'route-map'). It is the meaning of the route-map that stands
/// under the policy's name in its tree. The one error is want of memory.
#[tactic(auto, unfolding(crate::specs::Meaning::ios_meaning))]
pub fn judge_ios(alloc: Global, policy: &CheckedIos, route: &Route) -> Result<Outcome, Memory>
    ensures { IfOk result (λ o. o ≡ ios_meaning policy.now.items (name_of policy.now) route.now) }
{
    let [name] = policy.names() else {
        return Ok(Outcome::Reject);
    };
    let items = policy.tree().items();
    let entries = ordered_entries(alloc, name.as_slice(), items)?;
    let answers = answers_on(alloc, items, route)?;
    run(alloc, &answers, entries)
}

// The run over the entries, which are in order of their numbers.
#[tactic(auto, unfolding(crate::specs::Meaning::run))]
fn run<'a>(
    alloc: Global,
    answers: &Answers<'a>,
    entries: Vec<MapEntry<'a>>,
) -> Result<Outcome, Memory>
    requires { AreAnswers answers.now }
    ensures { IfOk result (λ o. o ≡ run answers.now.items.now answers.now.route.now 0 [] (map entry_of entries.entry.items)) }
{
    let mut least = 0;
    let mut held = Vec::new(alloc);
    let mut ahead = entries;
    ahead.reverse();
    while let Some(entry) = ahead.pop() {
        if entry.number < least || !lines_hold(answers, entry.lines.as_slice()) {
            continue;
        }
        if !entry.permit {
            return Ok(Outcome::Reject);
        }
        let continuation = continuation_of(entry.lines.as_slice());
        held.push(entry)?;
        let Some(target) = continuation else {
            return accepted(alloc, answers, held.as_slice());
        };
        least = target.unwrap_or(least);
    }
    at_end(alloc, answers, held.as_slice())
}

// Where the run goes on behind an entry of these lines: nowhere, at the next entry, or at the one of a
// number.
fn continuation_of(lines: &[&MapLine]) -> Option<Option<u64>>
    ensures { result ≡ continuation_of (map (λ l. l.now) lines.now) }
{
    let mut rest = lines;
    while let [line, behind @ ..] = rest {
        if let MapLine::Continue(target) = line {
            return Some(*target);
        }
        rest = behind;
    }
    None
}

// The route as the entries that held change it.
fn accepted<'a>(
    alloc: Global,
    answers: &Answers<'a>,
    held: &[MapEntry<'a>],
) -> Result<Outcome, Memory>
    ensures { IfOk result (λ o. o ≡ Outcome.Accept (set_by_entries answers.now.items.now (map entry_of held.now) answers.now.route.now)) }
{
    let route = changed(alloc, answers.items, held, answers.route)?;
    Ok(Outcome::Accept(route))
}

// Past the last entry: accepted where some entry held.
fn at_end<'a>(
    alloc: Global,
    answers: &Answers<'a>,
    held: &[MapEntry<'a>],
) -> Result<Outcome, Memory>
    ensures { IfOk result (λ o. o ≡ at_end answers.now.items.now answers.now.route.now (map entry_of held.now)) }
{
    if held.is_empty() {
        return Ok(Outcome::Reject);
    }
    accepted(alloc, answers, held)
}
