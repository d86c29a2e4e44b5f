// Numbers that are put before the path, equal ones one behind another as one action.
ghost use Rattle.std.specs.Prelude.{◌≡◌, ◌≤◌, ◌<◌, ◌&&◌, ◌==◌, ◌++◌, ◌∷◌, [], ℕ, List, nat_lt, OnOk, IfOk};
ghost use Rattle.rpl_layout.specs.Statements.{prepend_of, goes_on, prepends_from, prepends_of};
ghost use Rattle.rpl_policies.specs.Acts.{acts};

use crate::actions::push_act;
use route_types::{Memory, Row};
use rpl_forms::{Action, Prepend, RplForm};
use rpl_words::RplNumber;

// A number, and how many times it has stood.
#[derive(Clone, Copy)]
struct Run {
    number: u32,
    times: u8,
}

fn push_run(out: &mut Row<RplForm>, run: Run) -> Result<(), Memory>
    ensures { OnOk result (out.new ≡ out.old ++ acts (prepend_of run.number run.times ∷ [])) }
{
    push_act(
        out,
        Action::Prepend(Prepend {
            number: RplNumber::Fixed(run.number),
            count: RplNumber::Fixed(run.times),
        }),
    )
}

fn goes_on(run: Run, number: u32) -> bool
    ensures { result ≡ goes_on run.number run.times number }
{
    run.number == number && run.times < 63
}

// The run with one more number; where it doesn't go on, its action is put at the end.
#[tactic(auto, unfolding(rpl_layout::specs::Statements::prepends_from))]
fn with_number(out: &mut Row<RplForm>, run: Run, number: u32) -> Result<Run, Memory>
    requires { run.times ≤ 63 }
    ensures few { IfOk result (λ more. more.times ≤ 63) }
    ensures same { IfOk result (λ more. (ns : List ℕ) → out.new ++ acts (prepends_from more.number more.times ns) ≡ out.old ++ acts (prepends_from run.number run.times (number ∷ ns))) }
{
    if goes_on(run, number) {
        return Ok(Run {
            number,
            times: run.times + 1,
        });
    }
    push_run(out, run)?;
    Ok(Run { number, times: 1 })
}

#[tactic(auto, unfolding(rpl_layout::specs::Statements::prepends_from))]
fn push_runs(out: &mut Row<RplForm>, first: u32, others: &[u32]) -> Result<(), Memory>
    ensures { OnOk result (out.new ≡ out.old ++ acts (prepends_from first 1 others.now)) }
{
    let mut run = Run {
        number: first,
        times: 1,
    };
    let mut rest = others;
    while let [number, tail @ ..] = rest {
        run = with_number(out, run, *number)?;
        rest = tail;
    }
    push_run(out, run)
}

/// Puts the actions of numbers before the path at the end. Its one error is want of memory.
#[tactic(auto, using(crate::proofs::Acts::no_acts))]
pub(crate) fn push_prepends(out: &mut Row<RplForm>, numbers: &[u32]) -> Result<(), Memory>
    ensures { OnOk result (out.new ≡ out.old ++ acts (prepends_of numbers.now)) }
{
    match numbers {
        [] => Ok(()),
        [first, others @ ..] => push_runs(out, *first, others),
    }
}
