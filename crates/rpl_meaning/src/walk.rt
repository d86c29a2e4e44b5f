//! The walk over the statements of a policy: what one statement does where the walk stands.
ghost use Rattle.std.specs.Prelude.{◌≡◌, ◌+◌, true, IfOk, option_map};
ghost use Rattle.rpl_forms.specs.declared.item.PolicyStatement.{PolicyStatement as SpecStatement};
ghost use Rattle.rpl_forms.specs.declared.item.RplForm.{RplForm as SpecForm};
ghost use Rattle.rpl_meaning.specs.Blocks.{IsWorld, word_in};
ghost use Rattle.rpl_meaning.specs.Sets.{Bindings};
ghost use Rattle.rpl_meaning.specs.declared.tests.World.{World as SpecWorld};
ghost use Rattle.rpl_meaning.specs.Steps.{Does, branch_by, word_of_form, statement_in, else_if_in, over_behind, end_behind, branch_behind, run_behind, passed};

use crate::actions::{RplChanges, acted};
use crate::communities::CommunityStep;
use crate::conditions::condition_holds;
use crate::tests::World;
use crate::words::Words;
use route_types::Memory;
use rpl_effects::{Effect, Run};
use rpl_forms::{Action, Apply, IfWord, PolicyStatement, RplForm, Term};
use std::alloc::Global;

/// Whether the branch in which the walk stands runs, or what is looked for; a number says how many `if`s
/// that are passed over are open.
#[derive(Clone, Copy, Debug, PartialEq, Eq)]
pub(crate) enum Mode {
    Running,
    /// The next branch of the `if` whose conditions have failed so far.
    Seeking(u64),
    /// The end of the `if` of which a branch ran.
    Leaving(u64),
}

/// What a run has done so far.
pub(crate) type RplRun<'a> = Run<CommunityStep<'a>>;

/// What the statements of a policy do, and how they end.
pub(crate) type RplEffect<'a> = Effect<CommunityStep<'a>>;

/// Where the walk stands behind a statement.
#[derive(Drop)]
pub(crate) struct Place<'a> {
    pub(crate) mode: Mode,
    pub(crate) run: RplRun<'a>,
}

/// What a statement does.
#[derive(Drop)]
pub(crate) enum Step<'a> {
    On(Place<'a>),
    /// It applies a policy.
    Calls(&'a Apply, RplRun<'a>),
    Ended(RplEffect<'a>),
}

fn on<'a>(mode: Mode, run: RplRun<'a>) -> Step<'a>
    ensures { result ≡ Step.On (record { mode = mode; run = run.entry }) }
{
    Step::On(Place { mode, run })
}

// The walk goes on with the ticket, and with these attributes.
fn with_ticket<'a>(changes: RplChanges<'a>) -> Step<'a>
    ensures { result ≡ Step.On (record { mode = Mode.Running; run = record { ticket = true; changes = changes.entry } }) }
{
    on(
        Mode::Running,
        Run {
            ticket: true,
            changes,
        },
    )
}

fn branch_by(holds: bool) -> Mode
    ensures { result ≡ branch_by holds }
{
    if holds {
        return Mode::Running;
    }
    Mode::Seeking(0)
}

// The walk goes on by the answer of a condition.
fn behind_condition<'a>(holds: bool, run: RplRun<'a>) -> Step<'a>
    ensures { result ≡ Step.On (record { mode = branch_by holds; run = run.entry }) }
{
    on(branch_by(holds), run)
}

fn at_if<'a>(
    alloc: Global,
    world: &World<'a>,
    words: &Words<'a>,
    terms: &'a [Term],
    run: RplRun<'a>,
) -> Result<Step<'a>, Memory>
    requires { IsWorld world.now }
    ensures { IfOk result (λ x. Does world.now (word_in words.now.entries) Mode.Running (SpecForm.Statement (SpecStatement.If terms.now)) run.entry x) }
{
    let holds = condition_holds(alloc, world, words, terms)?;
    Ok(behind_condition(holds, run))
}

fn at_action<'a>(
    world: &World<'a>,
    words: &Words<'a>,
    action: &'a Action,
    run: RplRun<'a>,
) -> Result<Step<'a>, Memory>
    requires { IsWorld world.now }
    ensures { IfOk result (λ x. Does world.now (word_in words.now.entries) Mode.Running (SpecForm.Statement (SpecStatement.Act action.now)) run.entry x) }
{
    let changes = acted(world, words, action, run.changes)?;
    Ok(with_ticket(changes))
}

// A statement that applies a policy.
fn calls<'a>(apply: &'a Apply, run: RplRun<'a>) -> Step<'a>
    ensures { (w : SpecWorld) (bs : Bindings) → Does w bs Mode.Running (SpecForm.Statement (SpecStatement.Apply apply.now)) run.entry result }
{
    Step::Calls(apply, run)
}

// What a statement does in a branch that runs.
fn in_branch<'a>(
    alloc: Global,
    world: &World<'a>,
    words: &Words<'a>,
    statement: &'a PolicyStatement,
    run: RplRun<'a>,
) -> Result<Step<'a>, Memory>
    requires { IsWorld world.now }
    ensures { IfOk result (λ x. Does world.now (word_in words.now.entries) Mode.Running (SpecForm.Statement statement.now) run.entry x) }
{
    match statement {
        PolicyStatement::If(terms) => at_if(alloc, world, words, terms.as_slice(), run),
        PolicyStatement::ElseIf(_) => Ok(on(Mode::Leaving(0), run)),
        PolicyStatement::Else => Ok(on(Mode::Leaving(0), run)),
        PolicyStatement::EndIf => Ok(on(Mode::Running, run)),
        PolicyStatement::Pass => Ok(with_ticket(run.changes)),
        PolicyStatement::Done => Ok(Step::Ended(Effect::Accepted(run.changes))),
        PolicyStatement::Drop => Ok(Step::Ended(Effect::Rejected)),
        PolicyStatement::Act(action) => at_action(world, words, action, run),
        PolicyStatement::Apply(apply) => Ok(calls(apply, run)),
    }
}

fn at_else_if<'a>(
    alloc: Global,
    world: &World<'a>,
    words: &Words<'a>,
    terms: &'a [Term],
    run: RplRun<'a>,
) -> Result<Step<'a>, Memory>
    requires { IsWorld world.now }
    ensures { IfOk result (λ x. Does world.now (word_in words.now.entries) (Mode.Seeking 0) (SpecForm.Statement (SpecStatement.ElseIf terms.now)) run.entry x) }
{
    let holds = condition_holds(alloc, world, words, terms)?;
    Ok(behind_condition(holds, run))
}

// The word of `if`s that a form begins with.
fn word_of(form: &RplForm) -> Option<IfWord>
    ensures { result ≡ word_of_form form.now }
{
    match form {
        RplForm::Statement(PolicyStatement::If(_)) => Some(IfWord::If),
        RplForm::Statement(PolicyStatement::ElseIf(_)) => Some(IfWord::ElseIf),
        RplForm::Statement(PolicyStatement::Else) => Some(IfWord::Else),
        RplForm::Statement(PolicyStatement::EndIf) => Some(IfWord::EndIf),
        RplForm::Other(other) => other.keyword,
        _ => None,
    }
}

fn one_more(over: u64) -> Result<u64, Memory>
    ensures { IfOk result (λ n. n ≡ over + 1) }
{
    match over.checked_add(1) {
        Some(more) => Ok(more),
        None => Err(Memory),
    }
}

// How many `if`s that are passed over are open behind a word. More of them than a number counts want memory.
fn over_behind(word: Option<IfWord>, over: u64) -> Result<u64, Memory>
    ensures { IfOk result (λ n. n ≡ over_behind word over) }
{
    match word {
        Some(IfWord::If) => one_more(over),
        Some(IfWord::EndIf) => Ok(over.saturating_sub(1)),
        _ => Ok(over),
    }
}

fn end_behind(word: Option<IfWord>) -> Mode
    ensures { result ≡ end_behind word }
{
    match word {
        Some(IfWord::If) => Mode::Leaving(1),
        Some(IfWord::EndIf) => Mode::Running,
        _ => Mode::Leaving(0),
    }
}

fn branch_behind(word: Option<IfWord>) -> Mode
    ensures { result ≡ branch_behind word }
{
    match word {
        Some(IfWord::If) => Mode::Seeking(1),
        Some(IfWord::Else) | Some(IfWord::EndIf) => Mode::Running,
        _ => Mode::Seeking(0),
    }
}

fn run_behind(word: Option<IfWord>) -> Mode
    ensures { result ≡ run_behind word }
{
    match word {
        None | Some(IfWord::EndIf) => Mode::Running,
        _ => Mode::Leaving(0),
    }
}

// The statement of a policy that a form is.
fn statement_in(form: &RplForm) -> Option<&PolicyStatement>
    ensures { option_map (λ st. st.now) result ≡ statement_in form.now }
{
    match form {
        RplForm::Statement(statement) => Some(statement),
        _ => None,
    }
}

// The condition of a form that is `elseif`.
fn else_if_in(form: &RplForm) -> Option<&[Term]>
    ensures { option_map (λ c. c.now) result ≡ else_if_in form.now }
{
    match form {
        RplForm::Statement(PolicyStatement::ElseIf(terms)) => Some(terms.as_slice()),
        _ => None,
    }
}

// What a form does where its branch doesn't run and isn't asked.
fn passed<'a>(mode: Mode, form: &'a RplForm, run: RplRun<'a>) -> Step<'a>
    ensures { result ≡ passed mode form.now run.entry }
{
    match form {
        RplForm::Statement(_) => on(mode, run),
        RplForm::Other(_) => on(mode, run),
        _ => Step::Ended(Effect::GoesOn(run)),
    }
}

// What a form does in a branch that runs.
fn in_running<'a>(
    alloc: Global,
    world: &World<'a>,
    words: &Words<'a>,
    form: &'a RplForm,
    run: RplRun<'a>,
) -> Result<Step<'a>, Memory>
    requires { IsWorld world.now }
    ensures { IfOk result (λ x. Does world.now (word_in words.now.entries) Mode.Running form.now run.entry x) }
{
    match statement_in(form) {
        Some(statement) => in_branch(alloc, world, words, statement, run),
        None => Ok(passed(run_behind(word_of(form)), form, run)),
    }
}

// What a form does where the next branch is looked for, and no `if` that is passed over is open.
fn in_seeking<'a>(
    alloc: Global,
    world: &World<'a>,
    words: &Words<'a>,
    form: &'a RplForm,
    run: RplRun<'a>,
) -> Result<Step<'a>, Memory>
    requires { IsWorld world.now }
    ensures { IfOk result (λ x. Does world.now (word_in words.now.entries) (Mode.Seeking 0) form.now run.entry x) }
{
    match else_if_in(form) {
        Some(terms) => at_else_if(alloc, world, words, terms, run),
        None => Ok(passed(branch_behind(word_of(form)), form, run)),
    }
}

// What a form does where the next branch is looked for.
fn seeking<'a>(
    alloc: Global,
    world: &World<'a>,
    words: &Words<'a>,
    over: u64,
    form: &'a RplForm,
    run: RplRun<'a>,
) -> Result<Step<'a>, Memory>
    requires { IsWorld world.now }
    ensures { IfOk result (λ x. Does world.now (word_in words.now.entries) (Mode.Seeking over) form.now run.entry x) }
{
    if over == 0 {
        return in_seeking(alloc, world, words, form, run);
    }
    let behind = over_behind(word_of(form), over)?;
    Ok(passed(Mode::Seeking(behind), form, run))
}

// What a form does where the end of an `if` is looked for.
fn leaving<'a>(over: u64, form: &'a RplForm, run: RplRun<'a>) -> Result<Step<'a>, Memory>
    ensures { IfOk result (λ x. (w : SpecWorld) (bs : Bindings) → Does w bs (Mode.Leaving over) form.now run.entry x) }
{
    if over == 0 {
        return Ok(passed(end_behind(word_of(form)), form, run));
    }
    let behind = over_behind(word_of(form), over)?;
    Ok(passed(Mode::Leaving(behind), form, run))
}

/// What a form does where the walk stands.
pub(crate) fn taken<'a>(
    alloc: Global,
    world: &World<'a>,
    words: &Words<'a>,
    mode: Mode,
    form: &'a RplForm,
    run: RplRun<'a>,
) -> Result<Step<'a>, Memory>
    requires { IsWorld world.now }
    ensures { IfOk result (λ x. Does world.now (word_in words.now.entries) mode form.now run.entry x) }
{
    match mode {
        Mode::Running => in_running(alloc, world, words, form, run),
        Mode::Seeking(over) => seeking(alloc, world, words, over, form, run),
        Mode::Leaving(over) => leaving(over, form, run),
    }
}
