// A run of the program: from its words to its status.
ghost use Rattle.std.specs.Prelude.{◌≡◌, map};
ghost use Rattle.std.specs.String.{string_bytes};
ghost use Rattle.policy_program.specs.Answer.{line_told, memory_line, status_told, usage_line};
ghost use Rattle.policy_request.specs.Words.{request_view};
ghost use Rattle.policy_program.specs.Ends.{Ends, ReceivedLine};
ghost use Rattle.policy_program.specs.Run.{WritesResult, IsComplete, IsExact};
ghost use Rattle.policy_program.specs.Layers.{AnswersRequest, IsWellNamed, Writes, told_of};

use crate::lines::{
    tell_broken, tell_inexpressible, tell_memory, tell_no_policy, tell_not_route, tell_outside,
    tell_too_long, tell_unread, tell_unwritten, tell_usage,
};
use crate::refusal::{Fault, Refusal, Told};
use crate::request::{Output, answer};
use crate::status::Status;
use policy_outside::{PutFault, Shelf, Sink, put_lines};
use policy_request::{Request, WordsFault, read_words};
use std::alloc::Global;

/// Does what the words ask for: fetches the files of the request from `shelf`, in their order, writes the result to
/// `out`, and on any status but `Done` puts one line to `err`.
///
/// The result is complete before the first put to `out`, and what `err` does changes neither status nor `out`.
pub fn run<S: Shelf, O: Sink, E: Sink>(
    alloc: Global,
    words: &[String],
    shelf: &mut S,
    out: &mut O,
    err: &mut E,
) -> Status
    ensures headline { result ≡ Status.Done → WritesResult (map string_bytes words.now)
        (record { before = S.seen shelf.old; now = S.seen shelf.new })
        (record { before = O.seen out.old; now = O.seen out.new }) }
    ensures complete { IsComplete (map string_bytes words.now)
        (record { before = S.seen shelf.old; now = S.seen shelf.new })
        (record { before = O.seen out.old; now = O.seen out.new }) result }
    ensures exact { IsExact (map string_bytes words.now) (S.seen shelf.old).texts result }
    ensures ends { Ends (map string_bytes words.now)
        (record { before = S.seen shelf.old; now = S.seen shelf.new })
        (record { before = O.seen out.old; now = O.seen out.new })
        (record { before = E.seen err.old; now = E.seen err.new }) result }
{
    run_words(alloc, words, shelf, out, err)
}

/// Does what the words ask for.
#[tactic(auto, using(crate::proofs::Endings::well_named))]
fn run_words<S: Shelf, O: Sink, E: Sink>(
    alloc: Global,
    words: &[String],
    shelf: &mut S,
    out: &mut O,
    err: &mut E,
) -> Status
    ensures { Ends (map string_bytes words.now)
        (record { before = S.seen shelf.old; now = S.seen shelf.new })
        (record { before = O.seen out.old; now = O.seen out.new })
        (record { before = E.seen err.old; now = E.seen err.new }) result }
{
    match read_words(alloc, words) {
        Ok(request) => answer_request(alloc, &request, shelf, out, err),
        Err(WordsFault::Usage) => refuse_words(err),
        Err(WordsFault::Memory) => refuse_for_memory(err),
    }
}

/// Tells that the words make no request.
fn refuse_words<E: Sink>(err: &mut E) -> Status
    ensures status { result ≡ Status.Usage }
    ensures line { ReceivedLine (record { before = E.seen err.old; now = E.seen err.new }) usage_line }
{
    tell_usage(err);
    Status::Usage
}

/// Tells want of memory.
fn refuse_for_memory<E: Sink>(err: &mut E) -> Status
    ensures status { result ≡ Status.Memory }
    ensures line { ReceivedLine (record { before = E.seen err.old; now = E.seen err.new }) memory_line }
{
    tell_memory(err);
    Status::Memory
}

/// Answers a request, and tells the answer.
fn answer_request<S: Shelf, O: Sink, E: Sink>(
    alloc: Global,
    request: &Request<'_>,
    shelf: &mut S,
    out: &mut O,
    err: &mut E,
) -> Status
    requires { IsWellNamed (request_view request.now) }
    ensures { AnswersRequest (request_view request.now)
        (record { before = S.seen shelf.old; now = S.seen shelf.new })
        (record { before = O.seen out.old; now = O.seen out.new })
        (record { before = E.seen err.old; now = E.seen err.new }) result }
{
    match answer(alloc, request, shelf) {
        Ok(output) => write(&output, out, err),
        Err(Fault::Refused(refusal)) => refuse(&refusal, err),
        Err(Fault::Memory) => refuse_for_memory(err),
    }
}

/// Tells a refusal.
fn refuse<E: Sink>(refusal: &Refusal<'_>, err: &mut E) -> Status
    ensures status { result ≡ status_told (told_of refusal.now.told) }
    ensures line { ReceivedLine (record { before = E.seen err.old; now = E.seen err.new })
        (line_told refusal.now.file.now (told_of refusal.now.told)) }
{
    match refusal.told {
        Told::CannotRead => {
            tell_unread(err, refusal.file);
            Status::FetchFailed
        }
        Told::IsTooLong => {
            tell_too_long(err, refusal.file);
            Status::TooLong
        }
        Told::IsBroken { place, kind } => {
            tell_broken(err, refusal.file, place, kind);
            Status::Broken
        }
        Told::HasNoPolicy { policy } => {
            tell_no_policy(err, refusal.file, policy);
            Status::NoPolicy
        }
        Told::IsOutside { place, cause } => {
            tell_outside(err, refusal.file, place, cause);
            Status::Outside
        }
        Told::IsInexpressible {
            place,
            target,
            kind,
        } => {
            tell_inexpressible(err, refusal.file, place, target, kind);
            Status::Inexpressible
        }
        Told::SpellsNoRoute { line } => {
            tell_not_route(err, refusal.file, line);
            Status::RouteRefused
        }
    }
}

/// Writes a result, complete as it is, line by line.
fn write<O: Sink, E: Sink>(output: &Output, out: &mut O, err: &mut E) -> Status
    ensures { Writes output.now
        (record { before = O.seen out.old; now = O.seen out.new })
        (record { before = E.seen err.old; now = E.seen err.new }) result }
{
    match put_lines(out, output.text.as_slice()) {
        Ok(()) => output.status,
        Err(PutFault::Failed) => {
            tell_unwritten(err);
            Status::WriteFailed
        }
        Err(PutFault::Memory) => {
            tell_memory(err);
            Status::Memory
        }
    }
}
