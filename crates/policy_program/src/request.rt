// The answer to a request: its files are fetched one by one, and then it is answered on their texts.
ghost use Rattle.std.specs.Prelude.{◌≡◌, [], ◌∷◌, true};
ghost use Rattle.policy_request.specs.NewNames.{is_new_name};
ghost use Rattle.policy_request.specs.Words.{Translate, Judge, translate_view, judge_view, request_view};
ghost use Rattle.policy_program.specs.Requests.{RouteFile, inputs_of};
ghost use Rattle.policy_program.specs.Layers.{AnswersOn, IsWellNamed, FetchesText, FetchesAll};

use crate::judge::judge_texts;
use crate::refusal::{Fault, Refusal, Told};
use crate::status::Status;
use crate::translation::translate_text;
use policy_outside::{FetchFault, Shelf};
use policy_request::{JudgeWords, Request, TranslateWords};
use std::alloc::Global;

/// The greatest length of a source or a route file, in bytes.
const MOST_BYTES: u64 = 16_777_216;

/// The result of a request: its status, and the text that is written.
#[derive(Debug, Drop)]
pub struct Output {
    pub status: Status,
    pub text: Vec<u8>,
}

/// The answer to a request.
pub(crate) fn answer<'a, S: Shelf>(
    alloc: Global,
    request: &Request<'a>,
    shelf: &mut S,
) -> Result<Output, Fault<'a>>
    requires { IsWellNamed (request_view request.now) }
    ensures { FetchesAll (AnswersOn (request_view request.now)) (S.seen shelf.old) (S.seen shelf.new) (inputs_of (request_view request.now)) result }
{
    match request {
        Request::Translate(asked) => answer_translate(alloc, asked, shelf),
        Request::Judge(asked) => answer_judge(alloc, asked, shelf),
    }
}

/// The answer of `translate`.
fn answer_translate<'a, S: Shelf>(
    alloc: Global,
    asked: &TranslateWords<'a>,
    shelf: &mut S,
) -> Result<Output, Fault<'a>>
    requires { is_new_name asked.now.name.now ≡ true }
    ensures { FetchesAll (AnswersOn (Translate (translate_view asked.now))) (S.seen shelf.old) (S.seen shelf.new) (inputs_of (Translate (translate_view asked.now))) result }
{
    match fetch(alloc, asked.file, shelf) {
        Ok(text) => translate_text(alloc, asked, text.as_slice()),
        Err(fault) => Err(fault),
    }
}

/// The answer of `judge`.
fn answer_judge<'a, S: Shelf>(
    alloc: Global,
    asked: &JudgeWords<'a>,
    shelf: &mut S,
) -> Result<Output, Fault<'a>>
    ensures { FetchesAll (AnswersOn (Judge (judge_view asked.now))) (S.seen shelf.old) (S.seen shelf.new) (inputs_of (Judge (judge_view asked.now))) result }
{
    match fetch(alloc, asked.file, shelf) {
        Ok(source) => judge_source(alloc, asked, source.as_slice(), shelf),
        Err(fault) => Err(fault),
    }
}

/// The answer of `judge` whose policy's file is at hand.
fn judge_source<'a, S: Shelf>(
    alloc: Global,
    asked: &JudgeWords<'a>,
    source: &[u8],
    shelf: &mut S,
) -> Result<Output, Fault<'a>>
    ensures { FetchesAll (λ ts. AnswersOn (Judge (judge_view asked.now)) (source.now ∷ ts)) (S.seen shelf.old) (S.seen shelf.new) (RouteFile asked.now.route_file.now ∷ []) result }
{
    match fetch(alloc, asked.route_file, shelf) {
        Ok(route) => judge_texts(alloc, asked, source, route.as_slice()),
        Err(fault) => Err(fault),
    }
}

/// The text of a file.
#[tactic(auto, using(crate::proofs::Fetched::is_long))]
fn fetch<'a, S: Shelf>(alloc: Global, file: &'a str, shelf: &mut S) -> Result<Vec<u8>, Fault<'a>>
    ensures same_texts { (S.seen shelf.new).texts ≡ (S.seen shelf.old).texts }
    ensures text { FetchesText (S.seen shelf.old) (S.seen shelf.new) file.entry.now result }
{
    let told = match shelf.fetch(alloc, file, MOST_BYTES) {
        Ok(text) => return Ok(text),
        Err(FetchFault::Failed) => Told::CannotRead,
        Err(FetchFault::TooLong) => Told::IsTooLong,
        Err(FetchFault::Memory) => return Err(Fault::Memory),
    };
    Err(Fault::Refused(Refusal { file, told }))
}
