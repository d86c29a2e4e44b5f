// The words of the commands, and the request that they make.
ghost use Rattle.std.specs.Prelude.{◌≡◌, IfOk, IsErrOf, map, option_map};
ghost use Rattle.std.specs.String.{string_bytes};
ghost use Rattle.clap.specs.Words.{found_of, rows_of};
ghost use Rattle.policy_request.specs.Words.{Accepts, IsRefused, Judge, Judges, Translate, Translates, judge_view, request_view, translate_view};
ghost use Rattle.policy_request.specs.declared.command.WordsFault.{WordsFault};
ghost use Rattle.policy_request.specs.Spelled.{AnswersBy, asked, asked_in, request_in};

use crate::clap_command::{judge_command, parsed, translate_command, value};
use crate::language::{Language, language_in};
use crate::word_forms::{is_new_name, is_policy_word, is_policy_word_of};
use clap::ArgMatches;
use std::alloc::{AllocError, Global};

/// What the words ask for.
#[derive(Clone, Copy, Debug)]
pub enum Request<'a> {
    /// To write a policy in another language.
    Translate(TranslateWords<'a>),
    /// To tell what a policy makes of one route.
    Judge(JudgeWords<'a>),
}

/// The words of `translate --from ios --policy P --to rpl --as NAME FILE`.
#[derive(Clone, Copy, Debug)]
pub struct TranslateWords<'a> {
    /// The name of the policy in the source.
    pub policy: &'a str,
    /// The name of the policy in the target.
    pub name: &'a str,
    /// The source's name on the shelf.
    pub file: &'a str,
}

/// The words of `judge --from D --policy P FILE ROUTEFILE`.
#[derive(Clone, Copy, Debug)]
pub struct JudgeWords<'a> {
    /// The language of the source.
    pub language: Language,
    /// The name of the policy in the source; in Junos those of a chain, with a comma between two.
    pub policy: &'a str,
    /// The source's name on the shelf.
    pub file: &'a str,
    /// The name on the shelf of the text that spells the route.
    pub route_file: &'a str,
}

/// Why no request was made of the words.
#[derive(Clone, Copy, Debug, PartialEq, Eq)]
pub enum WordsFault {
    /// The words make no request.
    Usage,
    /// Want of memory.
    Memory,
}

impl From<AllocError> for WordsFault {
    ghost from_gives = { λ _ fault. fault ≡ WordsFault.Memory };

    fn from(_error: AllocError) -> WordsFault {
        WordsFault::Memory
    }
}

/// The request that the words make.
///
/// The first word is the verb, `translate` or `judge`; the other words are read by clap: each option takes
/// one value and is required, and so are the files. P is not empty and has no byte below 33 and no quote, and in Junos
/// no name between its commas is empty; NAME is an ASCII letter, then at most 62 letters, digits, `-` or `_`. `Usage`
/// comes only for words that make no request.
#[tactic(auto, using(crate::proofs::Words::accepted, crate::proofs::Words::refused))]
pub fn read_words(alloc: Global, words: &[String]) -> Result<Request<'_>, WordsFault>
    ensures accepted { IfOk result (λ q. Accepts (map string_bytes words.now) (request_view q)) }
    ensures usage { IsErrOf result WordsFault.Usage → IsRefused (map string_bytes words.now) }
{
    read_verb(alloc, words)
}

/// The request by the first word.
#[tactic(auto, unfolding(crate::specs::Spelled::request_in))]
fn read_verb(alloc: Global, words: &[String]) -> Result<Request<'_>, WordsFault>
    ensures { AnswersBy (request_in (map string_bytes words.now)) result }
{
    let [verb, ..] = words else {
        return Err(WordsFault::Usage);
    };
    if verb.as_str() == "translate" {
        return read_translate(alloc, words);
    }
    if verb.as_str() == "judge" {
        return read_judge(alloc, words);
    }
    Err(WordsFault::Usage)
}

/// The request of `translate`.
#[tactic(auto, using(crate::proofs::ClapParse::translate_simple), unfolding(crate::specs::Spelled::asked))]
fn read_translate(alloc: Global, words: &[String]) -> Result<Request<'_>, WordsFault>
    ensures { AnswersBy (asked Translates (map string_bytes words.now)) result }
{
    let command = translate_command(alloc)?;
    let matches = parsed(command, words)?;
    match translate_words(&matches) {
        Some(asked) => Ok(Request::Translate(asked)),
        None => Err(WordsFault::Usage),
    }
}

/// The request of `judge`.
#[tactic(auto, using(crate::proofs::ClapParse::judge_simple), unfolding(crate::specs::Spelled::asked))]
fn read_judge(alloc: Global, words: &[String]) -> Result<Request<'_>, WordsFault>
    ensures { AnswersBy (asked Judges (map string_bytes words.now)) result }
{
    let command = judge_command(alloc)?;
    let matches = parsed(command, words)?;
    match judge_words(&matches) {
        Some(asked) => Ok(Request::Judge(asked)),
        None => Err(WordsFault::Usage),
    }
}

/// What `translate` is asked by its values.
#[tactic(auto, unfolding(crate::specs::Spelled::asked_in))]
fn translate_words<'a>(matches: &ArgMatches<'a>) -> Option<TranslateWords<'a>>
    ensures { option_map (λ t. Translate (translate_view t)) result ≡ asked_in Translates (rows_of (found_of matches.now)) }
{
    let source = value(matches, "from")?;
    if source != "ios" {
        return None;
    }
    let target = value(matches, "to")?;
    if target != "rpl" {
        return None;
    }
    let policy = value(matches, "policy")?;
    if !is_policy_word(policy.as_bytes()) {
        return None;
    }
    let name = value(matches, "as")?;
    if !is_new_name(name.as_bytes()) {
        return None;
    }
    let file = value(matches, "file")?;
    Some(TranslateWords { policy, name, file })
}

/// What `judge` is asked by its values.
#[tactic(auto, unfolding(crate::specs::Spelled::asked_in))]
fn judge_words<'a>(matches: &ArgMatches<'a>) -> Option<JudgeWords<'a>>
    ensures { option_map (λ j. Judge (judge_view j)) result ≡ asked_in Judges (rows_of (found_of matches.now)) }
{
    let source = value(matches, "from")?;
    let language = language_in(source.as_bytes())?;
    let policy = value(matches, "policy")?;
    if !is_policy_word_of(language, policy.as_bytes()) {
        return None;
    }
    let file = value(matches, "file")?;
    let route_file = value(matches, "route-file")?;
    Some(JudgeWords {
        language,
        policy,
        file,
        route_file,
    })
}
