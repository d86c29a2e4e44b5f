// The commands as clap has them, and what it reads of the words.
ghost use Rattle.std.specs.Prelude.{◌≡◌, false, true, IfOk, map, option_map};
ghost use Rattle.std.specs.String.{string_bytes};
ghost use Rattle.clap.specs.Words.{app_of, first_of, found_of, rows_of, rule_of};
ghost use Rattle.clap.specs.declared.error.kind.ErrorKind.TheVariants.{OutOfMemory};
ghost use Rattle.policy_request.specs.Words.{Judges, Translates, app_of_verb, file_rule, option_rule};
ghost use Rattle.policy_request.specs.Spelled.{ParsesBy, is_plain, rows_in, with_options};

use crate::command::WordsFault;
use clap::error::ErrorKind;
use clap::{Arg, ArgMatches, Command};
use std::alloc::{AllocError, Global};

/// An option that takes one value and is required.
fn required_option<'a>(alloc: Global, name: &'a str) -> Arg<'a>
    ensures rule { rule_of result ≡ option_rule name.entry.now }
    ensures local { result.global ≡ false }
{
    Arg::new(alloc, name).long(name).required(true)
}

/// A file, which is positional and required.
fn required_file<'a>(alloc: Global, name: &'a str) -> Arg<'a>
    ensures rule { rule_of result ≡ file_rule name.entry.now }
    ensures local { result.global ≡ false }
{
    Arg::new(alloc, name).required(true)
}

/// A command with its first two options.
fn with_options<'a>(
    alloc: Global,
    verb: &'a str,
    first: &'a str,
    second: &'a str,
) -> Result<Command<'a>, AllocError>
    ensures { IfOk result (λ c. app_of c ≡ with_options verb.entry.now first.entry.now second.entry.now) }
{
    Command::new(alloc, verb)
        .arg(required_option(alloc, first))?
        .arg(required_option(alloc, second))
}

/// The command of `translate`.
#[tactic(auto, unfolding(crate::specs::Words::app_of_verb))]
pub fn translate_command<'a>(alloc: Global) -> Result<Command<'a>, AllocError>
    ensures { IfOk result (λ c. app_of c ≡ app_of_verb Translates) }
{
    with_options(alloc, "translate", "from", "to")?
        .arg(required_option(alloc, "policy"))?
        .arg(required_option(alloc, "as"))?
        .arg(required_file(alloc, "file"))
}

/// The command of `judge`.
#[tactic(auto, unfolding(crate::specs::Words::app_of_verb))]
pub fn judge_command<'a>(alloc: Global) -> Result<Command<'a>, AllocError>
    ensures { IfOk result (λ c. app_of c ≡ app_of_verb Judges) }
{
    with_options(alloc, "judge", "from", "policy")?
        .arg(required_file(alloc, "file"))?
        .arg(required_file(alloc, "route-file"))
}

/// The values that clap reads of the words.
pub fn parsed<'a>(command: Command<'a>, words: &'a [String]) -> Result<ArgMatches<'a>, WordsFault>
    requires { is_plain (app_of command) ≡ true }
    ensures { ParsesBy (rows_in (app_of command.entry) (map string_bytes words.now)) result }
{
    match command.try_get_matches_from(words) {
        Ok(matches) => Ok(matches),
        Err(error) => Err(fault_by(error.kind())),
    }
}

/// What an error of clap comes to.
fn fault_by(kind: ErrorKind) -> WordsFault
    ensures { result ≡ WordsFault.Usage → kind ≡ OutOfMemory → ⊥ }
{
    if kind == ErrorKind::OutOfMemory {
        return WordsFault::Memory;
    }
    WordsFault::Usage
}

/// The value of an option or a file.
#[tactic(auto, using(crate::proofs::ClapParse::value_row))]
pub fn value<'a>(matches: &ArgMatches<'a>, name: &str) -> Option<&'a str>
    ensures { option_map (λ s. s.now) result ≡ first_of name.now (rows_of (found_of matches.now)) }
{
    matches.get_str(name)
}
