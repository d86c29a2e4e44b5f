//! The faults of what is written as an argument, and of what is set by it.
ghost use Rattle.std.specs.Prelude.{◌≡◌, ◌&&◌, nat_lt, option_map, Some, None};
ghost use Rattle.policy_text.specs.declared.fault.Cause.TheVariants.{NotPlain};
ghost use Rattle.route_types.specs.Words.{number_in};
ghost use Rattle.rpl_calls.specs.Arguments.{word_at, handed_at};
ghost use Rattle.rpl_calls.specs.Listed.{handing_parts};
ghost use Rattle.rpl_calls.specs.declared.given.Fact.TheVariants.{Length};
ghost use Rattle.rpl_calls.specs.Said.{call_parts, setting_parts, settings_in};
ghost use Rattle.rpl_calls.specs.Table.{parameter_parts, parameter_in};
ghost use Rattle.rpl_reader.specs.Profile.{is_out, is_no_set};
ghost use Rattle.rpl_reader.specs.Known.{known_facts, known_policy};
ghost use Rattle.rpl_reader.specs.Possible.{known_may};
ghost use Rattle.rpl_reader.specs.Faults.{any_above, number_above, stands_above, value_below, is_wrong, word_fault, argument_fault, given_fault, setting_fault, earliest_of};

use crate::faults::{Fault, earlier};
use crate::known::{Known, is_reached_policy};
use crate::possible::{Possible, may_be};
use crate::sets::block_of;
use policy_text::{Cause, has_name, read_number};
use rpl_calls::{
    Arguments, Call, Demand, Fact, Handing, NumberRange, Parameter, Question, SetSort, Setting,
    handed_at, number_within, word_at,
};
use rpl_facts::kind_code;

// Whether what is written for a number isn't one in its range.
fn is_out(range: NumberRange, word: &[u8]) -> bool
    ensures { result ≡ is_out range.least range.most word.now }
{
    number_within(range.least, range.most, word).is_none()
}

// Whether what is written for a set names none of its sort.
fn is_no_set<'a>(known: &Known<'a>, sort: SetSort, word: &'a [u8]) -> bool
    ensures { result ≡ is_no_set (known_facts known.now) sort word.now }
{
    !has_name(&known.there, word, kind_code(block_of(sort)), 0)
}

// Whether a number is above this one, and a parameter may be it.
fn is_above<'a>(possible: &Possible<'a>, parameter: Parameter<'a>, value: u64, number: u64) -> bool
    ensures { result ≡ (nat_lt value number && known_may possible.now (parameter_parts parameter.entry) (Length number)) }
{
    value < number && may_be(possible, parameter, Fact::Length(number))
}

// Whether a parameter may be a number above this one, up to 32.
#[tactic(auto, unfolding(crate::specs::Faults::any_above))]
fn any_above<'a>(possible: &Possible<'a>, parameter: Parameter<'a>, value: u64) -> bool
    ensures { result ≡ any_above (known_may possible.now) (parameter_parts parameter.entry) value 33 }
{
    let mut number: u64 = 33;
    while 0 < number {
        number -= 1;
        if is_above(possible, parameter, value, number) {
            return true;
        }
    }
    false
}

fn number_above(value: u64, number: Option<u64>) -> bool
    ensures { result ≡ number_above value number }
{
    match number {
        None => false,
        Some(number) => value < number,
    }
}

// Whether what is written or handed on may be a number above this one, up to 32.
fn stands_above<'a>(
    possible: &Possible<'a>,
    value: u64,
    word: Option<&'a [u8]>,
    parameter: Option<Parameter<'a>>,
) -> bool
    ensures { result ≡ stands_above (known_may possible.now) value (option_map (λ w. w.now) word.entry) (parameter_in parameter.entry) }
{
    match (word, parameter) {
        (Some(word), _) => number_above(value, read_number(word, 32)),
        (None, Some(parameter)) => any_above(possible, parameter, value),
        (None, None) => false,
    }
}

// Whether a word is a number that is below one that may stand at a place of the call's arguments.
fn is_below<'a>(possible: &Possible<'a>, call: &Call<'a>, place: usize, word: &'a [u8]) -> bool
    ensures { result ≡ value_below (known_may possible.now) (call_parts call.now) place (number_in 32 word.now) }
{
    match read_number(word, 32) {
        None => false,
        Some(value) => stands_above(
            possible,
            value,
            word_at(call, place),
            handed_at(call, place),
        ),
    }
}

// Whether a word that is written in a call isn't what is asked for.
fn is_wrong<'a>(
    known: &Known<'a>,
    possible: &Possible<'a>,
    call: &Call<'a>,
    word: &'a [u8],
    question: Question,
) -> bool
    ensures { result ≡ is_wrong (known_facts known.now) (known_may possible.now) (call_parts call.now) word.now question }
{
    match question {
        Question::Number(range) => is_out(range, word),
        Question::Set(sort) => is_no_set(known, sort, word),
        Question::NotBelow(place) => is_below(possible, call, place, word),
    }
}

// The fault of a call with this argument, where it is asked this.
fn word_fault<'a>(
    known: &Known<'a>,
    possible: &Possible<'a>,
    call: &Call<'a>,
    question: Question,
    word: Option<&'a [u8]>,
) -> Option<Fault>
    ensures { result ≡ word_fault (known_facts known.now) (known_may possible.now) (call_parts call.now) question (option_map (λ w. w.now) word.entry) }
{
    let word = word?;
    if is_wrong(known, possible, call, word, question) {
        return Some((call.span, Cause::BadArgument));
    }
    None
}

fn argument_fault<'a>(
    known: &Known<'a>,
    possible: &Possible<'a>,
    argument: Handing<'_, 'a>,
    question: Question,
) -> Option<Fault>
    ensures { result ≡ argument_fault (known_facts known.now) (known_policy known.now) (known_may possible.now) (handing_parts argument.entry) question }
{
    let call = argument.call;
    if is_reached_policy(known, call.caller) {
        let word = word_at(call, argument.place);
        return word_fault(known, possible, call, question, word);
    }
    None
}

// The fault that a reached call has by what an argument of it is asked.
fn given_fault<'a>(
    known: &Known<'a>,
    possible: &Possible<'a>,
    arguments: &Arguments<'_, 'a>,
    demand: Demand,
) -> Option<Fault>
    ensures { result ≡ given_fault (known_facts known.now) (known_policy known.now) (known_may possible.now) arguments.now demand }
{
    let argument = arguments.get(demand.argument)?;
    argument_fault(known, possible, argument, demand.question)
}

// The first fault by what arguments are asked.
#[tactic(auto, unfolding(crate::specs::Faults::earliest_of))]
pub(crate) fn earliest_given<'a>(
    known: &Known<'a>,
    possible: &Possible<'a>,
    arguments: &Arguments<'_, 'a>,
    demands: &[Demand],
) -> Option<Fault>
    ensures { result ≡ earliest_of (given_fault (known_facts known.now) (known_policy known.now) (known_may possible.now) arguments.now) None demands.now }
{
    let mut found = None;
    let mut rest = demands;
    while let [first, tail @ ..] = rest {
        found = earlier(found, given_fault(known, possible, arguments, *first));
        rest = tail;
    }
    found
}

// The fault of a statement that sets the communities of what is handed to its policy.
fn setting_fault<'a>(possible: &Possible<'a>, setting: Setting<'a>) -> Option<Fault>
    ensures { result ≡ setting_fault (known_may possible.now) (setting_parts setting.entry) }
{
    let parameter = Parameter {
        policy: setting.policy,
        place: setting.place,
    };
    if may_be(possible, parameter, Fact::Wide) {
        return Some((setting.span, Cause::NotPlain));
    }
    None
}

// The first fault of such statements, or this one.
#[tactic(auto, unfolding(crate::specs::Faults::earliest_of))]
pub(crate) fn earliest_setting<'a>(
    possible: &Possible<'a>,
    other: Option<Fault>,
    settings: &[Setting<'a>],
) -> Option<Fault>
    ensures { result ≡ earliest_of (setting_fault (known_may possible.now)) other (settings_in settings.now) }
{
    let mut found = other;
    let mut rest = settings;
    while let [first, tail @ ..] = rest {
        found = earlier(found, setting_fault(possible, *first));
        rest = tail;
    }
    found
}
