// Why a request has no result.
ghost use Rattle.std.specs.Prelude.{◌≡◌, [], slice_get, unwrap_or};
ghost use Rattle.policy_request.specs.Languages.{texts_of};
ghost use Rattle.policy_request.specs.declared.language.Language.TheVariants.{Rpl};
ghost use Rattle.policy_program.specs.Layers.{TellsLoad, TellsTranslation};

use crate::place::{Place, place_of};
use crate::translation::TranslateFault;
use expressible_table::Kind;
use policy_request::Language;
use policy_sources::LoadFault;
use policy_text::{BrokenKind, Cause};

/// What a refusal tells of a file.
#[derive(Clone, Copy, Debug, PartialEq, Eq)]
pub enum Told<'a> {
    /// It cannot be read.
    CannotRead,
    /// It has more than 16,777,216 bytes.
    IsTooLong,
    /// Its text is broken here, so that it has no tree.
    IsBroken {
        place: Place,
        kind: BrokenKind,
    },
    /// No policy stands under this name in it.
    HasNoPolicy {
        policy: &'a [u8],
    },
    /// The policy lies outside the profile, or has a statement of a form that the verb does not take;
    /// this is its first fault, with its place.
    IsOutside {
        place: Place,
        cause: Cause,
    },
    /// The target can't say its policy; this is the first construct that it can't say, with its place.
    IsInexpressible {
        place: Place,
        target: Language,
        kind: Kind,
    },
    /// It spells no route; this is its first line that is not the form, from 1.
    SpellsNoRoute {
        line: u64,
    },
}

/// A refusal: the file, as the words name it, and what is told of it.
#[derive(Clone, Copy, Debug, PartialEq, Eq)]
pub struct Refusal<'a> {
    pub file: &'a str,
    pub told: Told<'a>,
}

/// Why a request has no result.
#[derive(Clone, Copy, Debug, PartialEq, Eq)]
pub enum Fault<'a> {
    /// A file is refused.
    Refused(Refusal<'a>),
    /// Want of memory.
    Memory,
}

/// The name at a place.
fn name_at<'a>(names: &[&'a [u8]], place: usize) -> &'a [u8]
    ensures { result.now ≡ unwrap_or (slice_get (texts_of names.now) place) [] }
{
    match names.get(place) {
        Some(name) => name,
        None => b"",
    }
}

/// What a fault of a load tells of the file, which has this text and is to have policies of these names.
pub(crate) fn refused_load<'a>(
    file: &'a str,
    names: &[&'a [u8]],
    text: &[u8],
    fault: LoadFault,
) -> Fault<'a>
    ensures { TellsLoad file.entry.now (texts_of names.entry.now) text.now fault result }
{
    let told = match fault {
        LoadFault::Broken { span, kind } => Told::IsBroken {
            place: place_of(text, span.start),
            kind,
        },
        LoadFault::NoPolicy { place } => Told::HasNoPolicy {
            policy: name_at(names, place),
        },
        LoadFault::Outside { span, cause } => Told::IsOutside {
            place: place_of(text, span.start),
            cause,
        },
        LoadFault::Memory => return Fault::Memory,
    };
    Fault::Refused(Refusal { file, told })
}

/// What a fault of a translation into RPL tells of the file, which has this text and is to have policies of these names.
pub(crate) fn refused_translation<'a>(
    file: &'a str,
    names: &[&'a [u8]],
    text: &[u8],
    fault: TranslateFault,
) -> Fault<'a>
    ensures { TellsTranslation file.entry.now (texts_of names.entry.now) text.now Rpl fault result }
{
    match fault {
        TranslateFault::Broken { span, kind } => {
            refused_load(file, names, text, LoadFault::Broken { span, kind })
        }
        TranslateFault::NoPolicy { place } => {
            refused_load(file, names, text, LoadFault::NoPolicy { place })
        }
        TranslateFault::Outside { span, cause } => {
            refused_load(file, names, text, LoadFault::Outside { span, cause })
        }
        TranslateFault::Inexpressible { span, kind } => Fault::Refused(Refusal {
            file,
            told: Told::IsInexpressible {
                place: place_of(text, span.start),
                target: Language::Rpl,
                kind,
            },
        }),
        TranslateFault::Memory => refused_load(file, names, text, LoadFault::Memory),
    }
}
