// The one line that a refusal puts on `err`, in pieces that take no memory.
ghost use Rattle.std.specs.Prelude.{◌≡◌, [], ◌∷◌, codes, map};
ghost use Rattle.policy_outside.specs.Sink.{joined};
ghost use Rattle.policy_program.specs.Answer.{CannotRead, HasNoPolicy, IsBroken, IsInexpressible, IsOutside, IsTooLong, SpellsNoRoute, kind_name, line_told, memory_line, missing_in, place_line, unwritten_line, usage_line};
ghost use Rattle.policy_program.specs.Ends.{ReceivedLine};

use crate::place::Place;
use expressible_table::{Kind, kind_name as construct_name};
use itoa::Buffer;
use policy_outside::{Sink, put_line};
use policy_request::Language;
use policy_text::{BrokenKind, Cause, cause_name};

/// Puts a line, whatever the sink does with it.
#[tactic(auto, using(crate::proofs::Told::received_line))]
fn tell<E: Sink>(err: &mut E, pieces: &[&[u8]])
    ensures { ReceivedLine (record { before = E.seen err.old; now = E.seen err.new })
        (joined (map (λ piece. piece.now) pieces.now)) }
{
    let _ = put_line(err, pieces);
}

/// Tells that the words make no request.
pub(crate) fn tell_usage<E: Sink>(err: &mut E)
    ensures { ReceivedLine (record { before = E.seen err.old; now = E.seen err.new }) usage_line }
{
    tell(err, &[b"usage: translate, judge, compare or sample\n"]);
}

/// Tells that no policy stands under the name.
pub(crate) fn tell_no_policy<E: Sink>(err: &mut E, file: &str, policy: &[u8])
    ensures { ReceivedLine (record { before = E.seen err.old; now = E.seen err.new }) (line_told file.now (HasNoPolicy policy.now)) }
{
    tell(err, &[file.as_bytes(), b": no policy ", policy, b"\n"]);
}

/// The name of a kind of breaks as it is printed: lower case, with dashes between its words.
fn kind_name(kind: BrokenKind) -> &'static str
    ensures { result.now ≡ kind_name kind }
{
    match kind {
        BrokenKind::OpenQuote => "open-quote",
        BrokenKind::OpenComment => "open-comment",
        BrokenKind::OpenBrace => "open-brace",
        BrokenKind::StrayBrace => "stray-brace",
        BrokenKind::NoEnder => "no-ender",
        BrokenKind::Misplaced => "misplaced",
        BrokenKind::Unended => "unended",
    }
}

/// Tells where and how the text of the file is broken.
pub(crate) fn tell_broken<E: Sink>(err: &mut E, file: &str, place: Place, kind: BrokenKind)
    ensures { ReceivedLine (record { before = E.seen err.old; now = E.seen err.new }) (line_told file.now (IsBroken place kind)) }
{
    tell_fault(err, file, place, b": broken: ", kind_name(kind));
}

/// Tells the first fault of a policy that lies outside the profile, at its place in the file.
pub(crate) fn tell_outside<E: Sink>(err: &mut E, file: &str, place: Place, cause: Cause)
    ensures { ReceivedLine (record { before = E.seen err.old; now = E.seen err.new }) (line_told file.now (IsOutside place cause)) }
{
    tell_fault(err, file, place, b": outside: ", cause_name(cause));
}

/// What stands before the kind of a construct that the language can't say.
fn missing_in(target: Language) -> &'static [u8]
    ensures { result.now ≡ missing_in target }
{
    match target {
        Language::Ios => b": inexpressible in ios: ",
        Language::Junos => b": inexpressible in junos: ",
        Language::Rpl => b": inexpressible in rpl: ",
    }
}

/// Tells the first construct of a policy that the target can't say, at its place in the file.
pub(crate) fn tell_inexpressible<E: Sink>(
    err: &mut E,
    file: &str,
    place: Place,
    target: Language,
    kind: Kind,
)
    ensures { ReceivedLine (record { before = E.seen err.old; now = E.seen err.new }) (line_told file.now (IsInexpressible place target kind)) }
{
    tell_fault(err, file, place, missing_in(target), construct_name(kind));
}

/// Tells a fault of this sort and name at a place of the file.
fn tell_fault<E: Sink>(err: &mut E, file: &str, place: Place, sort: &[u8], name: &str)
    ensures { ReceivedLine (record { before = E.seen err.old; now = E.seen err.new }) (place_line file.now place sort.now name.now) }
{
    let mut line = Buffer::new();
    let mut column = Buffer::new();
    let line = line.format(place.line);
    let column = column.format(place.column);
    tell_parts(
        err,
        file.as_bytes(),
        line.as_bytes(),
        column.as_bytes(),
        sort,
        name.as_bytes(),
    );
}

/// Tells a fault whose place is printed.
fn tell_parts<E: Sink>(
    err: &mut E,
    file: &[u8],
    line: &[u8],
    column: &[u8],
    sort: &[u8],
    name: &[u8],
)
    ensures { ReceivedLine (record { before = E.seen err.old; now = E.seen err.new })
        (joined (file.now ∷ codes ":" ∷ line.now ∷ codes ":" ∷ column.now ∷ sort.now ∷ name.now ∷ codes "\n" ∷ [])) }
{
    tell(err, &[file, b":", line, b":", column, sort, name, b"\n"]);
}

/// Tells that the file could not be read.
pub(crate) fn tell_unread<E: Sink>(err: &mut E, file: &str)
    ensures { ReceivedLine (record { before = E.seen err.old; now = E.seen err.new }) (line_told file.now CannotRead) }
{
    tell(err, &[file.as_bytes(), b": cannot be read\n"]);
}

/// Tells that the file has too many bytes.
pub(crate) fn tell_too_long<E: Sink>(err: &mut E, file: &str)
    ensures { ReceivedLine (record { before = E.seen err.old; now = E.seen err.new }) (line_told file.now IsTooLong) }
{
    tell(err, &[file.as_bytes(), b": longer than 16777216 bytes\n"]);
}

/// Tells that the output was not taken.
pub(crate) fn tell_unwritten<E: Sink>(err: &mut E)
    ensures { ReceivedLine (record { before = E.seen err.old; now = E.seen err.new }) unwritten_line }
{
    tell(err, &[b"output cannot be written\n"]);
}

/// Puts the line that tells want of memory, for a caller whose words could not be had; what the sink does with it
/// changes nothing.
pub fn tell_memory<E: Sink>(err: &mut E)
    ensures { ReceivedLine (record { before = E.seen err.old; now = E.seen err.new }) memory_line }
{
    tell(err, &[b"out of memory\n"]);
}

/// Tells that the file spells no route, by the number of its first line that is not the form.
pub(crate) fn tell_not_route<E: Sink>(err: &mut E, file: &str, number: u64)
    ensures { ReceivedLine (record { before = E.seen err.old; now = E.seen err.new }) (line_told file.now (SpellsNoRoute number)) }
{
    let mut digits = Buffer::new();
    let digits = digits.format(number);
    tell(
        err,
        &[file.as_bytes(), b":", digits.as_bytes(), b": not a route\n"],
    );
}
