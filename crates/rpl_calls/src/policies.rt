//! The policies of a text, and what their first lines give.
ghost use Rattle.std.specs.Prelude.{◌≡◌, ℕ, List, Option, Some, None, IfOk, OnOk, bytes_eq, option_map};
ghost use Rattle.name_maps.specs.Under.{under, first_of};
ghost use Rattle.rpl_calls.specs.Policies.{kind_of, name_of, opens, name_under, parameters_of, parameters_in, place_of, place_from, policy_line};
ghost use Rattle.rpl_calls.specs.Open.{IsOpen};

use name_maps::NameMap;
use route_types::{Memory, Row};
use rpl_forms::{BlockKind, Header, RplForm};
use std::alloc::Global;

/// The block that a form opens. It takes no memory.
pub fn opens(form: &RplForm) -> Option<BlockKind>
    ensures { result ≡ opens form.now }
{
    match form {
        RplForm::Header(Header::PrefixSet(_)) => Some(BlockKind::PrefixSet),
        RplForm::Header(Header::CommunitySet(_)) => Some(BlockKind::CommunitySet),
        RplForm::Header(Header::PathSet(_)) => Some(BlockKind::PathSet),
        RplForm::Header(Header::Policy(_)) => Some(BlockKind::Policy),
        RplForm::Other(other) => other.opens,
        _ => None,
    }
}

fn name_of(header: &Header) -> &[u8]
    ensures { result.now ≡ name_of header.now }
{
    match header {
        Header::PrefixSet(name) => name.as_slice(),
        Header::CommunitySet(name) => name.as_slice(),
        Header::PathSet(name) => name.as_slice(),
        Header::Policy(policy) => policy.name.as_slice(),
    }
}

/// The name that a first line stands under, the empty one where it has none. It takes no memory.
pub fn name_under(form: &RplForm) -> &[u8]
    ensures { result.now ≡ name_under form.now }
{
    match form {
        RplForm::Header(header) => name_of(header),
        RplForm::Other(other) => match &other.name {
            Some(name) => name.as_slice(),
            None => b"",
        },
        _ => b"",
    }
}

/// The parameters that a first line gives. It takes no memory.
pub fn parameters_in(form: &RplForm) -> &[Row<u8>]
    ensures { result.now ≡ parameters_in form.now }
{
    match form {
        RplForm::Header(Header::Policy(policy)) => policy.parameters.as_slice(),
        _ => &[],
    }
}

/// The policy that is open: its first line, and the place of each of its parameters.
#[derive(Drop)]
pub(crate) struct Open<'a> {
    pub(crate) line: &'a RplForm,
    pub(crate) places: NameMap<'a, usize>,
}

// The place of each name, of the first one where it stands twice.
fn places_of<'a>(alloc: Global, names: &'a [Row<u8>]) -> Result<NameMap<'a, usize>, Memory>
    ensures { IfOk result (λ m. (x : List ℕ) → under m.entries x ≡ place_of names.now x) }
{
    let mut places = NameMap::new(alloc);
    let mut place = 0;
    let mut rest = names;
    while let [first, tail @ ..] = rest {
        places.put_first(first.as_slice(), place)?;
        place += 1;
        rest = tail;
    }
    Ok(places)
}

// What is open behind a first line.
pub(crate) fn open_behind<'a>(
    alloc: Global,
    kind: BlockKind,
    form: &'a RplForm,
) -> Result<Option<Open<'a>>, Memory>
    ensures { IfOk result (λ o. IsOpen (policy_line kind form.now) o) }
{
    match kind {
        BlockKind::Policy => {
            let places = places_of(alloc, parameters_in(form))?;
            Ok(Some(Open { line: form, places }))
        }
        BlockKind::PrefixSet => Ok(None),
        BlockKind::CommunitySet => Ok(None),
        BlockKind::PathSet => Ok(None),
    }
}
