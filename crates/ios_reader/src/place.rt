//! Where the walk stands among the items.
ghost use Rattle.std.specs.Prelude.{◌≡◌, ℕ, ◌<◌, List, ◌∷◌, Option, None, Some, false, true, option_map, IfSome};
ghost use Rattle.ios_reader.specs.Items.{line_in};
ghost use Rattle.ios_reader.specs.Lines.{kind_of};
ghost use Rattle.ios_reader.specs.Walk.{no_kinds, kinds_with, has_kind, Marks, KeepsMark, IsBehind};
ghost use Rattle.ios_tree.specs.declared.item.IosItem.{IosItem as SpecItem};

use crate::items::{header_in, heads, is_line};
use crate::lines::kind_of;
use ios_tree::{IosForm, IosItem, MapHeader, MapLine};

// Whether the entry that is open is one of the policy, its header where that has its form, and which kinds of lines
// it has.
#[derive(Clone, Copy)]
pub(crate) struct Place<'a> {
    pub(crate) inside: bool,
    pub(crate) header: Option<&'a MapHeader>,
    pub(crate) kinds: [bool; 15],
}

pub(crate) fn place_of_start<'a>() -> Place<'a>
    ensures { result ≡ record { inside = false; header = None; kinds = no_kinds } }
{
    Place {
        inside: false,
        header: None,
        kinds: [false; 15],
    }
}

pub(crate) fn has_kind(kinds: &[bool; 15], line: &MapLine) -> bool
    ensures { result ≡ has_kind kinds.now (kind_of line.now) }
{
    kinds[kind_of(line)]
}

fn kinds_with(kinds: [bool; 15], form: &IosForm) -> [bool; 15]
    ensures value { result ≡ kinds_with kinds form.now }
    ensures within { IfSome (line_in form.now) (λ l. kind_of l < 15) }
{
    let mut more = kinds;
    if let IosForm::Line(line) = form {
        more[kind_of(line)] = true;
    }
    more
}

// The place behind an item.
pub(crate) fn place_behind<'a>(policy: &[u8], place: Place<'a>, item: &'a IosItem) -> Place<'a>
    ensures { (before : List SpecItem) (marks more : Marks) → IsBehind policy.now before place.entry marks → KeepsMark marks more item.now → IsBehind policy.now (item.now ∷ before) result more }
{
    if is_line(&item.form) {
        return Place {
            inside: place.inside,
            header: place.header,
            kinds: kinds_with(place.kinds, &item.form),
        };
    }
    Place {
        inside: heads(policy, &item.form),
        header: header_in(&item.form),
        kinds: [false; 15],
    }
}
