//! What a form is: its sort, its name, its mark, and the header or line that it is.
ghost use Rattle.std.specs.Prelude.{◌≡◌, ◌&&◌, bytes_eq, option_map};
ghost use Rattle.policy_text.specs.Names.{is_named};
ghost use Rattle.ios_tree.specs.Tree.{family_of};
ghost use Rattle.ios_tree.specs.Sorts.{sort_of_form, name_of_form, is_line_sort, is_header_sort};
ghost use Rattle.ios_reader.specs.Items.{header_in, has_no_form, sort_code, shape_code, mark_of, defined_name};
ghost use Rattle.ios_reader.specs.Profile.{is_unknown};

use crate::takes::Takes;
use ios_tree::{CommunityShape, IosForm, ItemSort, MapHeader, PrefixListEntry};
use route_types::{Family, Row};

pub(crate) fn family_of(entry: &PrefixListEntry) -> Family
    ensures { result ≡ family_of entry.now }
{
    entry.entry.range.prefix().address().family
}

pub(crate) fn sort_of_form(form: &IosForm) -> ItemSort
    ensures { result ≡ sort_of_form form.now }
{
    match form {
        IosForm::PrefixEntry(entry) => ItemSort::PrefixList(family_of(entry)),
        IosForm::PrefixDescription(description) => ItemSort::PrefixList(description.family),
        IosForm::CommunityEntry(_) => ItemSort::CommunityList,
        IosForm::PathEntry(_) => ItemSort::PathList,
        IosForm::MapHeader(_) => ItemSort::Map,
        IosForm::Line(_) => ItemSort::Line,
        IosForm::Other(other) => other.sort,
    }
}

pub(crate) fn sort_code(sort: ItemSort) -> u64
    ensures { result ≡ sort_code sort }
{
    match sort {
        ItemSort::PrefixList(family) => family.width() as u64,
        ItemSort::CommunityList => 1,
        ItemSort::PathList => 2,
        ItemSort::Map => 3,
        ItemSort::Line => 4,
    }
}

pub(crate) fn shape_code(shape: &CommunityShape) -> u64
    ensures { result ≡ shape_code shape.now }
{
    match shape {
        CommunityShape::Standard(_) => 0,
        CommunityShape::Expanded(_) => 1,
    }
}

fn name_of_other(name: &Option<Row<u8>>) -> Option<&[u8]>
    ensures { option_map (λ n. n.now) result ≡ name.now }
{
    match name {
        None => None,
        Some(name) => Some(name.as_slice()),
    }
}

pub(crate) fn name_of_form(form: &IosForm) -> Option<&[u8]>
    ensures { option_map (λ n. n.now) result ≡ name_of_form form.now }
{
    match form {
        IosForm::PrefixEntry(entry) => Some(entry.list.as_slice()),
        IosForm::PrefixDescription(description) => Some(description.list.as_slice()),
        IosForm::CommunityEntry(entry) => Some(entry.list.as_slice()),
        IosForm::PathEntry(entry) => Some(entry.list.as_slice()),
        IosForm::MapHeader(header) => Some(header.map.as_slice()),
        IosForm::Line(_) => None,
        IosForm::Other(other) => name_of_other(&other.name),
    }
}

pub(crate) fn defined_name(form: &IosForm) -> Option<&[u8]>
    ensures { option_map (λ n. n.now) result ≡ defined_name form.now }
{
    match form {
        IosForm::PrefixDescription(_) => None,
        _ => name_of_form(form),
    }
}

pub(crate) fn mark_of(form: &IosForm) -> Option<u64>
    ensures { result ≡ mark_of form.now }
{
    match form {
        IosForm::PrefixEntry(entry) => Some(entry.number),
        IosForm::CommunityEntry(entry) => Some(shape_code(&entry.shape)),
        IosForm::MapHeader(header) => Some(header.number),
        _ => None,
    }
}

pub(crate) fn header_in(form: &IosForm) -> Option<&MapHeader>
    ensures { option_map (λ h. h.now) result ≡ header_in form.now }
{
    match form {
        IosForm::MapHeader(header) => Some(header),
        _ => None,
    }
}

pub(crate) fn same_name(name: &[u8], other: &[u8]) -> bool
    ensures { result ≡ bytes_eq name.now other.now }
{
    name == other
}

pub(crate) fn is_line(form: &IosForm) -> bool
    ensures { result ≡ is_line_sort (sort_of_form form.now) }
{
    match sort_of_form(form) {
        ItemSort::PrefixList(_) => false,
        ItemSort::CommunityList => false,
        ItemSort::PathList => false,
        ItemSort::Map => false,
        ItemSort::Line => true,
    }
}

pub(crate) fn stands_under(name: &[u8], form: &IosForm) -> bool
    ensures { result ≡ is_named name.now (name_of_form form.now) }
{
    match name_of_form(form) {
        None => false,
        Some(other) => same_name(name, other),
    }
}

pub(crate) fn heads(name: &[u8], form: &IosForm) -> bool
    ensures { result ≡ (is_header_sort (sort_of_form form.now) && is_named name.now (name_of_form form.now)) }
{
    match sort_of_form(form) {
        ItemSort::PrefixList(_) => false,
        ItemSort::CommunityList => false,
        ItemSort::PathList => false,
        ItemSort::Map => stands_under(name, form),
        ItemSort::Line => false,
    }
}

fn has_no_form(form: &IosForm) -> bool
    ensures { result ≡ has_no_form form.now }
{
    matches!(form, IosForm::Other(_))
}

pub(crate) fn is_unknown<T: Takes>(form: &IosForm) -> bool
    ensures { result ≡ is_unknown T.takes form.now }
{
    !T::takes(form) || has_no_form(form)
}
