//! The causes, each a rule of its own, and the fault of an item.
ghost use Rattle.std.specs.Prelude.{◌≡◌, not, option_map};
ghost use Rattle.std.specs.List.{list_any};
ghost use Rattle.policy_text.specs.Causes.{first_cause};
ghost use Rattle.policy_text.specs.NameSets.{has_name};
ghost use Rattle.ios_reader.specs.Items.{line_in};
ghost use Rattle.ios_reader.specs.Known.{is_above, known_facts, told};
ghost use Rattle.ios_reader.specs.Profile.{passes, is_reached, is_second_sort, repeats_number, lists_missing, target_missing, is_undefined, repeats_kind, continues_back, continues_in_deny, is_unsettled, is_exact_expanded, has_line_cause, has_form_cause, has_cause, is_fault};

use crate::items::{
    family_of, is_unknown, name_of_form, shape_code, sort_code, sort_of_form, stands_under,
};
use crate::known::{Known, least_of};
use crate::lines::{continues, is_description_line, lists_named, target_of, tested_by};
use crate::place::{Place, has_kind};
use crate::takes::Takes;
use ios_tree::{IosForm, ItemSort, MapHeader, MapLine};
use policy_text::{Cause, NameSet, Rules, any_marked, any_missing, first_cause, has_name};

// What the rules look at: the facts of the tree, what stands before the item, and its form.
#[derive(Clone, Copy)]
struct At<'w, 'a> {
    known: &'w Known<'a>,
    place: Place<'a>,
    marks: &'w NameSet<'a>,
    form: &'a IosForm,
    unknown: bool,
}

// ---- what is reached

fn is_named<'a>(names: &NameSet<'a>, sort: u64, name: Option<&'a [u8]>) -> bool
    ensures { result ≡ passes (λ q. has_name names.now q sort 0) (option_map (λ n. n.now) name.entry) }
{
    match name {
        None => false,
        Some(name) => has_name(names, name, sort, 0),
    }
}

fn is_reached<'a>(
    known: &Known<'a>,
    place: &Place<'a>,
    marks: &NameSet<'a>,
    form: &'a IosForm,
) -> bool
    ensures { result ≡ is_reached (known_facts known.now) (told place.now marks.now) form.now }
{
    let name = name_of_form(form);
    match sort_of_form(form) {
        ItemSort::PrefixList(family) => {
            is_named(&known.named, sort_code(ItemSort::PrefixList(family)), name)
        }
        ItemSort::CommunityList => {
            is_named(&known.named, sort_code(ItemSort::CommunityList), name)
        }
        ItemSort::PathList => is_named(&known.named, sort_code(ItemSort::PathList), name),
        ItemSort::Map => stands_under(known.policy, form),
        ItemSort::Line => place.inside,
    }
}

// ---- an entry of a list or a map

fn is_second_sort<'a>(place: &Place<'a>, marks: &NameSet<'a>, form: &'a IosForm) -> bool
    ensures { result ≡ is_second_sort (told place.now marks.now) form.now }
{
    match form {
        IosForm::CommunityEntry(entry) => {
            let list = entry.list.as_slice();
            let sort = sort_code(ItemSort::CommunityList);
            let shape = shape_code(&entry.shape);
            has_name(marks, list, sort, 1 - shape) && !has_name(marks, list, sort, shape)
        }
        _ => false,
    }
}

fn repeats_number<'a>(place: &Place<'a>, marks: &NameSet<'a>, form: &'a IosForm) -> bool
    ensures { result ≡ repeats_number (told place.now marks.now) form.now }
{
    match form {
        IosForm::PrefixEntry(entry) => {
            let sort = sort_code(ItemSort::PrefixList(family_of(entry)));
            has_name(marks, entry.list.as_slice(), sort, entry.number)
        }
        IosForm::MapHeader(header) => {
            let sort = sort_code(ItemSort::Map);
            has_name(marks, header.map.as_slice(), sort, header.number)
        }
        _ => false,
    }
}

// ---- a line of an entry

fn lists_missing<'a>(known: &Known<'a>, line: &'a MapLine) -> bool
    ensures { result ≡ lists_missing (known_facts known.now) line.now }
{
    let (sort, lists) = lists_named(line);
    any_missing(&known.defined, sort_code(sort), lists)
}

fn target_missing(known: &Known<'_>, header: &MapHeader, target: Option<u64>) -> bool
    ensures { result ≡ target_missing (known_facts known.now) header.now target }
{
    match target {
        None => false,
        Some(number) => {
            let sort = sort_code(ItemSort::Map);
            header.number < number && !has_name(&known.marked, known.policy, sort, number)
        }
    }
}

fn is_undefined<'a>(
    known: &Known<'a>,
    place: &Place<'a>,
    marks: &NameSet<'a>,
    line: &'a MapLine,
) -> bool
    ensures { result ≡ is_undefined (known_facts known.now) (told place.now marks.now) line.now }
{
    if lists_missing(known, line) {
        return true;
    }
    match place.header {
        None => false,
        Some(header) => target_missing(known, header, target_of(line)),
    }
}

fn repeats_kind<'a>(place: &Place<'a>, marks: &NameSet<'a>, line: &MapLine) -> bool
    ensures { result ≡ repeats_kind (told place.now marks.now) line.now }
{
    !is_description_line(line) && has_kind(&place.kinds, line)
}

fn continues_back<'a>(place: &Place<'a>, marks: &NameSet<'a>, line: &MapLine) -> bool
    ensures { result ≡ continues_back (told place.now marks.now) line.now }
{
    match (place.header, target_of(line)) {
        (Some(header), Some(number)) => number <= header.number,
        _ => false,
    }
}

fn continues_in_deny<'a>(place: &Place<'a>, marks: &NameSet<'a>, line: &MapLine) -> bool
    ensures { result ≡ continues_in_deny (told place.now marks.now) line.now }
{
    match place.header {
        None => false,
        Some(header) => continues(line) && !header.permit,
    }
}

fn is_above(least: Option<u64>, number: u64) -> bool
    ensures { result ≡ is_above least number }
{
    match least {
        None => false,
        Some(least) => least < number,
    }
}

fn is_unsettled<'a>(
    known: &Known<'a>,
    place: &Place<'a>,
    marks: &NameSet<'a>,
    line: &MapLine,
) -> bool
    ensures { result ≡ is_unsettled (known_facts known.now) (told place.now marks.now) line.now }
{
    match (place.header, tested_by(line)) {
        (Some(header), Some(setting)) => is_above(least_of(known, setting), header.number),
        _ => false,
    }
}

fn is_exact_expanded<'a>(known: &Known<'a>, line: &'a MapLine) -> bool
    ensures { result ≡ is_exact_expanded (known_facts known.now) line.now }
{
    match line {
        MapLine::MatchCommunity(test) => {
            let sort = sort_code(ItemSort::CommunityList);
            test.exact && any_marked(&known.marked, sort, test.lists.as_slice(), 1)
        }
        _ => false,
    }
}

// ---- the causes

fn has_line_cause<'a>(
    known: &Known<'a>,
    place: &Place<'a>,
    marks: &NameSet<'a>,
    line: &'a MapLine,
    cause: Cause,
) -> bool
    ensures { result ≡ has_line_cause (known_facts known.now) (told place.now marks.now) line.now cause }
{
    match cause {
        Cause::Undefined => is_undefined(known, place, marks, line),
        Cause::SameKindTwice => repeats_kind(place, marks, line),
        Cause::BackwardContinue => continues_back(place, marks, line),
        Cause::DenyContinue => continues_in_deny(place, marks, line),
        Cause::UnsettledTest => is_unsettled(known, place, marks, line),
        Cause::ExactExpanded => is_exact_expanded(known, line),
        _ => false,
    }
}

fn has_form_cause<'a>(
    unknown: bool,
    place: &Place<'a>,
    marks: &NameSet<'a>,
    form: &'a IosForm,
    cause: Cause,
) -> bool
    ensures { result ≡ has_form_cause unknown (told place.now marks.now) form.now cause }
{
    match cause {
        Cause::UnknownForm => unknown,
        Cause::DefinedTwice => is_second_sort(place, marks, form),
        Cause::SequenceTwice => repeats_number(place, marks, form),
        _ => false,
    }
}

fn is_line_cause<'a>(
    known: &Known<'a>,
    place: &Place<'a>,
    marks: &NameSet<'a>,
    form: &'a IosForm,
    cause: Cause,
) -> bool
    ensures { result ≡ passes (λ line. has_line_cause (known_facts known.now) (told place.now marks.now) line cause) (line_in form.now) }
{
    match form {
        IosForm::Line(line) => has_line_cause(known, place, marks, line, cause),
        _ => false,
    }
}

impl<'w, 'a> Rules for At<'w, 'a> {
    ghost holds = { λ at cause. has_cause at.unknown (known_facts at.known.now) (told at.place at.marks.now) at.form.now cause };

    fn holds(&self, cause: Cause) -> bool {
        has_form_cause(self.unknown, &self.place, self.marks, self.form, cause)
            || is_line_cause(self.known, &self.place, self.marks, self.form, cause)
    }
}

// The first cause of an item that is reached.
#[tactic(auto, unfolding(policy_text::specs::Causes::first_cause))]
pub(crate) fn fault_of<'a, T: Takes>(
    known: &Known<'a>,
    place: &Place<'a>,
    marks: &NameSet<'a>,
    form: &'a IosForm,
) -> Option<Cause>
    ensures { result ≡ first_cause (is_fault T.takes (known_facts known.now) (told place.now marks.now) form.now) }
{
    if !is_reached(known, place, marks, form) {
        return None;
    }
    let at = At {
        known,
        place: *place,
        marks,
        form,
        unknown: is_unknown::<T>(form),
    };
    first_cause(&at)
}
