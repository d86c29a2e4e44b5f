//! The least number of an entry that continues and sets something.
ghost use Rattle.std.specs.Prelude.{◌≡◌, ℕ, ◌||◌, List};
ghost use Rattle.std.specs.List.{list_any};
ghost use Rattle.ios_reader.specs.Entries.{Entry, lines_below, entry_from, entries_of, onto_lines};
ghost use Rattle.ios_reader.specs.Facts.{sets_below};
ghost use Rattle.ios_reader.specs.Known.{is_above};
ghost use Rattle.ios_reader.specs.Lines.{has_effect};
ghost use Rattle.ios_tree.specs.declared.item.IosForm.TheVariants.{MapHeader as HeaderForm};
ghost use Rattle.ios_tree.specs.declared.item.MapLine.{MapLine as SpecLine};

use crate::items::{is_line, same_name};
use crate::lines::{Effect, Setting, has_effect};
use ios_tree::{IosForm, IosItem, MapHeader};

fn form_has_effect(effect: Effect, form: &IosForm) -> bool
    ensures { (ls : List SpecLine) → list_any (has_effect effect) (onto_lines form.now ls) ≡ (result || list_any (has_effect effect) ls) }
{
    match form {
        IosForm::Line(line) => has_effect(effect, line),
        _ => false,
    }
}

// Whether a line right below a header has this effect.
fn any_below(effect: Effect, items: &[IosItem]) -> bool
    ensures { result ≡ list_any (has_effect effect) (lines_below items.now) }
{
    let mut rest = items;
    while let [first, tail @ ..] = rest {
        if !is_line(&first.form) {
            return false;
        }
        if form_has_effect(effect, &first.form) {
            return true;
        }
        rest = tail;
    }
    false
}

fn lesser(least: Option<u64>, number: u64) -> Option<u64>
    ensures { (n : ℕ) → is_above result n ≡ (is_above least n || is_above (Some number) n) }
{
    match least {
        None => Some(number),
        Some(least) => Some(least.min(number)),
    }
}

// The least number, the entry of this header told of, where it is one of the map.
fn with_header(
    policy: &[u8],
    setting: Setting,
    least: Option<u64>,
    header: &MapHeader,
    below: &[IosItem],
) -> Option<u64>
    ensures { (n : ℕ) (es : List Entry) → (is_above result n || list_any (sets_below setting n) es) ≡ (is_above least n || list_any (sets_below setting n) (entry_from policy.now (HeaderForm header.now) (lines_below below.now) es)) }
{
    if !same_name(policy, header.map.as_slice()) {
        return least;
    }
    if !any_below(Effect::Continues, below) {
        return least;
    }
    if !any_below(Effect::Sets(setting), below) {
        return least;
    }
    lesser(least, header.number)
}

fn with_item(
    policy: &[u8],
    setting: Setting,
    least: Option<u64>,
    form: &IosForm,
    below: &[IosItem],
) -> Option<u64>
    ensures { (n : ℕ) (es : List Entry) → (is_above result n || list_any (sets_below setting n) es) ≡ (is_above least n || list_any (sets_below setting n) (entry_from policy.now form.now (lines_below below.now) es)) }
{
    match form {
        IosForm::MapHeader(header) => with_header(policy, setting, least, header, below),
        _ => least,
    }
}

// The least number of an entry of the map that continues and sets this.
pub(crate) fn least_setting(policy: &[u8], items: &[IosItem], setting: Setting) -> Option<u64>
    ensures { (n : ℕ) → is_above result n ≡ list_any (sets_below setting n) (entries_of policy.now items.now) }
{
    let mut least = None;
    let mut rest = items;
    while let [first, tail @ ..] = rest {
        least = with_item(policy, setting, least, &first.form, tail);
        rest = tail;
    }
    least
}
