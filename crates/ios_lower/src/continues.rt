//! Whether a policy has a `continue` line.

ghost use Rattle.std.specs.Prelude.{◌≡◌, ◌||◌, List};
ghost use Rattle.std.specs.List.{list_any};
ghost use Rattle.ios_tree.specs.declared.item.MapLine.{MapLine as Line};
ghost use Rattle.ios_reader.specs.Entries.{Entry, onto_lines, lines_below, entry_from};
ghost use Rattle.ios_reader.specs.Lines.{continues};
ghost use Rattle.ios_meaning.specs.Meaning.{name_of};
ghost use Rattle.ios_lower.specs.Continues.{goes_on, has_continue};

use ios_meaning::is_line;
use ios_reader::{CheckedIos, IosForm, IosItem, MapLine};

fn is_continue(form: &IosForm) -> bool
    ensures { (rest : List Line) → list_any continues (onto_lines form.now rest) ≡ (result || list_any continues rest) }
{
    matches!(form, IosForm::Line(MapLine::Continue(_)))
}

// Whether some line right below a header continues.
fn some_continue(below: &[IosItem]) -> bool
    ensures { result ≡ list_any continues (lines_below below.now) }
{
    let mut rest = below;
    while let [item, behind @ ..] = rest {
        if !is_line(&item.form) {
            return false;
        }
        if is_continue(&item.form) {
            return true;
        }
        rest = behind;
    }
    false
}

// Whether the item heads an entry of the route-map of this name that continues.
fn entry_continues(name: &[u8], form: &IosForm, below: &[IosItem]) -> bool
    ensures { (rest : List Entry) → list_any goes_on (entry_from name.now form.now (lines_below below.now) rest) ≡ (result || list_any goes_on rest) }
{
    let IosForm::MapHeader(header) = form else {
        return false;
    };
    name == header.map.as_slice() && some_continue(below)
}

fn some_entry_continues(name: &[u8], items: &[IosItem]) -> bool
    ensures { result ≡ has_continue items.now name.now }
{
    let mut rest = items;
    while let [item, below @ ..] = rest {
        if entry_continues(name, &item.form, below) {
            return true;
        }
        rest = below;
    }
    false
}

/// Whether some entry of the policy's route-map has a `continue` line. It takes no memory.
pub fn has_continue(policy: &CheckedIos) -> bool
    ensures { result ≡ has_continue policy.now.items (name_of policy.now) }
{
    let [name] = policy.names() else {
        return false;
    };
    some_entry_continues(name.as_slice(), policy.tree().items())
}
