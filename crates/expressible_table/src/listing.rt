//! The constructs of a policy in text order.

ghost use Rattle.std.specs.Prelude.{◌≡◌, ◌∷◌, ◌++◌, true, false, List, Some, IfOk};
ghost use Rattle.text_words.specs.declared.statement.Span.{Span as SpecSpan};
ghost use Rattle.ios_tree.specs.Sorts.{is_line_sort, sort_of_form};
ghost use Rattle.ios_tree.specs.declared.item.IosItem.{IosItem as SpecItem};
ghost use Rattle.expressible_table.specs.Constructs.{put, put_line, put_entry, entries_in, map_constructs, named_constructs, constructs_of};
ghost use Rattle.expressible_table.specs.Noted.{TellLists, left_in, is_hop_line, has_hop_line};
ghost use Rattle.expressible_table.specs.declared.construct.Construct.{Construct as SpecConstruct};
ghost use Rattle.expressible_table.specs.declared.kind.Kind.TheVariants.{Flow};

use crate::construct::Construct;
use crate::kind::Kind;
use crate::lines::kind_of;
use crate::lists::{Lists, lists_of};
use crate::policy::Policy;
use ios_reader::{CheckedIos, IosForm, IosItem, ItemSort};
use policy_text::Span;
use route_types::Memory;
use std::alloc::Global;

// Puts a statement behind the others, if it is a construct.
fn push(found: &mut Vec<Construct>, kind: Option<Kind>, span: Span) -> Result<(), Memory>
    ensures { IfOk result (λ _. (rest : List SpecConstruct) → found.new.items ++ rest ≡ found.old.items ++ put kind span rest) }
{
    if let Some(kind) = kind {
        found.push(Construct { kind, span })?;
    }
    Ok(())
}

fn is_line(form: &IosForm) -> bool
    ensures { result ≡ is_line_sort (sort_of_form form.now) }
{
    match form {
        IosForm::Line(_) => true,
        IosForm::Other(other) => matches!(other.sort, ItemSort::Line),
        _ => false,
    }
}

// Puts a line of an entry behind the others, if it is a construct.
fn push_line<'a>(
    lists: &Lists<'a>,
    item: &'a IosItem,
    found: &mut Vec<Construct>,
) -> Result<(), Memory>
    requires tell { TellLists lists.now }
    requires asked { is_hop_line item.now.form ≡ true → has_hop_line lists.now.items.now ≡ true }
    ensures { IfOk result (λ _. (rest : List SpecConstruct) → found.new.items ++ rest ≡ found.old.items ++ put_line lists.now.items.now item.now.form item.now.span rest) }
{
    if let IosForm::Line(line) = &item.form {
        push(found, kind_of(lists, line), item.span)?;
    }
    Ok(())
}

// Whether the item heads an entry of the route-map of this name.
fn heads(name: &[u8], form: &IosForm) -> bool
    ensures { (span : SpecSpan) (lines rest : List SpecConstruct) → put_entry name.now form.now span lines rest ≡ elim result [ true ↦ put (Some Flow) span lines | false ↦ rest ] }
{
    match form {
        IosForm::MapHeader(header) => name == header.map.as_slice(),
        _ => false,
    }
}

// Puts the item behind the others, if it is a construct of the route-map. Says whether the entry that is open behind it
// is one of it.
fn push_item<'a>(
    lists: &Lists<'a>,
    name: &[u8],
    inside: bool,
    item: &'a IosItem,
    found: &mut Vec<Construct>,
) -> Result<bool, Memory>
    requires tell { TellLists lists.now }
    requires asked { is_hop_line item.now.form ≡ true → has_hop_line lists.now.items.now ≡ true }
    ensures { IfOk result (λ o. (is : List SpecItem) → found.new.items ++ left_in lists.now.items.now name.now o is ≡ found.old.items ++ left_in lists.now.items.now name.now inside (item.now ∷ is)) }
{
    if is_line(&item.form) {
        if inside {
            push_line(lists, item, found)?;
        }
        return Ok(inside);
    }
    if heads(name, &item.form) {
        push(found, Some(Kind::Flow), item.span)?;
        return Ok(true);
    }
    Ok(false)
}

// The constructs of the route-map of this name among the items of a tree.
fn found_in<'a>(
    alloc: Global,
    lists: &Lists<'a>,
    name: &[u8],
    items: &'a [IosItem],
) -> Result<Vec<Construct>, Memory>
    requires tell { TellLists lists.now }
    requires whole { lists.now.items.now ≡ items.now }
    ensures { IfOk result (λ found. found.items ≡ entries_in lists.now.items.now name.now items.now) }
{
    let mut found = Vec::new(alloc);
    let mut inside = false;
    let mut rest = items;
    while let [item, behind @ ..] = rest {
        inside = push_item(lists, name, inside, item, &mut found)?;
        rest = behind;
    }
    Ok(found)
}

fn map_constructs(alloc: Global, name: &[u8], items: &[IosItem]) -> Result<Vec<Construct>, Memory>
    ensures { IfOk result (λ found. found.items ≡ map_constructs name.now items.now) }
{
    let lists = lists_of(alloc, items)?;
    let found = found_in(alloc, &lists, name, items)?;
    Ok(found)
}

fn ios_constructs(alloc: Global, policy: &CheckedIos) -> Result<Vec<Construct>, Memory>
    ensures { IfOk result (λ found. found.items ≡ named_constructs policy.now.names policy.now.items) }
{
    match policy.names() {
        [] => Ok(Vec::new(alloc)),
        [name, ..] => {
            let found = map_constructs(alloc, name.as_slice(), policy.tree().items())?;
            Ok(found)
        }
    }
}

/// The constructs of a policy in text order: for a route-map its headers and the lines of its entries but for
/// descriptions, each with the span of its statement. The one error is want of memory. The time is near-linear in the
/// statements of the text.
#[tactic(auto, unfolding(crate::specs::Constructs::constructs_of))]
pub fn constructs(alloc: Global, policy: &Policy) -> Result<Vec<Construct>, Memory>
    ensures { IfOk result (λ found. found.items ≡ constructs_of policy.now) }
{
    match policy {
        Policy::Ios(policy) => {
            let found = ios_constructs(alloc, policy)?;
            Ok(found)
        }
    }
}
