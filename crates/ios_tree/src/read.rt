ghost use Rattle.std.specs.Prelude.{◌≡◌, ◌++◌, ℕ, List, [], ◌∷◌, length, false, IfOk, OnOk};
ghost use Rattle.policy_text.specs.Phrases.{texts};
ghost use Rattle.text_words.specs.declared.statement.Statement.{Statement};
ghost use Rattle.ios_tree.specs.Numbering.{greatest_of, numbered_by, Tells};
ghost use Rattle.text_words.specs.IosCut.{ios_cut};
ghost use Rattle.ios_tree.specs.Reading.{Reads};
ghost use Rattle.ios_tree.specs.Spans.{SpansRise};
ghost use Rattle.ios_tree.specs.Tree.{form_of, greatest_with, opens, belongs, items_of, numbered_from, ios_tree};
ghost use Rattle.ios_tree.specs.declared.item.IosItem.{IosItem};
ghost use Rattle.route_types.specs.declared.address.Family.{Family};

use crate::item::{IosForm, IosItem, ItemSort};
use crate::items::{form_of, sort_of};
use crate::number::{Greatest, numbered};
use crate::tree::IosTree;
use policy_text::{Statement, Word, ios_statements};
use route_types::{Memory, Row};
use std::alloc::Global;

// Whether an entry is open behind an item of this sort.
fn opens(sort: ItemSort) -> bool
    ensures { result ≡ opens sort }
{
    matches!(sort, ItemSort::Map | ItemSort::Line)
}

// A line belongs to the open entry; where none is open it is foreign.
fn belongs(entry_open: bool, sort: ItemSort) -> bool
    ensures { result ≡ belongs entry_open sort }
{
    match sort {
        ItemSort::Line => entry_open,
        _ => true,
    }
}

// The form of a statement, with its number.
fn numbered_form<'a>(
    alloc: Global,
    greatest: &mut Greatest<'a>,
    sort: ItemSort,
    words: &'a [Word],
) -> Result<IosForm, Memory>
    ensures value { IfOk result (λ f. f ≡ numbered_by (greatest_of greatest.old) (form_of sort (texts words.now))) }
    ensures raised { IfOk result (λ f. (family : Family) (list : List ℕ) → greatest_of greatest.new family list ≡ greatest_with family list f (greatest_of greatest.old family list)) }
{
    let form = form_of(alloc, sort, words)?;
    numbered(greatest, form, words)
}

// Puts the item of a statement behind the items.
fn push_item<'a>(
    alloc: Global,
    items: &mut Row<IosItem>,
    greatest: &mut Greatest<'a>,
    sort: ItemSort,
    statement: &'a Statement,
) -> Result<(), Memory>
    requires { Tells greatest.old items.old }
    ensures items { OnOk result ((more : List IosItem) → items.new ++ numbered_from items.new more ≡ items.old ++ numbered_from items.old (record { form = form_of sort (texts statement.now.words); span = statement.now.span } ∷ more)) }
    ensures greatest { OnOk result (Tells greatest.new items.new) }
{
    let form = numbered_form(alloc, greatest, sort, statement.words.as_slice())?;
    let span = statement.span;
    items.push(IosItem { form, span })?;
    Ok(())
}

// Puts the item of a statement behind the items, if it is one. Says whether an entry is open behind it.
#[tactic(auto, unfolding(crate::specs::Tree::items_of))]
fn push_statement<'a>(
    alloc: Global,
    items: &mut Row<IosItem>,
    greatest: &mut Greatest<'a>,
    entry_open: bool,
    statement: &'a Statement,
) -> Result<bool, Memory>
    requires { Tells greatest.old items.old }
    ensures items { IfOk result (λ o. (more : List Statement) → items.new ++ numbered_from items.new (items_of o more) ≡ items.old ++ numbered_from items.old (items_of entry_open (statement.now ∷ more))) }
    ensures greatest { OnOk result (Tells greatest.new items.new) }
{
    let Some(sort) = sort_of(statement.depth, statement.words.as_slice()) else {
        return Ok(false);
    };
    if !belongs(entry_open, sort) {
        return Ok(false);
    }
    push_item(alloc, items, greatest, sort, statement)?;
    Ok(opens(sort))
}

// The items of statements, with their numbers.
#[tactic(auto, unfolding(crate::specs::Tree::items_of, crate::specs::Tree::numbered_from))]
fn items_of(alloc: Global, statements: &[Statement]) -> Result<Row<IosItem>, Memory>
    ensures { IfOk result (λ r. r ≡ numbered_from [] (items_of false statements.now)) }
{
    let mut items = Row::new(alloc);
    let mut greatest = Greatest::new(alloc);
    let mut entry_open = false;
    let mut rest = statements;
    while let [first, tail @ ..] = rest {
        entry_open = push_statement(alloc, &mut items, &mut greatest, entry_open, first)?;
        rest = tail;
    }
    Ok(items)
}

#[tactic(auto, unfolding(crate::specs::Tree::ios_tree))]
fn tree_of(alloc: Global, text: &[u8]) -> Result<IosTree, Memory>
    ensures { IfOk result (λ t. t ≡ ios_tree text.now) }
{
    let statements = ios_statements(alloc, text)?;
    let items = items_of(alloc, statements.as_slice())?;
    Ok(IosTree { items })
}

/// Reads the policy statements of an IOS text (Cisco IOS IP Routing command references): the entries
/// of prefix lists and community lists, map headers and the lines below them, each with its span in
/// bytes from 0. A policy statement of no known form is an item `Other`; a statement that belongs to no
/// policy is dropped. A prefix list entry without `seq` gets 5 more than the greatest number that its
/// list has so far. Every text has a tree; the error is want of memory.
#[tactic(auto, using(crate::proofs::Reading::Readings::read_reads, crate::proofs::Reading::Rise::read_rises))]
pub fn read_ios(alloc: Global, text: &[u8]) -> Result<IosTree, Memory>
    // The tree is the one that the text reads as.
    ensures tree { IfOk result (λ t. t ≡ ios_tree text.now) }
    // Its statements read as the tree, one by one.
    ensures reads { IfOk result (λ t. Reads (ios_cut text.now) t) }
    // The spans rise, and lie within the text.
    ensures spans { IfOk result (λ t. SpansRise (length text.now) t) }
{
    tree_of(alloc, text)
}
