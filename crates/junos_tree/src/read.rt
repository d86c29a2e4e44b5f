ghost use Rattle.std.specs.Prelude.{◌≡◌, ◌++◌, ◌∷◌, ℕ, List, [], Some, length, drop, IfOk, IfErr, MatchOption};
ghost use Rattle.text_words.specs.JunosCut.{junos_cut, junos_fault, IsFault, HasOne};
ghost use Rattle.text_words.specs.declared.statement.Statement.{Statement};
ghost use Rattle.junos_tree.specs.Reading.{IsRead};
ghost use Rattle.junos_tree.specs.Spans.{SpansRise};
ghost use Rattle.junos_tree.specs.Tree.{here, said_at, said_by, places_behind, item_of, items_from, junos_tree};
ghost use Rattle.junos_tree.specs.declared.place.Said.{Said};

use crate::item::{JunosForm, JunosItem};
use crate::place::{Place, Said, inside};
use crate::statement::said_at;
use crate::tree::JunosTree;
use policy_text::{Ender, Span, Statement, TextFault, Word, junos_statements};
use route_types::{Memory, Row};
use std::alloc::Global;
use text_words::Stack;

// The place in the innermost open block.
fn here(places: &mut Stack<Place>) -> Result<Place, Memory>
    ensures { IfOk result (λ p. (p ≡ here places.old) × (places.new ≡ places.old)) }
{
    match places.pop() {
        None => Ok(Place::Outside),
        Some(place) => {
            places.push(place)?;
            Ok(place)
        }
    }
}

// Closes the innermost open block.
fn close(places: &mut Stack<Place>)
    ensures { places.new ≡ drop 1 places.old }
{
    let _ = places.pop();
}

// What a statement that closes no block says in the innermost open block.
fn said_here(
    alloc: Global,
    places: &mut Stack<Place>,
    ender: Ender,
    words: &[Word],
) -> Result<Said, Memory>
    ensures said { IfOk result (λ s. s ≡ said_at (here places.old) ender words.now) }
    ensures places { IfOk result (λ s. places.new ≡ places.old) }
{
    let place = here(places)?;
    let said = said_at(alloc, place, ender, words)?;
    Ok(said)
}

// What a statement says in the innermost open block.
fn said_by(
    alloc: Global,
    places: &mut Stack<Place>,
    ender: Ender,
    words: &[Word],
) -> Result<Said, Memory>
    ensures said { IfOk result (λ s. s ≡ said_by places.old ender words.now) }
    ensures places { IfOk result (λ s. places.new ≡ places.old) }
{
    match ender {
        Ender::Close => Ok(Said::Foreign),
        _ => {
            let said = said_here(alloc, places, ender, words)?;
            Ok(said)
        }
    }
}

// Opens or closes the block of a statement that says this.
fn follow(places: &mut Stack<Place>, ender: Ender, said: &Said) -> Result<(), Memory>
    ensures { IfOk result (λ _. places.new ≡ places_behind ender said.now places.old) }
{
    match ender {
        Ender::Open => {
            places.push(inside(said))?;
            Ok(())
        }
        Ender::Close => {
            close(places);
            Ok(())
        }
        _ => Ok(()),
    }
}

// Puts the item of a statement that says this behind the others, if it is one.
fn push_item(items: &mut Row<JunosItem>, said: Said, span: Span) -> Result<(), Memory>
    ensures { IfOk result (λ _. items.new ≡ items.old ++ item_of said span) }
{
    match said {
        Said::Says(form) => {
            items.push(JunosItem { form, span })?;
            Ok(())
        }
        _ => Ok(()),
    }
}

// Takes one statement.
#[tactic(auto, unfolding(crate::specs::Tree::items_from))]
fn take_statement(
    alloc: Global,
    items: &mut Row<JunosItem>,
    places: &mut Stack<Place>,
    statement: &Statement,
) -> Result<(), Memory>
    ensures { IfOk result (λ _. (more : List Statement) → items.new ++ items_from places.new more ≡ items.old ++ items_from places.old (statement.now ∷ more)) }
{
    let said = said_by(alloc, places, statement.ender, statement.words.as_slice())?;
    follow(places, statement.ender, &said)?;
    push_item(items, said, statement.span)?;
    Ok(())
}

// The items of statements.
#[tactic(auto, unfolding(crate::specs::Tree::items_from))]
fn items_of(alloc: Global, statements: &[Statement]) -> Result<Row<JunosItem>, Memory>
    ensures { IfOk result (λ r. r ≡ items_from [] statements.now) }
{
    let mut items = Row::new(alloc);
    let mut places = Stack::new(alloc);
    let mut rest = statements;
    while let [first, tail @ ..] = rest {
        take_statement(alloc, &mut items, &mut places, first)?;
        rest = tail;
    }
    Ok(items)
}

#[tactic(auto, unfolding(crate::specs::Tree::junos_tree))]
fn tree_of(alloc: Global, text: &[u8]) -> Result<JunosTree, TextFault>
    ensures tree { IfOk result (λ t. junos_tree text.now ≡ Some t) }
    ensures fault { IfErr result (IsFault (junos_fault text.now)) }
{
    let statements = junos_statements(alloc, text)?;
    let items = items_of(alloc, statements.as_slice())?;
    Ok(JunosTree { items })
}

/// Reads the policies of a Junos text and what they name (Junos OS Routing Policies, Firewall Filters, and
/// Traffic Policers User Guide): prefix lists, communities, AS paths and policy-statements, outside blocks
/// or directly in `policy-options`, each statement with its span in bytes from 0. A statement of no known
/// form that starts with one of the four keywords and a name, or that stands in the block of a prefix list
/// or a policy, is an item `Other`, and its block is passed over; every other statement is dropped, with its
/// block. The error is Broken, with the place and the kind, exactly where the text has a fault, and then it
/// is the first from the left; or it is want of memory. The time is near the text's length.
#[tactic(auto, using(crate::proofs::Reading::tree_is_read, crate::proofs::Reading::tree_rises, crate::proofs::Reading::one_of_both))]
pub fn read_junos(alloc: Global, text: &[u8]) -> Result<JunosTree, TextFault>
    // The tree is the one that the text reads as.
    ensures tree { IfOk result (λ t. junos_tree text.now ≡ Some t) }
    // Its statements read as the tree, one by one.
    ensures reads { IfOk result (λ t. IsRead text.now t) }
    // The spans rise, and lie within the text.
    ensures spans { IfOk result (λ t. SpansRise (length text.now) t) }
    // The fault is the text's first.
    ensures fault { IfErr result (IsFault (junos_fault text.now)) }
    // A text has a tree or a fault, and never both.
    ensures one { HasOne (junos_tree text.now) (junos_fault text.now) }
{
    tree_of(alloc, text)
}
