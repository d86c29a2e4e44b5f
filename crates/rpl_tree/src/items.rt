// The items of statements.
ghost use Rattle.std.specs.Prelude.{◌≡◌, ◌++◌, [], ◌∷◌, IfOk, List, Some, None, option_map, map};
ghost use Rattle.text_words.specs.declared.statement.Statement.{Statement};
ghost use Rattle.rpl_forms.specs.declared.item.RplForm.TheVariants.{End};
ghost use Rattle.rpl_tree.specs.Tree.{second_word, other_header, other_statement, header_item, statement_item, end_item, items_of};

use crate::standing::{ends_block, keyword, opens};
use policy_text::copied;
use rpl_forms::{OtherItem, RplForm, RplItem, form_in, header_in, tests_in};
use std::alloc::Global;
use text_words::{BlockKind, Memory, Row, Statement, Word};

fn second_word(words: &[Word]) -> Option<&[u8]>
    ensures { option_map (λ w. w.now) result ≡ second_word words.now }
{
    let word = words.get(1)?;
    Some(word.text.as_slice())
}

// The name under which a header of no form stands.
fn name_of(alloc: Global, words: &[Word]) -> Result<Option<Row<u8>>, Memory>
    ensures { IfOk result (λ o. o ≡ second_word words.now) }
{
    match second_word(words) {
        None => Ok(None),
        Some(name) => Ok(Some(copied(alloc, name)?)),
    }
}

#[tactic(auto, unfolding(crate::specs::Tree::header_item))]
fn header_item(alloc: Global, kind: BlockKind, statement: &Statement) -> Result<RplItem, Memory>
    ensures { IfOk result (λ i. i ≡ header_item kind statement.now) }
{
    let words = statement.words.as_slice();
    let span = statement.span;
    let tests = Row::new(alloc);
    if let Some(header) = header_in(alloc, kind, words)? {
        let form = RplForm::Header(header);
        return Ok(RplItem { form, span, tests });
    }
    let name = name_of(alloc, words)?;
    let form = RplForm::Other(OtherItem {
        opens: Some(kind),
        name,
        keyword: None,
    });
    Ok(RplItem { form, span, tests })
}

#[tactic(auto, unfolding(crate::specs::Tree::statement_item))]
fn statement_item(alloc: Global, kind: BlockKind, statement: &Statement) -> Result<RplItem, Memory>
    ensures { IfOk result (λ i. i ≡ statement_item kind statement.now) }
{
    let words = statement.words.as_slice();
    let span = statement.span;
    let tests = tests_in(alloc, words)?;
    if let Some(form) = form_in(alloc, kind, words)? {
        return Ok(RplItem { form, span, tests });
    }
    let form = RplForm::Other(OtherItem {
        opens: None,
        name: None,
        keyword: keyword(kind, words),
    });
    Ok(RplItem { form, span, tests })
}

fn end_item(alloc: Global, statement: &Statement) -> RplItem
    ensures { result ≡ end_item statement.now }
{
    RplItem {
        form: RplForm::End,
        span: statement.span,
        tests: Row::new(alloc),
    }
}

// Puts the item of a statement outside blocks behind the items, if it opens one. Says which it opens.
#[tactic(auto, unfolding(crate::specs::Tree::items_of))]
fn push_line(
    alloc: Global,
    items: &mut Row<RplItem>,
    statement: &Statement,
) -> Result<Option<BlockKind>, Memory>
    ensures { IfOk result (λ block. (more : List Statement) → items.new ++ items_of block more ≡ items.old ++ items_of None (statement.now ∷ more)) }
{
    let Some(kind) = opens(statement.words.as_slice()) else {
        return Ok(None);
    };
    items.push(header_item(alloc, kind, statement)?)?;
    Ok(Some(kind))
}

// Puts the item of a statement of a block behind the items. Says which block is open behind it.
#[tactic(auto, unfolding(crate::specs::Tree::items_of))]
fn push_within(
    alloc: Global,
    items: &mut Row<RplItem>,
    kind: BlockKind,
    statement: &Statement,
) -> Result<Option<BlockKind>, Memory>
    ensures { IfOk result (λ block. (more : List Statement) → items.new ++ items_of block more ≡ items.old ++ items_of (Some kind) (statement.now ∷ more)) }
{
    if ends_block(kind, statement.words.as_slice()) {
        items.push(end_item(alloc, statement))?;
        return Ok(None);
    }
    items.push(statement_item(alloc, kind, statement)?)?;
    Ok(Some(kind))
}

fn push_statement(
    alloc: Global,
    items: &mut Row<RplItem>,
    block: Option<BlockKind>,
    statement: &Statement,
) -> Result<Option<BlockKind>, Memory>
    ensures { IfOk result (λ after. (more : List Statement) → items.new ++ items_of after more ≡ items.old ++ items_of block (statement.now ∷ more)) }
{
    match block {
        None => push_line(alloc, items, statement),
        Some(kind) => push_within(alloc, items, kind, statement),
    }
}

/// The items of the statements of a text.
#[tactic(auto, unfolding(crate::specs::Tree::items_of))]
pub(crate) fn items_of(alloc: Global, statements: &[Statement]) -> Result<Row<RplItem>, Memory>
    ensures { IfOk result (λ r. r ≡ items_of None statements.now) }
{
    let mut items = Row::new(alloc);
    let mut block = None;
    let mut rest = statements;
    while let [first, tail @ ..] = rest {
        block = push_statement(alloc, &mut items, block, first)?;
        rest = tail;
    }
    Ok(items)
}
