// The lines of forms.
ghost use Rattle.std.specs.Prelude.{◌≡◌, ◌-◌, ◌*◌, ◌^◌, ◌<◌, ◌++◌, ◌∷◌, [], Some, None, IfOk, codes, option_map};
ghost use Rattle.text_words.specs.Pieces.{spaces};
ghost use Rattle.text_words.specs.RplCut.{opening, rpl_cut};
ghost use Rattle.text_words.specs.RplText.{line_bytes, rpl_text};
ghost use Rattle.rpl_tree.specs.Tree.{forms as forms_in, rpl_tree};
ghost use Rattle.rpl_text.specs.Blocks.{ReadsAs, block_names, names_of};
ghost use Rattle.rpl_text.specs.Layout.{kind_of, closing, goes_on, level_at, level_behind, lines_of, text_of};
ghost use Rattle.rpl_text.specs.Texts.{comma_text, form_text, block_after, level_after};
ghost use Rattle.rpl_text.specs.Words.{phrase_text, element_phrase, statement_phrase, header_phrase};
ghost use Rattle.rpl_text.specs.Written.{MayBeWritten};

use crate::bytes::{push, push_margin};
use crate::elements::push_element;
use crate::statements::{push_header, push_statement};
use rpl_forms::{BlockKind, Element, Header, PolicyStatement, RplForm};
use std::alloc::Global;
use text_words::{Memory, Row};

fn kind_of(header: &Header) -> BlockKind
    ensures { result ≡ kind_of header.now }
{
    match header {
        Header::PrefixSet(_) => BlockKind::PrefixSet,
        Header::CommunitySet(_) => BlockKind::CommunitySet,
        Header::PathSet(_) => BlockKind::PathSet,
        Header::Policy(_) => BlockKind::Policy,
    }
}

fn opening(kind: BlockKind) -> &'static [u8]
    ensures { result.now ≡ opening kind }
{
    match kind {
        BlockKind::PrefixSet => b"prefix-set",
        BlockKind::CommunitySet => b"community-set",
        BlockKind::PathSet => b"as-path-set",
        BlockKind::Policy => b"route-policy",
    }
}

#[tactic(auto, unfolding(text_words::specs::Pieces::pieces_text))]
fn end_of(kind: BlockKind) -> &'static [u8]
    ensures { result.now ≡ line_bytes (closing (Some kind)) }
{
    match kind {
        BlockKind::PrefixSet => b"end-set",
        BlockKind::CommunitySet => b"end-set",
        BlockKind::PathSet => b"end-set",
        BlockKind::Policy => b"end-policy",
    }
}

#[tactic(auto, unfolding(text_words::specs::Pieces::pieces_text))]
fn closing(block: Option<BlockKind>) -> &'static [u8]
    ensures { result.now ≡ line_bytes (closing block) }
{
    match block {
        None => b"end-set",
        Some(kind) => end_of(kind),
    }
}

fn level_at(level: usize, statement: &PolicyStatement) -> usize
    ensures { result ≡ level_at level statement.now }
{
    match statement {
        PolicyStatement::ElseIf(_) | PolicyStatement::Else | PolicyStatement::EndIf => {
            level.saturating_sub(1)
        }
        _ => level,
    }
}

fn level_behind(level: usize, statement: &PolicyStatement) -> usize
    requires { level < 2 ^ 64 - 1 }
    ensures { result ≡ level_behind level statement.now }
{
    match statement {
        PolicyStatement::If(_) => level + 1,
        PolicyStatement::EndIf => level.saturating_sub(1),
        _ => level,
    }
}

fn block_after(block: Option<BlockKind>, form: &RplForm) -> Option<BlockKind>
    ensures { result ≡ block_after block form.now }
{
    match form {
        RplForm::Header(header) => Some(kind_of(header)),
        RplForm::End => None,
        _ => block,
    }
}

fn level_after(level: usize, form: &RplForm) -> usize
    requires { level < 2 ^ 64 - 1 }
    ensures { result ≡ level_after level form.now }
{
    match form {
        RplForm::Header(_) | RplForm::End => 1,
        RplForm::Statement(statement) => level_behind(level, statement),
        _ => level,
    }
}

fn goes_on(forms: &[RplForm]) -> bool
    ensures { result ≡ goes_on forms.now }
{
    match forms {
        [RplForm::Element(_), ..] => true,
        _ => false,
    }
}

fn push_comma(out: &mut Vec<u8>, more: bool) -> Result<(), Memory>
    ensures { IfOk result (λ _. out.new.items ≡ out.old.items ++ comma_text more) }
{
    if more {
        return push(out, b",");
    }
    Ok(())
}

fn push_first_line(alloc: Global, out: &mut Vec<u8>, header: &Header) -> Result<(), Memory>
    ensures { IfOk result (λ _. out.new.items ≡ out.old.items ++ (opening (kind_of header.now) ++ 32 ∷ (phrase_text (header_phrase header.now) ++ 10 ∷ []))) }
{
    push(out, opening(kind_of(header)))?;
    push(out, b" ")?;
    push_header(alloc, out, header)?;
    push(out, b"\n")
}

fn push_element_line(
    alloc: Global,
    out: &mut Vec<u8>,
    more: bool,
    element: &Element,
) -> Result<(), Memory>
    ensures { IfOk result (λ _. out.new.items ≡ out.old.items ++ (codes "  " ++ (phrase_text (element_phrase element.now) ++ (comma_text more ++ 10 ∷ [])))) }
{
    push(out, b"  ")?;
    push_element(alloc, out, element)?;
    push_comma(out, more)?;
    push(out, b"\n")
}

fn push_statement_line(
    alloc: Global,
    out: &mut Vec<u8>,
    level: usize,
    statement: &PolicyStatement,
) -> Result<(), Memory>
    ensures { IfOk result (λ _. out.new.items ≡ out.old.items ++ (spaces (2 * level_at level statement.now) ++ (phrase_text (statement_phrase statement.now) ++ 10 ∷ []))) }
{
    push_margin(out, level_at(level, statement))?;
    push_statement(alloc, out, statement)?;
    push(out, b"\n")
}

// The line of a form.
fn push_form(
    alloc: Global,
    out: &mut Vec<u8>,
    block: Option<BlockKind>,
    level: usize,
    more: bool,
    form: &RplForm,
) -> Result<(), Memory>
    ensures { IfOk result (λ _. out.new.items ≡ out.old.items ++ form_text block level more form.now) }
{
    match form {
        RplForm::Header(header) => push_first_line(alloc, out, header),
        RplForm::Element(element) => push_element_line(alloc, out, more, element),
        RplForm::Statement(statement) => push_statement_line(alloc, out, level, statement),
        RplForm::End => {
            push(out, closing(block))?;
            push(out, b"\n!\n")
        }
        RplForm::Other(_) => Ok(()),
    }
}

// The line of a form before others.
fn push_first_form(
    alloc: Global,
    out: &mut Vec<u8>,
    block: Option<BlockKind>,
    level: usize,
    form: &RplForm,
    others: &[RplForm],
) -> Result<(), Memory>
    ensures { IfOk result (λ _. out.new.items ++ rpl_text (lines_of (block_after block form.now) (level_after level form.now) others.now) ≡ out.old.items ++ rpl_text (lines_of block level (form.now ∷ others.now))) }
{
    push_form(alloc, out, block, level, goes_on(others), form)
}

#[tactic(auto, unfolding(crate::specs::Layout::text_of))]
fn push_forms(alloc: Global, out: &mut Vec<u8>, forms: &[RplForm]) -> Result<(), Memory>
    ensures { IfOk result (λ _. out.new.items ≡ out.old.items ++ text_of forms.now) }
{
    let mut block = None;
    let mut level: usize = 1;
    let mut rest = forms;
    while let [form, tail @ ..] = rest {
        push_first_form(alloc, out, block, level, form, tail)?;
        block = block_after(block, form);
        level = level_after(level, form);
        rest = tail;
    }
    Ok(())
}

fn text(alloc: Global, forms: &[RplForm]) -> Result<Row<u8>, Memory>
    ensures { IfOk result (λ t. t ≡ text_of forms.now) }
{
    let mut out = Vec::new(alloc);
    push_forms(alloc, &mut out, forms)?;
    Ok(Row::from_vec(out))
}

/// The text of forms (Cisco IOS XR Routing Configuration Guide, 'Implementing Routing Policy'), a line a
/// form, which reads back as these forms. A set has an element a line behind two spaces, and a comma behind
/// each but the last; a statement of a policy stands behind two spaces a level; `!` follows the end of each
/// block. The forms are whole blocks, their values lie in their ranges, and their names may stand where
/// they do. It takes time in step with the length of the text, and with how deep conditions are nested. Its
/// one error is want of memory.
#[tactic(auto, using(crate::proofs::Reading::reads_written, crate::proofs::Reading::tree_written, crate::proofs::Reading::blocks_written))]
pub fn write_rpl(alloc: Global, forms: &[RplForm]) -> Result<Row<u8>, Memory>
    requires { MayBeWritten forms.now }
    // The text is that of the lines.
    ensures text { IfOk result (λ t. t ≡ text_of forms.now) }
    // Its statements read as a tree, which says these forms.
    ensures reads { IfOk result (λ t. ReadsAs t forms.now) }
    // The tree that is found says these forms.
    ensures tree { IfOk result (λ t. option_map forms_in (rpl_tree t) ≡ Some forms.now) }
    // Each statement outside blocks opens one, and the blocks have the names of the forms.
    ensures blocks { IfOk result (λ t. block_names None (rpl_cut t) ≡ Some (names_of forms.now)) }
{
    text(alloc, forms)
}
