// What RPL texts read as, in lines: each item with its place by line and column, what it says, the name that it
// stands under and the places of its tests; or the fault of the text.
use rpl_tree::{Header, IfWord, OtherItem, PolicyStatement, RplForm, RplItem, RplTree, read_rpl};
use std::alloc::{AllocGlobal, Global};
use std::process::Abort;
use std::str;
use std::test::Fail;
use text_words::{BlockKind, BrokenKind, Span, TextFault};

/// The line and the column of a byte, counted from 1.
pub(crate) fn place_of(text: &[u8], at: u64) -> (u64, u64) {
    let mut line: u64 = 1;
    let mut column: u64 = 1;
    let mut count: u64 = 0;
    for byte in text {
        if count == at {
            return (line, column);
        }
        column = column.saturating_add(1);
        if *byte == b'\n' {
            line = line.saturating_add(1);
            column = 1;
        }
        count = count.saturating_add(1);
    }
    (line, column)
}

fn span_shown(alloc: Global, text: &[u8], span: Span) -> Result<String, Fail> {
    let (line, column) = place_of(text, span.start);
    let (last_line, last_column) = place_of(text, span.end);
    Ok(format!(in alloc; "{line}:{column}-{last_line}:{last_column}")?)
}

fn block_word(kind: BlockKind) -> &'static str {
    match kind {
        BlockKind::PrefixSet => "prefix-set",
        BlockKind::CommunitySet => "community-set",
        BlockKind::PathSet => "as-path-set",
        BlockKind::Policy => "route-policy",
    }
}

fn if_word(word: IfWord) -> &'static str {
    match word {
        IfWord::If => "other if",
        IfWord::ElseIf => "other elseif",
        IfWord::Else => "other else",
        IfWord::EndIf => "other endif",
    }
}

fn header_word(header: &Header) -> &'static str {
    match header {
        Header::PrefixSet(_) => "prefix-set",
        Header::CommunitySet(_) => "community-set",
        Header::PathSet(_) => "as-path-set",
        Header::Policy(_) => "route-policy",
    }
}

fn statement_word(statement: &PolicyStatement) -> &'static str {
    match statement {
        PolicyStatement::If(_) => "if",
        PolicyStatement::ElseIf(_) => "elseif",
        PolicyStatement::Else => "else",
        PolicyStatement::EndIf => "endif",
        PolicyStatement::Pass => "pass",
        PolicyStatement::Done => "done",
        PolicyStatement::Drop => "drop",
        PolicyStatement::Act(_) => "action",
        PolicyStatement::Apply(_) => "apply",
    }
}

fn other_word(other: &OtherItem) -> &'static str {
    match (other.opens, other.keyword) {
        (Some(kind), _) => block_word(kind),
        (None, Some(word)) => if_word(word),
        (None, None) => "other",
    }
}

fn form_word(form: &RplForm) -> &'static str {
    match form {
        RplForm::Header(header) => header_word(header),
        RplForm::Element(_) => "element",
        RplForm::Statement(statement) => statement_word(statement),
        RplForm::End => "end",
        RplForm::Other(other) => other_word(other),
    }
}

fn name_in(header: &Header) -> &[u8] {
    match header {
        Header::PrefixSet(name) | Header::CommunitySet(name) | Header::PathSet(name) => {
            name.as_slice()
        }
        Header::Policy(policy) => policy.name.as_slice(),
    }
}

/// The name of a header; that of one of no form in parentheses.
fn name_shown(alloc: Global, form: &RplForm) -> Result<String, Fail> {
    match form {
        RplForm::Header(header) => {
            let name = str::from_utf8(name_in(header))?;
            Ok(format!(in alloc; " {name}")?)
        }
        RplForm::Other(
            OtherItem {
                name: Some(name),
                ..
            },
        ) => {
            let name = str::from_utf8(name.as_slice())?;
            Ok(format!(in alloc; " ({name})")?)
        }
        _ => Ok(String::new(alloc)),
    }
}

fn push_item(alloc: Global, out: &mut String, text: &[u8], item: &RplItem) -> Result<(), Fail> {
    let place = span_shown(alloc, text, item.span)?;
    let name = name_shown(alloc, &item.form)?;
    let word = form_word(&item.form);
    let (place, name) = (place.as_str(), name.as_str());
    let shown = format!(in alloc; "{place} {word}{name}")?;
    out.push_str(shown.as_str())?;
    for test in item.tests.as_slice() {
        let place = span_shown(alloc, text, *test)?;
        out.push_str(" ")?;
        out.push_str(place.as_str())?;
    }
    out.push_str("\n")?;
    Ok(())
}

fn tree_shown(alloc: Global, text: &[u8], tree: &RplTree) -> Result<String, Fail> {
    let mut out = String::new(alloc);
    for item in tree.items() {
        push_item(alloc, &mut out, text, item)?;
    }
    Ok(out)
}

fn kind_word(kind: BrokenKind) -> &'static str {
    match kind {
        BrokenKind::Misplaced => "misplaced",
        BrokenKind::Unended => "unended",
        _ => "broken",
    }
}

fn fault_shown(alloc: Global, text: &[u8], fault: TextFault) -> Result<String, Fail> {
    match fault {
        TextFault::Broken { span, kind } => {
            let place = span_shown(alloc, text, span)?;
            let (word, place) = (kind_word(kind), place.as_str());
            Ok(format!(in alloc; "{word} {place}")?)
        }
        TextFault::Memory => Ok(String::from_str(alloc, "want of memory")?),
    }
}

/// The text reads as these items, or has this fault.
pub(crate) fn reads(rt: &(impl Abort + AllocGlobal), text: &str, want: &str) -> Result<(), Fail> {
    let alloc = rt.alloc();
    let found = match read_rpl(alloc, text.as_bytes()) {
        Ok(tree) => tree_shown(alloc, text.as_bytes(), &tree)?,
        Err(fault) => fault_shown(alloc, text.as_bytes(), fault)?,
    };
    assert_eq!(rt; found.as_str(), want, "{text}");
    Ok(())
}

/// The text has this fault, or none where it is the empty one.
pub(crate) fn breaks(rt: &(impl Abort + AllocGlobal), text: &str, want: &str) -> Result<(), Fail> {
    let alloc = rt.alloc();
    let found = match read_rpl(alloc, text.as_bytes()) {
        Ok(_) => String::new(alloc),
        Err(fault) => fault_shown(alloc, text.as_bytes(), fault)?,
    };
    assert_eq!(rt; found.as_str(), want, "{text}");
    Ok(())
}
