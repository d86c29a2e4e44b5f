// Runs of the program over texts in memory, and what they show.
use policy_outside::{MemoryShelf, MemorySink};
use policy_program::run;
use std::alloc::{AllocGlobal, Global};
use std::process::Abort;
use std::str;
use std::test::Fail;

/// Texts on the shelf, each under its name.
pub type Texts<'a> = &'a [(&'a str, &'a str)];

/// A run: its words with a blank between two, the texts on the shelf, and the number of the call of fetch, of
/// put to the output and of put to the errors that fails, of which 0 is none.
#[derive(Clone, Copy)]
pub struct Run<'a> {
    pub words: &'a str,
    pub texts: Texts<'a>,
    pub failing: [u64; 3],
}

/// What a run is to show: its status, what it puts to the output, and the line that it puts to the errors.
pub type Shown<'a> = (u8, &'a str, &'a str);

/// The words of `judge` by the policy IN.
pub const JUDGE: &str = "judge --from ios --policy IN in.cfg r.txt";

/// The words of `judge` by the policy M of an RPL text.
pub const JUDGE_RPL: &str = "judge --from rpl --policy M in.cfg r.txt";

/// The words of `translate` of the policy IN, which is M in RPL.
pub const TRANSLATE: &str = "translate --from ios --policy IN --to rpl --as M in.cfg";

/// A run over these texts in which no call fails.
pub fn unfailing<'a>(words: &'a str, texts: Texts<'a>) -> Run<'a> {
    Run {
        words,
        texts,
        failing: [0; 3],
    }
}

fn words_of(alloc: Global, words: &str) -> Result<Vec<String>, Fail> {
    let mut owned = Vec::new(alloc);
    if !words.is_empty() {
        for word in words.split(' ') {
            owned.push(String::from_str(alloc, word)?)?;
        }
    }
    Ok(owned)
}

fn shelf_of(alloc: Global, run: &Run<'_>) -> Result<MemoryShelf, Fail> {
    let mut shelf = MemoryShelf::new(alloc);
    for (name, text) in run.texts {
        shelf.add(name, text.as_bytes())?;
    }
    shelf.fail_at(run.failing[0])?;
    Ok(shelf)
}

fn sink_of(alloc: Global, failing: u64) -> Result<MemorySink, Fail> {
    let mut sink = MemorySink::new(alloc);
    sink.fail_at(failing)?;
    Ok(sink)
}

/// What a run shows, in one text: what stands on the output, what on the errors, and the status.
fn text_of(alloc: Global, out: &[u8], err: &[u8], status: u8) -> Result<String, Fail> {
    let out = str::from_utf8(out)?;
    let err = str::from_utf8(err)?;
    Ok(format!(in alloc; "{out}--\n{err}--\nstatus {status}\n")?)
}

/// What the run shows.
fn run_to_its_end(alloc: Global, asked: &Run<'_>) -> Result<String, Fail> {
    let words = words_of(alloc, asked.words)?;
    let mut shelf = shelf_of(alloc, asked)?;
    let mut out = sink_of(alloc, asked.failing[1])?;
    let mut err = sink_of(alloc, asked.failing[2])?;
    let status = run(alloc, words.as_slice(), &mut shelf, &mut out, &mut err);
    text_of(alloc, out.bytes(), err.bytes(), status.number())
}

/// What the run puts to the output.
pub fn output_of(alloc: Global, asked: &Run<'_>) -> Result<String, Fail> {
    let words = words_of(alloc, asked.words)?;
    let mut shelf = shelf_of(alloc, asked)?;
    let mut out = sink_of(alloc, asked.failing[1])?;
    let mut err = sink_of(alloc, asked.failing[2])?;
    let _ = run(alloc, words.as_slice(), &mut shelf, &mut out, &mut err);
    Ok(String::from_str(alloc, str::from_utf8(out.bytes())?)?)
}

/// A line with its end, and nothing for no line.
fn with_line_end(alloc: Global, line: &str) -> Result<String, Fail> {
    let mut text = String::from_str(alloc, line)?;
    if !line.is_empty() {
        text.push_str("\n")?;
    }
    Ok(text)
}

/// The run shows this.
pub fn shows(
    rt: &(impl Abort + AllocGlobal),
    asked: &Run<'_>,
    want: Shown<'_>,
) -> Result<(), Fail> {
    let found = run_to_its_end(rt.alloc(), asked)?;
    let (status, out, line) = want;
    let err = with_line_end(rt.alloc(), line)?;
    let want = text_of(rt.alloc(), out.as_bytes(), err.as_bytes(), status)?;
    let source = match asked.texts {
        [(_, text), ..] => text,
        [] => "",
    };
    let words = asked.words;
    assert_eq!(rt; found.as_str(), want.as_str(), "{words}\n{source}");
    Ok(())
}
