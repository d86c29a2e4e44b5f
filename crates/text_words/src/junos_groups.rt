ghost use Rattle.std.specs.Prelude.{◌≡◌, ◌+◌, ◌<◌, ◌^◌, [], ◌∷◌, ◌++◌, length, IfOk};
ghost use Rattle.text_words.specs.JunosWords.{IsWord, Ender as EnderToken};
ghost use Rattle.text_words.specs.JunosCut.{Gives, span_of_words, statement_of};
ghost use Rattle.text_words.specs.JunosWalk.{outcome_behind, Took, Takes};

use crate::fault::{BrokenKind, TextFault};
use crate::junos_bytes::Mark;
use crate::line_cut::end_of_words;
use crate::memory::Memory;
use crate::row::Row;
use crate::stack::Stack;
use crate::statement::{Ender, Span, Statement, Word};
use std::alloc::Global;

/// The statements so far, the words of the next one, and the spans of the statements whose blocks are
/// open, the innermost on top.
#[derive(Debug, Drop)]
pub(crate) struct Groups {
    pub statements: Row<Statement>,
    pub words: Row<Word>,
    pub opened: Stack<Span>,
}

impl Groups {
    pub(crate) fn new(alloc: Global) -> Groups
        ensures { result ≡ record { statements = []; words = []; opened = [] } }
    {
        Groups {
            statements: Row::new(alloc),
            words: Row::new(alloc),
            opened: Stack::new(alloc),
        }
    }

    /// Takes a word.
    #[tactic(auto, unfolding(crate::specs::JunosCut::grouped))]
    pub(crate) fn take_word(&mut self, word: Word) -> Result<(), Memory>
        ensures { IfOk result (λ _. Took self.old self.new (IsWord word ∷ [])) }
    {
        self.words.push(word)?;
        Ok(())
    }

    /// Takes what ends a statement at a place.
    pub(crate) fn take_mark(
        &mut self,
        alloc: Global,
        mark: Mark,
        place: u64,
    ) -> Result<(), TextFault>
        requires { place + 1 < 2 ^ 64 }
        ensures { Takes self.old self.new (EnderToken mark place ∷ []) result }
    {
        match mark {
            Mark::Semi => self.end_statement(alloc, place),
            Mark::Open => self.open_block(alloc, place),
            Mark::Close => self.close_block(alloc, place),
        }
    }

    #[tactic(auto, unfolding(crate::specs::JunosCut::grouped))]
    fn end_statement(&mut self, alloc: Global, place: u64) -> Result<(), TextFault>
        requires { place + 1 < 2 ^ 64 }
        ensures { Takes self.old self.new (EnderToken Mark.Semi place ∷ []) result }
    {
        let _ = self.push_statement(alloc, Ender::Semi, place)?;
        Ok(())
    }

    #[tactic(auto, unfolding(crate::specs::JunosCut::grouped))]
    fn open_block(&mut self, alloc: Global, place: u64) -> Result<(), TextFault>
        requires { place + 1 < 2 ^ 64 }
        ensures { Takes self.old self.new (EnderToken Mark.Open place ∷ []) result }
    {
        let span = self.push_statement(alloc, Ender::Open, place)?;
        self.opened.push(span)?;
        Ok(())
    }

    #[tactic(auto, unfolding(crate::specs::JunosCut::grouped))]
    fn close_block(&mut self, alloc: Global, place: u64) -> Result<(), TextFault>
        requires { place + 1 < 2 ^ 64 }
        ensures { Takes self.old self.new (EnderToken Mark.Close place ∷ []) result }
    {
        let span = span_of_words(self.words.as_slice(), place);
        if !self.words.is_empty() {
            return Err(broken(span, BrokenKind::NoEnder));
        }
        if self.opened.len() == 0 {
            return Err(broken(span, BrokenKind::StrayBrace));
        }
        let _ = self.push_statement(alloc, Ender::Close, place)?;
        let _ = self.opened.pop();
        Ok(())
    }

    /// Puts the words so far as a statement behind the others, and gives its span.
    fn push_statement(&mut self, alloc: Global, ender: Ender, place: u64) -> Result<Span, Memory>
        requires { place + 1 < 2 ^ 64 }
        ensures { IfOk result (λ span. (span ≡ span_of_words self.old.words place) × (self.new ≡ record { statements = self.old.statements ++ statement_of self.old.words ender (length self.old.opened) place ∷ []; words = []; opened = self.old.opened })) }
    {
        let span = span_of_words(self.words.as_slice(), place);
        let words = std::mem::replace(&mut self.words, Row::new(alloc));
        self.statements.push(Statement {
            words,
            ender,
            depth: self.opened.len() as u64,
            span,
        })?;
        Ok(span)
    }

    /// The statements of a text that ends here.
    #[tactic(auto, unfolding(crate::specs::JunosCut::grouped))]
    pub(crate) fn text_end(mut self) -> Result<Row<Statement>, TextFault>
        ensures { Gives (outcome_behind self []) result }
    {
        if !self.words.is_empty() {
            return Err(broken(span_of_words(self.words.as_slice(), 0), BrokenKind::NoEnder));
        }
        match self.opened.pop() {
            Some(span) => Err(broken(span, BrokenKind::OpenBrace)),
            None => Ok(self.statements),
        }
    }
}

fn span_of_words(words: &[Word], place: u64) -> Span
    requires { place + 1 < 2 ^ 64 }
    ensures { result ≡ span_of_words words.now place }
{
    match words {
        [] => Span {
            start: place,
            end: place + 1,
        },
        [first, others @ ..] => Span {
            start: first.span.start,
            end: end_of_words(first.span.end, others),
        },
    }
}

pub(crate) fn broken(span: Span, kind: BrokenKind) -> TextFault
    ensures { result ≡ TextFault.Broken span kind }
{
    TextFault::Broken { span, kind }
}
