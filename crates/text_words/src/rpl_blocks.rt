// The words of an RPL text become statements, a word at a time.
ghost use Rattle.std.specs.Prelude.{◌≡◌, ◌++◌, ◌∷◌, [], IfOk, map};
ghost use Rattle.text_words.specs.RplWords.{EndsLine, IsWord};
ghost use Rattle.text_words.specs.declared.rpl_blocks.Place.TheVariants.{Outside, InSet};
ghost use Rattle.text_words.specs.declared.statement.Ender.TheVariants.{Plain};
ghost use Rattle.text_words.specs.RplCut.{is_word, is_one_of, opened_by, inside, behind_line, words_span, said, element, in_condition, starts_with, ends_with, taken, in_set, in_policy, in_statement};
ghost use Rattle.text_words.specs.RplReach.{after, reach};

use crate::line_cut::end_of_words;
use crate::memory::Memory;
use crate::row::Row;
use crate::statement::{Ender, Span, Statement, Word};
use std::alloc::Global;
use std::mem;

/// What a block of an RPL text defines.
#[derive(Clone, Copy, Debug, PartialEq, Eq)]
pub enum BlockKind {
    PrefixSet,
    CommunitySet,
    PathSet,
    Policy,
}

/// Where a word of an RPL text stands: outside blocks; in a set, behind a comma or not; in a policy, in a
/// condition or not.
#[derive(Clone, Copy, Debug)]
pub(crate) enum Place {
    Outside,
    InSet(Option<Span>),
    InPolicy(bool),
}

/// A cut under way: the statements so far, where the next word stands, and the words of the statement
/// that has begun.
#[derive(Drop)]
pub(crate) struct Cutting {
    pub(crate) statements: Row<Statement>,
    pub(crate) place: Place,
    pub(crate) words: Row<Word>,
}

/// Whether a word is this keyword of RPL: a word in quotes is none. It takes no memory.
pub fn is_word(key: &[u8], word: &Word) -> bool
    ensures { result ≡ is_word key.now word.now }
{
    !word.quoted && key == word.text.as_slice()
}

fn is_one_of(keys: &[&[u8]], word: &Word) -> bool
    ensures { result ≡ is_one_of (map (λ key. key.now) keys.now) word.now }
{
    let mut rest = keys;
    while let [key, others @ ..] = rest {
        if is_word(key, word) {
            return true;
        }
        rest = others;
    }
    false
}

/// The block of an RPL text that a line with this first word opens; `None` where it opens none. It takes
/// no memory.
pub fn opened_by(word: &Word) -> Option<BlockKind>
    ensures { result ≡ opened_by word.now }
{
    if is_word(b"prefix-set", word) {
        return Some(BlockKind::PrefixSet);
    }
    if is_word(b"community-set", word) {
        return Some(BlockKind::CommunitySet);
    }
    if is_word(b"as-path-set", word) {
        return Some(BlockKind::PathSet);
    }
    if is_word(b"route-policy", word) {
        return Some(BlockKind::Policy);
    }
    None
}

fn inside(kind: Option<BlockKind>) -> Place
    ensures { result ≡ inside kind }
{
    match kind {
        None => Place::Outside,
        Some(BlockKind::Policy) => Place::InPolicy(false),
        Some(BlockKind::PrefixSet) => Place::InSet(None),
        Some(BlockKind::CommunitySet) => Place::InSet(None),
        Some(BlockKind::PathSet) => Place::InSet(None),
    }
}

fn behind_line(words: &[Word]) -> Place
    ensures { result ≡ behind_line words.now }
{
    match words {
        [] => Place::Outside,
        [first, ..] => inside(opened_by(first)),
    }
}

fn in_condition(condition: bool, word: &Word) -> bool
    ensures { result ≡ in_condition condition word.now }
{
    if condition {
        return !is_word(b"then", word);
    }
    is_one_of(&[b"if", b"elseif"], word)
}

fn starts_with(condition: bool, word: &Word) -> bool
    ensures { result ≡ starts_with condition word.now }
{
    if condition {
        return false;
    }
    is_one_of(
        &[
            b"if", b"elseif", b"else", b"endif", b"pass", b"done", b"drop", b"set", b"delete",
            b"prepend", b"apply",
        ],
        word,
    )
}

fn ends_with(condition: bool, word: &Word) -> bool
    ensures { result ≡ ends_with condition word.now }
{
    if is_word(b"then", word) {
        return true;
    }
    if condition {
        return false;
    }
    is_one_of(&[b"else", b"endif"], word)
}

impl Cutting {
    /// Ends the statement of the words so far, if there are any.
    fn say(&mut self, alloc: Global, ender: Ender, depth: u64) -> Result<(), Memory>
        ensures { IfOk result (λ _. self.new ≡ record { statements = self.old.statements ++ said ender depth self.old.words; place = self.old.place; words = [] }) }
    {
        let words = mem::replace(&mut self.words, Row::new(alloc));
        match span_of(words.as_slice()) {
            None => Ok(()),
            Some(span) => self.statements.push(Statement {
                words,
                ender,
                depth,
                span,
            }),
        }
    }

    /// Ends an element of a set, which may have no words where it is beside a comma.
    fn say_element(
        &mut self,
        alloc: Global,
        ender: Ender,
        beside: Option<Span>,
    ) -> Result<(), Memory>
        ensures { IfOk result (λ _. self.new ≡ record { statements = self.old.statements ++ element ender beside self.old.words; place = self.old.place; words = [] }) }
    {
        if !self.words.is_empty() {
            return self.say(alloc, ender, 1);
        }
        match beside {
            None => Ok(()),
            Some(span) => self.statements.push(Statement {
                words: Row::new(alloc),
                ender,
                depth: 1,
                span,
            }),
        }
    }

    /// Ends the block with this word.
    fn end_block(&mut self, alloc: Global, word: Word) -> Result<(), Memory>
        requires { self.old.words ≡ [] }
        ensures { IfOk result (λ _. self.new ≡ record { statements = self.old.statements ++ said Plain 0 (word ∷ []); place = Outside; words = [] }) }
    {
        self.words.push(word)?;
        self.say(alloc, Ender::Plain, 0)?;
        self.place = Place::Outside;
        Ok(())
    }

    /// Takes a word of a set.
    fn take_in_set(&mut self, alloc: Global, comma: Option<Span>, word: Word) -> Result<(), Memory>
        requires { self.old.place ≡ InSet comma }
        ensures { IfOk result (λ _. self.new ≡ after self.old (in_set comma self.old.words word)) }
    {
        if is_word(b"end-set", &word) {
            self.say_element(alloc, Ender::Plain, comma)?;
            return self.end_block(alloc, word);
        }
        if is_word(b",", &word) {
            let span = word.span;
            self.say_element(alloc, Ender::Comma, Some(span))?;
            self.place = Place::InSet(Some(span));
            return Ok(());
        }
        self.words.push(word)
    }

    /// Takes a word of a statement of a policy.
    fn take_in_statement(
        &mut self,
        alloc: Global,
        condition: bool,
        word: Word,
    ) -> Result<(), Memory>
        ensures { IfOk result (λ _. self.new ≡ after self.old (in_statement condition [] self.old.words word)) }
    {
        let ends = ends_with(condition, &word);
        self.place = Place::InPolicy(in_condition(condition, &word));
        self.words.push(word)?;
        if ends {
            return self.say(alloc, Ender::Plain, 1);
        }
        Ok(())
    }

    /// Takes a word of a policy.
    fn take_in_policy(&mut self, alloc: Global, condition: bool, word: Word) -> Result<(), Memory>
        ensures { IfOk result (λ _. self.new ≡ after self.old (in_policy condition self.old.words word)) }
    {
        if is_word(b"end-policy", &word) {
            self.say(alloc, Ender::Plain, 1)?;
            return self.end_block(alloc, word);
        }
        if starts_with(condition, &word) {
            self.say(alloc, Ender::Plain, 1)?;
        }
        self.take_in_statement(alloc, condition, word)
    }

    /// Takes a word.
    #[tactic(auto, unfolding(crate::specs::RplCut::taken))]
    pub(crate) fn take(&mut self, alloc: Global, word: Word) -> Result<(), Memory>
        ensures { IfOk result (λ _. self.new ≡ after self.old (taken self.old.place self.old.words (IsWord word))) }
    {
        match self.place {
            Place::Outside => self.words.push(word),
            Place::InSet(comma) => self.take_in_set(alloc, comma, word),
            Place::InPolicy(condition) => self.take_in_policy(alloc, condition, word),
        }
    }

    /// Takes the end of a line.
    #[tactic(auto, unfolding(crate::specs::RplCut::taken))]
    pub(crate) fn end_line(&mut self, alloc: Global) -> Result<(), Memory>
        ensures { IfOk result (λ _. self.new ≡ after self.old (taken self.old.place self.old.words EndsLine)) }
    {
        match self.place {
            Place::Outside => {
                let place = behind_line(self.words.as_slice());
                self.say(alloc, Ender::Line, 0)?;
                self.place = place;
                Ok(())
            }
            _ => Ok(()),
        }
    }

    /// The statements, where the text ends here.
    #[tactic(auto, unfolding(crate::specs::RplCut::cut_from))]
    pub(crate) fn finished(self, alloc: Global) -> Result<Row<Statement>, Memory>
        ensures { IfOk result (λ s. s ≡ reach self []) }
    {
        let mut cut = self;
        cut.say(alloc, Ender::Plain, 1)?;
        Ok(cut.statements)
    }
}

fn span_of(words: &[Word]) -> Option<Span>
    ensures { result ≡ words_span words.now }
{
    match words {
        [] => None,
        [first, others @ ..] => Some(Span {
            start: first.span.start,
            end: end_of_words(first.span.end, others),
        }),
    }
}
