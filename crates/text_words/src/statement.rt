use crate::row::Row;

/// A place in a source: from byte `start` up to, and without, byte `end`, counted from 0.
#[derive(Clone, Copy, Debug, PartialEq, Eq)]
pub struct Span {
    pub start: u64,
    pub end: u64,
}

/// A word of a source: its bytes, without the quotes of a quoted one.
#[derive(Debug, Drop)]
pub struct Word {
    pub text: Row<u8>,
    pub quoted: bool,
    pub span: Span,
}

/// What ends a statement: the end of a line, `;`, `{`, `}`, `,`, or nothing of its own.
#[derive(Clone, Copy, Debug, PartialEq, Eq)]
pub enum Ender {
    Line,
    Semi,
    Open,
    Close,
    Comma,
    Plain,
}

/// A statement of a source: its words, what ends it, how deep it stands, and where.
#[derive(Debug, Drop)]
pub struct Statement {
    pub words: Row<Word>,
    pub ender: Ender,
    pub depth: u64,
    pub span: Span,
}
