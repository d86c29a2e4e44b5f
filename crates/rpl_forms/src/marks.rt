use rpl_words::RplTest;

/// What a condition is made of: tests, and words that join and group them.
#[derive(Debug, Drop)]
pub(crate) enum Mark {
    Asks(RplTest),
    /// `(`
    Opens,
    /// `)`
    Closes,
    /// `not`
    Negates,
    /// `and`
    Joins,
    /// `or`
    Divides,
}

/// What waits for an operand: the `or`, the `and` behind it, and the `not`s behind that.
#[derive(Clone, Copy, Debug)]
pub(crate) struct Level {
    pub(crate) either: bool,
    pub(crate) both: bool,
    pub(crate) nots: u64,
}

/// Where a mark stands within its group: where an operand is wanted, or behind one, which an `or` may wait for.
#[derive(Clone, Copy, Debug)]
pub(crate) enum Standing {
    Wants(Level),
    Has(bool),
}
