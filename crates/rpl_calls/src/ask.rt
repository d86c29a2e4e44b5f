/// A sort of sets; each has names of its own.
#[derive(Clone, Copy, PartialEq, Eq, Hash)]
pub enum SetSort {
    Prefix,
    Community,
    Path,
}

/// What a policy asks of what is handed to it, by its place among the parameters, from 0.
#[derive(Clone, Copy, PartialEq, Eq, Hash)]
pub struct Ask {
    pub place: usize,
    pub question: Question,
}

/// What is asked of an argument.
#[derive(Clone, Copy, PartialEq, Eq, Hash)]
pub enum Question {
    /// It is a number in this range.
    Number(NumberRange),
    /// It is the name of a set of this sort.
    Set(SetSort),
    /// It is a number that isn't below the one at this place of the same call, where both are up to 32.
    NotBelow(usize),
}

/// A number from `least` to `most`.
#[derive(Clone, Copy, PartialEq, Eq, Hash)]
pub struct NumberRange {
    pub least: u64,
    pub most: u64,
}
