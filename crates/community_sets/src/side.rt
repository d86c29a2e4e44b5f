ghost use Rattle.std.specs.Prelude.{◌≤◌};

// A range of halves with at least one number.
#[derive(Clone, Copy)]
pub(crate) struct Side {
    pub(crate) least: u16,
    pub(crate) most: u16,
    ghost ordered: { least ≤ most },
}
