// How many numbers are taken: a least count, and an upper end where there is one.
ghost use Rattle.std.specs.Prelude.{◌≡◌};
ghost use Rattle.path_patterns.specs.Counts.{is_above, is_nothing};

/// Whether the least count is above the upper end.
pub(crate) fn is_above(least: u32, most: Option<u32>) -> bool
    ensures { result ≡ is_above least most }
{
    match most {
        None => false,
        Some(most) => most < least,
    }
}

/// Whether the upper end is zero.
pub(crate) fn is_nothing(most: Option<u32>) -> bool
    ensures { result ≡ is_nothing most }
{
    match most {
        None => false,
        Some(most) => most == 0,
    }
}
