//! What stands at a place of a table of effects.
ghost use Rattle.std.specs.Prelude.{◌≡◌, ◌<◌, Some, length, option_map, slice_get};

use crate::effect::Effect;

/// The effect at a place, if there is one.
pub(crate) fn effect_at<S>(table: &[Effect<S>], place: usize) -> Option<&Effect<S>>
    ensures { option_map (λ e. e.now) result ≡ slice_get table.now place }
{
    table.get(place)
}

/// The effect at a place.
pub fn lent<S>(table: &[Effect<S>], place: usize) -> &Effect<S>
    requires { place < length table.now }
    ensures { slice_get table.now place ≡ Some result.now }
{
    &table[place]
}
