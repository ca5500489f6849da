//! What the limits of words and of points are.

ghost use Rattle.std.specs.Prelude.{◌≡◌};
ghost use Rattle.axe_word.specs.Limits.{most_terms, most_numbers, most_points_in_turn};

use crate::{MAX_NUMBERS, MAX_POINTS, MAX_TERMS};

/// The limits of the code are those of the definitions.
pub fn limits_are_named()
    ensures terms { MAX_TERMS ≡ most_terms }
    ensures numbers { MAX_NUMBERS ≡ most_numbers }
    ensures points { MAX_POINTS ≡ most_points_in_turn }
{}
