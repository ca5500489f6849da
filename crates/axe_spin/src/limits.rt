//! What the limit of modules is.

ghost use Rattle.std.specs.Prelude.{◌≡◌};
ghost use Rattle.axe_spin.specs.Limits.{most_generators};

use crate::MAX_GENERATORS;

/// The limit of the code is that of the definitions.
pub fn limits_are_named()
    ensures { MAX_GENERATORS ≡ most_generators }
{}
