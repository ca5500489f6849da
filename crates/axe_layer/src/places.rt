//! The earlier of two places.
ghost use Rattle.std.specs.Prelude.{◌≡◌};
ghost use Rattle.axe_layer.specs.Earlier.{earlier_of};

/// The earlier of two places, each of which may be missing.
pub fn earlier(a: Option<usize>, b: Option<usize>) -> Option<usize>
    ensures { result ≡ earlier_of a b }
{
    match (a, b) {
        (Some(i), Some(j)) => Some(i.min(j)),
        (Some(i), None) => Some(i),
        (None, b) => b,
    }
}
