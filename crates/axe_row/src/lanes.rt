//! The numbers of four pieces of a row at once, each in a lane of 16 bits of a word.
ghost use Rattle.std.specs.Prelude.{ℕ, [], ◌∷◌, ◌≡◌, ◌≢◌, ◌+◌, ◌*◌, ◌^◌, ◌<◌, ◌≤◌, length};
ghost use Rattle.axe_field.specs.Order.{degree_of};
ghost use Rattle.axe_layer.specs.Lanes.{in_lanes};
ghost use Rattle.axe_plane.specs.Planes.{digits_of};
ghost use Rattle.axe_row.specs.Combinations.{piece_numbers};
ghost use Rattle.axe_row.specs.MadePlanes.{row_of_planes};
ghost use Rattle.axe_row.specs.Planes.{ArePlanes};

use crate::higher::Higher;
use axe_field::Field;
use axe_plane::Plane;

/// How many numbers a lane may hold.
const LANE: u64 = 1 << 16;

/// The numbers of four pieces of one or two entries each that a row over a field that is not prime has one after
/// another from an index on. It stands apart so that those of other pieces are read in few steps.
#[inline(never)]
pub(crate) fn numbers_in_lanes(
    field: &Field,
    constant: &Plane,
    higher: &Higher,
    size: usize,
    at: usize,
) -> [usize; 4]
    requires planes { ArePlanes field.now (length (digits_of constant.now)) constant.now higher.now.linear
        higher.now.quadratic }
    requires not_prime { degree_of field.now ≢ 1 }
    requires some { 1 ≤ size }
    requires few { size ≤ 2 }
    requires within { at + 4 * size ≤ length (digits_of constant.now) }
    ensures { result ≡ piece_numbers
        (row_of_planes field.now constant.now higher.now.linear higher.now.quadratic) 1 size at }
{
    lanes_of(packed_numbers(field, constant, higher, size, at))
}

/// The numbers that [`numbers_in_lanes`] gives, each in a lane of its own: no sum of lanes is too large for a lane.
#[inline(always)]
fn packed_numbers(field: &Field, constant: &Plane, higher: &Higher, size: usize, at: usize) -> u64
    requires planes { ArePlanes field.now (length (digits_of constant.now)) constant.now higher.now.linear
        higher.now.quadratic }
    requires not_prime { degree_of field.now ≢ 1 }
    requires some { 1 ≤ size }
    requires few { size ≤ 2 }
    requires within { at + 4 * size ≤ length (digits_of constant.now) }
    ensures { result ≡ in_lanes (piece_numbers
        (row_of_planes field.now constant.now higher.now.linear higher.now.quadratic) 1 size at) }
{
    let (order, prime) = (u64::from(field.order()), u64::from(field.prime()));
    let constant = constant.packed_numbers(order, size, at);
    let linear = higher.linear.packed_numbers(order, size, at);
    // Over a field of degree 2 there are no coefficients of x^2.
    let without_squares = field.degree() == 2;
    if without_squares {
        return constant + prime * linear;
    }
    let quadratic = higher.quadratic.packed_numbers(order, size, at);
    constant + prime * (linear + prime * quadratic)
}

/// The numbers in the four lanes of a word, the lowest first.
#[inline(always)]
fn lanes_of(packed: u64) -> [usize; 4]
    ensures { (a b c d : ℕ) → a < 2 ^ 16 → b < 2 ^ 16 → c < 2 ^ 16 → d < 2 ^ 16 →
        packed ≡ in_lanes (a ∷ b ∷ c ∷ d ∷ []) → result ≡ a ∷ b ∷ c ∷ d ∷ [] }
{
    [
        (packed % LANE) as usize,
        ((packed >> 16) % LANE) as usize,
        ((packed >> 32) % LANE) as usize,
        (packed >> 48) as usize,
    ]
}
