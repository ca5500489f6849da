//! Up to which degree irreducible polynomials are listed.

ghost use Rattle.std.specs.Prelude.{◌≡◌, ◌+◌, ◌^◌, ◌<◌, ◌≤◌};
ghost use Rattle.axe_field.specs.Order.{Order, order_number};
ghost use Rattle.axe_poly.specs.Limits.{greatest_degree};

use axe_field::Field;

/// The greatest degree of irreducible polynomials that are listed: the greatest s for which q^s is at most 4,096, where
/// q is how many elements the field has.
pub fn greatest_degree(field: &Field) -> usize
    ensures { result ≡ greatest_degree field.now }
{
    match field.order() {
        2 => 12,
        3 => 7,
        4 => 6,
        5 => 5,
        7 | 8 => 4,
        _ => 3,
    }
}

/// The greatest degree of a field of q elements is the greatest s for which q^s is at most 4,096.
pub fn degrees_are_greatest()
    ensures fits { (o : Order) → order_number o ^ greatest_degree o ≤ 4096 }
    ensures greatest { (o : Order) → 4096 < order_number o ^ (greatest_degree o + 1) }
{}
