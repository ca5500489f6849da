//! Dot products of rows, plane by plane.

ghost use Rattle.std.specs.Prelude.{◌≡◌, ◌≢◌, ◌%◌, length};
ghost use Rattle.axe_field.specs.NumberFields.{number_field};
ghost use Rattle.axe_field.specs.Order.{IsElement, prime_of, degree_of};
ghost use Rattle.axe_lane.specs.Bytes.{sum_of_products};
ghost use Rattle.axe_plane.specs.Planes.{prime_of_plane, digits_of, IsPlaneOf};
ghost use Rattle.axe_row.specs.Operations.{dot_product};

use crate::Row;
use crate::planes::element;
use axe_plane::Plane;

impl Row {
    /// The dot product with another row: where c, l and q are the planes of the coefficients of 1, x and x^2 of this
    /// one, and b is the other, it is c b + x (l b + x (q b)).
    pub(crate) fn dot_by_planes(&self, other: &Row) -> u8
        requires degree { degree_of self.now.order ≢ 1 }
        requires field { other.now.order ≡ self.now.order }
        requires fits { length other.now.entries ≡ length self.now.entries }
        ensures value { result ≡ dot_product (number_field self.now.order) self.now.entries other.now.entries }
        ensures element { IsElement self.now.order result }
    {
        let field = other.field();
        let x = field.prime();
        let constant = other.dot_with_digits(&self.constant);
        let Some(higher) = &self.higher else {
            return constant;
        };
        let linear = other.dot_with_digits(&higher.linear);
        let quadratic = other.dot_with_digits(&higher.quadratic);
        let high = field.add(linear, field.mul(x, quadratic));
        field.add(constant, field.mul(x, high))
    }

    /// The dot product with a vector of digits, as many as the row has entries or none.
    fn dot_with_digits(&self, digits: &Plane) -> u8
        requires plane { IsPlaneOf (prime_of self.now.order) (length (digits_of digits.now)) digits.now }
        requires fits { length (digits_of digits.now) ≢ 0 → length (digits_of digits.now) ≡ length self.now.entries }
        ensures value { result ≡ dot_product (number_field self.now.order) (digits_of digits.now) self.now.entries }
        ensures element { IsElement self.now.order result }
    {
        let constant = dot_or_zero(digits, &self.constant);
        let Some(higher) = &self.higher else {
            return constant;
        };
        let linear = dot_or_zero(digits, &higher.linear);
        let quadratic = dot_or_zero(digits, &higher.quadratic);
        element(&self.field, constant, linear, quadratic)
    }
}

/// The dot product of two planes modulo one prime: 0 where one of them has no digits.
fn dot_or_zero(left: &Plane, right: &Plane) -> u8
    requires prime { prime_of_plane right.now ≡ prime_of_plane left.now }
    requires fits { length (digits_of left.now) ≢ 0 → length (digits_of right.now) ≢ 0 →
        length (digits_of right.now) ≡ length (digits_of left.now) }
    ensures { result ≡ sum_of_products (digits_of left.now) (digits_of right.now) % prime_of_plane left.now }
{
    if left.len() == right.len() {
        left.dot(right)
    } else {
        0
    }
}
