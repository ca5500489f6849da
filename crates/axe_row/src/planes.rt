//! The planes of a row: the coefficients of 1, of x and of x^2 of its entries.
ghost use Rattle.std.specs.Prelude.{◌≡◌, ◌≢◌, ◌<◌, ◌≤◌, IfOk, cond, length, ltb, slice_index};
ghost use Rattle.axe_field.specs.Order.{order_number, prime_of, degree_of, IsElement};
ghost use Rattle.axe_field.specs.Planes.{IsCoefficient, element_of};
ghost use Rattle.axe_lane.specs.Bytes.{AreDigits};
ghost use Rattle.axe_lane.specs.Entries.{AreZerosBefore};
ghost use Rattle.axe_layer.specs.Digits.{digits_with_multiple};
ghost use Rattle.axe_plane.specs.Planes.{prime_of_plane, digits_of, IsPlane};
ghost use Rattle.axe_row.specs.MadePlanes.{row_of_planes};
ghost use Rattle.axe_row.specs.Operations.{row_with_multiple};
ghost use Rattle.axe_row.specs.Planes.{coefficients_at, ArePlanes, HaveZerosBefore};

use crate::higher::Higher;
use axe_bits::TritPlane;
use axe_field::Field;
use axe_plane::{BitPlane, Plane};
use std::alloc::{AllocError, Global};

/// How many digits the plane of the coefficients of a power of x has in a row of `len` entries: none from the degree
/// on.
pub(crate) fn digits_in_plane(field: &Field, power: u8, len: usize) -> usize
    ensures { result ≡ cond (ltb power (degree_of field.now)) len 0 }
{
    if power < field.degree() { len } else { 0 }
}

/// The plane of the coefficients of a power of x of these elements: no digits from the degree on.
pub(crate) fn plane_of(
    alloc: Global,
    field: &Field,
    elements: &[u8],
    power: u8,
) -> Result<Plane, AllocError>
    requires { power < 3 }
    ensures { IfOk result (IsPlane (prime_of field.now) (coefficients_at field.now power elements.now)) }
{
    let (prime, degree) = (field.prime(), field.degree());
    if power < degree {
        Plane::of_numbers(alloc, prime, elements, power)
    } else {
        Plane::zero(alloc, prime, 0)
    }
}

/// The coefficient of x^2 at an index, which is 0 without a look at its plane where the degree of the field is not 3.
#[inline]
pub(crate) fn quadratic_at(field: &Field, quadratic: &Plane, index: usize) -> u8
    requires { degree_of field.now ≢ 3 → length (digits_of quadratic.now) ≡ 0 }
    ensures { result ≡ slice_index (digits_of quadratic.now) index }
{
    let with_squares = field.degree() == 3;
    if with_squares {
        quadratic.digit(index)
    } else {
        0
    }
}

/// The element with these coefficients of 1, x and x^2.
#[inline]
pub(crate) fn element(field: &Field, constant: u8, linear: u8, quadratic: u8) -> u8
    requires constant { constant < prime_of field.now }
    requires linear { IsCoefficient field.now 1 linear }
    requires quadratic { IsCoefficient field.now 2 quadratic }
    ensures { result ≡ element_of field.now constant linear quadratic }
{
    let prime = field.prime();
    let high = linear + prime * quadratic;
    constant + prime * high
}

/// Adds a multiple of the planes of a row over a field that is not prime, whose digits before an index are 0, to the
/// planes of another.
pub(crate) fn add_planes(
    field: &Field,
    start: usize,
    scalar: u8,
    constant: &mut Plane,
    higher: &mut Higher,
    other: &Plane,
    others: &Higher,
)
    requires planes { ArePlanes field.now (length (digits_of constant.old)) constant.old higher.old.linear
        higher.old.quadratic }
    requires others { ArePlanes field.now (length (digits_of constant.old)) other.now others.now.linear
        others.now.quadratic }
    requires within { start ≤ length (digits_of constant.old) }
    requires not_prime { degree_of field.now ≢ 1 }
    requires element { IsElement field.now scalar }
    requires zeros { HaveZerosBefore start other.now others.now.linear others.now.quadratic }
    ensures planes { ArePlanes field.now (length (digits_of constant.old)) constant.new higher.new.linear
        higher.new.quadratic }
    ensures sum { row_of_planes field.now constant.new higher.new.linear higher.new.quadratic
        ≡ row_with_multiple (row_of_planes field.now constant.old higher.old.linear higher.old.quadratic) scalar
        (row_of_planes field.now other.now others.now.linear others.now.quadratic) }
{
    let Higher { linear, quadratic } = higher;
    match field.order() {
        4 => {
            let (p, q) = (scalar % 2, scalar / 2);
            Plane::add_multiple_of_two(constant, linear, start, p, q, other, &others.linear);
        }
        9 => {
            let (p, q) = (scalar % 3, scalar / 3);
            Plane::add_multiple_of_two(constant, linear, start, p, q, other, &others.linear);
        }
        _ => {
            let (p, q, r) = (scalar % 2, scalar / 2 % 2, scalar / 4);
            let (l, s) = (&others.linear, &others.quadratic);
            Plane::add_multiple_of_three(constant, linear, quadratic, start, p, q, r, other, l, s);
        }
    }
}

/// Adds a plane modulo 2, whose digits before an index are 0, to another of its length.
#[inline(always)]
pub(crate) fn add_bits(start: usize, plane: &mut Plane, other: &Plane)
    requires two { prime_of_plane plane.old ≡ 2 }
    requires other { prime_of_plane other.now ≡ 2 }
    requires fits { length (digits_of other.now) ≡ length (digits_of plane.old) }
    requires within { start ≤ length (digits_of plane.old) }
    requires zeros { AreZerosBefore (digits_of other.now) start }
    ensures { IsPlane 2 (digits_with_multiple 2 (digits_of plane.old) 1 (digits_of other.now)) plane.new }
{
    match (plane, other) {
        (Plane::Bits(plane), Plane::Bits(other)) => plane.add_from(start, other),
        _ => unreachable!(),
    }
}

/// Adds a multiple of a plane modulo an odd prime, whose digits before an index are 0, to another of its length.
#[inline(always)]
pub(crate) fn add_digits(start: usize, factor: u8, plane: &mut Plane, other: &Plane)
    requires odd { prime_of_plane plane.old ≢ 2 }
    requires prime { prime_of_plane other.now ≡ prime_of_plane plane.old }
    requires factor { factor < prime_of_plane plane.old }
    requires fits { length (digits_of other.now) ≡ length (digits_of plane.old) }
    requires within { start ≤ length (digits_of plane.old) }
    requires zeros { AreZerosBefore (digits_of other.now) start }
    requires digits { AreDigits (prime_of_plane plane.old) (digits_of plane.old) }
    ensures { IsPlane (prime_of_plane plane.old)
        (digits_with_multiple (prime_of_plane plane.old) (digits_of plane.old) factor (digits_of other.now)) plane.new }
{
    match (plane, other) {
        (Plane::Trits(plane), Plane::Trits(other)) => plane.add_scaled_from(start, factor, other),
        (Plane::Bytes(plane), Plane::Bytes(other)) => plane.add_scaled_from(start, factor, other),
        // Two planes modulo one prime are of one kind.
        _ => unreachable!(),
    }
}

/// Adds a multiple of planes as [`add_planes`] does, over a field of Q elements. The field is known where it is called,
/// so that no order is told apart here.
#[inline(always)]
pub(crate) fn add_planes_in<const Q: u8>(
    field: &Field,
    start: usize,
    scalar: u8,
    constant: &mut Plane,
    higher: &mut Higher,
    other: &Plane,
    others: &Higher,
)
    requires order { order_number field.now ≡ Q }
    requires planes { ArePlanes field.now (length (digits_of constant.old)) constant.old higher.old.linear
        higher.old.quadratic }
    requires others { ArePlanes field.now (length (digits_of constant.old)) other.now others.now.linear
        others.now.quadratic }
    requires within { start ≤ length (digits_of constant.old) }
    requires not_prime { degree_of field.now ≢ 1 }
    requires element { IsElement field.now scalar }
    requires zeros { HaveZerosBefore start other.now others.now.linear others.now.quadratic }
    ensures planes { ArePlanes field.now (length (digits_of constant.old)) constant.new higher.new.linear
        higher.new.quadratic }
    ensures sum { row_of_planes field.now constant.new higher.new.linear higher.new.quadratic
        ≡ row_with_multiple (row_of_planes field.now constant.old higher.old.linear higher.old.quadratic) scalar
        (row_of_planes field.now other.now others.now.linear others.now.quadratic) }
{
    let Higher { linear, quadratic } = higher;
    if Q == 4 {
        let (q, p) = (scalar / 2, scalar % 2);
        match (constant, linear, other, &others.linear) {
            (Plane::Bits(c), Plane::Bits(l), Plane::Bits(a), Plane::Bits(b)) => {
                BitPlane::add_multiple_of_two(c, l, start, p, q, a, b);
            }
            _ => unreachable!(),
        }
        return;
    }
    if Q == 9 {
        let (q, p) = (scalar / 3, scalar % 3);
        match (constant, linear, other, &others.linear) {
            (Plane::Trits(c), Plane::Trits(l), Plane::Trits(a), Plane::Trits(b)) => {
                TritPlane::add_multiple_of_two(c, l, start, p, q, a, b);
            }
            _ => unreachable!(),
        }
        return;
    }
    let (r, q, p) = (scalar / 4, scalar / 2 % 2, scalar % 2);
    let (b, d) = (&others.linear, &others.quadratic);
    match (constant, linear, quadratic, other, b, d) {
        (
            Plane::Bits(c),
            Plane::Bits(l),
            Plane::Bits(s),
            Plane::Bits(a),
            Plane::Bits(b),
            Plane::Bits(d),
        ) => {
            BitPlane::add_multiple_of_three(c, l, s, start, p, q, r, a, b, d);
        }
        _ => unreachable!(),
    }
}
