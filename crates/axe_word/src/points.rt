//! The points of a space, one of each of its subspaces of dimension 1: how many there are, the first, and all in order.

ghost use Rattle.std.specs.Prelude.{◌≡◌, ◌↔◌, ℕ, ◌<◌, ◌≤◌, ◌*◌, ◌^◌, [], length, drop, slice_index_or, None, IsTrue};
ghost use Rattle.std.specs.Iterator.{item_count};
ghost use Rattle.axe_field.specs.Order.{order_number};
ghost use Rattle.axe_row.specs.Rows.{IsRow};
ghost use Rattle.axe_row.specs.Refusals.{Answers};
ghost use Rattle.axe_word.specs.Drawing.{IsOrder};
ghost use Rattle.axe_word.specs.Limits.{most_points_in_turn};
ghost use Rattle.axe_word.specs.PointsOfMatrix.{point_count, IsReduced, points_of, GivesNext, point_with_number};

use axe_matrix::{Matrix, Refusal, Row};
use std::alloc::Global;
use std::marker::Model;

/// The most points that [`Points`] goes over.
pub const MAX_POINTS: usize = 4_095;

/// Whether a space of a dimension, over a field of an order, has no more points than a bound, whatever the two are. It
/// takes no memory, and counts no further than to the bound.
pub fn few_points(order: u8, dimension: usize, bound: usize) -> bool
    requires order { IsOrder order }
    ensures { IsTrue result ↔ (point_count order dimension ≤ bound) }
{
    let mut count: usize = 0;
    for _ in 0..dimension {
        // One dimension more: each point comes with every coordinate in front, and there is one new point.
        match count.checked_mul(usize::from(order)) {
            Some(multiple) if multiple < bound => count = multiple + 1,
            _ => return false,
        }
    }
    true
}

/// The first point of the span of a reduced basis: its last row.
pub fn first_point(alloc: Global, basis: &Matrix) -> Result<Row, Refusal>
    requires reduced { IsReduced basis.now }
    requires some_row { 0 < length basis.now.rows }
    ensures first { Answers None (λ point. point ≡ record {
      order = basis.now.order;
      entries = slice_index_or (points_of basis.now) 0 [];
    }) result }
    ensures well_formed { Answers None IsRow result }
{
    basis.row(basis.rows() - 1).copy(alloc)
}

/// The points of the span of a reduced basis, in ascending order of their coordinates over it, read as numbers in base
/// q, first coordinate most significant. It gives them up to their end, or up to a first Memory, after which it gives
/// no more. It takes memory for the point that it gives, and for nothing else.
#[derive(Drop)]
pub struct Points<'a> {
    alloc: Global,
    basis: &'a Matrix,
    /// The coordinates of the next point as a number.
    number: usize,
    /// The place value of the number's first digit, which is 1.
    leading: usize,
    /// The numbers of all coordinates are below this.
    end: usize,
}

impl<'a> Model for Points<'a> {
    ghost use Rattle.axe_word.specs.PointsOfMatrix.{PointsLeft, points_from, IsPlaceOfPoint};

    ghost Value = { PointsLeft };

    ghost view = { λ a. record { order = a.basis.now.order; left = points_from a.basis.now a.number } };

    ghost invariant = { λ a. IsPlaceOfPoint a.basis.now a.number a.leading a.end };
}

impl<'a> Points<'a> {
    /// The points of the span of a reduced basis, of which there are at most [`MAX_POINTS`].
    pub fn new(alloc: Global, basis: &'a Matrix) -> Points<'a>
        requires reduced { IsReduced basis.now }
        requires few { point_count (order_number basis.now.order) (length basis.now.rows) ≤ most_points_in_turn }
        ensures { result ≡ record { order = basis.now.order; left = points_of basis.now } }
    {
        let order = usize::from(basis.field().order());
        let end = order.pow(basis.rows() as u32);
        Points {
            alloc,
            basis,
            number: 1,
            leading: 1,
            end,
        }
    }

    /// Whether no point is left.
    fn is_over(&self) -> bool
        ensures { IsTrue result ↔ (length self.now.left ≡ 0) }
    {
        self.number >= self.end
    }

    /// The first point that is left.
    fn first(&self) -> Result<Row, Refusal>
        requires { 0 < length self.now.left }
        ensures first { Answers None
            (λ point. point ≡ record { order = self.now.order; entries = slice_index_or self.now.left 0 [] }) result }
        ensures well_formed { Answers None IsRow result }
    {
        combination_with_number(self.alloc, self.basis, self.number, self.end)
    }

    /// Leaves the first point out.
    fn advance(&mut self)
        requires { 0 < length self.old.left }
        ensures { self.new ≡ record { order = self.old.order; left = drop 1 self.old.left } }
    {
        self.number += 1;
        if self.number == 2 * self.leading {
            // The first digit would be 2: the next number that begins with 1 has one digit more.
            self.leading *= usize::from(self.basis.field().order());
            self.number = self.leading;
        }
    }

    /// Leaves all points out.
    fn stop(&mut self)
        ensures { self.new ≡ record { order = self.old.order; left = [] } }
    {
        self.number = self.end;
    }
}

impl<'a> Iterator for Points<'a> {
    type Item = Result<Row, Refusal>;

    ghost next_gives = { GivesNext };

    ghost remaining = { item_count (λ s. s.left) };

    fn next(&mut self) -> Option<Result<Row, Refusal>> {
        if self.is_over() {
            return None;
        }
        match self.first() {
            Ok(point) => {
                self.advance();
                Some(Ok(point))
            }
            Err(refusal) => {
                self.stop();
                Some(Err(refusal))
            }
        }
    }
}

/// The combination of the rows of a matrix with the digits of a number as coefficients, given q to the number of rows.
fn combination_with_number(
    alloc: Global,
    basis: &Matrix,
    number: usize,
    end: usize,
) -> Result<Row, Refusal>
    requires { end ≡ order_number basis.now.order ^ length basis.now.rows }
    ensures combination { Answers None
        (λ point. point ≡ record { order = basis.now.order; entries = point_with_number basis.now number }) result }
    ensures well_formed { Answers None IsRow result }
{
    let order = usize::from(basis.field().order());
    let mut point = Row::zero(alloc, *basis.field(), basis.cols())?;
    let mut place = end;
    for index in 0..basis.rows() {
        place /= order;
        let digit = (number / place % order) as u8;
        point.add_scaled(digit, basis.row(index));
    }
    Ok(point)
}
