//! The rows of a matrix in their order, or in the opposite one.

ghost use Rattle.std.specs.Prelude.{◌≡◌, ◌<◌, length};
ghost use Rattle.axe_matrix.specs.Matrices.{IsMatrix, reversed_matrix, row_of};

use super::{Matrix, Row};
use axe_field::Field;
use std::marker::Model;

/// A matrix, or the one with its rows in the opposite order, without a copy: only where its rows are read makes the
/// difference.
#[derive(Drop)]
pub(crate) struct Lines<'a> {
    matrix: &'a Matrix,
    from_last: bool,
}

impl<'a> Model for Lines<'a> {
    ghost use Rattle.axe_matrix.specs.Matrices.{MatrixValue, lines_of};

    ghost Value = { MatrixValue };

    ghost view = { λ lines. lines_of lines.from_last lines.matrix.now };
}

impl<'a> Lines<'a> {
    /// A matrix with its rows in their order.
    pub(crate) fn in_order(matrix: &'a Matrix) -> Lines<'a>
        ensures { result ≡ matrix.now }
    {
        Lines {
            matrix,
            from_last: false,
        }
    }

    /// A matrix with its rows in the opposite order.
    pub(crate) fn from_last(matrix: &'a Matrix) -> Lines<'a>
        ensures { result ≡ reversed_matrix matrix.now }
    {
        Lines {
            matrix,
            from_last: true,
        }
    }

    /// The field of the entries.
    pub(crate) fn field(&self) -> &Field
        ensures order { result.now ≡ self.now.order }
        ensures well_formed { IsMatrix self.now }
    {
        self.matrix.field()
    }

    /// How many rows there are.
    pub(crate) fn rows(&self) -> usize
        ensures count { result ≡ length self.now.rows }
        ensures well_formed { IsMatrix self.now }
    {
        self.matrix.rows()
    }

    /// How many columns there are.
    pub(crate) fn cols(&self) -> usize
        ensures count { result ≡ self.now.cols }
        ensures well_formed { IsMatrix self.now }
    {
        self.matrix.cols()
    }

    /// The row at an index, counted from 0.
    #[inline(always)]
    pub(crate) fn row(&self, index: usize) -> &Row
        requires { index < length self.now.rows }
        ensures value { result.now ≡ row_of self.now index }
        ensures as_long { length result.now.entries ≡ self.now.cols }
    {
        if self.from_last {
            self.matrix.row(self.matrix.rows() - 1 - index)
        } else {
            self.matrix.row(index)
        }
    }
}
