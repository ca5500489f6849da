//! The values of polynomials at matrices.

ghost use Rattle.std.specs.Prelude.{◌≡◌, length, None, IfOk};
ghost use Rattle.axe_row.specs.Refusals.{Answers};
ghost use Rattle.axe_matrix.specs.Matrices.{IsMatrix};
ghost use Rattle.axe_poly.specs.Polys.{IsValueAt};

use crate::poly::Poly;
use axe_matrix::{Matrix, Refusal};
use std::alloc::Global;

impl Poly {
    /// The value of the polynomial at a square matrix x over its field: the sum of its coefficients times the powers of
    /// x. It goes by Horner's rule, with one product of matrices less than the degree: for degree 1 there is none.
    pub fn value_at(&self, alloc: Global, matrix: &Matrix) -> Result<Matrix, Refusal>
        requires field { matrix.now.order ≡ self.now.order }
        requires square { length matrix.now.rows ≡ matrix.now.cols }
        ensures value { Answers None (IsValueAt self.now.coefficients matrix.now) result }
        ensures well_formed { IfOk result IsMatrix }
    {
        // Called for what it ensures beside the number: that the matrix is one.
        prove!(matrix.rows() == matrix.cols());
        // The leading coefficient is 1: with the one before it the rule begins at x plus that one.
        let first = self.degree() - 1;
        let mut value = matrix.copy(alloc)?;
        value.add_to_diagonal(self.coefficient(first));
        for exponent in (0..first).rev() {
            value = value.mul(alloc, matrix)?;
            value.add_to_diagonal(self.coefficient(exponent));
        }
        Ok(value)
    }
}
