//! What commands make of matrices, each with its refusals.
ghost use Rattle.std.specs.Prelude.{[]};
ghost use Rattle.axe_execute.specs.Operations.{MadeOfOne, MadeOfTwo};
ghost use Rattle.axe_plan.specs.Outcome.{Agrees};

use axe_echelon::{inverse, null_space};
use axe_fault::Fault;
use axe_matrix::Matrix;
use std::alloc::Global;

/// What is made of one matrix.
#[derive(Clone, Copy)]
pub(crate) enum OfOne {
    /// Its transpose.
    Transpose,
    /// Its inverse.
    Inverse,
    /// The reduced basis of its null space.
    NullSpace,
}

/// What is made of two matrices.
#[derive(Clone, Copy)]
pub(crate) enum OfTwo {
    /// Their product.
    Product,
    /// Their sum.
    Sum,
}

impl OfOne {
    /// Makes it of a matrix.
    pub(crate) fn make(self, alloc: Global, matrix: &Matrix) -> Result<Matrix, Fault>
        ensures { Agrees [] (λ made. made) result (MadeOfOne self matrix.now) }
    {
        match self {
            OfOne::Transpose => Ok(matrix.transpose(alloc)?),
            OfOne::Inverse => Ok(inverse(alloc, matrix)?),
            OfOne::NullSpace => Ok(null_space(alloc, matrix)?),
        }
    }
}

impl OfTwo {
    /// Makes it of two matrices.
    pub(crate) fn make(self, alloc: Global, left: &Matrix, right: &Matrix) -> Result<Matrix, Fault>
        ensures { Agrees [] (λ made. made) result (MadeOfTwo self left.now right.now) }
    {
        match self {
            OfTwo::Product => Ok(left.mul(alloc, right)?),
            OfTwo::Sum => Ok(left.add(alloc, right)?),
        }
    }
}
