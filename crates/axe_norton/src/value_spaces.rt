//! What the one-vector rule asks of the value p(x) of a polynomial p at a square matrix x.

ghost use Rattle.axe_norton.specs.ValueSpaces.{AreSpacesOf};

use axe_matrix::Matrix;
use axe_word::Tested;

/// The null space of a matrix p(x), and the span of its rows.
#[derive(Drop)]
pub(crate) struct ValueSpaces {
    /// The reduced basis of the null space of p(x).
    pub null_space: Matrix,
    /// Rows that span what the rows of p(x) span.
    pub rows: Matrix,
}

impl ValueSpaces {
    /// Those of a matrix that is made, with its null space.
    pub fn of(tested: Tested) -> ValueSpaces
        ensures { AreSpacesOf tested result }
    {
        let Tested { matrix, null_space } = tested;
        ValueSpaces {
            null_space,
            rows: matrix,
        }
    }
}
