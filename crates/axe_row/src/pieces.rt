//! The numbers of pieces of a row: which combinations of the rows of a table they name.

ghost use Rattle.std.specs.Prelude.{◌≡◌, ◌+◌, ◌*◌, ◌^◌, ◌<◌, ◌≤◌};
ghost use Rattle.axe_layer.specs.Digits.{number_bound};
ghost use Rattle.axe_field.specs.Order.{IsElement};
ghost use Rattle.axe_row.specs.Combinations.{piece_number, piece_numbers};

use crate::Row;
use crate::lanes::numbers_in_lanes;

impl Row {
    /// The numbers of four pieces of a row of so many entries each, one after another from an index on: the entries of
    /// a piece, each times a scalar, are the digits of its number in base q, most significant first, where q is the
    /// order of the field. A piece that goes beyond the end is as short as that makes it, and an empty one has number
    /// 0.
    #[inline(always)]
    pub fn piece_numbers(&self, scalar: u8, size: usize, at: usize) -> [usize; 4]
        requires element { IsElement self.now.order scalar }
        requires short { size ≤ 8 }
        requires counted { at + 4 * size < 2 ^ 64 }
        ensures { result ≡ piece_numbers self.now scalar size at }
    {
        if scalar == 1 {
            return self.numbers_by_planes(size, at);
        }
        [
            self.piece_number(scalar, size, at),
            self.piece_number(scalar, size, at + size),
            self.piece_number(scalar, size, at + 2 * size),
            self.piece_number(scalar, size, at + 3 * size),
        ]
    }

    /// The number of a piece of a row.
    fn piece_number(&self, scalar: u8, size: usize, at: usize) -> usize
        requires element { IsElement self.now.order scalar }
        requires short { size ≤ 8 }
        requires counted { at + size < 2 ^ 64 }
        ensures { result ≡ piece_number self.now scalar size at }
    {
        let field = self.field();
        let order = usize::from(field.order());
        let mut number = 0;
        for index in at..self.len().min(at + size) {
            number = number * order + usize::from(field.mul(scalar, self.get(index)));
        }
        number
    }

    /// The numbers of four pieces of a row, by the numbers that the planes have of their digits. Those of one or two
    /// entries, which are most over 8 and 9 elements, are made at once where the row has so many.
    fn numbers_by_planes(&self, size: usize, at: usize) -> [usize; 4]
        requires short { size ≤ 8 }
        requires counted { at + 4 * size < 2 ^ 64 }
        ensures { result ≡ piece_numbers self.now 1 size at }
    {
        let order = usize::from(self.field.order());
        let Some(higher) = &self.higher else {
            return self.constant.numbers_from(order, size, at);
        };
        if size > 0 && size <= 2 && at + 4 * size <= self.constant.len() {
            return numbers_in_lanes(&self.field, &self.constant, higher, size, at);
        }
        let prime = self.field.prime();
        let constant = self.constant.numbers_from(order, size, at);
        let linear = higher.linear.numbers_from(order, size, at);
        let quadratic = higher.quadratic.numbers_from(order, size, at);
        [
            number_of_parts(prime, constant[0], linear[0], quadratic[0]),
            number_of_parts(prime, constant[1], linear[1], quadratic[1]),
            number_of_parts(prime, constant[2], linear[2], quadratic[2]),
            number_of_parts(prime, constant[3], linear[3], quadratic[3]),
        ]
    }
}

/// The number of a piece, by those that its coefficients of 1, x and x^2 have as digits.
fn number_of_parts(prime: u8, constant: usize, linear: usize, quadratic: usize) -> usize
    requires constant { constant < number_bound }
    requires linear { linear < number_bound }
    requires quadratic { quadratic < number_bound }
    ensures { result ≡ constant + prime * (linear + prime * quadratic) }
{
    let prime = usize::from(prime);
    constant + prime * (linear + prime * quadratic)
}
