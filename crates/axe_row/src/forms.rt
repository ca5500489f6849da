//! Rows of the values of linear forms, and multiples of rows over the prime field.
ghost use Rattle.std.specs.Prelude.{◌≡◌, None, length};
ghost use Rattle.axe_field.specs.Forms.{prime_order, IsForm};
ghost use Rattle.axe_field.specs.Order.{IsElement};
ghost use Rattle.axe_row.specs.FormValues.{values_of_form};
ghost use Rattle.axe_row.specs.Operations.{row_with_multiple};
ghost use Rattle.axe_row.specs.Refusals.{Answers};
ghost use Rattle.axe_row.specs.Rows.{IsRow};

use crate::higher::Higher;
use crate::{Refusal, Row};
use axe_plane::Plane;
use std::alloc::Global;

impl Row {
    /// The row over the prime field of the values that a linear form takes at the entries. The form is given by what an
    /// entry's coefficients of 1, x and x^2 count in its value.
    pub fn values_of_form(&self, alloc: Global, form: [u8; 3]) -> Result<Row, Refusal>
        requires form { IsForm self.now.order form }
        ensures values { Answers None (λ row. row ≡ values_of_form form self.now) result }
        ensures well_formed { Answers None IsRow result }
    {
        let field = self.field.prime_field();
        let mut values = Plane::zero(alloc, field.order(), self.constant.len())?;
        values.add_scaled(form[0], &self.constant);
        if let Some(higher) = &self.higher {
            values.add_scaled(form[1], &higher.linear);
            values.add_scaled(form[2], &higher.quadratic);
        }
        Ok(Row::of_plane(field, values))
    }

    /// Adds a multiple of a row over the prime field that has as many entries: each entry d becomes d + c s, where c is
    /// the scalar, and s the other row's entry, which has the same number in this row's field.
    pub fn add_prime_multiple(&mut self, scalar: u8, other: &Row)
        requires field { other.now.order ≡ prime_order self.old.order }
        requires fits { length other.now.entries ≡ length self.old.entries }
        requires element { IsElement self.old.order scalar }
        ensures sum { self.new ≡ row_with_multiple self.old scalar other.now }
        ensures well_formed { IsRow self.new }
    {
        let factors = self.field.plane_matrix(scalar)[0];
        self.constant.add_scaled(factors[0], &other.constant);
        let Some(higher) = &mut self.higher else {
            return;
        };
        let Higher { linear, quadratic } = &mut **higher;
        linear.add_scaled(factors[1], &other.constant);
        quadratic.add_scaled(factors[2], &other.constant);
    }
}
