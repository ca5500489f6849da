//! The planes that a row keeps over the fields that are not prime, beside that of the coefficients of 1.
ghost use Rattle.std.specs.Prelude.{◌<◌, length};
ghost use Rattle.axe_bits.specs.Combinations.{digits_with_multiples};
ghost use Rattle.axe_layer.specs.Digits.{digits_with_four};
ghost use Rattle.axe_plane.specs.Planes.{prime_of_plane, digits_of, IsPlane};
ghost use Rattle.axe_plane.specs.Tables.{entries_of_table, plane_at};
ghost use Rattle.axe_row.specs.Addends.{AreAddends};
ghost use Rattle.axe_row.specs.Planes.{column, AreAddable};

use crate::combos::add_entries;
use axe_plane::{Plane, PlaneTable};

/// The planes of the coefficients of x and of x^2. Over a field of degree 2 the latter has no digits.
#[derive(Drop)]
pub(crate) struct Higher {
    pub(crate) linear: Plane,
    pub(crate) quadratic: Plane,
}

impl Higher {
    /// Adds the planes of four others, each to that of the same power of x.
    #[inline(always)]
    pub(crate) fn add_four(&mut self, a: &Higher, b: &Higher, c: &Higher, d: &Higher)
        requires a { AreAddends self.old a.now }
        requires b { AreAddends self.old b.now }
        requires c { AreAddends self.old c.now }
        requires d { AreAddends self.old d.now }
        ensures linear { IsPlane (prime_of_plane self.old.linear) (digits_with_four (prime_of_plane self.old.linear)
            (digits_of self.old.linear) (digits_of a.now.linear) (digits_of b.now.linear) (digits_of c.now.linear)
            (digits_of d.now.linear)) self.new.linear }
        ensures quadratic { IsPlane (prime_of_plane self.old.quadratic)
            (digits_with_four (prime_of_plane self.old.quadratic) (digits_of self.old.quadratic)
            (digits_of a.now.quadratic) (digits_of b.now.quadratic) (digits_of c.now.quadratic)
            (digits_of d.now.quadratic)) self.new.quadratic }
    {
        self.linear
            .add_four(&a.linear, &b.linear, &c.linear, &d.linear);
        self.quadratic
            .add_four(&a.quadratic, &b.quadratic, &c.quadratic, &d.quadratic);
    }

    /// Adds multiples of an entry of each of three tables of planes: those that the columns of x and x^2 of a matrix
    /// give.
    pub(crate) fn add_entries(
        &mut self,
        matrix: &[[u8; 3]; 3],
        index: usize,
        constant: &PlaneTable,
        linear: &PlaneTable,
        quadratic: &PlaneTable,
    )
        requires constant { index < length (entries_of_table constant.now) }
        requires linear { index < length (entries_of_table linear.now) }
        requires quadratic { index < length (entries_of_table quadratic.now) }
        requires to_linear { AreAddable self.old.linear (column matrix.now 1) (plane_at constant.now index)
            (plane_at linear.now index) (plane_at quadratic.now index) }
        requires to_quadratic { AreAddable self.old.quadratic (column matrix.now 2) (plane_at constant.now index)
            (plane_at linear.now index) (plane_at quadratic.now index) }
        ensures linear { IsPlane (prime_of_plane self.old.linear)
            (digits_with_multiples (prime_of_plane self.old.linear) (digits_of self.old.linear) (column matrix.now 1)
            (digits_of (plane_at constant.now index)) (digits_of (plane_at linear.now index))
            (digits_of (plane_at quadratic.now index))) self.new.linear }
        ensures quadratic { IsPlane (prime_of_plane self.old.quadratic)
            (digits_with_multiples (prime_of_plane self.old.quadratic) (digits_of self.old.quadratic)
            (column matrix.now 2) (digits_of (plane_at constant.now index)) (digits_of (plane_at linear.now index))
            (digits_of (plane_at quadratic.now index))) self.new.quadratic }
    {
        let m = matrix;
        let to_linear = [m[0][1], m[1][1], m[2][1]];
        add_entries(
            &mut self.linear,
            to_linear,
            index,
            constant,
            linear,
            quadratic,
        );
        let to_quadratic = [m[0][2], m[1][2], m[2][2]];
        add_entries(
            &mut self.quadratic,
            to_quadratic,
            index,
            constant,
            linear,
            quadratic,
        );
    }
}
