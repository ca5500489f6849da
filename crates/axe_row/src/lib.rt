//! Row vectors over a small finite field, and why an operation on rows or matrices is refused.
#![tactic(auto)]

ghost use Rattle.std.specs.Prelude.{◌≡◌, ◌≢◌, ◌<◌, ◌↔◌, None, IsTrue, length, replicate, slice_index, slice_set, All};
ghost use Rattle.std.specs.Prelude.{◌≤◌, MatchOption};
ghost use Rattle.axe_algebra.specs.Lists.{unit_row};
ghost use Rattle.axe_field.specs.NumberFields.{number_field};
ghost use Rattle.axe_field.specs.Order.{IsElement, prime_of, degree_of};
ghost use Rattle.axe_lane.specs.Entries.{AreZerosBefore, IsFirstNonzero};
ghost use Rattle.axe_row.specs.Operations.{dot_product, row_with_multiple, multiple_row, IsZeroVector};
ghost use Rattle.axe_plane.specs.Planes.{digits_of, IsPlaneOf};
ghost use Rattle.axe_row.specs.MadePlanes.{row_of_planes, AnswersMade, IfMade};
ghost use Rattle.axe_row.specs.Planes.{ArePlanes};
ghost use Rattle.axe_row.specs.Rows.{RowValue, IsRow};
ghost use Rattle.axe_row.specs.Refusals.{Answers};

mod bit_block;
mod cancelling;
mod combos;
mod dots;
mod entries;
mod entry_word;
mod forms;
mod found;
mod held;
mod higher;
mod known_field;
mod lanes;
mod packed;
mod parts;
mod pieces;
mod planes;
mod refusals;
mod scaling;
mod sums;
mod words;

use axe_field::Field;
use axe_layer::earlier;
pub use axe_plane::BitPlane;
use axe_plane::Plane;
pub use bit_block::BitBlock;
pub use combos::{Combos, RowSum, digits_per_byte};
pub use entry_word::EntryWord;
pub use held::HeldRow;
use higher::Higher;
use planes::{add_planes, digits_in_plane, element, plane_of, quadratic_at};
pub use refusals::Refusal;
use scaling::exponent;
use std::alloc::{AllocError, Global};
use std::marker::Model;

/// A row vector over one of the seven fields. It may have no entries. An entry is a polynomial modulo a prime, and a
/// row keeps the coefficients of 1, of x and of x^2 of its entries, each as a plane. Over a prime field an entry is its
/// coefficient of 1, and the row keeps one plane alone.
#[derive(Drop)]
pub struct Row {
    field: Field,
    constant: Plane,
    higher: Option<Box<Higher>>,
}

impl Model for Row {
    ghost use Rattle.std.specs.Prelude.{length};
    ghost use Rattle.axe_plane.specs.Planes.{digits_of};
    ghost use Rattle.axe_row.specs.HigherPlanes.{linear_of, quadratic_of, AreKeptPlanes};
    ghost use Rattle.axe_row.specs.Planes.{entries_of_digits};
    ghost use Rattle.axe_row.specs.Rows.{RowValue};

    ghost Value = { RowValue };

    ghost view = { λ a. record {
      order = a.field;
      entries = entries_of_digits a.field (digits_of a.constant) (digits_of (linear_of a.field a.higher))
          (digits_of (quadratic_of a.field a.higher));
    } };

    ghost invariant = { λ a. AreKeptPlanes a.field (length (digits_of a.constant)) a.constant a.higher };
}

impl Row {
    /// The row of `len` zeros.
    #[inline(always)]
    pub fn zero(alloc: Global, field: Field, len: usize) -> Result<Row, Refusal>
        ensures zeros { Answers None (λ row. row ≡ record { order = field; entries = replicate len 0 }) result }
        ensures well_formed { Answers None IsRow result }
    {
        let prime = field.prime();
        let constant = Plane::zero(alloc, prime, len)?;
        if field.degree() == 1 {
            return Ok(Row::of_plane(field, constant));
        }
        let linear = Plane::zero(alloc, prime, len);
        let quadratic = Plane::zero(alloc, prime, digits_in_plane(&field, 2, len));
        Row::of_planes(alloc, field, constant, linear, quadratic)
    }

    /// The unit vector of a length: 1 at an index, counted from 0, and 0 elsewhere.
    pub fn unit(alloc: Global, field: Field, len: usize, index: usize) -> Result<Row, Refusal>
        requires { index < len }
        ensures unit { Answers None (λ row. row ≡ record { order = field; entries = unit_row len index }) result }
        ensures well_formed { Answers None IsRow result }
    {
        let mut row = Row::zero(alloc, field, len)?;
        row.set(index, 1);
        Ok(row)
    }

    /// The row of these entries, each of which is the number of an element of the field.
    pub fn from_elements(alloc: Global, field: Field, elements: &[u8]) -> Result<Row, Refusal>
        requires { All (IsElement field) elements.now }
        ensures copied { Answers None (λ row. row ≡ record { order = field; entries = elements.now }) result }
        ensures well_formed { Answers None IsRow result }
    {
        let constant = plane_of(alloc, &field, elements, 0)?;
        if field.degree() == 1 {
            return Ok(Row::of_plane(field, constant));
        }
        let linear = plane_of(alloc, &field, elements, 1);
        let quadratic = plane_of(alloc, &field, elements, 2);
        Row::of_planes(alloc, field, constant, linear, quadratic)
    }

    /// The field of the entries.
    pub fn field(&self) -> &Field
        ensures order { result.now ≡ self.now.order }
        ensures well_formed { IsRow self.now }
    {
        &self.field
    }

    /// How many entries the row has.
    pub fn len(&self) -> usize
        ensures count { result ≡ length self.now.entries }
        ensures well_formed { IsRow self.now }
    {
        self.constant.len()
    }

    /// Whether the row has no entries.
    pub fn is_empty(&self) -> bool
        ensures { IsTrue result ↔ (length self.now.entries ≡ 0) }
    {
        self.len() == 0
    }

    /// The entry at an index, counted from 0.
    #[inline(always)]
    pub fn get(&self, index: usize) -> u8
        requires { index < length self.now.entries }
        ensures entry { result ≡ slice_index self.now.entries index }
        ensures element { IsElement self.now.order result }
    {
        if self.field.degree() == 1 {
            return self.constant.get(index);
        }
        self.get_by_planes(index)
    }

    /// The entry at an index, put together from its coefficients. It stands apart so that `get` is short over prime
    /// fields.
    #[inline(never)]
    fn get_by_planes(&self, index: usize) -> u8
        requires { index < length self.now.entries }
        ensures entry { result ≡ slice_index self.now.entries index }
        ensures element { IsElement self.now.order result }
        ensures well_formed { IsRow self.now }
    {
        let constant = self.constant.digit(index);
        let Some(higher) = &self.higher else {
            return constant;
        };
        let linear = higher.linear.digit(index);
        let quadratic = quadratic_at(&self.field, &higher.quadratic, index);
        element(&self.field, constant, linear, quadratic)
    }

    /// Makes an element the entry at an index; all other entries stay.
    #[inline]
    pub fn set(&mut self, index: usize, element: u8)
        requires index { index < length self.old.entries }
        requires element { IsElement self.old.order element }
        ensures replaced { self.new
            ≡ record { order = self.old.order; entries = slice_set self.old.entries index element } }
        ensures well_formed { IsRow self.new }
    {
        if self.field.degree() == 1 {
            self.constant.set(index, element);
        } else {
            self.set_by_planes(index, element);
        }
    }

    /// Makes an element the entry at an index by its coefficients; all other entries stay. It stands apart so that
    /// `set` is short over prime fields.
    #[inline(never)]
    fn set_by_planes(&mut self, index: usize, element: u8)
        requires index { index < length self.old.entries }
        requires element { IsElement self.old.order element }
        ensures replaced { self.new
            ≡ record { order = self.old.order; entries = slice_set self.old.entries index element } }
        ensures well_formed { IsRow self.new }
    {
        let matrix = self.field.plane_matrix(element);
        self.constant.set(index, matrix[0][0]);
        let Some(higher) = &mut self.higher else {
            return;
        };
        let Higher { linear, quadratic } = &mut **higher;
        linear.set(index, matrix[0][1]);
        quadratic.set(index, matrix[0][2]);
    }

    /// The same row a second time.
    #[inline(always)]
    pub fn copy(&self, alloc: Global) -> Result<Row, Refusal>
        ensures copied { Answers None (λ copy. copy ≡ self.now) result }
        ensures well_formed { Answers None IsRow result }
    {
        let constant = self.constant.copy(alloc)?;
        let Some(higher) = &self.higher else {
            return Ok(Row::of_plane(self.field, constant));
        };
        let linear = higher.linear.copy(alloc);
        let quadratic = higher.quadratic.copy(alloc);
        Row::of_planes(alloc, self.field, constant, linear, quadratic)
    }

    /// Adds a multiple of another row over the same field and of the same length: each entry d becomes d + c s, where c
    /// is the scalar and s the other row's entry.
    pub fn add_scaled(&mut self, scalar: u8, other: &Row)
        requires field { other.now.order ≡ self.old.order }
        requires fits { length other.now.entries ≡ length self.old.entries }
        requires element { IsElement self.old.order scalar }
        ensures sum { self.new ≡ row_with_multiple self.old scalar other.now }
        ensures as_long { length self.new.entries ≡ length self.old.entries }
        ensures well_formed { IsRow self.new }
    {
        if self.field.degree() == 1 {
            self.constant.add_scaled(scalar, &other.constant);
        } else {
            self.add_by_planes(0, scalar, other);
        }
    }

    /// Adds a multiple of another row, whose entries before an index are 0, as [`Row::add_scaled`] does: the entries
    /// before the index stay, and no word or byte before that of the index is looked at.
    #[inline]
    pub fn add_scaled_from(&mut self, start: usize, scalar: u8, other: &Row)
        requires within { start ≤ length self.old.entries }
        requires field { other.now.order ≡ self.old.order }
        requires fits { length other.now.entries ≡ length self.old.entries }
        requires element { IsElement self.old.order scalar }
        requires zeros { AreZerosBefore other.now.entries start }
        ensures sum { self.new ≡ row_with_multiple self.old scalar other.now }
        ensures as_long { length self.new.entries ≡ length self.old.entries }
        ensures well_formed { IsRow self.new }
    {
        let Some(_) = &other.higher else {
            self.constant
                .add_scaled_from(start, scalar, &other.constant);
            return;
        };
        self.add_by_planes(start, scalar, other);
    }

    /// Multiplies the row by an element: each entry d becomes c d, where c is the scalar.
    #[inline(always)]
    pub fn scale(&mut self, scalar: u8)
        requires { IsElement self.old.order scalar }
        ensures multiple { self.new ≡ multiple_row scalar self.old }
        ensures as_long { length self.new.entries ≡ length self.old.entries }
        ensures well_formed { IsRow self.new }
    {
        let vanishes = scalar == 0;
        if self.field.degree() == 1 {
            self.constant.scale(scalar);
        } else if vanishes {
            self.make_zero();
        } else {
            let exponent = exponent(&self.field, scalar);
            self.multiply_by_power(exponent);
        }
    }

    /// The dot product with another row over the same field and of the same length: the sum of the products of entries
    /// at one index.
    pub fn dot(&self, other: &Row) -> u8
        requires field { other.now.order ≡ self.now.order }
        requires fits { length other.now.entries ≡ length self.now.entries }
        ensures value { result ≡ dot_product (number_field self.now.order) self.now.entries other.now.entries }
        ensures element { IsElement self.now.order result }
    {
        if self.field.degree() == 1 {
            self.constant.dot(&other.constant)
        } else {
            self.dot_by_planes(other)
        }
    }

    /// The index of the first entry other than 0, counted from 0, or `None` where every entry is 0.
    #[inline(always)]
    pub fn first_nonzero(&self) -> Option<usize>
        ensures { MatchOption result (IsZeroVector self.now.entries) (IsFirstNonzero self.now.entries) }
    {
        let constant = self.constant.first_nonzero();
        let Some(higher) = &self.higher else {
            return constant;
        };
        let high = earlier(
            higher.linear.first_nonzero(),
            higher.quadratic.first_nonzero(),
        );
        earlier(constant, high)
    }

    /// Whether every entry is 0.
    pub fn is_zero(&self) -> bool
        ensures { IsTrue result ↔ IsZeroVector self.now.entries }
    {
        if !self.constant.is_zero() {
            return false;
        }
        let Some(higher) = &self.higher else {
            return true;
        };
        if !higher.linear.is_zero() {
            return false;
        }
        higher.quadratic.is_zero()
    }

    /// Whether two rows are equal: one field, one length, and the same entries.
    pub fn same(&self, other: &Row) -> bool
        ensures { IsTrue result ↔ (self.now ≡ other.now) }
    {
        if self.field != other.field {
            return false;
        }
        if !self.constant.same(&other.constant) {
            return false;
        }
        let Some(higher) = &self.higher else {
            return true;
        };
        let Some(others) = &other.higher else {
            unreachable!();
        };
        if !higher.linear.same(&others.linear) {
            return false;
        }
        higher.quadratic.same(&others.quadratic)
    }
}

impl Row {
    /// The row over a prime field with this plane of entries.
    fn of_plane(field: Field, constant: Plane) -> Row
        requires prime { degree_of field ≡ 1 }
        requires plane { IsPlaneOf (prime_of field) (length (digits_of constant)) constant }
        ensures entries { result ≡ record { order = field; entries = digits_of constant } }
        ensures well_formed { IsRow result }
    {
        Row {
            field,
            constant,
            higher: None,
        }
    }

    /// The row over a field that is not prime with these planes of coefficients, where there was memory for them. The
    /// planes of x and x^2 come as their making answered, so that a caller need not leave early.
    #[inline(always)]
    fn of_planes(
        alloc: Global,
        field: Field,
        constant: Plane,
        linear: Result<Plane, AllocError>,
        quadratic: Result<Plane, AllocError>,
    ) -> Result<Row, Refusal>
        requires degree { degree_of field ≢ 1 }
        requires planes { IfMade linear quadratic (ArePlanes field (length (digits_of constant)) constant) }
        ensures entries { AnswersMade linear quadratic (row_of_planes field constant) result }
        ensures well_formed { Answers None IsRow result }
    {
        let (Ok(linear), Ok(quadratic)) = (linear, quadratic) else {
            return Err(Refusal::Memory);
        };
        let higher = Box::new(alloc, Higher { linear, quadratic })?;
        Ok(Row {
            field,
            constant,
            higher: Some(higher),
        })
    }

    /// Adds a multiple of another row, whose entries before an index are 0, plane by plane.
    fn add_by_planes(&mut self, start: usize, scalar: u8, other: &Row)
        requires within { start ≤ length self.old.entries }
        requires field { other.now.order ≡ self.old.order }
        requires fits { length other.now.entries ≡ length self.old.entries }
        requires element { IsElement self.old.order scalar }
        requires zeros { AreZerosBefore other.now.entries start }
        ensures sum { self.new ≡ row_with_multiple self.old scalar other.now }
        ensures well_formed { IsRow self.new }
    {
        let Some(others) = &other.higher else {
            self.constant
                .add_scaled_from(start, scalar, &other.constant);
            return;
        };
        let Some(higher) = &mut self.higher else {
            unreachable!();
        };
        let (field, constant) = (&self.field, &mut self.constant);
        add_planes(
            field,
            start,
            scalar,
            constant,
            higher,
            &other.constant,
            others,
        );
    }
}
