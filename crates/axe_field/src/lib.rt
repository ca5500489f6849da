//! The seven finite fields of order 2, 3, 4, 5, 7, 8 and 9.
//!
//! The elements of the field of order p^n are the polynomials of degree below n over the integers modulo the prime p;
//! sums and products are taken modulo the Conway polynomial of the field. The element `a0 + a1 x + a2 x^2` is passed as
//! its number `a0 + a1 p + a2 p^2`, a `u8` below the order.
#![tactic(auto)]

ghost use Rattle.std.specs.Cmp.{partial_equiv_from_equiv};
ghost use Rattle.std.specs.Ordering.{on};
ghost use Rattle.std.specs.Prelude.{◌≡◌, ◌≢◌, ℕ, ◌↔◌, ◌^◌, ◌<◌, ◌≤◌, ◌+◌, ◌%◌, nat_eq, slice_index, IfOk, OnErr, IsTrue};
ghost use Rattle.std.proofs.lemmas.Cmp.{nat_eq_equiv, on_equiv};
ghost use Rattle.axe_field.specs.Order.{Order, order_number, prime_of, degree_of, conway, IsElement};
ghost use Rattle.axe_field.specs.Arithmetic.{polynomial_of, polynomial_product, IsRemainder, field_add, field_neg};
ghost use Rattle.axe_field.specs.Arithmetic.{field_mul, field_inv};
ghost use Rattle.axe_field.specs.Forms.{prime_order};
ghost use Rattle.axe_field.specs.NumberFields.{number_field};
ghost use Rattle.axe_field.specs.Planes.{matrix_of_multiplication, coefficient, element_of, coefficient_by_matrix};

pub use forms::ProductTerm;
use std::fmt;
use std::marker::Model;
use tables::Tables;

mod forms;
mod tables;

/// One of the seven fields. Its value is three bytes; the tables of its operations are constants.
#[derive(Clone, Copy)]
pub struct Field {
    order: u8,
    prime: u8,
    degree: u8,
}

impl Model for Field {
    ghost use Rattle.std.specs.Prelude.{◌≡◌};
    ghost use Rattle.axe_field.specs.Order.{Order};

    ghost Value = { Order };

    ghost use Rattle.std.proofs.Common.{sym};
    ghost use Rattle.axe_field.specs.Tables.{order_with, inside_of};

    ghost view = { λ a. order_with a.order };

    ghost invariant = { λ a. a ≡ inside_of (order_with a.order) };

    ghost inverse = { inside_of };

    ghost inverse_ok = { λ a h. sym h };
}

/// Two fields are the same where their orders are.
impl PartialEq for Field {
    ghost eq = { on order_number nat_eq };

    ghost laws = { partial_equiv_from_equiv (on_equiv order_number nat_eq_equiv) };

    fn eq(&self, other: &Field) -> bool
        ensures value { result ≡ nat_eq (order_number self.now) (order_number other.now) }
        ensures same { IsTrue result ↔ (self.now ≡ other.now) }
    {
        other.order == self.order
    }
}

impl Eq for Field {
    ghost laws = { on_equiv order_number nat_eq_equiv };
}

impl fmt::Debug for Field {
    fn fmt<W: fmt::Write>(&self, f: &mut fmt::Formatter<W>) -> fmt::Result {
        write!(f, "Field({})", self.order)
    }
}

/// There is no field of this order here.
#[derive(Debug, Clone, Copy, PartialEq, Eq, thiserror::Error)]
#[error("no field of this order")]
pub struct BadField;

impl Field {
    ghost use Rattle.axe_field.specs.Tables.{tables_of};

    /// The tables of the field's operations.
    fn tables(&self) -> &'static Tables
        ensures { result.now ≡ tables_of self.now }
    {
        match self.order {
            2 => tables::two(),
            3 => tables::three(),
            4 => tables::four(),
            5 => tables::five(),
            7 => tables::seven(),
            8 => tables::eight(),
            _ => tables::nine(),
        }
    }
}

impl Field {
    /// The field of an order: 2, 3, 4, 5, 7, 8 or 9.
    pub fn new(order: u8) -> Result<Field, BadField>
        ensures ok { IfOk result (λ o. order_number o ≡ order) }
        ensures err { OnErr result ((o : Order) → order_number o ≢ order) }
    {
        let (prime, degree) = match order {
            2 => (2, 1),
            3 => (3, 1),
            4 => (2, 2),
            5 => (5, 1),
            7 => (7, 1),
            8 => (2, 3),
            9 => (3, 2),
            _ => return Err(BadField),
        };
        Ok(Field {
            order,
            prime,
            degree,
        })
    }

    /// How many elements the field has.
    pub fn order(&self) -> u8
        ensures value { result ≡ order_number self.now }
        ensures at_least_two { 2 ≤ result }
        ensures at_most_nine { result ≤ 9 }
    {
        self.order
    }

    /// The prime that the order is a power of.
    pub fn prime(&self) -> u8
        ensures { result ≡ prime_of self.now }
    {
        self.prime
    }

    /// The exponent of the prime in the order.
    pub fn degree(&self) -> u8
        ensures { result ≡ degree_of self.now }
    {
        self.degree
    }

    /// Whether a number is that of an element.
    pub fn is_element(&self, element: u8) -> bool
        ensures { IsTrue result ↔ (element < order_number self.now) }
    {
        element < self.order
    }

    /// The sum of two elements.
    pub fn add(&self, left: u8, right: u8) -> u8
        requires left { left < order_number self.now }
        requires right { right < order_number self.now }
        ensures value { result ≡ field_add self.now left right }
        ensures element { result < order_number self.now }
    {
        self.tables().sums[usize::from(left)][usize::from(right)]
    }

    /// The element whose sum with this one is 0.
    pub fn neg(&self, element: u8) -> u8
        requires { element < order_number self.now }
        ensures value { result ≡ field_neg self.now element }
        ensures sum { field_add self.now element result ≡ 0 }
        ensures element { result < order_number self.now }
    {
        self.tables().negatives[usize::from(element)]
    }

    /// The negatives of the elements, by their numbers, so that a loop looks a table up once.
    #[inline]
    pub fn negatives(&self) -> &'static [u8; 9]
        ensures values { (a : ℕ) → IsElement self.now a → slice_index result.now a ≡ field_neg self.now a }
        ensures elements { (a : ℕ) → IsElement self.now a → IsElement self.now (slice_index result.now a) }
        ensures at_most_nine { order_number self.now ≤ 9 }
    {
        &self.tables().negatives
    }

    /// The product of two elements.
    pub fn mul(&self, left: u8, right: u8) -> u8
        requires left { left < order_number self.now }
        requires right { right < order_number self.now }
        ensures value { result ≡ field_mul self.now left right }
        ensures element { result < order_number self.now }
    {
        self.tables().products[usize::from(left)][usize::from(right)]
    }

    /// The inverse of an element other than 0.
    pub fn inv(&self, element: u8) -> u8
        requires element { element < order_number self.now }
        requires nonzero { element ≢ 0 }
        ensures value { result ≡ field_inv self.now element }
        ensures inverse { field_mul self.now element result ≡ 1 }
        ensures element { result < order_number self.now }
    {
        self.tables().inverses[usize::from(element)]
    }

    /// The matrix of the multiplication by an element on coefficients: row i, for i below the degree, has the
    /// coefficients of the element times x^i, the constant one first; all else is 0.
    pub fn plane_matrix(&self, element: u8) -> [[u8; 3]; 3]
        requires { element < order_number self.now }
        ensures value { result ≡ matrix_of_multiplication self.now element }
    {
        self.tables().matrices[usize::from(element)]
    }
}

/// The order of each field is the power of its prime that its degree says.
pub fn orders_are_prime_powers()
    ensures { (o : Order) → prime_of o ^ degree_of o ≡ order_number o }
{}

/// The product of two elements is the remainder of the product of their polynomials by the Conway polynomial.
pub fn products_are_remainders()
    ensures { (o : Order) (a b : ℕ) → IsElement o a → IsElement o b →
        let product = polynomial_product (prime_of o) (polynomial_of o a) (polynomial_of o b) in
        IsRemainder (prime_of o) product (conway o) (polynomial_of o (field_mul o a b)) }
{}

/// The elements of each order are a commutative group under their sums.
pub fn elements_add_as_a_group()
    ensures closed { (o : Order) (a b : ℕ) → IsElement o a → IsElement o b →
        IsElement o (field_add o a b) }
    ensures commutative { (o : Order) (a b : ℕ) → IsElement o a → IsElement o b →
        field_add o a b ≡ field_add o b a }
    ensures associative { (o : Order) (a b c : ℕ) → IsElement o a → IsElement o b → IsElement o c →
        field_add o (field_add o a b) c ≡ field_add o a (field_add o b c) }
    ensures zero { (o : Order) (a : ℕ) → IsElement o a → field_add o a 0 ≡ a }
    ensures negative_is_element { (o : Order) (a : ℕ) → IsElement o a → IsElement o (field_neg o a) }
    ensures negative { (o : Order) (a : ℕ) → IsElement o a → field_add o a (field_neg o a) ≡ 0 }
{}

/// The elements of each order other than 0 are a commutative group under their products, which distribute over sums.
pub fn nonzero_elements_multiply_as_a_group()
    ensures closed { (o : Order) (a b : ℕ) → IsElement o a → IsElement o b →
        IsElement o (field_mul o a b) }
    ensures commutative { (o : Order) (a b : ℕ) → IsElement o a → IsElement o b →
        field_mul o a b ≡ field_mul o b a }
    ensures associative { (o : Order) (a b c : ℕ) → IsElement o a → IsElement o b → IsElement o c →
        field_mul o (field_mul o a b) c ≡ field_mul o a (field_mul o b c) }
    ensures one { (o : Order) (a : ℕ) → IsElement o a → field_mul o a 1 ≡ a }
    ensures inverse_is_element { (o : Order) (a : ℕ) → IsElement o a → IsElement o (field_inv o a) }
    ensures inverse { (o : Order) (a : ℕ) → IsElement o a → a ≢ 0 → field_mul o a (field_inv o a) ≡ 1 }
    ensures distributive { (o : Order) (a b c : ℕ) → IsElement o a → IsElement o b → IsElement o c →
        field_mul o a (field_add o b c) ≡ field_add o (field_mul o a b) (field_mul o a c) }
{}

/// The fields that the theory of linear algebra speaks of have these elements and operations.
pub fn number_fields_have_these_operations()
    ensures order { (o : Order) → (number_field o).order ≡ order_number o }
    ensures sum { (o : Order) (a b : ℕ) → (number_field o).add a b ≡ field_add o a b }
    ensures negative { (o : Order) (a : ℕ) → (number_field o).neg a ≡ field_neg o a }
    ensures product { (o : Order) (a b : ℕ) → (number_field o).mul a b ≡ field_mul o a b }
    ensures inverse { (o : Order) (a : ℕ) → (number_field o).inv a ≡ field_inv o a }
{}

/// Sums are taken coefficient by coefficient modulo the prime, and the matrix of the multiplication by an element makes
/// the coefficients of a product of those of the other factor.
pub fn coefficients_add_and_multiply()
    ensures element { (o : Order) (a : ℕ) → IsElement o a →
        element_of o (coefficient o a 0) (coefficient o a 1) (coefficient o a 2) ≡ a }
    ensures sum { (o : Order) (a b j : ℕ) → IsElement o a → IsElement o b → j < 3 →
        coefficient o (field_add o a b) j ≡ (coefficient o a j + coefficient o b j) % prime_of o }
    ensures product { (o : Order) (c a j : ℕ) → IsElement o c → IsElement o a → j < 3 →
        coefficient o (field_mul o c a) j ≡ coefficient_by_matrix o (matrix_of_multiplication o c) a j }
{}

/// The elements of the prime field are elements of the field, by the same numbers, and have the same sums and products
/// there.
pub fn prime_field_is_inside()
    ensures element { (o : Order) (a : ℕ) → IsElement (prime_order o) a → IsElement o a }
    ensures sum { (o : Order) (a b : ℕ) → IsElement (prime_order o) a → IsElement (prime_order o) b →
        field_add o a b ≡ field_add (prime_order o) a b }
    ensures product { (o : Order) (a b : ℕ) → IsElement (prime_order o) a → IsElement (prime_order o) b →
        field_mul o a b ≡ field_mul (prime_order o) a b }
{}
