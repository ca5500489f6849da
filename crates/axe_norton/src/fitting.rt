//! Polynomials that fit the values of words.

ghost use Rattle.std.specs.Prelude.{◌≡◌, ◌≤◌, ◌↔◌, IsTrue, None};
ghost use Rattle.axe_polynomial_algebra.specs.PolynomialsOfLists.{degree_of, IsIrreduciblePolynomial};
ghost use Rattle.axe_field.specs.NumberFields.{number_field};
ghost use Rattle.axe_row.specs.Refusals.{Answers};
ghost use Rattle.axe_poly.specs.Limits.{greatest_degree};
ghost use Rattle.axe_word.specs.Words.{IsWordIn};
ghost use Rattle.axe_norton.specs.OneVector.{FitsWord};
ghost use Rattle.axe_norton.specs.Searches.{FindsFitsWord};

use axe_matrix::Refusal;
use axe_poly::{Poly, factors_up_to};
use axe_spin::Module;
use axe_word::{Tested, Word};
use std::alloc::Global;

/// Whether a polynomial p over a module's field, of at most the greatest degree, is irreducible and fits the value x of a
/// word of the module: whether the degree of p is the dimension of the null space of p(x). That is what
/// [`crate::decide_poly`] requires.
pub fn fits(alloc: Global, module: &Module, word: &Word, poly: &Poly) -> Result<bool, Refusal>
    requires word { IsWordIn «module».now word.now }
    requires field { poly.now.order ≡ «module».now.order }
    requires small { degree_of poly.now.coefficients ≤ greatest_degree «module».now.order }
    ensures { Answers None (λ fits. IsTrue fits ↔ FitsWord «module».now word.now poly.now) result }
{
    Ok(tested_where_word_fits(alloc, module, word, poly)?.is_some())
}

/// The value p(x) of a polynomial p at the value x of a word, with its null space, where p is irreducible and fits x.
pub(crate) fn tested_where_word_fits(
    alloc: Global,
    module: &Module,
    word: &Word,
    poly: &Poly,
) -> Result<Option<Tested>, Refusal>
    requires word { IsWordIn «module».now word.now }
    requires field { poly.now.order ≡ «module».now.order }
    requires small { degree_of poly.now.coefficients ≤ greatest_degree «module».now.order }
    ensures { Answers None (FindsFitsWord «module».now word.now poly.now) result }
{
    if !is_irreducible(alloc, poly)? {
        return Ok(None);
    }
    let tested = word.tested_by_poly(alloc, module, poly)?;
    if tested.null_space.rows() == poly.degree() {
        Ok(Some(tested))
    } else {
        Ok(None)
    }
}

/// Whether a polynomial of at most the greatest degree is irreducible: whether it has no irreducible divisor of at most
/// half its degree.
fn is_irreducible(alloc: Global, poly: &Poly) -> Result<bool, Refusal>
    requires { degree_of poly.now.coefficients ≤ greatest_degree poly.now.order }
    ensures { Answers None (λ is. IsTrue is
        ↔ IsIrreduciblePolynomial (number_field poly.now.order) poly.now.coefficients) result }
{
    let half = poly.degree() / 2;
    if half == 0 {
        return Ok(true);
    }
    let factors = factors_up_to(alloc, poly, half)?;
    Ok(factors.is_empty())
}
