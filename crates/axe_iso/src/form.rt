//! Standard forms.

ghost use Rattle.std.specs.Prelude.{◌≡◌, None, IfOk, option_copied};
ghost use Rattle.axe_algebra.specs.ModulesOfLists.{GeneratesEverything};
ghost use Rattle.axe_field.specs.NumberFields.{number_field};
ghost use Rattle.axe_row.specs.Refusals.{Answers};
ghost use Rattle.axe_matrix.specs.Matrices.{IsMatrix};
ghost use Rattle.axe_spin.specs.Spinning.{IsStandardMatrix};
ghost use Rattle.axe_spin.specs.SpinLaws.{IsVectorOf};
ghost use Rattle.axe_iso.specs.Forms.{IsForm, IsFormFrom, IsNullVectorOf, HasSmallNullSpaceOf};

use axe_action::{basis_action, change_standard_basis};
use axe_matrix::{Matrix, Refusal, Row};
use axe_poly::Poly;
use axe_spin::{Module, standard_basis, standard_basis_with_origins};
use std::alloc::Global;
use std::marker::Model;

/// The standard form of a module from a null vector of its deciding matrix, which is the value x of a word, or p(x) for
/// a polynomial p: the standard matrices of that vector, as a module. They are the standard matrices of their own first
/// unit vector, which is a null vector of the deciding matrix in them. The null space of that matrix is small: it has
/// few points, or, where there is a p, p is irreducible of small degree, which is the dimension of that null space.
#[derive(Drop)]
pub struct Form {
    matrices: Module,
    basis: Matrix,
    word: u32,
    poly: Option<Poly>,
    seed: u64,
}

impl Model for Form {
    ghost use Rattle.axe_iso.specs.Forms.{FormValue, IsForm};

    ghost Value = { FormValue };

    ghost view = { λ a.
        record { matrices = a.matrices; basis = a.basis; word = a.word; poly = a.poly; seed = a.seed } };

    ghost invariant = { λ a. IsForm
        (record { matrices = a.matrices; basis = a.basis; word = a.word; poly = a.poly; seed = a.seed }) };
}

impl Form {
    /// The standard matrices, as a module.
    pub fn matrices(&self) -> &Module
        ensures value { result.now ≡ self.now.matrices }
        ensures well_formed { IsForm self.now }
    {
        &self.matrices
    }

    /// The standard basis of the vector, in the module that the form is of.
    pub fn basis(&self) -> &Matrix
        ensures value { result.now ≡ self.now.basis }
        ensures well_formed { IsForm self.now }
    {
        &self.basis
    }

    /// The form with these parts.
    fn of_parts(matrices: Module, basis: Matrix, word: u32, poly: Option<Poly>, seed: u64) -> Form
        requires { IsForm (record { matrices = matrices; basis = basis; word = word; poly = poly; seed = seed }) }
        ensures { result ≡ record { matrices = matrices; basis = basis; word = word; poly = poly; seed = seed } }
    {
        Form {
            matrices,
            basis,
            word,
            poly,
            seed,
        }
    }

    /// The number of the word.
    pub fn word(&self) -> u32
        ensures value { result ≡ self.now.word }
        ensures well_formed { IsForm self.now }
    {
        self.word
    }

    /// The polynomial p, where the deciding matrix is p(x) at the word's value x.
    pub fn poly(&self) -> Option<&Poly>
        ensures value { option_copied result ≡ self.now.poly }
        ensures well_formed { IsForm self.now }
    {
        self.poly.as_ref()
    }

    /// The seed of the word.
    pub fn seed(&self) -> u64
        ensures value { result ≡ self.now.seed }
        ensures well_formed { IsForm self.now }
    {
        self.seed
    }
}

/// The standard form of a module from a vector that generates everything and is a null vector of the deciding matrix,
/// whose null space is small. That matrix is the value x of the word with this seed and number, or p(x) where a
/// polynomial p is handed in; the form keeps a copy of that.
pub fn form_of(
    alloc: Global,
    module: &Module,
    seed: u64,
    word: u32,
    poly: Option<&Poly>,
    vector: &Row,
) -> Result<Form, Refusal>
    requires vector { IsVectorOf «module».now vector.now }
    requires null { IsNullVectorOf «module».now seed word (option_copied poly) vector.now.entries }
    requires generates { GeneratesEverything (number_field «module».now.order) «module».now.dim
        «module».now.generators vector.now.entries }
    requires small { HasSmallNullSpaceOf «module».now seed word (option_copied poly) }
    ensures form { Answers None (IsFormFrom «module».now seed word (option_copied poly.entry) vector.now) result }
    ensures well_formed { IfOk result IsForm }
{
    prove!(vector.len() == module.dim());
    let basis = standard_basis(alloc, module, vector)?;
    form_by_basis(alloc, module, seed, word, poly, vector, basis)
}

/// The standard form of a module from a vector as [`form_of`] takes it, by the standard basis of the vector.
pub(crate) fn form_by_basis(
    alloc: Global,
    module: &Module,
    seed: u64,
    word: u32,
    poly: Option<&Poly>,
    vector: &Row,
    basis: Matrix,
) -> Result<Form, Refusal>
    requires vector { IsVectorOf «module».now vector.now }
    requires null { IsNullVectorOf «module».now seed word (option_copied poly) vector.now.entries }
    requires generates { GeneratesEverything (number_field «module».now.order) «module».now.dim
        «module».now.generators vector.now.entries }
    requires small { HasSmallNullSpaceOf «module».now seed word (option_copied poly) }
    requires basis { IsStandardMatrix «module».now vector.now basis }
    requires well_formed { IsMatrix basis }
    ensures form { Answers None (IsFormFrom «module».now seed word (option_copied poly.entry) vector.now) result }
    ensures well_formed { IfOk result IsForm }
{
    prove!(vector.len() == module.dim());
    let poly = copy_of(alloc, poly)?;
    let matrices = basis_action(alloc, module, &basis)?;
    Ok(Form::of_parts(matrices, basis, word, poly, seed))
}

/// The standard form of a module as [`form_of`] gives it, for a module that is given away: it is taken apart, so that
/// each of its generators is gone before the standard matrix that comes in its place is made. No clause says when they
/// are gone.
pub fn form_of_owned(
    alloc: Global,
    module: Module,
    seed: u64,
    word: u32,
    poly: Option<&Poly>,
    vector: &Row,
) -> Result<Form, Refusal>
    requires vector { IsVectorOf «module» vector.now }
    requires null { IsNullVectorOf «module» seed word (option_copied poly) vector.now.entries }
    requires generates { GeneratesEverything (number_field «module».order) «module».dim «module».generators
        vector.now.entries }
    requires small { HasSmallNullSpaceOf «module» seed word (option_copied poly) }
    ensures form { Answers None (IsFormFrom «module» seed word (option_copied poly.entry) vector.now) result }
    ensures well_formed { IfOk result IsForm }
{
    prove!(vector.len() == module.dim());
    let poly = copy_of(alloc, poly)?;
    let (basis, origins) = standard_basis_with_origins(alloc, &module, vector)?;
    let matrices = change_standard_basis(alloc, module, &basis, &origins)?;
    Ok(Form::of_parts(matrices, basis, word, poly, seed))
}

/// A polynomial a second time, where there is one.
fn copy_of(alloc: Global, poly: Option<&Poly>) -> Result<Option<Poly>, Refusal>
    ensures { Answers None (λ copy. copy ≡ option_copied poly.entry) result }
{
    match poly {
        None => Ok(None),
        Some(poly) => Ok(Some(poly.copy(alloc)?)),
    }
}
