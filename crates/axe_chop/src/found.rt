//! What is found of a composition series.

ghost use Rattle.std.specs.Prelude.{◌≡◌, ℕ, ◌+◌, ◌≤◌, [], length, All, None};
ghost use Rattle.axe_row.specs.Refusals.{Answers};
ghost use Rattle.axe_matrix.specs.Limits.{most_rows};
ghost use Rattle.axe_matrix.specs.Matrices.{IsMatrix};
ghost use Rattle.axe_norton.specs.Verdicts.{Decides};
ghost use Rattle.axe_norton.specs.declared.verdicts.Verdict.TheVariants.{Irreducible};
ghost use Rattle.axe_iso.specs.Forms.{FormValue};
ghost use Rattle.axe_series.specs.Sections.{lifted_rows};
ghost use Rattle.axe_series.specs.Runs.{with_place, AreOfOthers, IsKnownAs};
ghost use Rattle.axe_chop.specs.Stages.{IsActionLike};
ghost use Rattle.axe_chop.specs.Searches.{FindsKnown, IsPlacedIn, found_value};

use crate::section::{Section, Witness};
use axe_iso::{Form, matches};
use axe_matrix::{Matrix, Refusal};
use axe_spin::Module;
use std::alloc::Global;

/// What is found so far: the rows of the basis, the forms of the factors in order of first appearance, and for each
/// place of the series, from the bottom, the number of its factor.
#[derive(Drop)]
pub(crate) struct Found {
    pub(crate) basis: Matrix,
    pub(crate) forms: Vec<Form>,
    pub(crate) places: Vec<u16>,
}

impl Found {
    /// Nothing of a module is found.
    pub(crate) fn nothing(alloc: Global, module: &Module) -> Found
        ensures basis { result.basis ≡ record { order = «module».now.order; cols = «module».now.dim; rows = [] } }
        ensures forms { result.forms.items ≡ [] }
        ensures places { result.places.items ≡ [] }
        ensures well_formed { IsMatrix result.basis }
    {
        Found {
            basis: Matrix::empty(alloc, *module.field(), module.dim()),
            forms: Vec::new(alloc),
            places: Vec::new(alloc),
        }
    }

    /// The rows of the basis.
    pub(crate) fn into_basis(self) -> Matrix
        ensures { result ≡ self.basis }
    {
        self.basis
    }

    /// One more place, for a section that a seed showed to be irreducible, by the witness: that of the first known
    /// factor that the section's action is isomorphic to, or else of a new factor.
    fn place(
        &mut self,
        alloc: Global,
        section: Section,
        seed: u64,
        witness: &Witness,
    ) -> Result<(), Refusal>
        requires decided { (words : ℕ) × Decides section.action seed words
            (Irreducible witness.now.word witness.now.poly witness.now.vector) }
        requires like { All (λ (form : FormValue). IsActionLike section.action form.matrices) self.old.forms.items }
        requires field { self.old.basis.order ≡ section.rows.order }
        requires fits { self.old.basis.cols ≡ section.rows.cols }
        requires room { length self.old.basis.rows + section.action.dim ≤ most_rows }
        requires few_forms { length self.old.forms.items ≤ length self.old.basis.rows }
        ensures placed { Answers None
            (λ _. IsPlacedIn (found_value self.old) section.entry seed
            witness.now.word witness.now.poly witness.now.vector (found_value self.new)) result }
        ensures basis { Answers None
            (λ _. self.new.basis ≡ record self.old.basis { rows = self.new.basis.rows }) result }
        ensures well_formed { Answers None (λ _. IsMatrix self.new.basis) result }
    {
        match known_form(alloc, &self.forms, section.action())? {
            Some((number, isomorphism)) => self.place_known(alloc, section, number, isomorphism),
            None => self.place_new(alloc, section, seed, witness),
        }
    }

    /// What [`Found::place`] does for a witness that is given away.
    pub(crate) fn place_owned(
        &mut self,
        alloc: Global,
        section: Section,
        seed: u64,
        witness: Witness,
    ) -> Result<(), Refusal>
        requires decided { (words : ℕ) × Decides section.action seed words
            (Irreducible witness.word witness.poly witness.vector) }
        requires like { All (λ (form : FormValue). IsActionLike section.action form.matrices) self.old.forms.items }
        requires field { self.old.basis.order ≡ section.rows.order }
        requires fits { self.old.basis.cols ≡ section.rows.cols }
        requires room { length self.old.basis.rows + section.action.dim ≤ most_rows }
        requires few_forms { length self.old.forms.items ≤ length self.old.basis.rows }
        ensures placed { Answers None
            (λ _. IsPlacedIn (found_value self.old) section.entry seed
            witness.word witness.poly witness.vector (found_value self.new)) result }
        ensures basis { Answers None
            (λ _. self.new.basis ≡ record self.old.basis { rows = self.new.basis.rows }) result }
        ensures well_formed { Answers None (λ _. IsMatrix self.new.basis) result }
    {
        self.place(alloc, section, seed, &witness)
    }

    /// One more place as [`Found::place`] tells it, for a section whose action is isomorphic to a known factor: that of
    /// the factor with this number, by the isomorphism to it.
    fn place_known(
        &mut self,
        alloc: Global,
        section: Section,
        number: usize,
        isomorphism: Matrix,
    ) -> Result<(), Refusal>
        requires known { IsKnownAs self.old.forms.items section.action number isomorphism }
        requires field { self.old.basis.order ≡ section.rows.order }
        requires fits { self.old.basis.cols ≡ section.rows.cols }
        requires room { length self.old.basis.rows + section.action.dim ≤ most_rows }
        requires few_forms { length self.old.forms.items ≤ length self.old.basis.rows }
        ensures placed { Answers None (λ _. found_value self.new
            ≡ with_place (found_value self.old) (lifted_rows section.entry isomorphism).rows number) result }
        ensures basis { Answers None
            (λ _. self.new.basis ≡ record self.old.basis { rows = self.new.basis.rows }) result }
        ensures well_formed { Answers None (λ _. IsMatrix self.new.basis) result }
    {
        let rows = section.lift(alloc, isomorphism)?;
        self.append_place(rows, number)
    }

    /// One more place as [`Found::place`] tells it, for a section whose action is isomorphic to no known factor: that
    /// of a new factor.
    fn place_new(
        &mut self,
        alloc: Global,
        section: Section,
        seed: u64,
        witness: &Witness,
    ) -> Result<(), Refusal>
        requires decided { (words : ℕ) × Decides section.action seed words
            (Irreducible witness.now.word witness.now.poly witness.now.vector) }
        requires others { AreOfOthers self.old.forms.items section.action }
        requires field { self.old.basis.order ≡ section.rows.order }
        requires fits { self.old.basis.cols ≡ section.rows.cols }
        requires room { length self.old.basis.rows + section.action.dim ≤ most_rows }
        requires few_forms { length self.old.forms.items ≤ length self.old.basis.rows }
        ensures placed { Answers None
            (λ _. IsPlacedIn (found_value self.old) section.entry seed
            witness.now.word witness.now.poly witness.now.vector (found_value self.new)) result }
        ensures basis { Answers None
            (λ _. self.new.basis ≡ record self.old.basis { rows = self.new.basis.rows }) result }
        ensures well_formed { Answers None (λ _. IsMatrix self.new.basis) result }
    {
        let (form, rows) = section.into_form(alloc, seed, witness)?;
        let number = self.forms.len();
        self.append_place(rows, number)?;
        self.forms.push(form)?;
        Ok(())
    }

    /// One more place, of the factor with a number: these rows come after those so far.
    fn append_place(&mut self, rows: Matrix, number: usize) -> Result<(), Refusal>
        requires field { rows.order ≡ self.old.basis.order }
        requires fits { rows.cols ≡ self.old.basis.cols }
        requires room { length self.old.basis.rows + length rows.rows ≤ most_rows }
        requires number { number ≤ length self.old.basis.rows }
        ensures placed { Answers None
            (λ _. found_value self.new ≡ with_place (found_value self.old) rows.rows number) result }
        ensures basis { Answers None
            (λ _. self.new.basis ≡ record self.old.basis { rows = self.new.basis.rows }) result }
        ensures well_formed { Answers None (λ _. IsMatrix self.new.basis) result }
    {
        self.basis.append_matrix(rows)?;
        self.places.push(number as u16)?;
        Ok(())
    }
}

/// The first of some forms that is one of a module, by its number, with the isomorphism that it gives; `None` where the
/// module is isomorphic to none of their factors.
fn known_form(
    alloc: Global,
    forms: &[Form],
    action: &Module,
) -> Result<Option<(usize, Matrix)>, Refusal>
    requires like { All (λ (form : FormValue). IsActionLike action.now form.matrices) forms.now }
    ensures { Answers None (FindsKnown forms.now action.now) result }
{
    for number in 0..forms.len() {
        if let Some(isomorphism) = matches(alloc, &forms[number], action)? {
            return Ok(Some((number, isomorphism)));
        }
    }
    Ok(None)
}
