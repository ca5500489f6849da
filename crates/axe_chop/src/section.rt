//! Sections of a module while its composition series is looked for.

ghost use Rattle.std.specs.Prelude.{◌≡◌, ◌↔◌, ℕ, ◌+◌, ◌-◌, ◌≤◌, ◌++◌, length, slice_get, Some, None, IsTrue, IfOk};
ghost use Rattle.axe_row.specs.Refusals.{Answers};
ghost use Rattle.axe_matrix.specs.Limits.{most_rows};
ghost use Rattle.axe_matrix.specs.Matrices.{IsMatrix};
ghost use Rattle.axe_spin.specs.Modules.{IsModule};
ghost use Rattle.axe_action.specs.Actions.{IsBasisAction, IsActionModulo};
ghost use Rattle.axe_action.specs.FreeColumns.{AreFreeColumns, rows_to_span};
ghost use Rattle.axe_norton.specs.Spaces.{IsProperSubmodule};
ghost use Rattle.axe_norton.specs.Verdicts.{last_word, Decides, IsTrueVerdict};
ghost use Rattle.axe_norton.specs.declared.verdicts.Verdict.TheVariants.{Irreducible, Reducible};
ghost use Rattle.axe_iso.specs.Forms.{IsForm, IsFormFrom};
ghost use Rattle.axe_series.specs.Sections.{whole_section, lifted_rows, IsCut};
ghost use Rattle.axe_chop.specs.Stages.{IsSection, IsRowsLike};
ghost use Rattle.axe_chop.specs.Kept.{acting_module};

use crate::lifted::LiftedRows;
use axe_action::{Split, split_by_submodule};
use axe_iso::{Form, form_of, form_of_owned};
use axe_matrix::{Matrix, Refusal, Row};
use axe_norton::{Known, Verdict, decide_knowing};
use axe_poly::{Irreducibles, Poly};
use axe_spin::Module;
use std::alloc::Global;
use std::marker::Model;

/// A section of a module: the action on it, and its lifted rows, the vectors of the module whose cosets are the basis
/// to which that action belongs.
#[derive(Drop)]
pub(crate) struct Section<'a> {
    action: Action<'a>,
    rows: LiftedRows,
    /// The seed for whose words something is known.
    seed: u64,
    /// What is known of the action for that seed.
    known: Known,
}

/// By what a seed showed a section to be irreducible: the number of the word, the polynomial p that did so at the
/// word's value x, where one did, and the first point of the null space of p(x), or of x where there is no p.
#[derive(Drop)]
pub(crate) struct Witness {
    pub(crate) word: u32,
    pub(crate) poly: Option<Poly>,
    pub(crate) vector: Row,
}

/// The module that acts on a section.
#[derive(Drop)]
pub(crate) enum Action<'a> {
    /// A module that is lent.
    Lent(&'a Module),
    /// A module of its own.
    Owned(Module),
}

impl<'a> Model for Section<'a> {
    ghost use Rattle.axe_series.specs.Sections.{SectionValue};
    ghost use Rattle.axe_chop.specs.Kept.{kept_section, IsKeptSection};

    ghost Value = { SectionValue };

    ghost view = { λ a. kept_section a.action a.rows };

    ghost invariant = { λ a. IsKeptSection a.action a.rows a.seed a.known };
}

impl<'a> Section<'a> {
    /// A module as its own section, with the unit vectors. Nothing is known of it for a seed.
    pub(crate) fn whole(alloc: Global, action: Action<'a>, seed: u64) -> Section<'a>
        ensures whole { result ≡ whole_section (acting_module action.entry) }
        ensures well_formed { IsSection result }
    {
        let module = action.module();
        let rows = LiftedRows::identity(*module.field(), module.dim());
        let known = Known::nothing(alloc);
        Section {
            action,
            rows,
            seed,
            known,
        }
    }

    /// The action on the section.
    pub(crate) fn action(&self) -> &Module
        ensures value { result.now ≡ self.now.action }
        ensures well_formed { IsSection self.now }
    {
        self.action.module()
    }

    /// What the words 0 to `words` of a seed decide of the action. What is known for that seed serves, and values of words
    /// that are made are kept; what is known for another is forgotten. The section stays as it is. The table has
    /// irreducible polynomials over its field.
    pub(crate) fn decide(
        &mut self,
        alloc: Global,
        table: &mut Irreducibles,
        seed: u64,
        words: u32,
    ) -> Result<Verdict, Refusal>
        requires words { words ≤ last_word }
        requires field { table.old.order ≡ self.old.action.order }
        ensures decides { Answers None (Decides self.old.action seed words) result }
        ensures holds { Answers None (IsTrueVerdict self.old.action) result }
        ensures same { self.new ≡ self.old }
        ensures same_field { table.new.order ≡ self.old.action.order }
    {
        if seed != self.seed {
            self.known = Known::nothing(alloc);
            self.seed = seed;
        }
        let module = self.action.module();
        decide_knowing(alloc, module, &mut self.known, table, seed, words)
    }

    /// Appends the lifted rows to a matrix. For want of memory only some first of them are appended.
    pub(crate) fn append_rows_to(&self, alloc: Global, basis: &mut Matrix) -> Result<(), Refusal>
        requires like { IsRowsLike basis.old self.now }
        requires room { length basis.old.rows + length self.now.rows.rows ≤ most_rows }
        ensures rows { Answers None
            (λ _. basis.new ≡ record basis.old { rows = basis.old.rows ++ self.now.rows.rows }) result }
        ensures of_section { IsSection self.now }
    {
        self.rows.append_to(alloc, basis)
    }

    /// The vectors of the module that have these rows as coordinates over the lifted rows. The action is gone before
    /// they are made.
    pub(crate) fn lift(self, alloc: Global, coordinates: Matrix) -> Result<Matrix, Refusal>
        requires field { coordinates.order ≡ self.action.order }
        requires columns { coordinates.cols ≡ self.action.dim }
        ensures lifted { Answers None (λ lifted. lifted ≡ lifted_rows self.entry coordinates) result }
        ensures of_section { IsSection self.entry }
        ensures well_formed { IfOk result IsMatrix }
    {
        let Section { action, rows, .. } = self;
        drop(action);
        rows.lift(alloc, coordinates)
    }

    /// The standard form of the action on a section that a seed showed to be irreducible, by the witness, and the
    /// vectors of the module that have the rows of its basis as coordinates. The action is taken apart.
    pub(crate) fn into_form(
        self,
        alloc: Global,
        seed: u64,
        witness: &Witness,
    ) -> Result<(Form, Matrix), Refusal>
        requires decided { (words : ℕ) × Decides self.action seed words
            (Irreducible witness.now.word witness.now.poly witness.now.vector) }
        ensures form { Answers None (λ parts. IsFormFrom self.entry.action seed
            witness.now.word witness.now.poly witness.now.vector parts.0) result }
        ensures lifted { Answers None (λ parts. parts.1 ≡ lifted_rows self.entry parts.0.basis) result }
        ensures of_section { IsSection self.entry }
        ensures well_formed { IfOk result (λ parts. IsForm parts.0 × IsMatrix parts.1) }
    {
        let Section { action, rows, .. } = self;
        let form = action.into_form(alloc, seed, witness)?;
        let lifted = rows.lift_copy(alloc, form.basis())?;
        Ok((form, lifted))
    }

    /// The two sections into which a submodule cuts the section: first the submodule's, then the quotient by it. The
    /// rows of `space` are a basis of the submodule, which is neither zero nor everything, and which the words of a
    /// seed found. The action on the section is taken apart, and gone before rows are lifted.
    pub(crate) fn cut(
        self,
        alloc: Global,
        space: Matrix,
    ) -> Result<(Section<'a>, Section<'a>), Refusal>
        requires decided { (seed words : ℕ) × Decides self.action seed words (Reducible space) }
        requires space { IsProperSubmodule self.action space }
        ensures { Answers None (λ parts. IsCut self.entry space parts.0 parts.1) result }
    {
        let Section {
            action,
            rows,
            seed,
            known,
        } = self;
        let Split {
            sub,
            quotient,
            columns,
        } = action.split(alloc, &space)?;
        // Where the last column is no pivot, the last unit vector is not in the submodule. So it generates everything
        // in the section, since word 0 would have found what it generates, and its image does so in the quotient.
        let quotient_last = is_last_of(space.cols() - 1, &columns);
        let (sub_known, quotient_known) = known.cut(alloc, &space, quotient_last)?;
        // The rows of the submodule are lifted, and the unit vectors that extend them to a basis: these lift to the
        // rows at their columns.
        let (sub_rows, quotient_rows) = rows.cut(alloc, space, columns)?;
        Ok((
            Section {
                action: Action::Owned(sub),
                rows: sub_rows,
                seed,
                known: sub_known,
            },
            Section {
                action: Action::Owned(quotient),
                rows: quotient_rows,
                seed,
                known: quotient_known,
            },
        ))
    }
}

impl<'a> Action<'a> {
    /// The module that it is.
    pub(crate) fn module(&self) -> &Module
        ensures { result.now ≡ acting_module self.now }
    {
        match self {
            Action::Lent(module) => module,
            Action::Owned(module) => module,
        }
    }

    /// The standard form of the module, which a seed showed to be irreducible, by the witness.
    fn into_form(self, alloc: Global, seed: u64, witness: &Witness) -> Result<Form, Refusal>
        requires { (words : ℕ) × Decides (acting_module self) seed words
            (Irreducible witness.now.word witness.now.poly witness.now.vector) }
        ensures form { Answers None (IsFormFrom (acting_module self.entry) seed
            witness.now.word witness.now.poly witness.now.vector) result }
        ensures well_formed { IfOk result IsForm }
    {
        let poly = witness.poly.as_ref();
        let vector = &witness.vector;
        match self {
            Action::Lent(module) => form_of(alloc, module, seed, witness.word, poly, vector),
            Action::Owned(module) => form_of_owned(alloc, module, seed, witness.word, poly, vector),
        }
    }

    /// The actions on a submodule and on the quotient by it, and the columns that are no pivots of the submodule. The
    /// rows of `space` are a basis of the submodule, which is neither zero nor everything. The module is taken apart.
    fn split(self, alloc: Global, space: &Matrix) -> Result<Split, Refusal>
        requires { IsProperSubmodule (acting_module self) space.now }
        ensures sub { Answers None (λ split. IsBasisAction (acting_module self.entry) space.now split.sub) result }
        ensures quotient { Answers None
            (λ split. IsActionModulo (acting_module self.entry) space.now split.quotient) result }
        ensures columns { Answers None (λ split. AreFreeColumns (rows_to_span space.now) split.columns.items) result }
        ensures well_formed { IfOk result (λ split. IsModule split.sub × IsModule split.quotient) }
    {
        let module = self.into_module(alloc)?;
        split_by_submodule(alloc, module, space)
    }

    /// The module that it is, or a copy of one that is lent.
    fn into_module(self, alloc: Global) -> Result<Module, Refusal>
        ensures { Answers None (λ m. m ≡ acting_module self.entry) result }
    {
        match self {
            Action::Lent(module) => module.copy(alloc),
            Action::Owned(module) => Ok(module),
        }
    }
}

/// Whether a column is the last of some.
fn is_last_of(column: usize, columns: &[usize]) -> bool
    ensures { IsTrue result ↔ (slice_get columns.now (length columns.now - 1) ≡ Some column) }
{
    columns.last() == Some(&column)
}
