//! Echelon forms over a small finite field: independent rows one by one, their span, and the null spaces and inverses
//! of matrices.
#![tactic(auto)]

ghost use Rattle.std.specs.Prelude.{◌≡◌, ◌≤◌, ◌↔◌, [], length, slice_index, IsTrue, None};
ghost use Rattle.std.specs.Prelude.{IfOk, OnErr, MatchOption};
ghost use Rattle.axe_algebra.specs.Lists.{listed};
ghost use Rattle.axe_algebra.specs.SpansOfLists.{IsPivot, IsRepresentative, IsSpanned};
ghost use Rattle.axe_field.specs.Arithmetic.{field_neg};
ghost use Rattle.axe_field.specs.NumberFields.{number_field};
ghost use Rattle.axe_row.specs.Operations.{IsZeroVector};
ghost use Rattle.axe_row.specs.Refusals.{Answers};
ghost use Rattle.axe_row.specs.Rows.{IsRow};
ghost use Rattle.axe_matrix.specs.Limits.{most_columns};
ghost use Rattle.axe_matrix.specs.Matrices.{IsMatrix};
ghost use Rattle.axe_echelon.specs.Echelons.{IsEchelon, with_row_where, AreCoordinates, IsReducedMatrix};
ghost use Rattle.axe_echelon.specs.Steps.{HasSteps, AreSolvedCoordinates, IsSolved};
ghost use Rattle.axe_echelon.specs.Subspaces.{IsCleared};

mod first_points;
mod inverses;
pub mod laws;
mod leading_rows;
mod mirrors;
mod null_spaces;
mod orthogonal_points;
mod pivot_table;
mod spans;
mod subspace;
mod word_mirrors;

use axe_field::Field;
use axe_matrix::{Matrix, Refusal, Row};
pub use first_points::{NullPoints, null_points};
pub use inverses::inverse;
pub use null_spaces::{null_space, orthogonal_space};
pub use orthogonal_points::orthogonal_point;
pub use spans::{row_space, span_of};
use std::alloc::Global;
use std::marker::Model;
pub use subspace::Subspace;
use subspace::scaled_rest;

/// What gave a row of the echelon form: the row that was inserted, and how the form's row comes from it. The latter is
/// the scalar times the sum of the former and the combination of the form's rows before it with these multipliers, of
/// which only as many as there are such rows may differ from 0.
#[derive(Drop)]
struct Step {
    inserted: Row,
    scalar: u8,
    multipliers: Row,
}

/// What is left of a row when pivots are cleared from it, and the multipliers of the rows that were added for that.
#[derive(Drop)]
struct Elimination {
    rest: Row,
    multipliers: Row,
}

/// Independent rows of one length over one field, in the order in which they were inserted, with an echelon form of
/// them.
#[derive(Drop)]
pub struct Echelon {
    alloc: Global,
    /// The span of the rows, by the echelon form.
    space: Subspace,
    /// What gave each row of the echelon form.
    steps: Vec<Step>,
}

impl Model for Echelon {
    ghost use Rattle.axe_echelon.specs.Echelons.{EchelonValue};

    ghost Value = { EchelonValue };

    ghost use Rattle.axe_echelon.specs.Steps.{echelon_of, HasSteps};

    ghost view = { λ a. echelon_of a.space a.steps.items };

    ghost invariant = { λ a. HasSteps a.space a.steps.items };
}

impl Echelon {
    /// The echelon form of no rows, of so many columns. It takes no memory until a row is inserted.
    pub fn new(alloc: Global, field: Field, cols: usize) -> Echelon
        requires some_column { 1 ≤ cols }
        requires columns_fit { cols ≤ most_columns }
        ensures no_rows { result ≡ record { order = field; cols = cols; rows = [] } }
        ensures well_formed { IsEchelon result }
    {
        Echelon {
            alloc,
            space: Subspace::zero(alloc, field, cols),
            steps: Vec::new(alloc),
        }
    }

    /// The field of the rows.
    pub fn field(&self) -> &Field
        ensures order { result.now ≡ self.now.order }
        ensures well_formed { IsEchelon self.now }
    {
        self.space.field()
    }

    /// How many entries each row has.
    pub fn cols(&self) -> usize
        ensures count { result ≡ self.now.cols }
        ensures well_formed { IsEchelon self.now }
    {
        self.space.cols()
    }

    /// How many rows there are: the dimension of their span.
    pub fn rank(&self) -> usize
        ensures count { result ≡ length self.now.rows }
        ensures well_formed { IsEchelon self.now }
    {
        self.space.dim()
    }

    /// Inserts a row over the field with an entry for each column, and tells whether it is new: whether it was not in
    /// the span of the rows. A row that is not new changes nothing, nor does one for which there is no memory.
    pub fn insert(&mut self, row: Row) -> Result<bool, Refusal>
        requires field { row.order ≡ self.old.order }
        requires fits { length row.entries ≡ self.old.cols }
        ensures exactly { IfOk result
            (λ new. IsTrue new ↔ ¬ (IsSpanned (number_field self.old.order) self.old.rows row.entries)) }
        ensures inserted { Answers None (λ new. self.new ≡ with_row_where new self.old row.entries) result }
        ensures unchanged { OnErr result (self.new ≡ self.old) }
        ensures well_formed { IsEchelon self.new }
    {
        // As many independent rows as columns span every row.
        if self.rank() == self.cols() {
            return Ok(false);
        }
        let left = left_of(self.alloc, &self.space, &row)?;
        let Elimination { rest, multipliers } = left;
        let Some(next) = scaled_rest(rest) else {
            return Ok(false);
        };
        // There is room for the step first: so where the space finds no memory for its row nothing has changed.
        self.steps.reserve(1)?;
        self.space.add_row(next.row)?;
        self.steps.push_reserved(Step {
            inserted: row,
            scalar: next.scalar,
            multipliers,
        });
        Ok(true)
    }

    /// Makes a row over the field the one vector of its coset modulo the span that is 0 at each pivot.
    pub fn reduce(&self, row: &mut Row)
        requires field { row.old.order ≡ self.now.order }
        requires fits { length row.old.entries ≡ self.now.cols }
        ensures representative { IsRepresentative (number_field self.now.order) self.now.rows
            row.old.entries row.new.entries }
        ensures same_field { row.new.order ≡ self.now.order }
        ensures as_long { length row.new.entries ≡ self.now.cols }
        ensures row_well_formed { IsRow row.new }
        ensures well_formed { IsEchelon self.now }
    {
        self.space.reduce(row);
    }

    /// The coefficients of a row over the inserted rows, in their order, or `None` where the row is not in their span.
    pub fn coordinates(&self, alloc: Global, row: &Row) -> Result<Option<Row>, Refusal>
        requires field { row.now.order ≡ self.now.order }
        requires fits { length row.now.entries ≡ self.now.cols }
        ensures coefficients { Answers None (λ coordinates. MatchOption coordinates
            (¬ (IsSpanned (number_field self.now.order) self.now.rows row.now.entries))
            (AreCoordinates self.now row.now.entries)) result }
        ensures well_formed { IsEchelon self.now }
    {
        let mut left = left_of(alloc, &self.space, row)?;
        coordinates_of(alloc, &self.space, &self.steps, &mut left)
    }

    /// The reduced basis of the span: for each pivot, in ascending order, the vector of the span that is 1 there and 0
    /// at all other pivots.
    pub fn reduced(&self, alloc: Global) -> Result<Matrix, Refusal>
        ensures basis { Answers None (IsReducedMatrix self.now) result }
        ensures matrix_well_formed { Answers None IsMatrix result }
        ensures well_formed { IsEchelon self.now }
    {
        self.space.reduced(alloc)
    }

    /// Whether a column is a pivot: whether some vector of the span has its first nonzero entry there.
    pub fn is_pivot(&self, column: usize) -> bool
        ensures { IsTrue result ↔ IsPivot (number_field self.now.order) self.now.rows column }
    {
        self.space.is_pivot(column)
    }
}

/// What is left of a row when the pivots of a space are cleared from it, and the multipliers of the rows of its echelon
/// form that were added.
fn left_of(alloc: Global, space: &Subspace, row: &Row) -> Result<Elimination, Refusal>
    requires field { row.now.order ≡ space.now.order }
    requires fits { length row.now.entries ≡ space.now.cols }
    ensures cleared { Answers None (λ left. IsCleared space.now row.now left.rest left.multipliers) result }
    ensures row_well_formed { IsRow row.now }
{
    let mut multipliers = Row::zero(alloc, *row.field(), row.len())?;
    let mut rest = row.copy(alloc)?;
    space.reduce_with(&mut rest, &mut multipliers);
    Ok(Elimination { rest, multipliers })
}

/// The coefficients of a row over the inserted rows, from what is left of it, or `None` where anything is. They are the
/// negatives of what the multipliers are then.
fn coordinates_of(
    alloc: Global,
    space: &Subspace,
    steps: &[Step],
    left: &mut Elimination,
) -> Result<Option<Row>, Refusal>
    requires steps { HasSteps space.now steps.now }
    requires field { left.old.multipliers.order ≡ space.now.order }
    requires fits { length left.old.multipliers.entries ≡ space.now.cols }
    ensures { Answers None (λ coordinates. MatchOption coordinates (¬ (IsZeroVector left.old.rest.entries))
        (AreSolvedCoordinates space.now steps.now left.old.rest left.old.multipliers left.new.multipliers)) result }
{
    if !left.rest.is_zero() {
        return Ok(None);
    }
    solve(space, steps, &mut left.multipliers);
    // The row plus the combination with what they are now is zero, so their negatives combine to the row.
    Ok(Some(negated_start(alloc, &left.multipliers, steps.len())?))
}

/// Makes the multipliers of the rows of the echelon form in a combination the coefficients of the inserted rows in it.
fn solve(space: &Subspace, steps: &[Step], multipliers: &mut Row)
    requires steps { HasSteps space.now steps.now }
    requires field { multipliers.old.order ≡ space.now.order }
    requires fits { length multipliers.old.entries ≡ space.now.cols }
    ensures { IsSolved space.now steps.now multipliers.old multipliers.new }
{
    let field = *multipliers.field();
    // In a row of the form are the rows before it alone: so what is left of the form's rows ends before the index.
    for index in (0..space.dim()).rev() {
        let step = &steps[index];
        let multiplier = multipliers.get(index);
        if multiplier != 0 {
            let coefficient = field.mul(multiplier, step.scalar);
            multipliers.add_scaled(coefficient, &step.multipliers);
            multipliers.set(index, coefficient);
        }
    }
}

/// The negatives of the first entries of a row.
fn negated_start(alloc: Global, row: &Row, len: usize) -> Result<Row, Refusal>
    requires { len ≤ length row.now.entries }
    ensures { Answers None (λ start. start ≡ record {
      order = row.now.order;
      entries = listed len (λ j. field_neg row.now.order (slice_index row.now.entries j));
    }) result }
{
    let mut start = row.part(alloc, 0, len)?;
    let minus_one = row.field().neg(1);
    start.scale(minus_one);
    Ok(start)
}
