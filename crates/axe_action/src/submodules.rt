//! The action of a module on a submodule and modulo it: a reduced basis that is known to be one of a submodule is not
//! tested to be one.

ghost use Rattle.std.specs.Prelude.{◌≡◌, ◌<◌, ◌≤◌, ◌++◌, ◌⊎◌, [], ◌∷◌, length, None, Ok, Err, IfOk, IfErr};
ghost use Rattle.axe_algebra.specs.SpansOfLists.{IsIndependent};
ghost use Rattle.axe_field.specs.Arithmetic.{field_neg};
ghost use Rattle.axe_field.specs.NumberFields.{number_field};
ghost use Rattle.axe_row.specs.Refusals.{Answers};
ghost use Rattle.axe_matrix.specs.Limits.{most_columns};
ghost use Rattle.axe_matrix.specs.Matrices.{IsMatrix};
ghost use Rattle.axe_matrix.specs.Products.{matrix_with_product};
ghost use Rattle.axe_spin.specs.Limits.{most_generators};
ghost use Rattle.axe_spin.specs.Modules.{IsModule, IsInvariantIn, module_of_matrices};
ghost use Rattle.axe_action.specs.Actions.{IsBasisAction, IsActionModulo};
ghost use Rattle.axe_action.specs.Blocks.{FitsProducts};
ghost use Rattle.axe_action.specs.FreeColumns.{AreFreeColumns, AreReducedAt, AreComplementary};
ghost use Rattle.axe_action.specs.FreeColumns.{rows_to_span};
ghost use Rattle.axe_action.specs.FreeColumns.{matrix_within, matrix_modulo};

use super::blocks::{Blocks, blocks_of};
use super::leading::{other_columns, reduced_pivots};
use super::quotients::{free_columns, quotient_action};
use super::subspaces::action_over;
use axe_echelon::span_of;
use axe_matrix::{Matrix, Refusal};
use axe_spin::Module;
use std::alloc::Global;

/// What a submodule makes of a module.
#[derive(Drop)]
pub struct Split {
    /// The action on the submodule, over the rows that span it.
    pub sub: Module,
    /// The action modulo the submodule, over the unit vectors.
    pub quotient: Module,
    /// The columns that are no pivots of the submodule, ascending.
    pub columns: Vec<usize>,
}

/// The two actions of a module that come of a submodule, which has independent rows as a basis and is neither zero nor
/// everything: that of [`basis_action`] on it and that of [`quotient_action`] modulo it, for rows whose span is known
/// to be invariant. After the rows, the unit vectors of the columns make the basis that [`extend_basis`] gives. By a
/// reduced basis the module is taken apart, so that beside what is left of it the two actions alone take memory; no
/// clause says so.
///
/// [`basis_action`]: crate::basis_action
/// [`quotient_action`]: crate::quotient_action
/// [`extend_basis`]: crate::extend_basis
pub fn split_by_submodule(alloc: Global, module: Module, rows: &Matrix) -> Result<Split, Refusal>
    requires field { rows.now.order ≡ «module».order }
    requires fits { rows.now.cols ≡ «module».dim }
    requires some_row { 1 ≤ length rows.now.rows }
    requires independent { IsIndependent (number_field rows.now.order) rows.now.rows }
    requires proper { length rows.now.rows < «module».dim }
    requires invariant { IsInvariantIn «module» rows.now }
    ensures sub { Answers None (λ split. IsBasisAction «module» rows.now split.sub) result }
    ensures quotient { Answers None (λ split. IsActionModulo «module» rows.now split.quotient) result }
    ensures columns { Answers None (λ split. AreFreeColumns (rows_to_span rows.now) split.columns.items) result }
    ensures well_formed { IfOk result (λ split. IsModule split.sub × IsModule split.quotient) }
{
    match reduced_pivots(alloc, rows)? {
        // A submodule mostly comes as its reduced basis, and then products do.
        Some(pivots) => split_at_pivots(alloc, module, rows, &pivots),
        // Other rows are rare here: they go the way of rows that may span no submodule.
        None => split_by_span(alloc, &module, rows),
    }
}

/// The two actions that come of a submodule's reduced basis, whose pivots are given too.
fn split_at_pivots(
    alloc: Global,
    module: Module,
    rows: &Matrix,
    pivots: &[usize],
) -> Result<Split, Refusal>
    requires field { rows.now.order ≡ «module».order }
    requires fits { rows.now.cols ≡ «module».dim }
    requires some_row { 1 ≤ length rows.now.rows }
    requires independent { IsIndependent (number_field rows.now.order) rows.now.rows }
    requires proper { length rows.now.rows < «module».dim }
    requires invariant { IsInvariantIn «module» rows.now }
    requires reduced { AreReducedAt rows.now pivots.now }
    ensures sub { Answers None (λ split. IsBasisAction «module» rows.now split.sub) result }
    ensures quotient { Answers None (λ split. IsActionModulo «module» rows.now split.quotient) result }
    ensures columns { Answers None (λ split. AreFreeColumns (rows_to_span rows.now) split.columns.items) result }
    ensures well_formed { IfOk result (λ split. IsModule split.sub × IsModule split.quotient) }
{
    let columns = other_columns(alloc, rows.cols(), pivots)?;
    let (sub, quotient) = actions_at_pivots(alloc, module, rows, pivots, &columns)?;
    Ok(Split {
        sub,
        quotient,
        columns,
    })
}

/// The two actions that come of a submodule, by an echelon form of independent rows that span it.
fn split_by_span(alloc: Global, module: &Module, rows: &Matrix) -> Result<Split, Refusal>
    requires field { rows.now.order ≡ «module».now.order }
    requires fits { rows.now.cols ≡ «module».now.dim }
    requires some_row { 1 ≤ length rows.now.rows }
    requires independent { IsIndependent (number_field rows.now.order) rows.now.rows }
    requires proper { length rows.now.rows < «module».now.dim }
    requires invariant { IsInvariantIn «module».now rows.now }
    ensures sub { Answers None (λ split. IsBasisAction «module».now rows.now split.sub) result }
    ensures quotient { Answers None (λ split. IsActionModulo «module».now rows.now split.quotient) result }
    ensures columns { Answers None (λ split. AreFreeColumns (rows_to_span rows.now) split.columns.items) result }
    ensures well_formed { IfOk result (λ split. IsModule split.sub × IsModule split.quotient) }
{
    let (sub, columns) = sub_by_span(alloc, module, rows)?;
    let quotient = quotient_action(alloc, module, rows)?;
    Ok(Split {
        sub,
        quotient,
        columns,
    })
}

/// The action of a module on a submodule, which has these independent rows as a basis, and the columns that are no
/// pivots of their span, by an echelon form of it, whose memory is free again then.
fn sub_by_span(
    alloc: Global,
    module: &Module,
    rows: &Matrix,
) -> Result<(Module, Vec<usize>), Refusal>
    requires field { rows.now.order ≡ «module».now.order }
    requires fits { rows.now.cols ≡ «module».now.dim }
    requires some_row { 1 ≤ length rows.now.rows }
    requires independent { IsIndependent (number_field rows.now.order) rows.now.rows }
    requires invariant { IsInvariantIn «module».now rows.now }
    ensures sub { Answers None (λ found. IsBasisAction «module».now rows.now found.0) result }
    ensures columns { Answers None (λ found. AreFreeColumns (rows_to_span rows.now) found.1.items) result }
    ensures well_formed { IfOk result (λ found. IsModule found.0) }
    ensures rows_well_formed { IsMatrix rows.now }
{
    let span = span_of(alloc, rows)?;
    let columns = free_columns(alloc, &span)?;
    let sub = action_over(alloc, module, rows, &span)?;
    Ok((sub, columns))
}

/// The action of a module on a submodule, over its reduced basis, and that modulo it. Its pivots are given too, and the
/// other columns. Row by row each generator becomes its parts, so that beside what is left of the module they alone
/// take memory.
fn actions_at_pivots(
    alloc: Global,
    module: Module,
    rows: &Matrix,
    pivots: &[usize],
    columns: &[usize],
) -> Result<(Module, Module), Refusal>
    requires field { rows.now.order ≡ «module».order }
    requires fits { rows.now.cols ≡ «module».dim }
    requires some_row { 1 ≤ length rows.now.rows }
    requires well_formed { IsMatrix rows.now }
    requires reduced { AreReducedAt rows.now pivots.now }
    requires free { AreFreeColumns (rows_to_span rows.now) columns.now }
    requires some_column { 1 ≤ length columns.now }
    requires columns_fit { length columns.now ≤ most_columns }
    requires invariant { IsInvariantIn «module» rows.now }
    ensures sub { Answers None (λ actions. IsBasisAction «module» rows.now actions.0) result }
    ensures quotient { Answers None (λ actions. IsActionModulo «module» rows.now actions.1) result }
    ensures well_formed { IfOk result (λ actions. IsModule actions.0 × IsModule actions.1) }
{
    let entries = rows.columns_at(alloc, columns)?;
    let mut actions = Actions::new(alloc);
    for generator in module.into_generators() {
        actions.take(alloc, generator, pivots, columns, &entries)?;
    }
    actions.into_modules()
}

/// The matrices by which those generators of a module act that were taken, in their order.
#[derive(Drop)]
struct Actions {
    /// On the submodule.
    subs: Vec<Matrix>,
    /// Modulo the submodule.
    quotients: Vec<Matrix>,
}

impl Actions {
    /// Those of no generator.
    fn new(alloc: Global) -> Actions
        ensures subs { result.subs.items ≡ [] }
        ensures quotients { result.quotients.items ≡ [] }
    {
        Actions {
            subs: Vec::new(alloc),
            quotients: Vec::new(alloc),
        }
    }

    /// Takes the next generator, which becomes the two matrices of [`generator_parts`].
    fn take(
        &mut self,
        alloc: Global,
        generator: Matrix,
        pivots: &[usize],
        columns: &[usize],
        entries: &Matrix,
    ) -> Result<(), Refusal>
        requires square { length generator.rows ≡ generator.cols }
        requires field { entries.now.order ≡ generator.order }
        requires some_pivot { 1 ≤ length pivots.now }
        requires some_column { 1 ≤ length columns.now }
        requires complementary { AreComplementary generator.cols pivots.now columns.now }
        requires as_many { length entries.now.rows ≡ length pivots.now }
        requires width { entries.now.cols ≡ length columns.now }
        requires well_formed { IsMatrix entries.now }
        ensures sub { Answers None (λ _. self.new.subs.items
            ≡ self.old.subs.items ++ matrix_within pivots.now columns.now entries.now generator ∷ []) result }
        ensures quotient { Answers None (λ _. self.new.quotients.items
            ≡ self.old.quotients.items ++ matrix_modulo pivots.now columns.now entries.now generator ∷ []) result }
        ensures well_formed { IfOk result (λ _. IsMatrix (matrix_within pivots.now columns.now entries.now generator)
            × IsMatrix (matrix_modulo pivots.now columns.now entries.now generator)) }
    {
        let (sub, quotient) = generator_parts(alloc, generator, pivots, columns, entries)?;
        self.subs.push(sub)?;
        self.quotients.push(quotient)?;
        Ok(())
    }

    /// The two modules with these matrices as their generators.
    fn into_modules(self) -> Result<(Module, Module), Refusal>
        requires some_sub { 1 ≤ length self.subs.items }
        requires subs_fit { length self.subs.items ≤ most_generators }
        requires some_quotient { 1 ≤ length self.quotients.items }
        requires quotients_fit { length self.quotients.items ≤ most_generators }
        ensures made { IfOk result (λ modules. (module_of_matrices self.subs.items ≡ Ok modules.0)
            × (module_of_matrices self.quotients.items ≡ Ok modules.1)) }
        ensures refused { IfErr result (λ refusal. (module_of_matrices self.subs.items ≡ Err refusal)
            ⊎ (module_of_matrices self.quotients.items ≡ Err refusal)) }
        ensures well_formed { IfOk result (λ modules. IsModule modules.0 × IsModule modules.1) }
    {
        let Actions { subs, quotients } = self;
        Ok((Module::new(subs)?, Module::new(quotients)?))
    }
}

/// The matrices by which a generator acts on a reduced basis with these pivots, whose entries at the other columns are
/// given, and modulo its span. A row of the basis is 1 at its pivot and 0 at the others, and modulo the span a vector
/// is, at the other columns, itself minus the combination of the entries' rows with its entries at the pivots.
fn generator_parts(
    alloc: Global,
    generator: Matrix,
    pivots: &[usize],
    columns: &[usize],
    entries: &Matrix,
) -> Result<(Matrix, Matrix), Refusal>
    requires square { length generator.rows ≡ generator.cols }
    requires field { entries.now.order ≡ generator.order }
    requires some_pivot { 1 ≤ length pivots.now }
    requires some_column { 1 ≤ length columns.now }
    requires complementary { AreComplementary generator.cols pivots.now columns.now }
    requires as_many { length entries.now.rows ≡ length pivots.now }
    requires width { entries.now.cols ≡ length columns.now }
    requires well_formed { IsMatrix entries.now }
    ensures sub { Answers None
        (λ parts. parts.0 ≡ matrix_within pivots.now columns.now entries.now generator) result }
    ensures quotient { Answers None
        (λ parts. parts.1 ≡ matrix_modulo pivots.now columns.now entries.now generator) result }
    ensures well_formed { IfOk result (λ parts. IsMatrix parts.0 × IsMatrix parts.1) }
{
    let mut blocks = blocks_of(alloc, generator, pivots, columns)?;
    add_products(alloc, &mut blocks, entries)?;
    Ok((blocks.at_pivots, blocks.at_columns))
}

/// Adds the product of the entries and the block across to the block at the pivots, and takes that of the block across
/// and the entries from the block at the other columns. For want of memory some of it may be missing.
fn add_products(alloc: Global, blocks: &mut Blocks, entries: &Matrix) -> Result<(), Refusal>
    requires { FitsProducts entries.now blocks.old }
    ensures at_pivots { Answers None (λ _. blocks.new.at_pivots
        ≡ matrix_with_product blocks.old.at_pivots 1 entries.now blocks.old.across) result }
    ensures at_columns { Answers None (λ _. blocks.new.at_columns ≡ matrix_with_product blocks.old.at_columns
        (field_neg entries.now.order 1) blocks.old.across entries.now) result }
    ensures well_formed { IfOk result (λ _. IsMatrix blocks.new.at_pivots × IsMatrix blocks.new.at_columns) }
{
    blocks
        .at_pivots
        .add_product(alloc, 1, entries, &blocks.across)?;
    let minus_one = entries.field().neg(1);
    blocks
        .at_columns
        .add_product(alloc, minus_one, &blocks.across, entries)?;
    Ok(())
}
