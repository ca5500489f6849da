//! The transposed module, and the rows that are orthogonal to given ones.

ghost use Rattle.std.specs.Prelude.{◌≡◌, None, IfOk};
ghost use Rattle.axe_row.specs.Refusals.{Answers};
ghost use Rattle.axe_matrix.specs.Matrices.{IsMatrix};
ghost use Rattle.axe_spin.specs.Modules.{IsModule};
ghost use Rattle.axe_action.specs.Actions.{dual_module, IsAnnihilatorMatrix};

use axe_echelon::orthogonal_space;
use axe_matrix::{Matrix, Refusal};
use axe_spin::Module;
use std::alloc::Global;

/// The transposed module: its generators are the transposes.
pub fn dual(alloc: Global, module: &Module) -> Result<Module, Refusal>
    ensures transposed { Answers None (λ dual. dual ≡ dual_module «module».now) result }
    ensures well_formed { IfOk result IsModule }
{
    let mut transposes = Vec::new(alloc);
    for index in 0..module.gens() {
        let transpose = module.generator(index).transpose(alloc)?;
        transposes.push(transpose)?;
    }
    Module::new(transposes)
}

/// The annihilator of the rows of a matrix: the reduced basis of all vectors v with `v w^T = 0` for every row w.
pub fn annihilator(alloc: Global, rows: &Matrix) -> Result<Matrix, Refusal>
    ensures basis { Answers None (IsAnnihilatorMatrix rows.now) result }
    ensures well_formed { IfOk result IsMatrix }
{
    orthogonal_space(alloc, rows)
}
