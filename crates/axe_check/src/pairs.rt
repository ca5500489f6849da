//! Pairs of constituents that are isomorphic.

ghost use Rattle.std.specs.Prelude.{◌≡◌, ◌<◌, length, get_or, All};
ghost use Rattle.axe_spin.specs.Modules.{ModuleValue, IsModule};
ghost use Rattle.axe_check.specs.Steps.{Passes, IsLikeModule, IsFormOf, AreFormsOf, IsApartTo, AreApartTo};
ghost use Rattle.axe_check.specs.Steps.{IsSameReason, IsFirstSameReason};

use crate::reasons::{Stop, name_of};
use axe_iso::{Form, matches};
use axe_report::{Reason, ReportFactor};
use axe_spin::Module;
use std::alloc::Global;

/// Whether no two of the constituents, each with its form, are isomorphic.
pub(crate) fn check_pairs(
    alloc: Global,
    reported: &[ReportFactor],
    factors: &[Module],
    forms: &[Form],
) -> Result<(), Stop>
    requires count { length reported.now ≡ length factors.now }
    requires like { (m : ModuleValue) × All (IsLikeModule m) factors.now }
    requires well_formed { All IsModule factors.now }
    requires forms { AreFormsOf factors.now forms.now }
    requires all { length forms.now ≡ length factors.now }
    ensures { Passes (λ _. AreApartTo factors.now (length factors.now))
        (IsFirstSameReason factors.now reported.now) result }
{
    for first in 0..forms.len() {
        check_later(alloc, reported, factors, &forms[first], first)?;
    }
    Ok(())
}

/// Whether no constituent after that of a number, with this form, is isomorphic to it.
fn check_later(
    alloc: Global,
    reported: &[ReportFactor],
    factors: &[Module],
    form: &Form,
    first: usize,
) -> Result<(), Stop>
    requires count { length reported.now ≡ length factors.now }
    requires like { (m : ModuleValue) × All (IsLikeModule m) factors.now }
    requires well_formed { All IsModule factors.now }
    requires first { first < length factors.now }
    requires form { (d : ModuleValue) → IsFormOf (get_or factors.now first d) form.now }
    ensures { Passes (λ _. IsApartTo factors.now first (length factors.now))
        (IsSameReason factors.now reported.now first) result }
{
    for second in first + 1..factors.len() {
        if matches(alloc, form, &factors[second])?.is_some() {
            let (a, b) = (&reported[first], &reported[second]);
            return Err(Stop::Because(Reason::Same(name_of(alloc, a)?, name_of(alloc, b)?)));
        }
    }
    Ok(())
}
