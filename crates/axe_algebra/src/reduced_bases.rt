//! Reduced bases of spans, and representatives of cosets.

ghost use Rattle.axe_algebra.specs.NumberField.{NumberField};
ghost use Rattle.axe_algebra.specs.Bridge.{field_of};
ghost use Rattle.axe_algebra.specs.Theorems.{ReducedBasisExists, ReducedBasisSpans, ReducedBasisIsIndependent};
ghost use Rattle.axe_algebra.specs.Theorems.{ReducedBasisSizeIsUnique, ReducedBasisRowsAreUnique, ZeroAtPivotsIsZero};
ghost use Rattle.axe_algebra.specs.Theorems.{RepresentativeExists, RepresentativeIsUnique};

/// Every span has a reduced basis.
pub fn every_span_has_a_reduced_basis()
    ensures { (K : NumberField) → ReducedBasisExists (field_of K) }
{}

/// The reduced basis spans the space, and its rows are independent.
pub fn reduced_basis_spans()
    ensures spans { (K : NumberField) → ReducedBasisSpans (field_of K) }
    ensures independent { (K : NumberField) → ReducedBasisIsIndependent (field_of K) }
{}

/// A span has only one reduced basis.
pub fn reduced_basis_is_unique()
    ensures size { (K : NumberField) → ReducedBasisSizeIsUnique (field_of K) }
    ensures rows { (K : NumberField) → ReducedBasisRowsAreUnique (field_of K) }
{}

/// A vector of a span that is zero at every pivot is zero.
pub fn zero_at_pivots_is_zero()
    ensures { (K : NumberField) → ZeroAtPivotsIsZero (field_of K) }
{}

/// Each coset of a span has exactly one vector that is zero at every pivot.
pub fn coset_has_one_representative()
    ensures some { (K : NumberField) → RepresentativeExists (field_of K) }
    ensures only { (K : NumberField) → RepresentativeIsUnique (field_of K) }
{}
