//! Spans of rows: dependence, exchange, bases and membership.

ghost use Rattle.axe_algebra.specs.NumberField.{NumberField};
ghost use Rattle.axe_algebra.specs.Bridge.{field_of};
ghost use Rattle.axe_algebra.specs.Theorems.{RowsAreDependentOrFew, Exchange, EnoughRowsSpanEverything, BasisExists};
ghost use Rattle.axe_algebra.specs.Theorems.{MembershipIsDecidable};

/// Rows of length n are dependent, or independent and at most n.
pub fn rows_are_dependent_or_few()
    ensures { (K : NumberField) → RowsAreDependentOrFew (field_of K) }
{}

/// Independent rows in the span of m rows are at most m.
pub fn exchange()
    ensures { (K : NumberField) → Exchange (field_of K) }
{}

/// n independent rows of length n span every vector of length n.
pub fn enough_rows_span_everything()
    ensures { (K : NumberField) → EnoughRowsSpanEverything (field_of K) }
{}

/// Every span has independent rows that span it.
pub fn every_span_has_a_basis()
    ensures { (K : NumberField) → BasisExists (field_of K) }
{}

/// Whether a vector is in a span is decidable.
pub fn membership_is_decidable()
    ensures { (K : NumberField) → MembershipIsDecidable (field_of K) }
{}
