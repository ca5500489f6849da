//! Annihilators, Norton's criterion, and modules with their transposes.

ghost use Rattle.axe_algebra.specs.NumberField.{NumberField};
ghost use Rattle.axe_algebra.specs.Bridge.{field_of};
ghost use Rattle.axe_algebra.specs.NortonTheorems.{NullVectorOfTransposeIsOrthogonal, NullSpaceHasBasis};
ghost use Rattle.axe_algebra.specs.NortonTheorems.{AnnihilatorHasBasis, AnnihilatorIsInvariant};
ghost use Rattle.axe_algebra.specs.NortonTheorems.{AnnihilatorOfTransposedSpanIsInvariant};
ghost use Rattle.axe_algebra.specs.NortonTheorems.{AnnihilatorOfProperIsNonzero, AnnihilatorOfNonzeroIsProper};
ghost use Rattle.axe_algebra.specs.NortonTheorems.{NortonsCriterion, MultipleGeneratesTheSame};
ghost use Rattle.axe_algebra.specs.NortonTheorems.{NonzeroVectorGeneratesAll, TransposesAreIrreducible};

/// A `w` with `w x^T = 0` is orthogonal to every `v x`.
pub fn null_vector_of_transpose_is_orthogonal()
    ensures { (K : NumberField) → NullVectorOfTransposeIsOrthogonal (field_of K) }
{}

/// The null space of a matrix is the span of some rows.
pub fn null_space_has_a_basis()
    ensures { (K : NumberField) → NullSpaceHasBasis (field_of K) }
{}

/// The annihilator of a span is the span of some rows.
pub fn annihilator_has_a_basis()
    ensures { (K : NumberField) → AnnihilatorHasBasis (field_of K) }
{}

/// The rows orthogonal to an invariant span have an invariant span under the transposes, and the other way round.
pub fn annihilator_is_invariant()
    ensures transposes { (K : NumberField) → AnnihilatorIsInvariant (field_of K) }
    ensures back { (K : NumberField) → AnnihilatorOfTransposedSpanIsInvariant (field_of K) }
{}

/// The annihilator of a proper space is not zero, and that of a nonzero space is proper.
pub fn annihilator_of_proper_is_nonzero()
    ensures nonzero { (K : NumberField) → AnnihilatorOfProperIsNonzero (field_of K) }
    ensures proper { (K : NumberField) → AnnihilatorOfNonzeroIsProper (field_of K) }
{}

/// Norton's criterion: where every nonzero null vector of a word's value generates everything, and one null vector of
/// its transpose generates everything under the transposes, the module is irreducible.
pub fn nortons_criterion()
    ensures { (K : NumberField) → NortonsCriterion (field_of K) }
{}

/// A nonzero multiple of a vector generates what the vector generates.
pub fn multiple_generates_the_same()
    ensures { (K : NumberField) → MultipleGeneratesTheSame (field_of K) }
{}

/// In an irreducible module each nonzero vector generates everything, and its transposes are an irreducible module: the
/// converse of Norton's criterion.
pub fn irreducible_is_generated_by_each_vector()
    ensures vectors { (K : NumberField) → NonzeroVectorGeneratesAll (field_of K) }
    ensures transposes { (K : NumberField) → TransposesAreIrreducible (field_of K) }
{}
