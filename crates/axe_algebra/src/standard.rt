//! Standard bases, standard matrices and isomorphisms.

ghost use Rattle.axe_algebra.specs.NumberField.{NumberField};
ghost use Rattle.axe_algebra.specs.Bridge.{field_of};
ghost use Rattle.axe_algebra.specs.StandardTheorems.{IsomorphismKeepsNonzero, IsomorphismKeepsNullity};
ghost use Rattle.axe_algebra.specs.StandardTheorems.{NoMatchIsNotIsomorphic, StandardMatricesOfUnitVector};
ghost use Rattle.axe_algebra.specs.StandardTheorems.{UnitVectorIsNullVector, StandardBasisExists};
ghost use Rattle.axe_algebra.specs.StandardTheorems.{StandardBasisSizeIsUnique, StandardBasisRowsAreUnique};
ghost use Rattle.axe_algebra.specs.StandardTheorems.{StandardDimensionIsUnique, StandardMatricesAreUnique};
ghost use Rattle.axe_algebra.specs.StandardTheorems.{StandardBasisSpansGeneratedSpace, StandardBasisIsSquare};
ghost use Rattle.axe_algebra.specs.StandardTheorems.{IsomorphismCarriesStandardBasis, IsomorphismKeepsStandardMatrices};
ghost use Rattle.axe_algebra.specs.StandardTheorems.{IsomorphismCarriesNullVectors, MultipleHasTheSameStandardMatrices};
ghost use Rattle.axe_algebra.specs.StandardTheorems.{SameStandardMatricesAreIsomorphic, BasesGiveIsomorphism};
ghost use Rattle.axe_algebra.specs.StandardTheorems.{StandardBasisIsIsomorphism, InverseIsIsomorphism};
ghost use Rattle.axe_algebra.specs.StandardTheorems.{ProductIsIsomorphism, IsomorphismIsReflexive};
ghost use Rattle.axe_algebra.specs.StandardTheorems.{IsomorphismIsSymmetric, IsomorphismIsTransitive};

/// A nonzero vector has exactly one standard basis.
pub fn vector_has_one_standard_basis()
    ensures some { (K : NumberField) → StandardBasisExists (field_of K) }
    ensures size { (K : NumberField) → StandardBasisSizeIsUnique (field_of K) }
    ensures rows { (K : NumberField) → StandardBasisRowsAreUnique (field_of K) }
{}

/// A vector has at most one family of standard matrices.
pub fn vector_has_one_family_of_standard_matrices()
    ensures dimension { (K : NumberField) → StandardDimensionIsUnique (field_of K) }
    ensures matrices { (K : NumberField) → StandardMatricesAreUnique (field_of K) }
{}

/// A standard basis spans the space that its vector generates; where that is everything, it has as many rows as the
/// dimension.
pub fn standard_basis_spans_generated_space()
    ensures spans { (K : NumberField) → StandardBasisSpansGeneratedSpace (field_of K) }
    ensures square { (K : NumberField) → StandardBasisIsSquare (field_of K) }
{}

/// An isomorphism carries the standard basis of a vector to that of its image, and keeps the standard matrices.
pub fn isomorphism_carries_standard_basis()
    ensures basis { (K : NumberField) → IsomorphismCarriesStandardBasis (field_of K) }
    ensures matrices { (K : NumberField) → IsomorphismKeepsStandardMatrices (field_of K) }
{}

/// An isomorphism carries null vectors of a word's value to null vectors of that word's value in the other module.
pub fn isomorphism_carries_null_vectors()
    ensures { (K : NumberField) → IsomorphismCarriesNullVectors (field_of K) }
{}

/// A nonzero multiple of a vector has the same standard matrices.
pub fn multiple_has_the_same_standard_matrices()
    ensures { (K : NumberField) → MultipleHasTheSameStandardMatrices (field_of K) }
{}

/// Two modules whose vectors, each generating everything, have the same standard matrices are isomorphic, by the
/// inverse of the one standard basis times the other.
pub fn same_standard_matrices_are_isomorphic()
    ensures isomorphic { (K : NumberField) → SameStandardMatricesAreIsomorphic (field_of K) }
    ensures by_bases { (K : NumberField) → BasesGiveIsomorphism (field_of K) }
{}

/// A standard basis with as many rows as the dimension is an isomorphism from the module of its standard matrices.
pub fn standard_basis_is_isomorphism()
    ensures { (K : NumberField) → StandardBasisIsIsomorphism (field_of K) }
{}

/// The inverse of an isomorphism and the product of isomorphisms are isomorphisms.
pub fn isomorphisms_invert_and_multiply()
    ensures inverse { (K : NumberField) → InverseIsIsomorphism (field_of K) }
    ensures product { (K : NumberField) → ProductIsIsomorphism (field_of K) }
{}

/// Isomorphism is an equivalence of modules.
pub fn isomorphism_is_an_equivalence()
    ensures reflexive { (K : NumberField) → IsomorphismIsReflexive (field_of K) }
    ensures symmetric { (K : NumberField) → IsomorphismIsSymmetric (field_of K) }
    ensures transitive { (K : NumberField) → IsomorphismIsTransitive (field_of K) }
{}

/// An isomorphism keeps nonzero vectors nonzero, and the size of a basis of the null space of each word's value.
pub fn isomorphism_keeps_nullity()
    ensures nonzero { (K : NumberField) → IsomorphismKeepsNonzero (field_of K) }
    ensures nullity { (K : NumberField) → IsomorphismKeepsNullity (field_of K) }
{}

/// Where no nonzero null vector of a word's value has the standard matrices of one in another module, the two are not
/// isomorphic.
pub fn no_match_is_not_isomorphic()
    ensures { (K : NumberField) → NoMatchIsNotIsomorphic (field_of K) }
{}

/// Standard matrices of a basis with as many rows as the dimension are the standard matrices of their own first unit
/// vector, which is a null vector of a word's value where the vector is.
pub fn standard_matrices_of_unit_vector()
    ensures standard { (K : NumberField) → StandardMatricesOfUnitVector (field_of K) }
    ensures null { (K : NumberField) → UnitVectorIsNullVector (field_of K) }
{}
