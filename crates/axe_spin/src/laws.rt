//! What holds of standard bases in modules.

ghost use Rattle.axe_spin.specs.SpinLaws.{IsomorphismCarriesStandardBasis, MultipleHasTheSameStandardMatrices};

/// An isomorphism of modules carries the standard basis of a vector to that of its image.
pub fn isomorphism_carries_standard_basis()
    ensures { IsomorphismCarriesStandardBasis }
{}

/// A nonzero multiple of a vector has the same standard matrices: the matrices by which the module acts on its standard
/// basis.
pub fn multiple_has_the_same_standard_matrices()
    ensures { MultipleHasTheSameStandardMatrices }
{}
