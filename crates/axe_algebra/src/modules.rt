//! Modules: generated spaces, sub and quotient actions, chains of invariant spaces.

ghost use Rattle.axe_algebra.specs.NumberField.{NumberField};
ghost use Rattle.axe_algebra.specs.Bridge.{field_of};
ghost use Rattle.axe_algebra.specs.ModuleTheorems.{GeneratedSpaceIsInvariant, GeneratedSpaceHasTheRows};
ghost use Rattle.axe_algebra.specs.ModuleTheorems.{GeneratedSpaceIsLeast, RowsSpanGeneratedSpace, SubActionExists};
ghost use Rattle.axe_algebra.specs.ModuleTheorems.{SubActionIsUnique, QuotientActionExists, QuotientSizeIsUnique};
ghost use Rattle.axe_algebra.specs.ModuleTheorems.{QuotientActionIsUnique, ChainIsBlockLowerTriangular};
ghost use Rattle.axe_algebra.specs.ModuleTheorems.{BlockLowerTriangularIsChain, DiagonalBlocksAreSectionActions};
ghost use Rattle.axe_algebra.specs.ModuleTheorems.{SectionActionsAreDiagonalBlocks};

/// The space that rows generate is the least invariant space with these rows.
pub fn generated_space_is_least()
    ensures invariant { (K : NumberField) → GeneratedSpaceIsInvariant (field_of K) }
    ensures rows { (K : NumberField) → GeneratedSpaceHasTheRows (field_of K) }
    ensures least { (K : NumberField) → GeneratedSpaceIsLeast (field_of K) }
    ensures spans { (K : NumberField) → RowsSpanGeneratedSpace (field_of K) }
{}

/// Independent rows with an invariant span have exactly one sub action.
pub fn rows_have_one_sub_action()
    ensures some { (K : NumberField) → SubActionExists (field_of K) }
    ensures only { (K : NumberField) → SubActionIsUnique (field_of K) }
{}

/// Exactly one family of matrices satisfies the equation of the quotient action modulo a span.
pub fn span_has_one_quotient_action()
    ensures some { (K : NumberField) → QuotientActionExists (field_of K) }
    ensures size { (K : NumberField) → QuotientSizeIsUnique (field_of K) }
    ensures only { (K : NumberField) → QuotientActionIsUnique (field_of K) }
{}

/// The first rows of a basis, up to each block, have invariant spans exactly when the conjugates of the generators by
/// it are block lower triangular.
pub fn chain_is_block_lower_triangular()
    ensures forth { (K : NumberField) → ChainIsBlockLowerTriangular (field_of K) }
    ensures back { (K : NumberField) → BlockLowerTriangularIsChain (field_of K) }
{}

/// The diagonal blocks of these conjugates are the actions on the sections of the chain.
pub fn diagonal_blocks_are_section_actions()
    ensures forth { (K : NumberField) → DiagonalBlocksAreSectionActions (field_of K) }
    ensures back { (K : NumberField) → SectionActionsAreDiagonalBlocks (field_of K) }
{}
