//! Digits of numbers, and the points of the span of a basis: one vector of each of its subspaces of dimension 1.

ghost use Rattle.axe_algebra.specs.NumberField.{NumberField};
ghost use Rattle.axe_algebra.specs.PointTheorems.{DigitsAreBelow, DigitsTellTheNumber, ListsAreDigits};
ghost use Rattle.axe_algebra.specs.PointTheorems.{CoordinatesAreMonic, MonicListsAreCoordinates, CoordinatesAscend};
ghost use Rattle.axe_algebra.specs.PointTheorems.{CoordinatesAreCounted, CoordinatesGrow, PointsAreNonzeroSpanned};
ghost use Rattle.axe_algebra.specs.PointTheorems.{SpannedAreMultiplesOfPoints, MultiplesAreOfOnePoint};
ghost use Rattle.axe_algebra.specs.PointTheorems.{FirstPointIsLastRow};

/// The numbers below `q^m` and the lists of `m` digits below `q` correspond one to one.
pub fn numbers_are_their_digits()
    ensures below { DigitsAreBelow }
    ensures injective { DigitsTellTheNumber }
    ensures onto { ListsAreDigits }
{}

/// The coordinates of points are the lists of digits whose first nonzero entry is 1, each once, ascending.
pub fn coordinates_are_the_monic_lists()
    ensures each { CoordinatesAreMonic }
    ensures all { MonicListsAreCoordinates }
    ensures ascending { CoordinatesAscend }
{}

/// A space of dimension `m` over `q` elements has `(q^m - 1) / (q - 1)` points, and none of larger dimension has fewer.
pub fn points_are_counted()
    ensures count { CoordinatesAreCounted }
    ensures grows { CoordinatesGrow }
{}

/// The points of independent rows are nonzero vectors of their span.
pub fn points_are_nonzero_vectors()
    ensures { (K : NumberField) → PointsAreNonzeroSpanned K }
{}

/// Every nonzero vector of the span of rows is a nonzero multiple of a point, and of only one where they are
/// independent.
pub fn nonzero_vector_is_a_multiple_of_one_point()
    ensures some { (K : NumberField) → SpannedAreMultiplesOfPoints K }
    ensures only { (K : NumberField) → MultiplesAreOfOnePoint K }
{}

/// The first point is the last row of the basis.
pub fn first_point_is_the_last_row()
    ensures { (K : NumberField) → FirstPointIsLastRow K }
{}
