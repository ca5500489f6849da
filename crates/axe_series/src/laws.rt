//! What holds of the search for a composition series.

ghost use Rattle.axe_series.specs.Theorems.{
  RunsFindWhatIsTrue,
  RunsHaveOneOutcome,
  RunsHaveAnOutcome,
  SmallModulesHaveASeries,
};

/// What a run finds is true. Where all is found it is a composition series: conjugated by the rows that are found the
/// generators are block lower triangular with the factors, by their places, on the diagonal; the factors are
/// irreducible, numbered in order of first appearance; and two places have one number exactly when their diagonal
/// blocks are isomorphic. Where a section stays undecided its action is the diagonal block between the rows before and
/// after it, and each of the words leaves it open.
pub fn runs_find_what_is_true()
    ensures { RunsFindWhatIsTrue }
{}

/// A module has no more than one outcome: what the words of a seed find of it, the basis, the forms of the factors and
/// the places among them, is determined.
pub fn runs_have_one_outcome()
    ensures { RunsHaveOneOutcome }
{}

/// Every module has an outcome, whatever the seed and the number of the last word: a composition series is found, or a
/// section stays undecided.
pub fn runs_have_an_outcome()
    ensures { RunsHaveAnOutcome }
{}

/// No section of a module that has at most 1,000 points stays undecided, whatever the seed and the number of the last
/// word.
pub fn small_modules_have_a_series()
    ensures { SmallModulesHaveASeries }
{}
