//! What holds of words that are said to show something of a module, and the theorems on which that rests.

ghost use Rattle.std.specs.Prelude.{◌≡◌, ◌≢◌, ◌≤◌, ℕ};
ghost use Rattle.axe_field.specs.Order.{order_number};
ghost use Rattle.axe_poly.specs.Polys.{PolyValue};
ghost use Rattle.axe_spin.specs.Modules.{ModuleValue, IsModule};
ghost use Rattle.axe_word.specs.Words.{WordValue, IsWordIn};
ghost use Rattle.axe_word.specs.PointsOfMatrix.{point_count, most_points};
ghost use Rattle.axe_norton.specs.OneVector.{SaysByPoly};
ghost use Rattle.axe_norton.specs.Verdicts.{last_word, SaysByPoints, Says, IsTrueOf, word_of_seed, LeaveOpenBefore};
ghost use Rattle.axe_norton.specs.Verdicts.{Decides, IsTrueVerdict};

use crate::verdicts::{At, Verdict};
use crate::{MAX_WORDS, MOST_POINTS};
pub use axe_algebra::inverses::{
    invertible_exactly_when_null_space_is_zero, invertible_exactly_when_transpose_is,
};
pub use axe_algebra::norton::{
    annihilator_is_invariant, nortons_criterion, null_vector_of_transpose_is_orthogonal,
};
pub use axe_algebra::words::word_value_maps_onto;

/// The limits of the code are those of the definitions.
pub fn limits_are_named()
    ensures points { MOST_POINTS ≡ most_points }
    ensures words { MAX_WORDS ≡ last_word }
{}

/// What a word says of a module is true of it: where it shows the module to be irreducible, it is; and what it gives
/// where it shows it to be reducible is a basis of a submodule other than zero and everything.
pub fn what_a_word_says_is_true()
    ensures { (m : ModuleValue) (word : WordValue) (answer : At) → IsModule m → IsWordIn m word →
        Says m word answer → IsTrueOf m answer }
{}

/// A word says no more than one thing of a module, and the words of a seed decide no more than one thing: so a module
/// is undecided exactly where each of them leaves it open.
pub fn words_say_one_thing()
    ensures word { (m : ModuleValue) (word : WordValue) (a b : At) → Says m word a → Says m word b → a ≡ b }
    ensures words { (m : ModuleValue) (seed words : ℕ) (a b : Verdict) →
        Decides m seed words a → Decides m seed words b → a ≡ b }
{}

/// A polynomial says no more than one thing of a module by a word.
pub fn a_polynomial_says_one_thing()
    ensures { (m : ModuleValue) (word : WordValue) (p : PolyValue) (a b : At) →
        SaysByPoly m word p a → SaysByPoly m word p b → a ≡ b }
{}

/// The polynomials change nothing where points alone decide: what the points of a word's value tell, other than that
/// they leave the module open, the word says; so where they decide a module by a word of a seed, the words of the seed
/// decide it by this word or by an earlier one.
pub fn points_decide_as_before()
    ensures says { (m : ModuleValue) (word : WordValue) (answer : At) → answer ≢ At.Left →
        SaysByPoints m word answer → Says m word answer }
    ensures decides { (m : ModuleValue) (seed j k : ℕ) (answer : At) → answer ≢ At.Left →
        SaysByPoints m (word_of_seed m seed j) answer → LeaveOpenBefore m seed k → k ≤ j }
{}

/// The words of a seed decide every module that has no more than [`MOST_POINTS`] points, whatever the seed and the
/// number of the last word.
pub fn small_modules_are_decided()
    ensures { (m : ModuleValue) (seed words : ℕ) → IsModule m →
        point_count (order_number m.order) m.dim ≤ most_points → ¬ (Decides m seed words Verdict.Undecided) }
{}
