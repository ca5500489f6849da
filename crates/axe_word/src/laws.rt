//! What holds of words.

ghost use Rattle.std.specs.Prelude.{◌≡◌, ℕ, ◌≤◌, length};
ghost use Rattle.axe_field.specs.Order.{order_number};
ghost use Rattle.axe_matrix.specs.Matrices.{MatrixValue};
ghost use Rattle.axe_spin.specs.Modules.{ModuleValue};
ghost use Rattle.axe_word.specs.Words.{WordValue, IsWord, IsWordIn, IsValueOf};
ghost use Rattle.axe_word.specs.Drawing.{drawn_word};

/// A word has at most one value in a module.
pub fn words_have_one_value()
    ensures { (m : ModuleValue) (word : WordValue) (a b : MatrixValue) →
        IsValueOf m word a → IsValueOf m word b → a ≡ b }
{}

/// A drawn word is a word, and one in the generators of each module with a field of its order and as many generators.
pub fn drawn_words_are_words()
    ensures word { (seed number q k : ℕ) → IsWord (drawn_word seed number q k) }
    ensures over { (m : ModuleValue) (seed number q k : ℕ) →
        order_number m.order ≡ q → length m.generators ≡ k → 1 ≤ k → IsWordIn m (drawn_word seed number q k) }
{}
