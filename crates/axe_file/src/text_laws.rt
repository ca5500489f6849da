//! What holds of the text form.

ghost use Rattle.std.specs.Prelude.{◌≡◌, ℕ, ◌≤◌, Some, None, List, length};
ghost use Rattle.axe_matrix.specs.Matrices.{MatrixValue, IsMatrix};
ghost use Rattle.axe_file.specs.TextGrammar.{IsTextOf, IsTextFault};
ghost use Rattle.axe_file.specs.TextReading.{text_fault, text_matrix};
ghost use Rattle.axe_file.specs.TextWriting.{text_of};
ghost use Rattle.axe_file.specs.declared.fault.FileFault.{FileFault};
ghost use Rattle.axe_file.specs.Limits.{most_text_bytes};

/// Reading from left to right finds the first fault of bytes, and none exactly where they are a text of a matrix.
pub fn text_faults_are_first()
    ensures fault { (bytes : List ℕ) (fault : FileFault) → text_fault bytes ≡ Some fault → IsTextFault bytes fault }
    ensures only_fault { (bytes : List ℕ) (fault : FileFault) → IsTextFault bytes fault →
        text_fault bytes ≡ Some fault }
    ensures text { (bytes : List ℕ) → text_fault bytes ≡ None → IsTextOf bytes (text_matrix bytes) }
    ensures faultless { (bytes : List ℕ) (m : MatrixValue) → IsTextOf bytes m → text_fault bytes ≡ None }
{}

/// No bytes are texts of two matrices.
pub fn texts_are_of_one_matrix()
    ensures { (bytes : List ℕ) (a b : MatrixValue) → IsTextOf bytes a → IsTextOf bytes b → a ≡ b }
{}

/// What is written for a matrix is a text of it.
pub fn written_texts_are_texts()
    ensures { (m : MatrixValue) → IsMatrix m → IsTextOf (text_of m) m }
{}

/// What is written for a matrix keeps the limit of text files.
pub fn written_texts_keep_the_limit()
    ensures { (m : MatrixValue) → IsMatrix m → length (text_of m) ≤ most_text_bytes }
{}
