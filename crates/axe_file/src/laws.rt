//! What holds of the limits of files, and of the packed form.

ghost use Rattle.std.specs.Prelude.{◌≡◌, ℕ, ◌^◌, ◌<◌, ◌≤◌, None, List, length};
ghost use Rattle.std.specs.List.{All};
ghost use Rattle.axe_field.specs.Order.{Order, order_number};
ghost use Rattle.axe_row.specs.ByteDigits.{digits_per_byte};
ghost use Rattle.axe_matrix.specs.Matrices.{MatrixValue, IsMatrix};
ghost use Rattle.axe_file.specs.Packed.{packed, packed_fault, unpacked};
ghost use Rattle.axe_file.specs.Limits.{most_packed_bytes, most_module_bytes, most_generators};
ghost use Rattle.axe_file.specs.Limits.{most_text_bytes, digits_per_line};

use crate::text_writing::DIGITS_PER_LINE;
use crate::{MAX_GENERATORS, MODULE_LIMIT, PACKED_LIMIT, TEXT_LIMIT};

/// The limits of the code are those of the definitions.
pub fn limits_are_named()
    ensures packed { PACKED_LIMIT ≡ most_packed_bytes }
    ensures module { MODULE_LIMIT ≡ most_module_bytes }
    ensures generators { MAX_GENERATORS ≡ most_generators }
    ensures text { TEXT_LIMIT ≡ most_text_bytes }
    ensures line { DIGITS_PER_LINE ≡ digits_per_line }
{}

/// A byte has room for so many digits in base q, where q is the order of a field, and for no more.
pub fn digits_per_byte_is_greatest()
    ensures fit { (o : Order) → order_number o ^ digits_per_byte o ≤ 256 }
    ensures greatest { (o : Order) (m : ℕ) → order_number o ^ m ≤ 256 → m ≤ digits_per_byte o }
{}

/// The spelling of a matrix keeps the limit of packed files.
pub fn spellings_keep_the_limit()
    ensures { (m : MatrixValue) → IsMatrix m → length (packed m) ≤ most_packed_bytes }
{}

/// Matrices with one spelling are one matrix.
pub fn spellings_are_apart()
    ensures { (a b : MatrixValue) → IsMatrix a → IsMatrix b → packed a ≡ packed b → a ≡ b }
{}

/// The spelling of a matrix has no fault, and gives the matrix back.
pub fn spellings_are_read()
    ensures faultless { (m : MatrixValue) → IsMatrix m → packed_fault (packed m) ≡ None }
    ensures matrix { (m : MatrixValue) → IsMatrix m → unpacked (packed m) ≡ m }
{}

/// Bytes without fault are the spelling of a matrix.
pub fn faultless_bytes_are_spellings()
    ensures matrix { (bytes : List ℕ) → packed_fault bytes ≡ None → IsMatrix (unpacked bytes) }
    ensures spelling { (bytes : List ℕ) → All (λ byte. byte < 256) bytes → packed_fault bytes ≡ None →
        bytes ≡ packed (unpacked bytes) }
{}
