//! Tables of worked calls, and the values on their lines, for the crates of tests.
//!
//! ```text
//! # The exchange of two coordinates fixes 11.
//! sub_action | 2: 01/10 | 2: 11 | 2: 1
//! sub_action | 2: 01/10 | 2: 00 | the space is zero
//! ```
//!
//! A line is one call. Its fields are apart by `|`: the name of the call, what it is given, and last what it answers. A
//! line that begins with `#` is a remark on those below it. What stands in a field:
//!
//! | value | written |
//! |---|---|
//! | a number, an element | in decimals: `12` |
//! | a row | the order of its field, and its entries: `3: 0121` |
//! | a matrix | the order of its field, and its rows: `3: 12/01`, or zeros, so many rows by so many columns: `3: 0x2` |
//! | a range | its start and its end: `0..2` |
//! | bytes of a packed file | each in two digits of base sixteen: `41 58` |
//! | a text | as it is, with `\n` and `\r` for its line ends |
//! | yes or no | `yes`, `no` |
//! | what is absent | `none` |
//! | a refusal, a fault | its text: `the space is zero` |
//!
//! A call that reads a value answers [`TableFault::NotWritten`] where the text is not written so.
#![tactic(auto)]

mod answers;
mod bytes;
mod fault;
mod fields;
mod matrices;
mod numbers;

pub use answers::{is_fault, is_matrix, is_row, is_row_answer, is_same_matrix};
pub use bytes::{bytes_of_hex, bytes_of_text};
pub use fault::TableFault;
pub use fields::{first_field, four_fields, is_remark, one_field, three_fields, two_fields};
pub use matrices::{matrix_of, row_of, row_of_shape, zeros};
pub use numbers::{element_in, field_of, number_of, range_of, small_number_of, truth_of};
