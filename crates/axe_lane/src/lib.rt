//! Kernels on slices of words and of bytes, by vectors: sums, multiples and products of rows over the prime fields of
//! order 2, 3, 5 and 7, the first entry that is not zero, and the bits that bytes have at one place. A row over the
//! field of order 2 is a list of 64-bit words with an entry in each bit, lowest first; one over the field of order 3
//! may be two such lists; else a row is a list of bytes below the prime.
//!
//! Each kernel on whole slices takes vectors while there are any, and then what is left one by one.
#![tactic(auto)]

mod bytes;
mod digits;
mod masks;
mod sums;
mod trits;
mod words;

pub use bytes::{
    add_scaled_bytes, add4_bytes, add4_scaled_bytes, dot_bytes, first_byte, scale_bytes,
};
pub use digits::{add_bits, add_to_each, end_of_run};
pub use masks::{bits_of_bytes, support_of_bytes};
pub use sums::{add_multiple_to_sums, add4_multiples_to_sums, add4_wrapping, reduce_bytes};
pub use trits::{add_multiple_over_nine, add_trits, add4_trits, dot_trits};
pub use words::{
    WORD, any_nonzero, first_set, parity_and, put_xor, xor_into, xor_multiple_over_eight,
    xor_multiple_over_four, xor4_into,
};
