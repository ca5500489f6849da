//! Layers: digits modulo 2 as the bits of a list of words, 64 in each. A layer is made of numbers or of another layer;
//! its digits are read, written, counted and looked for; and words of them are packed in bytes and transposed.
#![tactic(auto)]

mod base_three;
mod blocks;
mod lanes;
mod layer;
mod packed;
mod parts;
mod places;
mod runs;
mod supports;

pub use blocks::transposed_block;
pub use lanes::packed_numbers;
pub use layer::{
    add_digits, bit_in, copy_digits, fill_with_bits, fill_with_part, fill_with_selected, next_in,
    number_in, numbers_by_digits, numbers_in, set_bit,
};
pub use packed::{WORD_BYTES, packed_word, piece_number, word_of_packed};
pub use parts::{lowest, word_from};
pub use places::earlier;
pub use runs::mark_followed;
pub use supports::{four_in_word, next_in_word};
