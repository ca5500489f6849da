//! Lists of digits modulo 2, 64 of them in a word of bits; lists of digits modulo 3, in two layers of such bits; and
//! tables of many such lists.
#![tactic(auto)]

mod bit_table;
mod bits;
mod pieces;
mod supports;
mod trit_table;
mod trits;

pub use bit_table::BitTable;
pub use bits::BitPlane;
pub use pieces::start_of;
pub use trit_table::TritTable;
pub use trits::TritPlane;
