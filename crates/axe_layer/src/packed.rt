//! Digits modulo 2 in bytes, eight to a byte, the first of a byte being its most significant bit.
ghost use Rattle.std.specs.Int.{bit_at};
ghost use Rattle.std.specs.Prelude.{ℕ, ◌≡◌, ◌+◌, ◌-◌, ◌*◌, ◌/◌, ◌%◌, ◌<◌, ◌≤◌, ◌∷◌, [], length, slice_index};
ghost use Rattle.axe_layer.specs.Packed.{number_of_piece, packed_bit};

/// How many bytes hold the digits of a word.
pub const WORD_BYTES: usize = 8;

/// How many bits a byte has.
const BYTE: usize = 8;

/// Every second bit, from the lowest on.
const EVEN_BITS: u64 = 0x5555_5555_5555_5555;

/// Every second pair of bits, from the lowest on.
const EVEN_PAIRS: u64 = 0x3333_3333_3333_3333;

/// Every second half of a byte, from the lowest on.
const EVEN_HALVES: u64 = 0x0f0f_0f0f_0f0f_0f0f;

/// The bytes with their bits in the opposite order, by the bytes.
const TURNED: [u8; 256] = [
    0, 128, 64, 192, 32, 160, 96, 224, 16, 144, 80, 208, 48, 176, 112, 240, 8, 136, 72, 200, 40,
    168, 104, 232, 24, 152, 88, 216, 56, 184, 120, 248, 4, 132, 68, 196, 36, 164, 100, 228, 20,
    148, 84, 212, 52, 180, 116, 244, 12, 140, 76, 204, 44, 172, 108, 236, 28, 156, 92, 220, 60,
    188, 124, 252, 2, 130, 66, 194, 34, 162, 98, 226, 18, 146, 82, 210, 50, 178, 114, 242, 10, 138,
    74, 202, 42, 170, 106, 234, 26, 154, 90, 218, 58, 186, 122, 250, 6, 134, 70, 198, 38, 166, 102,
    230, 22, 150, 86, 214, 54, 182, 118, 246, 14, 142, 78, 206, 46, 174, 110, 238, 30, 158, 94,
    222, 62, 190, 126, 254, 1, 129, 65, 193, 33, 161, 97, 225, 17, 145, 81, 209, 49, 177, 113, 241,
    9, 137, 73, 201, 41, 169, 105, 233, 25, 153, 89, 217, 57, 185, 121, 249, 5, 133, 69, 197, 37,
    165, 101, 229, 21, 149, 85, 213, 53, 181, 117, 245, 13, 141, 77, 205, 45, 173, 109, 237, 29,
    157, 93, 221, 61, 189, 125, 253, 3, 131, 67, 195, 35, 163, 99, 227, 19, 147, 83, 211, 51, 179,
    115, 243, 11, 139, 75, 203, 43, 171, 107, 235, 27, 155, 91, 219, 59, 187, 123, 251, 7, 135, 71,
    199, 39, 167, 103, 231, 23, 151, 87, 215, 55, 183, 119, 247, 15, 143, 79, 207, 47, 175, 111,
    239, 31, 159, 95, 223, 63, 191, 127, 255,
];

/// The word of the first 64 digits that bytes hold; where there is no byte, the digits are 0.
#[inline]
pub fn word_of_packed(bytes: &[u8]) -> u64
    ensures { (i : ℕ) → i < 64 → bit_at result i ≡ packed_bit bytes.now i }
{
    with_turned_bytes(u64::from_le_bytes(first_bytes(bytes)))
}

/// The first eight bytes; where there is no byte, it is 0.
#[inline]
fn first_bytes(bytes: &[u8]) -> [u8; WORD_BYTES]
    ensures long { length result ≡ 8 }
    ensures first { (k : ℕ) → k < 8 → slice_index result k ≡ slice_index bytes.now k }
{
    if bytes.len() < WORD_BYTES {
        let mut first = [0; WORD_BYTES];
        first[..bytes.len()].copy_from_slice(bytes);
        return first;
    }
    [
        bytes[0], bytes[1], bytes[2], bytes[3], bytes[4], bytes[5], bytes[6], bytes[7],
    ]
}

/// The bytes that hold the digits of a word.
#[inline]
pub fn packed_word(word: u64) -> [u8; WORD_BYTES]
    ensures { (i : ℕ) → i < 64 → packed_bit result i ≡ bit_at word i }
{
    with_turned_bytes(word).to_le_bytes()
}

/// The number whose digits in base 2, most significant first, are up to eight bits of a word from one of them on.
#[inline(always)]
pub fn piece_number(word: u64, from: usize, size: usize) -> usize
    requires from { from < 64 }
    requires short { size ≤ 8 }
    ensures value { result ≡ number_of_piece word from size }
    ensures small { result < 256 }
{
    usize::from(turned_byte(byte_from(word, from))) >> (BYTE - size)
}

/// Four numbers whose digits in base 2, most significant first, are the pieces of up to eight bits of a word, one after
/// another from the lowest bit on.
#[inline]
pub(crate) fn numbers_of_pieces(word: u64, size: usize) -> [usize; 4]
    requires { size ≤ 8 }
    ensures value { result ≡ number_of_piece word 0 size ∷ number_of_piece word size size
        ∷ number_of_piece word (2 * size) size ∷ number_of_piece word (3 * size) size ∷ [] }
    ensures small { (i : ℕ) → slice_index result i < 256 }
{
    [
        piece_number(word, 0, size),
        piece_number(word, size, size),
        piece_number(word, 2 * size, size),
        piece_number(word, 3 * size, size),
    ]
}

/// A byte with its bits in the opposite order.
#[inline(always)]
fn turned_byte(byte: u8) -> u8
    ensures { (j : ℕ) → j < 8 → bit_at result j ≡ bit_at byte (7 - j) }
{
    TURNED[usize::from(byte)]
}

/// Eight bits of a word from one of them on, as a byte.
#[inline]
fn byte_from(word: u64, from: usize) -> u8
    requires { from < 64 }
    ensures { (j : ℕ) → j < 8 → bit_at result j ≡ bit_at word (from + j) }
{
    (word >> from & 0xff) as u8
}

/// A word with the bits of each of its bytes in the opposite order.
#[inline]
fn with_turned_bytes(word: u64) -> u64
    ensures { (i : ℕ) → i < 64 → bit_at result i ≡ bit_at word (i / 8 * 8 + (7 - i % 8)) }
{
    let by_one = word >> 1 & EVEN_BITS | (word & EVEN_BITS) << 1;
    let by_two = by_one >> 2 & EVEN_PAIRS | (by_one & EVEN_PAIRS) << 2;
    by_two >> 4 & EVEN_HALVES | (by_two & EVEN_HALVES) << 4
}
