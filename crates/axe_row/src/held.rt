//! Rows of few words over fields of characteristic 2 and 3, held in registers while others are added to them.
ghost use Rattle.std.specs.Int.{bit_at};
ghost use Rattle.std.specs.Prelude.{ℕ, ◌≡◌, ◌≢◌, ◌+◌, ◌*◌, ◌/◌, ◌<◌, ◌≤◌, All, IfSome, MatchOption, length, slice_index};
ghost use Rattle.axe_field.specs.Order.{IsElement, Order, degree_of, order_number, prime_of};
ghost use Rattle.axe_lane.specs.Entries.{AreZerosBefore, AreZerosFrom};
ghost use Rattle.axe_layer.specs.Supports.{restricted};
ghost use Rattle.axe_layer.specs.Words.{digit_of_words};
ghost use Rattle.axe_plane.specs.Planes.{digits_of, prime_of_plane};
ghost use Rattle.axe_row.specs.BitBlocks.{bits_after, bits_of_word, elements_of_block, low_at, weight_of};
ghost use Rattle.axe_row.specs.BitBlocks.{IsBlock, IsBlockWithMultiple};
ghost use Rattle.axe_row.specs.EntryWords.{entries_in_word};
ghost use Rattle.axe_row.specs.FoundEntries.{IsNextEntry};
ghost use Rattle.axe_row.specs.HeldRows.{block_at, HasBlock};
ghost use Rattle.axe_row.specs.Operations.{multiple_row, row_with_multiple};
ghost use Rattle.axe_row.specs.Rows.{IsRow};
ghost use Rattle.axe_row.specs.Words.{HasWords};

use crate::Row;
use crate::bit_block::BitBlock;
use axe_field::Field;
use axe_plane::Plane;
use std::marker::Model;

/// A row over a field of characteristic 2 or 3 whose planes have W words each, by its blocks of 64 entries. While rows are
/// added to it one after the other, it stays in registers, where a `Row` is read from its planes and written to them for
/// each row that is added.
#[derive(Drop)]
pub struct HeldRow<const W: usize> {
    field: Field,
    len: usize,
    blocks: [BitBlock; W],
}

impl<const W: usize> Model for HeldRow<W> {
    ghost use Rattle.axe_row.specs.HeldRows.{entries_of_blocks, AreBlocksOfRow};
    ghost use Rattle.axe_row.specs.Rows.{RowValue};

    ghost Value = { RowValue };

    ghost view = { λ a. record { order = a.field; entries = entries_of_blocks a.field a.len a.blocks } };

    ghost invariant = { λ a. AreBlocksOfRow a.field a.len a.blocks };
}

impl Row {
    /// The row, held. It is over a field of Q elements, of characteristic 2 or 3, and each of its planes has W words.
    #[inline(always)]
    pub fn hold<const Q: u8, const W: usize>(&self) -> HeldRow<W>
        requires order { order_number self.now.order ≡ Q }
        requires characteristic { prime_of self.now.order ≤ 3 }
        requires words { (length self.now.entries + 63) / 64 ≡ W }
        ensures value { result ≡ self.now }
        ensures well_formed { IsRow result }
    {
        HeldRow {
            field: self.field,
            len: self.len(),
            blocks: self.bit_blocks::<Q, W>(),
        }
    }

    /// Makes the row the one that is held, over the same field and of the same length.
    #[inline(always)]
    pub fn put_held<const Q: u8, const W: usize>(&mut self, held: &HeldRow<W>)
        requires order { order_number self.old.order ≡ Q }
        requires field { held.now.order ≡ self.old.order }
        requires fits { length held.now.entries ≡ length self.old.entries }
        ensures value { self.new ≡ held.now }
        ensures well_formed { IsRow self.new }
    {
        for at in 0..W {
            self.put_block::<Q>(at, &held.blocks[at]);
        }
    }

    /// Makes the entries of the word at an index those of a block, over a field of Q elements, of characteristic 2 or 3; all
    /// other entries stay. Those that the row has no place for are dropped.
    #[inline(always)]
    fn put_block<const Q: u8>(&mut self, at: usize, block: &BitBlock)
        requires order { order_number self.old.order ≡ Q }
        requires characteristic { prime_of self.old.order ≤ 3 }
        requires elements { All (IsElement self.old.order) (elements_of_block self.old.order block.now) }
        requires low { (i : ℕ) → i < 64 → low_at block.now i < weight_of self.old.order }
        ensures written { HasBlock at block.now self.old self.new }
        ensures well_formed { IsRow self.new }
    {
        if Q == 3 || Q == 9 {
            self.put_words::<Q>(0, at, [block.ones, block.twos]);
            self.put_words::<Q>(1, at, [block.high_ones, block.high_twos]);
            return;
        }
        self.put_words::<Q>(0, at, [block.ones, 0]);
        self.put_words::<Q>(1, at, [block.twos, 0]);
        self.put_words::<Q>(2, at, [block.high_ones, 0]);
    }

    /// Makes the digits of two words the coefficients of a power of x in the entries of the word at an index, over a
    /// field of Q elements, of characteristic 2 or 3; all other coefficients stay. Where the power is not below the
    /// field's degree, the row stays as it is.
    #[inline(always)]
    fn put_words<const Q: u8>(&mut self, power: u8, at: usize, words: [u64; 2])
        requires order { order_number self.old.order ≡ Q }
        requires characteristic { prime_of self.old.order ≤ 3 }
        requires digits { power < degree_of self.old.order → (i : ℕ) → i < 64 →
            digit_of_words words i < prime_of self.old.order }
        ensures written { power < degree_of self.old.order → HasWords power at words self.old self.new }
        ensures kept { degree_of self.old.order ≤ power → self.new ≡ self.old }
        ensures was_well_formed { IsRow self.old }
        ensures well_formed { IsRow self.new }
    {
        // `len` is called for what it says of the row: that its entries are elements of its field.
        prove!(self.len() <= usize::MAX);
        if degree_of_size::<Q>() <= power {
            return;
        }
        self.set_digit_words(power, at, words);
    }

    /// The blocks of a row over a field of Q elements, of characteristic 2 or 3, whose planes have W words each.
    #[inline(always)]
    fn bit_blocks<const Q: u8, const W: usize>(&self) -> [BitBlock; W]
        requires order { order_number self.now.order ≡ Q }
        requires characteristic { prime_of self.now.order ≤ 3 }
        requires words { (length self.now.entries + 63) / 64 ≡ W }
        ensures blocks { (k : ℕ) → k < W →
            IsBlock self.now.order (entries_in_word self.now.entries k) (block_at result k) }
        ensures well_formed { IsRow self.now }
    {
        // `len` is called for what it says of the row: that its entries are elements of its field, and fit in memory.
        prove!(self.len() <= usize::MAX);
        if Q == 3 || Q == 9 {
            return self.blocks_of_trits::<Q, W>();
        }
        self.blocks_of_bits::<Q, W>()
    }

    /// What `bit_blocks` does over a field of characteristic 2.
    #[inline(always)]
    fn blocks_of_bits<const Q: u8, const W: usize>(&self) -> [BitBlock; W]
        requires order { order_number self.now.order ≡ Q }
        requires characteristic { prime_of self.now.order ≡ 2 }
        requires words { (length self.now.entries + 63) / 64 ≡ W }
        ensures blocks { (k : ℕ) → k < W →
            IsBlock self.now.order (entries_in_word self.now.entries k) (block_at result k) }
        ensures well_formed { IsRow self.now }
    {
        // `len` is called for what it says of the row: that its entries are elements of its field, and fit in memory.
        prove!(self.len() <= usize::MAX);
        let constant = words_of_bits::<W>(&self.constant);
        if Q == 2 {
            return blocks_of_words(&constant, &[0; W], &[0; W], &[0; W]);
        }
        let Some(higher) = &self.higher else {
            unreachable!();
        };
        let linear = words_of_bits::<W>(&higher.linear);
        if Q == 4 {
            return blocks_of_words(&constant, &linear, &[0; W], &[0; W]);
        }
        blocks_of_words(
            &constant,
            &linear,
            &words_of_bits::<W>(&higher.quadratic),
            &[0; W],
        )
    }

    /// What `bit_blocks` does over a field of characteristic 3.
    #[inline(always)]
    fn blocks_of_trits<const Q: u8, const W: usize>(&self) -> [BitBlock; W]
        requires order { order_number self.now.order ≡ Q }
        requires characteristic { prime_of self.now.order ≡ 3 }
        requires words { (length self.now.entries + 63) / 64 ≡ W }
        ensures blocks { (k : ℕ) → k < W →
            IsBlock self.now.order (entries_in_word self.now.entries k) (block_at result k) }
        ensures well_formed { IsRow self.now }
    {
        // `len` is called for what it says of the row: that its entries are elements of its field, and fit in memory.
        prove!(self.len() <= usize::MAX);
        let (ones, twos) = words_of_layers::<W>(&self.constant);
        if Q == 3 {
            return blocks_of_words(&ones, &twos, &[0; W], &[0; W]);
        }
        let Some(higher) = &self.higher else {
            unreachable!();
        };
        let (high_ones, high_twos) = words_of_layers::<W>(&higher.linear);
        blocks_of_words(&ones, &twos, &high_ones, &high_twos)
    }
}

impl<const W: usize> HeldRow<W> {
    /// The place of the first entry other than 0 in the word at an index, among the places where a word has a 1, counted
    /// from 0, and that entry, as [`Row::next_in_word`] finds it; `None` where every one of these is 0. The word keeps
    /// the ones after that place alone.
    #[inline(always)]
    pub fn next_in_word<const Q: u8>(&self, at: usize, places: &mut u64) -> Option<(usize, u8)>
        requires order { order_number self.now.order ≡ Q }
        requires word { at < W }
        ensures found { MatchOption result
            (AreZerosFrom (restricted (bits_of_word places.old) (entries_in_word self.now.entries at)) 0)
            (λ found. IsNextEntry (bits_of_word places.old) (entries_in_word self.now.entries at) 0 found.0 found.1) }
        ensures rest { IfSome result (λ found. bits_of_word places.new ≡ bits_after places.old found.0) }
        ensures element { IfSome result (λ found. IsElement self.now.order found.1) }
    {
        self.blocks[at].next_within::<Q>(places)
    }

    /// Adds a multiple of a row over the same field, which has Q elements, and of the same length: each entry d becomes
    /// d + c s, where c is the scalar, which is not 0, and s the row's entry.
    #[inline(always)]
    pub fn add_scaled_in<const Q: u8>(&mut self, scalar: u8, other: &Row)
        requires order { order_number self.old.order ≡ Q }
        requires field { other.now.order ≡ self.old.order }
        requires fits { length other.now.entries ≡ length self.old.entries }
        requires element { IsElement self.old.order scalar }
        requires nonzero { scalar ≢ 0 }
        ensures sum { self.new ≡ row_with_multiple self.old scalar other.now }
        ensures as_long { length self.new.entries ≡ length self.old.entries }
        ensures well_formed { IsRow self.new }
    {
        // Read for what is known of a row that is held: how many words its planes have.
        let _len = self.len;
        let others = other.bit_blocks::<Q, W>();
        add_multiples::<Q, W>(&mut self.blocks, 0, scalar, &others);
    }

    /// Adds a multiple of a row as [`HeldRow::add_scaled_in`] does, where its entries before the word at an index are 0,
    /// and its block there is given: so that what the word at that index is then doesn't wait for the row to be read.
    #[inline(always)]
    pub fn add_scaled_from_block<const Q: u8>(
        &mut self,
        at: usize,
        scalar: u8,
        block: &BitBlock,
        other: &Row,
    )
        requires order { order_number self.old.order ≡ Q }
        requires word { at < W }
        requires field { other.now.order ≡ self.old.order }
        requires fits { length other.now.entries ≡ length self.old.entries }
        requires zeros { AreZerosBefore other.now.entries (at * 64) }
        requires block { IsBlock other.now.order (entries_in_word other.now.entries at) block.now }
        requires element { IsElement self.old.order scalar }
        requires nonzero { scalar ≢ 0 }
        ensures sum { self.new ≡ row_with_multiple self.old scalar other.now }
        ensures as_long { length self.new.entries ≡ length self.old.entries }
        ensures well_formed { IsRow self.new }
    {
        // Read for what is known of a row that is held: how many words its planes have.
        let _len = self.len;
        let mut others = other.bit_blocks::<Q, W>();
        others[at] = *block;
        add_multiples::<Q, W>(&mut self.blocks, at, scalar, &others);
    }

    /// Multiplies the row by x, over a field of Q elements that is not prime.
    #[inline(always)]
    pub fn multiply_by_x<const Q: u8>(&mut self)
        requires order { order_number self.old.order ≡ Q }
        requires not_prime { degree_of self.old.order ≢ 1 }
        ensures multiple { self.new ≡ multiple_row (prime_of self.old.order) self.old }
        ensures as_long { length self.new.entries ≡ length self.old.entries }
        ensures well_formed { IsRow self.new }
    {
        let mut blocks = [BitBlock::zeros(); W];
        add_multiples::<Q, W>(&mut blocks, 0, prime_of_size::<Q>(), &self.blocks);
        self.blocks = blocks;
    }
}

/// Adds to each block from a place on the multiple by a scalar other than 0 of the other block at its place, over a field
/// of Q elements.
#[inline(always)]
fn add_multiples<const Q: u8, const W: usize>(
    blocks: &mut [BitBlock; W],
    start: usize,
    scalar: u8,
    others: &[BitBlock; W],
)
    requires nonzero { scalar ≢ 0 }
    ensures as_many { length blocks.new ≡ W }
    ensures before { (k : ℕ) → k < start → block_at blocks.new k ≡ block_at blocks.old k }
    ensures added { (k : ℕ) → start ≤ k → k < W →
        IsBlockWithMultiple Q scalar (block_at blocks.old k) (block_at others.now k) (block_at blocks.new k) }
{
    for at in start..W {
        let mut block = blocks[at];
        block.add_scaled_in::<Q>(scalar, &others[at]);
        blocks[at] = block;
    }
}

/// The words of a plane modulo 2 that has W of them.
#[inline(always)]
fn words_of_bits<const W: usize>(plane: &Plane) -> [u64; W]
    requires prime { prime_of_plane plane.now ≡ 2 }
    requires words { (length (digits_of plane.now) + 63) / 64 ≡ W }
    ensures { (k i : ℕ) → k < W → i < 64 →
        bit_at (slice_index result k) i ≡ slice_index (digits_of plane.now) (k * 64 + i) }
{
    let mut words = [0; W];
    if let Plane::Bits(plane) = plane {
        let from = plane.words();
        for at in 0..W {
            words[at] = from[at];
        }
    }
    words
}

/// The words of the ones and those of the twos of a plane modulo 3 that has W of each.
#[inline(always)]
fn words_of_layers<const W: usize>(plane: &Plane) -> ([u64; W], [u64; W])
    requires prime { prime_of_plane plane.now ≡ 3 }
    requires words { (length (digits_of plane.now) + 63) / 64 ≡ W }
    ensures { (k i : ℕ) → k < W → i < 64 →
        bit_at (slice_index result.0 k) i + 2 * bit_at (slice_index result.1 k) i
        ≡ slice_index (digits_of plane.now) (k * 64 + i) }
{
    let (mut ones, mut twos) = ([0; W], [0; W]);
    if let Plane::Trits(plane) = plane {
        let (from_ones, from_twos) = plane.layers();
        for at in 0..W {
            ones[at] = from_ones[at];
            twos[at] = from_twos[at];
        }
    }
    (ones, twos)
}

/// The blocks that have these words.
#[inline(always)]
fn blocks_of_words<const W: usize>(
    ones: &[u64; W],
    twos: &[u64; W],
    high_ones: &[u64; W],
    high_twos: &[u64; W],
) -> [BitBlock; W]
    ensures { (k : ℕ) → k < W → block_at result k ≡ record {
      ones = slice_index ones.now k;
      twos = slice_index twos.now k;
      high_ones = slice_index high_ones.now k;
      high_twos = slice_index high_twos.now k;
    } }
{
    let mut blocks = [BitBlock::zeros(); W];
    for at in 0..W {
        blocks[at] = BitBlock {
            ones: ones[at],
            twos: twos[at],
            high_ones: high_ones[at],
            high_twos: high_twos[at],
        };
    }
    blocks
}

/// The prime of a field of Q elements, of characteristic 2 or 3.
#[inline(always)]
fn prime_of_size<const Q: u8>() -> u8
    ensures { (o : Order) → order_number o ≡ Q → prime_of o ≤ 3 → result ≡ prime_of o }
{
    if Q == 3 || Q == 9 { 3 } else { 2 }
}

/// The degree of a field of Q elements, of characteristic 2 or 3.
#[inline(always)]
fn degree_of_size<const Q: u8>() -> u8
    ensures { (o : Order) → order_number o ≡ Q → prime_of o ≤ 3 → result ≡ degree_of o }
{
    if Q == 8 {
        return 3;
    }
    if Q == 4 || Q == 9 {
        return 2;
    }
    1
}
