//! Words that are drawn by number.

ghost use Rattle.std.specs.Prelude.{◌≡◌, ◌≢◌, ◌+◌, ◌<◌, ◌≤◌, length};
ghost use Rattle.rand_pcg.specs.Lcg.{Lcg};
ghost use Rattle.axe_algebra.specs.WordsOfLists.{IsWordOver};
ghost use Rattle.axe_field.specs.Order.{Order, order_number};
ghost use Rattle.axe_field.specs.NumberFields.{number_field};
ghost use Rattle.axe_spin.specs.Limits.{most_generators};
ghost use Rattle.axe_word.specs.Limits.{most_numbers};
ghost use Rattle.axe_word.specs.Words.{IsWord};
ghost use Rattle.axe_word.specs.Drawing.{draw, drawn_term, word_from, drawn_word, IsOrder};

use crate::stored::StoredTerm;
use crate::word::Word;
use crate::{MAX_NUMBERS, MAX_TERMS};
use rand_core::utils::NextWord;
use rand_pcg::Lcg64Xsh32;

/// The word of a seed and a number for the field of an order and a number of generators, 1 to 16. Word 0 has no
/// terms. Every other one is drawn from the generator `Lcg64Xsh32::new(seed, number)`, each draw being its next word:
/// how many terms there are is 1 plus a draw modulo 4; each term in turn has the coefficient 1 plus a draw modulo the
/// order less 1, then a length, a draw modulo 7, and then as many generator numbers, each a draw modulo the number of
/// generators. A draw is taken also where it can give only one value. It takes no memory.
pub fn nth_word(seed: u64, number: u32, order: u8, gens: u8) -> Word
    requires order { IsOrder order }
    requires some_generator { 1 ≤ gens }
    requires generators_fit { gens ≤ most_generators }
    ensures drawn { result ≡ drawn_word seed number order gens }
    ensures over { (o : Order) → order_number o ≡ order → IsWordOver (number_field o) gens result }
    ensures well_formed { IsWord result }
{
    if number == 0 {
        return Word::zero();
    }
    let mut generator = Lcg64Xsh32::new(seed, u64::from(number));
    word_from(&mut generator, order, gens)
}

/// The word of the draws of a generator.
fn word_from(generator: &mut Lcg64Xsh32, order: u8, gens: u8) -> Word
    requires order { 2 ≤ order }
    requires some_generator { 1 ≤ gens }
    ensures { result ≡ word_from order gens generator.old }
{
    let count = 1 + draw(generator, MAX_TERMS as u8);
    let mut word = Word::zero();
    for _ in 0..count {
        let term = draw_term(generator, order, gens);
        word.push(term);
    }
    word
}

/// A drawn term.
fn draw_term(generator: &mut Lcg64Xsh32, order: u8, gens: u8) -> StoredTerm
    requires order { 2 ≤ order }
    requires some_generator { 1 ≤ gens }
    ensures drawn { (result, generator.new) ≡ drawn_term order gens generator.old }
    ensures nonzero { result.0 ≢ 0 }
    ensures fits { length result.1 ≤ most_numbers }
{
    let coefficient = 1 + draw(generator, order - 1);
    let count = draw(generator, MAX_NUMBERS as u8 + 1);
    let mut term = StoredTerm::new(coefficient);
    for _ in 0..count {
        let number = draw(generator, gens);
        term.push(number);
    }
    term
}

/// A draw modulo a number: the generator's next word modulo it.
#[tactic(auto, unfolding(crate::specs::Drawing::draw))]
fn draw(generator: &mut Lcg64Xsh32, modulus: u8) -> u8
    requires { 1 ≤ modulus }
    ensures drawn { (result, generator.new) ≡ draw modulus generator.old }
    ensures below { result < modulus }
{
    (generator.next_word() % u32::from(modulus)) as u8
}
