//! Sums of digits modulo 5 or 7 whose remainders are not taken yet.
ghost use Rattle.std.specs.Prelude.{ℕ, ◌≡◌, ◌⊎◌, ◌+◌, ◌*◌, ◌<◌, ◌≤◌, [], All, IfOk, length, replicate, slice_index};
ghost use Rattle.axe_lane.specs.Bytes.{AreDigits};
ghost use Rattle.axe_lane.specs.Entries.{AreZerosBefore};
ghost use Rattle.axe_layer.specs.Digits.{digits_with_four, digits_with_multiple};
ghost use Rattle.axe_plane.specs.Addends.{IsAddend};
ghost use Rattle.axe_plane.specs.Planes.{prime_of_plane, digits_of, IsPlane};
ghost use Rattle.axe_plane.specs.Primes.{byte_prime};
ghost use Rattle.axe_plane.specs.Sums.{placed, plane_of_sums, remainders};
ghost use Rattle.axe_plane.specs.Tables.{plane_at, IsEntryFor};

use super::BytePlane;
use crate::remainders::remainder;
use crate::{BytePrime, Plane, PlaneTable};
use axe_lane::{add_multiple_to_sums, add4_multiples_to_sums, add4_wrapping, reduce_bytes};
use std::alloc::{AllocError, Global};
use std::marker::Model;
use std::mem;

/// How many bytes a kernel adds at once.
const BLOCK: usize = 32;

/// A plane modulo 5 or 7 to which others are added: a byte for each digit, which is the digit or greater by a multiple
/// of the prime. The remainders are taken only where a byte has no more room, and in the end.
#[derive(Drop)]
pub struct ByteSums {
    prime: BytePrime,
    // no byte is greater
    most: u8,
    bytes: Vec<u8>,
}

impl Model for ByteSums {
    ghost use Rattle.std.specs.Prelude.{All, ◌≤◌};
    ghost use Rattle.axe_plane.specs.Primes.{byte_prime, ByteDigits};
    ghost use Rattle.axe_plane.specs.Sums.{remainders};

    ghost Value = { ByteDigits };

    ghost view = { λ a. record { prime = a.prime; digits = remainders (byte_prime a.prime) a.bytes.items } };

    ghost invariant = { λ a. All (λ byte. byte ≤ a.most) a.bytes.items };
}

impl ByteSums {
    /// The sums of no planes of `len` digits modulo 5 or 7.
    pub fn zero(alloc: Global, prime: u8, len: usize) -> Result<ByteSums, AllocError>
        requires { (prime ≡ 5) ⊎ (prime ≡ 7) }
        ensures { IfOk result (λ sums. IsPlane prime (replicate len 0) (plane_of_sums sums)) }
    {
        let prime = match prime {
            5 => BytePrime::Five,
            // 7, the one prime that is left
            _ => BytePrime::Seven,
        };
        let bytes = vec![in alloc; 0; len]?;
        Ok(ByteSums {
            prime,
            most: 0,
            bytes,
        })
    }

    /// The digits of a plane modulo 5 or 7 as sums, without a copy. The plane has none left.
    pub fn take(plane: &mut Plane) -> ByteSums
        requires { (prime_of_plane plane.old ≡ 5) ⊎ (prime_of_plane plane.old ≡ 7) }
        ensures sums { plane_of_sums result ≡ plane.old }
        ensures left { IsPlane (prime_of_plane plane.old) [] plane.new }
    {
        match plane {
            Plane::Bytes(plane) => {
                let none = Vec::new(*plane.bytes.allocator());
                ByteSums {
                    prime: plane.prime,
                    most: plane.prime.number() - 1,
                    bytes: mem::replace(&mut plane.bytes, none),
                }
            }
            // The planes modulo other primes are of other kinds.
            _ => unreachable!(),
        }
    }

    /// The plane that the sums stand for, by their remainders, without a copy.
    pub fn into_plane(self) -> Plane
        ensures { result ≡ plane_of_sums self }
    {
        let ByteSums {
            prime,
            mut bytes,
            ..
        } = self;
        reduce_bytes(&mut bytes, prime.number());
        Plane::Bytes(BytePlane { prime, bytes })
    }

    /// The digit at an index, counted from 0, and 0 from the length on.
    #[inline(always)]
    pub fn digit(&self, index: usize) -> u8
        ensures value { result ≡ slice_index self.now.digits index }
        ensures below { result < byte_prime self.now.prime }
    {
        if index < self.bytes.len() {
            remainder(self.prime, self.bytes[index])
        } else {
            0
        }
    }

    /// Adds a multiple of a plane modulo the same prime and of the same length, whose digits before an index are 0, as
    /// [`Plane::add_scaled_from`] does.
    #[inline(always)]
    pub fn add_scaled_from(&mut self, start: usize, factor: u8, other: &Plane)
        requires within { start ≤ length self.old.digits }
        requires prime { prime_of_plane other.now ≡ byte_prime self.old.prime }
        requires factor { factor < byte_prime self.old.prime }
        requires fits { length (digits_of other.now) ≡ length self.old.digits }
        requires zeros { AreZerosBefore (digits_of other.now) start }
        ensures { IsPlane (byte_prime self.old.prime)
            (digits_with_multiple (byte_prime self.old.prime) self.old.digits factor (digits_of other.now))
            (plane_of_sums self.new) }
    {
        let prime = self.prime.number();
        make_room(&mut self.bytes, self.most, prime);
        let from = start_of_blocks(self.bytes.len(), start);
        add_multiple_to_sums(
            &mut self.bytes[from..],
            &other.bytes()[from..],
            factor,
            prime,
        );
        self.most = 16 * prime - 1;
    }

    /// Adds multiples of four planes modulo the same prime and of the same length, in one pass, as
    /// [`Plane::add_four_multiples`] does.
    pub fn add_four_multiples(
        &mut self,
        factors: [u8; 4],
        a: &Plane,
        b: &Plane,
        c: &Plane,
        d: &Plane,
    )
        requires a { IsAddend (plane_of_sums self.old) a.now }
        requires b { IsAddend (plane_of_sums self.old) b.now }
        requires c { IsAddend (plane_of_sums self.old) c.now }
        requires d { IsAddend (plane_of_sums self.old) d.now }
        requires factors { (i : ℕ) → i < 4 → slice_index factors i < byte_prime self.old.prime }
        ensures { IsPlane (byte_prime self.old.prime)
            (digits_with_multiple (byte_prime self.old.prime)
            (digits_with_multiple (byte_prime self.old.prime)
            (digits_with_multiple (byte_prime self.old.prime)
            (digits_with_multiple (byte_prime self.old.prime)
            self.old.digits (slice_index factors 0) (digits_of a.now))
            (slice_index factors 1) (digits_of b.now))
            (slice_index factors 2) (digits_of c.now))
            (slice_index factors 3) (digits_of d.now))
            (plane_of_sums self.new) }
    {
        let prime = self.prime.number();
        make_room(&mut self.bytes, self.most, prime);
        let (a, b, c, d) = (a.bytes(), b.bytes(), c.bytes(), d.bytes());
        add4_multiples_to_sums(&mut self.bytes, a, b, c, d, factors, prime);
        self.most = 16 * prime - 1;
    }

    /// Adds the entries of four tables at these indices, as [`Plane::add_four_entries`] does.
    pub fn add_four_entries(
        &mut self,
        indices: [usize; 4],
        a: &PlaneTable,
        b: &PlaneTable,
        c: &PlaneTable,
        d: &PlaneTable,
    )
        requires a { IsEntryFor (plane_of_sums self.old) a.now (slice_index indices 0) }
        requires b { IsEntryFor (plane_of_sums self.old) b.now (slice_index indices 1) }
        requires c { IsEntryFor (plane_of_sums self.old) c.now (slice_index indices 2) }
        requires d { IsEntryFor (plane_of_sums self.old) d.now (slice_index indices 3) }
        ensures { IsPlane (byte_prime self.old.prime) (digits_with_four (byte_prime self.old.prime) self.old.digits
            (digits_of (plane_at a.now (slice_index indices 0))) (digits_of (plane_at b.now (slice_index indices 1)))
            (digits_of (plane_at c.now (slice_index indices 2))) (digits_of (plane_at d.now (slice_index indices 3))))
            (plane_of_sums self.new) }
    {
        let [first, second, third, fourth] = indices;
        let (a, b) = (a.bytes_of(first), b.bytes_of(second));
        let (c, d) = (c.bytes_of(third), d.bytes_of(fourth));
        self.add_four(a, b, c, d);
    }

    /// Adds the remainders to the digits from an index on of a plane modulo the same prime. The sums stay.
    pub fn add_to(&mut self, plane: &mut Plane, start: usize)
        requires prime { byte_prime self.old.prime ≡ prime_of_plane plane.old }
        requires within { start + length self.old.digits ≤ length (digits_of plane.old) }
        ensures sum { IsPlane (prime_of_plane plane.old)
            (digits_with_multiple (prime_of_plane plane.old) (digits_of plane.old) 1
            (placed (length (digits_of plane.old)) start self.old.digits)) plane.new }
        ensures kept { self.new ≡ self.old }
    {
        let prime = self.prime.number();
        reduce_bytes(&mut self.bytes, prime);
        self.most = prime - 1;
        match plane {
            Plane::Bytes(plane) => plane.add_bytes_at(start, &self.bytes),
            // Planes modulo one prime are of one kind.
            _ => unreachable!(),
        }
    }

    /// Adds four lists of as many digits. The remainders are taken first where a byte may have no room for four digits
    /// more.
    fn add_four(&mut self, a: &[u8], b: &[u8], c: &[u8], d: &[u8])
        requires a_fits { length a.now ≡ length self.old.digits }
        requires b_fits { length b.now ≡ length self.old.digits }
        requires c_fits { length c.now ≡ length self.old.digits }
        requires d_fits { length d.now ≡ length self.old.digits }
        requires a { AreDigits (byte_prime self.old.prime) a.now }
        requires b { AreDigits (byte_prime self.old.prime) b.now }
        requires c { AreDigits (byte_prime self.old.prime) c.now }
        requires d { AreDigits (byte_prime self.old.prime) d.now }
        ensures { self.new ≡ record {
          prime = self.old.prime;
          digits = digits_with_four (byte_prime self.old.prime) self.old.digits a.now b.now c.now d.now;
        } }
    {
        let prime = self.prime.number();
        let more = 4 * (prime - 1);
        if self.most > u8::MAX - more {
            reduce_bytes(&mut self.bytes, prime);
            self.most = prime - 1;
        }
        add4_wrapping(&mut self.bytes, a, b, c, d);
        self.most += more;
    }
}

/// Takes the remainders where a byte may be 16 times the prime or greater: so no byte is.
#[inline(always)]
fn make_room(bytes: &mut [u8], most: u8, prime: u8)
    requires prime { (prime ≡ 5) ⊎ (prime ≡ 7) }
    requires small { All (λ byte. byte ≤ most) bytes.old }
    ensures kept { remainders prime bytes.new ≡ remainders prime bytes.old }
    ensures below { AreDigits (16 * prime) bytes.new }
{
    if most >= 16 * prime {
        reduce_bytes(bytes, prime);
    }
}

/// An index up to `start` from which on a list of `len` bytes has whole blocks alone, or 0.
#[inline(always)]
fn start_of_blocks(len: usize, start: usize) -> usize
    requires { start ≤ len }
    ensures { result ≤ start }
{
    let rest = (len - start) % BLOCK;
    start.saturating_sub((BLOCK - rest) % BLOCK)
}
