//! Numbers whose digits in base 3 are bits.
ghost use Rattle.std.specs.Prelude.{ℕ, ◌≡◌, ◌^◌, ◌<◌, ◌≤◌};
ghost use Rattle.axe_algebra.specs.Digits.{digits, number_with_digits};

/// The numbers whose digits in base 3 are four bits, by the numbers that have these digits in base 2.
const BASE_THREE: [usize; 16] = [0, 1, 3, 4, 9, 10, 12, 13, 27, 28, 30, 31, 36, 37, 39, 40];

/// The number whose digits in base 3 are those that a number of up to eight digits has in base 2: the higher four count
/// 81 times as much as the lower four.
#[inline]
pub(crate) fn in_base_three(number: usize) -> usize
    requires { number < 256 }
    ensures value { (size : ℕ) → size ≤ 8 → number < 2 ^ size →
        result ≡ number_with_digits 3 (digits 2 size number) }
    ensures small { result < 6561 }
{
    BASE_THREE[number / 16] * 81 + BASE_THREE[number % 16]
}
