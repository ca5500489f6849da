//! Single digits of planes.
ghost use Rattle.std.specs.Prelude.{◌≡◌, slice_index};
ghost use Rattle.axe_plane.specs.Planes.{digits_of};

use crate::Plane;

impl Plane {
    /// The digit at an index, counted from 0, and 0 from the length on.
    #[inline(always)]
    pub fn get(&self, index: usize) -> u8
        ensures { result ≡ slice_index (digits_of self.now) index }
    {
        match self {
            Plane::Bits(bits) => bits.get(index),
            Plane::Trits(_) | Plane::Bytes(_) => self.digit_modulo_odd(index),
        }
    }

    /// The digit at an index, as `get` gives it, but without a call modulo any prime: for a caller that itself stands
    /// apart.
    #[inline(always)]
    pub fn digit(&self, index: usize) -> u8
        ensures { result ≡ slice_index (digits_of self.now) index }
    {
        match self {
            Plane::Bits(plane) => plane.get(index),
            Plane::Trits(plane) => plane.get(index),
            Plane::Bytes(plane) => plane.get(index),
        }
    }

    /// The digit at an index of a plane modulo an odd prime. It stands apart so that `get` is short where it is asked
    /// most, modulo 2.
    #[inline(never)]
    fn digit_modulo_odd(&self, index: usize) -> u8
        ensures { result ≡ slice_index (digits_of self.now) index }
    {
        self.digit(index)
    }
}
