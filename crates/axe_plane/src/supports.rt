//! The supports of planes, a word at a time.
ghost use Rattle.axe_layer.specs.Supports.{IsSupportWord};
ghost use Rattle.axe_plane.specs.Planes.{digits_of};

use crate::{BytePlane, Plane};
use axe_lane::{WORD, support_of_bytes};

impl Plane {
    /// The word at an index of the plane's support, counted from 0: its bit i, counted from the lowest, is 0 exactly
    /// where the digit 64 times the index plus i is 0 or missing.
    #[inline(always)]
    pub fn support_word(&self, at: usize) -> u64
        ensures { IsSupportWord (digits_of self.now) at result }
    {
        match self {
            Plane::Bits(plane) => plane.word(at),
            Plane::Trits(plane) => plane.support_word(at),
            Plane::Bytes(plane) => plane.support_word(at),
        }
    }
}

impl BytePlane {
    /// The word at an index of the plane's support, counted from 0.
    #[inline(never)]
    pub fn support_word(&self, at: usize) -> u64
        ensures { IsSupportWord self.now.digits at result }
    {
        if at < self.len().div_ceil(WORD) {
            support_of_bytes(self.bytes(), at * WORD)
        } else {
            0
        }
    }
}
