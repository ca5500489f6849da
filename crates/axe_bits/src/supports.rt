//! The support of a plane of digits modulo 3, a word at a time: the places of digits other than 0.
ghost use Rattle.axe_layer.specs.Supports.{IsSupportWord};

use crate::TritPlane;

impl TritPlane {
    /// The word at an index of the plane's support, counted from 0: its bit i, counted from the lowest, is 0 exactly
    /// where the digit 64 times the index plus i is 0 or missing.
    #[inline(always)]
    pub fn support_word(&self, at: usize) -> u64
        ensures { IsSupportWord self.now at result }
    {
        let (ones, twos) = self.layers();
        if at < ones.len() {
            ones[at] | twos[at]
        } else {
            0
        }
    }
}
