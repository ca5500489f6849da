//! Values of words on invariant spans.

ghost use Rattle.axe_algebra.specs.NumberField.{NumberField};
ghost use Rattle.axe_algebra.specs.Bridge.{field_of};
ghost use Rattle.axe_algebra.specs.NortonTheorems.{WordValueIsMatrix, WordValueKeepsInvariantSpans, WordValueMapsOnto};

/// The value of a word is a square matrix that keeps every invariant span.
pub fn word_value_keeps_invariant_spans()
    ensures square { (K : NumberField) → WordValueIsMatrix (field_of K) }
    ensures keeps { (K : NumberField) → WordValueKeepsInvariantSpans (field_of K) }
{}

/// Where the value of a word has no nonzero null vector in an invariant span, it maps that span onto itself.
pub fn word_value_maps_onto()
    ensures { (K : NumberField) → WordValueMapsOnto (field_of K) }
{}
