//! Products of elements by products over the prime field.
ghost use Rattle.std.specs.Prelude.{◌≡◌};
ghost use Rattle.axe_field.specs.Forms.{prime_order, AreProductTerms};

use crate::Field;

/// A term of a sum that is the product of two elements: the product of the values that a linear form over the prime
/// field takes at them, times a weight.
#[derive(Clone, Copy)]
pub struct ProductTerm {
    /// By what the coefficients of 1, x and x^2 of an element count in the form's value.
    pub form: [u8; 3],
    /// The number of the element that the product of two values is multiplied by.
    pub weight: u8,
}

/// The one term over a prime field.
const PRIME: [ProductTerm; 1] = [ProductTerm {
    form: [1, 0, 0],
    weight: 1,
}];

/// The terms over the field of four elements, of which x^2 is x + 1.
const FOUR: [ProductTerm; 3] = [
    ProductTerm {
        form: [1, 0, 0],
        weight: 3,
    },
    ProductTerm {
        form: [0, 1, 0],
        weight: 1,
    },
    ProductTerm {
        form: [1, 1, 0],
        weight: 2,
    },
];

/// The terms over the field of eight elements, of which x^3 is x + 1.
const EIGHT: [ProductTerm; 6] = [
    ProductTerm {
        form: [1, 0, 0],
        weight: 7,
    },
    ProductTerm {
        form: [0, 1, 0],
        weight: 5,
    },
    ProductTerm {
        form: [0, 0, 1],
        weight: 1,
    },
    ProductTerm {
        form: [1, 1, 0],
        weight: 2,
    },
    ProductTerm {
        form: [1, 0, 1],
        weight: 4,
    },
    ProductTerm {
        form: [0, 1, 1],
        weight: 3,
    },
];

/// The terms over the field of nine elements, of which x^2 is x + 1.
const NINE: [ProductTerm; 3] = [
    ProductTerm {
        form: [1, 0, 0],
        weight: 7,
    },
    ProductTerm {
        form: [0, 1, 0],
        weight: 1,
    },
    ProductTerm {
        form: [1, 1, 0],
        weight: 3,
    },
];

impl Field {
    /// The field of the integers modulo the prime, whose elements have the same numbers in this field.
    pub fn prime_field(&self) -> Field
        ensures { result ≡ prime_order self.now }
    {
        let prime = self.prime;
        Field {
            order: prime,
            prime,
            degree: 1,
        }
    }

    /// Terms whose sum is the product of any two elements, by products over the prime field: one over a prime field,
    /// three over a field of degree 2, and six over one of degree 3.
    pub fn product_terms(&self) -> &'static [ProductTerm]
        ensures { AreProductTerms self.now result.now }
    {
        match self.order {
            4 => &FOUR,
            8 => &EIGHT,
            9 => &NINE,
            _ => &PRIME,
        }
    }
}
