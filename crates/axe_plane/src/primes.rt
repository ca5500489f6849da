//! The primes whose digits are kept in bytes.
ghost use Rattle.std.specs.Prelude.{◌≡◌};

/// 5 or 7.
#[derive(Debug, Clone, Copy, PartialEq, Eq)]
pub enum BytePrime {
    /// 5.
    Five,
    /// 7.
    Seven,
}

impl BytePrime {
    ghost use Rattle.axe_plane.specs.Primes.{byte_prime};

    /// The prime as a number.
    pub fn number(self) -> u8
        ensures { result ≡ byte_prime self }
    {
        match self {
            BytePrime::Five => 5,
            BytePrime::Seven => 7,
        }
    }
}
