//! How a check stops.

ghost use Rattle.std.specs.Prelude.{◌≡◌, IfOk, string_bytes};

use axe_matrix::Refusal;
use axe_report::{Reason, ReportFactor};
use std::alloc::{AllocError, AllocFailed, Global};

/// Why a check stops: it found a reason, or had no memory.
#[derive(Drop)]
pub(crate) enum Stop {
    Because(Reason),
    Memory,
}

impl From<Refusal> for Stop {
    ghost use Rattle.std.specs.Prelude.{◌≡◌};
    ghost use Rattle.axe_check.specs.declared.reasons.Stop.TheVariants.{Memory};

    ghost from_gives = { λ _ stop. stop ≡ Memory };

    fn from(_refusal: Refusal) -> Stop {
        Stop::Memory
    }
}

impl From<AllocError> for Stop {
    ghost use Rattle.std.specs.Prelude.{◌≡◌};
    ghost use Rattle.axe_check.specs.declared.reasons.Stop.TheVariants.{Memory};

    ghost from_gives = { λ _ stop. stop ≡ Memory };

    fn from(_error: AllocError) -> Stop {
        Stop::Memory
    }
}

impl<T: Drop> From<AllocFailed<T>> for Stop {
    ghost use Rattle.std.specs.Prelude.{◌≡◌};
    ghost use Rattle.axe_check.specs.declared.reasons.Stop.TheVariants.{Memory};

    ghost from_gives = { λ _ stop. stop ≡ Memory };

    fn from(_error: AllocFailed<T>) -> Stop {
        Stop::Memory
    }
}

/// The name of a constituent.
pub(crate) fn name_of(alloc: Global, reported: &ReportFactor) -> Result<String, AllocError>
    ensures { IfOk result (λ name. string_bytes name ≡ reported.now.name) }
{
    String::from_str(alloc, reported.name())
}
