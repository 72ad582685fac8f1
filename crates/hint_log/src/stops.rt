//! Why a counted step wasn't taken.

ghost use Rattle.std.specs.Prelude.{◌≡◌};
ghost use Rattle.hint_log.specs.declared.stops.Stop.TheVariants.{Memory as OutOfMemory};

use dq_lits::Memory;
use thiserror::Error;

/// Why a counted step wasn't taken.
#[derive(Clone, Copy, Debug, PartialEq, Eq, Error)]
pub enum Stop {
    #[error("out of memory")]
    Memory,
    #[error("the limit of counted steps is reached")]
    Limit,
}

impl From<Memory> for Stop {
    ghost from_gives = { λ _ stop. stop ≡ OutOfMemory };

    fn from(_refused: Memory) -> Stop {
        Stop::Memory
    }
}
