// Why the reading of a line stops short.
ghost use Rattle.std.specs.Prelude.{◌≡◌};
ghost use Rattle.script.specs.Arguments.{stop_at};
ghost use Rattle.script.specs.declared.stop.Stop.TheVariants.{Memory};

use crate::mistake::{Fault, Mistake};
use std::alloc::{AllocError, AllocFailed};

/// A mistake in the line, or no memory.
#[derive(Clone, Copy, PartialEq, Eq, Debug)]
pub enum Stop {
    Mistake(Mistake),
    Memory,
}

/// The fault of a word, counted from 1.
pub(crate) fn blame(word: usize, fault: Fault) -> Stop
    ensures { result ≡ stop_at word fault }
{
    Stop::Mistake(Mistake { word, fault })
}

impl From<AllocError> for Stop {
    ghost from_gives = { λ _ r. r ≡ Memory };

    fn from(_e: AllocError) -> Stop {
        Stop::Memory
    }
}

// A push that fails hands its value back with this error, and `?` lets the value go.
impl<T: Drop> From<AllocFailed<T>> for Stop {
    ghost from_gives = { λ _ r. r ≡ Memory };

    fn from(_e: AllocFailed<T>) -> Stop {
        Stop::Memory
    }
}
