//! Why a call of a file or a sink, or a reading or writing over many, failed.

ghost use Rattle.std.specs.Prelude.{◌≡◌};
ghost use Rattle.dq_io.specs.declared.errors.ReadStop.TheVariants.{Memory, Fault};

use std::alloc::{AllocError, AllocFailed};
use thiserror::Error;

/// A call of a file or a sink failed, and the object counted a fault.
#[derive(Clone, Copy, Debug, PartialEq, Eq, Error)]
#[error("the call failed")]
pub struct Failed;

/// Why a file wasn't read to its end.
#[derive(Clone, Copy, Debug, PartialEq, Eq, Error)]
pub enum ReadStop {
    /// Want of memory.
    #[error("out of memory")]
    Memory,
    /// The files counted a fault.
    #[error("the file can't be read")]
    Fault,
    /// The file gave more bytes than the limit.
    #[error("the file is too long")]
    TooLong,
}

impl From<AllocError> for ReadStop {
    ghost from_gives = { λ _ stop. stop ≡ Memory };

    fn from(_refused: AllocError) -> ReadStop {
        ReadStop::Memory
    }
}

impl<T: Drop> From<AllocFailed<T>> for ReadStop {
    ghost from_gives = { λ _ stop. stop ≡ Memory };

    fn from(_refused: AllocFailed<T>) -> ReadStop {
        ReadStop::Memory
    }
}

impl From<Failed> for ReadStop {
    ghost from_gives = { λ _ stop. stop ≡ Fault };

    fn from(_failed: Failed) -> ReadStop {
        ReadStop::Fault
    }
}

/// Why a file wasn't fed to its end.
#[derive(Clone, Copy, Debug, PartialEq, Eq, Error)]
pub enum FeedStop {
    /// The files counted a fault.
    #[error("the file can't be read")]
    Fault,
    /// The file gave more bytes than the limit.
    #[error("the file is too long")]
    TooLong,
}

/// A sink counted a fault before it had taken all bytes.
#[derive(Clone, Copy, Debug, PartialEq, Eq, Error)]
#[error("the output can't be written")]
pub struct SinkFault;

impl From<Failed> for SinkFault {
    fn from(_failed: Failed) -> SinkFault {
        SinkFault
    }
}
