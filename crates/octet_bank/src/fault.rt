//! Why the program ends early.
use octet_base::DeskFault;
use octet_model::OutOfMemory;
use octet_replay::ReplayFault;
use octet_rerun::RerunFault;
use std::alloc::AllocError;
use thiserror::Error;

/// Why the program ends early.
#[derive(Debug, Drop, Error)]
pub(crate) enum Fault {
    #[error("two amounts below 4,294,967,296 are wanted, as in `octet_bank 30 50`")]
    Words,
    #[error("out of memory")]
    Memory,
    #[error("a file or a line cannot be written")]
    Write,
    #[error("the recording is not run again: {0}")]
    Recording(RerunFault),
    #[error("a teller has left the recording")]
    Left,
}

impl Fault {
    /// The exit status.
    pub(crate) fn code(&self) -> u8 {
        match self {
            Fault::Words => 1,
            Fault::Memory => 2,
            Fault::Write => 3,
            Fault::Recording(_) => 4,
            Fault::Left => 5,
        }
    }
}

impl From<OutOfMemory> for Fault {
    fn from(_: OutOfMemory) -> Self {
        Fault::Memory
    }
}

impl From<AllocError> for Fault {
    fn from(_: AllocError) -> Self {
        Fault::Memory
    }
}

impl From<DeskFault> for Fault {
    fn from(fault: DeskFault) -> Self {
        match fault {
            DeskFault::OutOfMemory => Fault::Memory,
            _ => Fault::Write,
        }
    }
}

impl From<RerunFault> for Fault {
    fn from(fault: RerunFault) -> Self {
        match fault {
            RerunFault::Replay(ReplayFault::OutOfMemory) => Fault::Memory,
            fault => Fault::Recording(fault),
        }
    }
}
