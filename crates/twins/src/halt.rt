// Why a run stops before its end.
use fault::Fault;
use std::alloc::AllocFailed;
use std::io;
use thiserror::Error;

#[derive(Debug, Drop, Error)]
pub enum Halt {
    // a call that was refused
    #[error("{0}")]
    Call(#[from] Fault),
    #[error("output: {0}")]
    Output(#[from] io::Error),
    #[error("out of memory")]
    Memory,
}

// By hand, since a derived one would hold the error, and the run's last line would show it.
impl<T: Drop> From<AllocFailed<T>> for Halt {
    fn from(_value: AllocFailed<T>) -> Halt {
        Halt::Memory
    }
}
