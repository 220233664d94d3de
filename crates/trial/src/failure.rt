// What keeps a call of a script from its value.
use book::refusal::Refusal;
use std::alloc::AllocError;
use thiserror::Error;

/// A refusal, which is an answer too, or want of memory, which ends the program.
#[derive(Debug, Drop, Error)]
pub enum Failure {
    #[error("{0}")]
    Refused(#[from] Refusal),
    #[error("{0}")]
    Memory(#[from(alloc)] AllocError),
}

/// The answer to a call: its value or its refusal.
pub(crate) fn answer<T>(outcome: Result<T, Failure>) -> Result<Result<T, Refusal>, AllocError> {
    match outcome {
        Ok(value) => Ok(Ok(value)),
        Err(Failure::Refused(refusal)) => Ok(Err(refusal)),
        Err(Failure::Memory(error)) => Err(error),
    }
}
