// What keeps the program from doing its job.
use refusals::Refusal;
use std::alloc::AllocError;
use std::io;
use thiserror::Error;

#[derive(Debug, Drop, Error)]
pub enum Failure {
    // the sheets are not in order
    #[error("{0}")]
    TurnedDown(#[from] Refusal),
    #[error("lathecress: check takes two files: lathecress check NETWORK ORDER")]
    CheckMisused,
    #[error("lathecress: --help stands alone: lathecress --help")]
    HelpMisused,
    #[error("lathecress: there is no command '{0}': lathecress --help says what there is")]
    NoCommand(String),
    // the file of this name, and why it cannot be read
    #[error("lathecress: cannot read '{0}': {1}")]
    Unread(String, io::Error),
    // the runtime's input or output failed
    #[error("lathecress: {0}")]
    Stream(#[from] io::Error),
}

impl From<AllocError> for Failure {
    fn from(error: AllocError) -> Failure {
        Failure::TurnedDown(Refusal::from(error))
    }
}
