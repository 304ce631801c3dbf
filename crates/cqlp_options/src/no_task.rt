//! What is in place of options.

ghost use Rattle.std.specs.Prelude.{◌≡◌, ◌≢◌, ◌⊎◌, true};
ghost use Rattle.clap.specs.Words.{kind_of};
ghost use Rattle.cqlp_options.specs.NoTasks.{may_complain, may_help};

use clap::error::ErrorKind;
use std::alloc::Global;
use thiserror::Error;

/// Why a command line starts no task.
#[derive(Debug, Drop, Error)]
pub enum NoTask {
    /// Help or the version was asked for, with this text.
    #[error("{0}")]
    Help(String),
    /// It is no command line of the program: what is wrong with it.
    #[error("{0}")]
    Mistake(String),
    /// There was no memory to read it, or for a text.
    #[error("no memory")]
    NoMemory,
}

/// What an error of the command line's parser says.
pub(crate) fn no_task_of(alloc: Global, error: &clap::Error) -> NoTask
    ensures help { (kind_of error.now ≡ ErrorKind.DisplayHelp) ⊎ (kind_of error.now ≡ ErrorKind.DisplayVersion) →
        may_help result ≡ true }
    ensures mistake { kind_of error.now ≢ ErrorKind.DisplayHelp → kind_of error.now ≢ ErrorKind.DisplayVersion →
        may_complain result ≡ true }
{
    let text = match error.kind() {
        ErrorKind::OutOfMemory => None,
        _ => error.to_string(alloc).ok(),
    };
    match text {
        None => NoTask::NoMemory,
        Some(text) if error.use_stderr() => NoTask::Mistake(text),
        Some(text) => NoTask::Help(text),
    }
}
