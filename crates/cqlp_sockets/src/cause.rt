//! Why calls fail.

ghost use Rattle.std.specs.Prelude.{◌≡◌};
ghost use Rattle.std.specs.IoError.{error_kind};
ghost use Rattle.cqlp_sockets.specs.Causes.{cause_of};

use std::io;
use std::io::ErrorKind;

/// Why a call of a reader or a writer failed.
#[derive(Clone, Copy, Debug, PartialEq, Eq)]
pub enum Cause {
    /// The call would wait: it is to be made again once the socket is ready. [`ErrorKind::WouldBlock`].
    WouldBlock,
    /// A signal came first: it may be made again at once. [`ErrorKind::Interrupted`].
    Interrupted,
    /// A writer took nothing of some bytes, and said no error.
    TookNothing,
    /// Any other error. A socket is of no more use then.
    Failed,
}

impl Cause {
    /// What an error of std's says.
    #[must_use]
    pub fn of(error: &io::Error) -> Cause
        ensures { result ≡ cause_of (error_kind error.now) }
    {
        match error.kind() {
            ErrorKind::WouldBlock => Cause::WouldBlock,
            ErrorKind::Interrupted => Cause::Interrupted,
            _ => Cause::Failed,
        }
    }
}
