//! What came of a request.

use crate::reply::Reply;

/// What came of a request.
#[derive(Clone, Copy)]
pub(crate) struct Outcome {
    pub(crate) is_answered: bool,
    /// What the response is, if there is one.
    pub(crate) reply: Option<Reply>,
    /// Whether the response is an ERROR, or did not come to its end.
    pub(crate) is_error: bool,
    pub(crate) rows: u64,
    /// Of the frames of both.
    pub(crate) bytes: u64,
    /// Nanoseconds until the last byte of the response.
    pub(crate) took: Option<u64>,
    /// When the request began, in nanoseconds.
    pub(crate) at: Option<u64>,
}
