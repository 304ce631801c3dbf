//! Laws of what is reported and recorded of a capture. No code needs them.

ghost use Rattle.cqlp_capture_streams.specs.Laws.{GetTheirBytes, OneAnswerOfReadCapture, OneAnswerOfWriteStreams};

use crate::listener::Listener;

/// Where no fault comes, `read_capture` has one answer: from the same bytes, limits and ports the same view of a listener that was the same
/// before, and the same word on what the capture was.
pub fn one_answer_of_read_capture<L: Listener>()
    ensures { OneAnswerOfReadCapture L.after L.faulted }
{}

/// Where nothing outside fails, `write_streams` has one answer: from the same bytes and ports the same calls of files, the same lines and
/// the same status.
pub fn one_answer()
    ensures { OneAnswerOfWriteStreams }
{}

/// Each file gets the bytes that its direction delivers, in order, and no others.
pub fn files_get_their_bytes()
    ensures { GetTheirBytes }
{}
