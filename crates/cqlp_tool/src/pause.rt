//! Waits while a capture is followed.

use libc::STDIN_FILENO;
use libc::net::{POLLHUP, poll};
use libc::types::pollfd;

/// How long a pause is, in milliseconds.
const PAUSE: i32 = 250;

/// Waits a quarter of a second. True, perhaps sooner, where standard input is a pipe that nothing writes to any more: so ends what is followed.
pub(crate) fn is_over_after_pause() -> bool {
    let mut input = [pollfd {
        fd: STDIN_FILENO,
        events: 0,
        revents: 0,
    }];
    if poll(&mut input, PAUSE) < 1 {
        return false;
    }
    if input[0].revents & POLLHUP != 0 {
        return true;
    }
    // It is closed, so that there is nothing to wait for.
    let _ = poll(&mut [], PAUSE);
    false
}
