//! Bytes on their way to a target.

ghost use Rattle.std.specs.Prelude.{◌≡◌, ◌==◌, ◌&&◌, nat_lt, length};
ghost use Rattle.cqlp_note.specs.Outputs.{Offered, written};
ghost use Rattle.cqlp_note.specs.Streams.{counted};

use crate::streams::Target;

/// Passes bytes on until the target fails, and answers how many it took. A call that takes only some of the bytes is
/// followed by one with all the others, so at most one call takes all that it is given; no bytes take no call.
pub fn offer<W: Target>(target: &mut W, bytes: &[u8]) -> usize
    ensures offered { Offered (written W.Target target.old) bytes.now result (written W.Target target.new) }
    ensures writes { W.writes target.new ≡ counted (nat_lt 0 (length bytes.now) && (result == length bytes.now)) (W.writes target.old) }
{
    let mut sent = 0;
    while sent < bytes.len() {
        let Ok(count) = target.write(&bytes[sent..]) else {
            break;
        };
        if count == 0 {
            break;
        }
        sent += count;
    }
    sent
}
