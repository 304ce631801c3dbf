//! Bytes that go to a target at once.

ghost use Rattle.std.specs.Prelude.{◌≡◌, IsSome};
ghost use Rattle.cqlp_text.specs.Outputs.{AppendsText, written};
ghost use Rattle.cqlp_text.specs.Written.{Writes, unbuffered};

use cqlp_grammar::SinkFault;
use cqlp_note::{Target, offer};

/// Appends a text as it is. A fault is the writer's own.
pub fn put_text<W: Target>(text: &str, w: &mut W) -> Result<(), SinkFault>
    ensures { AppendsText (written W.Target w.old) text.now result (written W.Target w.new) }
{
    send(w, text.as_bytes())
}

/// Passes on all of the bytes.
#[inline(always)]
pub(crate) fn send<W: Target>(target: &mut W, bytes: &[u8]) -> Result<(), SinkFault>
    ensures { Writes (unbuffered W.Target target.old) bytes.now result (unbuffered W.Target target.new) }
{
    if offer(target, bytes) < bytes.len() {
        Err(SinkFault)
    } else {
        Ok(())
    }
}
