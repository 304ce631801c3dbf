//! A whole stream at once.

ghost use Rattle.std.specs.Prelude.{◌≡◌};
ghost use Rattle.cqlp_decode.specs.Streams.{state};
ghost use Rattle.cqlp_c.specs.Checks.{Checks, Drains};
ghost use Rattle.cqlp_c.specs.Shown as shown;

use crate::batch::{Stop, fill, or_none};
use crate::course::CqlpBegun;
use crate::event::CqlpEvent;
use crate::numbers::*;
use crate::shown::*;
use cqlp_decode::Decoder;
use std::alloc::Global;

/// Takes all events of a stream, as far as it is not refused.
fn drain(decoder: &mut Decoder<Global>, stream: &[u8])
    ensures drains { Drains (state decoder.old) (state decoder.new) stream.now }
    ensures rules { (state decoder.new).rules ≡ (state decoder.old).rules }
{
    let mut events = [CqlpEvent::blank(0); 64];
    let mut frame = CqlpBegun::none();
    let mut used = 0;
    'batches: loop {
        let batch = fill(decoder, &stream[used..], &mut events, &mut frame);
        match batch.stop {
            Stop::More => return,
            Stop::Refused(_) => return,
            Stop::Full => used += batch.used,
        }
    }
}

/// Says how a stream ends that is there whole. Where it has no bytes, its pointer may be null.
#[unsafe(no_mangle)]
pub extern "C" fn cqlp_check(
    alloc: Global,
    limits: &CqlpLimits,
    stream: &[u8],
    end: &mut CqlpEnd,
) -> u32
    ensures { Checks (shown.limits_of limits.now) stream.now result end.old end.new }
{
    match Decoder::new(alloc, limits_of(limits)) {
        Ok(mut decoder) => {
            drain(&mut decoder, or_none(stream));
            *end = end_of(&decoder.finish());
            DONE
        }
        Err(error) => error_code(&error),
    }
}
