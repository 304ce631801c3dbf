//! Laws of limits: what they refuse, and that they change nothing else.

ghost use Rattle.cqlp_decode.specs.Streams.{IsWithin, state};
ghost use Rattle.cqlp_laws.specs.Limits.{AskedLimitsOnlyCut, FreeHasNoLimit, LimitsCutAtFirstExcess, LimitsOnlyCut};

use cqlp_decode::{Decoder, Held, Outcome, Sink, run};
use cqlp_note::Source;

/// Limits only cut: wider ones change no event and no refusal that is not a limit's own, where the same tables are
/// given and parts have one size. So it is of any two decoders, where no content comes in parts; those have as many
/// bytes as the limit on a cell, so that of contents in parts it is so where that limit is the same.
pub fn limits_only_cut()
    ensures rules { LimitsOnlyCut }
    ensures asked { AskedLimitsOnlyCut }
{}

/// Within limits a stream says just what it says without, up to the first item that passes all tests before its limit
/// and exceeds that: there it is refused, at the item's first byte.
pub fn limits_cut_at_first_excess()
    ensures { LimitsCutAtFirstExcess }
{}

/// With limits of 2^31 nothing is refused by a limit: those are no limits.
pub fn free_has_no_limit()
    ensures { FreeHasNoLimit }
{}

/// What is held after a run of any reader into any sink is within the limits that the decoder had before it: twice as many type options as
/// their limit, since two tables are held.
pub fn held_after<R: Source, S: Sink>(
    decoder: &mut Decoder,
    reader: &mut R,
    sink: &mut S,
    turns: u64,
) -> (Outcome, Held)
    ensures { IsWithin result.1 (state decoder.old).rules }
{
    let outcome = run(decoder, reader, sink, turns);
    (outcome, decoder.held())
}
