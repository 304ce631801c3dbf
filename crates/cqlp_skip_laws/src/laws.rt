//! Laws of streams that are read in stretches.

ghost use Rattle.cqlp_skip_laws.specs.Laws.{GoesOn, IsGivenUpOnce, IsOneAnswerOfFeed, IsOneAnswerOfGive, IsOneAnswerOfTaking, IsPlainWithoutSkips};

use cqlp_grammar::Sink;

/// Of one stream, and as many tables given over each of its stretches, there is one list of stretches that were given up. So what
/// is emitted for them does not depend on how the stream was cut into pieces.
pub fn given_up_once()
    ensures { IsGivenUpOnce }
{}

/// Whatever bytes follow, the stretches that were given up stay.
pub fn goes_on()
    ensures { GoesOn }
{}

/// Where nothing was skipped the reading is that of a decoder.
pub fn without_skips()
    ensures { IsPlainWithoutSkips }
{}

/// After the same bytes, skips and events there is one answer of `feed` over the same piece: more is wanted, or the same
/// refusal after the same bytes; two sinks that were seen alike, and neither failed, are seen alike; and the decoders are
/// alike that are left.
pub fn one_answer_of_feed<S: Sink>()
    ensures { IsOneAnswerOfFeed S.after S.faulted }
{}

/// From one state, given one table of types, there is one answer of `give`: the same table comes back, for the same reason if it is
/// that table; and what is left looks the same.
pub fn one_answer_of_give()
    ensures { IsOneAnswerOfGive }
{}

/// From one state there is one answer of `take_given`, and what is left looks the same.
pub fn one_answer_of_taking()
    ensures { IsOneAnswerOfTaking }
{}
