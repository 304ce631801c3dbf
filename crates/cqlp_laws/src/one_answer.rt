//! Laws of one answer: what a call of the decoder answers is decided by the history and the input, but for what only
//! the outside decides.

ghost use Rattle.cqlp_laws.specs.OneAnswer.{IsOneAnswerOfFeed, IsOneAnswerOfFinish, IsOneAnswerOfHeld, IsOneAnswerOfNew};
ghost use Rattle.cqlp_laws.specs.OneAnswer.{IsOneAnswerOfNext, IsOneAnswerOfRestart, IsOneAnswerOfRun, RunsRight};

use cqlp_grammar::Sink;

/// Two decoders that were made with the same limits are alike, at the start of a stream. Whether one is made at all,
/// where the limits allow it, is up to the memory that is there.
pub fn one_answer_of_new()
    ensures { IsOneAnswerOfNew }
{}

/// A decoder that begins anew is like one that was made with the same limits, whatever it has read before.
pub fn one_answer_of_restart()
    ensures { IsOneAnswerOfRestart }
{}

/// After the same bytes and events, and the same tables given in between, there is one answer over the same input: the
/// same event at the same offset with the same bytes used, the same refusal, or more is wanted; and the decoder is left
/// alike: with the same limits, refusal, type options and given types, so that `held` answers the same number of type
/// options. How many bytes and how many levels it answers is not among this: each is within its bound.
pub fn one_answer_of_next()
    ensures { IsOneAnswerOfNext }
{}

/// After the same bytes and events a stream has one end.
pub fn one_answer_of_finish()
    ensures { IsOneAnswerOfFinish }
{}

/// Of one decoder there is one answer of what is held.
pub fn one_answer_of_held()
    ensures { IsOneAnswerOfHeld }
{}

/// After the same bytes and events there is one answer of `feed` over the same piece: more is wanted, or the same refusal after
/// the same bytes; two sinks that were seen alike, and neither failed, are seen alike; and the decoder is left alike.
pub fn one_answer_of_feed<S: Sink>()
    ensures { IsOneAnswerOfFeed S.after S.faulted }
{}

/// From the same decoder over the same bytes of a reader a run hands the same events to its sink, as far as it goes,
/// whatever tables were given before. Where the sink does not fail, how far that is goes by how much the reader gave:
/// where as many reads gave the same bytes, and a read failed in both runs or in neither, the outcomes are the same, so
/// the turns run out in both or in neither. And a run that finishes ends the same way, however the reader cut its bytes.
pub fn one_answer_of_run<S: Sink>()
    ensures { IsOneAnswerOfRun S.after S.faulted }
{}

/// The answer is the right one: from a new decoder, over a stream that says these events and this verdict, a run that
/// finishes has handed just these events to its sink, and ends with that verdict.
pub fn run_says_what_the_stream_says<S: Sink>()
    ensures { RunsRight S.after S.faulted }
{}
