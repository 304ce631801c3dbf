//! Laws of what is reported of requests and responses. No code needs them.

ghost use Rattle.cqlp_observer.specs.Laws.{CountsTheMissing, KeepsThoseThatWait, OneAnswerOfSubject, ReportsEachMessage, ReportsTheExchanges};
ghost use Rattle.cqlp_observer.specs.Rooms.{KeepsWithinRoom};
ghost use Rattle.cqlp_observer.specs.Sent.{ReportsEachFrame};
ghost use Rattle.cqlp_observer.specs.Steps.{TakesFewSteps};
ghost use Rattle.cqlp_observer.specs.Whole.{ReportsWholeFrames};

/// Of any messages in any order: those that a [`Pairing`](crate::Pairing) holds are those that wait, which met none that waited under their
/// stream id and under which nothing was said since, where there was room always. Each is the last that was said under its id, and at most one waits
/// under each, whether there was room or not.
pub fn waiting<T>()
    ensures { KeepsThoseThatWait T }
{}

/// The exchanges that it reports are those of the messages, in their order, where there was room always: each message with the one that waits under
/// its stream id, if they are a request and its response. Where there was not, each is still of a message and the last before it under its id, and
/// none is reported twice.
pub fn exchanges<T>()
    ensures { ReportsTheExchanges T }
{}

/// Under each stream id no more of those exchanges are missing than messages were reported alone for want of room, which
/// [`Missed::overtaken`](crate::Missed::overtaken) counts. So none is missing where that is 0.
pub fn missing<T>()
    ensures { CountsTheMissing T }
{}

/// Each message is reported once or waits, whether there was room or not.
pub fn each_message<T>()
    ensures { ReportsEachMessage T }
{}

/// After each call of a [`Watch`](crate::Watch) no more messages wait, and their texts and those of the messages that pass take no more room, than there
/// is, or than before. [`Watch::text`](crate::Watch::text) is the room that these texts take.
pub fn room()
    ensures { KeepsWithinRoom }
{}

/// A frame that [`Heads`](crate::Heads) reports as whole came whole: its header and the bytes of its body lie one after the other from its offset
/// on, and none in a gap.
pub fn whole_frames()
    ensures { ReportsWholeFrames }
{}

/// Of frames that are sent from the start of a direction on, [`Heads`](crate::Heads) reports each where it ends, in order and as whole, in
/// whatever pieces their bytes come, and reports nothing else.
pub fn each_frame()
    ensures { ReportsEachFrame }
{}

/// Each call of [`Heads::take`](crate::Heads::take) that does not say `More` leaves fewer to be made: it uses some byte of the piece, or ends a frame that is
/// over. So all of a piece of n bytes is reported by 2 n + 2 calls.
pub fn few_steps()
    ensures { TakesFewSteps }
{}

/// [`subject_of`](crate::subject_of) has one answer, but for where in the front a content lies. The clauses of all other calls are equations.
pub fn one_answer_of_subject_of()
    ensures { OneAnswerOfSubject }
{}
