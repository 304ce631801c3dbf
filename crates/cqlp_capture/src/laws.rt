//! Laws of what a capture file says, and of what the calls of a reader answer. No code needs them.

ghost use Rattle.cqlp_capture.specs.Laws.{AreTheFilesBytes, FollowTheirHead};
ghost use Rattle.cqlp_capture.specs.Laws.{GoesOn, IsSaid, IsSaidOnce, HasNoMoreEventsThanBytes};
ghost use Rattle.cqlp_capture.specs.Laws.{HandsOutNoMoreEventsThanBytes, AreNumbered, IsCutWithinTheLast, OneAnswerOfFinish, OneAnswerOfNew, OneAnswerOfNext};

/// Of any bytes there is one list of events, and one verdict.
pub fn said_once()
    ensures some { IsSaid }
    ensures once { IsSaidOnce }
{}

/// Whatever bytes follow, the events of a file go on, and a refusal stays. So they do not depend on how the file is cut
/// into pieces.
pub fn goes_on()
    ensures { GoesOn }
{}

/// A file has no more events than bytes, and a reader hands out no more, also before it refuses.
pub fn no_more_events_than_bytes()
    ensures file { HasNoMoreEventsThanBytes }
    ensures reader { HandsOutNoMoreEventsThanBytes }
{}

/// The bytes of a packet are those of the file at their offset: right after the header of its record or the numbers of its
/// block, and as many as it says that were captured.
pub fn bytes_of_packets()
    ensures there { AreTheFilesBytes }
    ensures follow { FollowTheirHead }
{}

/// The number of an interface is how many its section has before it.
pub fn interfaces_are_numbered()
    ensures { AreNumbered }
{}

/// Where `CaptureReader::finish` says that a file is cut, its bytes before the header, the record or the block that is cut are
/// a whole file, unless that is its first.
pub fn cut_within_the_last()
    ensures { IsCutWithinTheLast }
{}

/// Where memory is granted, `CaptureReader::new` has one answer. The clauses of `capacity` and `interface_capacity` are
/// equations.
pub fn one_answer_of_new()
    ensures { OneAnswerOfNew }
{}

/// From one reader and over the same input `CaptureReader::next` has one answer, and leaves one reader.
pub fn one_answer_of_next()
    ensures { OneAnswerOfNext }
{}

/// Of one reader `CaptureReader::finish` has one answer.
pub fn one_answer_of_finish()
    ensures { OneAnswerOfFinish }
{}
