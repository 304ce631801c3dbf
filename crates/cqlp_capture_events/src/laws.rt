//! Laws of what is written of frames. No code needs them.

ghost use Rattle.cqlp_capture_events.specs.Capturing.{FaultsHaveCauses, OneAnswerOfWriteEvents};
ghost use Rattle.cqlp_capture_events.specs.Laws.{OneAnswerOfHear, OneAnswerOfNew};

/// Where memory is granted `Events::new` has one answer, and so has `hear` where the output does not fail.
pub fn one_answer()
    ensures new { OneAnswerOfNew }
    ensures hear { OneAnswerOfHear }
{}

/// Where nothing outside fails, `write_events` has one answer: from the same bytes, ports and connection the same lines and the same status.
pub fn one_answer_of_write_events()
    ensures { OneAnswerOfWriteEvents }
{}

/// `write_events` answers the status of a fault only where a read or an output failed, or where it has written that there is no memory, or no end of
/// reads.
pub fn faults_have_causes()
    ensures { FaultsHaveCauses }
{}
