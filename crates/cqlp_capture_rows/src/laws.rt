//! Laws of what is written of pages. No code needs them.

ghost use Rattle.cqlp_capture_rows.specs.Capturing.{FaultsHaveCauses, OneAnswerOfWriteRows};
ghost use Rattle.cqlp_capture_rows.specs.Laws.{ElseOfGiven, ElseOfOthers, LatestOfOthers, OneAnswerOfHear, OneAnswerOfNew, OwnTypesFirst};

/// Where memory is granted `Rows::new` has one answer, and so has `hear` where the output does not fail.
pub fn one_answer()
    ensures new { OneAnswerOfNew }
    ensures hear { OneAnswerOfHear }
{}

/// Where nothing outside fails, `write_rows` has one answer: from the same bytes, ports and connection the same text and the same status.
pub fn one_answer_of_write_rows()
    ensures { OneAnswerOfWriteRows }
{}

/// `write_rows` answers the status of a fault only where a read or an output failed, or where it has written that there is no memory, or no end of
/// reads.
pub fn faults_have_causes()
    ensures { FaultsHaveCauses }
{}

/// A page has the types that the last PREPARED on its own connection said of its statement, if they are known, or else those that the last one on any
/// other connection said, or else those that were given.
pub fn own_types_first()
    ensures own { OwnTypesFirst }
    ensures others { ElseOfOthers }
    ensures given { ElseOfGiven }
    ensures latest { LatestOfOthers }
{}
