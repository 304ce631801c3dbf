//! Laws of what is written of exchanges. No code needs them.

ghost use Rattle.cqlp_capture_exchanges.specs.Capturing.{FaultsHaveCauses, OneAnswerOfWriteExchanges};
ghost use Rattle.cqlp_capture_exchanges.specs.Laws.{OneAnswerOfHear, OneAnswerOfNew, OneAnswerOfStatement};
ghost use Rattle.cqlp_capture_exchanges.specs.Pooled.{KeepsPools};

/// Where memory is granted `Exchanges::new` has one answer, and so has `hear` where the output does not fail; and `statement_of` says one text or one id. The
/// clauses of all other calls are equations.
pub fn one_answer()
    ensures new { OneAnswerOfNew }
    ensures hear { OneAnswerOfHear }
    ensures statement { OneAnswerOfStatement }
{}

/// Where nothing outside fails, `write_exchanges` has one answer: from the same bytes, ports, filter and form the same text and the same status.
pub fn one_answer_of_write_exchanges()
    ensures { OneAnswerOfWriteExchanges }
{}

/// `write_exchanges` answers the status of a fault only where a read or an output failed, or where it has written that there is no memory, or no end of
/// reads.
pub fn faults_have_causes()
    ensures { FaultsHaveCauses }
{}

/// What is held of the limits on open messages and on their texts is what all connections hold, and no more than these limits. So what a connection may
/// have is just what the others leave.
pub fn pools()
    ensures { KeepsPools }
{}
