//! Laws of streams. No code needs them.

ghost use Rattle.cqlp_tcp_reassembly.specs.StreamLaws.{BeginsEmpty, GoesOnBehindTheHeld, HandsOnTheSame, IsTheSameInEitherOrder, IsTheSameInParts};
ghost use Rattle.cqlp_tcp_reassembly.specs.StreamLaws.{IsTheSameWithDuplicates, LosesTheAcknowledged, OneAnswerOfAcknowledge, OneAnswerOfTake};
ghost use Rattle.cqlp_tcp_reassembly.specs.StreamLaws.{DeliversAtTheClose, DeliversInTime, DeliversTheFirst, ReportsWhatIsLost};

/// A stream that has begun reports of each segment and acknowledgement just this: bytes that are those of the first segment that
/// carried them, in order and each once, with the time of its packet; and gaps where none did, or where that packet was cut.
pub fn streams_deliver_the_first()
    ensures begins { BeginsEmpty }
    ensures segments { DeliversTheFirst }
    ensures acknowledgements { ReportsWhatIsLost }
    ensures close { DeliversAtTheClose }
    ensures held { GoesOnBehindTheHeld }
{}

/// Bytes are given up only where a segment has no room, or where the other side acknowledged them.
pub fn losses_are_due()
    ensures in_time { DeliversInTime }
    ensures acknowledged { LosesTheAcknowledged }
{}

/// Segments that come again, in parts, or in another order where they agree, change nothing of what is handed on.
pub fn duplicates_and_order()
    ensures duplicates { IsTheSameWithDuplicates }
    ensures order { IsTheSameInEitherOrder }
    ensures parts { IsTheSameInParts }
    ensures hands { HandsOnTheSame }
{}

/// A stream's calls have one answer.
pub fn one_answer()
    ensures take { OneAnswerOfTake }
    ensures acknowledge { OneAnswerOfAcknowledge }
{}
