//! Laws of one answer: what comes of a conversation is decided by the bytes that come, but for what only the outside
//! decides.

ghost use Rattle.cqlp_tool_laws.specs.Conversations.{DecidedGoesFurthest, IsOneAnswerOfTalk, OneGoesOnFromOther};

/// Two conversations with the same number of queries, in which the same bytes come to both ends, end alike and send and
/// print the same, unless memory was wanting, a stream failed or a message took too many reads. Where they are Ok, both
/// read the same, but for at most 4,096 bytes of each source that were read ahead.
pub fn one_answer_of_talk()
    ensures { IsOneAnswerOfTalk }
{}

/// Of any two conversations with the same number of queries, in which the same bytes come to both ends, one sent and
/// printed what the other did, and then perhaps more: the one that nothing from outside ended.
pub fn one_talk_goes_on()
    ensures either { OneGoesOnFromOther }
    ensures decided { DecidedGoesFurthest }
{}
