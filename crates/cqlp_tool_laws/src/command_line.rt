//! Laws of a command line that was read: it has one answer, and a fault of it has a cause.

ghost use Rattle.cqlp_tool_laws.specs.CommandLines.{CaptureFaultsHaveCauses, IsExecutedOnce, LoopGoesOn};

use std::io::Read;

/// Two executions of one command line, other than of a capture in a file, to which the outside did the same, end with one
/// status, and have one text on each output; where an output failed, one was given what the other was, and then perhaps more.
///
/// What the outside does is whether a stream's file opens, what it or standard input gives, which calls of that and of the
/// outputs fail, whether there is memory, and whether the turns run out; of a conversation, whether there is a connection, which
/// bytes come to both ends, and that it is these that decide how it ends. Where something else ended both in the same way, they still have one status and one
/// line of the fault, and one printed what the other did, and then perhaps more.
pub fn one_answer_of_execute<F: Read>()
    ensures once { IsExecutedOnce F.Read }
    ensures goes_on { LoopGoesOn }
{}

/// Where the exchanges, events or rows of a capture on standard input are written, the status is that of a fault only where a read of the input
/// or an output failed, or where the line on standard error says that there was no memory, or too many turns: 2^32
/// reads, or no end to what is reported.
pub fn faults_of_captures_have_causes()
    ensures { CaptureFaultsHaveCauses }
{}
