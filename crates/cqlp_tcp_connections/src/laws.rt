//! Laws of a table. No code needs them.

ghost use Rattle.cqlp_tcp_connections.specs.Laws.{ChangesNoStream, LeavesTheOthers, OneAnswerOfNew, PromisedNumbers, SharesRoom};

/// `new` has one answer where memory is granted. The clauses of all other calls are equations.
pub fn one_answer()
    ensures { OneAnswerOfNew }
{}

/// Each connection's bytes are those of its own two streams: `take` changes no stream, and `pull`, `pass_held` and `leave` change those of
/// the first connection alone.
pub fn connections_are_apart()
    ensures take { ChangesNoStream }
    ensures first { LeavesTheOthers }
{}

/// Of what comes early a direction holds no more than before, or than its own limit and what was left for all when its segment came.
pub fn early_bytes_leave_room()
    ensures { SharesRoom }
{}

/// The default port is 9042, and the default limits are 65,536 connections, and 24 MiB of what comes early, 1 MiB for each direction.
pub fn promised_numbers()
    ensures { PromisedNumbers }
{}
