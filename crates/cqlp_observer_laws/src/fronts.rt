//! Laws of what an observer keeps of each message.

ghost use Rattle.cqlp_observer_laws.specs.Fronts.{FrontComesLast, FrontsAreKept};

/// The bytes of a body that lie before the message proper are its first ones: once one does not, none does that follows.
pub fn front_comes_last()
    ensures { FrontComesLast }
{}

/// In whatever pieces the body of a frame comes, one or many, of which no byte is missing, what is kept of it are the first 256 bytes of the message
/// proper, and, where warnings lie before that, the first 256 of those before it; and what it says is what its bytes say.
pub fn fronts_are_kept()
    ensures { FrontsAreKept }
{}
