//! Laws of what is read of bodies. No code needs them.

ghost use Rattle.cqlp_observer_facts.specs.Laws.{KeepsFacts, ReadsPieces};

/// Handed over in whatever pieces, the bytes say what they say as a whole, and as many of them lie before the message proper.
pub fn pieces()
    ensures { ReadsPieces }
{}

/// More bytes change no fact that is known.
pub fn facts_stay()
    ensures { KeepsFacts }
{}
