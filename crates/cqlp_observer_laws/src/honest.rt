//! An observer of an honest client and an honest server.

ghost use Rattle.cqlp_observer_laws.specs.Honest.{PairsAsTheClient, PairsAsTheServer};

/// Whatever the steps of two cores that talk over two ordered wires, in the messages that pass one end of the wires the exchanges are those
/// of each response with the request that it answers, each once.
pub fn pairing()
    // Of the requests that the client sends, and what is delivered to it.
    ensures client { PairsAsTheClient }

    // Of what is delivered to the server, and what it sends.
    ensures server { PairsAsTheServer }
{}
