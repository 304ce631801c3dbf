//! Laws of a client and a server that talk over one connection, in whatever order their messages are sent, delivered
//! and answered. A step of the connection is a call of a core: what `Client` and `Server` ensure is what a step does.

ghost use Rattle.std.specs.Prelude.{ℕ, ◌≤◌};
ghost use Rattle.cqlp_session.specs.Carriage.{EachValueComesBack};
ghost use Rattle.cqlp_session.specs.CarryingWorld.{ValuesArePairedAfterAnySteps};
ghost use Rattle.cqlp_session.specs.Headers.{EventsAreSeen, OneAnswerOfAnswerWith, RequestsAreSeen, RequestsAreTaken, ResponsesAreSeen};
ghost use Rattle.cqlp_session.specs.Laws.{OneAnswerOfAnswer, OneAnswerOfBody, OneAnswerOfClientNew, OneAnswerOfClientOfNew};
ghost use Rattle.cqlp_session.specs.Laws.{OneAnswerOfReply, OneAnswerOfServerNew, OneAnswerOfServerOfNew};
ghost use Rattle.cqlp_session.specs.Pairing.{AfterAnySteps, BeginsOnceReady, EventsChangeNothing, IdsAreApart, NoneIsRefused, RepliesArePaired};
ghost use Rattle.cqlp_session.specs.Service.{EachAnswerHasItsValue};

/// What holds after every list of steps from two new cores.
pub fn pairing()
    // A reply has the ticket and the kind of the request that its response answers.
    ensures replies { (client server : ℕ) → AfterAnySteps client server RepliesArePaired }

    // An event is reported as one, and changes no core.
    ensures events { (client server : ℕ) → AfterAnySteps client server EventsChangeNothing }

    // Open requests of one core have different ids, and no id is given out while a request is open under it.
    ensures ids { (client server : ℕ) → AfterAnySteps client server IdsAreApart }

    // Query, Prepare, Execute, Batch and Register begin only in the phase Ready.
    ensures phases { (client server : ℕ) → AfterAnySteps client server BeginsOnceReady }

    // A server with at least as many slots as its client refuses none of its requests, nor the client an answer.
    ensures accepted { (client server : ℕ) → client ≤ server → AfterAnySteps client server NoneIsRefused }
{}

/// What `Client::begin_with` and `Server::answer_with` give is what the law of pairing has on its wires.
pub fn headers()
    // The header of a request is its message on the wire up, and that of a response its message on the wire down.
    ensures requests { RequestsAreSeen }
    ensures responses { ResponsesAreSeen }

    // The header of an event is the event that is pushed, and no client's core takes it for a reply.
    ensures events { EventsAreSeen }

    // A server with at least as many slots as its client accepts each message as the request that was begun.
    ensures taken { RequestsAreTaken }
{}

/// What one core hands out, whatever its caller did before.
pub fn carriage<T>()
    // With a reply a [`ClientOf`](crate::ClientOf) hands out what was given when its request began, under its ticket.
    ensures client { EachValueComesBack T }

    // With an answer a [`ServerOf`](crate::ServerOf) hands out what was given when the request was accepted.
    ensures server { EachAnswerHasItsValue T }
{}

/// What a [`ClientOf`](crate::ClientOf) and a [`ServerOf`](crate::ServerOf) hand out, that talk over one connection, after
/// every list of steps from two new cores. With a reply the client hands out the value that was given with the request
/// that its response answers; with an answer the server hands out the value that this request was accepted with. Cores
/// and wires move as in [`pairing`], whatever the values, so that all that it says holds of them.
pub fn pairing_of_values<T, U>()
    ensures { ValuesArePairedAfterAnySteps T U }
{}

/// Where memory is granted, `Client::new` has one answer. So have the other calls of a core, whose clauses are equations.
pub fn one_answer_of_client_new()
    ensures { OneAnswerOfClientNew }
{}

/// The same of `Server::new`.
pub fn one_answer_of_server_new()
    ensures { OneAnswerOfServerNew }
{}

/// The same of `ClientOf::new`.
pub fn one_answer_of_client_of_new<T>()
    ensures { OneAnswerOfClientOfNew T }
{}

/// The same of `ServerOf::new`.
pub fn one_answer_of_server_of_new<T>()
    ensures { OneAnswerOfServerOfNew T }
{}

/// `ClientOf::reply` has one answer. So have the other calls of a `ClientOf`, whose clauses are equations.
pub fn one_answer_of_reply<T>()
    ensures { OneAnswerOfReply T }
{}

/// `ServerOf::answer` has one answer. So have the other calls of a `ServerOf`, whose clauses are equations.
pub fn one_answer_of_answer<T>()
    ensures { OneAnswerOfAnswer T }
{}

/// The same of `ServerOf::answer_with`.
pub fn one_answer_of_answer_with<T>()
    ensures { OneAnswerOfAnswerWith T }
{}

/// `Body::new` has one answer, but for the proofs in it.
pub fn one_answer_of_body()
    ensures { OneAnswerOfBody }
{}
