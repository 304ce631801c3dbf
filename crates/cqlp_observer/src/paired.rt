//! What is reported of requests and responses.

ghost use Rattle.std.specs.Prelude.{◌≡◌};

use crate::message::Message;

/// What is reported of a request, a response, or both.
#[derive(Clone, Copy, Debug, PartialEq, Eq, Drop)]
pub enum Paired<T> {
    /// A request and its response, the one next to the other under their stream id. The response came first only where the packets of a
    /// capture are not in the order of their times, and the request was then begun no later.
    Exchange {
        /// The message of the client.
        request: Message<T>,
        /// The message of the node under the same stream id. Section 2.3 of `native_protocol_v4.spec`.
        response: Message<T>,
    },
    /// A request whose response was not seen: another request came under its stream id, or there was no room for it to wait, or the connection
    /// ended.
    Unanswered {
        /// The message of the client, whose stream id may be in use again.
        request: Message<T>,
    },
    /// A response whose request was not seen, neither before it nor after: another response came under its stream id, or a request that was
    /// begun later, or there was no room for it to wait, or the connection ended.
    Unasked {
        /// The message of the node, which no request waits for under its stream id.
        response: Message<T>,
    },
    /// An event that the node pushed.
    Event {
        /// The EVENT, whose stream id is -1. Section 4.2.6 of `native_protocol_v4.spec`.
        event: Message<T>,
    },
}

impl<T> Paired<T> {
    ghost use Rattle.cqlp_observer.specs.Pairings.{alone};

    /// Of a message that is in no exchange.
    #[inline(always)]
    pub(crate) fn alone(message: Message<T>) -> Self
        ensures { result ≡ alone message }
    {
        if message.is_request() {
            Paired::Unanswered { request: message }
        } else {
            Paired::Unasked { response: message }
        }
    }
}
