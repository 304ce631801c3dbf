//! Messages.

use crate::request::{BatchEntry, QueryParams};
use crate::response::{ErrorExtra, Prepared, Rows, SchemaChange, ServerEvent};

/// A message: what a frame has in its body. Section 4 of `native_protocol_v4.spec`.
///
/// Flags, codes and the names of targets and events are kept whole. They say which parts are to be there; where they
/// disagree, no bytes spell the message.
#[derive(Debug, PartialEq, Eq, Drop)]
pub enum Message {
    /// The options of a connection, each a key and a value. Section 4.1.1.
    Startup(Vec<(String, String)>),
    /// A question for the options that are supported. Section 4.1.3.
    Options,
    /// A query by its text. Section 4.1.4.
    Query {
        /// The text of the query, a \[long string\].
        text: String,
        /// The consistency, the bound values and the paging of the query.
        params: QueryParams,
    },
    /// The text of a query to be prepared. Section 4.1.5.
    Prepare(String),
    /// A query by the id of its prepared statement. Section 4.1.6.
    Execute {
        /// The id that the server gave the statement in [`Message::Prepared`], \[short bytes\]: at most 65,535.
        id: Vec<u8>,
        /// The consistency, the bound values and the paging of the query.
        params: QueryParams,
    },
    /// Statements that are done together. Section 4.1.7.
    Batch {
        /// 0 logged, 1 unlogged, 2 counters; other numbers are kept.
        kind: u8,
        /// The statements in their order, at most 65,535.
        entries: Vec<BatchEntry>,
        /// The level of consistency of all statements, a \[short\] whose numbers section 3 lists; other numbers are kept.
        consistency: u16,
        /// 10 serial consistency, 20 default timestamp; no bit of 4F is set.
        flags: u8,
        /// The level of consistency of the serial phase, 8 SERIAL or 9 LOCAL_SERIAL, where the flag 10 is set; other numbers are kept.
        serial: Option<u16>,
        /// The default timestamp, in microseconds.
        timestamp: Option<i64>,
    },
    /// The types of the events that are asked for. Section 4.1.8.
    Register(Vec<String>),
    /// An answer to a challenge, which may be null. Section 4.1.2.
    AuthResponse(Option<Vec<u8>>),
    /// An error. Section 4.2.1.
    Error {
        /// The kind of the error, by the list of section 9: 0000 for an error of the server, 2000 for a query that cannot be parsed; unknown
        /// codes are kept.
        code: i32,
        /// A text for the user.
        message: String,
        /// What the code adds.
        extra: ErrorExtra,
    },
    /// The server is ready for queries. Section 4.2.2.
    Ready,
    /// The class of the authenticator that wants an answer. Section 4.2.3.
    Authenticate(String),
    /// The supported options, each with its values. Section 4.2.4.
    Supported(Vec<(String, Vec<String>)>),
    /// A result of kind 1: nothing. Section 4.2.5.1.
    Void,
    /// A result of kind 3: the keyspace in use. Section 4.2.5.3.
    SetKeyspace(String),
    /// A result of kind 2: a page of rows. Section 4.2.5.2.
    Rows(Rows),
    /// A result of kind 4: a statement is prepared. Section 4.2.5.4.
    Prepared(Prepared),
    /// A result of kind 5: the schema was changed. Section 4.2.5.5.
    Change(SchemaChange),
    /// A result of this kind, which is none of 1 to 5.
    UnknownResult(i32),
    /// An event. Section 4.2.6.
    Event {
        /// The type of the event.
        event: String,
        /// What an event of this type reports.
        detail: ServerEvent,
    },
    /// A challenge of the server, which may be null. Section 4.2.7.
    AuthChallenge(Option<Vec<u8>>),
    /// The end of the authentication, with a token that may be null. Section 4.2.8.
    AuthSuccess(Option<Vec<u8>>),
}
