//! Values of options that are none.

use cqlp_pattern::PatternFault;
use std::alloc::AllocError;

/// What is wrong with the value of an option that the parser takes.
#[derive(Clone, Copy)]
pub(crate) enum BadValue {
    /// A number is not in its range.
    Range,
    /// Standard input is a file among several.
    Input,
    /// Several files are to be followed.
    Follow,
    /// No request has an opcode of this name.
    Opcode,
    /// No reply is of a kind of this name.
    Kind,
    /// A client is not named by an address.
    Client,
    /// A node is not named by an address.
    Node,
    /// What is to be the earliest time is none.
    From,
    /// What is to be the latest time is none.
    To,
    /// A pattern has a fault, at this character.
    Pattern {
        fault: PatternFault,
        character: usize,
    },
    /// What lines are to have is asked of objects or a summary.
    Lines,
    /// A summary counts by nothing of this name.
    By,
    /// A histogram counts by something, or is JSON.
    Histogram,
    /// A summary counts statements by their texts and by something else.
    Literal,
}

impl BadValue {
    /// What a mistake says of it.
    pub(crate) fn text(self) -> &'static str {
        match self {
            BadValue::Range => "a number is out of its range",
            BadValue::Input => {
                "invalid value '-' for '<FILE>...': it is standard input, and goes alone; a file of that name is ./-"
            }
            BadValue::Follow => {
                "the argument '--follow' takes one '<FILE>...': a folder of captures, one that grows, or - for paths on standard input"
            }
            BadValue::Opcode => {
                "invalid value for '--opcode <NAME>': it is none of STARTUP, OPTIONS, QUERY, PREPARE, EXECUTE, BATCH, REGISTER and \
                 AUTH_RESPONSE"
            }
            BadValue::Kind => {
                "invalid value for '--kind <NAME>': it is none of VOID, ROWS, SET_KEYSPACE, PREPARED, SCHEMA_CHANGE, RESULT, ERROR, READY, AUTHENTICATE, \
                 SUPPORTED, EVENT, AUTH_CHALLENGE, AUTH_SUCCESS, ServerError, ProtocolError, AuthenticationError, Unavailable, Overloaded, IsBootstrapping, \
                 TruncateError, WriteTimeout, ReadTimeout, ReadFailure, FunctionFailure, WriteFailure, SyntaxError, Unauthorized, Invalid, ConfigError, \
                 AlreadyExists and Unprepared"
            }
            BadValue::Client => {
                "invalid value for '--client <ADDRESS>': it is no ADDRESS, and no ADDRESS:PORT or [ADDRESS]:PORT"
            }
            BadValue::Node => {
                "invalid value for '--node <ADDRESS>': it is no ADDRESS, and no ADDRESS:PORT or [ADDRESS]:PORT"
            }
            BadValue::From => {
                "invalid value for '--from <TIME>': it is no number of seconds, and no time in UTC such as 2026-11-29T10:15:30Z, with up to nine digits after \
                 the point"
            }
            BadValue::To => {
                "invalid value for '--to <TIME>': it is no number of seconds, and no time in UTC such as 2026-11-29T10:15:30Z, with up to nine digits after \
                 the point"
            }
            BadValue::Pattern { fault, .. } => fault.text(),
            BadValue::Lines => {
                "the arguments '--utc' and '--ends' cannot be used with '--json' or '--csv', which have both, or with '--summary', which has no lines of \
                 requests"
            }
            BadValue::By => {
                "invalid value for '--by <WHAT>': it is none of statement, table, client, node, opcode and error"
            }
            BadValue::Histogram => {
                "the argument '--histogram' counts all requests in one, and cannot be used with '--by <WHAT>', '--literal', '--every <SECONDS>' or '--json': \
                 --statement and other filters leave the requests of one, and --summary --json has the buckets of each"
            }
            BadValue::Literal => {
                "the argument '--literal' cannot be used with '--by <WHAT>', unless that is statement"
            }
        }
    }
}

/// Why what the words were matched to is no command line.
#[derive(Clone, Copy)]
pub(crate) enum NoLine {
    BadValue(BadValue),
    /// There was no memory for it.
    NoMemory,
}

impl From<BadValue> for NoLine {
    fn from(bad: BadValue) -> NoLine {
        NoLine::BadValue(bad)
    }
}

impl From<AllocError> for NoLine {
    fn from(_error: AllocError) -> NoLine {
        NoLine::NoMemory
    }
}
