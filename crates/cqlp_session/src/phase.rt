//! The phases of a connection.

ghost use Rattle.std.specs.Prelude.{◌≡◌};
ghost use Rattle.cqlp_session.specs.Phase.{may_begin, phase_begun, phase_answered};

use crate::kind::RequestKind;
use cqlp_note::Opcode;

/// How far the setting up of a connection has come. Sections 4.1.1 and 4.1.2 of `native_protocol_v4.spec`.
#[derive(Clone, Copy, Debug, PartialEq, Eq)]
pub enum Phase {
    /// No STARTUP yet: OPTIONS and STARTUP may begin.
    Fresh,
    /// A STARTUP or AUTH_RESPONSE waits for its reply: nothing may begin.
    Opening,
    /// The server asked for AUTH_RESPONSE, which alone may begin.
    Challenged,
    /// Set up: all but STARTUP and AUTH_RESPONSE may begin.
    Ready,
    /// Setting up ended by an ERROR: nothing may begin.
    Failed,
}

impl Phase {
    /// Whether a request of this kind may begin.
    pub(crate) fn may_begin(self, kind: RequestKind) -> bool
        ensures { result ≡ may_begin self kind }
    {
        match self {
            Phase::Fresh => matches!(kind, RequestKind::Startup | RequestKind::Options),
            Phase::Challenged => matches!(kind, RequestKind::AuthResponse),
            Phase::Ready => !kind.is_handshake(),
            Phase::Opening | Phase::Failed => false,
        }
    }

    /// The phase once a request of this kind has begun.
    pub(crate) fn begun(self, kind: RequestKind) -> Phase
        ensures { result ≡ phase_begun self kind }
    {
        if kind.is_handshake() {
            Phase::Opening
        } else {
            self
        }
    }

    /// The phase once a request of this kind is answered by a message with this opcode.
    pub(crate) fn answered(self, kind: RequestKind, opcode: Opcode) -> Phase
        ensures { result ≡ phase_answered self kind opcode }
    {
        match (kind, opcode) {
            (RequestKind::Startup | RequestKind::AuthResponse, Opcode::Error) => Phase::Failed,
            (RequestKind::Startup, Opcode::Ready)
            | (RequestKind::AuthResponse, Opcode::AuthSuccess) => Phase::Ready,
            (RequestKind::Startup, Opcode::Authenticate)
            | (RequestKind::AuthResponse, Opcode::AuthChallenge) => Phase::Challenged,
            _ => self,
        }
    }
}
