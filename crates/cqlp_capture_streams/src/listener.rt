//! What takes the events of the connections of a capture.

ghost use Rattle.std.specs.Prelude.{◌≡◌, OnOk, IfErr};

use crate::connection_event::ConnectionEvent;
use crate::fault::StreamsFault;

/// What takes the events of the connections of a capture, one after the other. After a fault it gets nothing more.
pub trait Listener {
    ghost use Rattle.cqlp_capture_streams.specs.declared.fault.StreamsFault.{StreamsFault};
    ghost use Rattle.cqlp_capture_streams.specs.ConnectionEvents.{connection_event_of};
    ghost use Rattle.cqlp_capture_streams.specs.ConnectionEvents as model;

    /// What contracts see of it.
    ghost View: { Type 0 };

    ghost view: { Self → View };

    /// It reports what it has got, as one over an output that reports its bytes.
    ghost reports: { Self → Type 0 } = { λ _. Unit {0} };

    /// The view after an event, from the view before it.
    ghost after: { View → model.ConnectionEvent → View };

    /// What a fault at an event may leave.
    ghost faulted: { View → model.ConnectionEvent → StreamsFault → View → Type 0 };

    /// Takes the next event.
    fn hear(&mut self, event: &ConnectionEvent<'_>) -> Result<(), StreamsFault>
        ensures ok { OnOk result (reports self.old →
            reports self.new × (view self.new ≡ after (view self.old) (connection_event_of event.now))) }
        ensures err { IfErr result (λ e. reports self.old →
            faulted (view self.old) (connection_event_of event.now) e (view self.new)) };
}
