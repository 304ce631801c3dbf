//! What takes events.

ghost use Rattle.std.specs.Prelude.{◌≡◌, ℕ, OnOk, OnErr};

use crate::event::Event;
use thiserror::Error;

/// A sink that gives up.
#[derive(Clone, Copy, Debug, PartialEq, Eq, Error)]
#[error("the sink gave up")]
pub struct SinkFault;

/// What takes the events of a stream, one after the other.
pub trait Sink {
    ghost use Rattle.cqlp_grammar.specs.Events.{event_of};
    ghost use Rattle.cqlp_grammar.specs.Events as model;

    /// What contracts see of it.
    ghost View: { Type 0 };

    ghost view: { Self → View };

    /// It reports what it has got, as one over a writer that reports its bytes.
    ghost reports: { Self → Type 0 } = { λ _. Unit {0} };

    /// The view after an event at an offset, from the view before it.
    ghost after: { View → ℕ → model.Event → View };

    /// What a fault at an event may leave.
    ghost faulted: { View → ℕ → model.Event → View → Type 0 };

    /// What more holds of one before and after an event at an offset, which it takes or fails at.
    ghost also: { Self → ℕ → model.Event → Self → Type 0 } = { λ _ _ _ _. Unit {0} };

    /// Takes the event at an offset.
    ///
    /// # Errors
    ///
    /// Whatever keeps the sink from going on: who hands the events out stops there.
    fn take(&mut self, at: u64, event: &Event<'_>) -> Result<(), SinkFault>
        ensures ok { OnOk result (reports self.old → reports self.new × (view self.new ≡ after (view self.old) at (event_of event.now))) }
        ensures err { OnErr result (reports self.old → faulted (view self.old) at (event_of event.now) (view self.new)) }
        ensures also { also self.old at (event_of event.now) self.new };
}
