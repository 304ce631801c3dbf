//! What was reported of requests and responses, in numbers.

ghost use Rattle.std.specs.Prelude.{◌≡◌};
ghost use Rattle.cqlp_capture_exchanges.specs.Reports.{report_of};

use crate::report::Report;
use crate::span::is_whole;
use cqlp_observer::{Kept, Message, Paired};
use std::alloc::Allocator;

/// What was reported of requests and responses, whether it was shown or not. A number stays at 2^64 - 1 once it is there.
#[derive(Clone, Copy)]
pub struct ExchangeSums {
    /// Requests with their responses.
    pub exchanges: u64,
    /// Requests whose response was not seen.
    pub unanswered: u64,
    /// Responses whose request was not seen.
    pub unasked: u64,
    pub events: u64,
    /// Messages among these that are not whole: bytes of them were not captured, or did not come.
    pub cut: u64,
}

impl ExchangeSums {
    ghost use Rattle.cqlp_capture_exchanges.specs.Accounts.{no_sums, with_message, with_one, with_report};

    /// Nothing was reported.
    pub(crate) fn none() -> Self
        ensures { result ≡ no_sums }
    {
        ExchangeSums {
            exchanges: 0,
            unanswered: 0,
            unasked: 0,
            events: 0,
            cut: 0,
        }
    }

    /// Counts what is reported.
    pub(crate) fn count<A: Allocator>(&mut self, report: &Report<'_, A>)
        ensures { self.new ≡ with_report (report_of report.now) self.old }
    {
        match report {
            Report::Messages { paired, .. } => self.count_paired(paired),
            Report::Unread { .. } => {}
        }
    }

    fn count_paired<A: Allocator>(&mut self, exchange: &Paired<Kept<A>>)
        ensures { self.new ≡ with_one exchange.now self.old }
    {
        match exchange {
            Paired::Exchange { request, response } => {
                self.exchanges = self.exchanges.saturating_add(1);
                self.count_message(request);
                self.count_message(response);
            }
            Paired::Unanswered { request } => {
                self.unanswered = self.unanswered.saturating_add(1);
                self.count_message(request);
            }
            Paired::Unasked { response } => {
                self.unasked = self.unasked.saturating_add(1);
                self.count_message(response);
            }
            Paired::Event { event } => {
                self.events = self.events.saturating_add(1);
                self.count_message(event);
            }
        }
    }

    /// Counts a message if it is not whole.
    fn count_message<A: Allocator>(&mut self, message: &Message<Kept<A>>)
        ensures { self.new ≡ with_message message.now self.old }
    {
        if !is_whole(message.frame.extent) {
            self.cut = self.cut.saturating_add(1);
        }
    }
}
