//! How much of all connections together waits.

ghost use Rattle.std.specs.Prelude.{◌≡◌};

use cqlp_observer::WatchRoom;
use std::marker::Model;

/// How much of all connections together waits at most. Where there is no room for more, what is left out is counted.
#[derive(Clone, Copy)]
pub struct ExchangeLimits {
    /// Messages that wait for the other of their exchange.
    pub open: usize,
    /// First bytes of these messages, of each at most 256.
    pub text: usize,
}

impl ExchangeLimits {
    /// 262,144 messages, and 7 MiB.
    pub const DEFAULT: ExchangeLimits = ExchangeLimits {
        open: 262_144,
        text: 7_340_032,
    };
}

/// What may wait in all, and what does: the sum of what waits on each connection.
#[derive(Drop)]
pub(crate) struct Pool {
    limits: ExchangeLimits,
    held: WatchRoom,
}

impl Model for Pool {
    ghost use Rattle.cqlp_capture_exchanges.specs.Pools.{Pool, pool};

    ghost Value = { Pool };

    ghost view = { λ p. pool p.limits p.held };
}

impl Pool {
    ghost use Rattle.cqlp_capture_exchanges.specs.Pools.{exchanged, new_pool, room_for};

    /// Nothing waits.
    pub(crate) fn new(limits: ExchangeLimits) -> Self
        ensures { result ≡ new_pool limits }
    {
        Pool {
            limits,
            held: WatchRoom {
                messages: 0,
                text: 0,
            },
        }
    }

    /// What may wait in all on a connection on which so much waits: what the others leave.
    pub(crate) fn room_for(&self, own: WatchRoom) -> WatchRoom
        ensures { result ≡ room_for own self.now }
    {
        WatchRoom {
            messages: (self.limits.open).saturating_sub(
                self.held.messages.saturating_sub(own.messages),
            ),
            text: (self.limits.text).saturating_sub(self.held.text.saturating_sub(own.text)),
        }
    }

    /// On a connection on which `old` waited `new` does.
    pub(crate) fn exchange(&mut self, old: WatchRoom, new: WatchRoom)
        ensures { self.new ≡ exchanged old new self.old }
    {
        self.held = WatchRoom {
            messages: (self.held.messages)
                .saturating_sub(old.messages)
                .saturating_add(new.messages),
            text: (self.held.text)
                .saturating_sub(old.text)
                .saturating_add(new.text),
        };
    }
}
