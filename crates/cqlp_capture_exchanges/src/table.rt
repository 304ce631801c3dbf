//! The connections that are watched.

ghost use Rattle.std.specs.Prelude.{◌≡◌, IfOk, IsSome, OnOk};
ghost use Rattle.cqlp_capture_exchanges.specs.Accounts.{ReportedAll};
ghost use Rattle.cqlp_capture_exchanges.specs.Connections.{of_delivery, of_totals};

use crate::connection::Connection;
use crate::pool::{ExchangeLimits, Pool};
use crate::report::end_of;
use crate::reporter::Reporter;
use crate::slot::Slot;
use cqlp_capture_streams::{StreamsFault, newest_first};
use cqlp_note::Target;
use cqlp_observer::{Missed, WatchRoom};
use cqlp_tcp_connections::{ConnectionTotals, Delivery, Ends};
use std::alloc::{AllocError, Allocator, Global};
use std::collections::BTreeMap;
use std::marker::Model;

/// The connections that are watched, by their numbers, the newest first. Memory is taken for each as it begins, and given back as it leaves.
#[derive(Drop)]
pub(crate) struct Table<A: Allocator = Global> {
    alloc: A,
    slots: BTreeMap<u64, Slot<A>, A>,
    /// How much of them waits.
    pool: Pool,
    /// What was missed of those that have left.
    missed: Missed,
}

impl<A: Allocator> Model for Table<A> {
    ghost use Rattle.cqlp_capture_exchanges.specs.Tables.{Table, table};

    ghost Value = { Table };

    ghost view = { λ t. table t.slots.entries t.pool t.missed };
}

impl<A: Allocator + Clone> Table<A> {
    ghost use Rattle.std.specs.Prelude.{OnErr};
    ghost use Rattle.cqlp_capture_exchanges.specs.Tables.{begins, leaves, new_table, takes_delivery};

    /// No connections.
    pub(crate) fn new(alloc: A, limits: ExchangeLimits) -> Result<Self, AllocError>
        ensures { IfOk result (λ t. t ≡ new_table limits) }
    {
        let slots = BTreeMap::new(alloc.clone()?);
        Ok(Table {
            alloc,
            slots,
            pool: Pool::new(limits),
            missed: Missed::NONE,
        })
    }

    /// What was missed of the connections that have left.
    pub(crate) fn missed(&self) -> Missed
        ensures { result ≡ self.now.missed }
    {
        self.missed
    }

    /// The connection with this number begins. Where memory is refused, nothing changes.
    pub(crate) fn begin(&mut self, number: u64) -> Result<(), AllocError>
        ensures ok { OnOk result (self.new ≡ (begins number self.old).table) }
        ensures err { OnErr result (self.new ≡ self.old) }
    {
        let slot = Slot::new(self.alloc.clone()?)?;
        match self.slots.insert(newest_first(number), slot) {
            Ok(_) => Ok(()),
            Err(_) => Err(AllocError),
        }
    }

    /// Takes what the streams of a connection deliver while the present packet came at this time, with its bytes.
    pub(crate) fn hear<O: Target>(
        &mut self,
        present: Option<u64>,
        delivered: &Delivery,
        bytes: &[u8],
        reporter: &mut Reporter<O, A>,
    ) -> Result<(), StreamsFault>
        ensures reports { ReportedAll (of_delivery delivered.now) (takes_delivery present delivered.now bytes.now self.old).reports reporter.old result
            reporter.new }
        ensures after { IsSome reporter.old.output.given → OnOk result (self.new ≡ (takes_delivery present delivered.now bytes.now self.old).table) }
    {
        match self.slots.get_mut(&newest_first(delivered.number)) {
            Some(slot) => hear_in(slot, &mut self.pool, present, delivered, bytes, reporter),
            None => Ok(()),
        }
    }

    /// A connection leaves, of which this was reported.
    pub(crate) fn leave<O: Target>(
        &mut self,
        totals: &ConnectionTotals,
        reporter: &mut Reporter<O, A>,
    ) -> Result<(), StreamsFault>
        ensures reports { ReportedAll (of_totals totals.now) (leaves totals.now self.old).reports reporter.old result reporter.new }
        ensures after { IsSome reporter.old.output.given → OnOk result (self.new ≡ (leaves totals.now self.old).table) }
    {
        match self.slots.remove(&newest_first(totals.number)) {
            Some(slot) => let_leave(slot, &mut self.pool, &mut self.missed, totals, reporter),
            None => Ok(()),
        }
    }
}

ghost use Rattle.cqlp_observer.specs.Misses.{added};
ghost use Rattle.cqlp_capture_exchanges.specs.Pools.{amount, exchanged, held_in, room_for};
ghost use Rattle.cqlp_capture_exchanges.specs.Reports.{end_of};
ghost use Rattle.cqlp_capture_exchanges.specs.Talks.{left, delivery_heard};

/// Takes what the streams of this connection deliver.
fn hear_in<O: Target, A: Allocator + Clone>(
    slot: &mut Slot<A>,
    pool: &mut Pool,
    present: Option<u64>,
    delivered: &Delivery,
    bytes: &[u8],
    reporter: &mut Reporter<O, A>,
) -> Result<(), StreamsFault>
    ensures reports { let t = delivery_heard present delivered.now (room_for (held_in slot.old) pool.old) bytes.now slot.old in
        ReportedAll (of_delivery delivered.now) t.reports reporter.old result reporter.new }
    ensures slot { let t = delivery_heard present delivered.now (room_for (held_in slot.old) pool.old) bytes.now slot.old in
        IsSome reporter.old.output.given → OnOk result (slot.new ≡ t.after) }
    ensures pool { let t = delivery_heard present delivered.now (room_for (held_in slot.old) pool.old) bytes.now slot.old in
        IsSome reporter.old.output.given → OnOk result (pool.new ≡ exchanged (held_in slot.old) (held_in t.after) pool.old) }
{
    let old = slot.held();
    let room = pool.room_for(old);
    let heard = slot.hear(present, delivered, room, bytes, reporter);
    pool.exchange(old, slot.held());
    heard
}

/// This connection leaves.
fn let_leave<O: Target, A: Allocator + Clone>(
    mut slot: Slot<A>,
    pool: &mut Pool,
    missed: &mut Missed,
    totals: &ConnectionTotals,
    reporter: &mut Reporter<O, A>,
) -> Result<(), StreamsFault>
    ensures reports { let t = left (end_of totals.now) (room_for (held_in slot) pool.old) slot in
        ReportedAll (of_totals totals.now) t.reports reporter.old result reporter.new }
    ensures pool { pool.new ≡ exchanged (held_in slot) (amount 0 0) pool.old }
    ensures missed { let t = left (end_of totals.now) (room_for (held_in slot) pool.old) slot in
        IsSome reporter.old.output.given → OnOk result (missed.new ≡ added missed.old t.after.watch.missed) }
{
    let old = slot.held();
    let room = pool.room_for(old);
    pool.exchange(old, NONE);
    let connection = Connection {
        number: totals.number,
        ends: Ends {
            client: totals.client,
            node: totals.node,
        },
    };
    match slot.end(&connection, room, reporter) {
        Ok(()) => {
            missed.add(&slot.missed());
            slot.let_go(&connection, end_of(totals), reporter)
        }
        Err(fault) => Err(fault),
    }
}

/// Nothing that waits.
const NONE: WatchRoom = WatchRoom {
    messages: 0,
    text: 0,
};
