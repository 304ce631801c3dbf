//! The connections that are there, and the memory that they share.

ghost use Rattle.std.specs.Prelude.{◌≡◌, ◌∷◌, ◌<◌, ◌≤◌, [], IfOk, None, OnErr, OnOk, drop, length, nat_le, option_map, true};
ghost use Rattle.std.specs.Map.Iter.{deref_pair};
ghost use Rattle.cqlp_tcp_segment.specs.Segment.{seen};
ghost use Rattle.cqlp_tcp_connections.specs.Tables.{IsDeliveryWithin};

use crate::connection::Connection;
use crate::delivery::{Admission, Delivery, between};
use crate::ends::{Ends, Way};
use crate::limits::ConnectionLimits;
use cqlp_tcp_segment::{Segment, SegmentHead};
use lru::{DefaultHasher, LruCache};
use std::alloc::{AllocError, Allocator};
use std::marker::Model;
use std::num::NonZeroUsize;

/// The connections that are there, the one whose segment came last first, and what they hold of what came early.
#[derive(Drop)]
pub(crate) struct Pool<A: Allocator> {
    limits: ConnectionLimits,
    cache: LruCache<Ends, Connection<A>, DefaultHasher, A>,
    /// How much all hold of what came early.
    early: usize,
}

impl<A: Allocator> Model for Pool<A> {
    ghost use Rattle.std.specs.Prelude.{◌≡◌, ◌≤◌};
    ghost use Rattle.cqlp_tcp_connections.specs.Pools.{PoolState, known_of, pool};
    ghost use Rattle.cqlp_tcp_connections.specs.Tables.{early_of};

    ghost Value = { PoolState };

    ghost view = { λ p. pool p.limits (known_of p.cache.entries) };

    ghost invariant = { λ p. (p.cache.cap ≡ p.limits.connections) × (p.early ≡ early_of (known_of p.cache.entries)) × (p.early ≤ p.limits.early) };
}

impl<A: Allocator> Pool<A> {
    ghost use Rattle.cqlp_tcp_connections.specs.Known.{closed, counted_on, known, new_flows, passed, pull_refused};
    ghost use Rattle.cqlp_tcp_connections.specs.Tables.{early_of, first_becomes, first_delivering, first_delivers, found_in, held_of, last_first, room_in};
    ghost use Rattle.cqlp_tcp_connections.specs.Pools.{first_of, pool, pulled_first, seeing, seen_between, with_known};

    /// A pool without connections. It takes memory as they come.
    pub(crate) fn new(alloc: A, limits: ConnectionLimits) -> Result<Self, AllocError>
    where
        A: Clone,
        requires { 1 ≤ limits.connections }
        ensures { IfOk result (λ p. p ≡ pool limits []) }
    {
        let connections = NonZeroUsize::new(limits.connections as usize).unwrap_or(
            NonZeroUsize::MIN,
        );
        let cache = LruCache::sparse(alloc, connections)?;
        Ok(Pool {
            limits,
            cache,
            early: 0,
        })
    }

    /// How many connections there are.
    pub(crate) fn len(&self) -> usize
        ensures is { result ≡ length self.now.known }
        ensures within { result ≤ self.now.limits.connections }
    {
        self.cache.len()
    }

    /// Whether there are as many as the limit.
    pub(crate) fn is_full(&self) -> bool
        ensures { result ≡ nat_le self.now.limits.connections (length self.now.known) }
    {
        self.limits.connections as usize <= self.cache.len()
    }

    /// How much all hold of what came early.
    pub(crate) fn early(&self) -> usize
        ensures is { result ≡ early_of self.now.known }
        ensures within { result ≤ self.now.limits.early }
    {
        self.early
    }

    /// Brings the connection between these ends to the front, if it is there, and says what a segment that goes this way is to it.
    pub(crate) fn see(&mut self, ends: &Ends, way: Way, head: &SegmentHead) -> Option<Admission>
        ensures seen { seeing result self.new.known ≡ seen_between ends.now way head.now self.old.known }
        ensures limits { self.new.limits ≡ self.old.limits }
    {
        let Some(connection) = self.cache.get_mut(ends) else {
            return None;
        };
        Some(connection.see(way, head))
    }

    /// Brings the last one to the front, which was silent longest.
    pub(crate) fn bring_last(&mut self)
        ensures { self.new ≡ with_known (last_first self.old.known) self.old }
    {
        if self.cache.len() < 2 {
            return;
        }
        let last = match self.cache.peek_lru() {
            Some((ends, _)) => *ends,
            None => return,
        };
        self.cache.promote(&last);
    }

    /// The first one.
    pub(crate) fn first(&self) -> Option<(&Ends, &Connection<A>)>
        ensures { option_map deref_pair result ≡ first_of self.now.known }
    {
        self.cache.peek_mru()
    }

    /// Puts a connection before the others, between ends that have none. Nothing was reported of it, and a segment went this way.
    pub(crate) fn add(&mut self, ends: Ends, number: u64, way: Way) -> Result<(), AllocError>
    where
        A: Clone,
        requires room { length self.old.known < self.old.limits.connections }
        requires absent { found_in ends self.old.known ≡ None }
        ensures added { OnOk result (self.new ≡ with_known (known ends (counted_on way (new_flows number)) ∷ self.old.known) self.old) }
        ensures refused { OnErr result (self.new ≡ self.old) }
    {
        let alloc = self.cache.allocator().clone()?;
        let mut connection = Connection::new(alloc, number)?;
        connection.count_segment(way);
        self.cache.put(ends, connection)?;
        Ok(())
    }

    /// Takes the first one away.
    pub(crate) fn remove_first(&mut self)
        ensures { self.new ≡ with_known (drop 1 self.old.known) self.old }
    {
        if let Some((_, first)) = self.cache.pop_mru() {
            self.early -= first.size();
        }
    }

    /// The next report of a segment that goes this way of the first one.
    pub(crate) fn pull(
        &mut self,
        way: Way,
        segment: &Segment<'_>,
        time: Option<u64>,
    ) -> Result<Option<Delivery>, AllocError>
    where
        A: Clone,
        ensures delivered { IfOk result (λ delivered. first_delivering delivered self.new.known ≡ pulled_first way (seen segment.now) time self.old) }
        ensures within { IfOk result (λ delivered. IsDeliveryWithin delivered (length segment.now.payload.now)) }
        ensures refused { OnErr result (self.new.known ≡ first_becomes (pull_refused way (seen segment.now) time) self.old.known) }
        ensures limits { self.new.limits ≡ self.old.limits }
    {
        let room = self.room();
        let Some(ends) = self.first_ends() else {
            return Ok(None);
        };
        let Some(first) = self.cache.peek_mut(&ends) else {
            return Ok(None);
        };
        let before = first.size();
        let stepped = first.pull(way, segment, time, room);
        let after = first.size();
        self.early = self.early - before + after;
        Ok(between(ends, stepped?))
    }

    /// That `pull` of a segment which goes this way of the first one reports nothing and changes nothing, as `Connection` says it.
    #[inline]
    pub(crate) fn is_done(&self, way: Way, segment: &Segment<'_>, time: Option<u64>) -> bool
        ensures { result ≡ true → pulled_first way (seen segment.now) time self.now ≡ first_delivering None self.now.known }
    {
        match self.first() {
            Some((_, first)) => first.is_done(way, segment, time),
            None => false,
        }
    }

    /// The next report of the first one where no more segments of it come.
    pub(crate) fn close(&mut self) -> Option<Delivery>
        ensures delivered { first_delivering result self.new.known ≡ first_delivers closed self.old.known }
        ensures limits { self.new.limits ≡ self.old.limits }
    {
        let ends = self.first_ends()?;
        let first = self.cache.peek_mut(&ends)?;
        let before = first.size();
        let step = first.close();
        let after = first.size();
        self.early = self.early - before + after;
        between(ends, step)
    }

    /// The next bytes of this way of the first one, which came before.
    pub(crate) fn held(&self, way: Way) -> &[u8]
        ensures { result.now ≡ held_of way self.now.known }
    {
        match self.first() {
            Some((_, first)) => first.held(way),
            None => &[],
        }
    }

    /// Passes them.
    pub(crate) fn pass_held(&mut self, way: Way)
        ensures { self.new ≡ with_known (first_becomes (passed way) self.old.known) self.old }
    {
        let Some(ends) = self.first_ends() else {
            return;
        };
        let Some(first) = self.cache.peek_mut(&ends) else {
            return;
        };
        let before = first.size();
        first.pass_held(way);
        let after = first.size();
        self.early = self.early - before + after;
    }

    /// The ends of the first one.
    fn first_ends(&self) -> Option<Ends>
        ensures { result ≡ option_map (λ e. e.0) (first_of self.now.known) }
    {
        let (ends, _) = self.first()?;
        Some(*ends)
    }

    /// How much a direction may hold of what comes early.
    fn room(&self) -> usize
        ensures { result ≡ room_in self.now.limits self.now.known }
    {
        self.limits.early_each.min(self.limits.early - self.early)
    }
}
