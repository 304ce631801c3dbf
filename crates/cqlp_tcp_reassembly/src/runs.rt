//! What came early.

ghost use Rattle.std.specs.Prelude.{◌≡◌, ◌+◌, ◌<◌, ◌≤◌, ◌==◌, ◌^◌, [], ◌∷◌, length, IfOk, OnErr};
ghost use Rattle.cqlp_tcp_reassembly.specs.Runs.{behind_first, bytes_at, first_at, first_free, size_of, summary_at, with_run};
ghost use Rattle.cqlp_tcp_reassembly.specs.Stores.{runs_in};

use crate::queue::RunQueue;
use crate::run::{EarlyPart, Part, Run, RunSummary};
use std::alloc::{AllocError, Allocator};
use std::collections::VecDeque;
use std::marker::Model;
use std::mem;

/// Parts of segments that came early, by position. None covers another. It has memory only while there are any.
#[derive(Drop)]
pub(crate) struct Runs<A: Allocator> {
    store: Store<A>,
    alloc: A,
}

/// Where they lie: one alone in a box of its own, several in a queue.
#[derive(Drop)]
pub(crate) enum Store<A: Allocator> {
    Empty,
    Alone { run: Box<Run<A>, A> },
    Queued { queue: Box<RunQueue<A>, A> },
}

impl<A: Allocator> Model for Runs<A> {
    ghost use Rattle.std.specs.Prelude.{List};
    ghost use Rattle.cqlp_tcp_reassembly.specs.Runs.{EarlyRun};
    ghost use Rattle.cqlp_tcp_reassembly.specs.Stores.{runs_in};

    ghost Value = { List EarlyRun };

    ghost view = { λ r. runs_in r.store };
}

impl<A: Allocator> Runs<A> {
    /// None, without memory.
    pub(crate) fn new(alloc: A) -> Self
        ensures { result ≡ [] }
    {
        Runs {
            store: Store::Empty,
            alloc,
        }
    }

    /// What they count.
    #[inline]
    pub(crate) fn size(&self) -> usize
        ensures { result ≡ size_of self.now }
    {
        match &self.store {
            Store::Empty => 0,
            Store::Alone { run } => run.size(),
            Store::Queued { queue } => queue.size(),
        }
    }

    #[inline]
    pub(crate) fn is_empty(&self) -> bool
        ensures { result ≡ (length self.now == 0) }
    {
        match &self.store {
            Store::Empty => true,
            Store::Alone { .. } => false,
            Store::Queued { queue } => queue.is_empty(),
        }
    }

    /// The position of the first, or this one where it is less or there is none.
    #[inline]
    pub(crate) fn first_at(&self, other: u64) -> u64
        ensures is { result ≡ first_at other self.now }
        ensures bound { result ≤ other }
    {
        match &self.store {
            Store::Empty => other,
            Store::Alone { run } => other.min(run.at()),
            Store::Queued { queue } => queue.first_at(other),
        }
    }

    /// The first, if it begins at this position.
    #[inline]
    pub(crate) fn summary_at(&self, position: u64) -> Option<RunSummary>
        ensures { result ≡ summary_at position self.now }
    {
        match &self.store {
            Store::Empty => None,
            Store::Alone { run } => run.summary_at(position),
            Store::Queued { queue } => queue.summary_at(position),
        }
    }

    /// Its bytes.
    pub(crate) fn bytes_at(&self, position: u64) -> &[u8]
        ensures { result.now ≡ bytes_at position self.now }
    {
        match &self.store {
            Store::Empty => &[],
            Store::Alone { run } => run.bytes_at(position),
            Store::Queued { queue } => queue.bytes_at(position),
        }
    }

    /// The first part from a position on, up to another, that none covers. It is empty where they cover all.
    #[inline]
    pub(crate) fn first_free(&self, from: u64, to: u64) -> Part
        ensures is { result ≡ first_free from to self.now }
        ensures index { result.index ≤ length self.now }
        ensures from { from ≤ result.from }
        ensures to { result.to ≤ to }
    {
        match &self.store {
            Store::Empty => Part { index: 0, from, to },
            Store::Alone { run } => run.first_free(from, to),
            Store::Queued { queue } => queue.first_free(from, to),
        }
    }

    /// Keeps a part.
    ///
    /// # Errors
    ///
    /// Memory that is refused. Then nothing changes.
    pub(crate) fn insert(&mut self, early: EarlyPart<'_>) -> Result<(), AllocError>
    where
        A: Clone,
        requires order { early.part.from + length early.bytes.now ≤ early.part.to }
        requires bound { early.part.to ≤ 2 ^ 62 }
        requires index { early.part.index ≤ length self.old }
        requires size { size_of self.old + length early.bytes.now + 144 < 2 ^ 64 }
        ensures ok { IfOk result (λ x. self.new ≡ with_run early.entry self.old) }
        ensures err { OnErr result (self.new ≡ self.old) }
    {
        match &mut self.store {
            Store::Queued { queue } => queue.insert(early),
            Store::Alone { run } => {
                let queue = queue_with(&self.alloc, run, early)?;
                self.store = Store::Queued { queue };
                Ok(())
            }
            Store::Empty => {
                let run = Run::new(self.alloc.clone()?, early)?;
                self.store = Store::Alone {
                    run: Box::new(self.alloc.clone()?, run)?,
                };
                Ok(())
            }
        }
    }

    /// Goes on behind the bytes of the first, or where it has none behind all of it.
    pub(crate) fn pass_first(&mut self)
        ensures { self.new ≡ behind_first self.old }
    {
        self.store = match mem::replace(&mut self.store, Store::Empty) {
            Store::Empty => Store::Empty,
            Store::Alone { run } => behind_alone(run),
            Store::Queued { queue } => behind_queued(queue),
        };
    }

    /// Drops all, with their memory.
    #[cold]
    pub(crate) fn clear(&mut self)
        ensures { self.new ≡ [] }
    {
        self.store = Store::Empty;
    }
}

/// A queue of a run, which is moved there, and of a part beside it. Where memory is refused the run stays.
#[tactic(auto, using(crate::proofs::Pairs::both_in_order))]
fn queue_with<A: Allocator + Clone>(
    alloc: &A,
    run: &mut Run<A>,
    early: EarlyPart<'_>,
) -> Result<Box<RunQueue<A>, A>, AllocError>
    requires order { early.part.from + length early.bytes.now ≤ early.part.to }
    requires bound { early.part.to ≤ 2 ^ 62 }
    requires index { early.part.index ≤ 1 }
    requires size { size_of (run.old ∷ []) + length early.bytes.now + 144 < 2 ^ 64 }
    ensures ok { IfOk result (λ queue. queue.value ≡ with_run early.entry (run.old ∷ [])) }
    ensures err { OnErr result (run.new ≡ run.old) }
{
    let mut queue = Box::new(alloc.clone()?, RunQueue::new(alloc.clone()?))?;
    let mut room = VecDeque::new(alloc.clone()?);
    room.reserve_exact(2)?;
    let second = Run::new(alloc.clone()?, early)?;
    let first = mem::replace(run, Run::blank(alloc.clone()?));
    *queue = RunQueue::of_two(room, first, second, early.part.index == 0);
    Ok(queue)
}

/// Behind the bytes of the only one, or all of it.
fn behind_alone<A: Allocator>(mut run: Box<Run<A>, A>) -> Store<A>
    ensures { runs_in result ≡ behind_first (run.value ∷ []) }
{
    let summary = run.summary();
    if summary.length > 0 && summary.missing > 0 {
        run.drop_bytes();
        Store::Alone { run }
    } else {
        Store::Empty
    }
}

/// Behind the bytes of the first in a queue, or all of it.
#[tactic(auto, using(crate::proofs::Empties::none_left))]
fn behind_queued<A: Allocator>(mut queue: Box<RunQueue<A>, A>) -> Store<A>
    ensures { runs_in result ≡ behind_first queue.value }
{
    queue.pass_first();
    if queue.is_empty() {
        Store::Empty
    } else {
        Store::Queued { queue }
    }
}
