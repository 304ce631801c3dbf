//! Runs in a queue.

ghost use Rattle.std.specs.Prelude.{◌≡◌, ◌+◌, ◌-◌, ◌<◌, ◌≤◌, ◌==◌, ◌^◌, [], ◌∷◌, length};
ghost use Rattle.std.specs.Prelude.{IfOk, IfSome, OnErr, if◌then◌else◌};
ghost use Rattle.std.specs.VecDeque.{deque_capacity, deque_len};
ghost use Rattle.cqlp_tcp_reassembly.specs.Runs.{behind_first, behind_last, bytes_at, first_at, first_free, free_part, last_of};
ghost use Rattle.cqlp_tcp_reassembly.specs.Runs.{size_of, summary_at, with_run};

use crate::run::{EarlyPart, Part, RUN_SIZE, Run, RunSummary};
use std::alloc::{AllocError, Allocator};
use std::collections::VecDeque;
use std::marker::Model;

/// Parts of segments that came early, by position. None covers another. It has memory for fewer than twice as many.
#[derive(Drop)]
pub(crate) struct RunQueue<A: Allocator> {
    runs: VecDeque<Run<A>, A>,
    /// Their bytes, and 144 for each.
    size: usize,
}

impl<A: Allocator> Model for RunQueue<A> {
    ghost use Rattle.std.specs.Prelude.{◌≡◌, List};
    ghost use Rattle.cqlp_tcp_reassembly.specs.Runs.{EarlyRun, size_of};

    ghost Value = { List EarlyRun };

    ghost view = { λ r. r.runs.items };

    ghost invariant = { λ r. r.size ≡ size_of r.runs.items };
}

impl<A: Allocator> RunQueue<A> {
    /// None, without memory.
    pub(crate) fn new(alloc: A) -> Self
        ensures { result ≡ [] }
    {
        RunQueue {
            runs: VecDeque::new(alloc),
            size: 0,
        }
    }

    /// A run and one that comes before it or behind it, in memory for two.
    pub(crate) fn of_two(
        room: VecDeque<Run<A>, A>,
        one: Run<A>,
        other: Run<A>,
        is_before: bool,
    ) -> Self
        requires none { deque_len room ≡ 0 }
        requires empty { room.items ≡ [] }
        requires room { 2 ≤ deque_capacity room }
        requires size { length one.bytes + length other.bytes + 288 < 2 ^ 64 }
        ensures { result ≡ (if is_before then other ∷ one ∷ [] else one ∷ other ∷ []) }
    {
        let mut runs = room;
        let size = one.size() + other.size();
        if is_before {
            runs.push_back_reserved(other);
            runs.push_back_reserved(one);
        } else {
            runs.push_back_reserved(one);
            runs.push_back_reserved(other);
        }
        RunQueue { runs, size }
    }

    /// What they count.
    pub(crate) fn size(&self) -> usize
        ensures { result ≡ size_of self.now }
    {
        self.size
    }

    pub(crate) fn is_empty(&self) -> bool
        ensures { result ≡ (length self.now == 0) }
    {
        self.runs.is_empty()
    }

    /// The position of the first, or this one where it is less or there is none.
    pub(crate) fn first_at(&self, other: u64) -> u64
        ensures is { result ≡ first_at other self.now }
        ensures bound { result ≤ other }
    {
        match self.runs.front() {
            None => other,
            Some(run) => other.min(run.at()),
        }
    }

    /// The first, if it begins at this position.
    pub(crate) fn summary_at(&self, position: u64) -> Option<RunSummary>
        ensures { result ≡ summary_at position self.now }
    {
        match self.runs.front() {
            None => None,
            Some(run) => {
                if run.at() == position {
                    Some(run.summary())
                } else {
                    None
                }
            }
        }
    }

    /// Its bytes.
    pub(crate) fn bytes_at(&self, position: u64) -> &[u8]
        ensures { result.now ≡ bytes_at position self.now }
    {
        match self.runs.front() {
            None => &[],
            Some(run) => {
                if run.at() == position {
                    run.bytes()
                } else {
                    &[]
                }
            }
        }
    }

    /// The first part from a position on, up to another, that none covers. It is empty where they cover all.
    pub(crate) fn first_free(&self, from: u64, to: u64) -> Part
        ensures is { result ≡ first_free from to self.now }
        ensures index { result.index ≤ length self.now }
        ensures from { from ≤ result.from }
        ensures to { result.to ≤ to }
    {
        match self.behind_last(from) {
            None => self.free_part(from, to),
            Some(start) => Part {
                index: self.runs.len(),
                from: start,
                to,
            },
        }
    }

    /// The position behind the last, or this one if it is greater, where the last begins no later.
    #[tactic(auto, using(crate::proofs::Lasts::last_read))]
    fn behind_last(&self, from: u64) -> Option<u64>
        ensures is { result ≡ behind_last (last_of self.now) from }
        ensures from { IfSome result (λ start. from ≤ start) }
    {
        match self.runs.back() {
            None => None,
            Some(last) => {
                if from < last.at() {
                    None
                } else {
                    Some(from.max(last.end()))
                }
            }
        }
    }

    /// That part, from the first of them on.
    fn free_part(&self, from: u64, to: u64) -> Part
        ensures is { result ≡ free_part 0 from to self.now }
        ensures index { result.index ≤ length self.now }
        ensures from { from ≤ result.from }
        ensures to { result.to ≤ to }
    {
        let mut start = from;
        for index in 0..self.runs.len() {
            let run = &self.runs[index];
            if start < run.at() {
                return Part {
                    index,
                    from: start,
                    to: to.min(run.at()),
                };
            }
            start = start.max(run.end());
        }
        Part {
            index: self.runs.len(),
            from: start,
            to,
        }
    }

    /// Keeps a part.
    ///
    /// # Errors
    ///
    /// Memory that is refused. Then nothing changes.
    #[tactic(auto, using(crate::proofs::Sizes::size_insert))]
    pub(crate) fn insert(&mut self, early: EarlyPart<'_>) -> Result<(), AllocError>
    where
        A: Clone,
        requires order { early.part.from + length early.bytes.now ≤ early.part.to }
        requires bound { early.part.to ≤ 2 ^ 62 }
        requires index { early.part.index ≤ length self.old }
        requires size { size_of self.old + length early.bytes.now + 144 < 2 ^ 64 }
        ensures ok { IfOk result (λ x. self.new ≡ with_run early.entry self.old) }
        ensures err { OnErr result (self.new ≡ self.old) }
    {
        let run = Run::new(self.runs.allocator().clone()?, early)?;
        self.make_room()?;
        self.runs.insert(early.part.index, run)?;
        self.size += early.bytes.len() + RUN_SIZE;
        Ok(())
    }

    /// Takes memory for one more, and for half as many again as there are, if there is none.
    fn make_room(&mut self) -> Result<(), AllocError>
        ensures { self.new ≡ self.old }
    {
        let count = self.runs.len();
        if count < self.runs.capacity() {
            return Ok(());
        }
        self.runs.reserve_exact(1 + count / 2)
    }

    /// Goes on behind the bytes of the first, or where it has none behind all of it.
    pub(crate) fn pass_first(&mut self)
        ensures { self.new ≡ behind_first self.old }
    {
        if self.runs.is_empty() {
            return;
        }
        let run = self.runs[0].summary();
        self.size -= run.length;
        if run.length > 0 && run.missing > 0 {
            self.runs[0].drop_bytes();
        } else {
            self.size -= RUN_SIZE;
            self.runs.pop_front();
        }
        let count = self.runs.len();
        if count <= self.runs.capacity() / 2 {
            self.runs.shrink_to(count + count / 2);
        }
    }
}
