//! The summary that objects are added to.

ghost use Rattle.std.specs.Prelude.{◌≡◌};
ghost use Rattle.cqlp_capture_summary.specs.Adding.{with_others, with_row};
ghost use Rattle.cqlp_capture_summary.specs.Names.{name_of};
ghost use Rattle.cqlp_capture_merge.specs.Entries.{most_of};

use crate::object::{Entry, NoObject, add_buckets};
use cqlp_capture_summary::{Summary, Tally};
use json::Value;
use std::alloc::{AllocError, Allocator, Global};

/// How many names have places.
pub(crate) const PLACES: usize = 1024;

/// The summary that the objects of files are added to, and what may be missing of its names. All memory is taken in `new`.
#[derive(Drop)]
pub(crate) struct Merging<A: Allocator = Global> {
    summary: Summary<A>,
    /// For each place the number of the last file in which its name was.
    files: Vec<u64, A>,
    /// The number of this file, counted from 1.
    file: u64,
    /// What an object counts.
    counts: Tally,
    /// The most nanoseconds that a name without a place took in the files before this one.
    before: u64,
    /// The least time that a name of this file may have taken.
    least: u64,
    /// Nanoseconds of the others of this file.
    others: u64,
}

impl<A: Allocator> Merging<A> {
    pub(crate) fn new(alloc: A) -> Result<Self, AllocError>
    where
        A: Clone,
    {
        Ok(Merging {
            summary: Summary::new(alloc.clone()?, PLACES)?,
            files: vec![in alloc; 0; PLACES]?,
            file: 1,
            counts: Tally::new(),
            before: 0,
            least: u64::MAX,
            others: 0,
        })
    }

    pub(crate) fn summary(&self) -> &Summary<A> {
        &self.summary
    }

    /// Adds an object of this file, of which this is what it says of its name.
    pub(crate) fn add<B: Allocator>(
        &mut self,
        entry: &Entry<'_>,
        value: &Value<'_, B>,
    ) -> Result<(), NoObject> {
        self.counts.clear();
        self.counts.set_figures(&entry.figures);
        add_buckets(&mut self.counts, value)?;
        match entry.name {
            Some(name) => self.add_name(name, entry),
            None => self.add_others(entry),
        }
        Ok(())
    }

    fn add_name(&mut self, name: &str, entry: &Entry<'_>)
        ensures { self.new.summary
            ≡ with_row (name_of name.now entry.now.is_whole_name) self.old.counts (most_of entry.now) self.old.before self.old.summary }
    {
        let most = entry.most();
        self.least = self.least.min(most);
        let place = self.summary.add(
            name.as_bytes(),
            entry.is_whole_name,
            &self.counts,
            most,
            self.before,
        );
        if let Some(place) = place {
            self.note_file(place);
        }
    }

    /// The name at a place is in this file.
    fn note_file(&mut self, place: usize)
        ensures { self.new.summary ≡ self.old.summary }
    {
        if place < self.files.len() {
            self.files[place] = self.file;
        }
    }

    fn add_others(&mut self, entry: &Entry<'_>)
        ensures { self.new.summary ≡ with_others self.old.counts self.old.summary }
    {
        self.summary.add_others(&self.counts);
        self.others = self.others.saturating_add(entry.figures.time);
    }

    /// This file is at its end. A name that is not in it may have been among its others, which took no more than each of its names: so long may be missing
    /// of it.
    pub(crate) fn end_file(&mut self) {
        let missed = self.least.min(self.others);
        self.before = self
            .before
            .max(self.summary.given_up())
            .saturating_add(missed);
        for place in 0..self.files.len() {
            if self.files[place] != self.file {
                self.summary.add_weight(place, missed);
            }
        }
        self.file = self.file.saturating_add(1);
        self.least = u64::MAX;
        self.others = 0;
    }
}
