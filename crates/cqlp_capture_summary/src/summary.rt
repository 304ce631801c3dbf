//! The statements of a capture.

ghost use Rattle.std.specs.Prelude.{◌≡◌, ◌==◌, ◌+◌, ◌<◌, ◌≤◌, IfOk, IfSome, MatchOption, None, Some, [], ◌∷◌, length, vec_capacity};
ghost use Rattle.std.specs.List.{position};
ghost use Rattle.cqlp_text.specs.Written.{Writes};
ghost use Rattle.cqlp_capture_summary.specs.Lines.{summary_text};
ghost use Rattle.cqlp_capture_summary.specs.Names.{is_same};
ghost use Rattle.cqlp_capture_summary.specs.Tallies.{figures_of, none_counted};

use crate::histogram::put_histogram;
use crate::intervals::{add_in_interval, is_over, put_interval};
use crate::lines::put_summary;
use crate::name::Name;
use crate::occurrence::Occurrence;
use crate::recent::{Recent, fingerprint_in};
use crate::row::Row;
use crate::tally::{Figures, Tally, time_of};
use crate::weights::{add_weight_at, lightest, raise_weight_at};
use cqlp_grammar::SinkFault;
use cqlp_text::{Pen, TextWriter};
use std::alloc::{AllocError, Allocator, Global};
use std::marker::Model;

/// How often the statements of a capture were asked for, and how long they took: the heaviest statements in a table of bounded size, and the others together.
/// A statement that took more than one in N of the whole time is in a table of N places. All memory is taken in `new`: for each place 15,760 bytes, and
/// 167,024 besides, or 23,664 where there are no places; 4.2 MB for 256 places.
#[derive(Drop)]
pub struct Summary<A: Allocator = Global> {
    statements: usize,
    /// The statements at the places that are taken.
    names: Vec<Name, A>,
    /// The most nanoseconds that each of these may have taken.
    weights: Vec<u64, A>,
    /// One for each place that is taken: memory for those that are free is not touched.
    tallies: Vec<Tally, A>,
    /// One, of all other statements.
    others: Vec<Tally, A>,
    /// By the hash of a name, where it was seen last. A name that is not there is sought at each place.
    slots: Vec<usize, A>,
    /// By the hash of a name, the one that came last, with its fingerprint; none where there are no places.
    recent: Vec<Recent, A>,
}

/// How many slots there are.
const SLOTS: usize = 1024;

/// How many names are kept with their fingerprints.
const RECENT: usize = 256;

impl<A: Allocator> Model for Summary<A> {
    ghost use Rattle.std.specs.Prelude.{◌≡◌, ◌≤◌, length, slice_index_or, vec_capacity};
    ghost use Rattle.cqlp_capture_summary.specs.Names.{AreApart};
    ghost use Rattle.cqlp_capture_summary.specs.Summaries.{Summary, padded, summary};
    ghost use Rattle.cqlp_capture_summary.specs.Tallies.{none_counted};

    ghost Value = { Summary };

    ghost view = { λ s. summary s.statements s.names.items s.weights.items (padded s.statements s.tallies.items)
        (slice_index_or s.others.items 0 none_counted) };

    ghost invariant = { λ s. (length s.names.items ≤ s.statements) × (vec_capacity s.names ≡ s.statements)
        × (length s.weights.items ≡ length s.names.items) × (vec_capacity s.weights ≡ s.statements)
        × (length s.tallies.items ≡ length s.names.items) × (vec_capacity s.tallies ≡ s.statements)
        × (length s.others.items ≡ 1) × (vec_capacity s.others ≡ 1)
        × (length s.slots.items ≡ 1024) × AreApart s.names.items };
}

impl<A: Allocator> Summary<A> {
    ghost use Rattle.cqlp_capture_summary.specs.Adding.{given_up, with_counts, with_counts_at, with_others, with_row, with_weight};
    ghost use Rattle.cqlp_capture_summary.specs.Counts.{entry_of, request_of};
    ghost use Rattle.cqlp_capture_summary.specs.Histograms.{histogram_text};
    ghost use Rattle.cqlp_capture_summary.specs.Intervals.{interval_text, is_over, noted_in_interval};
    ghost use Rattle.cqlp_capture_summary.specs.Named.{noted_by_fingerprint};
    ghost use Rattle.cqlp_capture_summary.specs.Names.{name_of};
    ghost use Rattle.cqlp_capture_summary.specs.Rows.{IsRowAt};
    ghost use Rattle.cqlp_capture_summary.specs.Summaries.{new_place, new_summary, noted, noted_request, place_of, taken_in};
    ghost use Rattle.cqlp_capture_summary.specs.Summaries.{with_in_place_of, with_name, with_new, with_request, with_request_at};

    /// Nothing is noted. At most so many statements have places. All memory is taken here, in six requests, or in two where there are no places.
    pub fn new(alloc: A, statements: usize) -> Result<Self, AllocError>
    where
        A: Clone,
        ensures { IfOk result (λ s. s ≡ new_summary statements) }
    {
        Ok(Summary {
            statements,
            names: Vec::with_capacity(alloc.clone()?, statements)?,
            weights: Vec::with_capacity(alloc.clone()?, statements)?,
            tallies: Vec::with_capacity(alloc.clone()?, statements)?,
            others: make_others(alloc.clone()?)?,
            slots: make_slots(alloc.clone()?)?,
            recent: make_recent(alloc, if statements == 0 { 0 } else { RECENT })?,
        })
    }

    /// Counts one time that a statement was asked for and answered.
    pub fn note(&mut self, occurrence: &Occurrence<'_>)
        ensures { self.new ≡ noted (entry_of occurrence.now) self.old }
    {
        self.note_request(occurrence, true, None);
    }

    /// Counts one time that a statement was asked for: whether it was answered, and when it was asked for, in nanoseconds since some moment.
    pub fn note_request(&mut self, occurrence: &Occurrence<'_>, is_answered: bool, at: Option<u64>)
        ensures { self.new ≡ noted_request (request_of occurrence.now is_answered at) self.old }
    {
        let name = Name::new(occurrence.name, occurrence.is_whole_name);
        self.note_named(name, occurrence, is_answered, at);
    }

    /// Likewise, under the fingerprint of the statement's name.
    pub fn note_by_fingerprint(
        &mut self,
        occurrence: &Occurrence<'_>,
        is_answered: bool,
        at: Option<u64>,
    )
        ensures { self.new ≡ noted_by_fingerprint (request_of occurrence.now is_answered at) self.old }
    {
        let name = fingerprint_in(&mut self.recent, occurrence.name, occurrence.is_whole_name);
        self.note_named(name, occurrence, is_answered, at);
    }

    /// Counts one time that the statement of a name was asked for.
    fn note_named(
        &mut self,
        name: Name,
        occurrence: &Occurrence<'_>,
        is_answered: bool,
        at: Option<u64>,
    )
        ensures { self.new ≡ with_request (place_of name self.old) (request_of occurrence.now is_answered at) (with_name name self.old) }
    {
        let slot = name.slot();
        match self.place_for(name) {
            Some(place) => {
                self.slots[slot] = place;
                self.add_at(place, occurrence, is_answered, at);
            }
            None => self.others[0].add_request(occurrence, is_answered, at),
        }
    }

    /// Counts one time that the statement at a place was asked for.
    fn add_at(
        &mut self,
        place: usize,
        occurrence: &Occurrence<'_>,
        is_answered: bool,
        at: Option<u64>,
    )
        requires { place < length self.old.names }
        ensures { self.new ≡ with_request_at place (request_of occurrence.now is_answered at) self.old }
    {
        add_weight_at(&mut self.weights, place, time_of(occurrence.took));
        self.tallies[place].add_request(occurrence, is_answered, at);
    }

    /// The place where a statement is counted, which takes it in if it is not in the table.
    fn place_for(&mut self, name: Name) -> Option<usize>
        ensures place { result ≡ place_of name self.old }
        ensures names { self.new ≡ with_name name self.old }
        ensures within { IfSome result (λ at. at < length self.new.names) }
        ensures few { IfSome result (λ at. at < self.old.statements) }
    {
        match self.find(&name) {
            Some(at) => Some(at),
            None => self.take_in(name),
        }
    }

    /// The place of a statement that is in the table.
    fn find(&self, name: &Name) -> Option<usize>
        ensures position { result ≡ position (is_same name.now) self.now.names }
        ensures within { IfSome result (λ at. at < length self.now.names) }
        ensures few { IfSome result (λ at. at < self.now.statements) }
    {
        let seen = self.slots[name.slot()];
        if seen < self.names.len() && self.names[seen].is(name) {
            return Some(seen);
        }
        position_of(&self.names, name)
    }

    /// Takes a statement in, at a free place or at that of the lightest.
    fn take_in(&mut self, name: Name) -> Option<usize>
        requires { position (is_same name) self.old.names ≡ None }
        ensures place { result ≡ new_place self.old }
        ensures names { self.new ≡ taken_in name self.old }
        ensures within { IfSome result (λ at. at < length self.new.names) }
        ensures few { IfSome result (λ at. at < self.old.statements) }
    {
        let place = self.names.len();
        if place < self.statements {
            self.push(name);
            return Some(place);
        }
        let at = lightest(&self.weights)?;
        self.replace(at, name);
        Some(at)
    }

    /// Takes a statement in at a free place.
    #[tactic(auto, using(crate::proofs::Padded::padded_push))]
    fn push(&mut self, name: Name)
        requires room { length self.old.names < self.old.statements }
        requires absent { position (is_same name) self.old.names ≡ None }
        ensures { self.new ≡ with_new name self.old }
    {
        self.names.push_reserved(name);
        self.weights.push_reserved(0);
        self.tallies.push_reserved(Tally::new());
    }

    /// Takes a statement in at a place whose counts go to the others.
    fn replace(&mut self, at: usize, name: Name)
        requires within { at < length self.old.names }
        requires absent { position (is_same name) self.old.names ≡ None }
        ensures { self.new ≡ with_in_place_of at name self.old }
    {
        self.others[0].merge(&self.tallies[at]);
        self.tallies[at].clear();
        self.names[at] = name;
    }

    /// Counts what was counted of a name elsewhere: at its place, at a free one, or at that of the lightest, whose counts go to the others. There it took at
    /// most so many nanoseconds, and before at most `before` where it has no place yet. Answers its place.
    pub fn add(
        &mut self,
        name: &[u8],
        is_whole: bool,
        counts: &Tally,
        most: u64,
        before: u64,
    ) -> Option<usize>
        ensures added { self.new ≡ with_row (name_of name.now is_whole) counts.now most before self.old }
        ensures place { result ≡ place_of (name_of name.now is_whole) self.old }
        ensures within { IfSome result (λ at. at < self.old.statements) }
    {
        let name = Name::new(name, is_whole);
        let before = if self.find(&name).is_some() {
            0
        } else {
            before
        };
        let place = self.place_for(name);
        self.add_counts(place, counts, most, before);
        place
    }

    fn add_counts(&mut self, place: Option<usize>, counts: &Tally, most: u64, before: u64)
        requires { IfSome place (λ at. at < length self.old.names) }
        ensures { self.new ≡ with_counts place counts.now most before self.old }
    {
        match place {
            Some(place) => self.add_counts_at(place, counts, most, before),
            None => self.add_others(counts),
        }
    }

    fn add_counts_at(&mut self, place: usize, counts: &Tally, most: u64, before: u64)
        requires { place < length self.old.names }
        ensures { self.new ≡ with_counts_at place counts.now most before self.old }
    {
        raise_weight_at(&mut self.weights, place, before, most);
        self.tallies[place].merge(counts);
    }

    /// Counts what was counted elsewhere of all other names.
    pub fn add_others(&mut self, counts: &Tally)
        ensures { self.new ≡ with_others counts.now self.old }
    {
        self.others[0].merge(counts);
    }

    /// The most nanoseconds that a statement may have taken that gave up its place; 0 where there are free ones.
    pub fn given_up(&self) -> u64
        ensures { result ≡ given_up self.now }
    {
        if self.names.len() < self.statements {
            return 0;
        }
        match lightest(&self.weights) {
            Some(at) => self.weights[at],
            None => 0,
        }
    }

    /// The statement at a place may have taken so many nanoseconds more.
    pub fn add_weight(&mut self, place: usize, more: u64)
        ensures { self.new ≡ with_weight place more self.old }
    {
        add_weight_at(&mut self.weights, place, more);
    }

    /// Whether the interval of so many seconds in which the others are counted is over, before a request that was over at this time. Where nothing is counted
    /// it is.
    pub fn is_over(&self, seconds: u32, at: Option<u64>) -> bool
        ensures { result ≡ is_over seconds at self.now.others }
    {
        is_over(seconds, at, &self.others[0])
    }

    /// Counts a request among the others, which was over at this time. Those of an interval that is over are not counted any more.
    pub fn note_in_interval(
        &mut self,
        seconds: u32,
        occurrence: &Occurrence<'_>,
        is_answered: bool,
        at: Option<u64>,
    )
        ensures { self.new ≡ noted_in_interval seconds (request_of occurrence.now is_answered at) self.old }
    {
        add_in_interval(&mut self.others[0], seconds, occurrence, is_answered, at);
    }

    /// Writes the line of the interval of so many seconds in which the others are counted, or the line above all of them where none is counted.
    pub fn put_interval<P: Pen>(
        &self,
        writer: &mut TextWriter<P>,
        seconds: u32,
    ) -> Result<(), SinkFault>
        ensures { Writes writer.old (interval_text seconds self.now.others) result writer.new }
    {
        put_interval(writer, seconds, &self.others[0])
    }

    /// Writes how many of the others took how long, in ranges of time that double.
    pub fn put_histogram<P: Pen>(&self, writer: &mut TextWriter<P>) -> Result<(), SinkFault>
        ensures { Writes writer.old (histogram_text self.now.others) result writer.new }
    {
        put_histogram(writer, &self.others[0])
    }

    /// How many statements are in the table.
    pub fn len(&self) -> usize
        ensures { result ≡ length self.now.names }
    {
        self.names.len()
    }

    /// What is shown of the statement at a place.
    pub fn row(&self, place: usize) -> Option<Row<'_>>
        ensures row { MatchOption result (length self.now.names ≤ place) (λ row. IsRowAt self.now place row) }
        ensures buckets { IfSome result (λ row. length row.buckets.now ≡ 1920) }
    {
        if place >= self.names.len() {
            return None;
        }
        let (name, tally) = (&self.names[place], &self.tallies[place]);
        Some(Row {
            name: name.as_slice(),
            is_whole_name: name.is_whole(),
            missing: self.weights[place].saturating_sub(tally.time()),
            figures: tally.figures(),
            buckets: tally.buckets(),
        })
    }

    /// Whether there are no other statements.
    pub fn has_no_others(&self) -> bool
        ensures { result ≡ (self.now.others.count == 0) }
    {
        self.others[0].count() == 0
    }

    /// What is counted of all other statements.
    pub fn others(&self) -> Figures
        ensures { result ≡ figures_of self.now.others }
    {
        self.others[0].figures()
    }

    /// How many of their times are in each of the 1,920 buckets.
    pub fn others_buckets(&self) -> &[u64]
        ensures is { result.now ≡ self.now.others.buckets }
        ensures length { length result.now ≡ 1920 }
    {
        self.others[0].buckets()
    }

    /// Writes a line for each statement, the one that took most time in sum first, and a line for all others. Above the names is this heading.
    #[tactic(auto, using(crate::proofs::Padded::padded_taken))]
    pub fn put<P: Pen>(&self, writer: &mut TextWriter<P>, heading: &str) -> Result<(), SinkFault>
        ensures { Writes writer.old (summary_text heading.now self.now) result writer.new }
    {
        put_summary(
            writer,
            heading,
            &self.names,
            &self.weights,
            &self.tallies,
            &self.others[0],
        )
    }
}

/// The place of a name, if it is among them.
fn position_of(names: &[Name], name: &Name) -> Option<usize>
    ensures position { result ≡ position (is_same name.now) names.now }
    ensures within { IfSome result (λ at. at < length names.now) }
{
    names.iter().position(|known| known.is(name))
}

fn make_slots<A: Allocator>(alloc: A) -> Result<Vec<usize, A>, AllocError>
    ensures { IfOk result (λ slots. length slots.items ≡ 1024) }
{
    let mut slots = Vec::with_capacity(alloc, SLOTS)?;
    for _ in 0..SLOTS {
        slots.push_reserved(0);
    }
    Ok(slots)
}

fn make_recent<A: Allocator>(alloc: A, count: usize) -> Result<Vec<Recent, A>, AllocError> {
    let mut recent = Vec::with_capacity(alloc, count)?;
    for _ in 0..count {
        recent.push_reserved(Recent::new(Name::new(b"", true)));
    }
    Ok(recent)
}

fn make_others<A: Allocator>(alloc: A) -> Result<Vec<Tally, A>, AllocError>
    ensures tallies { IfOk result (λ others. others.items ≡ none_counted ∷ []) }
    ensures capacity { IfOk result (λ others. vec_capacity others ≡ 1) }
{
    let mut others = Vec::with_capacity(alloc, 1)?;
    others.push_reserved(Tally::new());
    Ok(others)
}
