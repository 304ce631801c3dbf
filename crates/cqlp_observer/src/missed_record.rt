//! What was missed of one connection, in fewer bytes.

ghost use Rattle.std.specs.Prelude.{◌≡◌, IfOk};
ghost use Rattle.cqlp_observer.specs.Records.{missed_in};

use crate::missed::Missed;
use crate::opening::Opening;
use std::alloc::{AllocError, Allocator};
use std::marker::Model;

/// The greatest number that takes no memory.
const MOST: u64 = 65_535;

/// What was missed of one connection, as it is kept while that goes on: 16 bytes in place of 48, and memory once a number is past 65,535.
#[derive(Drop)]
pub(crate) struct MissedRecord<A: Allocator> {
    alloc: A,
    counts: Counts<A>,
}

/// What was missed, in numbers.
#[derive(Drop)]
pub(crate) enum Counts<A: Allocator> {
    /// None is past 65,535.
    Few {
        overtaken: u16,
        texts: u16,
        gaps: u16,
        other_versions: u16,
        tls: u16,
        http: u16,
    },
    Many {
        missed: Box<Missed, A>,
    },
}

impl<A: Allocator> Model for MissedRecord<A> {
    ghost use Rattle.cqlp_observer.specs.declared.missed.Missed.{Missed};
    ghost use Rattle.cqlp_observer.specs.Records.{missed_in};

    ghost Value = { Missed };

    ghost view = { λ r. missed_in r.counts };
}

impl<A: Allocator + Clone> MissedRecord<A> {
    ghost use Rattle.cqlp_observer.specs.Misses.{none_missed, with_gap, with_opening, with_overtaken, with_text};

    /// Nothing was missed. Takes no memory.
    pub(crate) fn new(alloc: A) -> Self
        ensures { result ≡ none_missed }
    {
        MissedRecord {
            alloc,
            counts: Counts::Few {
                overtaken: 0,
                texts: 0,
                gaps: 0,
                other_versions: 0,
                tls: 0,
                http: 0,
            },
        }
    }

    /// The numbers.
    pub(crate) fn missed(&self) -> Missed
        ensures { result ≡ self.now }
    {
        match &self.counts {
            Counts::Few {
                overtaken,
                texts,
                gaps,
                other_versions,
                tls,
                http,
            } => Missed {
                overtaken: (*overtaken).into(),
                texts: (*texts).into(),
                gaps: (*gaps).into(),
                other_versions: (*other_versions).into(),
                tls: (*tls).into(),
                http: (*http).into(),
            },
            Counts::Many { missed } => **missed,
        }
    }

    /// Counts a message that is reported alone since there is no room for it.
    pub(crate) fn count_overtaken(&mut self) -> Result<(), AllocError>
        ensures { IfOk result (λ _. self.new ≡ with_overtaken self.old) }
    {
        let mut missed = self.missed();
        missed.count_overtaken();
        self.set(missed)
    }

    /// Counts a message of which the header alone is kept.
    pub(crate) fn count_text(&mut self) -> Result<(), AllocError>
        ensures { IfOk result (λ _. self.new ≡ with_text self.old) }
    {
        let mut missed = self.missed();
        missed.count_text();
        self.set(missed)
    }

    /// Counts a gap.
    pub(crate) fn count_gap(&mut self) -> Result<(), AllocError>
        ensures { IfOk result (λ _. self.new ≡ with_gap self.old) }
    {
        let mut missed = self.missed();
        missed.count_gap();
        self.set(missed)
    }

    /// Counts what a direction begins with, where that is no frame of version 4.
    pub(crate) fn count_opening(&mut self, opening: Opening) -> Result<(), AllocError>
        ensures { IfOk result (λ _. self.new ≡ with_opening opening self.old) }
    {
        match opening {
            Opening::Frames => Ok(()),
            _ => {
                let mut missed = self.missed();
                missed.count_opening(opening);
                self.set(missed)
            }
        }
    }

    /// These are the numbers.
    fn set(&mut self, missed: Missed) -> Result<(), AllocError>
        ensures { IfOk result (λ _. self.new ≡ missed) }
    {
        self.counts = counts_of(self.alloc.clone()?, missed)?;
        Ok(())
    }
}

/// The numbers, in a box if one is past 65,535.
fn counts_of<A: Allocator>(alloc: A, missed: Missed) -> Result<Counts<A>, AllocError>
    ensures { IfOk result (λ counts. missed_in counts ≡ missed) }
{
    let Missed {
        overtaken,
        texts,
        gaps,
        other_versions,
        tls,
        http,
    } = missed;
    if overtaken <= MOST
        && texts <= MOST
        && gaps <= MOST
        && other_versions <= MOST
        && tls <= MOST
        && http <= MOST
    {
        Ok(Counts::Few {
            overtaken: overtaken as u16,
            texts: texts as u16,
            gaps: gaps as u16,
            other_versions: other_versions as u16,
            tls: tls as u16,
            http: http as u16,
        })
    } else {
        Ok(Counts::Many {
            missed: Box::new(alloc, missed)?,
        })
    }
}
