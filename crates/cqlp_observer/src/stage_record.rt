//! Where a direction is, in fewer bytes.

ghost use Rattle.std.specs.Prelude.{◌≡◌};
ghost use Rattle.cqlp_observer.specs.Records.{stage_in};

use crate::frame_record::{parts_of, time_of};
use crate::header_front::HeaderFront;
use crate::heads::Stage;
use crate::message::{Extent, Frame};
use cqlp_note::{Header, Opcode};
use std::marker::Model;
use std::mem;

/// Where a direction is, as it is kept: 40 bytes in place of 64.
#[derive(Drop)]
pub(crate) struct StageRecord {
    parts: StageParts,
}

/// A stage by its parts.
#[derive(Drop)]
pub(crate) enum StageParts {
    Lost,
    Between,
    Header {
        front: HeaderFront,
        at: u64,
        begun: u64,
        is_begun_known: bool,
    },
    Body {
        passing: PassingFrame,
    },
}

/// A frame whose body passes, and how many bytes of it are still to come.
#[derive(Clone, Copy)]
pub(crate) struct PassingFrame {
    at: u64,
    begun: u64,
    ended: u64,
    length: u32,
    left: u32,
    stream: i16,
    response: bool,
    flags: u8,
    opcode: Opcode,
    extent: Extent,
    is_begun_known: bool,
    is_ended_known: bool,
}

impl Model for StageRecord {
    ghost use Rattle.cqlp_observer.specs.declared.heads.Stage.{Stage};
    ghost use Rattle.cqlp_observer.specs.Records.{stage_in};

    ghost Value = { Stage };

    ghost view = { λ r. stage_in r.parts };
}

impl StageRecord {
    ghost use Rattle.cqlp_observer.specs.declared.heads.Stage.TheVariants as stage;
    ghost use Rattle.cqlp_observer.specs.Directions.{holed_by, is_lost, left_in, passed_by};
    ghost use Rattle.cqlp_observer.specs.Openings.{is_between};

    #[inline(always)]
    pub(crate) fn new(stage: Stage) -> Self
        ensures { result ≡ stage }
    {
        let parts = match stage {
            Stage::Lost => StageParts::Lost,
            Stage::Between => StageParts::Between,
            Stage::Header { front, at, begun } => {
                let (is_begun_known, begun) = parts_of(begun);
                StageParts::Header {
                    front,
                    at,
                    begun,
                    is_begun_known,
                }
            }
            Stage::Body { frame, left } => StageParts::Body {
                passing: PassingFrame::new(&frame, left),
            },
        };
        StageRecord { parts }
    }

    /// The stage, in whose place `Lost` is left.
    #[inline(always)]
    pub(crate) fn take(&mut self) -> Stage
        ensures taken { result ≡ self.old }
        ensures left { self.new ≡ stage.Lost }
    {
        stage_of(mem::replace(&mut self.parts, StageParts::Lost))
    }

    /// How many bytes are still to come of the body that passes, if one does.
    #[inline(always)]
    pub(crate) fn left(&self) -> Option<u32>
        ensures { result ≡ left_in self.now }
    {
        match &self.parts {
            StageParts::Body { passing } => Some(passing.left),
            _ => None,
        }
    }

    /// So many bytes come of the body that passes, at this time.
    #[inline(always)]
    pub(crate) fn pass(&mut self, used: u32, time: Option<u64>)
        ensures { self.new ≡ passed_by used time self.old }
    {
        if let StageParts::Body { passing } = &mut self.parts {
            let (is_known, ended) = parts_of(time);
            passing.ended = ended;
            passing.is_ended_known = is_known;
            passing.left = passing.left.saturating_sub(used);
        }
    }

    /// So many bytes do not come of the body that passes, before its last one.
    #[inline(always)]
    pub(crate) fn hole(&mut self, length: u32)
        ensures { self.new ≡ holed_by length self.old }
    {
        if let StageParts::Body { passing } = &mut self.parts {
            passing.extent = Extent::Holed;
            passing.left = passing.left.saturating_sub(length);
        }
    }

    #[inline(always)]
    pub(crate) fn is_lost(&self) -> bool
        ensures { result ≡ is_lost self.now }
    {
        matches!(self.parts, StageParts::Lost)
    }

    #[inline(always)]
    pub(crate) fn is_between(&self) -> bool
        ensures { result ≡ is_between self.now }
    {
        matches!(self.parts, StageParts::Between)
    }
}

/// The stage with these parts.
#[inline(always)]
fn stage_of(parts: StageParts) -> Stage
    ensures { result ≡ stage_in parts }
{
    match parts {
        StageParts::Lost => Stage::Lost,
        StageParts::Between => Stage::Between,
        StageParts::Header {
            front,
            at,
            begun,
            is_begun_known,
        } => Stage::Header {
            front,
            at,
            begun: time_of(is_begun_known, begun),
        },
        StageParts::Body { passing } => Stage::Body {
            frame: passing.frame(),
            left: passing.left,
        },
    }
}

impl PassingFrame {
    ghost use Rattle.cqlp_observer.specs.Records.{frame_in};

    #[inline(always)]
    fn new(frame: &Frame, left: u32) -> Self
        ensures frame { frame_in result ≡ frame.now }
        ensures left { result.left ≡ left }
    {
        let (is_begun_known, begun) = parts_of(frame.begun);
        let (is_ended_known, ended) = parts_of(frame.ended);
        let Header {
            response,
            flags,
            stream,
            opcode,
            length,
        } = frame.header;
        PassingFrame {
            response,
            flags,
            stream,
            opcode,
            length,
            at: frame.at,
            begun,
            ended,
            extent: frame.extent,
            is_begun_known,
            is_ended_known,
            left,
        }
    }

    #[inline(always)]
    fn frame(&self) -> Frame
        ensures { result ≡ frame_in self.now }
    {
        Frame {
            header: Header {
                response: self.response,
                flags: self.flags,
                stream: self.stream,
                opcode: self.opcode,
                length: self.length,
            },
            at: self.at,
            begun: time_of(self.is_begun_known, self.begun),
            ended: time_of(self.is_ended_known, self.ended),
            extent: self.extent,
        }
    }
}
