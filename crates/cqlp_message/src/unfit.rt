//! Why a frame has no spelling.

ghost use Rattle.std.specs.Prelude.{◌≡◌, ◌<◌, ◌^◌, FitsSigned, IfErr, IfOk, None, Some, length};
ghost use Rattle.std.specs.Int.{w16};
ghost use Rattle.cqlp_message.specs.Owned.{frame_of};

use crate::frame::Frame;
use crate::tally::Tally;
use cqlp_note::Header;
use thiserror::Error;

/// Why no bytes spell a frame: the first of these that holds. Sections 2 to 4 of `native_protocol_v4.spec`.
#[derive(Clone, Copy, Debug, PartialEq, Eq, Error)]
pub enum Unfit {
    /// A request with a tracing id or with warnings.
    #[error("a request has a tracing id or warnings")]
    Direction,
    /// A flag, a code, a kind or a name, and the parts that it announces, disagree; or as many specs as columns are not
    /// there; or a type of a kind with parameters has none; or the flag of compression is set, or one that no batch has.
    #[error("the parts are not those that are announced")]
    Parts,
    /// A \[short\] count above 65,535, or an \[int\] count above 2,147,483,647, but for those in cells.
    #[error("there are too many items")]
    TooManyItems,
    /// A \[string\] or \[short bytes\] above 65,535 bytes, or a longer field above 2,147,483,647, but for those in cells.
    #[error("a text is too long")]
    TextTooLong,
    /// There are not as many cells as rows times columns. Of a page that is written cell by cell: it is none, or holds cells.
    #[error("a page has too few cells or too many")]
    RowShape,
    /// A cell is no value of its column's type.
    #[error("a cell is not of its column's type")]
    CellType,
    /// The body has more than 268,435,456 bytes.
    #[error("the body is too long")]
    BodyTooLong,
}

impl Frame {
    ghost use Rattle.cqlp_message.specs.Frames.{FrameIsInRange, first_obstacles, first_of, frame_bytes, frame_parts, frame_size};
    ghost use Rattle.cqlp_message.specs.Frames.{header_of, measure_of, unfit_of};
    ghost use Rattle.cqlp_message.specs.Tallies.{IsFrameTally, IsTally};

    /// How many bytes it has, with its header and nothing after its parts; or why no bytes spell it.
    ///
    /// # Errors
    ///
    /// The first reason, as [`Frame::unfit`] gives it.
    pub fn measure(&self) -> Result<u32, Unfit>
        ensures is { result ≡ measure_of (frame_of self.now) }
        ensures range { IfOk result (λ _. FrameIsInRange (frame_of self.now)) }
    {
        let tally = self.frame_tally()?;
        if !self.message.has_its_cells() {
            return Err(Unfit::RowShape);
        }
        if !tally.cells {
            return Err(Unfit::CellType);
        }
        if tally.size > u64::from(Header::LONGEST_BODY) {
            return Err(Unfit::BodyTooLong);
        }
        Ok(tally.size as u32 + 9)
    }

    /// Why no bytes spell it, or None where some do.
    #[must_use]
    pub fn unfit(&self) -> Option<Unfit>
        ensures is { result ≡ unfit_of (frame_of self.now) }
        ensures range { unfit_of (frame_of self.now) ≡ None → FrameIsInRange (frame_of self.now) }
    {
        match self.measure() {
            Ok(_) => None,
            Err(why) => Some(why),
        }
    }

    /// How many bytes it has, with its header and nothing after its parts.
    pub fn len(&self) -> u32
        requires { unfit_of (frame_of self.now) ≡ None }
        ensures size { result ≡ frame_size (frame_of self.now) 0 }
        ensures bytes { result ≡ length (frame_bytes (frame_of self.now)) }
    {
        let Ok(len) = self.measure() else {
            unreachable!()
        };
        len
    }

    /// Its header, where its body has this many bytes.
    #[must_use]
    pub fn header(&self, length: u32) -> Header
        ensures { result ≡ header_of (frame_of self.now) length }
    {
        Header {
            response: self.message.is_response(),
            flags: self.flags,
            stream: self.stream,
            opcode: self.message.opcode(),
            length,
        }
    }

    /// What is found of its parts; or the first that holds of `Direction`, `Parts`, `TooManyItems` and `TextTooLong`.
    pub(crate) fn frame_tally(&self) -> Result<Tally, Unfit>
        ensures found { IfOk result (λ t. IsFrameTally t (frame_of self.now)) }
        ensures refused { IfErr result (λ why. first_of (first_obstacles (frame_of self.now)) ≡ Some why) }
    {
        if !self.is_directed() {
            return Err(Unfit::Direction);
        }
        if !self.agrees() {
            return Err(Unfit::Parts);
        }
        let tally = self.tally();
        if !tally.counts {
            return Err(Unfit::TooManyItems);
        }
        if !tally.texts {
            return Err(Unfit::TextTooLong);
        }
        self.read_numbers();
        Ok(tally)
    }

    /// Reads the numbers of its header, which are so in the ranges of their types.
    #[inline(always)]
    fn read_numbers(&self)
        ensures flags { self.now.flags < 2 ^ 8 }
        ensures stream { FitsSigned w16 self.now.stream }
    {
        let _flags = self.flags;
        let _stream = self.stream;
    }

    /// What is found of its parts.
    fn tally(&self) -> Tally
        ensures { IsTally result (frame_parts (frame_of self.now)) }
    {
        let mut tally = Tally::new();
        self.walk(&mut tally);
        tally
    }
}
