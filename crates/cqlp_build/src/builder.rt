//! Frames, built of their events.

ghost use Rattle.std.specs.Prelude.{◌≡◌, ◌+◌, ◌<◌, ◌≤◌, ◌↔◌, IfErr, IfOk, IsTrue, [], length, true};
ghost use Rattle.cqlp_grammar.specs.Events as model;
ghost use Rattle.cqlp_grammar.specs.Events.{event_of};
ghost use Rattle.cqlp_build.specs.declared.error.BuildError.TheVariants as error;
ghost use Rattle.cqlp_build.specs.Building as building;
ghost use Rattle.cqlp_build.specs.Building.{BeginsWith, Finishes, IsOfHeader, TakesEvent, Reports, empty, is_inner, is_leaf, state};
ghost use Rattle.cqlp_build.specs.Closing.{Closes, ClosesAt, IsOfSome, ReportsOf};
ghost use Rattle.cqlp_build.specs.CellSizes.{IsSized};
ghost use Rattle.cqlp_build.specs.FrameEvents.{IsSound, left};
ghost use Rattle.cqlp_build.specs.Nesting.{depth_at};
ghost use Rattle.cqlp_note.specs.Heading.{answers, same};
ghost use Rattle.cqlp_message.specs.Owned.{frame_of};

use crate::error::BuildError;
use crate::frame_len::frame_len;
use crate::held::{Fault, FrameEvents};
use crate::held_events::HeldEvents;
use crate::nesting::Nesting;
use cqlp_build_cells::{CellEvents, scalar_size};
use cqlp_grammar::Event;
use cqlp_message::Frame;
use cqlp_note::{BoundValue, Header};
use std::alloc::Global;

/// What a builder may hold of one frame.
#[derive(Clone, Copy, Debug, PartialEq, Eq)]
pub struct BuildLimits {
    /// How many fields, type options, and events of cells.
    pub fields: u32,
    /// The nesting of one type, a column's own option having depth 1.
    pub depth: u32,
    /// How many bytes of texts and contents, and of the scalars of cells that have no length of their own.
    pub bytes: u32,
}

/// A frame that was built.
#[derive(Debug, PartialEq, Eq, Drop)]
pub struct BuiltFrame {
    /// The frame from its header to its last field, with all contents owned.
    pub frame: Frame,
    /// How many bytes there were after its last field.
    pub extra: u32,
}

/// Builds frames of their events, one frame after the other.
///
/// It takes what [`Decoder::next`] gives, or what a [`Sink`] gets, in that order, and owns what it holds: the events of the frame under
/// way. So no count that a peer sends decides how much memory it asks for, and the limits bound it. Of each scalar, null or empty cell of
/// a page, row by row from the first on until another event comes, it holds the value, 32 bytes; where these are a whole page, the frame's
/// page is made of them as they lie there. Of any other event it holds 48 bytes. The bytes of texts and contents come in addition, each in an
/// allocation of its own, and while a list of values or events grows, it may have room for twice as many.
///
/// A proxy reads a frame, alters the value, and writes it:
///
/// ```text
/// if let Some(built) = builder.take(&event)? {
///     let mut frame = built.frame;
///     frame.stream = 7;
///     encode(&frame, &mut target)?;
/// }
/// ```
///
/// What it does not build are scalars of cells in parts, which come where the limits of the decoder ask for parts: a part is refused, and
/// [`FrameBuilder::clear`] gives the frame up.
///
/// [`Decoder::next`]: https://docs.rs/cqlp_decode
/// [`Sink`]: cqlp_grammar::Sink
#[derive(Drop)]
pub struct FrameBuilder {
    held: FrameEvents,
    /// The header of the frame under way.
    header: Option<Header>,
    nesting: Nesting,
    limits: BuildLimits,
    /// How many bytes of texts and contents may still come.
    room: usize,
}

impl FrameBuilder {
    /// A builder between frames, which asks for no memory yet.
    #[must_use]
    pub fn new(alloc: Global, limits: BuildLimits) -> FrameBuilder
        ensures { state result ≡ empty limits }
    {
        FrameBuilder {
            held: FrameEvents {
                alloc,
                items: HeldEvents::new(alloc),
                cell: CellEvents::new(alloc),
                cells_size: None,
                fault: None,
            },
            header: None,
            nesting: Nesting::new(alloc),
            limits,
            room: limits.bytes as usize,
        }
    }

    /// Takes the next event; at the end of a frame gives the frame.
    ///
    /// # Errors
    ///
    /// [`BuildError::Misplaced`] at a header within a frame, and at all else between frames. [`BuildError::Unbuilt`] at a part of
    /// a scalar of a cell. At a field, the kind of a type option and at another event of a cell [`BuildError::TooManyFields`] where as many
    /// as the limits allow are held; else [`BuildError::TooDeep`] where the option is nested deeper than the limit; and else
    /// [`BuildError::TooManyBytes`] where the field has more bytes than are left of the limit. After these the builder is as it was.
    /// [`BuildError::NoFrame`] at the end of a frame, where the events are those of no frame that is built, after which the builder is
    /// between frames. [`BuildError::NoMemory`] where memory was refused, after which it is as it was, or between frames where the
    /// event is an end.
    #[inline]
    pub fn take(&mut self, event: &Event<'_>) -> Result<Option<BuiltFrame>, BuildError>
        ensures { TakesEvent (state self.old) (event_of event.now) result (state self.new) }
    {
        match event {
            Event::Frame(header) => self.begin(*header),
            Event::End { extra } => self.end(*extra),
            Event::Leaf { .. } => self.hold_scalar(event),
            _ => self.hold(event),
        }
    }

    /// Forgets what it holds of a frame, and is between frames. The room that it has asked for is kept.
    pub fn clear(&mut self)
        ensures { state self.new ≡ empty self.old.limits }
    {
        self.held.items.clear();
        self.header = None;
        self.nesting.left.clear();
        self.room = self.limits.bytes as usize;
    }

    /// Ends the frame under way after its last field, whatever its header says of the length of its body, and gives the frame. It is between
    /// frames then.
    ///
    /// # Errors
    ///
    /// [`BuildError::Misplaced`] between frames. [`BuildError::NoFrame`] where the events are those of no frame that is built, whatever length
    /// the header had. [`BuildError::NoMemory`] where memory was refused.
    pub fn close(&mut self) -> Result<Frame, BuildError>
        ensures { Closes (state self.old) result (state self.new) }
    {
        let Some(header) = self.header else {
            return Err(BuildError::Misplaced);
        };
        let closed = self.held.close(&header);
        self.clear();
        closed
    }

    /// Which event of the frame under way is the first that does not fit, counted from its header, which is 0: those before it are the first events
    /// of some frame, whose body may be of any length, and with it they are those of none. Where all fit it is how many were taken, since others
    /// are due after them or the body is too long; so it is for a frame that [`FrameBuilder::close`] does not refuse. It is between frames then.
    ///
    /// # Errors
    ///
    /// [`BuildError::NoMemory`] where memory was refused.
    pub fn misfit(&mut self) -> Result<usize, BuildError>
        ensures at { IfOk result (λ at. at ≤ length (state self.old).events) }
        ensures refused { IfErr result (λ why. why ≡ error.NoMemory) }
        ensures new { state self.new ≡ empty self.old.limits }
    {
        let Some(header) = self.header else {
            self.clear();
            return Ok(0);
        };
        let at = self.held.misfit(&header);
        self.clear();
        at
    }

    /// Whether it is between frames. Where a stream ends and it is not, the last frame was cut.
    #[must_use]
    pub fn is_between(&self) -> bool
        ensures { IsTrue result ↔ ((state self.now).events ≡ []) }
    {
        self.header.is_none()
    }

    /// How many bytes of texts and contents may still come of the frame under way.
    #[must_use]
    pub fn room(&self) -> usize
        ensures { result ≡ (state self.now).room }
    {
        self.room
    }

    /// A frame begins.
    #[cold]
    #[inline(never)]
    fn begin(&mut self, header: Header) -> Result<Option<BuiltFrame>, BuildError>
        ensures { TakesEvent (state self.old) (model.Frame header) result (state self.new) }
    {
        if self.header.is_some() {
            return Err(BuildError::Misplaced);
        }
        self.held.items.clear();
        self.header = Some(header);
        Ok(None)
    }

    /// A frame ends, with this many bytes after its last field.
    #[cold]
    #[inline(never)]
    fn end(&mut self, extra: u32) -> Result<Option<BuiltFrame>, BuildError>
        ensures { TakesEvent (state self.old) (model.End extra) result (state self.new) }
    {
        let Some(header) = self.header else {
            return Err(BuildError::Misplaced);
        };
        let built = self.held.finish(&header, extra);
        self.clear();
        match built {
            Ok(built) => Ok(Some(built)),
            Err(why) => Err(why),
        }
    }

    /// What comes between a header and an end.
    #[inline(never)]
    fn hold(&mut self, event: &Event<'_>) -> Result<Option<BuiltFrame>, BuildError>
        requires { is_inner (event_of event.now) ≡ true }
        ensures { TakesEvent (state self.old) (event_of event.now) result (state self.new) }
    {
        if self.is_between() {
            return Err(BuildError::Misplaced);
        }
        if is_unbuilt(event) {
            return Err(BuildError::Unbuilt);
        }
        if self.is_full() {
            return Err(BuildError::TooManyFields);
        }
        if self.is_too_deep(event) {
            return Err(BuildError::TooDeep);
        }
        let size = content_size(event);
        if self.lacks_room(size) {
            return Err(BuildError::TooManyBytes);
        }
        if self.nesting.make_room().is_err() {
            return Err(BuildError::NoMemory);
        }
        if self.held.items.push(self.held.alloc, event).is_err() {
            return Err(BuildError::NoMemory);
        }
        self.nesting.pass_event(event);
        self.room -= size;
        Ok(None)
    }

    /// A scalar of a cell.
    #[inline(always)]
    fn hold_scalar(&mut self, event: &Event<'_>) -> Result<Option<BuiltFrame>, BuildError>
        requires { is_leaf (event_of event.now) ≡ true }
        ensures { TakesEvent (state self.old) (event_of event.now) result (state self.new) }
    {
        if self.is_between() {
            return refuse(BuildError::Misplaced);
        }
        if self.is_full() {
            return refuse(BuildError::TooManyFields);
        }
        let size = content_size(event);
        if self.lacks_room(size) {
            return refuse(BuildError::TooManyBytes);
        }
        if self.held.items.push(self.held.alloc, event).is_err() {
            return refuse(BuildError::NoMemory);
        }
        self.room -= size;
        Ok(None)
    }

    /// Whether it holds as many fields as it may.
    fn is_full(&self) -> bool
        ensures { IsTrue result ↔ (self.now.limits.fields ≤ length self.now.held.items.items) }
    {
        self.held.items.len() >= self.limits.fields as usize
    }

    /// Whether an event begins a type option that is nested too deep.
    fn is_too_deep(&self, event: &Event<'_>) -> bool
        ensures { IsTrue result ↔ (self.now.limits.depth < depth_at (event_of event.now) self.now.nesting.left.items) }
    {
        self.nesting.depth_at(event) > self.limits.depth as usize
    }

    /// Whether this many bytes are more than may still come.
    fn lacks_room(&self, size: usize) -> bool
        ensures { IsTrue result ↔ (self.now.room < size) }
    {
        size > self.room
    }
}

/// Refuses an event for this reason.
#[cold]
#[inline(never)]
fn refuse(why: BuildError) -> Result<Option<BuiltFrame>, BuildError>
    ensures { result ≡ Err why }
{
    Err(why)
}

/// Whether it is a part of a scalar of a cell.
fn is_unbuilt(event: &Event<'_>) -> bool
    ensures { result ≡ building.is_unbuilt (event_of event.now) }
{
    matches!(event, Event::Part { .. })
}

/// How many bytes of a field the limit counts.
fn content_size(event: &Event<'_>) -> usize
    ensures { result ≡ building.content_size (event_of event.now) }
{
    match event {
        Event::Text { text, .. } => text.len(),
        Event::Bytes {
            bytes: Some(bytes),
            ..
        } => bytes.len(),
        Event::Bound {
            value: BoundValue::Bytes(bytes),
            ..
        } => bytes.len(),
        Event::Leaf { scalar, .. } => scalar_size(scalar),
        _ => 0,
    }
}

impl FrameEvents {
    /// The frame of this header whose events after it are those that are held, and then this end.
    fn finish(&mut self, header: &Header, extra: u32) -> Result<BuiltFrame, BuildError>
        ensures { Finishes header.now extra (left self.old) result }
    {
        self.fault = None;
        let mut frame = self.frame(header);
        match self.verdict(&mut frame, header, extra) {
            None => Ok(BuiltFrame { frame, extra }),
            Some(why) => Err(why),
        }
    }

    /// Why a frame is not the one whose events were held, if it is not: after all of its parts were taken.
    fn verdict(&self, frame: &mut Frame, header: &Header, extra: u32) -> Option<BuildError>
        requires { IsSound self.now → IsSized self.now.cells_size (frame_of frame.old).message }
        ensures is { Reports header.now extra (frame_of frame.old) self.now result }
        ensures same { frame_of frame.new ≡ frame_of frame.old }
    {
        match self.fault {
            Some(Fault::NoMemory) => return Some(BuildError::NoMemory),
            Some(Fault::NoFrame) => return Some(BuildError::NoFrame),
            None => {}
        }
        if !self.items.is_empty() {
            return Some(BuildError::NoFrame);
        }
        if !is_of(self.alloc, frame, self.cells_size, header, extra) {
            return Some(BuildError::NoFrame);
        }
        None
    }
}

impl FrameEvents {
    /// The frame of this header, but for its length, whose events after it are those that are held, and then its end.
    fn close(&mut self, header: &Header) -> Result<Frame, BuildError>
        ensures { ClosesAt header.now (left self.old) result }
    {
        self.fault = None;
        let mut frame = self.frame(header);
        match self.refusal(&mut frame, header) {
            None => Ok(frame),
            Some(why) => Err(why),
        }
    }

    /// Why a frame is not one whose events were held, whatever its length, if it is not: after all of its parts were taken.
    fn refusal(&self, frame: &mut Frame, header: &Header) -> Option<BuildError>
        requires { IsSound self.now → IsSized self.now.cells_size (frame_of frame.old).message }
        ensures is { ReportsOf header.now (frame_of frame.old) self.now result }
        ensures same { frame_of frame.new ≡ frame_of frame.old }
    {
        match self.fault {
            Some(Fault::NoMemory) => return Some(BuildError::NoMemory),
            Some(Fault::NoFrame) => return Some(BuildError::NoFrame),
            None => {}
        }
        if !self.items.is_empty() {
            return Some(BuildError::NoFrame);
        }
        if !can_begin(self.alloc, frame, self.cells_size, header) {
            return Some(BuildError::NoFrame);
        }
        None
    }
}

/// Whether some bytes spell a frame that begins with this header, but for its length. It has a page's cells of so many bytes, where that is known.
fn can_begin(alloc: Global, frame: &mut Frame, cells_size: Option<u64>, header: &Header) -> bool
    requires { IsSized cells_size (frame_of frame.old).message }
    ensures is { BeginsWith header.now (frame_of frame.old) → (IsTrue result ↔ IsOfSome header.now (frame_of frame.old)) }
    ensures same { frame_of frame.new ≡ frame_of frame.old }
{
    match frame_len(alloc, frame, cells_size) {
        Some(_) => is_directed(header),
        None => false,
    }
}

/// Whether some bytes spell a frame that begins with this header, and the header's length is the frame's where this many bytes come after
/// its last field. It has a page's cells of so many bytes, where that is known.
fn is_of(
    alloc: Global,
    frame: &mut Frame,
    cells_size: Option<u64>,
    header: &Header,
    extra: u32,
) -> bool
    requires { IsSized cells_size (frame_of frame.old).message }
    ensures is { BeginsWith header.now (frame_of frame.old) → (IsTrue result ↔ IsOfHeader (frame_of frame.old) header.now extra) }
    ensures same { frame_of frame.new ≡ frame_of frame.old }
{
    let Some(len) = frame_len(alloc, frame, cells_size) else {
        return false;
    };
    is_directed(header) && is_length(header.length, len, extra)
}

/// Whether a header announces this length of a frame of so many bytes, 9 of them its header, with some more after its last field.
fn is_length(announced: u32, len: u32, extra: u32) -> bool
    ensures { IsTrue result ↔ (len + extra ≡ announced + 9) }
{
    u64::from(len) + u64::from(extra) == u64::from(announced) + 9
}

/// Whether a header is a response's where its opcode is one of a response.
pub(crate) fn is_directed(header: &Header) -> bool
    ensures { result ≡ same header.now.response (answers header.now.opcode) }
{
    let answers = header.opcode.is_response();
    if header.response { answers } else { !answers }
}
