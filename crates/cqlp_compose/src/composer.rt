//! The events of one frame, and its bytes.

ghost use Rattle.std.specs.Prelude.{◌≡◌, ◌≤◌, None, MatchResult, IfOk, IfErr, false, length};
ghost use Rattle.cqlp_grammar.specs.Events as model;
ghost use Rattle.cqlp_grammar.specs.Events.{event_of};
ghost use Rattle.cqlp_message.specs.Frames.{FrameIsInRange, frame_bytes, unfit_of};
ghost use Rattle.cqlp_message.specs.Owned.{frame_of};
ghost use Rattle.cqlp_build.specs.declared.error.BuildError.TheVariants as error;
ghost use Rattle.cqlp_build.specs.Building.{is_end};
ghost use Rattle.cqlp_build.specs.Closing.{Ends};
ghost use Rattle.cqlp_compose.specs.Composing.{IsOfNone, IsWrittenOf, Takes, composed, start};

use crate::memory::VecTarget;
use cqlp_build::{BuildError, BuildLimits, FrameBuilder};
use cqlp_encode::encode;
use cqlp_grammar::Event;
use cqlp_message::Frame;
use std::alloc::Global;

/// Gathers the events of one frame, and writes the bytes of the frame that has them. Its header need not say how long its body is.
///
/// It owns what it holds: for each field as much as an event has, and the field's bytes, within the limits. A caller that makes a frame of
/// events need not know the type of its message:
///
/// ```text
/// composer.take(&Event::Frame(header))?;
/// composer.take(&Event::Text { field: Field::Query, text: "SELECT now() FROM system.local" })?;
/// composer.take(&Event::Short { field: Field::Consistency, value: 1 })?;
/// composer.take(&Event::Byte { field: Field::QueryFlags, value: 0 })?;
/// let bytes = composer.write(alloc)?;
/// ```
#[derive(Drop)]
pub struct Composer {
    builder: FrameBuilder,
    /// Whether the end came.
    ended: bool,
}

impl Composer {
    /// A composer that no event came to, which asks for no memory yet.
    #[must_use]
    pub fn new(alloc: Global, limits: BuildLimits) -> Composer
        ensures { composed result ≡ start limits }
    {
        Composer {
            builder: FrameBuilder::new(alloc, limits),
            ended: false,
        }
    }

    /// Takes the next event of the frame: its header, then its fields, and its end, which need not come. The length in the header is not looked
    /// at, nor how many bytes the end says that there were after the last field.
    ///
    /// # Errors
    ///
    /// Those of [`FrameBuilder::take`], after which it is as it was: [`BuildError::Misplaced`] also after the end, and never
    /// [`BuildError::NoFrame`].
    pub fn take(&mut self, event: &Event<'_>) -> Result<(), BuildError>
        ensures { Takes (composed self.old) (event_of event.now) result (composed self.new) }
    {
        if self.ended {
            return Err(BuildError::Misplaced);
        }
        match event {
            Event::End { extra } => self.end(*extra),
            _ => self.pass(event),
        }
    }

    /// A header or a field comes, or what is neither.
    fn pass(&mut self, event: &Event<'_>) -> Result<(), BuildError>
        requires open { self.old.ended ≡ false }
        requires inner { is_end (event_of event.now) ≡ false }
        ensures { Takes (composed self.old) (event_of event.now) result (composed self.new) }
    {
        match self.builder.take(event) {
            // It is none, since no frame is built before its end.
            Ok(built) => {
                drop(built);
                Ok(())
            }
            Err(why) => Err(why),
        }
    }

    /// The end comes.
    fn end(&mut self, extra: u32) -> Result<(), BuildError>
        requires { self.old.ended ≡ false }
        ensures { Takes (composed self.old) (model.End extra) result (composed self.new) }
    {
        let _ = extra;
        if self.builder.is_between() {
            return Err(BuildError::Misplaced);
        }
        self.ended = true;
        Ok(())
    }

    /// How many bytes of texts and contents may still come.
    #[must_use]
    pub fn room(&self) -> usize
        ensures { result ≡ (composed self.now).frame.room }
    {
        self.builder.room()
    }

    /// The frame that has these events.
    ///
    /// # Errors
    ///
    /// Those of [`FrameBuilder::close`].
    pub fn close(self) -> Result<Frame, BuildError>
        ensures { Ends (composed self).frame.events result }
    {
        let Composer {
            mut builder,
            ended: _,
        } = self;
        builder.close()
    }

    /// Which of these events is the first that does not fit, counted from the header, which is 0, as [`FrameBuilder::misfit`] answers it. Where all fit it
    /// is how many came, without the end.
    ///
    /// # Errors
    ///
    /// [`BuildError::NoMemory`] where memory was refused.
    pub fn misfit(self) -> Result<usize, BuildError>
        ensures at { IfOk result (λ at. at ≤ length (composed self).frame.events) }
        ensures refused { IfErr result (λ why. why ≡ error.NoMemory) }
    {
        let Composer {
            mut builder,
            ended: _,
        } = self;
        builder.misfit()
    }

    /// Writes the frame that has these events: 9 to 268,435,465 bytes.
    ///
    /// # Errors
    ///
    /// Those of [`FrameBuilder::close`]; [`BuildError::NoMemory`] also where memory was refused for the bytes.
    pub fn write(self, alloc: Global) -> Result<Vec<u8>, BuildError>
        ensures { MatchResult result (λ v. IsWrittenOf (composed self).frame.events v.items)
            (λ why. IsOfNone (composed self).frame.events why) }
    {
        match self.close() {
            Ok(frame) => written(alloc, &frame),
            Err(why) => Err(why),
        }
    }
}

/// The bytes of a frame.
fn written(alloc: Global, frame: &Frame) -> Result<Vec<u8>, BuildError>
    requires { unfit_of (frame_of frame.now) ≡ None }
    ensures bytes { IfOk result (λ v. v.items ≡ frame_bytes (frame_of frame.now)) }
    ensures range { IfOk result (λ v. FrameIsInRange (frame_of frame.now)) }
    ensures refused { IfErr result (λ why. why ≡ error.NoMemory) }
{
    let Ok(len) = frame.measure() else {
        unreachable!()
    };
    let Ok(room) = Vec::with_capacity(alloc, len as usize) else {
        return Err(BuildError::NoMemory);
    };
    let mut target = VecTarget::new(room);
    match encode(frame, &mut target) {
        Ok(_) => Ok(target.into_bytes()),
        Err(_) => Err(BuildError::NoMemory),
    }
}
