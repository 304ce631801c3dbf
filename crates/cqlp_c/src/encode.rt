//! A frame, written of its events.

ghost use Rattle.std.specs.Prelude.{◌≡◌, length, MatchResult};
ghost use Rattle.cqlp_compose.specs.Composing.{composed};
ghost use Rattle.cqlp_c.specs.Encoding as model;
ghost use Rattle.cqlp_c.specs.Encoding.{Encodes, IsEncoded, IsMisfit, IsUnencoded, TakesAll, TakesOne, code_of_refused};
ghost use Rattle.cqlp_c.specs.Encoding.{code_of_unencoded, code_of_bad_event, seen};
ghost use Rattle.cqlp_c.specs.Rooms.{PutsBytes};

use crate::batch::or_none;
use crate::event::CqlpEvent;
use crate::from_c::{BadEvent, event_from_c};
use crate::numbers::*;
use crate::versions::put;
use crate::whole_page::encode_page;
use cqlp_build::{BuildError, BuildLimits};
use cqlp_compose::Composer;
use cqlp_note::{Header, Limits};
use std::alloc::Global;

/// What was made of the events of a frame.
#[repr(C)]
#[derive(Clone, Copy)]
pub struct CqlpEncoded {
    /// How many bytes the frame has; 0 where there is none.
    pub length: usize,
    /// Which event is not taken; how many there are where all are.
    pub event: usize,
}

/// Why no frame has the events.
#[derive(Clone, Copy)]
pub enum Unencoded {
    /// What C passes is no event.
    BadEvent(BadEvent),
    /// An event is not taken, or no frame has all of them.
    Refused(BuildError),
    /// There are contents after those of the last event.
    LeftOver,
}

/// The first thing that is refused, and how many events came before it.
#[derive(Clone, Copy)]
pub struct Stopped {
    pub event: usize,
    pub why: Unencoded,
}

/// Takes the event that C passes, and answers the contents after its own.
#[tactic(auto, using(crate::proofs::Encoded::one_taken, crate::proofs::Encoded::one_not_taken, crate::proofs::Encoded::one_bad_event))]
fn take_from_c<'a>(
    composer: &mut Composer,
    c_event: &CqlpEvent,
    contents: &'a [u8],
) -> Result<&'a [u8], Unencoded>
    ensures { TakesOne (composed composer.old, contents.now) c_event.now (seen result) (composed composer.new) }
{
    let (event, rest) = match event_from_c(c_event, contents) {
        Ok(found) => found,
        Err(why) => return Err(Unencoded::BadEvent(why)),
    };
    match composer.take(&event) {
        Ok(()) => Ok(rest),
        Err(why) => Err(Unencoded::Refused(why)),
    }
}

/// Takes all events, and answers the contents after theirs.
pub(crate) fn take_all<'a>(
    composer: &mut Composer,
    events: &[CqlpEvent],
    contents: &'a [u8],
) -> Result<&'a [u8], Stopped>
    ensures { TakesAll (composed composer.old, contents.now) events.now (seen result) (composed composer.new) }
{
    let mut rest = contents;
    for (event, c_event) in events.iter().enumerate() {
        match take_from_c(composer, c_event, rest) {
            Ok(behind) => rest = behind,
            Err(why) => return Err(Stopped { event, why }),
        }
    }
    Ok(rest)
}

/// What is held of a frame. None has more fields, type options and events of cells, nor more bytes of texts and contents, than its body has
/// bytes. No decoder reads types that are nested deeper than this.
pub(crate) fn longest() -> BuildLimits
    ensures { result ≡ model.longest }
{
    BuildLimits {
        fields: Header::LONGEST_BODY,
        depth: Limits::DEPTH.greatest,
        bytes: Header::LONGEST_BODY,
    }
}

/// The bytes of the frame that has these events.
#[tactic(auto, using(crate::proofs::Encoded::ends_here))]
fn frame_bytes(alloc: Global, events: &[CqlpEvent], contents: &[u8]) -> Result<Vec<u8>, Stopped>
    ensures { MatchResult result (λ v. IsEncoded events.now contents.now v.items) (λ r. IsUnencoded events.now contents.now r) }
{
    let mut composer = Composer::new(alloc, longest());
    let rest = match take_all(&mut composer, events, contents) {
        Ok(rest) => rest,
        Err(stopped) => return Err(stopped),
    };
    let event = events.len();
    if !rest.is_empty() {
        return Err(Stopped {
            event,
            why: Unencoded::LeftOver,
        });
    }
    match composer.write(alloc) {
        Ok(bytes) => Ok(bytes),
        Err(BuildError::NoFrame) => Err(misfit(alloc, events, contents)),
        Err(why) => Err(Stopped {
            event,
            why: Unencoded::Refused(why),
        }),
    }
}

/// That no frame has these events, and which is the first that does not fit; or that memory was refused for that.
fn misfit(alloc: Global, events: &[CqlpEvent], contents: &[u8]) -> Stopped
    ensures { IsMisfit (length events.now) result }
{
    let all = events.len();
    match first_misfit(alloc, events, contents) {
        Some(at) => Stopped {
            event: at.min(all),
            why: Unencoded::Refused(BuildError::NoFrame),
        },
        None => Stopped {
            event: all,
            why: Unencoded::Refused(BuildError::NoMemory),
        },
    }
}

/// Which of these events, each of which is taken, is the first that does not fit; None where memory was refused.
fn first_misfit(alloc: Global, events: &[CqlpEvent], contents: &[u8]) -> Option<usize> {
    let mut composer = Composer::new(alloc, longest());
    if take_all(&mut composer, events, contents).is_err() {
        return None;
    }
    composer.misfit().ok()
}

/// The code for what is no event.
pub(crate) fn bad_event_code(why: BadEvent) -> u32
    ensures { result ≡ code_of_bad_event why }
{
    match why {
        BadEvent::NoEvent => NO_EVENT,
        BadEvent::Unbuilt => UNBUILT,
    }
}

/// The code for events that are not taken.
pub(crate) fn refused_code(why: BuildError) -> u32
    ensures { result ≡ code_of_refused why }
{
    match why {
        BuildError::Misplaced => MISPLACED,
        BuildError::Unbuilt => UNBUILT,
        BuildError::TooManyFields => TOO_MANY_FIELDS,
        BuildError::TooDeep => TOO_DEEP,
        BuildError::TooManyBytes => TOO_MANY_BYTES,
        BuildError::NoFrame => NO_SUCH_FRAME,
        BuildError::NoMemory => NO_MEMORY,
    }
}

/// The code for what is refused.
pub(crate) fn unencoded_code(why: Unencoded) -> u32
    ensures { result ≡ code_of_unencoded why }
{
    match why {
        Unencoded::BadEvent(why) => bad_event_code(why),
        Unencoded::Refused(why) => refused_code(why),
        Unencoded::LeftOver => LEFT_OVER,
    }
}

/// Puts bytes at the front of a room, if it has room for them.
fn put_front(room: &mut [u8], bytes: &[u8]) -> u32
    ensures { PutsBytes bytes.now result room.old room.new (length bytes.now) }
{
    if room.len() < bytes.len() {
        return NO_ROOM;
    }
    put(room, 0, bytes);
    DONE
}

/// Writes the frame that has these events, whose contents lie one after the other, and says how many bytes it has. Where there is no
/// event, no content or no room, its pointer may be null.
#[unsafe(no_mangle)]
pub extern "C" fn cqlp_encode(
    alloc: Global,
    events: &[CqlpEvent],
    contents: &[u8],
    bytes: &mut [u8],
    encoded: &mut CqlpEncoded,
) -> u32
    ensures { Encodes events.now contents.now result bytes.old bytes.new encoded.new }
{
    let contents = or_none(contents);
    match encode_page(alloc, events, contents, bytes, encoded) {
        Some(code) => code,
        None => encode_any(alloc, events, contents, bytes, encoded),
    }
}

/// The same of any frame, of which all is held until its bytes are put.
fn encode_any(
    alloc: Global,
    events: &[CqlpEvent],
    contents: &[u8],
    bytes: &mut [u8],
    encoded: &mut CqlpEncoded,
) -> u32
    ensures { Encodes events.now contents.now result bytes.old bytes.new encoded.new }
{
    match frame_bytes(alloc, events, contents) {
        Ok(frame) => {
            *encoded = CqlpEncoded {
                length: frame.len(),
                event: events.len(),
            };
            put_front(bytes, &frame)
        }
        Err(stopped) => {
            *encoded = CqlpEncoded {
                length: 0,
                event: stopped.event,
            };
            unencoded_code(stopped.why)
        }
    }
}
