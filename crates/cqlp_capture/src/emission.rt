//! Short forms of what bytes say.

ghost use Rattle.std.specs.Prelude.{◌≡◌};
ghost use Rattle.cqlp_capture.specs.Blocks.{IsInBlock, skipped};
ghost use Rattle.cqlp_capture.specs.Emission.{goes_on, refused};

use crate::block::Block;
use crate::event::{Emission, EventOutline, SkipReason};
use crate::interfaces::TableChange;
use crate::place::{Place, Stage};
use crate::refusal::{CaptureReason, CaptureRefusal};

/// No event, and this is read next, from this offset on.
#[inline]
pub(crate) fn read_next(offset: u64, stage: Stage) -> Result<Emission, CaptureRefusal>
    ensures { result ≡ goes_on offset stage }
{
    Ok(Emission {
        at: offset,
        what: None,
        place: Place { offset, stage },
        change: TableChange::Keep,
    })
}

/// That something in this block cannot be read, of which what is left from this offset on is passed over.
pub(crate) fn skip(offset: u64, block: Block, why: SkipReason) -> Result<Emission, CaptureRefusal>
    requires { IsInBlock block offset 0 }
    ensures { result ≡ skipped offset block why }
{
    Ok(Emission {
        at: block.start,
        what: Some(EventOutline::Skipped(why)),
        place: Place {
            offset,
            stage: block.passing(offset, block.end()),
        },
        change: TableChange::Keep,
    })
}

/// The refusal at this offset.
#[inline]
pub(crate) fn refuse(at: u64, why: CaptureReason) -> Result<Emission, CaptureRefusal>
    ensures { result ≡ refused at why }
{
    Err(CaptureRefusal { at, why })
}
