//! When lines are written.

ghost use Rattle.std.specs.Prelude.{◌≡◌, IsSome};
ghost use Rattle.cqlp_text.specs.Outputs.{written};
ghost use Rattle.cqlp_capture_streams.specs.Blocks.{contents_of, whole_of};
ghost use Rattle.cqlp_capture_streams.specs.Buffers.{FinishesBlocks, ended_with, has_failed};

use crate::block_writer::BlockWriter;
use crate::capturing::CaptureRead;
use crate::fault::StreamsFault;
use cqlp_note::{IoFault, Target};
use std::alloc::Allocator;

/// When the lines of a capture are written.
#[derive(Clone, Copy)]
pub enum Buffering {
    /// Each at once.
    Line,
    /// Many at a time, in blocks of up to 64 KiB.
    Block,
}

/// Passes on the last block, after the reading of a capture ended so: not where a write failed. Answers how the reading ended, or that this write
/// failed, and the target.
pub fn finish_blocks<O: Target, A: Allocator>(
    read: Result<CaptureRead, StreamsFault>,
    blocks: BlockWriter<O, A>,
) -> (Result<CaptureRead, StreamsFault>, O)
    ensures { IsSome (contents_of blocks) → FinishesBlocks read (whole_of blocks) result.0 (written O.Target result.1) }
{
    if has_failed(&read) {
        return (Err(StreamsFault::Write), blocks.into_inner());
    }
    let (answer, out) = blocks.finish();
    (ended_with(read, answer), out)
}

/// Whether a write failed.
fn has_failed(read: &Result<CaptureRead, StreamsFault>) -> bool
    ensures { result ≡ has_failed read.now }
{
    matches!(read, Err(StreamsFault::Write))
}

/// How a reading ended, with the answer of the last write.
fn ended_with(
    read: Result<CaptureRead, StreamsFault>,
    answer: Result<(), IoFault>,
) -> Result<CaptureRead, StreamsFault>
    ensures { result ≡ ended_with read answer }
{
    match read {
        Ok(read) => match answer {
            Ok(()) => Ok(read),
            Err(IoFault) => Err(StreamsFault::Write),
        },
        Err(fault) => Err(fault),
    }
}
