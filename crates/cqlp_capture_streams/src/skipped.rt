//! What the reader of a capture passed over, in numbers.

ghost use Rattle.std.specs.Prelude.{◌≡◌};
ghost use Rattle.cqlp_text.specs.Written.{Writes};
ghost use Rattle.cqlp_capture_streams.specs.Endings.{has_skipped, skip_words};

use crate::summary::put_count;
use cqlp_capture::SkipReason;
use cqlp_grammar::SinkFault;
use cqlp_text::{Pen, TextWriter};

/// Blocks, interfaces and packets that cannot be read, by the reason. A number stays at 2^64 - 1 once it is there.
#[derive(Clone, Copy)]
pub struct SkippedCounts {
    pub short_block: u64,
    pub bad_option_length: u64,
    pub unknown_time_unit: u64,
    pub negative_time_offset: u64,
    pub too_many_interfaces: u64,
    pub unknown_interface: u64,
    pub unread_interface: u64,
    pub time_too_large: u64,
    pub packet_beyond_block: u64,
    pub packet_too_long: u64,
}

impl SkippedCounts {
    ghost use Rattle.cqlp_capture_streams.specs.Packets.{with_skip};

    pub(crate) const NONE: SkippedCounts = SkippedCounts {
        short_block: 0,
        bad_option_length: 0,
        unknown_time_unit: 0,
        negative_time_offset: 0,
        too_many_interfaces: 0,
        unknown_interface: 0,
        unread_interface: 0,
        time_too_large: 0,
        packet_beyond_block: 0,
        packet_too_long: 0,
    };

    /// Whether something could not be read.
    pub(crate) fn has_some(&self) -> bool
        ensures { result ≡ has_skipped self.now }
    {
        self.short_block > 0
            || self.bad_option_length > 0
            || self.unknown_time_unit > 0
            || self.negative_time_offset > 0
            || self.too_many_interfaces > 0
            || self.unknown_interface > 0
            || self.unread_interface > 0
            || self.time_too_large > 0
            || self.packet_beyond_block > 0
            || self.packet_too_long > 0
    }

    /// Counts what cannot be read for this reason.
    pub(crate) fn count(&mut self, why: SkipReason)
        ensures { self.new ≡ with_skip why self.old }
    {
        match why {
            SkipReason::ShortBlock => self.short_block = self.short_block.saturating_add(1),
            SkipReason::BadOptionLength => {
                self.bad_option_length = self.bad_option_length.saturating_add(1)
            }
            SkipReason::UnknownTimeUnit => {
                self.unknown_time_unit = self.unknown_time_unit.saturating_add(1)
            }
            SkipReason::NegativeTimeOffset => {
                self.negative_time_offset = self.negative_time_offset.saturating_add(1)
            }
            SkipReason::TooManyInterfaces => {
                self.too_many_interfaces = self.too_many_interfaces.saturating_add(1)
            }
            SkipReason::UnknownInterface => {
                self.unknown_interface = self.unknown_interface.saturating_add(1)
            }
            SkipReason::UnreadInterface => {
                self.unread_interface = self.unread_interface.saturating_add(1)
            }
            SkipReason::TimeTooLarge => self.time_too_large = self.time_too_large.saturating_add(1),
            SkipReason::PacketBeyondBlock => {
                self.packet_beyond_block = self.packet_beyond_block.saturating_add(1)
            }
            SkipReason::PacketTooLong => {
                self.packet_too_long = self.packet_too_long.saturating_add(1)
            }
        }
    }
}

/// Takes how many blocks, interfaces and packets cannot be read, by the reason.
pub(crate) fn put_skipped<P: Pen>(
    writer: &mut TextWriter<P>,
    counts: &SkippedCounts,
) -> Result<(), SinkFault>
    ensures { Writes writer.old (skip_words counts.now) result writer.new }
{
    put_count(writer, "ShortBlock", counts.short_block)?;
    put_count(writer, "BadOptionLength", counts.bad_option_length)?;
    put_count(writer, "UnknownTimeUnit", counts.unknown_time_unit)?;
    put_count(writer, "NegativeTimeOffset", counts.negative_time_offset)?;
    put_count(writer, "TooManyInterfaces", counts.too_many_interfaces)?;
    put_count(writer, "UnknownInterface", counts.unknown_interface)?;
    put_count(writer, "UnreadInterface", counts.unread_interface)?;
    put_count(writer, "TimeTooLarge", counts.time_too_large)?;
    put_count(writer, "PacketBeyondBlock", counts.packet_beyond_block)?;
    put_count(writer, "PacketTooLong", counts.packet_too_long)
}
