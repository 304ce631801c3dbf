//! Where the reading of a capture is.

ghost use Rattle.std.specs.Prelude.{◌≡◌, ◌<◌, ◌^◌, length};
ghost use Rattle.cqlp_capture.specs.Reading.{read_at, wanted};
ghost use Rattle.cqlp_capture.specs.Places.{IsPlace};

use crate::block::{Block, EitherLength};
use crate::emission::read_next;
use crate::event::{Emission, EventOutline};
use crate::file::{ByteOrder, FileForm};
use crate::interfaces::{KnownInterface, TableChange};
use crate::limits::CaptureLimits;
use crate::refusal::CaptureRefusal;
use crate::{pcap, pcapng};

/// How the records of a pcap file are written.
#[derive(Clone, Copy)]
pub(crate) struct RecordForm {
    pub form: FileForm,
    /// The link type of its packets.
    pub link: u16,
}

/// What is read next.
#[derive(Clone, Copy)]
pub(crate) enum Stage {
    /// The magic number, or the type of the first block.
    Magic,
    /// The rest of a pcap file's header.
    FileHead(FileForm),
    /// The header of a record.
    RecordHead(RecordForm),
    /// This many bytes of a record's packet.
    Data(RecordForm, u32),
    /// This many bytes that are left of a packet which is passed over, whose record began at this offset.
    Rest(RecordForm, u64, u32),
    /// The length of the first block.
    SectionLength,
    /// The numbers of a section's header, which has this length.
    SectionBody(EitherLength),
    /// The type and the length of a block.
    BlockHead(ByteOrder),
    /// The numbers of an interface.
    InterfaceBody(Block),
    /// The code and the length of an option of an interface.
    OptionHead(Block),
    /// The value of if_tsresol.
    TimeUnit(Block),
    /// The value of if_tsoffset.
    TimeOffset(Block),
    /// The numbers of an enhanced packet.
    EnhancedBody(Block),
    /// The numbers of a packet, as they were before enhanced packets.
    PacketBody(Block),
    /// The number of a simple packet.
    SimpleBody(Block),
    /// This many bytes of a block's packet.
    BlockData(Block, u32),
    /// Bytes up to this offset that are passed over.
    Pass(Block, u64),
    /// The second length of a block.
    BlockEnd(Block),
}

/// No record and no block begins farther than this.
pub(crate) const FARTHEST: u64 = 0x8000_0000_0000_0000;

/// The offset in the file of what is read next.
#[derive(Clone, Copy)]
pub(crate) struct Place {
    pub offset: u64,
    pub stage: Stage,
}

impl Stage {
    /// How many bytes are read next. Of those that are passed over it is one, and any number of them may be taken at once.
    #[inline]
    pub fn wanted(self) -> usize
        ensures { result ≡ wanted self }
    {
        match self {
            Stage::Magic
            | Stage::SectionLength
            | Stage::OptionHead(_)
            | Stage::TimeUnit(_)
            | Stage::SimpleBody(_)
            | Stage::BlockEnd(_) => 4,
            Stage::BlockHead(_) | Stage::InterfaceBody(_) | Stage::TimeOffset(_) => 8,
            Stage::RecordHead(_) | Stage::SectionBody(_) => 16,
            Stage::FileHead(_) | Stage::EnhancedBody(_) | Stage::PacketBody(_) => 20,
            Stage::Data(_, size) | Stage::BlockData(_, size) => size as usize,
            Stage::Rest(_, _, left) => left.min(64) as usize,
            Stage::Pass(..) => 1,
        }
    }
}

impl Place {
    ghost use Rattle.cqlp_capture.specs.Places.{HasRecordBefore, began, is_between};

    /// What the bytes say that are read next, under these limits, where these are the interfaces so far.
    #[inline(always)]
    pub fn read(
        &self,
        limits: &CaptureLimits,
        known: &[KnownInterface],
        bytes: &[u8],
    ) -> Result<Emission, CaptureRefusal>
        requires place { IsPlace limits.now self.now }
        requires size { length bytes.now ≡ wanted self.now.stage }
        requires few { length known.now < 2 ^ 32 }
        ensures { result ≡ read_at limits.now known.now self.now.offset self.now.stage bytes.now }
    {
        let offset = self.offset;
        match self.stage {
            Stage::Magic => pcap::read_magic(bytes),
            Stage::FileHead(form) => pcap::read_file_head(form, bytes),
            Stage::RecordHead(form) => pcap::read_record_head(limits.packet, offset, form, bytes),
            Stage::Data(form, size) => {
                pcapng::read_data(offset + size as u64, offset, Stage::RecordHead(form))
            }
            Stage::Rest(form, start, left) => pcap::read_rest(offset, form, start, left),
            Stage::SectionLength => pcapng::read_section_length(bytes),
            Stage::SectionBody(lengths) => pcapng::read_section_body(offset, lengths, bytes),
            Stage::BlockHead(order) => pcapng::read_block_head(offset, order, bytes),
            Stage::InterfaceBody(block) => pcapng::read_interface_body(offset, block, bytes),
            Stage::OptionHead(block) => pcapng::read_option_head(offset, block, bytes),
            Stage::TimeUnit(block) => pcapng::read_time_unit(offset, block, bytes),
            Stage::TimeOffset(block) => pcapng::read_time_offset(offset, block, bytes),
            Stage::EnhancedBody(block) => {
                let number = block.order.read_u32(bytes, 0);
                pcapng::read_enhanced_body(limits.packet, known, number, offset, block, bytes)
            }
            Stage::PacketBody(block) => {
                let number = block.order.read_u16(bytes, 0) as u32;
                pcapng::read_enhanced_body(limits.packet, known, number, offset, block, bytes)
            }
            Stage::SimpleBody(block) => {
                pcapng::read_simple_body(limits.packet, known, offset, block, bytes)
            }
            Stage::BlockData(block, size) => {
                let end = offset + size as u64;
                pcapng::read_data(end, offset, block.passing(end, block.end()))
            }
            Stage::Pass(block, until) => read_next(offset + 1, block.passing(offset + 1, until)),
            Stage::BlockEnd(block) => {
                pcapng::read_block_end(limits.interfaces, known, offset, block, bytes)
            }
        }
    }

    /// Whether the file may end here.
    pub fn is_between(self) -> bool
        ensures { result ≡ is_between self.stage }
    {
        matches!(self.stage, Stage::RecordHead(_) | Stage::BlockHead(_))
    }

    /// The offset at which the header of the file, the record or the block under way began.
    pub fn began(self) -> u64
        requires { HasRecordBefore self }
        ensures { result ≡ began self }
    {
        match self.stage {
            Stage::Magic | Stage::FileHead(_) | Stage::SectionLength => 0,
            Stage::RecordHead(_) | Stage::BlockHead(_) => self.offset,
            Stage::Data(..) => self.offset - 16,
            Stage::Rest(_, start, _) => start,
            Stage::SectionBody(_) => self.offset - 8,
            Stage::InterfaceBody(block)
            | Stage::OptionHead(block)
            | Stage::TimeUnit(block)
            | Stage::TimeOffset(block)
            | Stage::EnhancedBody(block)
            | Stage::PacketBody(block)
            | Stage::SimpleBody(block)
            | Stage::BlockData(block, _)
            | Stage::Pass(block, _)
            | Stage::BlockEnd(block) => block.start,
        }
    }
}
