//! What the bytes of a pcap file say.

ghost use Rattle.std.specs.Prelude.{◌≡◌, ◌+◌, ◌-◌, ◌≤◌, ◌^◌, length, min};
ghost use Rattle.cqlp_capture.specs.Numbers.{nanoseconds, unit_of_fraction};
ghost use Rattle.cqlp_capture.specs.Records.{packet_of, rest_of, skipped_record, read_file_head, read_magic, read_record_head};
ghost use Rattle.cqlp_capture.specs.Emission.{goes_on};

use crate::emission::{read_next, refuse};
use crate::event::{Emission, EventOutline, InterfaceHead, PacketHead, SkipReason};
use crate::file::{ByteOrder, FileForm, Fraction, SectionForm};
use crate::interfaces::{KnownInterface, TableChange};
use crate::place::{FARTHEST, Place, RecordForm, Stage};
use crate::refusal::{CaptureReason, CaptureRefusal};

/// What the first four bytes of a file say. Section 4 of draft-ietf-opsawg-pcap, and section 4.1 of
/// draft-ietf-opsawg-pcapng.
pub(crate) fn read_magic(bytes: &[u8]) -> Result<Emission, CaptureRefusal>
    requires { length bytes.now ≡ 4 }
    ensures { result ≡ read_magic bytes.now }
{
    let magic = ByteOrder::BigEndian.read_u32(bytes, 0);
    if magic >> 16 == 0x1F8B {
        return refuse(0, CaptureReason::Gzip);
    }
    if magic == 0x0A0D_0D0A {
        return read_next(4, Stage::SectionLength);
    }
    match FileForm::of_magic(magic) {
        Some(form) => Ok(Emission {
            at: 0,
            what: Some(EventOutline::Section(SectionForm::Pcap(form))),
            place: Place {
                offset: 4,
                stage: Stage::FileHead(form),
            },
            change: TableChange::Keep,
        }),
        None => refuse(0, CaptureReason::UnknownMagic),
    }
}

/// What the rest of the file's header says. Section 4 of draft-ietf-opsawg-pcap.
pub(crate) fn read_file_head(form: FileForm, bytes: &[u8]) -> Result<Emission, CaptureRefusal>
    requires { length bytes.now ≡ 20 }
    ensures { result ≡ read_file_head form bytes.now }
{
    let order = form.order;
    if order.read_u16(bytes, 0) != 2 || order.read_u16(bytes, 2) != 4 {
        return refuse(4, CaptureReason::UnknownVersion);
    }
    let link = (order.read_u32(bytes, 16) % 65_536) as u16;
    let snap_length = order.read_u32(bytes, 12);
    Ok(Emission {
        at: 4,
        what: Some(EventOutline::Interface(InterfaceHead {
            number: 0,
            link,
            snap_length,
        })),
        place: Place {
            offset: 24,
            stage: Stage::RecordHead(RecordForm { form, link }),
        },
        change: TableChange::Add(KnownInterface {
            link,
            snap_length,
            unit: Some(unit_of(form.fraction)),
            offset: 0,
        }),
    })
}

/// What the header of a record says that begins at this offset. Section 5 of draft-ietf-opsawg-pcap.
pub(crate) fn read_record_head(
    limit: u32,
    offset: u64,
    record_form: RecordForm,
    bytes: &[u8],
) -> Result<Emission, CaptureRefusal>
    requires place { offset ≤ 2 ^ 63 + 2 ^ 33 }
    requires size { length bytes.now ≡ 16 }
    ensures { result ≡ read_record_head limit offset record_form bytes.now }
{
    if offset > FARTHEST {
        return refuse(offset, CaptureReason::FileTooLong);
    }
    let packet = read_packet(record_form, bytes);
    if packet.captured > limit {
        return skip_record(offset, packet.captured, record_form);
    }
    Ok(Emission {
        at: offset,
        what: Some(EventOutline::Packet(packet)),
        place: Place {
            offset: offset + 16,
            stage: Stage::Data(record_form, packet.captured),
        },
        change: TableChange::Keep,
    })
}

/// The packet of the record that has this header.
#[inline]
pub(crate) fn read_packet(record_form: RecordForm, bytes: &[u8]) -> PacketHead
    requires { length bytes.now ≡ 16 }
    ensures { result ≡ packet_of record_form bytes.now }
{
    let form = record_form.form;
    let order = form.order;
    PacketHead {
        interface: 0,
        link: record_form.link,
        time: Some(time_of(form, order.read_u32(bytes, 0), order.read_u32(bytes, 4))),
        captured: order.read_u32(bytes, 8),
        original: order.read_u32(bytes, 12),
    }
}

/// That a packet is too long, of which so many bytes were captured.
fn skip_record(
    offset: u64,
    captured: u32,
    record_form: RecordForm,
) -> Result<Emission, CaptureRefusal>
    requires { offset ≤ 2 ^ 63 }
    ensures { result ≡ skipped_record offset captured record_form }
{
    Ok(Emission {
        at: offset,
        what: Some(EventOutline::Skipped(SkipReason::PacketTooLong)),
        place: Place {
            offset: offset + 16,
            stage: Stage::Rest(record_form, offset, captured),
        },
        change: TableChange::Keep,
    })
}

/// What is read after the next bytes, at this offset, of a packet that is passed over.
pub(crate) fn read_rest(
    offset: u64,
    record_form: RecordForm,
    start: u64,
    left: u32,
) -> Result<Emission, CaptureRefusal>
    requires { offset + left ≤ 2 ^ 63 + 2 ^ 33 }
    ensures { result ≡ goes_on (offset + min left 64) (rest_of record_form start (left - min left 64)) }
{
    let count = left.min(64);
    let stage = match left - count {
        0 => Stage::RecordHead(record_form),
        left => Stage::Rest(record_form, start, left),
    };
    read_next(offset + count as u64, stage)
}

/// So many seconds and fractions of one, in nanoseconds.
#[inline]
fn time_of(form: FileForm, seconds: u32, fraction: u32) -> u64
    ensures { result ≡ nanoseconds form.fraction seconds fraction }
{
    seconds as u64 * 1_000_000_000 + fraction as u64 * unit_of(form.fraction) as u64
}

/// How many nanoseconds a fraction counts.
#[inline]
fn unit_of(fraction: Fraction) -> u32
    ensures { result ≡ unit_of_fraction fraction }
{
    match fraction {
        Fraction::Microseconds => 1_000,
        Fraction::Nanoseconds => 1,
    }
}
