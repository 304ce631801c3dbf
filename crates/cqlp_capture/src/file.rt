//! Numbers of a capture file.

ghost use Rattle.std.specs.Prelude.{◌≡◌, ◌+◌, ◌≤◌, length};
ghost use Rattle.cqlp_capture.specs.Numbers.{form_of, order_of, number_16, number_32, number_64};

/// The order of the bytes of a number.
#[derive(Clone, Copy, Debug, PartialEq, Eq)]
pub enum ByteOrder {
    /// The highest byte comes first.
    BigEndian,
    /// The lowest byte comes first.
    LittleEndian,
}

/// What a time counts beside its seconds.
#[derive(Clone, Copy, Debug, PartialEq, Eq)]
pub enum Fraction {
    /// Millionths of a second: the magic number is A1B2C3D4.
    Microseconds,
    /// Billionths of a second: the magic number is A1B23C4D.
    Nanoseconds,
}

/// How the numbers of a pcap file are written. Section 4 of draft-ietf-opsawg-pcap.
#[derive(Clone, Copy, Debug, PartialEq, Eq)]
pub struct FileForm {
    /// The order of the bytes of all numbers in its headers, by the magic number.
    pub order: ByteOrder,
    /// What the second number of a time counts, by the magic number.
    pub fraction: Fraction,
}

/// How the numbers of a section are written, and in which format. A pcap file is one section.
#[derive(Clone, Copy, Debug, PartialEq, Eq)]
pub enum SectionForm {
    /// The one section of a pcap file.
    Pcap(FileForm),
    /// Each interface says for itself what its times count.
    Pcapng(ByteOrder),
}

impl FileForm {
    /// The form that a magic number says, read with its highest byte first.
    pub(crate) fn of_magic(magic: u32) -> Option<FileForm>
        ensures { result ≡ form_of magic }
    {
        let (order, fraction) = match magic {
            0xA1B2_C3D4 => (ByteOrder::BigEndian, Fraction::Microseconds),
            0xD4C3_B2A1 => (ByteOrder::LittleEndian, Fraction::Microseconds),
            0xA1B2_3C4D => (ByteOrder::BigEndian, Fraction::Nanoseconds),
            0x4D3C_B2A1 => (ByteOrder::LittleEndian, Fraction::Nanoseconds),
            _ => return None,
        };
        Some(FileForm { order, fraction })
    }
}

impl ByteOrder {
    /// The order that the byte-order magic of a section says, read with its highest byte first. Section 4.1 of
    /// draft-ietf-opsawg-pcapng.
    pub(crate) fn of_magic(magic: u32) -> Option<ByteOrder>
        ensures { result ≡ order_of magic }
    {
        match magic {
            0x1A2B_3C4D => Some(ByteOrder::BigEndian),
            0x4D3C_2B1A => Some(ByteOrder::LittleEndian),
            _ => None,
        }
    }

    /// The number in two bytes, from this index on.
    #[inline]
    pub(crate) fn read_u16(self, bytes: &[u8], index: usize) -> u16
        requires { index + 2 ≤ length bytes.now }
        ensures { result ≡ number_16 self index bytes.now }
    {
        let bytes = [bytes[index], bytes[index + 1]];
        match self {
            ByteOrder::BigEndian => u16::from_be_bytes(bytes),
            ByteOrder::LittleEndian => u16::from_le_bytes(bytes),
        }
    }

    /// The number in four bytes, from this index on.
    #[inline(always)]
    pub(crate) fn read_u32(self, bytes: &[u8], index: usize) -> u32
        requires { index + 4 ≤ length bytes.now }
        ensures { result ≡ number_32 self index bytes.now }
    {
        let bytes = [
            bytes[index],
            bytes[index + 1],
            bytes[index + 2],
            bytes[index + 3],
        ];
        match self {
            ByteOrder::BigEndian => u32::from_be_bytes(bytes),
            ByteOrder::LittleEndian => u32::from_le_bytes(bytes),
        }
    }

    /// The number in eight bytes, from this index on.
    #[inline]
    pub(crate) fn read_u64(self, bytes: &[u8], index: usize) -> u64
        requires { index + 8 ≤ length bytes.now }
        ensures { result ≡ number_64 self index bytes.now }
    {
        let bytes = [
            bytes[index],
            bytes[index + 1],
            bytes[index + 2],
            bytes[index + 3],
            bytes[index + 4],
            bytes[index + 5],
            bytes[index + 6],
            bytes[index + 7],
        ];
        match self {
            ByteOrder::BigEndian => u64::from_be_bytes(bytes),
            ByteOrder::LittleEndian => u64::from_le_bytes(bytes),
        }
    }
}
