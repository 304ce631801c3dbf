//! Numbers in headers: the highest byte comes first.

ghost use Rattle.std.specs.Prelude.{◌≡◌, ◌+◌, ◌≤◌, length};
ghost use Rattle.cqlp_tcp_segment.specs.Fields.{number_16, number_32};

/// The number in two bytes, from this index on.
#[inline]
pub(crate) fn number_16(bytes: &[u8], index: usize) -> u16
    requires { index + 2 ≤ length bytes.now }
    ensures { result ≡ number_16 index bytes.now }
{
    u16::from_be_bytes([bytes[index], bytes[index + 1]])
}

/// The number in four bytes, from this index on.
#[inline]
pub(crate) fn number_32(bytes: &[u8], index: usize) -> u32
    requires { index + 4 ≤ length bytes.now }
    ensures { result ≡ number_32 index bytes.now }
{
    u32::from_be_bytes([
        bytes[index],
        bytes[index + 1],
        bytes[index + 2],
        bytes[index + 3],
    ])
}
