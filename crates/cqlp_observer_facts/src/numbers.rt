//! Numbers of one, two and four bytes: the highest byte comes first.

ghost use Rattle.std.specs.Prelude.{◌≡◌, ◌≤◌, length, take};
ghost use Rattle.cqlp_observer_facts.specs.Numbers.{byte, int, short};
ghost use Rattle.cqlp_note.specs.Field.{is_negative};
ghost use Rattle.cqlp_note.specs.Heading.{has as has_bit};

/// The first N bytes.
#[inline(always)]
pub(crate) fn array<const N: usize>(bytes: &[u8]) -> [u8; N]
    requires { N ≤ length bytes.now }
    ensures { result ≡ take N bytes.now }
{
    *bytes.first_chunk().unwrap()
}

/// A \[byte\].
#[inline(always)]
pub(crate) fn byte(bytes: &[u8]) -> u8
    requires { 1 ≤ length bytes.now }
    ensures { result ≡ byte bytes.now }
{
    u8::from_be_bytes(array(bytes))
}

/// A \[short\].
#[inline(always)]
pub(crate) fn short(bytes: &[u8]) -> u16
    requires { 2 ≤ length bytes.now }
    ensures { result ≡ short bytes.now }
{
    u16::from_be_bytes(array(bytes))
}

/// An \[int\], as a number without a sign.
#[inline(always)]
pub(crate) fn int(bytes: &[u8]) -> u32
    requires { 4 ≤ length bytes.now }
    ensures { result ≡ int bytes.now }
{
    u32::from_be_bytes(array(bytes))
}

/// Whether an \[int\] is negative.
#[inline(always)]
pub(crate) fn is_negative(number: u32) -> bool
    ensures { result ≡ is_negative number }
{
    number > 0x7FFF_FFFF
}

/// Whether some bit of these is set.
#[inline(always)]
pub(crate) fn has(flags: u32, bits: u32) -> bool
    ensures { result ≡ has_bit flags bits }
{
    flags & bits > 0
}
