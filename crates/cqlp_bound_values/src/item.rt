//! A value at the front of bytes.

ghost use Rattle.std.specs.Prelude.{◌≡◌};
ghost use Rattle.cqlp_bound_values.specs.Bindings.{behind_item, content_of, found_of, is_missing, is_whole, item_at, item_of};
ghost use Rattle.cqlp_bound_values.specs.Nested.{inner_at, inner_of};

use crate::field::{behind, int_at};

/// What is at the front.
#[derive(Clone, Copy)]
pub(crate) enum Item<'a> {
    /// The length of a value is not there, or is none.
    Missing,
    Null,
    /// The value is not set.
    Unset,
    /// The bytes of a value, as far as they are there.
    Content { bytes: &'a [u8], is_whole: bool },
}

impl<'a> Item<'a> {
    /// A \[value\]. Section 3 of `native_protocol_v4.spec`.
    pub(crate) fn at(bytes: &'a [u8]) -> Item<'a>
        ensures { found_of result ≡ item_at bytes.now }
    {
        if bytes.len() < 4 {
            return Item::Missing;
        }
        Item::of(int_at(bytes), behind(4, bytes))
    }

    /// That of this length.
    fn of(length: u32, content: &'a [u8]) -> Item<'a>
        ensures { found_of result ≡ item_of length content.now }
    {
        if length == 0xFFFF_FFFF {
            return Item::Null;
        }
        if length == 0xFFFF_FFFE {
            return Item::Unset;
        }
        if length >= 0x8000_0000 {
            return Item::Missing;
        }
        Item::content(length as usize, content)
    }

    /// An item of a value, which is null where its length is negative.
    pub(crate) fn inner_at(bytes: &'a [u8]) -> Item<'a>
        ensures { found_of result ≡ inner_at bytes.now }
    {
        if bytes.len() < 4 {
            return Item::Missing;
        }
        Item::inner_of(int_at(bytes), behind(4, bytes))
    }

    fn inner_of(length: u32, content: &'a [u8]) -> Item<'a>
        ensures { found_of result ≡ inner_of length content.now }
    {
        if length >= 0x8000_0000 {
            return Item::Null;
        }
        Item::content(length as usize, content)
    }

    fn content(length: usize, content: &'a [u8]) -> Item<'a>
        ensures { found_of result ≡ content_of length content.now }
    {
        Item::Content {
            bytes: &content[..content.len().min(length)],
            is_whole: length <= content.len(),
        }
    }

    /// Whether it is not there.
    pub(crate) fn is_missing(&self) -> bool
        ensures { result ≡ is_missing (found_of self.now) }
    {
        matches!(self, Item::Missing)
    }

    /// Whether all of it is there.
    pub(crate) fn is_whole(&self) -> bool
        ensures { result ≡ is_whole (found_of self.now) }
    {
        match *self {
            Item::Missing => false,
            Item::Null | Item::Unset => true,
            Item::Content { bytes: _, is_whole } => is_whole,
        }
    }
}

/// What comes behind a value.
pub(crate) fn behind_item(bytes: &[u8]) -> &[u8]
    ensures { result.now ≡ behind_item bytes.now }
{
    let length = int_at(bytes);
    let content = behind(4, bytes);
    if length >= 0x8000_0000 {
        content
    } else {
        behind(length as usize, content)
    }
}
