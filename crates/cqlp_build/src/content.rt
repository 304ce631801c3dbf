//! What a field holds, as the values that it is in frames.

ghost use Rattle.std.specs.Prelude.{ℕ, ℤ, List, Option, Some, option_map, string_bytes};
ghost use Rattle.cqlp_note.specs.declared.prim.Address.{Address as AddressValue};
ghost use Rattle.cqlp_note.specs.Field as note;
ghost use Rattle.cqlp_message.specs.FrameValues.{Octets};
ghost use Rattle.cqlp_message.specs.Owned.{bound_of, bytes_of};
ghost use Rattle.cqlp_build.specs.FrameEvents.{Finds, held_in};

use crate::item::Content;
use cqlp_message::OwnedBound;
use cqlp_note::Address;
use std::alloc::Global;

/// What a field may hold.
pub(crate) trait FromContent: Drop {
    ghost use Rattle.cqlp_note.specs.Field.{FieldValue};

    /// What contracts see of it.
    ghost Value: { Type 0 };

    ghost value: { Self → Value };

    /// What a field holds that has it.
    ghost held: { Value → FieldValue };

    /// The value, if it is such a one.
    fn of(content: Content) -> Option<Self>
        ensures { Finds held (held_in content) (option_map value result) };

    /// Some value, for where none was found.
    fn none(alloc: Global) -> Self;
}

impl FromContent for u8 {
    ghost Value = { ℕ };

    ghost value = { λ n. n };

    ghost held = { note.Byte };

    fn of(content: Content) -> Option<Self> {
        match content {
            Content::Byte(value) => Some(value),
            _ => None,
        }
    }

    fn none(_alloc: Global) -> Self {
        0
    }
}

impl FromContent for u16 {
    ghost Value = { ℕ };

    ghost value = { λ n. n };

    ghost held = { note.Short };

    fn of(content: Content) -> Option<Self> {
        match content {
            Content::Short(value) => Some(value),
            _ => None,
        }
    }

    fn none(_alloc: Global) -> Self {
        0
    }
}

impl FromContent for i32 {
    ghost Value = { ℤ };

    ghost value = { λ z. z };

    ghost held = { note.Int };

    fn of(content: Content) -> Option<Self> {
        match content {
            Content::Int(value) => Some(value),
            _ => None,
        }
    }

    fn none(_alloc: Global) -> Self {
        0
    }
}

impl FromContent for i64 {
    ghost Value = { ℤ };

    ghost value = { λ z. z };

    ghost held = { note.Long };

    fn of(content: Content) -> Option<Self> {
        match content {
            Content::Long(value) => Some(value),
            _ => None,
        }
    }

    fn none(_alloc: Global) -> Self {
        0
    }
}

impl FromContent for [u8; 16] {
    ghost Value = { Octets };

    ghost value = { λ id. id };

    ghost held = { note.Uuid };

    fn of(content: Content) -> Option<Self> {
        match content {
            Content::Uuid(value) => Some(value),
            _ => None,
        }
    }

    fn none(_alloc: Global) -> Self {
        [0; 16]
    }
}

impl FromContent for u32 {
    ghost Value = { ℕ };

    ghost value = { λ n. n };

    ghost held = { note.Count };

    fn of(content: Content) -> Option<Self> {
        match content {
            Content::Count(value) => Some(value),
            _ => None,
        }
    }

    fn none(_alloc: Global) -> Self {
        0
    }
}

impl FromContent for String {
    ghost Value = { Octets };

    ghost value = { string_bytes };

    ghost held = { note.Text };

    fn of(content: Content) -> Option<Self> {
        match content {
            Content::Text(value) => Some(value),
            _ => None,
        }
    }

    fn none(alloc: Global) -> Self {
        String::new(alloc)
    }
}

impl FromContent for Option<Vec<u8>> {
    ghost Value = { Option Octets };

    ghost value = { bytes_of };

    ghost held = { note.Bytes };

    fn of(content: Content) -> Option<Self> {
        match content {
            Content::Bytes(value) => Some(value),
            _ => None,
        }
    }

    fn none(_alloc: Global) -> Self {
        None
    }
}

impl FromContent for OwnedBound {
    ghost Value = { note.BoundValue };

    ghost value = { bound_of };

    ghost held = { note.Bound };

    fn of(content: Content) -> Option<Self> {
        match content {
            Content::Bound(value) => Some(value),
            _ => None,
        }
    }

    fn none(_alloc: Global) -> Self {
        OwnedBound::Null
    }
}

impl FromContent for Vec<u8> {
    ghost Value = { Octets };

    ghost value = { λ b. b.items };

    ghost held = { λ b. note.Bytes (Some b) };

    fn of(content: Content) -> Option<Self> {
        match content {
            Content::Bytes(value) => value,
            _ => None,
        }
    }

    fn none(alloc: Global) -> Self {
        Vec::new(alloc)
    }
}

impl FromContent for (Address, i32) {
    ghost Value = { AddressValue × ℤ };

    ghost value = { λ p. p };

    ghost held = { λ p. note.Inet p.0 p.1 };

    fn of(content: Content) -> Option<Self> {
        match content {
            Content::Inet(address, port) => Some((address, port)),
            _ => None,
        }
    }

    fn none(_alloc: Global) -> Self {
        (Address::V4([0; 4]), 0)
    }
}
