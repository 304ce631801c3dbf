//! What fields hold.

/// An address of an \[inet\]. Section 3 of `native_protocol_v4.spec`.
#[derive(Clone, Copy, Debug, PartialEq, Eq)]
pub enum Address {
    /// Four bytes.
    V4([u8; 4]),
    /// Sixteen bytes.
    V6([u8; 16]),
}

/// A \[value\] of a request. Section 3 of `native_protocol_v4.spec`.
#[derive(Clone, Copy, Debug, PartialEq, Eq)]
pub enum BoundValue<'a> {
    /// The value is null.
    Null,
    /// The value is not set, and the server keeps what it has.
    Unset,
    /// The bytes of the value, of which there may be none.
    Bytes(&'a [u8]),
}

/// What a field holds; exported as `Prim`.
#[derive(Clone, Copy)]
pub enum Primitive<'a> {
    /// A \[byte\].
    Byte(u8),
    /// A \[short\].
    Short(u16),
    /// An \[int\].
    Int(i32),
    /// A \[long\].
    Long(i64),
    /// A \[uuid\].
    Uuid([u8; 16]),
    /// A count of either width.
    Count(u32),
    /// A \[string\] or a \[long string\].
    Text(&'a str),
    /// \[bytes\], \[short bytes\], or a content without a length; None is null.
    Bytes(Option<&'a [u8]>),
    /// A \[value\].
    Bound(BoundValue<'a>),
    /// An \[inet\]: an address and a port.
    Inet(Address, i32),
}
