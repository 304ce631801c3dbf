//! Values as a program owns them.

ghost use Rattle.std.specs.Prelude.{◌≡◌};
ghost use Rattle.cqlp_value.specs.Owned.{scalar_value};

use cqlp_note::Address;

/// A scalar with its contents, by its kind: the owned form of [`Scalar`](crate::Scalar). Section 6 of
/// `native_protocol_v4.spec`.
#[derive(Debug, PartialEq, Eq, Drop)]
pub enum Atom {
    /// The bytes of a value of a custom type, which its class alone can explain.
    Custom(Vec<u8>),
    /// A text whose bytes are from 0 to 127; with any other it fits no type. Section 6.1.
    Ascii(String),
    /// Written in eight bytes. Section 6.2.
    Bigint(i64),
    /// Any bytes. Section 6.3.
    Blob(Vec<u8>),
    /// Written as the byte 01 where it is true, and 00 where it is false. Section 6.4.
    Boolean(bool),
    /// The count of a counter column, written in eight bytes as a bigint.
    Counter(i64),
    /// The unscaled number, divided by ten to the power of the scale.
    Decimal {
        /// How many digits of the unscaled number lie behind the decimal point; a negative scale adds as many zeros to it. Section 6.6.
        scale: i32,
        /// In two's complement, at least one byte, and not always the shortest form.
        unscaled: Vec<u8>,
    },
    /// The bytes of a binary64 of IEEE 754.
    Double([u8; 8]),
    /// The bytes of a binary32 of IEEE 754.
    Float([u8; 4]),
    /// Written in four bytes. Section 6.10.
    Int(i32),
    /// Milliseconds from the start of 1970.
    Timestamp(i64),
    /// The bytes of a uuid of any version, in their order. Section 6.21.
    Uuid([u8; 16]),
    /// A text, written in UTF-8. Section 6.22.
    Varchar(String),
    /// In two's complement, and not always the shortest form.
    Varint(Vec<u8>),
    /// A uuid of version 1.
    Timeuuid([u8; 16]),
    /// An address of IPv4 or IPv6, without a port. Section 6.9.
    Inet(Address),
    /// Days, unsigned, of which 2^31 is the first of January 1970.
    Date(u32),
    /// Nanoseconds since midnight, 0 to 86,399,999,999,999.
    Time(i64),
    /// Written in two bytes. Section 6.14.
    Smallint(i16),
    /// Written in one byte. Section 6.19.
    Tinyint(i8),
    /// A cell whose type is not known.
    Raw(Vec<u8>),
}

/// A value of a cell. Section 6 of `native_protocol_v4.spec`.
#[derive(Debug, PartialEq, Eq, Drop)]
pub enum Value {
    /// No value, of a negative length.
    Null,
    /// No bytes, of any type: the empty text of a varchar column is this, and no leaf.
    Empty,
    /// A scalar with some bytes. One without bytes, as an empty text or blob, fits no type; [`Value::scalar`] makes it
    /// [`Value::Empty`].
    Leaf(Atom),
    /// The elements of a list in their order, none where it is empty. Section 6.11.
    List(Vec<Value>),
    /// Keys and their values, in order; a key may come again.
    Map(Vec<(Value, Value)>),
    /// The elements of a set, in the order in which they are written; an element may come again. Section 6.13.
    Set(Vec<Value>),
    /// The first fields of a tuple, at least one.
    Tuple(Vec<Value>),
    /// The first fields of a user-defined type, at least one.
    Udt(Vec<Value>),
}

impl Value {
    /// The value of a cell that is this scalar: [`Value::Empty`] where its content has no bytes, as that of an empty text, and
    /// else a [`Value::Leaf`]. Section 6 of `native_protocol_v4.spec`.
    #[must_use]
    pub fn scalar(atom: Atom) -> Value
        ensures { result ≡ scalar_value atom }
    {
        if atom.content_len() == 0 {
            Value::Empty
        } else {
            Value::Leaf(atom)
        }
    }
}
