//! Parts of frames, and what takes them.

ghost use Rattle.std.specs.Prelude.{List, [], ◌∷◌};

use crate::request::OwnedBound;
use cqlp_note::{Address, Field};
use cqlp_type::TypeTree;
use cqlp_value::Value;

/// A part of a frame after its header, lent from the frame: a field in one of the notations of section 3 of
/// `native_protocol_v4.spec`, a type option, or a cell.
#[derive(Clone, Copy)]
pub enum PartRef<'a> {
    /// A \[byte\].
    Byte(Field, u8),
    /// A \[short\] that is no count.
    Short(Field, u16),
    /// An \[int\] that is no count.
    Int(Field, i32),
    /// A \[long\].
    Long(Field, i64),
    /// A \[uuid\].
    Uuid(Field, &'a [u8; 16]),
    /// A number of items that follow, which is to be a \[short\].
    Count16(Field, usize),
    /// A number of items that follow, which is to be an \[int\].
    Count32(Field, usize),
    /// A \[string\].
    Text(Field, &'a str),
    /// A \[long string\].
    LongText(Field, &'a str),
    /// \[short bytes\].
    ShortBytes(Field, &'a [u8]),
    /// \[bytes\]; None is null.
    Bytes(Field, Option<&'a [u8]>),
    /// A \[value\].
    Bound(Field, &'a OwnedBound),
    /// An \[inet\]: an address and a port.
    Inet(Field, Address, i32),
    /// A type option.
    Type(&'a TypeTree),
    /// The cell of a row and a column, both from 0, and the type of the column, if columns are described.
    Cell {
        /// The row, counted from 0, less than the rows of the page.
        row: u32,
        /// The column, counted from 0, less than the columns of the metadata.
        column: usize,
        /// The type of the column, by which the value is written; None where the metadata has the flag 4.
        tree: Option<&'a TypeTree>,
        /// The value of the cell, which is written as \[bytes\]. Section 6.
        value: &'a Value,
    },
}

/// What takes the parts of a frame, one after the other.
///
/// One that fails keeps that to itself, and leaves what comes after.
pub trait TakesParts {
    ghost use Rattle.cqlp_message.specs.Parts.{Part};
    ghost use Rattle.cqlp_message.specs.PartRefs.{part_of, Takes};

    /// What contracts say of the time before the first part.
    ghost Before: { Type 0 };

    /// It has taken these parts, and no others.
    ghost taken: { Before → Self → List Part → Type 0 };

    /// Takes a part.
    fn take(&mut self, part: PartRef<'_>)
        ensures { Takes taken self.old self.new (part_of part.entry ∷ []) };
}
