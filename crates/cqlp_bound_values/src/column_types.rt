//! The types of the columns that a statement binds, where they lie in the metadata of its PREPARED response.

ghost use Rattle.std.specs.Prelude.{◌≡◌};
ghost use Rattle.cqlp_bound_values.specs.Columns.{behind_count, behind_kind, behind_option, behind_tables, field_option, has_tables, kind_at};
ghost use Rattle.cqlp_bound_values.specs.Columns.{metadata_types, no_types, option_at, other_types, types_in, types_of, types_with};

use crate::field::{behind, behind_string, int_at, is_end, short_at};
use cqlp_kind::Kind;

/// How deep types are nested at most, the outermost counted; of a deeper one nothing is known.
pub(crate) const DEEPEST: u32 = 16;

/// The types of columns, one after the other, as far as they are there.
#[derive(Clone, Copy)]
pub struct ColumnTypes<'a> {
    /// Whether each column has its table.
    have_tables: bool,
    /// From the first column on.
    bytes: &'a [u8],
}

impl<'a> ColumnTypes<'a> {
    /// Those of so many columns that a statement binds, by the first bytes of the message of the PREPARED response for it; of another number of columns none
    /// is known. Section 4.2.5.4 of `native_protocol_v4.spec`.
    pub fn of(prepared: &'a [u8], columns: u16) -> ColumnTypes<'a>
        ensures { types_of result ≡ types_in prepared.now columns }
    {
        let metadata = behind_string(behind(4, prepared));
        if int_at(behind(4, metadata)) == u32::from(columns) {
            types_behind(metadata)
        } else {
            ColumnTypes {
                have_tables: false,
                bytes: behind(prepared.len(), prepared),
            }
        }
    }

    /// Those of the other columns.
    pub(crate) fn others(self) -> ColumnTypes<'a>
        ensures { types_of result ≡ other_types (types_of self.entry) }
    {
        ColumnTypes {
            have_tables: self.have_tables,
            bytes: behind_option(DEEPEST, self.option()),
        }
    }

    /// The type option of the first column, and what comes behind it.
    pub(crate) fn option(&self) -> &'a [u8]
        ensures { result.now ≡ option_at (types_of self.now) }
    {
        if self.have_tables {
            behind_string(behind_tables(self.bytes))
        } else {
            behind_string(self.bytes)
        }
    }
}

/// What comes behind a keyspace and a table.
pub(crate) fn behind_tables(bytes: &[u8]) -> &[u8]
    ensures { result.now ≡ behind_tables bytes.now }
{
    behind_string(behind_string(bytes))
}

/// The types of the columns in a metadata: flags, the number of columns, that of the partition key's columns and their places, and a table, if that is the same
/// for all.
fn types_behind(metadata: &[u8]) -> ColumnTypes<'_>
    ensures { types_of result ≡ metadata_types metadata.now }
{
    let places = int_at(behind(8, metadata)) as usize;
    let columns = behind(2 * places, behind(12, metadata));
    if has_tables(int_at(metadata)) {
        types_with(true, columns)
    } else {
        types_with(false, behind_tables(columns))
    }
}

fn types_with(have_tables: bool, bytes: &[u8]) -> ColumnTypes<'_>
    ensures { types_of result ≡ types_with have_tables bytes.now }
{
    ColumnTypes { have_tables, bytes }
}

/// Whether each column has its table, by the flags of a metadata.
fn has_tables(flags: u32) -> bool
    ensures { result ≡ has_tables flags }
{
    flags % 2 == 0
}

/// The kind of a type option. Section 4.2.5.2 of `native_protocol_v4.spec`.
pub(crate) fn kind_at(option: &[u8]) -> Kind
    ensures { result ≡ kind_at option.now }
{
    if option.len() < 2 {
        return Kind::Raw;
    }
    match Kind::from_id(short_at(option)) {
        Some(kind) => kind,
        None => Kind::Raw,
    }
}

/// What comes behind a type option in which so many are nested at most, itself counted; else nothing, and then no more types are known.
#[cycle(behind_option)]
pub(crate) fn behind_option(depth: u32, option: &[u8]) -> &[u8]
    ensures { result.now ≡ behind_option depth option.now }
{
    if depth == 0 {
        return behind(option.len(), option);
    }
    behind_kind(depth - 1, kind_at(option), behind(2, option))
}

/// What comes behind a type option, from behind its id on.
#[cycle(behind_option)]
fn behind_kind(depth: u32, kind: Kind, bytes: &[u8]) -> &[u8]
    ensures { result.now ≡ behind_kind (behind_option depth) kind bytes.now }
{
    match kind {
        Kind::Custom => behind_string(bytes),
        Kind::List | Kind::Set => behind_option(depth, bytes),
        Kind::Map => behind_option(depth, behind_option(depth, bytes)),
        Kind::Udt => behind_fields(depth, true, behind_tables(bytes)),
        Kind::Tuple => behind_fields(depth, false, bytes),
        Kind::Raw => behind(bytes.len(), bytes),
        _ => bytes,
    }
}

/// What comes behind a number of fields and the fields.
#[cycle(behind_option)]
fn behind_fields(depth: u32, are_named: bool, bytes: &[u8]) -> &[u8]
    ensures { result.now ≡ behind_count (behind_option depth) are_named bytes.now }
{
    let mut left = short_at(bytes);
    let mut rest = behind(2, bytes);
    while left > 0 {
        if is_end(rest) {
            return rest;
        }
        rest = behind_option(depth, field_option(are_named, rest));
        left -= 1;
    }
    rest
}

/// The type option of a field, which in a user-defined type is behind its name.
pub(crate) fn field_option(are_named: bool, field: &[u8]) -> &[u8]
    ensures { result.now ≡ field_option are_named field.now }
{
    if are_named {
        behind_string(field)
    } else {
        field
    }
}
