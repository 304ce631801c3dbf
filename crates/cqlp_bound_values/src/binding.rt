//! The values that a request binds, where they lie in its message.

ghost use Rattle.std.specs.Prelude.{◌≡◌, ◌<◌, true};
ghost use Rattle.cqlp_bound_values.specs.Bindings.{are_whole, bound, bound_of, by_parameters, content_at, counted, entry_bound, first_bound};
ghost use Rattle.cqlp_bound_values.specs.Bindings.{first_entry, found, found_of, name_at, of_count, others, values_of};
ghost use Rattle.cqlp_bound_values.specs.Columns.{option_at};

use crate::column_types::ColumnTypes;
use crate::field::{behind_long_string, behind_string, has, string_at};
use crate::item::{Item, behind_item};
use cqlp_note::{Header, Opcode};

/// What a request binds to its statement.
#[derive(Clone, Copy)]
pub enum Binding<'a> {
    /// No values.
    Nothing,
    /// What comes before its values is not there, so it may have some.
    Unseen,
    /// At least one value.
    Values(BoundValues<'a>),
}

/// The values that a request binds, as far as they are there.
#[derive(Clone, Copy)]
pub struct BoundValues<'a> {
    /// How many there are to be.
    count: u16,
    /// Whether each has its name before it.
    are_named: bool,
    types: ColumnTypes<'a>,
    bytes: &'a [u8],
}

/// What a request binds to its statement, by the first bytes of the message, behind a custom payload, and those of the PREPARED response for its statement, of
/// which there may be none; of a BATCH what its first statement binds. Sections 4.1.4, 4.1.6 and 4.1.7 of `native_protocol_v4.spec`. Of a body that is
/// compressed, by the header's flags, nothing is seen.
pub fn values_bound_by<'a>(header: &Header, body: &'a [u8], prepared: &'a [u8]) -> Binding<'a>
    ensures { bound_of result ≡ bound header.now body.now prepared.now }
{
    if has(header.flags, 0x01) {
        return Binding::Unseen;
    }
    match header.opcode {
        Opcode::Query => by_parameters(behind_long_string(body), prepared),
        Opcode::Execute => by_parameters(behind_string(body), prepared),
        Opcode::Batch => first_bound(body, prepared),
        _ => Binding::Nothing,
    }
}

/// By the parameters behind a statement: a consistency level, flags, and values if a flag says so.
fn by_parameters<'a>(parameters: &'a [u8], prepared: &'a [u8]) -> Binding<'a>
    ensures { bound_of result ≡ by_parameters parameters.now prepared.now }
{
    match parameters {
        [_, _, flags, values @ ..] => {
            if has(*flags, 0x01) {
                counted(has(*flags, 0x40), values, prepared)
            } else {
                Binding::Nothing
            }
        }
        _ => Binding::Unseen,
    }
}

/// By the number of values, and what comes behind it.
fn counted<'a>(are_named: bool, bytes: &'a [u8], prepared: &'a [u8]) -> Binding<'a>
    ensures { bound_of result ≡ counted are_named bytes.now prepared.now }
{
    match bytes.split_first_chunk::<2>() {
        Some((count, values)) => {
            of_count(u16::from_be_bytes(*count), are_named, values, prepared)
        }
        None => Binding::Unseen,
    }
}

fn of_count<'a>(count: u16, are_named: bool, bytes: &'a [u8], prepared: &'a [u8]) -> Binding<'a>
    ensures { bound_of result ≡ of_count count are_named bytes.now prepared.now }
{
    if count == 0 {
        return Binding::Nothing;
    }
    let types = ColumnTypes::of(prepared, count);
    Binding::Values(BoundValues {
        count,
        are_named,
        types,
        bytes,
    })
}

/// By the type of a BATCH, the number of its statements, and the first one.
fn first_bound<'a>(body: &'a [u8], prepared: &'a [u8]) -> Binding<'a>
    ensures { bound_of result ≡ first_bound body.now prepared.now }
{
    match body {
        [_, high, low, entries @ ..] => {
            if *high == 0 && *low == 0 {
                Binding::Nothing
            } else {
                first_entry(entries, prepared)
            }
        }
        _ => Binding::Unseen,
    }
}

/// By the first of the statements of a BATCH.
fn first_entry<'a>(entries: &'a [u8], prepared: &'a [u8]) -> Binding<'a>
    ensures { bound_of result ≡ first_entry entries.now prepared.now }
{
    match entries {
        [kind, entry @ ..] => entry_bound(*kind, entry, prepared),
        [] => Binding::Unseen,
    }
}

/// By a statement of a BATCH, whose values have no names: a text, or the id of one.
fn entry_bound<'a>(kind: u8, entry: &'a [u8], prepared: &'a [u8]) -> Binding<'a>
    ensures { bound_of result ≡ entry_bound kind entry.now prepared.now }
{
    match kind {
        0 => counted(false, behind_long_string(entry), prepared),
        1 => counted(false, behind_string(entry), prepared),
        _ => Binding::Unseen,
    }
}

impl<'a> BoundValues<'a> {
    /// How many there are to be.
    pub(crate) fn count(&self) -> u16
        ensures { result ≡ self.now.count }
    {
        self.count
    }

    /// Whether each has its name before it.
    pub(crate) fn are_named(&self) -> bool
        ensures { result ≡ self.now.are_named }
    {
        self.are_named
    }

    /// The type option of the first one, and what comes behind it.
    pub(crate) fn option(&self) -> &'a [u8]
        ensures { result.now ≡ option_at (values_of self.now).types }
    {
        self.types.option()
    }

    /// The name of the first one.
    pub(crate) fn name(&self) -> &'a [u8]
        ensures { result.now ≡ name_at (values_of self.now) }
    {
        string_at(self.bytes)
    }

    /// The first one.
    pub(crate) fn item(&self) -> Item<'a>
        ensures { found_of result ≡ found (values_of self.now) }
    {
        Item::at(self.content())
    }

    /// What comes behind the name of the first one.
    fn content(&self) -> &'a [u8]
        ensures { result.now ≡ content_at (values_of self.now) }
    {
        if self.are_named {
            behind_string(self.bytes)
        } else {
            self.bytes
        }
    }

    /// The others.
    pub(crate) fn others(&self) -> BoundValues<'a>
        requires some { 0 < self.now.count }
        ensures { values_of result ≡ others (values_of self.now) }
    {
        BoundValues {
            count: self.count - 1,
            are_named: self.are_named,
            types: self.types.others(),
            bytes: behind_item(self.content()),
        }
    }

    /// Whether all bytes of all of them are there.
    pub(crate) fn are_whole(&self) -> bool
        ensures { result ≡ are_whole self.now.count (values_of self.now) }
    {
        let mut rest = *self;
        while rest.count > 0 {
            if !rest.item().is_whole() {
                return false;
            }
            rest = rest.others();
        }
        true
    }
}
