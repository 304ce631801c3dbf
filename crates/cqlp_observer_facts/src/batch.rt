//! A BATCH. Section 4.1.7 of `native_protocol_v4.spec`.

ghost use Rattle.std.specs.Prelude.{◌≡◌, ◌≤◌, length};
ghost use Rattle.cqlp_observer_facts.specs.Batches.{batch_following, batch_width, entries_due, entry_values_due, kind_following};

use crate::due::{Due, Next, past_text};
use crate::facts::Fact;
use crate::numbers::{byte, int, short};
use crate::query::past_value;

/// A field of a BATCH.
#[derive(Clone, Copy)]
pub(crate) enum BatchField {
    Type,
    /// How many statements there are.
    Count,
    /// Whether a statement is a text or an id, before so many more.
    Kind { more: u16 },
    Text { more: u16 },
    Id { more: u16 },
    /// How many values a statement has.
    ValueCount { more: u16 },
    /// A value, before so many more, and before so many more statements.
    Value { values: u16, more: u16 },
    Consistency,
}

impl BatchField {
    #[inline(always)]
    pub(crate) fn width(&self) -> usize
        ensures { result ≡ batch_width self.now }
    {
        match self {
            BatchField::Type | BatchField::Kind { .. } => 1,
            BatchField::Count
            | BatchField::Id { .. }
            | BatchField::ValueCount { .. }
            | BatchField::Consistency => 2,
            BatchField::Text { .. } | BatchField::Value { .. } => 4,
        }
    }

    /// What follows the field that these bytes are.
    #[inline(always)]
    pub(crate) fn following(&self, bytes: &[u8]) -> Next
        requires { batch_width self.now ≤ length bytes.now }
        ensures { result ≡ batch_following self.now bytes.now }
    {
        match *self {
            BatchField::Type => Next::at(Due::Batch(BatchField::Count)),
            BatchField::Count => Next::at(entries_due(short(bytes))),
            BatchField::Kind { more } => Next::at(kind_following(byte(bytes), more)),
            BatchField::Text { more } => {
                past_text(bytes, Due::Batch(BatchField::ValueCount { more }))
            }
            BatchField::Id { more } => id_following(bytes, more),
            BatchField::ValueCount { more } => Next::at(entry_values_due(short(bytes), more)),
            BatchField::Value { values, more } => {
                past_value(int(bytes), entry_values_due(values, more))
            }
            BatchField::Consistency => Next::says(Fact::Consistency(short(bytes)), Due::Over),
        }
    }
}

/// What follows the id of a statement, before so many more.
#[inline(always)]
pub(crate) fn id_following(bytes: &[u8], more: u16) -> Next
    requires { 2 ≤ length bytes.now }
    ensures { result ≡ batch_following (BatchField.Id more) bytes.now }
{
    Next::past(
        short(bytes).into(),
        Due::Batch(BatchField::ValueCount { more }),
    )
}

/// So many statements, and what follows them.
#[inline(always)]
fn entries_due(count: u16) -> Due
    ensures { result ≡ entries_due count }
{
    if count == 0 {
        Due::Batch(BatchField::Consistency)
    } else {
        Due::Batch(BatchField::Kind { more: count - 1 })
    }
}

/// What follows the kind of a statement: 0 is a text, and 1 an id.
#[inline(always)]
pub(crate) fn kind_following(kind: u8, more: u16) -> Due
    ensures { result ≡ kind_following kind more }
{
    if kind == 0 {
        Due::Batch(BatchField::Text { more })
    } else if kind == 1 {
        Due::Batch(BatchField::Id { more })
    } else {
        Due::Over
    }
}

/// So many values of a statement, and what follows them.
#[inline(always)]
pub(crate) fn entry_values_due(count: u16, more: u16) -> Due
    ensures { result ≡ entry_values_due count more }
{
    if count == 0 {
        entries_due(more)
    } else {
        Due::Batch(BatchField::Value {
            values: count - 1,
            more,
        })
    }
}
