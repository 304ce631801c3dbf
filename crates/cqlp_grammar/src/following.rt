//! What follows a header, and what follows a field.

ghost use Rattle.std.specs.Prelude.{◌≡◌, ◌+◌, ◌≤◌, ◌++◌, ◌∷◌, [], length};
ghost use Rattle.cqlp_note.specs.Heading.{has as has_bit};
ghost use Rattle.cqlp_note.specs.Head.{value_of};
ghost use Rattle.cqlp_kind.specs.Types.{NoMore};
ghost use Rattle.cqlp_grammar.specs.Productions.{Extra, In, batch_parts, entry_parts, fault_in as fault_of, following};
ghost use Rattle.cqlp_grammar.specs.Productions.{message, number_in, query_parts, specs, text_in};

use crate::grammar::{Group, Role};
use crate::productions::{
    Expected, Want, body_fields, counted, error_fields, event_fields, plain, result_fields,
    target_fields,
};
use crate::upcoming::Upcoming;
use cqlp_note::{Field, Header, Notation, Prim, Reason};

impl Upcoming {
    ghost use Rattle.cqlp_grammar.specs.Upcoming.{PutsFollowing, room_after, symbols_in};

    /// Begins a message: the parts that its header announces, and its fields.
    pub fn begin(&mut self, header: &Header)
        ensures symbols { symbols_in self.new ++ Extra ∷ [] ≡ message header.now }
    {
        self.clear();
        self.push_fields(body_fields(header.opcode));
        self.push_if(
            has(header.flags.into(), 0x04),
            counted!(PayloadItems, Group::PayloadItems),
        );
        self.push_if(
            header.response && has(header.flags.into(), 0x08),
            counted!(Warnings, Group::Warnings),
        );
        self.push_if(
            header.response && has(header.flags.into(), 0x02),
            plain!(TraceId, Uuid),
        );
    }

    /// Puts what follows a field of this role, that has this value, before all else, but for the cells of a page.
    #[inline(always)]
    pub fn follow(&mut self, role: Role, value: Prim<'_>)
        requires { length self.old + room_after role ≤ 16 }
        ensures { symbols_in self.new ≡ following NoMore role (value_of value.entry) ++ symbols_in self.old }
    {
        // Nothing follows most fields.
        if let Role::Alone = role {
            return;
        }
        let number = number(value);
        match role {
            Role::Alone => {}
            Role::Counts(group) => self.push_many(group, number),
            Role::QueryFlags => self.push_query_parts(number),
            Role::EntryKind => self.push_entry_parts(number),
            Role::BatchFlags => self.push_batch_parts(number),
            Role::ErrorCode => {
                self.push_fields(error_fields(number));
                self.push(plain!(Message, Text16));
            }
            Role::ResultKind => self.push_fields(result_fields(number)),
            Role::ChangeTarget => self.push_fields(target_fields(text(value))),
            Role::EventType => self.push_fields(event_fields(text(value))),
            Role::MetaFlags { rows } => {
                let flags = number;
                self.push_count(Field::Columns, Role::MetaColumns { rows, flags });
            }
            Role::MetaColumns { rows, flags } => self.push_metadata(rows, flags, number),
            Role::PreparedFlags => {
                self.push_count(Field::Columns, Role::PreparedColumns { flags: number });
            }
            Role::PreparedColumns { flags } => {
                let columns = number;
                self.push_count(Field::Keys, Role::PreparedKeys { flags, columns });
            }
            Role::PreparedKeys { flags, columns } => {
                self.push_prepared(flags, columns, number);
            }
            Role::PageRows { .. } => {}
        }
    }

    /// A count that is an \[int\].
    fn push_count(&mut self, field: Field, role: Role)
        requires { length self.old + 5 ≤ 16 × room_after role ≤ 5 }
        ensures symbols { symbols_in self.new ≡ In field Notation.Count32 role ∷ symbols_in self.old }
    {
        let notation = Notation::Count32;
        self.push(Expected::Field(Want {
            field,
            notation,
            role,
        }));
    }

    /// The rest of metadata after the number of its columns, and the number of rows where they follow.
    fn push_metadata(&mut self, rows: bool, flags: u32, columns: u32)
        requires { length self.old + 5 ≤ 16 }
        ensures { PutsFollowing (Role.MetaColumns rows flags) columns self.old self.new }
    {
        let rows_due = Expected::Field(Want {
            field: Field::Rows,
            notation: Notation::Count32,
            role: Role::PageRows { flags, columns },
        });
        self.push_if(rows, rows_due);
        if !has(flags, 0x04) {
            self.push_specs(flags, columns);
        }
        self.push_if(has(flags, 0x02), plain!(PagingState, Bytes32));
    }

    /// The rest of the metadata of a prepared statement's values, and the metadata of its result.
    fn push_prepared(&mut self, flags: u32, columns: u32, keys: u32)
        requires { length self.old + 5 ≤ 16 }
        ensures { PutsFollowing (Role.PreparedKeys flags columns) keys self.old self.new }
    {
        let result_flags = Expected::Field(Want {
            field: Field::MetaFlags,
            notation: Notation::Int,
            role: Role::MetaFlags { rows: false },
        });
        self.push(result_flags);
        self.push_specs(flags, columns);
        self.push_many(Group::KeyIndexes, keys);
    }

    /// The columns of a table, or of several.
    fn push_specs(&mut self, flags: u32, columns: u32)
        requires { length self.old + 4 ≤ 16 }
        ensures symbols { symbols_in self.new ≡ specs flags columns ++ symbols_in self.old }
        ensures height { length self.new ≤ length self.old + 3 }
    {
        let one_table = has(flags, 0x01);
        self.push_many(Group::Columns { one_table }, columns);
        self.push_if(one_table, plain!(Table, Text16));
        self.push_if(one_table, plain!(Keyspace, Text16));
    }

    /// The parameters of a query that these flags announce.
    fn push_query_parts(&mut self, flags: u32)
        requires { length self.old + 6 ≤ 16 }
        ensures { symbols_in self.new ≡ query_parts flags ++ symbols_in self.old }
    {
        self.push_if(has(flags, 0x20), plain!(Timestamp, Long));
        self.push_if(has(flags, 0x10), plain!(SerialConsistency, Short));
        self.push_if(has(flags, 0x08), plain!(PagingState, Bytes32));
        self.push_if(has(flags, 0x04), plain!(PageSize, Int));
        let named = has(flags, 0x40);
        self.push_if(
            has(flags, 0x01),
            counted!(Values, Group::QueryValues { named }),
        );
    }

    /// The parts at a batch's end that these flags announce.
    fn push_batch_parts(&mut self, flags: u32)
        requires { length self.old + 2 ≤ 16 }
        ensures { symbols_in self.new ≡ batch_parts flags ++ symbols_in self.old }
    {
        self.push_if(has(flags, 0x20), plain!(Timestamp, Long));
        self.push_if(has(flags, 0x10), plain!(SerialConsistency, Short));
    }

    /// The statement of a batch's entry, and its values.
    fn push_entry_parts(&mut self, kind: u32)
        requires { length self.old + 2 ≤ 16 }
        ensures { symbols_in self.new ≡ entry_parts kind ++ symbols_in self.old }
    {
        self.push(counted!(Values, Group::BatchValues));
        if kind == 0 {
            self.push(plain!(Query, Text32));
        } else {
            self.push(plain!(StatementId, Bytes16));
        }
    }
}

/// Why a field of this role may not have this value.
pub fn fault_in(role: Role, value: Prim<'_>) -> Option<Reason>
    ensures { result ≡ fault_of role (value_of value.entry) }
{
    match role {
        Role::EntryKind if number(value) > 1 => Some(Reason::BadBatchKind),
        Role::BatchFlags if has(number(value), 0x4F) => Some(Reason::BadBatchFlags),
        _ => None,
    }
}

/// A value's number, unsigned.
pub fn number(value: Prim<'_>) -> u32
    ensures { result ≡ number_in (value_of value.entry) }
{
    match value {
        Prim::Byte(number) => number.into(),
        Prim::Short(number) => number.into(),
        Prim::Count(number) => number,
        Prim::Int(number) => number.cast_unsigned(),
        _ => 0,
    }
}

/// A value's text.
fn text(value: Prim<'_>) -> &str
    ensures { result.now ≡ text_in (value_of value.entry) }
{
    match value {
        Prim::Text(text) => text,
        _ => "",
    }
}

/// Whether some bit of these is set.
pub fn has(flags: u32, bits: u32) -> bool
    ensures { result ≡ has_bit flags bits }
{
    flags & bits > 0
}
