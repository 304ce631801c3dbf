//! The numbers that C gets for codes, tags, marks, opcodes, fields, kinds, reasons, phases and replies. They never
//! change; new ones are added at the end of their group. `include/cqlp.h` has the same, with `CQLP_` before each name.

ghost use Rattle.std.specs.Prelude.{◌≡◌};
ghost use Rattle.cqlp_note.specs.Heading.{beside_number, code_of};
ghost use Rattle.cqlp_c.specs.Numbers as numbers;

use cqlp_kind::Kind;
use cqlp_note::{BadLimits, Field, Opcode, Reason};
use cqlp_session::Phase;

// ---- codes: what a call answers

pub const DONE: u32 = 0;

pub const BAD_TEXT: u32 = 1;

pub const BAD_CELL: u32 = 2;

pub const BAD_ENTRIES: u32 = 3;

pub const BAD_DEPTH: u32 = 4;

pub const NO_MEMORY: u32 = 5;

pub const NO_DECODER: u32 = 6;

pub const IN_USE: u32 = 7;

pub const NO_CLIENT: u32 = 8;

pub const BAD_SLOTS: u32 = 9;

pub const NO_REQUEST: u32 = 10;

pub const BAD_PHASE: u32 = 11;

pub const SPENT: u32 = 12;

pub const FULL: u32 = 13;

pub const NO_FRAME: u32 = 14;

pub const NOT_RESPONSE: u32 = 15;

pub const NO_SUCH_STREAM: u32 = 16;

pub const WRONG_OPCODE: u32 = 17;

pub const NOT_CANCELLED: u32 = 18;

pub const COMPRESSED: u32 = 19;

pub const BAD_OPCODE: u32 = 20;

pub const BAD_DIRECTION: u32 = 21;

pub const BAD_LENGTH: u32 = 22;

pub const NO_SERVER: u32 = 23;

pub const NOT_REQUEST: u32 = 24;

pub const BAD_ID: u32 = 25;

pub const ID_TAKEN: u32 = 26;

pub const NO_ROOM: u32 = 27;

pub const NO_TYPES: u32 = 28;

pub const ENDED: u32 = 29;

pub const OFF: u32 = 30;

pub const BUSY: u32 = 31;

pub const OPEN: u32 = 32;

pub const TOO_MANY: u32 = 33;

pub const TOO_DEEP: u32 = 34;

pub const NOT_REFUSED: u32 = 35;

pub const IN_HEADER: u32 = 36;

pub const TOO_FAR: u32 = 37;

pub const NO_EVENT: u32 = 38;

pub const MISPLACED: u32 = 39;

pub const UNBUILT: u32 = 40;

pub const TOO_MANY_FIELDS: u32 = 41;

pub const TOO_MANY_BYTES: u32 = 42;

pub const LEFT_OVER: u32 = 43;

pub const NO_SUCH_FRAME: u32 = 44;

// ---- codes of pages that are written in batches

/// A handle has no page.
pub const NO_PAGE: u32 = 45;
/// The last event of a head is no count of rows.
pub const NO_ROWS: u32 = 46;
/// The head is that of another frame than a page.
pub const NOT_PAGE: u32 = 47;
/// There are more rows than a count of rows says.
pub const TOO_MANY_ROWS: u32 = 48;
/// No cells of as many rows and columns have this many bytes.
pub const BAD_SIZE: u32 = 49;
/// The cells would have more bytes than were said.
pub const PAST_SIZE: u32 = 50;
/// A cell has begun and not ended.
pub const NOT_ENDED: u32 = 51;
/// The type of a column is not formed.
pub const NO_TYPE: u32 = 52;
/// No value of the column's type has these events.
pub const NO_VALUE: u32 = 53;
/// There are fewer cells than rows times columns.
pub const CELLS_MISSING: u32 = 54;
/// The cells have fewer bytes than were said.
pub const BYTES_MISSING: u32 = 55;

// ---- codes of columns

/// There are more columns than the limits say.
pub const TOO_MANY_COLUMNS: u32 = 60;
/// No kind has this number.
pub const BAD_KIND: u32 = 61;
/// Values of the kind have items.
pub const UNSUPPORTED: u32 = 62;
/// A handle has no columns.
pub const NO_COLUMNS: u32 = 63;
/// There is no column of this number.
pub const NO_COLUMN: u32 = 64;

// ---- why a batch of events ends

pub const STOP_MORE: u8 = 0;

pub const STOP_FULL: u8 = 1;

pub const STOP_REFUSED: u8 = 2;

// ---- how a stream ends

pub const END_WHOLE: u8 = 0;

pub const END_CUT: u8 = 1;

pub const END_REFUSED: u8 = 2;

// ---- tags: what an event is

pub const TAG_FRAME: u8 = 1;

pub const TAG_BYTE: u8 = 2;

pub const TAG_SHORT: u8 = 3;

pub const TAG_INT: u8 = 4;

pub const TAG_LONG: u8 = 5;

pub const TAG_UUID: u8 = 6;

pub const TAG_COUNT: u8 = 7;

pub const TAG_TEXT: u8 = 8;

pub const TAG_BYTES: u8 = 9;

pub const TAG_BOUND: u8 = 10;

pub const TAG_INET: u8 = 11;

pub const TAG_TYPE_NODE: u8 = 12;

pub const TAG_LEAF: u8 = 13;

pub const TAG_NULL: u8 = 14;

pub const TAG_EMPTY: u8 = 15;

pub const TAG_ENTER: u8 = 16;

pub const TAG_LEAVE: u8 = 17;

pub const TAG_PART: u8 = 18;

pub const TAG_END: u8 = 19;

// ---- marks: what a tag leaves open

pub const MARK_NONE: u8 = 0;

pub const MARK_RESPONSE: u8 = 1;

pub const MARK_NULL: u8 = 2;

pub const MARK_UNSET: u8 = 3;

pub const MARK_LAST: u8 = 4;

// ---- opcodes: what a message is (section 2.4 of `native_protocol_v4.spec`)

pub const OPCODE_ERROR: u8 = 0x00;

pub const OPCODE_STARTUP: u8 = 0x01;

pub const OPCODE_READY: u8 = 0x02;

pub const OPCODE_AUTHENTICATE: u8 = 0x03;

pub const OPCODE_OPTIONS: u8 = 0x05;

pub const OPCODE_SUPPORTED: u8 = 0x06;

pub const OPCODE_QUERY: u8 = 0x07;

pub const OPCODE_RESULT: u8 = 0x08;

pub const OPCODE_PREPARE: u8 = 0x09;

pub const OPCODE_EXECUTE: u8 = 0x0A;

pub const OPCODE_REGISTER: u8 = 0x0B;

pub const OPCODE_EVENT: u8 = 0x0C;

pub const OPCODE_BATCH: u8 = 0x0D;

pub const OPCODE_AUTH_CHALLENGE: u8 = 0x0E;

pub const OPCODE_AUTH_RESPONSE: u8 = 0x0F;

pub const OPCODE_AUTH_SUCCESS: u8 = 0x10;

// ---- fields, in the order of `Field`; 0 is no field

pub const FIELD_TRACE_ID: u8 = 1;

pub const FIELD_WARNINGS: u8 = 2;

pub const FIELD_WARNING: u8 = 3;

pub const FIELD_PAYLOAD_ITEMS: u8 = 4;

pub const FIELD_PAYLOAD_KEY: u8 = 5;

pub const FIELD_PAYLOAD_VALUE: u8 = 6;

pub const FIELD_OPTIONS: u8 = 7;

pub const FIELD_OPTION_KEY: u8 = 8;

pub const FIELD_OPTION_VALUE: u8 = 9;

pub const FIELD_OPTION_VALUES: u8 = 10;

pub const FIELD_QUERY: u8 = 11;

pub const FIELD_STATEMENT_ID: u8 = 12;

pub const FIELD_EVENT_TYPES: u8 = 13;

pub const FIELD_EVENT_TYPE: u8 = 14;

pub const FIELD_TOKEN: u8 = 15;

pub const FIELD_BATCH_TYPE: u8 = 16;

pub const FIELD_ENTRIES: u8 = 17;

pub const FIELD_ENTRY_KIND: u8 = 18;

pub const FIELD_CONSISTENCY: u8 = 19;

pub const FIELD_BATCH_FLAGS: u8 = 20;

pub const FIELD_SERIAL_CONSISTENCY: u8 = 21;

pub const FIELD_TIMESTAMP: u8 = 22;

pub const FIELD_QUERY_FLAGS: u8 = 23;

pub const FIELD_VALUES: u8 = 24;

pub const FIELD_VALUE_NAME: u8 = 25;

pub const FIELD_VALUE: u8 = 26;

pub const FIELD_PAGE_SIZE: u8 = 27;

pub const FIELD_PAGING_STATE: u8 = 28;

pub const FIELD_CLASS: u8 = 29;

pub const FIELD_ERROR_CODE: u8 = 30;

pub const FIELD_MESSAGE: u8 = 31;

pub const FIELD_REQUIRED: u8 = 32;

pub const FIELD_ALIVE: u8 = 33;

pub const FIELD_RECEIVED: u8 = 34;

pub const FIELD_BLOCK_FOR: u8 = 35;

pub const FIELD_WRITE_TYPE: u8 = 36;

pub const FIELD_DATA_PRESENT: u8 = 37;

pub const FIELD_FAILURES: u8 = 38;

pub const FIELD_KEYSPACE: u8 = 39;

pub const FIELD_NAME: u8 = 40;

pub const FIELD_ARGUMENTS: u8 = 41;

pub const FIELD_ARGUMENT: u8 = 42;

pub const FIELD_TABLE: u8 = 43;

pub const FIELD_RESULT_KIND: u8 = 44;

pub const FIELD_ROWS: u8 = 45;

pub const FIELD_META_FLAGS: u8 = 46;

pub const FIELD_COLUMNS: u8 = 47;

pub const FIELD_KEYS: u8 = 48;

pub const FIELD_KEY_INDEX: u8 = 49;

pub const FIELD_COLUMN_NAME: u8 = 50;

pub const FIELD_CHANGE: u8 = 51;

pub const FIELD_TARGET: u8 = 52;

pub const FIELD_ADDRESS: u8 = 53;

pub const FIELD_TYPE_NAME: u8 = 54;

pub const FIELD_FIELDS: u8 = 55;

pub const FIELD_FIELD_NAME: u8 = 56;

// ---- kinds of types, by the ids of their type options (section 4.2.5.2 of `native_protocol_v4.spec`)

pub const KIND_CUSTOM: u8 = 0x00;

pub const KIND_ASCII: u8 = 0x01;

pub const KIND_BIGINT: u8 = 0x02;

pub const KIND_BLOB: u8 = 0x03;

pub const KIND_BOOLEAN: u8 = 0x04;

pub const KIND_COUNTER: u8 = 0x05;

pub const KIND_DECIMAL: u8 = 0x06;

pub const KIND_DOUBLE: u8 = 0x07;

pub const KIND_FLOAT: u8 = 0x08;

pub const KIND_INT: u8 = 0x09;

pub const KIND_TIMESTAMP: u8 = 0x0B;

pub const KIND_UUID: u8 = 0x0C;

pub const KIND_VARCHAR: u8 = 0x0D;

pub const KIND_VARINT: u8 = 0x0E;

pub const KIND_TIMEUUID: u8 = 0x0F;

pub const KIND_INET: u8 = 0x10;

pub const KIND_DATE: u8 = 0x11;

pub const KIND_TIME: u8 = 0x12;

pub const KIND_SMALLINT: u8 = 0x13;

pub const KIND_TINYINT: u8 = 0x14;

pub const KIND_LIST: u8 = 0x20;

pub const KIND_MAP: u8 = 0x21;

pub const KIND_SET: u8 = 0x22;

pub const KIND_UDT: u8 = 0x30;

pub const KIND_TUPLE: u8 = 0x31;

pub const KIND_RAW: u8 = 0xFF;

// ---- reasons of a refusal, in the order of `Reason`; 0 is no reason

pub const REASON_BAD_VERSION: u8 = 1;

pub const REASON_COMPRESSED: u8 = 2;

pub const REASON_BAD_OPCODE: u8 = 3;

pub const REASON_BAD_DIRECTION: u8 = 4;

pub const REASON_BAD_LENGTH: u8 = 5;

pub const REASON_OVERRUN: u8 = 6;

pub const REASON_TOO_LONG: u8 = 7;

pub const REASON_BAD_UTF8: u8 = 8;

pub const REASON_BAD_VALUE_LENGTH: u8 = 9;

pub const REASON_BAD_INET: u8 = 10;

pub const REASON_BAD_COUNT: u8 = 11;

pub const REASON_BAD_TYPE: u8 = 12;

pub const REASON_TOO_DEEP: u8 = 13;

pub const REASON_TOO_MANY: u8 = 14;

pub const REASON_BAD_BATCH_KIND: u8 = 15;

pub const REASON_BAD_BATCH_FLAGS: u8 = 16;

pub const REASON_BAD_SIZE: u8 = 17;

pub const REASON_BAD_SCALAR: u8 = 18;

pub const REASON_EXTRA_IN_VALUE: u8 = 19;

pub const REASON_STREAM_TOO_LONG: u8 = 20;

// ---- phases of a connection, in the order of `Phase`

pub const PHASE_FRESH: u8 = 1;

pub const PHASE_OPENING: u8 = 2;

pub const PHASE_CHALLENGED: u8 = 3;

pub const PHASE_READY: u8 = 4;

pub const PHASE_FAILED: u8 = 5;

// ---- what a response says to a client

pub const REPLY_EVENT: u8 = 1;

pub const REPLY_ANSWER: u8 = 2;

pub const REPLY_DROPPED: u8 = 3;

/// The code for a limit that is out of its range.
pub fn limit_code(limit: BadLimits) -> u32
    ensures { result ≡ numbers.code_of_limit limit }
{
    match limit {
        BadLimits::Text => BAD_TEXT,
        BadLimits::Cell => BAD_CELL,
        BadLimits::Entries => BAD_ENTRIES,
        BadLimits::Depth => BAD_DEPTH,
    }
}

/// The number of an opcode, which its headers have.
#[inline(always)]
pub fn opcode_number(opcode: Opcode) -> u8
    ensures { result ≡ code_of opcode }
{
    match opcode {
        Opcode::Error => OPCODE_ERROR,
        Opcode::Startup => OPCODE_STARTUP,
        Opcode::Ready => OPCODE_READY,
        Opcode::Authenticate => OPCODE_AUTHENTICATE,
        Opcode::Options => OPCODE_OPTIONS,
        Opcode::Supported => OPCODE_SUPPORTED,
        Opcode::Query => OPCODE_QUERY,
        Opcode::Result => OPCODE_RESULT,
        Opcode::Prepare => OPCODE_PREPARE,
        Opcode::Execute => OPCODE_EXECUTE,
        Opcode::Register => OPCODE_REGISTER,
        Opcode::Event => OPCODE_EVENT,
        Opcode::Batch => OPCODE_BATCH,
        Opcode::AuthChallenge => OPCODE_AUTH_CHALLENGE,
        Opcode::AuthResponse => OPCODE_AUTH_RESPONSE,
        Opcode::AuthSuccess => OPCODE_AUTH_SUCCESS,
    }
}

/// The number of a field.
#[inline(always)]
pub fn field_number(field: Field) -> u8
    ensures { result ≡ numbers.number_of_field field }
{
    match field {
        Field::TraceId => FIELD_TRACE_ID,
        Field::Warnings => FIELD_WARNINGS,
        Field::Warning => FIELD_WARNING,
        Field::PayloadItems => FIELD_PAYLOAD_ITEMS,
        Field::PayloadKey => FIELD_PAYLOAD_KEY,
        Field::PayloadValue => FIELD_PAYLOAD_VALUE,
        Field::Options => FIELD_OPTIONS,
        Field::OptionKey => FIELD_OPTION_KEY,
        Field::OptionValue => FIELD_OPTION_VALUE,
        Field::OptionValues => FIELD_OPTION_VALUES,
        Field::Query => FIELD_QUERY,
        Field::StatementId => FIELD_STATEMENT_ID,
        Field::EventTypes => FIELD_EVENT_TYPES,
        Field::EventType => FIELD_EVENT_TYPE,
        Field::Token => FIELD_TOKEN,
        Field::BatchType => FIELD_BATCH_TYPE,
        Field::Entries => FIELD_ENTRIES,
        Field::EntryKind => FIELD_ENTRY_KIND,
        Field::Consistency => FIELD_CONSISTENCY,
        Field::BatchFlags => FIELD_BATCH_FLAGS,
        Field::SerialConsistency => FIELD_SERIAL_CONSISTENCY,
        Field::Timestamp => FIELD_TIMESTAMP,
        Field::QueryFlags => FIELD_QUERY_FLAGS,
        Field::Values => FIELD_VALUES,
        Field::ValueName => FIELD_VALUE_NAME,
        Field::Value => FIELD_VALUE,
        Field::PageSize => FIELD_PAGE_SIZE,
        Field::PagingState => FIELD_PAGING_STATE,
        Field::Class => FIELD_CLASS,
        Field::ErrorCode => FIELD_ERROR_CODE,
        Field::Message => FIELD_MESSAGE,
        Field::Required => FIELD_REQUIRED,
        Field::Alive => FIELD_ALIVE,
        Field::Received => FIELD_RECEIVED,
        Field::BlockFor => FIELD_BLOCK_FOR,
        Field::WriteType => FIELD_WRITE_TYPE,
        Field::DataPresent => FIELD_DATA_PRESENT,
        Field::Failures => FIELD_FAILURES,
        Field::Keyspace => FIELD_KEYSPACE,
        Field::Name => FIELD_NAME,
        Field::Arguments => FIELD_ARGUMENTS,
        Field::Argument => FIELD_ARGUMENT,
        Field::Table => FIELD_TABLE,
        Field::ResultKind => FIELD_RESULT_KIND,
        Field::Rows => FIELD_ROWS,
        Field::MetaFlags => FIELD_META_FLAGS,
        Field::Columns => FIELD_COLUMNS,
        Field::Keys => FIELD_KEYS,
        Field::KeyIndex => FIELD_KEY_INDEX,
        Field::ColumnName => FIELD_COLUMN_NAME,
        Field::Change => FIELD_CHANGE,
        Field::Target => FIELD_TARGET,
        Field::Address => FIELD_ADDRESS,
        Field::TypeName => FIELD_TYPE_NAME,
        Field::Fields => FIELD_FIELDS,
        Field::FieldName => FIELD_FIELD_NAME,
    }
}

/// The field that has this number, if one has.
pub fn field_numbered(number: u8) -> Option<Field>
    ensures { result ≡ beside_number number numbers.fields }
{
    match number {
        FIELD_TRACE_ID => Some(Field::TraceId),
        FIELD_WARNINGS => Some(Field::Warnings),
        FIELD_WARNING => Some(Field::Warning),
        FIELD_PAYLOAD_ITEMS => Some(Field::PayloadItems),
        FIELD_PAYLOAD_KEY => Some(Field::PayloadKey),
        FIELD_PAYLOAD_VALUE => Some(Field::PayloadValue),
        FIELD_OPTIONS => Some(Field::Options),
        FIELD_OPTION_KEY => Some(Field::OptionKey),
        FIELD_OPTION_VALUE => Some(Field::OptionValue),
        FIELD_OPTION_VALUES => Some(Field::OptionValues),
        FIELD_QUERY => Some(Field::Query),
        FIELD_STATEMENT_ID => Some(Field::StatementId),
        FIELD_EVENT_TYPES => Some(Field::EventTypes),
        FIELD_EVENT_TYPE => Some(Field::EventType),
        FIELD_TOKEN => Some(Field::Token),
        FIELD_BATCH_TYPE => Some(Field::BatchType),
        FIELD_ENTRIES => Some(Field::Entries),
        FIELD_ENTRY_KIND => Some(Field::EntryKind),
        FIELD_CONSISTENCY => Some(Field::Consistency),
        FIELD_BATCH_FLAGS => Some(Field::BatchFlags),
        FIELD_SERIAL_CONSISTENCY => Some(Field::SerialConsistency),
        FIELD_TIMESTAMP => Some(Field::Timestamp),
        FIELD_QUERY_FLAGS => Some(Field::QueryFlags),
        FIELD_VALUES => Some(Field::Values),
        FIELD_VALUE_NAME => Some(Field::ValueName),
        FIELD_VALUE => Some(Field::Value),
        FIELD_PAGE_SIZE => Some(Field::PageSize),
        FIELD_PAGING_STATE => Some(Field::PagingState),
        FIELD_CLASS => Some(Field::Class),
        FIELD_ERROR_CODE => Some(Field::ErrorCode),
        FIELD_MESSAGE => Some(Field::Message),
        FIELD_REQUIRED => Some(Field::Required),
        FIELD_ALIVE => Some(Field::Alive),
        FIELD_RECEIVED => Some(Field::Received),
        FIELD_BLOCK_FOR => Some(Field::BlockFor),
        FIELD_WRITE_TYPE => Some(Field::WriteType),
        FIELD_DATA_PRESENT => Some(Field::DataPresent),
        FIELD_FAILURES => Some(Field::Failures),
        FIELD_KEYSPACE => Some(Field::Keyspace),
        FIELD_NAME => Some(Field::Name),
        FIELD_ARGUMENTS => Some(Field::Arguments),
        FIELD_ARGUMENT => Some(Field::Argument),
        FIELD_TABLE => Some(Field::Table),
        FIELD_RESULT_KIND => Some(Field::ResultKind),
        FIELD_ROWS => Some(Field::Rows),
        FIELD_META_FLAGS => Some(Field::MetaFlags),
        FIELD_COLUMNS => Some(Field::Columns),
        FIELD_KEYS => Some(Field::Keys),
        FIELD_KEY_INDEX => Some(Field::KeyIndex),
        FIELD_COLUMN_NAME => Some(Field::ColumnName),
        FIELD_CHANGE => Some(Field::Change),
        FIELD_TARGET => Some(Field::Target),
        FIELD_ADDRESS => Some(Field::Address),
        FIELD_TYPE_NAME => Some(Field::TypeName),
        FIELD_FIELDS => Some(Field::Fields),
        FIELD_FIELD_NAME => Some(Field::FieldName),
        _ => None,
    }
}

/// The number of a kind of types.
#[inline(always)]
pub fn kind_number(kind: Kind) -> u8
    ensures { result ≡ numbers.number_of_kind kind }
{
    match kind {
        Kind::Custom => KIND_CUSTOM,
        Kind::Ascii => KIND_ASCII,
        Kind::Bigint => KIND_BIGINT,
        Kind::Blob => KIND_BLOB,
        Kind::Boolean => KIND_BOOLEAN,
        Kind::Counter => KIND_COUNTER,
        Kind::Decimal => KIND_DECIMAL,
        Kind::Double => KIND_DOUBLE,
        Kind::Float => KIND_FLOAT,
        Kind::Int => KIND_INT,
        Kind::Timestamp => KIND_TIMESTAMP,
        Kind::Uuid => KIND_UUID,
        Kind::Varchar => KIND_VARCHAR,
        Kind::Varint => KIND_VARINT,
        Kind::Timeuuid => KIND_TIMEUUID,
        Kind::Inet => KIND_INET,
        Kind::Date => KIND_DATE,
        Kind::Time => KIND_TIME,
        Kind::Smallint => KIND_SMALLINT,
        Kind::Tinyint => KIND_TINYINT,
        Kind::List => KIND_LIST,
        Kind::Map => KIND_MAP,
        Kind::Set => KIND_SET,
        Kind::Udt => KIND_UDT,
        Kind::Tuple => KIND_TUPLE,
        Kind::Raw => KIND_RAW,
    }
}

/// The kind of types that has this number, if one has.
pub fn kind_numbered(number: u8) -> Option<Kind>
    ensures { result ≡ beside_number number numbers.kinds }
{
    match number {
        KIND_CUSTOM => Some(Kind::Custom),
        KIND_ASCII => Some(Kind::Ascii),
        KIND_BIGINT => Some(Kind::Bigint),
        KIND_BLOB => Some(Kind::Blob),
        KIND_BOOLEAN => Some(Kind::Boolean),
        KIND_COUNTER => Some(Kind::Counter),
        KIND_DECIMAL => Some(Kind::Decimal),
        KIND_DOUBLE => Some(Kind::Double),
        KIND_FLOAT => Some(Kind::Float),
        KIND_INT => Some(Kind::Int),
        KIND_TIMESTAMP => Some(Kind::Timestamp),
        KIND_UUID => Some(Kind::Uuid),
        KIND_VARCHAR => Some(Kind::Varchar),
        KIND_VARINT => Some(Kind::Varint),
        KIND_TIMEUUID => Some(Kind::Timeuuid),
        KIND_INET => Some(Kind::Inet),
        KIND_DATE => Some(Kind::Date),
        KIND_TIME => Some(Kind::Time),
        KIND_SMALLINT => Some(Kind::Smallint),
        KIND_TINYINT => Some(Kind::Tinyint),
        KIND_LIST => Some(Kind::List),
        KIND_MAP => Some(Kind::Map),
        KIND_SET => Some(Kind::Set),
        KIND_UDT => Some(Kind::Udt),
        KIND_TUPLE => Some(Kind::Tuple),
        KIND_RAW => Some(Kind::Raw),
        _ => None,
    }
}

/// The number of a reason.
pub fn reason_number(why: Reason) -> u8
    ensures { result ≡ numbers.number_of_reason why }
{
    match why {
        Reason::BadVersion => REASON_BAD_VERSION,
        Reason::Compressed => REASON_COMPRESSED,
        Reason::BadOpcode => REASON_BAD_OPCODE,
        Reason::BadDirection => REASON_BAD_DIRECTION,
        Reason::BadLength => REASON_BAD_LENGTH,
        Reason::Overrun => REASON_OVERRUN,
        Reason::TooLong => REASON_TOO_LONG,
        Reason::BadUtf8 => REASON_BAD_UTF8,
        Reason::BadValueLength => REASON_BAD_VALUE_LENGTH,
        Reason::BadInet => REASON_BAD_INET,
        Reason::BadCount => REASON_BAD_COUNT,
        Reason::BadType => REASON_BAD_TYPE,
        Reason::TooDeep => REASON_TOO_DEEP,
        Reason::TooMany => REASON_TOO_MANY,
        Reason::BadBatchKind => REASON_BAD_BATCH_KIND,
        Reason::BadBatchFlags => REASON_BAD_BATCH_FLAGS,
        Reason::BadSize => REASON_BAD_SIZE,
        Reason::BadScalar => REASON_BAD_SCALAR,
        Reason::ExtraInValue => REASON_EXTRA_IN_VALUE,
        Reason::StreamTooLong => REASON_STREAM_TOO_LONG,
    }
}

/// The number of a phase.
pub fn phase_number(phase: Phase) -> u8
    ensures { result ≡ numbers.number_of_phase phase }
{
    match phase {
        Phase::Fresh => PHASE_FRESH,
        Phase::Opening => PHASE_OPENING,
        Phase::Challenged => PHASE_CHALLENGED,
        Phase::Ready => PHASE_READY,
        Phase::Failed => PHASE_FAILED,
    }
}
