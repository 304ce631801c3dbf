//! Parts of responses.

use cqlp_note::Address;
use cqlp_type::TypeTree;
use cqlp_value::Value;

/// What comes after the message of an error, by the error's code. Section 9 of `native_protocol_v4.spec`.
#[derive(Debug, PartialEq, Eq, Drop)]
pub enum ErrorExtra {
    /// Nothing: an error of a code without further fields, or of an unknown code.
    Plain,
    /// 1000: too few replicas are alive.
    Unavailable {
        /// The level of consistency that could not be reached, a \[short\]; section 3 lists the numbers.
        consistency: u16,
        /// How many replicas have to be alive for this level of consistency.
        required: i32,
        /// How many replicas the server knew to be alive.
        alive: i32,
    },
    /// 1100: too few replicas have acknowledged a write in time.
    WriteTimeout {
        /// The level of consistency of the query that failed, a \[short\]; section 3 lists the numbers.
        consistency: u16,
        /// How many replicas acknowledged the write.
        received: i32,
        /// How many replicas had to acknowledge the write for this level of consistency.
        block_for: i32,
        /// The kind of the write: `SIMPLE`, `BATCH`, `UNLOGGED_BATCH`, `COUNTER` or `BATCH_LOG`; another text is kept.
        write_type: String,
    },
    /// 1200: too few replicas have answered a read in time.
    ReadTimeout {
        /// The level of consistency of the query that failed, a \[short\]; section 3 lists the numbers.
        consistency: u16,
        /// How many replicas answered, which may be enough where the one that was asked for data did not.
        received: i32,
        /// How many replicas had to answer the read for this level of consistency.
        block_for: i32,
        /// 0 where the replica that was asked for data has not answered.
        data_present: u8,
    },
    /// 1300: a read failed on some replicas.
    ReadFailure {
        /// The level of consistency of the query that failed, a \[short\]; section 3 lists the numbers.
        consistency: u16,
        /// How many replicas answered the read.
        received: i32,
        /// How many replicas had to answer the read for this level of consistency.
        block_for: i32,
        /// How many replicas failed while they made the read.
        failures: i32,
        /// 0 where the replica that was asked for data has not answered.
        data_present: u8,
    },
    /// 1400: a function of this keyspace and name failed.
    FunctionFailure {
        /// The keyspace of the function.
        keyspace: String,
        /// The name of the function in that keyspace, without its arguments.
        name: String,
        /// The types of its arguments.
        arguments: Vec<String>,
    },
    /// 1500: a write failed on some replicas.
    WriteFailure {
        /// The level of consistency of the query that failed, a \[short\]; section 3 lists the numbers.
        consistency: u16,
        /// How many replicas acknowledged the write.
        received: i32,
        /// How many replicas had to acknowledge the write for this level of consistency.
        block_for: i32,
        /// How many replicas failed while they made the write.
        failures: i32,
        /// The kind of the write: `SIMPLE`, `BATCH`, `UNLOGGED_BATCH`, `COUNTER` or `BATCH_LOG`; another text is kept.
        write_type: String,
    },
    /// 2400: the keyspace or the table exists already; the table is empty where it is the keyspace.
    AlreadyExists {
        /// The keyspace that exists already, or that of the table.
        keyspace: String,
        /// The table that exists already; empty where the keyspace does.
        table: String,
    },
    /// 2500: no statement with this id is prepared.
    Unprepared {
        /// The id that EXECUTE or BATCH had and the server does not know, \[short bytes\]: at most 65,535.
        id: Vec<u8>,
    },
}

/// The description of a page's columns. Section 4.2.5.2 of `native_protocol_v4.spec`.
#[derive(Debug, PartialEq, Eq, Drop)]
pub struct Metadata {
    /// 1 one table for all columns, 2 more pages, 4 no columns are described; other bits are kept.
    pub flags: i32,
    /// How many columns there are, which is how many `specs` there are, if they are described.
    pub columns: u32,
    /// Where the next page begins, which may be null.
    pub paging: Option<Option<Vec<u8>>>,
    /// The keyspace and the table of all columns, if columns are described.
    pub table: Option<(String, String)>,
    /// The columns, in order.
    pub specs: Option<Vec<Spec>>,
}

/// A column, or a value that is to be bound. Section 4.2.5.2 of `native_protocol_v4.spec`.
#[derive(Debug, PartialEq, Eq, Drop)]
pub struct Spec {
    /// Its keyspace and its table, where there are none for all.
    pub table: Option<(String, String)>,
    /// The name of the column, or that of the variable to which the value is bound.
    pub name: String,
    /// The type of its values, written as an option.
    pub tree: TypeTree,
}

/// A page of rows. Section 4.2.5.2 of `native_protocol_v4.spec`.
#[derive(Debug, PartialEq, Eq, Drop)]
pub struct Rows {
    /// The columns of the page, and where the next page begins.
    pub meta: Metadata,
    /// How many rows the page has, at most 2^31 - 1 since they are counted in an \[int\].
    pub rows: u32,
    /// A cell of each row and each column, row after row. Where no columns are described, each is Null, Empty or a Raw leaf.
    pub cells: Vec<Value>,
}

/// A prepared statement. Section 4.2.5.4 of `native_protocol_v4.spec`.
#[derive(Debug, PartialEq, Eq, Drop)]
pub struct Prepared {
    /// The id by which EXECUTE and BATCH are to name the statement, \[short bytes\]: at most 65,535.
    pub id: Vec<u8>,
    /// 1 one table for all values that are bound; other bits are kept.
    pub flags: i32,
    /// How many values are bound, which is how many `specs` there are.
    pub columns: u32,
    /// Which of the values are the partition key, in the key's order.
    pub keys: Vec<u16>,
    /// The keyspace and the table of all values.
    pub table: Option<(String, String)>,
    /// The values that are to be bound.
    pub specs: Vec<Spec>,
    /// What the statement's pages will describe of their columns.
    pub result: Metadata,
}

/// A change of the schema. Section 4.2.5.5 of `native_protocol_v4.spec`.
#[derive(Debug, PartialEq, Eq, Drop)]
pub struct SchemaChange {
    /// `CREATED`, `UPDATED` or `DROPPED`; another text is kept.
    pub change: String,
    /// The kind of what was changed, which says what the options are.
    pub target: String,
    /// The names of what was changed, in the form that the target asks for.
    pub options: SchemaOptions,
}

/// What was changed, by the kind of the target. Section 4.2.5.5 of `native_protocol_v4.spec`.
#[derive(Debug, PartialEq, Eq, Drop)]
pub enum SchemaOptions {
    /// The keyspace of this name, for `KEYSPACE`.
    Keyspace(String),
    /// The keyspace and the name, for `TABLE` and `TYPE`.
    Named(String, String),
    /// The keyspace, the name and the types of the arguments, for `FUNCTION` and `AGGREGATE`.
    Callable(String, String, Vec<String>),
    /// Nothing, for any other target.
    Unknown,
}

/// What an event reports, by its type. Section 4.2.6 of `native_protocol_v4.spec`.
#[derive(Debug, PartialEq, Eq, Drop)]
pub enum ServerEvent {
    /// A change of a node, for `TOPOLOGY_CHANGE` and `STATUS_CHANGE`.
    Node {
        /// `NEW_NODE`, `REMOVED_NODE`, `UP` or `DOWN`; another text is kept.
        change: String,
        /// The address of the node, of IPv4 or of IPv6.
        address: Address,
        /// The port of the node, an \[int\]; a number that is no port, as 65,536, is kept.
        port: i32,
    },
    /// A change of the schema, for `SCHEMA_CHANGE`.
    Schema(SchemaChange),
    /// Nothing, for any other type.
    Unknown,
}
