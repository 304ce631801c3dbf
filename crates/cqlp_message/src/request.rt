//! Parts of requests.

/// A \[value\] of a request, with its bytes. Section 3 of `native_protocol_v4.spec`.
#[derive(Debug, PartialEq, Eq, Drop)]
pub enum OwnedBound {
    /// The value is null.
    Null,
    /// The value is not set, and the server keeps what it has.
    Unset,
    /// The bytes of the value, of which there may be none.
    Bytes(Vec<u8>),
}

/// The parameters of a query or of a prepared statement. Section 4.1.4 of `native_protocol_v4.spec`.
///
/// A part is to be there exactly where its flag is set; where they disagree, no bytes spell the parameters. The flags 02
/// and 80 announce nothing, nor does 40 without 01.
#[derive(Debug, PartialEq, Eq, Drop)]
pub struct QueryParams {
    /// The level of consistency, a \[short\]: 0 ANY, 1 ONE, 4 QUORUM, and so on, as section 3 lists them; other numbers are kept.
    pub consistency: u16,
    /// 01 values, 02 skip metadata, 04 page size, 08 paging state, 10 serial consistency, 20 default timestamp,
    /// 40 names for values; other bits are kept.
    pub flags: u8,
    /// The values, each with its name where the flags 01 and 40 are set.
    pub values: Option<Vec<(Option<String>, OwnedBound)>>,
    /// The rows of a page.
    pub page_size: Option<i32>,
    /// The paging state, which may be null.
    pub paging: Option<Option<Vec<u8>>>,
    /// The level of consistency of the serial phase of a conditional update, 8 SERIAL or 9 LOCAL_SERIAL; other numbers are kept.
    pub serial: Option<u16>,
    /// The default timestamp, in microseconds.
    pub timestamp: Option<i64>,
}

/// A statement of a batch, and its values. Section 4.1.7 of `native_protocol_v4.spec`.
#[derive(Debug, PartialEq, Eq, Drop)]
pub enum BatchEntry {
    /// The text of a query.
    Text(String, Vec<OwnedBound>),
    /// The id of a prepared statement.
    Id(Vec<u8>, Vec<OwnedBound>),
}
