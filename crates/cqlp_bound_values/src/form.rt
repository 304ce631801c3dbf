//! How values are written.

/// As a part of a line, or as JSON.
#[derive(Clone, Copy)]
pub(crate) enum Form {
    Line,
    Json,
}
