//! What makes two requests ones of the same statement.

/// What makes two requests ones of the same statement in a summary.
#[derive(Clone, Copy)]
pub enum Naming {
    /// Texts that differ in their literals, white space and comments alone.
    Fingerprint,
    /// The same text.
    Literal,
}
