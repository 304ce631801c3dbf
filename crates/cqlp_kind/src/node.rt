//! The types of a table.

use crate::kind::Kind;

/// A type in a list of types in preorder, where each type is before its inner ones.
#[derive(Clone, Copy, Debug, PartialEq, Eq)]
pub struct Node {
    /// What the id of its option says; [`Kind::Raw`] for an unknown id in a lenient reading. Section 4.2.5.2 of `native_protocol_v4.spec`.
    pub kind: Kind,
    /// How many inner types it has; of a udt or a tuple 0 until their number is read.
    pub arity: u16,
    /// The number of nodes of the whole type, its own included; 0 until its option's last byte is read.
    pub span: u32,
}
