//! Fields and headers of the CQL native protocol v4, read from pieces of any size.
#![tactic(auto)]

mod advance;
mod field;
mod front;
mod gathered;
mod head;
mod header;
pub mod laws;
mod limits;
mod offering;
mod opcode;
mod partial;
mod prim;
mod refusal;
mod streams;
mod utf8;
mod whole;

pub use advance::{ContentPlace, FieldAdvance, FieldOutline, Push};
pub use field::{Field, Notation};
pub use head::ContentForm;
pub use header::Header;
pub use limits::{Asked, BadLimits, LimitRange, Limits};
pub use offering::offer;
pub use opcode::Opcode;
pub use partial::Partial;
// antt has a module `Prim`, so that a crate above could not be checked over an enum whose own name this is.
pub use prim::{Address, BoundValue, Primitive as Prim};
pub use refusal::{NoMemory, Reason, Refusal};
pub use streams::{IoFault, OfStd, Source, Target};
pub use utf8::is_text;
pub use whole::{WholeField, front_field};
