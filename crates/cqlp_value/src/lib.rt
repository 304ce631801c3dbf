//! Values of cells of the CQL native protocol v4, as a program owns them.
#![tactic(auto)]

mod atom;
mod convert;
mod fitted;
mod fitting;
pub mod laws;
mod measure;
mod value;

pub use atom::Content;
pub use cqlp_cell::{
    CellAdvance, CellItem, CellOutline, CellPush, CellReader, FrontScalar, front_scalar,
};
pub use cqlp_kind::{Scalar, scalar};
pub use fitted::fitting_size;
pub use fitting::fits;
pub use measure::{content_len, value_len, value_size};
pub use value::{Atom, Value};
