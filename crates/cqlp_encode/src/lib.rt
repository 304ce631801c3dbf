//! Frames of the CQL native protocol v4, written.
#![tactic(auto)]

mod appending;
mod binding;
mod fields;
mod kept_values;
pub mod laws;
mod lent_page;
mod page_writer;
mod parts;
mod staged;
mod tally;
mod types;
mod value_writing;
mod values;
mod writing;

pub use appending::{AppendError, append};
pub use binding::{BindError, bind_value, raw_value};
pub use lent_page::{LentError, encode_page, measure_cells};
pub use page_writer::{PageError, PageWriter};
pub use value_writing::{ValueError, write_value};
pub use writing::{EncodeError, encode, encode_from};
