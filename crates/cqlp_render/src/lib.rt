//! A stream as text, with what is reported of it.
#![tactic(auto)]

mod buffered_sink;
mod form;
pub mod laws;
mod render;
mod showing;
mod text_form;

pub use render::{render_events, render_rows};
pub use showing::{TURNS, check, conclude, rows, show, show_as};
pub use text_form::TextForm;
