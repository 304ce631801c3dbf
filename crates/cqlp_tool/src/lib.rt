//! What the program cqlp does; and the progress that it reports while it reads a long file.
#![tactic(auto)]

mod capture_files;
mod capture_folder;
mod command_line;
mod connection;
mod conversing;
mod folder;
mod followed_capture;
pub mod laws;
mod limits;
mod line;
mod marks;
mod path_lines;
mod pause;
mod progress;
mod statements;

pub use command_line::{command, command_with_notes, execute};
pub use conversing::converse;
pub use cqlp_options::{
    CaptureOptions, CommandLine, DEFAULT_LIMITS, EventsAs, NoTask, Options, QUERIES, RowsAs, Task,
};
pub use cqlp_render::{TextForm, check, render_events, render_rows, rows, show, show_as};
pub use cqlp_text::{Ending, cell_text};
