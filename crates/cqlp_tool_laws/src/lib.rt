//! Laws of what is written of a stream, of conversations and of command lines, over what the calls of cqlp_text, cqlp_render, cqlp_render_skip,
//! cqlp_loop and cqlp_tool promise. No code needs them.
#![tactic(auto)]

pub mod command_line;
pub mod conversation;
pub mod numbers;
pub mod rows;
pub mod skipping;
pub mod text;
pub mod tool;
