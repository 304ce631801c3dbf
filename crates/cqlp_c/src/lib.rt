//! The decoder of frames, the cores of a client and of a server, and headers, for C and for what calls as C does.
#![tactic(auto)]

mod batch;
mod cell_from_c;
mod check;
mod client;
mod columns;
mod course;
mod encode;
mod event;
mod from_c;
mod from_c_laws;
mod handle;
mod header;
mod laws;
mod loose;
mod numbers;
mod page;
mod server;
mod shown;
mod slots;
mod talked;
mod types;
mod versions;
mod whole_page;

pub use check::cqlp_check;
pub use client::{
    CqlpClient, CqlpCore, cqlp_client_begin, cqlp_client_cancel, cqlp_client_free, cqlp_client_new,
    cqlp_client_phase, cqlp_client_reply,
};
pub use columns::{
    CqlpArrays, CqlpBatchLimits, CqlpColumn, CqlpColumns, cqlp_columns_clear, cqlp_columns_free,
    cqlp_columns_get, cqlp_columns_new, cqlp_columns_next,
};
pub use course::{CqlpBegun, CqlpCourse, CqlpSkipped};
pub use encode::{CqlpEncoded, cqlp_encode};
pub use event::CqlpEvent;
pub use from_c_laws::{all_read_back, events_are_in_range, handed_back_is_read, read_back};
pub use handle::{
    CqlpDecoder, CqlpHeldDecoder, CqlpPlace, cqlp_finish, cqlp_free, cqlp_held, cqlp_new,
    cqlp_new_lenient, cqlp_next, cqlp_skip,
};
pub use header::{CqlpHeader, cqlp_write_header};
pub use laws::{
    calls_read_stretches, contents_lie_there, events_are_pushed, frames_are_heard,
    one_answer_of_check, one_answer_of_client_new, one_answer_of_columns,
    one_answer_of_columns_clear, one_answer_of_columns_get, one_answer_of_columns_new,
    one_answer_of_encode, one_answer_of_give, one_answer_of_held, one_answer_of_new,
    one_answer_of_next, one_answer_of_pages, one_answer_of_server_new, one_answer_of_skip,
    one_answer_of_take_given, one_answer_of_types_of, one_answer_over_skips, promised_numbers,
    put_pages_are_read, written_events_are_read,
};
pub use page::{
    CqlpMeasured, CqlpPage, CqlpPagePlace, CqlpPut, cqlp_page_begin, cqlp_page_end, cqlp_page_free,
    cqlp_page_measure, cqlp_page_put,
};
pub use server::{
    CqlpServer, CqlpService, cqlp_server_accept, cqlp_server_answer, cqlp_server_event,
    cqlp_server_free, cqlp_server_new, cqlp_server_phase,
};
pub use shown::{CqlpBatch, CqlpEnd, CqlpHeld, CqlpLimits};
pub use talked::{CqlpAnswered, CqlpReply, CqlpTicket};
pub use types::{CqlpTable, CqlpTypes, cqlp_give, cqlp_take_given, cqlp_types_free, cqlp_types_of};
pub use versions::cqlp_version_error;
