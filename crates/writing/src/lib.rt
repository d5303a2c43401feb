// The writer: a message becomes a frame in the caller's buffer.
#![tactic(auto)]

mod buffers;
mod journals;
mod replies;
mod writer;

pub use journals::write_history;
pub use replies::write_reply;
pub use writer::write;
