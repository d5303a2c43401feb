// What a call asks of a cabinet before its step, and receiving bytes for one cabinet.
#![tactic(auto)]

mod readiness;
mod receiving;

pub use readiness::{check_place, check_ready};
pub use receiving::{receive, tray_length};
