// What each message does to one cabinet that it is for.
#![tactic(auto)]

mod following;
mod histories;
mod votes;

pub use following::{take_commit, take_entry};
pub use histories::take_history;
pub use votes::{take_acknowledge, take_candidate, take_promise};
