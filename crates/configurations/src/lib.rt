// Questions about the configurations in an owner's list, for every journal.
#![tactic(auto)]

mod scans;

pub use scans::{commits, elects, in_play, last_before, members_after, members_before, version};
