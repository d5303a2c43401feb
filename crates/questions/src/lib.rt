// What a cabinet answers without a step: a committed entry, and its members.
#![tactic(auto)]

mod entries_of;
mod members_of;
mod readiness;

pub use entries_of::committed;
pub use members_of::roster;
