// Entries: how bytes spell them, and which lists of them a history may hold.
#![tactic(auto)]

mod histories;
mod replacing;
mod rules;
mod spelling;

pub use histories::{is_faultless, is_list_faultless};
pub use replacing::replace;
pub use rules::{body_fits, entry_fits, is_founding, names_members};
pub use spelling::{bytes_of, entry};
