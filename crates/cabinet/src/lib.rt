// One cabinet's record: what it knows besides its list.
#![tactic(auto)]

mod changes;
mod epochs;
mod holding;
mod lists;
mod sound;
mod standing;

pub use epochs::{is_later, next_epoch};

// The roles. A record is plain memory of the caller's, so its role is a number and may be none of them.
pub const FOLLOWS: u8 = 0;

pub const STANDS: u8 = 1;

pub const LEADS: u8 = 2;

#[derive(Clone, Copy)]
pub struct Cabinet {
    pub promised: u32,
    pub accepted: u32,
    // How many entries of its list are committed.
    pub mark: u16,
    // A stop loses this and the next two.
    pub role: u8,
    // The cabinets whose promise it has, while it stands.
    pub gathered: u16,
    // The lengths that each cabinet has acknowledged, while it leads.
    pub acknowledged: [u16; 16],
    pub running: bool,
}

// What a cabinet says after a step; a history's entries and the one of an entry frame are those of its list.
// Silence is one of the seven: as an `Option`, every match over what is said would open two enums.
#[derive(Clone, Copy)]
pub enum Reply {
    Nothing,
    Candidate { accepted: u32, length: u16 },
    Promise,
    History { mark: u16 },
    Entry { position: u16, mark: u16 },
    Acknowledge { length: u16 },
    Commit { mark: u16 },
}
