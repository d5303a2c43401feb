// Committing and winning: what acknowledged lengths and promises make of a cabinet's record.
#![tactic(auto)]

mod rising;

pub use rising::{commit, rise, win};

// Where a mark rests, and the members by the last configuration before it.
#[derive(Clone, Copy)]
pub struct Rest {
    pub mark: u16,
    pub members: u16,
}
