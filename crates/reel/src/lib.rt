// The reel: a journal with limit + 1 records for each owner, over memory that the caller lends.
#![tactic(auto)]

use records::Record;
use shelf::Shelf;

mod reels;

pub use reels::{lay, measure};

#[derive(Drop)]
pub struct Reel<'a> {
    // An owner's list is what its records in use leave when replayed.
    records: Records<'a>,
}

// One spare place: where all are in use, rewriting leaves one free.
type Records<'a> = Shelf<'a, Record, 1>;
