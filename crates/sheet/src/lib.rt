// The sheet: a journal with one row of entries for each owner, over memory that the caller lends.
#![tactic(auto)]

use journal::Entry;
use shelf::Shelf;

mod rows;

pub use rows::{lay, measure};

#[derive(Drop)]
pub struct Sheet<'a> {
    // An owner's list is its entries in use.
    rows: Rows<'a>,
}

// No spare place: a row has as many as the limit.
type Rows<'a> = Shelf<'a, Entry, 0>;
