// The shelf: memory that the caller lends, a row of places and one count for each owner.
#![tactic(auto)]

ghost use Rattle.std.specs.Prelude.{◌+◌, ◌*◌, ◌≤◌, length};

mod rows;

// Where an owner's places lie, and how many of them are in use.
#[derive(Clone, Copy)]
pub struct Row {
    pub start: usize,
    pub end: usize,
    pub used: usize,
}

// A make writes places and counts as it needs; owners and limit stay as they were laid.
#[derive(Drop)]
pub struct Shelf<'a, T, const SPARE: u8> {
    // Owner i has the limit + SPARE places from i * (limit + SPARE) on.
    pub places: &'a mut [T],
    // How many places of each owner are in use. Apart from the places: the caller lends plain memory of each.
    pub counts: &'a mut [u16],
    owners: u16,
    limit: u16,
    ghost placed: { owners * (limit + SPARE) ≤ length places.now },
    ghost counted: { owners ≤ length counts.now },
    ghost few: { owners ≤ 65535 },
    ghost least: { 2 ≤ limit },
    ghost most: { limit ≤ 4000 },
}
