// What a cabinet does of itself: stand, enter orders and changes of members, refresh.
// Record, number, journal and rule stay parameters, here and in the crates above: a struct of them would owe a clause
// for each `&mut` field, that it is still the caller's, and would lend `&mut` where a step only reads.
#![tactic(auto)]

mod entering;
mod standing;

pub use entering::{change, submit};
pub use standing::{refresh, stand};
