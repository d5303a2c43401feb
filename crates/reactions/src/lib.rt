// What a message does to one cabinet, and what bytes do.
#![tactic(auto)]

mod hearing;
mod letters;

pub use hearing::hear;
