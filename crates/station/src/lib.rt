// The calls of a station, over parts that the caller keeps and lends: a table of cabinet records, a journal, the trays, a rule.
#![tactic(auto)]

mod acting;
mod checks;
mod founding;
mod handing;
mod requests;
mod switching;
mod trays;

pub use founding::found;
pub use handing::hand;
pub use requests::{change, refresh, stand, submit};
pub use switching::{start, stop};

// The parts stay parameters: a struct of them would owe a clause for each `&mut` field, that it is still the caller's,
// and the checks, which only read, would name each part behind one more reference.
// A call answers a pair, as the plant's callers ask: 0, and the length of the frame that it wrote.

// What a cabinet does of itself. No closure: it would have to bring, with a proof, what each case has by its definition.
#[derive(Clone, Copy)]
pub enum Act<K> {
    Stand,
    Submit(K),
    Change { version: u32, members: u16 },
    Refresh,
}
