// Kinds of order: the interface, and the two kinds of the plant.
#![tactic(auto)]

mod codes;
mod samples;
mod set_points;
mod trips;

ghost use Rattle.std.specs.Prelude.{◌≡◌, ℕ, Bool, Option};
ghost use Rattle.orders.specs.Kinds.{or_refused, code_answer, ReadsBack, ReadsCodesOnly, CodesDiffer, CodesFit};

use refusal::Refusal;
use std::fmt;
pub use trips::{recode, reread};

// A kind of order: which orders are proper, and the 64-bit code that each proper order travels as.
pub trait OrderKind: Copy {
    ghost proper: { Self → Bool };

    // The code of a proper order.
    ghost encode: { Self → ℕ };

    // The proper order that a number codes, if it codes one.
    ghost decode: { ℕ → Option Self };

    fn is_proper(self) -> bool
        ensures { result ≡ proper self };

    fn code(self) -> Result<u64, Refusal>
        ensures { result ≡ code_answer (proper self) (encode self) };

    fn from_code(code: u64) -> Result<Self, Refusal>
        ensures { result ≡ or_refused (decode code) };

    ghost reads_back: { ReadsBack proper encode decode };

    ghost reads_codes_only: { ReadsCodesOnly proper encode decode };

    ghost codes_differ: { CodesDiffer proper encode };

    ghost codes_fit: { CodesFit proper encode };
}

// A target for one quantity of one evaporator effect.
#[derive(Clone, Copy, PartialEq, Eq, Debug)]
pub struct SetPoint {
    pub effect: u8,
    pub quantity: u8,
    pub value: i32,
}

// A laboratory sample of a juice, with its Brix reading in hundredths.
#[derive(Clone, Copy, PartialEq, Eq, Debug)]
pub struct Sample {
    pub number: u32,
    pub juice: u8,
    pub reading: u16,
}

impl fmt::Display for SetPoint {
    fn fmt<W: fmt::Write>(&self, f: &mut fmt::Formatter<W>) -> fmt::Result {
        let SetPoint {
            effect,
            quantity,
            value,
        } = self;
        write!(f, "effect {effect}, quantity {quantity}, value {value}")
    }
}

impl fmt::Display for Sample {
    fn fmt<W: fmt::Write>(&self, f: &mut fmt::Formatter<W>) -> fmt::Result {
        let Sample {
            number,
            juice,
            reading,
        } = self;
        write!(
            f,
            "sample {number}, juice {juice}, Brix {reading} hundredths"
        )
    }
}
