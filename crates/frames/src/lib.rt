// Frames, from bytes to messages: the layout, the rules of its fields, and the reader.
#![tactic(auto)]

mod headers;
mod reader;

ghost use Rattle.std.specs.Prelude.{◌≡◌};
ghost use Rattle.frames.specs.Fields.{kind_number, kind_numbered};

use refusal::Refusal;

// The kinds of frame.
#[derive(Clone, Copy, Debug, PartialEq, Eq)]
pub enum FrameKind {
    Candidate = 1,
    Promise = 2,
    History = 3,
    Entry = 4,
    Acknowledge = 5,
    Commit = 6,
}

impl FrameKind {
    pub fn number(self) -> u8
        ensures { result ≡ kind_number self }
    {
        self as u8
    }
}

// The kind of a number: 11 where there is none.
impl TryFrom<u8> for FrameKind {
    type Error = Refusal;

    ghost try_from_gives = { λ number r. r ≡ kind_numbered number };

    fn try_from(number: u8) -> Result<Self, Refusal> {
        match number {
            1 => Ok(FrameKind::Candidate),
            2 => Ok(FrameKind::Promise),
            3 => Ok(FrameKind::History),
            4 => Ok(FrameKind::Entry),
            5 => Ok(FrameKind::Acknowledge),
            6 => Ok(FrameKind::Commit),
            _ => Err(Refusal::FrameKind),
        }
    }
}

pub use headers::{check_bounds, check_count, check_fields};
pub use reader::{check_ranges, read};

// A header as it lies in the bytes, nothing checked.
#[derive(Clone, Copy)]
pub struct Header {
    pub kind: u8,
    pub sender: u8,
    pub count: u16,
    pub epoch: u32,
    pub numbers: Numbers,
}

#[derive(Clone, Copy)]
pub struct Numbers {
    pub first: u32,
    pub second: u32,
    pub length: u16,
    // Whether the six bytes behind the length are zeros.
    pub zeros: bool,
}

// What a header says once its shape is right.
#[derive(Clone, Copy)]
pub struct Fields {
    pub kind: FrameKind,
    pub sender: u8,
    pub count: usize,
    pub epoch: u32,
    pub first: u32,
    pub second: u32,
}

// What cabinets tell one another. Entries are a part of the caller's bytes, 16 for each.
#[derive(Clone, Copy)]
pub enum Message<'a> {
    Candidate {
        accepted: u32,
        length: u32,
    },
    Promise,
    History {
        mark: u32,
        entries: &'a [u8],
    },
    Entry {
        position: u32,
        mark: u32,
        entry: &'a [u8],
    },
    Acknowledge {
        length: u32,
    },
    Commit {
        mark: u32,
    },
}

#[derive(Clone, Copy)]
pub struct Frame<'a> {
    pub sender: u8,
    pub epoch: u32,
    pub message: Message<'a>,
}
