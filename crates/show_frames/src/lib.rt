// Every kind of frame: written, read back, damaged and refused.
#![tactic(auto)]

use entries::bytes_of;
use frames::{Frame, Message, read};
use journal::{Entry, EntryKind};
use refusal::Refusal;
use roundtrip::{reads_back, writes_back};
use std::io;
use writing::write;

const CABINETS: u8 = 3;

const LIMIT: u16 = 5;

fn name(message: Message<'_>) -> &'static str {
    match message {
        Message::Candidate { .. } => "candidate",
        Message::Promise => "promise",
        Message::History { .. } => "history",
        Message::Entry { .. } => "entry",
        Message::Acknowledge { .. } => "acknowledge",
        Message::Commit { .. } => "commit",
    }
}

fn print_refusal(rt: &HostRuntime, refusal: Refusal) -> io::Result<()> {
    println!(rt; "refused by {}: {refusal}", refusal.number())
}

fn print_bytes(rt: &HostRuntime, bytes: &[u8]) -> io::Result<()> {
    for (i, byte) in bytes.iter().enumerate() {
        if i % 8 == 0 {
            print!(rt; "\n   ")?;
        }
        print!(rt; " {byte:02x}")?;
    }
    println!(rt; "")
}

fn print_answer(rt: &HostRuntime, bytes: &[u8]) -> io::Result<()> {
    match read::<orders::SetPoint>(CABINETS, LIMIT, bytes) {
        Ok(frame) => {
            let kind = name(frame.message);
            let sender = frame.sender;
            let epoch = frame.epoch;
            println!(rt; "{kind} from cabinet {sender}, epoch {epoch}")
        }
        Err(refusal) => print_refusal(rt, refusal),
    }
}

// Writes one message, reads it back, and reads it again with its byte at `at` turned over.
fn tour(rt: &HostRuntime, sender: u8, message: Message<'_>, at: usize) -> io::Result<()> {
    let frame = Frame {
        sender,
        epoch: 17,
        message,
    };
    let mut tray = [255; 104];
    let kind = name(message);
    print!(rt; "{kind}:")?;
    match write::<orders::SetPoint>(CABINETS, LIMIT, &frame, &mut tray) {
        Ok(length) => {
            print_bytes(rt, &tray[0..(length as usize).min(104)])?;
            print!(rt; "  read back: ")?;
            print_answer(rt, &tray)?;
            if at < 104 {
                tray[at] = 255 - tray[at];
            }
            print!(rt; "  byte {at} damaged: ")?;
            print_answer(rt, &tray)
        }
        Err(refusal) => {
            print!(rt; " ")?;
            print_refusal(rt, refusal)
        }
    }
}

fn show_history(rt: &HostRuntime, entries: &[u8]) -> io::Result<()> {
    tour(rt, 1, Message::History { mark: 1, entries }, 28)
}

fn show_entry(rt: &HostRuntime, entry: &[u8]) -> io::Result<()> {
    tour(
        rt,
        1,
        Message::Entry {
            position: 1,
            mark: 2,
            entry,
        },
        37,
    )
}

fn show_entries(rt: &HostRuntime) -> io::Result<()> {
    let founding = bytes_of(Entry {
        epoch: 0,
        kind: EntryKind::Configuration,
        body: 7,
    });
    let order = bytes_of(Entry {
        epoch: 17,
        kind: EntryKind::Order,
        body: 2_220_498_092_027,
    });
    let mut list = [0; 32];
    list[0..16].copy_from_slice(&founding);
    list[16..32].copy_from_slice(&order);
    show_history(rt, &list)?;
    show_entry(rt, &order)
}

pub fn show(rt: &HostRuntime) -> io::Result<()> {
    println!(rt; "Frames between {CABINETS} cabinets with lists of at most {LIMIT} entries")?;
    reads_back::<orders::SetPoint>();
    println!(rt; "  proved of every message: written as a frame it reads back as itself")?;
    writes_back::<orders::SetPoint>();
    println!(rt; "  proved of every accepted frame: written again it gives its own bytes")?;
    tour(
        rt,
        1,
        Message::Candidate {
            accepted: 2,
            length: 3,
        },
        0,
    )?;
    tour(rt, 2, Message::Promise, 8)?;
    show_entries(rt)?;
    tour(rt, 2, Message::Acknowledge { length: 2 }, 17)?;
    tour(rt, 1, Message::Commit { mark: 2 }, 23)?;
    println!(rt; "A message that no frame may carry:")?;
    tour(rt, 0, Message::Commit { mark: 2 }, 0)
}
