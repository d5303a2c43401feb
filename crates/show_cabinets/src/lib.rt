// Three cabinets through an election, an order and a change of members, one cabinet's step at a time.
#![tactic(auto)]

use cabinet::{Cabinet, FOLLOWS, Reply, STANDS};
use frames::FrameKind;
use journal::{Entry, EntryKind, Journal};
use orders::SetPoint;
use questions::{committed, roster};
use quorum::Majority;
use receiving::receive;
use refusal::Refusal;
use std::io;
use writing::write_reply;

const CABINETS: u8 = 3;

const LIMIT: usize = 4;

// A tray for lists of at most four entries.
const TRAY: usize = 88;

const FOUNDING: Entry = Entry {
    epoch: 0,
    kind: EntryKind::Configuration,
    body: 7,
};

const NEW: Cabinet = Cabinet {
    promised: 0,
    accepted: 0,
    mark: 1,
    role: 0,
    gathered: 0,
    acknowledged: [0; 16],
    running: true,
};

// The parts that the caller keeps: the records, the journal, and the one frame that is on its way.
#[derive(Drop)]
struct Plant<'a, J> {
    table: [Cabinet; 3],
    journal: &'a mut J,
    frame: [u8; 88],
}

// What the first byte of a frame says that it is.
fn name(kind: u8) -> &'static str {
    match FrameKind::try_from(kind) {
        Ok(FrameKind::Candidate) => "a candidate",
        Ok(FrameKind::Promise) => "a promise",
        Ok(FrameKind::History) => "a history",
        Ok(FrameKind::Entry) => "an entry",
        Ok(FrameKind::Acknowledge) => "an acknowledge",
        Ok(FrameKind::Commit) => "a commit",
        Err(_) => "nothing known",
    }
}

fn role(number: u8) -> &'static str {
    match number {
        FOLLOWS => "follows",
        STANDS => "stands",
        _ => "leads",
    }
}

fn print_refusal(rt: &HostRuntime, refusal: Refusal) -> io::Result<()> {
    println!(rt; "refused by {}: {refusal}", refusal.number())
}

// What a cabinet knows after its step.
fn print_record<J: Journal>(rt: &HostRuntime, plant: &Plant<'_, J>, number: u8) -> io::Result<()> {
    let cabinet = plant.table[number as usize % 3];
    let state = role(cabinet.role);
    let promised = cabinet.promised;
    let mark = cabinet.mark;
    let length = plant.journal.length(number as u16).unwrap_or(0);
    println!(rt;
        "    cabinet {number} {state}: promised {promised}, {mark} of {length} entries committed"
    )
}

// What a cabinet answers, now the frame on its way.
fn print_answer<J: Journal>(
    rt: &HostRuntime,
    plant: &Plant<'_, J>,
    number: u8,
    length: u16,
) -> io::Result<()> {
    let kind = name(plant.frame[0]);
    if length == 0 {
        println!(rt; "says nothing")?;
    } else {
        println!(rt; "says {kind}, {length} bytes")?;
    }
    print_record(rt, plant, number)
}

// What a cabinet did of itself: its reply becomes the frame on its way.
fn told<J: Journal>(
    rt: &HostRuntime,
    plant: &mut Plant<'_, J>,
    number: u8,
    reply: Result<Reply, Refusal>,
) -> io::Result<()> {
    let epoch = plant.table[number as usize % 3].promised;
    match reply {
        Ok(said) => {
            match write_reply(
                number,
                epoch,
                said,
                plant.journal,
                number as u16,
                &mut plant.frame,
            ) {
                Ok(length) => print_answer(rt, plant, number, length),
                Err(refusal) => print_refusal(rt, refusal),
            }
        }
        Err(refusal) => print_refusal(rt, refusal),
    }
}

fn stand<J: Journal>(rt: &HostRuntime, plant: &mut Plant<'_, J>, number: u8) -> io::Result<()> {
    print!(rt; "  cabinet {number} stands: ")?;
    let reply = acts::stand(
        &mut plant.table[number as usize % 3],
        number,
        plant.journal,
        &Majority,
    );
    told(rt, plant, number, reply)
}

fn submit<J: Journal>(rt: &HostRuntime, plant: &mut Plant<'_, J>, number: u8) -> io::Result<()> {
    let order = SetPoint {
        effect: 2,
        quantity: 4,
        value: -5,
    };
    print!(rt; "  cabinet {number} is submitted effect 2, quantity 4, value -5: ")?;
    let reply = acts::submit(
        &mut plant.table[number as usize % 3],
        number,
        plant.journal,
        &Majority,
        order,
    );
    told(rt, plant, number, reply)
}

fn change<J: Journal>(
    rt: &HostRuntime,
    plant: &mut Plant<'_, J>,
    number: u8,
    members: u16,
) -> io::Result<()> {
    print!(rt; "  cabinet {number} changes the members to {members:b} (cabinet 0 on the right): ")?;
    let reply = acts::change(
        &mut plant.table[number as usize % 3],
        number,
        plant.journal,
        &Majority,
        CABINETS,
        1,
        members,
    );
    told(rt, plant, number, reply)
}

// Carries a copy of the frame to a cabinet; what that answers is on its way then.
fn carry<J: Journal>(rt: &HostRuntime, plant: &mut Plant<'_, J>, number: u8) -> io::Result<()> {
    let frame = plant.frame;
    let kind = name(frame[0]);
    print!(rt; "  cabinet {number} receives {kind}: ")?;
    match receive::<SetPoint, J, Majority>(
        &mut plant.table[number as usize % 3],
        number,
        CABINETS,
        plant.journal,
        &Majority,
        &frame,
        &mut plant.frame,
    ) {
        Ok((_, length)) => print_answer(rt, plant, number, length),
        Err(refusal) => print_refusal(rt, refusal),
    }
}

// What a cabinet answers about what it knows to be committed.
fn questions<J: Journal>(rt: &HostRuntime, plant: &Plant<'_, J>, number: u8) -> io::Result<()> {
    let cabinet = &plant.table[number as usize % 3];
    print!(rt; "  cabinet {number}, asked what is committed:")?;
    for position in 0..cabinet.mark.saturating_add(1) {
        match committed::<SetPoint, J>(CABINETS, number, cabinet, plant.journal, position) {
            Ok(entry) => {
                let epoch = entry.epoch;
                let body = entry.body;
                print!(rt; " {body} at epoch {epoch};")?;
            }
            Err(refusal) => {
                println!(rt; " then {}", refusal.number())?;
            }
        }
    }
    let mut list = [0; 16];
    match roster::<SetPoint, J>(CABINETS, number, cabinet, plant.journal, &mut list) {
        Ok(count) => {
            print!(rt; "  its {count} members:")?;
            for member in &list[0..(count as usize).min(16)] {
                print!(rt; " {member}")?;
            }
            println!(rt; "")
        }
        Err(refusal) => print_refusal(rt, refusal),
    }
}

fn election<J: Journal>(rt: &HostRuntime, plant: &mut Plant<'_, J>) -> io::Result<()> {
    println!(rt; "An election:")?;
    stand(rt, plant, 1)?;
    carry(rt, plant, 0)?;
    carry(rt, plant, 1)?;
    let history = plant.frame;
    for follower in [0, 2] {
        plant.frame = history;
        carry(rt, plant, follower)?;
        carry(rt, plant, 1)?;
    }
    Ok(())
}

pub fn show(rt: &HostRuntime) -> anyhow::Result<()> {
    let heap = rt.alloc();
    let mut rows = vec![in heap; FOUNDING; 12]?;
    let mut lengths = vec![in heap; 0u16; 3]?;
    let mut journal = sheet::lay(&mut rows, &mut lengths, 3, LIMIT);
    for owner in 0..3u16 {
        let _ = journal.append(owner, FOUNDING);
    }
    let mut plant = Plant {
        table: [NEW; 3],
        journal: &mut journal,
        frame: [0; TRAY],
    };
    println!(rt;
        "CABINETS: three of them, by majority, all members, each with the founding entry alone"
    )?;
    election(rt, &mut plant)?;
    println!(rt; "An order:")?;
    submit(rt, &mut plant, 1)?;
    carry(rt, &mut plant, 2)?;
    carry(rt, &mut plant, 1)?;
    carry(rt, &mut plant, 0)?;
    println!(rt; "A change of members:")?;
    change(rt, &mut plant, 1, 6)?;
    let entry = plant.frame;
    carry(rt, &mut plant, 2)?;
    carry(rt, &mut plant, 1)?;
    plant.frame = entry;
    carry(rt, &mut plant, 0)?;
    questions(rt, &plant, 1)?;
    questions(rt, &plant, 0)?;
    Ok(())
}
