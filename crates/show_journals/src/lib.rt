// Journals at work: the same calls on a sheet and on a reel, small ones in full and large ones in numbers.
#![tactic(auto)]

use journal::{Entry, EntryKind, Journal};
use records::Record;
use refusal::Refusal;
use std::fmt;

const LIMIT: usize = 3;

#[derive(Clone, Copy)]
enum Call {
    Append(u16, u64),
    Keep(u16, u16),
    Length(u16),
    Read(u16, u16),
}

// With a limit of 3 a reel has 4 records for each owner, and cabinet 0's are used up three times.
const CALLS: [Call; 19] = [
    Call::Append(1, 201),
    Call::Append(0, 101),
    Call::Append(0, 102),
    Call::Append(0, 103),
    Call::Append(0, 104),
    Call::Keep(0, 4),
    Call::Read(0, 2),
    Call::Read(0, 3),
    Call::Keep(0, 1),
    Call::Append(0, 105),
    Call::Append(0, 106),
    Call::Keep(0, 3),
    Call::Append(0, 107),
    Call::Keep(0, 2),
    Call::Append(0, 107),
    Call::Length(0),
    Call::Read(0, 2),
    Call::Append(2, 301),
    Call::Length(2),
];

impl fmt::Display for Call {
    fn fmt<W: fmt::Write>(&self, f: &mut fmt::Formatter<W>) -> fmt::Result {
        match self {
            Call::Append(owner, code) => write!(f, "cabinet {owner}: append order {code}"),
            Call::Keep(owner, count) => write!(f, "cabinet {owner}: keep the first {count}"),
            Call::Length(owner) => write!(f, "cabinet {owner}: how long is the list?"),
            Call::Read(owner, position) => write!(
                f,
                "cabinet {owner}: what stands at position {position}?"
            ),
        }
    }
}

#[derive(Clone, Copy)]
enum Answer {
    Done,
    Length(u16),
    Found(Entry),
}

impl fmt::Display for Answer {
    fn fmt<W: fmt::Write>(&self, f: &mut fmt::Formatter<W>) -> fmt::Result {
        match self {
            Answer::Done => write!(f, "done"),
            Answer::Length(length) => write!(f, "{length} entries"),
            Answer::Found(entry) => write!(f, "order {}", entry.body),
        }
    }
}

// An answer or a refusal, as a person reads it.
#[derive(Clone, Copy)]
struct Told(Result<Answer, Refusal>);

impl fmt::Display for Told {
    fn fmt<W: fmt::Write>(&self, f: &mut fmt::Formatter<W>) -> fmt::Result {
        match self.0 {
            Ok(answer) => write!(f, "{answer}"),
            Err(refusal) => write!(f, "refused, {}: {refusal}", refusal.number()),
        }
    }
}

fn done(res: Result<(), Refusal>) -> Told {
    Told(res.map(|()| Answer::Done))
}

fn order(code: u64) -> Entry {
    Entry {
        epoch: 1,
        kind: EntryKind::Order,
        body: code,
    }
}

fn ask<J: Journal>(journal: &mut J, call: &Call) -> Result<Answer, Refusal> {
    Ok(match call {
        Call::Append(owner, code) => {
            journal.append(*owner, order(*code))?;
            Answer::Done
        }
        Call::Keep(owner, count) => {
            journal.keep(*owner, *count)?;
            Answer::Done
        }
        Call::Length(owner) => Answer::Length(journal.length(*owner)?),
        Call::Read(owner, position) => Answer::Found(journal.entry(*owner, *position)?),
    })
}

// Whether the owner's lists in two journals are the same, entry by entry.
fn same_list<A: Journal, B: Journal>(a: &A, b: &B, owner: u16) -> Result<bool, Refusal> {
    let length = a.length(owner)?;
    if length != b.length(owner)? {
        return Ok(false);
    }
    for position in 0..length {
        if a.entry(owner, position)? != b.entry(owner, position)? {
            return Ok(false);
        }
    }
    Ok(true)
}

fn same_lists<A: Journal, B: Journal>(a: &A, b: &B) -> Result<bool, Refusal> {
    for owner in 0..a.owners() {
        if !same_list(a, b, owner)? {
            return Ok(false);
        }
    }
    Ok(a.owners() == b.owners())
}

fn compare<A: Journal, B: Journal>(a: &A, b: &B) -> &'static str {
    match same_lists(a, b) {
        Ok(true) => "equal",
        _ => "NOT equal",
    }
}

// Appends until the owner's list is as long as the limit.
fn fill_list<J: Journal>(journal: &mut J, owner: u16) -> Result<(), Refusal> {
    for position in journal.length(owner)?..journal.limit() {
        journal.append(owner, order(position as u64))?;
    }
    Ok(())
}

fn fill<J: Journal>(journal: &mut J) -> Result<(), Refusal> {
    for owner in 0..journal.owners() {
        fill_list(journal, owner)?;
    }
    Ok(())
}

fn cut<J: Journal>(journal: &mut J, count: u16) -> Result<(), Refusal> {
    for owner in 0..journal.owners() {
        journal.keep(owner, count)?;
    }
    Ok(())
}

fn total<J: Journal>(journal: &J) -> u32 {
    let mut entries = 0u32;
    for owner in 0..journal.owners() {
        if let Ok(length) = journal.length(owner) {
            entries = entries.saturating_add(length as u32);
        }
    }
    entries
}

// How far one owner's records are used up, reckoned from the calls alone.
#[derive(Clone, Copy)]
struct Wear {
    used: u16,
    rewritten: u16,
}

impl Wear {
    // One more record, on a list of so many entries.
    fn more(self, length: u16) -> Wear {
        if self.used as usize > LIMIT {
            Wear {
                used: length.saturating_add(1),
                rewritten: self.rewritten.saturating_add(1),
            }
        } else {
            Wear {
                used: self.used + 1,
                rewritten: self.rewritten,
            }
        }
    }
}

// Makes every call on both journals and tells each answer.
fn tell<A: Journal, B: Journal>(
    rt: &HostRuntime,
    sheet: &mut A,
    reel: &mut B,
) -> anyhow::Result<Wear> {
    let mut wear = Wear {
        used: 0,
        rewritten: 0,
    };
    for call in &CALLS {
        let length = sheet.length(0).unwrap_or(0);
        let on_sheet = Told(ask(sheet, call));
        let on_reel = Told(ask(reel, call));
        println!(rt; "  {call}")?;
        println!(rt; "      sheet: {on_sheet}; reel: {on_reel}")?;
        if changes_first(call, &on_reel) {
            wear = wear.more(length);
        }
    }
    Ok(wear)
}

// Whether the call has changed cabinet 0's list.
fn changes_first(call: &Call, told: &Told) -> bool {
    matches!(call, Call::Append(0, _) | Call::Keep(0, _)) && told.0.is_ok()
}

fn print_list<J: Journal>(
    rt: &HostRuntime,
    name: &str,
    journal: &J,
    owner: u16,
) -> anyhow::Result<()> {
    print!(rt; "  {name}, cabinet {owner}:")?;
    for position in 0..journal.length(owner).unwrap_or(0) {
        if let Ok(entry) = journal.entry(owner, position) {
            let body = entry.body;
            print!(rt; " {body}")?;
        }
    }
    println!(rt; "")?;
    Ok(())
}

fn print_records(rt: &HostRuntime, records: &[Record]) -> anyhow::Result<()> {
    for made in records {
        match made {
            Record::Append(entry) => {
                let body = entry.body;
                println!(rt; "    entry {body}")?;
            }
            Record::Keep(count) => println!(rt; "    keep mark {count}")?,
        }
    }
    Ok(())
}

fn small(rt: &HostRuntime) -> anyhow::Result<()> {
    let heap = rt.alloc();
    let mut rows = vec![in heap; order(0); 2 * LIMIT]?;
    let mut lengths = vec![in heap; 0u16; 2]?;
    let mut records = vec![in heap; Record::Keep(0); 2 * (LIMIT + 1)]?;
    let mut used = vec![in heap; 0u16; 2]?;
    println!(rt;
        "The same calls on a sheet and on a reel, for 2 cabinets and at most {LIMIT} entries each:"
    )?;
    let mut sheet = sheet::lay(&mut rows, &mut lengths, 2, LIMIT);
    let mut reel = reel::lay(&mut records, &mut used, 2, LIMIT);
    let wear = tell(rt, &mut sheet, &mut reel)?;
    print_list(rt, "sheet", &sheet, 0)?;
    print_list(rt, "reel", &reel, 0)?;
    print_list(rt, "sheet", &sheet, 1)?;
    print_list(rt, "reel", &reel, 1)?;
    let verdict = compare(&sheet, &reel);
    println!(rt; "  The lists are {verdict}.")?;
    let rewritten = wear.rewritten;
    let reckoned = wear.used;
    println!(rt;
        "  By the calls, cabinet 0's reel of 4 records was rewritten {rewritten} times and has {reckoned} in use."
    )?;
    let in_use = used.as_slice().first().copied().unwrap_or(0) as usize;
    println!(rt; "  Its memory has {in_use} in use:")?;
    if in_use <= records.len() {
        print_records(rt, &records.as_slice()[0..in_use])?;
    }
    Ok(())
}

fn large(rt: &HostRuntime) -> anyhow::Result<()> {
    let heap = rt.alloc();
    let mut rows = vec![in heap; order(0); 16 * 4000]?;
    let mut lengths = vec![in heap; 0u16; 16]?;
    let mut records = vec![in heap; Record::Keep(0); 16 * 4001]?;
    let mut used = vec![in heap; 0u16; 16]?;
    println!(rt; "A sheet and a reel for 16 cabinets and at most 4000 entries each:")?;
    let mut sheet = sheet::lay(&mut rows, &mut lengths, 16, 4000);
    let mut reel = reel::lay(&mut records, &mut used, 16, 4000);
    for count in [1000, 250] {
        fill_and_cut(rt, &mut sheet, &mut reel, count)?;
    }
    let verdict = compare(&sheet, &reel);
    println!(rt; "  The lists are {verdict}.")?;
    Ok(())
}

fn fill_and_cut<A: Journal, B: Journal>(
    rt: &HostRuntime,
    sheet: &mut A,
    reel: &mut B,
    count: u16,
) -> anyhow::Result<()> {
    let on_sheet = done(fill(sheet));
    let on_reel = done(fill(reel));
    let sheet_total = total(sheet);
    let reel_total = total(reel);
    println!(rt;
        "  fill every list: sheet: {on_sheet}, {sheet_total} entries; reel: {on_reel}, {reel_total} entries"
    )?;
    let call = Call::Append(15, 1);
    let on_sheet = Told(ask(sheet, &call));
    let on_reel = Told(ask(reel, &call));
    println!(rt; "  {call}: sheet: {on_sheet}; reel: {on_reel}")?;
    let on_sheet = done(cut(sheet, count));
    let on_reel = done(cut(reel, count));
    let sheet_total = total(sheet);
    let reel_total = total(reel);
    println!(rt;
        "  cut every list to {count}: sheet: {on_sheet}, {sheet_total} entries; reel: {on_reel}, {reel_total} entries"
    )?;
    Ok(())
}

// What the first call says of numbers and memory, and what is made in spite of a refusal.
fn memory(rt: &HostRuntime) -> anyhow::Result<()> {
    let heap = rt.alloc();
    let mut rows = vec![in heap; order(0); 8]?;
    let mut lengths = vec![in heap; 0u16; 2]?;
    println!(rt; "Memory of 8 entries and 2 lengths, lent to a sheet:")?;
    let enough = done(sheet::measure(&rows, &lengths, 2, 4));
    println!(rt; "  2 cabinets, limit 4: {enough}")?;
    let short = done(sheet::measure(&rows, &lengths, 2, 5));
    println!(rt; "  2 cabinets, limit 5: {short}")?;
    let outside = done(sheet::measure(&rows, &lengths, 2, 1));
    println!(rt; "  2 cabinets, limit 1: {outside}")?;
    let sheet = sheet::lay(&mut rows, &mut lengths, 2, 5);
    let owners = sheet.owners();
    let limit = sheet.limit();
    println!(rt; "  made in spite of a refusal: {owners} cabinets, limit {limit}")?;
    Ok(())
}

pub fn show(rt: &HostRuntime) -> anyhow::Result<()> {
    println!(rt; "JOURNALS: one list of entries for each cabinet")?;
    println!(rt; "")?;
    memory(rt)?;
    println!(rt; "")?;
    small(rt)?;
    println!(rt; "")?;
    large(rt)
}
