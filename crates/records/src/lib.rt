// The records of one list, as a slice: replaying, finding, rewriting and adding.
#![tactic(auto)]

ghost use Rattle.std.specs.Prelude.{◌≡◌, ◌<◌, map, length, take};
ghost use Rattle.records.specs.Replay.{Pushed, entry_at, known_after, replay, step_length};
ghost use Rattle.records.specs.declared.Record.TheVariants.{Append};

use journal::Entry;
use refusal::Refusal;

// What was done to a list.
#[derive(Clone, Copy)]
pub enum Record {
    Append(Entry),
    // The first so many entries were kept.
    Keep(u16),
}

impl Record {
    // How long a list of `live` entries is after this record.
    fn after(self, limit: u16, live: u16) -> u16
        ensures { result ≡ step_length limit live self }
    {
        match self {
            Record::Append(_) => if live < limit { live + 1 } else { live },
            Record::Keep(count) => live.min(count),
        }
    }

    // What a list of `live` entries has at a position after this record, where it had `known` there.
    fn at_position(
        self,
        limit: u16,
        live: u16,
        position: u16,
        known: Option<Entry>,
    ) -> Option<Entry>
        ensures { result ≡ known_after limit live position known self }
    {
        match self {
            Record::Append(entry) if live == position && live < limit => Some(entry),
            Record::Keep(count) if count <= position => None,
            _ => known,
        }
    }
}

// How long the list is that the records stand for.
pub fn live(limit: u16, records: &[Record]) -> u16
    ensures { result ≡ length (replay limit records.now) }
{
    records
        .iter()
        .fold(0, |live, record| record.after(limit, live))
}

// The entry at a position of the list that the records stand for; 50 where there is none.
pub fn find(limit: u16, records: &[Record], position: u16) -> Result<Entry, Refusal>
    ensures { result ≡ entry_at (replay limit records.now) position }
{
    let mut live = 0;
    let mut found = None;
    for record in records {
        found = record.at_position(limit, live, position, found);
        live = record.after(limit, live);
    }
    found.ok_or(Refusal::NoPosition)
}

// Leaves the live entries alone at the front, and tells how many they are.
fn rewrite(limit: u16, records: &mut [Record]) -> u16
    ensures count { result ≡ length (replay limit records.old) }
    ensures front { take result records.new ≡ map Append (replay limit records.old) }
{
    let mut live = 0;
    // By index: it writes one place of the slice while it reads another, which no iterator lends, and there is no other memory.
    for i in 0..records.len() {
        let record = records[i];
        // An entry joins the live ones; a keep mark put behind them is not among them.
        records[live as usize] = record;
        live = record.after(limit, live);
    }
    live
}

// Sees to it that a record is free: rewrites where all are used, and tells how many are then in use.
fn make_room(limit: u16, records: &mut [Record], used: usize) -> usize
    requires { limit < length records.old }
    ensures free { result < length records.old }
    ensures same { replay limit (take result records.new) ≡ replay limit (take used records.old) }
{
    if used < records.len() {
        return used;
    }
    rewrite(limit, records) as usize
}

// Adds a record behind the first `used`, and tells how many are then in use; 3 where there are not limit + 1 records.
pub fn push(limit: u16, records: &mut [Record], used: usize, made: Record) -> Result<usize, Refusal>
    ensures { Pushed limit used made records.old records.new result }
{
    if records.len() <= limit as usize {
        return Err(Refusal::NoTray);
    }
    let end = make_room(limit, records, used);
    records[end] = made;
    Ok(end + 1)
}
