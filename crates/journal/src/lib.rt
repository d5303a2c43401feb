// Entries, and the interface of every journal: one list of entries for each owner.
#![tactic(auto)]

ghost use Rattle.std.specs.Prelude.{◌≡◌, ℕ, List};
ghost use Rattle.journal.specs.Entries.{configuration, kind_number, kind_numbered, members_of};
ghost use Rattle.journal.specs.Lists.{Laws, Relisted, append_answer, append_lists, entry_answer, keep_answer, keep_lists, length_answer};
ghost use Rattle.journal.specs.Makes.{bounds_answer};
ghost use Rattle.journal.specs.declared.Entry.{Entry};

use refusal::Refusal;
use std::error::Error;
use std::fmt;

#[derive(Clone, Copy, Debug, PartialEq, Eq)]
pub enum EntryKind {
    Configuration = 1,
    Order = 2,
}

impl EntryKind {
    pub fn number(self) -> u8
        ensures { result ≡ kind_number self }
    {
        self as u8
    }
}

// A number that no kind of entry has.
#[derive(Clone, Copy, Debug, PartialEq, Eq)]
pub struct UnknownKind(pub u8);

impl fmt::Display for UnknownKind {
    fn fmt<W: fmt::Write>(&self, f: &mut fmt::Formatter<W>) -> fmt::Result {
        write!(f, "no kind of entry has the number {}", self.0)
    }
}

impl Error for UnknownKind {}

impl TryFrom<u8> for EntryKind {
    type Error = UnknownKind;

    ghost try_from_gives = { λ number r. r ≡ kind_numbered number };

    fn try_from(number: u8) -> Result<Self, UnknownKind> {
        match number {
            1 => Ok(EntryKind::Configuration),
            2 => Ok(EntryKind::Order),
            _ => Err(UnknownKind(number)),
        }
    }
}

#[derive(Clone, Copy, Debug, PartialEq, Eq)]
pub struct Entry {
    pub epoch: u32,
    pub kind: EntryKind,
    // A configuration's members, or an order's code.
    pub body: u64,
}

impl Entry {
    // What stands where there is no entry: its members are none, which is a fault.
    pub const BLANK: Entry = Entry {
        epoch: 0,
        kind: EntryKind::Configuration,
        body: 0,
    };

    pub fn configuration(epoch: u32, members: u16) -> Entry
        ensures { result ≡ configuration epoch members }
    {
        Entry {
            epoch,
            kind: EntryKind::Configuration,
            body: members as u64,
        }
    }

    // The one place where a configuration's members are read from its body, which may come to hold more.
    pub fn members(self) -> u16
        ensures { result ≡ members_of self.body }
    {
        (self.body % 65536) as u16
    }
}

// The most owners and the bounds of the limit of any journal.
pub const MOST_OWNERS: usize = 65535;

pub const LEAST_LIMIT: usize = 2;

pub const MOST_LIMIT: usize = 4000;

// Whether a journal can have these numbers: 1 if not.
pub fn check_bounds(owners: usize, limit: usize) -> Result<(), Refusal>
    ensures { result ≡ bounds_answer owners limit }
{
    if owners <= MOST_OWNERS && (LEAST_LIMIT..=MOST_LIMIT).contains(&limit) {
        Ok(())
    } else {
        Err(Refusal::OutOfBounds)
    }
}

// A journal is its owners' lists, the number of its owners and its limit; code above sees nothing else of it.
// A list is read by owner and position, as a slice is by its index: as a struct the two would stand behind one more
// reference in every clause, and of an iterator's items a contract tells by a relation, where these name the list.
pub trait Journal {
    ghost owners: { Self → ℕ };

    ghost limit: { Self → ℕ };

    ghost lists: { Self → ℕ → List Entry };

    fn owners(&self) -> u16
        ensures { result ≡ owners self.now };

    fn limit(&self) -> u16
        ensures { result ≡ limit self.now };

    // Refused by 2 where there is no such owner, as every call below.
    fn length(&self, owner: u16) -> Result<u16, Refusal>
        ensures { result ≡ length_answer (owners self.now) (lists self.now) owner };

    // Refused by 50 where the list has no such position.
    fn entry(&self, owner: u16, position: u16) -> Result<Entry, Refusal>
        ensures { result ≡ entry_answer (owners self.now) (lists self.now) owner position };

    // Adds the entry at the list's end; refused by 41 where the list is as long as the limit.
    fn append(&mut self, owner: u16, entry: Entry) -> Result<(), Refusal>
        ensures answer { result ≡ append_answer (owners self.old) (limit self.old) (lists self.old) owner }
        ensures journal { Relisted owners limit lists self.old self.new (append_lists (owners self.old) (limit self.old) (lists self.old) owner entry) };

    // Leaves the first `count` entries; refused by 51 where the list is shorter.
    fn keep(&mut self, owner: u16, count: u16) -> Result<(), Refusal>
        ensures answer { result ≡ keep_answer (owners self.old) (lists self.old) owner count }
        ensures journal { Relisted owners limit lists self.old self.new (keep_lists (owners self.old) (lists self.old) owner count) };

    ghost laws: { Laws owners limit lists };
}
