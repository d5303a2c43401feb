// Lists of entries that a history may hold, in bytes and in a journal.
ghost use Rattle.entries.specs.Entries.{entries_of, entry_in};
ghost use Rattle.entries.specs.Histories.{codes_of, faultless};
ghost use Rattle.journal.specs.Lists.{owned};
ghost use Rattle.journal.specs.declared.Entry.{Entry};
ghost use Rattle.std.specs.Prelude.{◌≡◌, List, [], ◌∷◌, MatchOption, Ok, drop, map};

use crate::rules::{entry_fits, is_founding};
use crate::spelling::{entry_in, parts};
use journal::{Entry, Journal};
use orders::OrderKind;
use refusal::Refusal;

// Entries that are taken one by one, from the first. An `Iterator` would tell of them by a relation, not by a list.
trait InOrder {
    ghost rest: { Self → List Entry };

    fn take_first(&mut self) -> Option<Entry>
        ensures { MatchOption result (rest self.old ≡ []) (λ e. rest self.old ≡ e ∷ rest self.new) };
}

// Those that bytes spell.
#[derive(Drop)]
struct Spelled<'a>(&'a [[u8; 16]]);

impl InOrder for Spelled<'_> {
    ghost rest = { λ s. map entry_in s.0.now };

    fn take_first(&mut self) -> Option<Entry> {
        self.0.split_off_first().map(entry_in)
    }
}

// Those of an owner's list from a position on; none where there is no such owner.
#[derive(Drop)]
struct Listed<'a, J> {
    journal: &'a J,
    owner: u16,
    position: u16,
}

impl<J: Journal> InOrder for Listed<'_, J> {
    ghost rest = { λ s. drop s.position (J.lists s.journal.now s.owner) };

    fn take_first(&mut self) -> Option<Entry> {
        let entry = self.journal.entry(self.owner, self.position).ok()?;
        self.position += 1;
        Some(entry)
    }
}

// Whether entries are without fault, none of them above the epoch `most`.
fn are_faultless<K: OrderKind, E: InOrder + Drop>(cabinets: u8, most: u32, mut entries: E) -> bool
    ensures { result ≡ faultless (codes_of K.decode) cabinets most (E.rest entries) }
{
    let Some(first) = entries.take_first() else {
        return false;
    };
    if !(is_founding(first) && entry_fits::<K>(cabinets, most, 0, first)) {
        return false;
    }
    let mut last = first.epoch;
    while let Some(entry) = entries.take_first() {
        if !entry_fits::<K>(cabinets, most, last, entry) {
            return false;
        }
        last = entry.epoch;
    }
    true
}

// Whether the entries that bytes spell are without fault, none of them above the epoch `most`.
pub fn is_faultless<K: OrderKind>(cabinets: u8, most: u32, bytes: &[u8]) -> bool
    ensures { result ≡ faultless (codes_of K.decode) cabinets most (entries_of bytes.now) }
{
    are_faultless::<K, _>(cabinets, most, Spelled(parts(bytes)))
}

// The same of an owner's list in a journal: 2 where there is no such owner.
pub fn is_list_faultless<K: OrderKind, J: Journal>(
    cabinets: u8,
    most: u32,
    journal: &J,
    owner: u16,
) -> Result<bool, Refusal>
    ensures { result ≡ owned (J.owners journal.now) owner (Ok (faultless (codes_of K.decode) cabinets most (J.lists journal.now owner))) }
{
    // An empty list is not asked for its first entry, which would cost a reel one more pass.
    if journal.length(owner)? == 0 {
        return Ok(false);
    }
    let list = Listed {
        journal,
        owner,
        position: 0,
    };
    Ok(are_faultless::<K, _>(cabinets, most, list))
}
