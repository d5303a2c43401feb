// Entries in bytes, 16 for each.
ghost use Rattle.std.specs.Prelude.{◌≡◌, map};
ghost use Rattle.entries.specs.Entries.{entries_of, entry_bytes, entry_in, place_answer};

use journal::{Entry, EntryKind};
use refusal::Refusal;

// The entry that 16 bytes spell: the blank one, which no history may hold, where they spell none. No `Option`, since
// the list that bytes spell has a blank in such a place.
pub(crate) fn entry_in(bytes: &[u8; 16]) -> Entry
    ensures { result ≡ entry_in bytes.now }
{
    let [
        e0,
        e1,
        e2,
        e3,
        kind,
        0,
        0,
        0,
        b0,
        b1,
        b2,
        b3,
        b4,
        b5,
        b6,
        b7,
    ] = *bytes
    else {
        return Entry::BLANK;
    };
    let Ok(kind) = EntryKind::try_from(kind) else {
        return Entry::BLANK;
    };
    Entry {
        epoch: u32::from_le_bytes([e0, e1, e2, e3]),
        kind,
        body: u64::from_le_bytes([b0, b1, b2, b3, b4, b5, b6, b7]),
    }
}

// The bytes of each entry; less than 16 at the end spell none.
#[tactic(auto, using(crate::proofs::Places::chunks_spell))]
pub(crate) fn parts(bytes: &[u8]) -> &[[u8; 16]]
    ensures { map entry_in result.now ≡ entries_of bytes.now }
{
    bytes.as_chunks().0
}

// The entry at a place of a message's bytes: 50 where there is none.
pub fn entry(bytes: &[u8], place: usize) -> Result<Entry, Refusal>
    ensures { result ≡ place_answer (entries_of bytes.now) place }
{
    parts(bytes)
        .get(place)
        .map(entry_in)
        .ok_or(Refusal::NoPosition)
}

// The 16 bytes of an entry.
pub fn bytes_of(entry: Entry) -> [u8; 16]
    ensures { result ≡ entry_bytes entry }
{
    let [e0, e1, e2, e3] = entry.epoch.to_le_bytes();
    let [b0, b1, b2, b3, b4, b5, b6, b7] = entry.body.to_le_bytes();
    [
        e0,
        e1,
        e2,
        e3,
        entry.kind.number(),
        0,
        0,
        0,
        b0,
        b1,
        b2,
        b3,
        b4,
        b5,
        b6,
        b7,
    ]
}
