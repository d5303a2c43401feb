// Which bodies and entries are without fault.
ghost use Rattle.entries.specs.Histories.{body_fits, codes_of, entry_fits, founding, names_members};
ghost use Rattle.std.specs.Prelude.{◌≡◌};

use journal::{Entry, EntryKind};
use orders::OrderKind;

// Whether a body names members and nothing else. No mask has more than 16 bits.
pub fn names_members(cabinets: u8, entry: Entry) -> bool
    ensures { result ≡ names_members cabinets entry.body }
{
    let members = entry.members();
    members as u64 == entry.body && 0 < members && (members as u32) < 1 << cabinets.min(16)
}

pub fn body_fits<K: OrderKind>(cabinets: u8, entry: Entry) -> bool
    ensures { result ≡ body_fits (codes_of K.decode) cabinets entry.kind entry.body }
{
    match entry.kind {
        EntryKind::Configuration => names_members(cabinets, entry),
        EntryKind::Order => K::from_code(entry.body).is_ok(),
    }
}

// Whether an entry may follow one of epoch `last` in a list whose epochs go up to `most`.
pub fn entry_fits<K: OrderKind>(cabinets: u8, most: u32, last: u32, entry: Entry) -> bool
    ensures { result ≡ entry_fits (codes_of K.decode) cabinets most last entry }
{
    (last..=most).contains(&entry.epoch) && body_fits::<K>(cabinets, entry)
}

pub fn is_founding(entry: Entry) -> bool
    ensures { result ≡ founding entry }
{
    entry.kind == EntryKind::Configuration && entry.epoch == 0
}
