// A history written from an owner's list in a journal.
ghost use Rattle.std.specs.Prelude.{◌≡◌, length, Ok};
ghost use Rattle.entries.specs.Entries.{entries_bytes};
ghost use Rattle.entries.specs.Histories.{codes_of};
ghost use Rattle.refusal.specs.Answers.{and_then};
ghost use Rattle.frames.specs.Letters.{fields_of};
ghost use Rattle.writing.specs.Writing.{history_answer, history_of, written};

use crate::buffers::{Layout, Part, put};
use crate::writer::{bare, check_room};
use entries::{bytes_of, is_list_faultless};
use frames::{Fields, FrameKind, check_bounds, check_count, check_fields};
use journal::Journal;
use orders::OrderKind;
use refusal::Refusal;

// An owner's list, as what lies behind a history's header.
#[derive(Drop)]
pub(crate) struct ListPart<'a, J> {
    pub(crate) journal: &'a J,
    pub(crate) owner: u16,
}

impl<J: Journal> Part for ListPart<'_, J> {
    ghost bytes = { λ s. entries_bytes (J.lists s.journal.now s.owner) };

    fn put_part(&self, out: &mut [u8]) {
        for position in 0..self.journal.length(self.owner).unwrap_or(0) {
            if let Ok(entry) = self.journal.entry(self.owner, position) {
                put(out, 24 + 16 * position as usize, &bytes_of(entry));
            }
        }
    }
}

// The fields of the history's frame, once nothing speaks against it.
fn check_history<K: OrderKind, J: Journal>(
    cabinets: u8,
    sender: u8,
    epoch: u32,
    mark: u32,
    journal: &J,
    owner: u16,
    room: usize,
) -> Result<Fields, Refusal>
    ensures { result ≡ and_then (history_answer (codes_of K.decode) cabinets (J.limit journal.now) (J.owners journal.now) owner room (history_of sender epoch mark (J.lists journal.now owner))) (λ _. Ok (fields_of (history_of sender epoch mark (J.lists journal.now owner)))) }
{
    let limit = journal.limit();
    check_bounds(cabinets, limit)?;
    let count = journal.length(owner)? as usize;
    let fields = Fields {
        kind: FrameKind::History,
        count,
        first: mark,
        ..bare(sender, epoch)
    };
    check_room(room, &fields)?;
    check_count(limit, &fields)?;
    check_fields(cabinets, limit, &fields)?;
    if !is_list_faultless::<K, J>(cabinets, epoch, journal, owner)? {
        return Err(Refusal::FrameField);
    }
    Ok(fields)
}

// An owner's whole list as a history, straight from the journal into the caller's buffer.
// Refused as any message is, and by 2 where there is no such owner; a refused call leaves the buffer as it was.
pub fn write_history<K: OrderKind, J: Journal>(
    cabinets: u8,
    sender: u8,
    epoch: u32,
    mark: u32,
    journal: &J,
    owner: u16,
    out: &mut [u8],
) -> Result<u16, Refusal>
    ensures answer { result ≡ history_answer (codes_of K.decode) cabinets (J.limit journal.now) (J.owners journal.now) owner (length out.old) (history_of sender epoch mark (J.lists journal.now owner)) }
    ensures buffer { out.new ≡ written out.old (history_of sender epoch mark (J.lists journal.now owner)) (history_answer (codes_of K.decode) cabinets (J.limit journal.now) (J.owners journal.now) owner (length out.old) (history_of sender epoch mark (J.lists journal.now owner))) }
{
    let fields = check_history::<K, J>(cabinets, sender, epoch, mark, journal, owner, out.len())?;
    let part = ListPart { journal, owner };
    Ok(Layout { fields, part }.put(out))
}
