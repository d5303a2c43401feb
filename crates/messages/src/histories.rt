ghost use Rattle.std.specs.Prelude.{◌≡◌, ◌<◌, ◌≤◌, length, Ok};
ghost use Rattle.entries.specs.Entries.{entries_of};
ghost use Rattle.cabinet.specs.Steps.{SteppedOver, listed};
ghost use Rattle.messages.specs.Messages.{same_front, keeps_committed, accepts, adopt_step, history_step};

use cabinet::{Cabinet, Reply};
use entries::{entry, replace};
use journal::{Entry, Journal};
use refusal::Refusal;

// How many entries the bytes of a history spell.
fn count_of(entries: &[u8]) -> usize
    ensures { result ≡ length (entries_of entries.now) }
{
    entries.len() / 16
}

// Whether the first entries of the owner's list are those of a history.
fn is_same_front<J: Journal>(
    journal: &J,
    owner: u16,
    entries: &[u8],
    count: u16,
) -> Result<bool, Refusal>
    requires owner { owner < J.owners journal.now }
    requires list { count ≤ length (J.lists journal.now owner) }
    requires history { count ≤ length (entries_of entries.now) }
    ensures { result ≡ Ok (same_front (J.lists journal.now owner) (entries_of entries.now) count) }
{
    for k in 0..count {
        let own = journal.entry(owner, k)?;
        let new = entry(entries, k as usize)?;
        if own != new {
            return Ok(false);
        }
    }
    Ok(true)
}

// Whether a history has all that the cabinet knows to be committed.
fn keeps_committed<J: Journal>(
    cabinet: &Cabinet,
    number: u8,
    journal: &J,
    entries: &[u8],
) -> Result<bool, Refusal>
    ensures { result ≡ listed (J.owners journal.now) (J.lists journal.now) number cabinet.now (Ok (keeps_committed (J.lists journal.now number) cabinet.now (entries_of entries.now))) }
{
    cabinet.list_length(number, journal)?;
    if count_of(entries) < cabinet.mark as usize {
        return Ok(false);
    }
    is_same_front(journal, number as u16, entries, cabinet.mark)
}

// Accepts the epoch of a history, takes its mark where that is the larger one, and follows.
fn accept(cabinet: &mut Cabinet, epoch: u32, mark: u16)
    ensures { cabinet.new ≡ accepts epoch mark cabinet.old }
{
    cabinet.promise(epoch);
    cabinet.accepted = epoch;
    cabinet.mark = cabinet.mark.max(mark);
}

// A history becomes the list: 41 for more than the limit, 42 where it alters or drops what is committed.
fn adopt<J: Journal>(
    cabinet: &mut Cabinet,
    number: u8,
    journal: &mut J,
    epoch: u32,
    mark: u32,
    entries: &[u8],
) -> Result<Reply, Refusal>
    requires { mark ≤ length (entries_of entries.now) }
    ensures { SteppedOver J.owners J.limit J.lists journal.old journal.new number cabinet.old cabinet.new result
        (adopt_step (J.limit journal.old) (J.lists journal.old number) cabinet.old epoch mark (entries_of entries.now)) }
{
    cabinet.list_length(number, journal)?;
    let count = count_of(entries);
    if count > journal.limit() as usize {
        return Err(Refusal::Full);
    }
    if !keeps_committed(cabinet, number, journal, entries)? {
        return Err(Refusal::CommittedAltered);
    }
    replace(journal, number as u16, entries)?;
    accept(cabinet, epoch, mark as u16);
    Ok(Reply::Acknowledge {
        length: count as u16,
    })
}

// Takes over a history where it is of a later epoch or longer, accepts its epoch either way, and acknowledges.
pub fn take_history<J: Journal>(
    cabinet: &mut Cabinet,
    number: u8,
    journal: &mut J,
    epoch: u32,
    mark: u32,
    entries: &[u8],
) -> Result<Reply, Refusal>
    ensures { SteppedOver J.owners J.limit J.lists journal.old journal.new number cabinet.old cabinet.new result
        (history_step (J.limit journal.old) (J.lists journal.old number) cabinet.old epoch mark (entries_of entries.now)) }
{
    let length = cabinet.list_length(number, journal)?;
    let count = count_of(entries);
    if mark as usize > count {
        return Err(Refusal::FrameField);
    }
    if cabinet.accepted < epoch || (length as usize) < count {
        return adopt(cabinet, number, journal, epoch, mark, entries);
    }
    accept(cabinet, epoch, mark as u16);
    Ok(Reply::Acknowledge { length })
}
