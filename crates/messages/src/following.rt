ghost use Rattle.std.specs.Prelude.{◌≡◌};
ghost use Rattle.cabinet.specs.Steps.{SteppedOver, Stepped};
ghost use Rattle.messages.specs.Messages.{told_mark, commit_step, entry_step};

use cabinet::{Cabinet, Reply};
use journal::{Entry, Journal};
use refusal::Refusal;

// Takes the mark that a letter tells, cut to the list's length, where it is the larger one.
fn take_mark(cabinet: &mut Cabinet, length: u16, mark: u32)
    ensures { cabinet.new ≡ told_mark length mark cabinet.old }
{
    let told = mark.min(length as u32) as u16;
    cabinet.mark = cabinet.mark.max(told);
}

// Takes the leader's mark.
pub fn take_commit<J: Journal>(
    cabinet: &mut Cabinet,
    number: u8,
    journal: &J,
    mark: u32,
) -> Result<Reply, Refusal>
    ensures { Stepped J.owners J.lists journal.now number cabinet.old cabinet.new result
        (commit_step (J.lists journal.now number) cabinet.old mark) }
{
    let length = cabinet.list_length(number, journal)?;
    take_mark(cabinet, length, mark);
    Ok(Reply::Nothing)
}

// Appends the leader's entry at the list's end, or ignores one that lies before it; takes the mark and acknowledges.
pub fn take_entry<J: Journal>(
    cabinet: &mut Cabinet,
    number: u8,
    journal: &mut J,
    position: u32,
    mark: u32,
    entry: Entry,
) -> Result<Reply, Refusal>
    ensures { SteppedOver J.owners J.limit J.lists journal.old journal.new number cabinet.old cabinet.new result
        (entry_step (J.limit journal.old) (J.lists journal.old number) cabinet.old position mark entry) }
{
    let length = cabinet.list_length(number, journal)?;
    if position < length as u32 {
        take_mark(cabinet, length, mark);
        return Ok(Reply::Acknowledge { length });
    }
    if position > length as u32 {
        return Err(Refusal::Gap);
    }
    journal.append(number as u16, entry)?;
    take_mark(cabinet, length + 1, mark);
    Ok(Reply::Acknowledge { length: length + 1 })
}
