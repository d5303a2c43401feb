ghost use Rattle.std.specs.Prelude.{◌≡◌, slice_index_or};
ghost use Rattle.journal.specs.Entries.{blank};
ghost use Rattle.entries.specs.Entries.{entries_of};
ghost use Rattle.entries.specs.Histories.{codes_of};
ghost use Rattle.frames.specs.Reading.{letter, said};
ghost use Rattle.cabinet.specs.Steps.{SteppedOver};
ghost use Rattle.reactions.specs.Reactions.{content_step, react, hear_step};

use crate::letters::check_letter;
use cabinet::{Cabinet, Reply};
use entries::entry;
use frames::{Frame, Message, read};
use journal::{Entry, Journal};
use messages::{
    take_acknowledge, take_candidate, take_commit, take_entry, take_history, take_promise,
};
use orders::OrderKind;
use quorum::QuorumRule;
use refusal::Refusal;

// The first entry that bytes spell; a blank one where they spell none, as no frame's do: the reader has seen to it.
fn first_entry(bytes: &[u8]) -> Entry
    ensures { result ≡ slice_index_or (entries_of bytes.now) 0 blank }
{
    entry(bytes, 0).unwrap_or(Entry::BLANK)
}

// Takes the content of a frame that is for the cabinet.
fn take<J: Journal, R: QuorumRule>(
    cabinet: &mut Cabinet,
    number: u8,
    journal: &mut J,
    rule: &R,
    frame: &Frame<'_>,
) -> Result<Reply, Refusal>
    ensures { SteppedOver J.owners J.limit J.lists journal.old journal.new number cabinet.old cabinet.new result
        (content_step (R.quorum rule.now) (J.limit journal.old) number (J.lists journal.old number) cabinet.old frame.now.sender frame.now.epoch (said frame.now.message)) }
{
    let epoch = frame.epoch;
    match frame.message {
        Message::Candidate { accepted, length } => take_candidate(
            cabinet, number, journal, epoch, accepted, length,
        ),
        Message::Promise => take_promise(cabinet, number, journal, rule, frame.sender),
        Message::History { mark, entries } => take_history(
            cabinet, number, journal, epoch, mark, entries,
        ),
        Message::Entry {
            position,
            mark,
            entry,
        } => take_entry(cabinet, number, journal, position, mark, first_entry(entry)),
        Message::Acknowledge { length } => take_acknowledge(
            cabinet,
            number,
            journal,
            rule,
            frame.sender,
            length,
        ),
        Message::Commit { mark } => take_commit(cabinet, number, journal, mark),
    }
}

// Does what a frame says, where it is one for the cabinet.
fn react<J: Journal, R: QuorumRule>(
    cabinet: &mut Cabinet,
    number: u8,
    journal: &mut J,
    rule: &R,
    frame: &Frame<'_>,
) -> Result<Reply, Refusal>
    ensures { SteppedOver J.owners J.limit J.lists journal.old journal.new number cabinet.old cabinet.new result
        (react (R.quorum rule.now) (J.limit journal.old) number (J.lists journal.old number) cabinet.old (letter frame.now)) }
{
    cabinet.list_length(number, journal)?;
    check_letter(cabinet, number, frame)?;
    take(cabinet, number, journal, rule, frame)
}

// Reads bytes as a frame, in a table of so many cabinets, and does what it says.
pub fn hear<K: OrderKind, J: Journal, R: QuorumRule>(
    cabinet: &mut Cabinet,
    number: u8,
    cabinets: u8,
    journal: &mut J,
    rule: &R,
    bytes: &[u8],
) -> Result<Reply, Refusal>
    ensures { SteppedOver J.owners J.limit J.lists journal.old journal.new number cabinet.old cabinet.new result
        (hear_step (codes_of K.decode) (R.quorum rule.now) cabinets (J.limit journal.old) number (J.lists journal.old number) cabinet.old bytes.now) }
{
    cabinet.list_length(number, journal)?;
    let frame = read::<K>(cabinets, journal.limit(), bytes)?;
    react(cabinet, number, journal, rule, &frame)
}
