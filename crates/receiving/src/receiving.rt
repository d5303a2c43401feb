ghost use Rattle.std.specs.Prelude.{◌≡◌, length};
ghost use Rattle.entries.specs.Histories.{codes_of};
ghost use Rattle.receiving.specs.Readiness.{Received, receive_step, tray_length};

use crate::readiness::{check_place, check_ready};
use cabinet::Cabinet;
use journal::Journal;
use orders::OrderKind;
use quorum::QuorumRule;
use reactions::hear;
use refusal::Refusal;
use writing::write_reply;

// How many bytes a tray has, for lists of at most so many entries.
pub fn tray_length(limit: u16) -> usize
    ensures { result ≡ tray_length limit }
{
    24 + 16 * limit as usize
}

// Bytes are brought to one cabinet of a table of so many, and its answer is written as a frame with zeros behind it.
// Answers 0 and the frame's length, 0 where the cabinet says nothing; then the buffer is as it was. A pair of numbers,
// not an `Option`: it is the answer that the plant's callers of other languages know.
pub fn receive<K: OrderKind, J: Journal, R: QuorumRule>(
    cabinet: &mut Cabinet,
    number: u8,
    cabinets: u8,
    journal: &mut J,
    rule: &R,
    bytes: &[u8],
    out: &mut [u8],
) -> Result<(u8, u16), Refusal>
    ensures { Received J.owners J.limit J.lists journal.old journal.new number cabinet.old cabinet.new out.old out.new result
        (receive_step (codes_of K.decode) (R.quorum rule.now) cabinets (J.owners journal.old) (J.limit journal.old) number (J.lists journal.old number) cabinet.old bytes.now (length out.old)) }
{
    check_place(cabinets, journal.owners(), number)?;
    if out.len() < tray_length(journal.limit()) {
        return Err(Refusal::NoTray);
    }
    check_ready::<K, J>(cabinets, number, cabinet, journal)?;
    let reply = hear::<K, J, R>(cabinet, number, cabinets, journal, rule, bytes)?;
    let length = write_reply(number, cabinet.promised, reply, journal, number as u16, out)?;
    Ok((0, length))
}
