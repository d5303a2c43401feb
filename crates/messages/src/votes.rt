ghost use Rattle.cabinet.specs.Steps.{Stepped};
ghost use Rattle.messages.specs.Messages.{candidate_step, promise_step, acknowledge_step};

use cabinet::{Cabinet, Reply};
use committing::{commit, win};
use journal::Journal;
use quorum::QuorumRule;
use refusal::Refusal;

// Answers a candidate by a promise, unless the cabinet's own list is later.
pub fn take_candidate<J: Journal>(
    cabinet: &mut Cabinet,
    number: u8,
    journal: &J,
    epoch: u32,
    accepted: u32,
    length: u32,
) -> Result<Reply, Refusal>
    ensures { Stepped J.owners J.lists journal.now number cabinet.old cabinet.new result
        (candidate_step (J.lists journal.now number) cabinet.old epoch accepted length) }
{
    let own = cabinet.list_length(number, journal)? as u32;
    if (accepted, length) < (cabinet.accepted, own) {
        return Err(Refusal::VoterAhead);
    }
    cabinet.promise(epoch);
    Ok(Reply::Promise)
}

// Gathers the sender's promise, and wins where that suffices.
pub fn take_promise<J: Journal, R: QuorumRule>(
    cabinet: &mut Cabinet,
    number: u8,
    journal: &J,
    rule: &R,
    sender: u8,
) -> Result<Reply, Refusal>
    ensures { Stepped J.owners J.lists journal.now number cabinet.old cabinet.new result
        (promise_step (R.quorum rule.now) number (J.lists journal.now number) cabinet.old sender) }
{
    cabinet.list_length(number, journal)?;
    cabinet.gather(sender);
    if win(cabinet, number, journal, rule)? {
        return Ok(Reply::History { mark: cabinet.mark });
    }
    Ok(Reply::Nothing)
}

// Keeps the sender's length, commits, and says so where the mark moved.
pub fn take_acknowledge<J: Journal, R: QuorumRule>(
    cabinet: &mut Cabinet,
    number: u8,
    journal: &J,
    rule: &R,
    sender: u8,
    length: u32,
) -> Result<Reply, Refusal>
    ensures { Stepped J.owners J.lists journal.now number cabinet.old cabinet.new result
        (acknowledge_step (R.quorum rule.now) number (J.lists journal.now number) cabinet.old sender length) }
{
    let most = cabinet.list_length(number, journal)?;
    if length > most as u32 {
        return Err(Refusal::TooMuchAcknowledged);
    }
    let before = cabinet.mark;
    cabinet.raise(sender, length as u16);
    commit(cabinet, number, journal, rule)?;
    if before < cabinet.mark {
        return Ok(Reply::Commit { mark: cabinet.mark });
    }
    Ok(Reply::Nothing)
}
