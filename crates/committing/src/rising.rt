ghost use Rattle.std.specs.Prelude.{◌≡◌};
ghost use Rattle.cabinet.specs.Records.{Changed, after};
ghost use Rattle.configurations.specs.Configurations.{front_answer};
ghost use Rattle.committing.specs.Committing.{reached, rest_at, commit_answer, elected, win_answer};

use crate::Rest;
use cabinet::Cabinet;
use configurations::{commits, elects, members_after, members_before};
use journal::Journal;
use quorum::{QuorumRule, contains};
use refusal::Refusal;

// How far the acknowledged lengths carry the mark. Each entry is read once.
pub fn rise<J: Journal, R: QuorumRule>(
    cabinet: &Cabinet,
    owner: u16,
    journal: &J,
    rule: &R,
) -> Result<Rest, Refusal>
    ensures { result ≡ front_answer (J.owners journal.now) (J.lists journal.now) owner cabinet.now.mark (rest_at (J.lists journal.now owner) (reached (R.quorum rule.now) (J.lists journal.now owner) cabinet.now)) }
{
    let count = journal.length(owner)?;
    let mut members = members_before(journal, owner, cabinet.mark)?;
    for mark in cabinet.mark..count {
        let entry = journal.entry(owner, mark)?;
        if !commits(rule, members, entry, cabinet.holders(mark)) {
            return Ok(Rest { mark, members });
        }
        members = members_after(entry, members);
    }
    Ok(Rest {
        mark: count,
        members,
    })
}

// Raises the mark as far as it goes; where it has moved, a leader outside the last committed configuration then follows.
pub fn commit<J: Journal, R: QuorumRule>(
    cabinet: &mut Cabinet,
    number: u8,
    journal: &J,
    rule: &R,
) -> Result<(), Refusal>
    ensures { Changed cabinet.old cabinet.new result
        (commit_answer (J.owners journal.now) (J.lists journal.now) (R.quorum rule.now) number cabinet.old) }
{
    let rest = rise(cabinet, number as u16, journal, rule)?;
    let moved = cabinet.mark < rest.mark;
    cabinet.mark = rest.mark;
    if moved && !contains(rest.members, number) {
        cabinet.follow();
    }
    Ok(())
}

// Wins where the gathered set is a quorum of every configuration in play, and tells whether it does.
pub fn win<J: Journal, R: QuorumRule>(
    cabinet: &mut Cabinet,
    number: u8,
    journal: &J,
    rule: &R,
) -> Result<bool, Refusal>
    ensures answer { result ≡ front_answer (J.owners journal.now) (J.lists journal.now) number cabinet.old.mark (elected (R.quorum rule.now) (J.lists journal.now number) cabinet.old) }
    ensures record { cabinet.new ≡ after cabinet.old (win_answer (J.owners journal.now) (J.lists journal.now) (R.quorum rule.now) number cabinet.old) }
{
    if !elects(journal, number as u16, cabinet.mark, rule, cabinet.gathered)? {
        return Ok(false);
    }
    let length = journal.length(number as u16)?;
    cabinet.lead(number, length);
    commit(cabinet, number, journal, rule)?;
    Ok(true)
}
