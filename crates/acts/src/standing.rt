ghost use Rattle.std.specs.Prelude.{◌≡◌};
ghost use Rattle.cabinet.specs.Steps.{Stepped, listed, said_by};
ghost use Rattle.acts.specs.Acts.{leading, stand_step, refresh_step};

use cabinet::{Cabinet, LEADS, Reply, next_epoch};
use committing::win;
use configurations::in_play;
use journal::Journal;
use quorum::QuorumRule;
use refusal::Refusal;

// Stands at the next epoch of its own, and wins at once where it needs nobody else.
pub fn stand<J: Journal, R: QuorumRule>(
    cabinet: &mut Cabinet,
    number: u8,
    journal: &J,
    rule: &R,
) -> Result<Reply, Refusal>
    ensures { Stepped J.owners J.lists journal.now number cabinet.old cabinet.new result
        (stand_step (R.quorum rule.now) number (J.lists journal.now number) cabinet.old) }
{
    let length = cabinet.list_length(number, journal)?;
    if !in_play(journal, number as u16, cabinet.mark, number)? {
        return Err(Refusal::NotInPlay);
    }
    let epoch = next_epoch(cabinet.promised, number)?;
    cabinet.stand(number, epoch);
    if win(cabinet, number, journal, rule)? {
        return Ok(Reply::History { mark: cabinet.mark });
    }
    Ok(Reply::Candidate {
        accepted: cabinet.accepted,
        length,
    })
}

// 30 where the cabinet does not lead.
pub(crate) fn check_leading(cabinet: &Cabinet) -> Result<(), Refusal>
    ensures { result ≡ leading cabinet.now }
{
    if cabinet.role == LEADS {
        Ok(())
    } else {
        Err(Refusal::NotLeading)
    }
}

// Says its whole list again.
pub fn refresh<J: Journal>(cabinet: &Cabinet, number: u8, journal: &J) -> Result<Reply, Refusal>
    ensures { result ≡ said_by (listed (J.owners journal.now) (J.lists journal.now) number cabinet.now (refresh_step (J.lists journal.now number) cabinet.now)) }
{
    cabinet.list_length(number, journal)?;
    check_leading(cabinet)?;
    Ok(Reply::History { mark: cabinet.mark })
}
