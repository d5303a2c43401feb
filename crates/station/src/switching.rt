ghost use Rattle.calls.specs.Calls.{stop_call, start_call};
ghost use Rattle.station.specs.Calling.{Ended, parts};

use crate::checks::check_named;
use cabinet::Cabinet;
use journal::Journal;
use refusal::Refusal;

// A cabinet stops, and loses its role, the set it gathered and the lengths it knows.
pub fn stop<J: Journal>(
    table: &mut [Cabinet],
    journal: &J,
    trays: &[u8],
    cabinet: u8,
) -> Result<(u8, u16), Refusal>
    ensures { Ended (parts J.owners J.limit J.lists table.old journal.now trays.now)
        (parts J.owners J.limit J.lists table.new journal.now trays.now) cabinet 0 result
        (λ s. stop_call s cabinet) }
{
    check_named(table, journal, trays, cabinet)?;
    table[cabinet as usize].stop()?;
    Ok((0, 0))
}

// A stopped cabinet starts again.
pub fn start<J: Journal>(
    table: &mut [Cabinet],
    journal: &J,
    trays: &[u8],
    cabinet: u8,
) -> Result<(u8, u16), Refusal>
    ensures { Ended (parts J.owners J.limit J.lists table.old journal.now trays.now)
        (parts J.owners J.limit J.lists table.new journal.now trays.now) cabinet 0 result
        (λ s. start_call s cabinet) }
{
    check_named(table, journal, trays, cabinet)?;
    table[cabinet as usize].start()?;
    Ok((0, 0))
}
