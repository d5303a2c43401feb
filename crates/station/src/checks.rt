ghost use Rattle.std.specs.Prelude.{◌≡◌};
ghost use Rattle.entries.specs.Histories.{codes_of};
ghost use Rattle.calls.specs.Stations.{in_bounds, named, has_tray};
ghost use Rattle.station.specs.Acting.{called};
ghost use Rattle.station.specs.Calling.{parts};

use cabinet::Cabinet;
use journal::Journal;
use orders::OrderKind;
use receiving::{check_ready, tray_length};
use refusal::Refusal;

// Whether every part is within its bounds.
pub(crate) fn is_in_bounds<J: Journal>(table: &[Cabinet], journal: &J, trays: &[u8]) -> bool
    ensures { result ≡ in_bounds (parts J.owners J.limit J.lists table.now journal.now trays.now) }
{
    let limit = journal.limit();
    let size = tray_length(limit);
    (1..=16).contains(&table.len())
        && table.len() <= journal.owners() as usize
        && (2..=4000).contains(&limit)
        && trays.len() % size == 0
        && (1..=64).contains(&(trays.len() / size))
}

// 1 for a part outside its bounds, 2 for a cabinet that is not in the table.
pub(crate) fn check_named<J: Journal>(
    table: &[Cabinet],
    journal: &J,
    trays: &[u8],
    number: u8,
) -> Result<(), Refusal>
    ensures { result ≡ named (parts J.owners J.limit J.lists table.now journal.now trays.now) number }
{
    if !is_in_bounds(table, journal, trays) {
        return Err(Refusal::OutOfBounds);
    }
    if (number as usize) < table.len() {
        Ok(())
    } else {
        Err(Refusal::NoCabinet)
    }
}

// 3 for a tray that there is not.
pub(crate) fn check_tray<J: Journal>(
    table: &[Cabinet],
    journal: &J,
    trays: &[u8],
    tray: u8,
) -> Result<(), Refusal>
    ensures { result ≡ has_tray (parts J.owners J.limit J.lists table.now journal.now trays.now) tray }
{
    if (tray as usize) < trays.len() / tray_length(journal.limit()) {
        Ok(())
    } else {
        Err(Refusal::NoTray)
    }
}

// The checks of a call that may write into a tray: 1, 2, 3, 6, 8.
pub(crate) fn check_call<K: OrderKind, J: Journal>(
    table: &[Cabinet],
    journal: &J,
    trays: &[u8],
    number: u8,
    tray: u8,
) -> Result<(), Refusal>
    ensures { result ≡ called (codes_of K.decode) (parts J.owners J.limit J.lists table.now journal.now trays.now) number tray }
{
    check_named(table, journal, trays, number)?;
    check_tray(table, journal, trays, tray)?;
    check_ready::<K, J>(table.len() as u8, number, &table[number as usize], journal)
}
