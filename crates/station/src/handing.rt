ghost use Rattle.std.specs.Prelude.{◌≡◌, ◌+◌, ◌*◌, ◌≤◌, ◌==◌, not, length, slice_index};
ghost use Rattle.refusal.specs.Answers.{unless};
ghost use Rattle.refusal.specs.declared.Refusal.TheVariants.{EmptyTray};
ghost use Rattle.receiving.specs.Readiness.{tray_length};
ghost use Rattle.entries.specs.Histories.{codes_of};
ghost use Rattle.calls.specs.Calls.{hand_call};
ghost use Rattle.station.specs.Acting.{handed, part};
ghost use Rattle.station.specs.Calling.{Ended, parts};

use crate::checks::{check_named, check_tray};
use crate::trays::say;
use cabinet::Cabinet;
use journal::Journal;
use orders::OrderKind;
use quorum::QuorumRule;
use reactions::hear;
use receiving::{check_ready, tray_length};
use refusal::Refusal;

// 5 for an empty tray: its first byte is 0.
fn check_filled<J: Journal>(journal: &J, trays: &[u8], tray: u8) -> Result<(), Refusal>
    requires { tray * tray_length (J.limit journal.now) + tray_length (J.limit journal.now) ≤ length trays.now }
    ensures { result ≡ unless (not (slice_index (part (tray_length (J.limit journal.now)) tray trays.now) 0 == 0)) EmptyTray }
{
    if trays[tray as usize * tray_length(journal.limit())] == 0 {
        Err(Refusal::EmptyTray)
    } else {
        Ok(())
    }
}

// The checks of a hand: 1, 2, 3 for either tray, 5 for an empty one, 6, 8.
fn check_hand<K: OrderKind, J: Journal>(
    table: &[Cabinet],
    journal: &J,
    trays: &[u8],
    from: u8,
    cabinet: u8,
    to: u8,
) -> Result<(), Refusal>
    ensures { result ≡ handed (codes_of K.decode) (parts J.owners J.limit J.lists table.now journal.now trays.now) from cabinet to }
{
    check_named(table, journal, trays, cabinet)?;
    check_tray(table, journal, trays, from)?;
    check_tray(table, journal, trays, to)?;
    check_filled(journal, trays, from)?;
    check_ready::<K, J>(
        table.len() as u8,
        cabinet,
        &table[cabinet as usize],
        journal,
    )
}

// Gives a tray's frame to a cabinet, whose answer goes into another tray or the same.
pub fn hand<K: OrderKind, J: Journal, R: QuorumRule>(
    table: &mut [Cabinet],
    journal: &mut J,
    trays: &mut [u8],
    rule: &R,
    from: u8,
    cabinet: u8,
    to: u8,
) -> Result<(u8, u16), Refusal>
    ensures { Ended (parts J.owners J.limit J.lists table.old journal.old trays.old)
        (parts J.owners J.limit J.lists table.new journal.new trays.new) cabinet to result
        (λ s. hand_call (codes_of K.decode) (R.quorum rule.now) s from cabinet to) }
{
    check_hand::<K, J>(table, journal, trays, from, cabinet, to)?;
    let cabinets = table.len() as u8;
    let size = tray_length(journal.limit());
    let at = from as usize * size;
    let bytes = &trays[at..at + size];
    let hearer = &mut table[cabinet as usize];
    let reply = hear::<K, J, R>(hearer, cabinet, cabinets, journal, rule, bytes)?;
    say(hearer.promised, journal, trays, cabinet, to, reply)
}
