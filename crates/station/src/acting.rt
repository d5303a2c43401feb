ghost use Rattle.entries.specs.Histories.{codes_of};
ghost use Rattle.calls.specs.Stations.{cabinets, cabinet_at};
ghost use Rattle.calls.specs.Calls.{acting, kind_of};
ghost use Rattle.station.specs.Acting.{act_step};
ghost use Rattle.cabinet.specs.Steps.{SteppedOver};
ghost use Rattle.station.specs.Calling.{Ended, parts};

use crate::Act;
use crate::checks::check_call;
use crate::trays::say;
use cabinet::{Cabinet, Reply};
use journal::Journal;
use orders::OrderKind;
use quorum::QuorumRule;
use refusal::Refusal;

// Does one of the acts, for one cabinet of a table of so many.
fn act<K: OrderKind, J: Journal, R: QuorumRule>(
    cabinet: &mut Cabinet,
    number: u8,
    cabinets: u8,
    journal: &mut J,
    rule: &R,
    act: &Act<K>,
) -> Result<Reply, Refusal>
    ensures { SteppedOver J.owners J.limit J.lists journal.old journal.new number cabinet.old cabinet.new result
        (act_step (kind_of K.proper K.encode K.decode) (R.quorum rule.now) (J.limit journal.old) cabinets number (J.lists journal.old number) cabinet.old act.now) }
{
    match *act {
        Act::Stand => acts::stand(cabinet, number, journal, rule),
        Act::Submit(order) => acts::submit(cabinet, number, journal, rule, order),
        Act::Change { version, members } => acts::change(
            cabinet, number, journal, rule, cabinets, version, members,
        ),
        Act::Refresh => acts::refresh(cabinet, number, journal),
    }
}

// A cabinet of the table acts, and what it says goes into a tray.
pub(crate) fn perform<K: OrderKind, J: Journal, R: QuorumRule>(
    table: &mut [Cabinet],
    journal: &mut J,
    trays: &mut [u8],
    rule: &R,
    number: u8,
    tray: u8,
    step: &Act<K>,
) -> Result<(u8, u16), Refusal>
    ensures { Ended (parts J.owners J.limit J.lists table.old journal.old trays.old)
        (parts J.owners J.limit J.lists table.new journal.new trays.new) number tray result
        (λ s. acting (codes_of K.decode) s number tray (act_step (kind_of K.proper K.encode K.decode) (R.quorum rule.now) s.limit (cabinets s) number (s.lists number) (cabinet_at s number) step.now)) }
{
    check_call::<K, J>(table, journal, trays, number, tray)?;
    let cabinets = table.len() as u8;
    let cabinet = &mut table[number as usize];
    let reply = act::<K, J, R>(cabinet, number, cabinets, journal, rule, step)?;
    say(cabinet.promised, journal, trays, number, tray, reply)
}
