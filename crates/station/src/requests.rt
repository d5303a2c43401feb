ghost use Rattle.entries.specs.Histories.{codes_of};
ghost use Rattle.calls.specs.Calls.{stand_call, submit_call, change_call, refresh_call, kind_of};
ghost use Rattle.station.specs.Calling.{Ended, parts};

use crate::Act;
use crate::acting::perform;
use cabinet::Cabinet;
use journal::Journal;
use orders::OrderKind;
use quorum::QuorumRule;
use refusal::Refusal;

// A cabinet stands for the next epoch of its own.
pub fn stand<K: OrderKind, J: Journal, R: QuorumRule>(
    table: &mut [Cabinet],
    journal: &mut J,
    trays: &mut [u8],
    rule: &R,
    cabinet: u8,
    tray: u8,
) -> Result<(u8, u16), Refusal>
    ensures { Ended (parts J.owners J.limit J.lists table.old journal.old trays.old)
        (parts J.owners J.limit J.lists table.new journal.new trays.new) cabinet tray result
        (λ s. stand_call (codes_of K.decode) (R.quorum rule.now) s cabinet tray) }
{
    let act = Act::Stand;
    perform::<K, J, R>(table, journal, trays, rule, cabinet, tray, &act)
}

// A leader enters an order.
pub fn submit<K: OrderKind, J: Journal, R: QuorumRule>(
    table: &mut [Cabinet],
    journal: &mut J,
    trays: &mut [u8],
    rule: &R,
    cabinet: u8,
    order: K,
    tray: u8,
) -> Result<(u8, u16), Refusal>
    ensures { Ended (parts J.owners J.limit J.lists table.old journal.old trays.old)
        (parts J.owners J.limit J.lists table.new journal.new trays.new) cabinet tray result
        (λ s. submit_call (kind_of K.proper K.encode K.decode) (R.quorum rule.now) s cabinet order tray) }
{
    let act = Act::Submit(order);
    perform::<K, J, R>(table, journal, trays, rule, cabinet, tray, &act)
}

// A leader changes the members, by the version that it is to follow.
pub fn change<K: OrderKind, J: Journal, R: QuorumRule>(
    table: &mut [Cabinet],
    journal: &mut J,
    trays: &mut [u8],
    rule: &R,
    cabinet: u8,
    version: u32,
    members: u16,
    tray: u8,
) -> Result<(u8, u16), Refusal>
    ensures { Ended (parts J.owners J.limit J.lists table.old journal.old trays.old)
        (parts J.owners J.limit J.lists table.new journal.new trays.new) cabinet tray result
        (λ s. change_call (codes_of K.decode) (R.quorum rule.now) s cabinet version members tray) }
{
    let act = Act::Change { version, members };
    perform::<K, J, R>(table, journal, trays, rule, cabinet, tray, &act)
}

// A leader writes its history again.
pub fn refresh<K: OrderKind, J: Journal, R: QuorumRule>(
    table: &mut [Cabinet],
    journal: &mut J,
    trays: &mut [u8],
    rule: &R,
    cabinet: u8,
    tray: u8,
) -> Result<(u8, u16), Refusal>
    ensures { Ended (parts J.owners J.limit J.lists table.old journal.old trays.old)
        (parts J.owners J.limit J.lists table.new journal.new trays.new) cabinet tray result
        (λ s. refresh_call (codes_of K.decode) s cabinet tray) }
{
    let act = Act::Refresh;
    perform::<K, J, R>(table, journal, trays, rule, cabinet, tray, &act)
}
