// The promise of agreement: whatever calls a station gets, committed lists never disagree.
#![tactic(auto)]

ghost use Rattle.agreement.specs.Services.{Agreement};
ghost use Rattle.calls.specs.Calls.{kind_of};
ghost use Rattle.calls.specs.Stations.{station};

use cabinet::Cabinet;
use journal::Journal;
use orders::OrderKind;
use quorum::QuorumRule;

// Every service on these parts, under this kind of order and this rule, is without dispute: the contract is the
// theorem, and the call does nothing.
pub fn agreement<K: OrderKind, J: Journal, R: QuorumRule>(
    table: &[Cabinet],
    journal: &J,
    trays: &[u8],
    rule: &R,
)
    ensures { Agreement (kind_of K.proper K.encode K.decode) (R.quorum rule.now) (station table.now (J.owners journal.now) (J.limit journal.now) (J.lists journal.now) trays.now) }
{}
