ghost use Rattle.std.specs.Prelude.{◌≡◌};
ghost use Rattle.orders.specs.Kinds.{code_answer};
ghost use Rattle.cabinet.specs.Steps.{SteppedOver, listed};
ghost use Rattle.acts.specs.Acts.{enter_step, submit_step, change_checks, change_step};

use crate::standing::check_leading;
use cabinet::{Cabinet, Reply};
use committing::commit;
use configurations::last_before;
use entries::names_members;
use journal::{Entry, EntryKind, Journal};
use orders::OrderKind;
use quorum::QuorumRule;
use refusal::Refusal;

// Enters an entry at the end of the leader's list.
fn enter<J: Journal, R: QuorumRule>(
    cabinet: &mut Cabinet,
    number: u8,
    journal: &mut J,
    rule: &R,
    entry: Entry,
) -> Result<Reply, Refusal>
    ensures { SteppedOver J.owners J.limit J.lists journal.old journal.new number cabinet.old cabinet.new result
        (enter_step (R.quorum rule.now) (J.limit journal.old) number (J.lists journal.old number) cabinet.old entry) }
{
    let position = cabinet.list_length(number, journal)?;
    journal.append(number as u16, entry)?;
    cabinet.raise(number, position + 1);
    commit(cabinet, number, journal, rule)?;
    Ok(Reply::Entry {
        position,
        mark: cabinet.mark,
    })
}

// Submits an order: refused by 30 where the cabinet does not lead, by 31 where the order is not proper, by 41 where the list is full.
pub fn submit<K: OrderKind, J: Journal, R: QuorumRule>(
    cabinet: &mut Cabinet,
    number: u8,
    journal: &mut J,
    rule: &R,
    order: K,
) -> Result<Reply, Refusal>
    ensures { SteppedOver J.owners J.limit J.lists journal.old journal.new number cabinet.old cabinet.new result
        (submit_step (R.quorum rule.now) (J.limit journal.old) number (J.lists journal.old number) cabinet.old (code_answer (K.proper order) (K.encode order))) }
{
    cabinet.list_length(number, journal)?;
    check_leading(cabinet)?;
    let body = order.code()?;
    let epoch = cabinet.promised;
    let kind = EntryKind::Order;
    enter(cabinet, number, journal, rule, Entry { epoch, kind, body })
}

// Whether the members may be changed, in a table of so many cabinets: 32 to 35.
fn check_change<J: Journal, R: QuorumRule>(
    cabinet: &Cabinet,
    number: u8,
    journal: &J,
    rule: &R,
    cabinets: u8,
    version: u32,
    members: u16,
) -> Result<(), Refusal>
    ensures { result ≡ listed (J.owners journal.now) (J.lists journal.now) number cabinet.now (change_checks (R.quorum rule.now) cabinets (J.lists journal.now number) cabinet.now version members) }
{
    let length = cabinet.list_length(number, journal)?;
    if version != configurations::version(journal, number as u16)? as u32 {
        return Err(Refusal::WrongVersion);
    }
    if last_before(journal, number as u16, length)? >= cabinet.mark {
        return Err(Refusal::ChangePending);
    }
    if !names_members(cabinets, Entry::configuration(cabinet.promised, members)) {
        return Err(Refusal::BadMembers);
    }
    if !rule.is_quorum(members, cabinet.holders(cabinet.mark.saturating_sub(1))) {
        return Err(Refusal::MembersBehind);
    }
    Ok(())
}

// Changes the members, for a table of so many cabinets: refused by 30 where the cabinet does not lead, by 32 to 35, by 41.
pub fn change<J: Journal, R: QuorumRule>(
    cabinet: &mut Cabinet,
    number: u8,
    journal: &mut J,
    rule: &R,
    cabinets: u8,
    version: u32,
    members: u16,
) -> Result<Reply, Refusal>
    ensures { SteppedOver J.owners J.limit J.lists journal.old journal.new number cabinet.old cabinet.new result
        (change_step (R.quorum rule.now) (J.limit journal.old) cabinets number (J.lists journal.old number) cabinet.old version members) }
{
    cabinet.list_length(number, journal)?;
    check_leading(cabinet)?;
    check_change(cabinet, number, journal, rule, cabinets, version, members)?;
    let entry = Entry::configuration(cabinet.promised, members);
    enter(cabinet, number, journal, rule, entry)
}
