ghost use Rattle.std.specs.Prelude.{◌≡◌, ◌≤◌, [], ◌∷◌, if◌then◌else◌, Ok, nat_eq, nat_lt};
ghost use Rattle.journal.specs.Lists.{Relisted, owned};
ghost use Rattle.calls.specs.Stations.{found_answer, new_cabinet};
ghost use Rattle.station.specs.Calling.{Founded, parts};

use crate::checks::is_in_bounds;
use cabinet::{Cabinet, FOLLOWS};
use entries::names_members;
use journal::{Entry, Journal};
use quorum::QuorumRule;
use refusal::Refusal;

// A cabinet as a founding leaves it.
fn fresh() -> Cabinet
    ensures { result ≡ new_cabinet }
{
    Cabinet {
        promised: 0,
        accepted: 0,
        mark: 1,
        role: FOLLOWS,
        gathered: 0,
        acknowledged: [0; 16],
        running: true,
    }
}

// 1 for a part outside its bounds; 4 for members that are none, not all in the table, or no quorum of themselves.
fn check_found<J: Journal, R: QuorumRule>(
    table: &[Cabinet],
    journal: &J,
    trays: &[u8],
    rule: &R,
    members: u16,
) -> Result<(), Refusal>
    ensures { result ≡ found_answer (R.quorum rule.now) (parts J.owners J.limit J.lists table.now journal.now trays.now) members }
{
    if !is_in_bounds(table, journal, trays) {
        return Err(Refusal::OutOfBounds);
    }
    if names_members(table.len() as u8, Entry::configuration(0, members))
        && rule.is_quorum(members, members)
    {
        Ok(())
    } else {
        Err(Refusal::BadFounders)
    }
}

// The owner's list becomes the entry alone.
fn open_list<J: Journal>(journal: &mut J, owner: u16, entry: Entry) -> Result<(), Refusal>
    ensures answer { result ≡ owned (J.owners journal.old) owner (Ok tt) }
    ensures journal { Relisted J.owners J.limit J.lists journal.old journal.new (λ p. (if nat_lt owner (J.owners journal.old) then (if nat_eq p owner then entry ∷ [] else J.lists journal.old p) else J.lists journal.old p)) }
{
    journal.keep(owner, 0)?;
    journal.append(owner, entry)
}

// The lists of the first owners become the entry alone.
fn open_lists<J: Journal>(journal: &mut J, cabinets: u16, opening: Entry) -> Result<(), Refusal>
    requires { cabinets ≤ J.owners journal.old }
    ensures answer { result ≡ Ok tt }
    ensures journal { Relisted J.owners J.limit J.lists journal.old journal.new (λ p. (if nat_lt p cabinets then opening ∷ [] else J.lists journal.old p)) }
{
    for owner in 0..cabinets {
        open_list(journal, owner, opening)?;
    }
    Ok(())
}

// Opens a service: every cabinet is new, every list the founding configuration alone, every tray zero.
pub fn found<J: Journal, R: QuorumRule>(
    table: &mut [Cabinet],
    journal: &mut J,
    trays: &mut [u8],
    rule: &R,
    members: u16,
) -> Result<(u8, u16), Refusal>
    ensures { Founded (R.quorum rule.now) (parts J.owners J.limit J.lists table.old journal.old trays.old)
        (parts J.owners J.limit J.lists table.new journal.new trays.new) members result }
{
    check_found(table, journal, trays, rule, members)?;
    open_lists(
        journal,
        table.len() as u16,
        Entry::configuration(0, members),
    )?;
    table.fill(fresh());
    trays.fill(0);
    Ok((0, 0))
}
