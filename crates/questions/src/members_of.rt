ghost use Rattle.std.specs.Prelude.{◌≡◌, ◌≤◌, length, take, drop};
ghost use Rattle.entries.specs.Histories.{codes_of};
ghost use Rattle.quorum.specs.MajorityRule.{size_of};
ghost use Rattle.questions.specs.Questions.{Listed, Roster, committed_members, roster_answer};

use crate::readiness::check;
use cabinet::Cabinet;
use configurations::members_before;
use journal::Journal;
use orders::OrderKind;
use quorum::{contains, size};
use refusal::Refusal;

// Writes the members at the list's front.
fn enroll(members: u16, list: &mut [u8])
    requires { size_of members ≤ length list.old }
    ensures front { Roster members (take (size_of members) list.new) }
    ensures rest { drop (size_of members) list.new ≡ drop (size_of members) list.old }
{
    // Counted by hand: of places lent by `iter_mut`, the loop's invariant cannot say what is already written.
    let mut next = 0;
    for cabinet in 0..16u8 {
        if !contains(members, cabinet) {
            continue;
        }
        list[next] = cabinet;
        next += 1;
    }
}

// The last committed members, each once, at the list's front; answers how many there are.
// Refused by 51 where the list is too short, and then left as it was; behind the members it always is.
pub fn roster<K: OrderKind, J: Journal>(
    cabinets: u8,
    number: u8,
    cabinet: &Cabinet,
    journal: &J,
    list: &mut [u8],
) -> Result<u8, Refusal>
    ensures { Listed (committed_members (J.lists journal.now number) cabinet.now) list.old list.new result
        (roster_answer (codes_of K.decode) cabinets (J.owners journal.now) (J.limit journal.now) number (J.lists journal.now number) cabinet.now (length list.old)) }
{
    check::<K, J>(cabinets, number, cabinet, journal)?;
    let members = members_before(journal, number as u16, cabinet.mark)?;
    let size = size(members) as u8;
    if list.len() < size as usize {
        return Err(Refusal::ListShort);
    }
    enroll(members, list);
    Ok(size)
}
