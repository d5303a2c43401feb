ghost use Rattle.std.specs.Prelude.{◌≡◌, ℕ, ◌-◌, Bool, length, Ok};
ghost use Rattle.journal.specs.Lists.{owned};
ghost use Rattle.entries.specs.Histories.{is_configuration};
ghost use Rattle.configurations.specs.Tests.{Computes};
ghost use Rattle.configurations.specs.Configurations.{last_before, members_after, members_before, commits_entry, version_before, each_from, each_in_play, elects as elects_by, in_play, front_answer};

use journal::{Entry, EntryKind, Journal};
use quorum::{QuorumRule, contains};
use refusal::Refusal;

// Whether an entry names members.
fn is_configuration(entry: Entry) -> bool
    ensures { result ≡ is_configuration entry.kind }
{
    entry.kind == EntryKind::Configuration
}

// The members after an entry, given those before it.
pub fn members_after(entry: Entry, before: u16) -> u16
    ensures { result ≡ members_after entry before }
{
    match entry.kind {
        EntryKind::Configuration => entry.members(),
        EntryKind::Order => before,
    }
}

// Whether a set commits an entry: a quorum of the members before it, and of its own where it is a configuration.
pub fn commits<R: QuorumRule>(rule: &R, before: u16, entry: Entry, set: u16) -> bool
    ensures { result ≡ commits_entry (R.quorum rule.now) before entry set }
{
    rule.is_quorum(before, set)
        && (!is_configuration(entry) || rule.is_quorum(entry.members(), set))
}

// Where the last configuration among the first `count` entries stands. One pass over them.
// The passes stay loops: as one fold, each would owe a closure's clause besides its invariant.
pub fn last_before<J: Journal>(journal: &J, owner: u16, count: u16) -> Result<u16, Refusal>
    ensures { result ≡ front_answer (J.owners journal.now) (J.lists journal.now) owner count (last_before (J.lists journal.now owner) count) }
{
    if count > journal.length(owner)? {
        return Err(Refusal::NoPosition);
    }
    let mut last = 0;
    for p in 0..count {
        let entry = journal.entry(owner, p)?;
        if is_configuration(entry) {
            last = p;
        }
    }
    Ok(last)
}

// The members by the last configuration among the first `count` entries. One pass over them.
pub fn members_before<J: Journal>(journal: &J, owner: u16, count: u16) -> Result<u16, Refusal>
    ensures { result ≡ front_answer (J.owners journal.now) (J.lists journal.now) owner count (members_before (J.lists journal.now owner) count) }
{
    if count > journal.length(owner)? {
        return Err(Refusal::NoPosition);
    }
    let mut members = 0;
    for p in 0..count {
        let entry = journal.entry(owner, p)?;
        members = members_after(entry, members);
    }
    Ok(members)
}

// The version of the last configuration: how many there are. One pass over the list.
pub fn version<J: Journal>(journal: &J, owner: u16) -> Result<u16, Refusal>
    ensures { result ≡ owned (J.owners journal.now) owner (Ok (version_before (J.lists journal.now owner) (length (J.lists journal.now owner)))) }
{
    let count = journal.length(owner)?;
    let mut version: u16 = 0;
    for p in 0..count {
        let entry = journal.entry(owner, p)?;
        if is_configuration(entry) {
            version += 1;
        }
    }
    Ok(version)
}

// Whether the test holds of the members of every configuration from a position on. Each entry is read once.
fn each_from<J: Journal, F: Fn(u16) -> bool>(
    journal: &J,
    owner: u16,
    from: u16,
    test: &F,
) -> Result<bool, Refusal>
    requires { F.IsAlwaysCallable test.now }
    ensures { (holds : ℕ → Bool) → Computes F.Fn test.now holds
        → result ≡ owned (J.owners journal.now) owner (Ok (each_from holds (J.lists journal.now owner) from (length (J.lists journal.now owner) - from))) }
{
    for p in from..journal.length(owner)? {
        let entry = journal.entry(owner, p)?;
        if is_configuration(entry) && !test(entry.members()) {
            return Ok(false);
        }
    }
    Ok(true)
}

// Whether the test holds of the members of every configuration in play at a mark.
fn each_in_play<J: Journal, F: Fn(u16) -> bool>(
    journal: &J,
    owner: u16,
    mark: u16,
    test: &F,
) -> Result<bool, Refusal>
    requires { F.IsAlwaysCallable test.now }
    ensures { (holds : ℕ → Bool) → Computes F.Fn test.now holds
        → result ≡ front_answer (J.owners journal.now) (J.lists journal.now) owner mark (each_in_play holds (J.lists journal.now owner) mark) }
{
    let from = last_before(journal, owner, mark)?;
    each_from(journal, owner, from, test)
}

// Whether the set is a quorum of every configuration in play at a mark.
pub fn elects<J: Journal, R: QuorumRule>(
    journal: &J,
    owner: u16,
    mark: u16,
    rule: &R,
    set: u16,
) -> Result<bool, Refusal>
    ensures { result ≡ front_answer (J.owners journal.now) (J.lists journal.now) owner mark (elects_by (R.quorum rule.now) (J.lists journal.now owner) mark set) }
{
    let elects = |members| rule.is_quorum(members, set);
    each_in_play(journal, owner, mark, &elects)
}

// Whether the cabinet is in a configuration in play at a mark.
pub fn in_play<J: Journal>(journal: &J, owner: u16, mark: u16, cabinet: u8) -> Result<bool, Refusal>
    ensures { result ≡ front_answer (J.owners journal.now) (J.lists journal.now) owner mark (in_play (J.lists journal.now owner) mark cabinet) }
{
    let lacks = |members| !contains(members, cabinet);
    Ok(!each_in_play(journal, owner, mark, &lacks)?)
}
