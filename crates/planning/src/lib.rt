// Planning a change of members: which sets of cabinets could carry it, under any quorum rule.
#![tactic(auto)]

ghost use Rattle.std.specs.Prelude.{◌≡◌, ℕ, true, is_some, Decides, MatchOption};
ghost use Rattle.quorum.specs.Sets.{has};
ghost use Rattle.planning.specs.Changes.{carried, spared, lowest, Least, Shared, FirstShared};

use quorum::{QuorumRule, contains};

// A change from the old members to the new, as masks.
#[derive(Clone, Copy)]
pub struct Change {
    pub old: u16,
    pub new: u16,
}

impl Change {
    // Whether the change commits once the cabinets of the set hold it.
    pub fn is_carried<R: QuorumRule>(self, rule: &R, set: u16) -> bool
        ensures { result ≡ carried (R.quorum rule.now) self set }
    {
        rule.is_quorum(self.old, set) && rule.is_quorum(self.new, set)
    }

    // Whether the set carries the change and can spare no cabinet.
    pub fn is_least<R: QuorumRule>(self, rule: &R, set: u16) -> bool
        ensures { Decides result (Least (R.quorum rule.now) self set) }
    {
        self.is_carried(rule, set) && self.spare(rule, set).is_none()
    }

    // The lowest cabinet of the set without which it still carries the change.
    fn spare<R: QuorumRule>(self, rule: &R, set: u16) -> Option<u8>
        ensures { result ≡ lowest (spared (R.quorum rule.now) self set) }
    {
        (0..16u8).find(|i| contains(set, *i) && self.is_carried(rule, set & !(1 << *i)))
    }
}

// The lowest cabinet of a set.
fn lowest_of(set: u16) -> Option<u8>
    ensures { result ≡ lowest (has set) }
{
    (0..16u8).find(|i| contains(set, *i))
}

// The lowest member that is in both sets. Two quorums always have one.
pub fn shared<R: QuorumRule>(rule: &R, members: u16, a: u16, b: u16) -> Option<u8>
    ensures found { MatchOption result ((i : ℕ) → Shared members a b i → ⊥) (λ i. FirstShared members a b i) }
    ensures quorums { R.quorum rule.now members a ≡ true → R.quorum rule.now members b ≡ true → is_some result ≡ true }
{
    lowest_of(members & a & b)
}
