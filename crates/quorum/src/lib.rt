// Quorum rules: the interface, and the two rules of the plant.
#![tactic(auto)]

mod by_groups;
mod by_majority;

ghost use Rattle.std.specs.Prelude.{◌≡◌, ℕ, ◌≤◌, Bool};
ghost use Rattle.quorum.specs.Sets.{has};
ghost use Rattle.quorum.specs.MajorityRule.{size_of};
ghost use Rattle.quorum.specs.Rules.{MembersCount, Grows, ShareMember};

// Whether a cabinet is in a set.
pub fn contains(set: u16, cabinet: u8) -> bool
    ensures { result ≡ has set cabinet }
{
    cabinet < 16 && (set >> cabinet) % 2 == 1
}

// How many cabinets are in a set.
pub fn size(set: u16) -> u32
    ensures size { result ≡ size_of set }
    ensures few { result ≤ 16 }
{
    set.count_ones()
}

// Says which sets of cabinets are quorums of a member set. Sets are masks: cabinet i is the bit worth 2^i.
pub trait QuorumRule {
    // For a rule and a member set, whether a set is a quorum of the members.
    ghost quorum: { Self → ℕ → ℕ → Bool };

    fn is_quorum(&self, members: u16, set: u16) -> bool
        ensures { result ≡ quorum self.now members set };

    ghost members_count: { (rule : Self) → MembersCount (quorum rule) };

    ghost grows: { (rule : Self) → Grows (quorum rule) };

    ghost share_member: { (rule : Self) → ShareMember (quorum rule) (quorum rule) };
}

// A quorum is more than half of the members.
#[derive(Clone, Copy)]
pub struct Majority;

// One of the four groups that cabinets are put into.
#[derive(Clone, Copy, PartialEq, Eq)]
pub enum Group {
    Zero,
    One,
    Two,
    Three,
}

// What a cabinet counts for: its weight, in its group.
#[derive(Clone, Copy)]
pub struct Share {
    pub weight: u8,
    pub group: Group,
}

// Each cabinet has a share; a quorum wins more than half of the groups in which the members have weight, each by
// more than half of the members' weight there.
#[derive(Clone, Copy)]
pub struct Groups {
    pub shares: [Share; 16],
}
