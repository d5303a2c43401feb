ghost use Rattle.std.specs.Prelude.{◌≡◌, ◌*◌, ◌<◌, ◌≤◌, if◌then◌else◌, count_by, nat_lt};
ghost use Rattle.quorum.specs.Sets.{count};
ghost use Rattle.quorum.specs.GroupRule.{group_number, counts, won, by_groups};
ghost use Rattle.quorum.specs.Passing.{standings, weights_in};
ghost use Rattle.quorum.specs.Lawful.{groups_members_count, groups_grow, groups_share_member};

use crate::{Group, Groups, QuorumRule, Share, contains};

// Of one group: the members' weight, and the weight of those members that are in the set.
#[derive(Clone, Copy)]
struct Standing {
    whole: u16,
    part: u16,
}

impl Standing {
    // Whether the members have weight.
    fn counts(self) -> bool
        ensures { result ≡ nat_lt 0 self.whole }
    {
        0 < self.whole
    }

    // Whether the set has more than half of it.
    fn is_won(self) -> bool
        ensures { result ≡ nat_lt self.whole (2 * self.part) }
    {
        (self.whole as u32) < 2 * self.part as u32
    }
}

impl Group {
    fn number(self) -> usize
        ensures number { result ≡ group_number self }
        ensures few { result < 4 }
    {
        self as usize
    }
}

impl Share {
    // Its weight, where it is picked.
    fn weight_if(self, picked: bool) -> u16
        ensures weight { result ≡ (if picked then self.weight else 0) }
        ensures small { result ≤ 255 }
    {
        if picked { self.weight as u16 } else { 0 }
    }
}

// In how many groups the members have weight.
fn counting(standings: &[Standing]) -> usize
    ensures { result ≡ count_by (λ s. nat_lt 0 s.whole) standings.now }
{
    standings
        .iter()
        .filter(|standing| standing.counts())
        .count()
}

// How many groups the set wins.
fn won(standings: &[Standing]) -> usize
    ensures { result ≡ count_by (λ s. nat_lt s.whole (2 * s.part)) standings.now }
{
    standings
        .iter()
        .filter(|standing| standing.is_won())
        .count()
}

impl Groups {
    // The weight of a set's cabinets in each group. One pass over the shares.
    fn weights(&self, set: u16) -> [u16; 4]
        ensures { result ≡ weights_in self.now set 16 }
    {
        let mut weights = [0; 4];
        for (i, share) in self.shares.iter().enumerate() {
            weights[share.group.number()] += share.weight_if(contains(set, i as u8));
        }
        weights
    }

    // How a set of the members stands in each group.
    fn standings(&self, members: u16, set: u16) -> [Standing; 4]
        ensures { result ≡ standings self.now members set }
    {
        let whole = self.weights(members);
        let part = self.weights(set & members);
        [
            Standing {
                whole: whole[0],
                part: part[0],
            },
            Standing {
                whole: whole[1],
                part: part[1],
            },
            Standing {
                whole: whole[2],
                part: part[2],
            },
            Standing {
                whole: whole[3],
                part: part[3],
            },
        ]
    }

    // In how many groups the members have weight, and how many of them the set wins.
    fn groups_won(&self, members: u16, set: u16) -> (usize, usize)
        ensures { (result.0 ≡ count 4 (counts self.now members)) × (result.1 ≡ count 4 (won self.now members set)) × (result.1 ≤ 4) }
    {
        let standings = self.standings(members, set);
        (counting(&standings), won(&standings))
    }
}

impl QuorumRule for Groups {
    ghost quorum = { by_groups };

    ghost members_count = { groups_members_count };

    ghost grows = { groups_grow };

    ghost share_member = { groups_share_member };

    fn is_quorum(&self, members: u16, set: u16) -> bool {
        let (counting, won) = self.groups_won(members, set);
        counting < 2 * won
    }
}
