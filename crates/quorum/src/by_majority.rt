ghost use Rattle.quorum.specs.MajorityRule.{majority};
ghost use Rattle.quorum.specs.Lawful.{majority_members_count, majority_grows, majority_share_member};

use crate::{Majority, QuorumRule, size};

impl QuorumRule for Majority {
    ghost quorum = { λ _. majority };

    ghost members_count = { λ _. majority_members_count };

    ghost grows = { λ _. majority_grows };

    ghost share_member = { λ _. majority_share_member };

    fn is_quorum(&self, members: u16, set: u16) -> bool {
        size(members) < 2 * size(set & members)
    }
}
