// Worked values, computed by hand: tables that the proved code is run against.
#![tactic(auto)]

#[cfg(test)]
mod tests {
    use orders::{OrderKind, Sample, SetPoint};
    use quorum::{Group, Groups, Majority, QuorumRule, Share};
    use std::process::Abort;

    // An order, and its code or the number of its refusal.
    const SET_POINTS: [(SetPoint, Result<u64, u8>); 9] = [
        (
            SetPoint {
                effect: 2,
                quantity: 4,
                value: -5,
            },
            Ok(2_220_498_092_027),
        ),
        // The least and the greatest code, each with the neighbours that are refused.
        (
            SetPoint {
                effect: 1,
                quantity: 1,
                value: 0,
            },
            Ok(1_103_806_595_072),
        ),
        (
            SetPoint {
                effect: 5,
                quantity: 4,
                value: -1,
            },
            Ok(5_519_032_975_359),
        ),
        (
            SetPoint {
                effect: 0,
                quantity: 1,
                value: 0,
            },
            Err(31),
        ),
        (
            SetPoint {
                effect: 1,
                quantity: 0,
                value: 0,
            },
            Err(31),
        ),
        (
            SetPoint {
                effect: 6,
                quantity: 4,
                value: -1,
            },
            Err(31),
        ),
        (
            SetPoint {
                effect: 5,
                quantity: 5,
                value: -1,
            },
            Err(31),
        ),
        // The ends of the value.
        (
            SetPoint {
                effect: 1,
                quantity: 1,
                value: i32::MIN,
            },
            Ok(1_105_954_078_720),
        ),
        (
            SetPoint {
                effect: 1,
                quantity: 1,
                value: i32::MAX,
            },
            Ok(1_105_954_078_719),
        ),
    ];

    const SAMPLES: [(Sample, Result<u64, u8>); 6] = [
        (
            Sample {
                number: 1901,
                juice: 3,
                reading: 1425,
            },
            Ok(1_566_816_954_484_589),
        ),
        // The least and the greatest code, each with the neighbours that are refused.
        (
            Sample {
                number: 0,
                juice: 1,
                reading: 0,
            },
            Ok(4_294_967_296),
        ),
        (
            Sample {
                number: u32::MAX,
                juice: 6,
                reading: 10_000,
            },
            Ok(10_995_146_342_531_071),
        ),
        (
            Sample {
                number: 0,
                juice: 0,
                reading: 0,
            },
            Err(31),
        ),
        (
            Sample {
                number: u32::MAX,
                juice: 7,
                reading: 10_000,
            },
            Err(31),
        ),
        (
            Sample {
                number: u32::MAX,
                juice: 6,
                reading: 10_001,
            },
            Err(31),
        ),
    ];

    // Numbers that code nothing: below the least, past the greatest, and with a field out of range between.
    const NO_SET_POINTS: [u64; 5] = [
        0,
        1_103_806_595_071,
        5_519_032_975_360,
        1_099_511_627_776,
        u64::MAX,
    ];

    const NO_SAMPLES: [u64; 5] = [
        0,
        4_294_967_295,
        10_995_146_342_531_072,
        30_064_771_072,
        u64::MAX,
    ];

    // Members, a set, and whether it is a quorum of them.
    const BY_MAJORITY: [(u16, u16, bool); 7] = [
        (15, 7, true),
        (15, 3, false),
        // Cabinets outside the members do not count.
        (7, 0xfff8, false),
        (7, 0xffff, true),
        (1, 1, true),
        // More than half of no members is never reached.
        (0, 0, false),
        (0, 0xffff, false),
    ];

    const NONE: Share = Share {
        weight: 0,
        group: Group::Zero,
    };

    const LIGHT: Share = Share {
        weight: 1,
        group: Group::Zero,
    };

    const HEAVY: Share = Share {
        weight: 3,
        group: Group::Zero,
    };

    // All in one group, with weights 3, 1 and 1.
    const ONE_GROUP: Groups = Groups {
        shares: [
            HEAVY, LIGHT, LIGHT, NONE, NONE, NONE, NONE, NONE, NONE, NONE, NONE, NONE, NONE, NONE,
            NONE, NONE,
        ],
    };

    const BY_ONE_GROUP: [(u16, u16, bool); 6] = [
        (7, 1, true),
        (7, 6, false),
        (6, 6, true),
        (6, 2, false),
        // Members without weight, and no members: no group counts, so none is won.
        (8, 8, false),
        (0, 7, false),
    ];

    fn answer<T>(r: Result<T, refusal::Refusal>) -> Result<T, u8> {
        r.map_err(|refusal| refusal.number())
    }

    fn codes<K: OrderKind>(rt: &impl Abort, rows: &[(K, Result<u64, u8>)]) {
        for (order, expected) in rows {
            assert_eq!(rt; answer(order.code()), *expected);
        }
    }

    fn nothing<K: OrderKind>(rt: &impl Abort, numbers: &[u64]) {
        for n in numbers {
            assert_eq!(rt; answer(orders::recode::<K>(*n)), Err(31));
        }
    }

    fn quorums<R: QuorumRule>(rt: &impl Abort, rule: &R, rows: &[(u16, u16, bool)]) {
        for (members, set, expected) in rows {
            assert_eq!(rt; rule.is_quorum(*members, *set), *expected);
        }
    }

    #[test]
    fn tables(rt: HostRuntime) {
        codes(&rt, &SET_POINTS);
        codes(&rt, &SAMPLES);
        nothing::<SetPoint>(&rt, &NO_SET_POINTS);
        nothing::<Sample>(&rt, &NO_SAMPLES);
        quorums(&rt, &Majority, &BY_MAJORITY);
        quorums(&rt, &ONE_GROUP, &BY_ONE_GROUP);
    }
}
