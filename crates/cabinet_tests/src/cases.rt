// Four cabinets' table, the second one's list, and its record, good and spoilt.
use cabinet::Cabinet;
use journal::{Entry, EntryKind, Journal};
use refusal::Refusal;

// An order that is proper of both kinds, and one that is a sample only.
pub const EITHER: u64 = 2_220_498_092_027;

pub const SAMPLE: u64 = 10_995_142_047_563_783;

// Three entries of the list are committed; the fourth changes the members, and is not.
pub const GOOD: Cabinet = Cabinet {
    promised: 17,
    accepted: 17,
    mark: 3,
    role: 2,
    gathered: 0,
    acknowledged: [4, 4, 0, 0, 0, 0, 0, 0, 0, 0, 0, 0, 0, 0, 0, 0],
    running: true,
};

const STOPPED: Cabinet = Cabinet {
    running: false,
    ..GOOD
};

// Cabinets in the table, the cabinet asked, its record, and the refusal.
pub const REFUSED: [(u8, u8, Cabinet, u8); 15] = [
    (0, 1, GOOD, 1),
    (17, 1, GOOD, 1),
    (5, 1, GOOD, 1),
    (4, 4, GOOD, 2),
    (4, 255, GOOD, 2),
    (4, 1, STOPPED, 6),
    (4, 1, Cabinet { mark: 0, ..STOPPED }, 6),
    (4, 1, Cabinet { mark: 0, ..GOOD }, 8),
    (4, 1, Cabinet { mark: 5, ..GOOD }, 8),
    // The list's last entry is of epoch 17.
    (
        4,
        1,
        Cabinet {
            role: 0,
            accepted: 16,
            ..GOOD
        },
        8,
    ),
    (
        4,
        1,
        Cabinet {
            promised: 16,
            ..GOOD
        },
        8,
    ),
    // A leader at another cabinet's epoch, and no role.
    (
        4,
        1,
        Cabinet {
            promised: 18,
            accepted: 18,
            ..GOOD
        },
        8,
    ),
    (4, 1, Cabinet { role: 3, ..GOOD }, 8),
    // More is acknowledged than there is.
    (
        4,
        1,
        Cabinet {
            acknowledged: [5; 16],
            ..GOOD
        },
        8,
    ),
    // The list names a fourth cabinet.
    (3, 1, GOOD, 8),
];

// Appends the list for cabinet 1.
pub fn fill<J: Journal>(journal: &mut J, order: u64) -> Result<(), Refusal> {
    journal.append(
        1,
        Entry {
            body: 0b0111,
            ..Entry::BLANK
        },
    )?;
    journal.append(
        1,
        Entry {
            epoch: 1,
            kind: EntryKind::Order,
            body: order,
        },
    )?;
    journal.append(
        1,
        Entry {
            epoch: 1,
            body: 0b1101,
            ..Entry::BLANK
        },
    )?;
    journal.append(
        1,
        Entry {
            epoch: 17,
            body: 0b0011,
            ..Entry::BLANK
        },
    )
}
