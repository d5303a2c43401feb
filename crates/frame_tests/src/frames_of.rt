// One sound frame of each kind, and the reader's answer as a number: 0 for a message.
use frames::read;
use orders::SetPoint;

pub const CANDIDATE: [u8; 24] = [
    1, 1, 0, 0, 17, 0, 0, 0, 2, 0, 0, 0, 3, 0, 0, 0, 24, 0, 0, 0, 0, 0, 0, 0,
];

pub const PROMISE: [u8; 24] = [
    2, 2, 0, 0, 17, 0, 0, 0, 0, 0, 0, 0, 0, 0, 0, 0, 24, 0, 0, 0, 0, 0, 0, 0,
];

pub const HISTORY: [u8; 56] = [
    3, 1, 2, 0, 17, 0, 0, 0, 1, 0, 0, 0, 0, 0, 0, 0, 56, 0, 0, 0, 0, 0, 0, 0, 0, 0, 0, 0, 1, 0, 0,
    0, 7, 0, 0, 0, 0, 0, 0, 0, 17, 0, 0, 0, 2, 0, 0, 0, 251, 255, 255, 255, 4, 2, 0, 0,
];

pub const ENTRY: [u8; 40] = [
    4, 1, 1, 0, 17, 0, 0, 0, 1, 0, 0, 0, 2, 0, 0, 0, 40, 0, 0, 0, 0, 0, 0, 0, 17, 0, 0, 0, 2, 0, 0,
    0, 251, 255, 255, 255, 4, 2, 0, 0,
];

pub const ACKNOWLEDGE: [u8; 24] = [
    5, 2, 0, 0, 17, 0, 0, 0, 2, 0, 0, 0, 0, 0, 0, 0, 24, 0, 0, 0, 0, 0, 0, 0,
];

pub const COMMIT: [u8; 24] = [
    6, 1, 0, 0, 17, 0, 0, 0, 2, 0, 0, 0, 0, 0, 0, 0, 24, 0, 0, 0, 0, 0, 0, 0,
];

pub fn answer(bytes: &[u8]) -> u8 {
    answer_for(3, 5, bytes)
}

pub fn answer_for(cabinets: u8, limit: u16, bytes: &[u8]) -> u8 {
    match read::<SetPoint>(cabinets, limit, bytes) {
        Ok(_) => 0,
        Err(refusal) => refusal.number(),
    }
}

fn copied(frame: &[u8]) -> [u8; 64] {
    let mut room = [0; 64];
    let n = frame.len().min(64);
    room[0..n].copy_from_slice(&frame[0..n]);
    room
}

fn front(room: [u8; 64], n: usize) -> u8 {
    if n > 64 {
        return 255;
    }
    answer(&room[0..n])
}

// The answer where one byte is another.
pub fn with(frame: &[u8], at: usize, to: u8) -> u8 {
    with_two(frame, at, to, at, to)
}

// The answer where two bytes are others.
pub fn with_two(frame: &[u8], at: usize, to: u8, also: usize, then: u8) -> u8 {
    let mut room = copied(frame);
    if at >= 64 || also >= 64 {
        return 255;
    }
    room[at] = to;
    room[also] = then;
    front(room, frame.len())
}
