// Every byte of a history with all its bits turned over, against a table written before.
use crate::frames_of::*;

const ANSWERS: [u8; 56] = [
    // Kind, sender, count.
    11, 13, 12, 12,
    // Epoch: a higher one of the same cabinet cannot be told from it.
    13, 0, 0, 0,
    // Mark, second number.
    13, 13, 13, 13, 13, 13, 13, 13,
    // Length, zeros.
    10, 10, 12, 12, 12, 12, 12, 12,
    // The configuration: epoch, kind, zeros, members.
    13, 13, 13, 13, 13, 13, 13, 13, 13, 13, 13, 13, 13, 13, 13, 13,
    // The order: epoch, kind, zeros.
    13, 13, 13, 13, 13, 13, 13, 13,
    // Its code: another value is another set point.
    0, 0, 0, 0, 13, 13, 13, 13,
];

#[test]
fn every_byte_of_a_history(rt: HostRuntime) {
    for at in 0..56 {
        assert_eq!(rt; with(&HISTORY, at, 255 - HISTORY[at]), ANSWERS[at]);
    }
}
