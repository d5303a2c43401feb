// One frame for each reason of a refusal, refused for it alone. A history or an entry frame without entries cannot be:
// its mark or its entry is out of range too.
use crate::frames_of::*;

#[test]
fn one_bounds(rt: HostRuntime) {
    assert_eq!(rt; answer_for(0, 5, &CANDIDATE), 1);
    assert_eq!(rt; answer_for(17, 5, &CANDIDATE), 1);
    assert_eq!(rt; answer_for(3, 1, &PROMISE), 1);
    assert_eq!(rt; answer_for(3, 4001, &CANDIDATE), 1);
}

#[test]
fn ten_short(rt: HostRuntime) {
    assert_eq!(rt; answer(&[]), 10);
    assert_eq!(rt; answer(&CANDIDATE[0..23]), 10);
    assert_eq!(rt; answer(&HISTORY[0..55]), 10);
}

#[test]
fn eleven_kind(rt: HostRuntime) {
    assert_eq!(rt; with(&CANDIDATE, 0, 0), 11);
    assert_eq!(rt; with(&CANDIDATE, 0, 7), 11);
}

#[test]
fn twelve_count(rt: HostRuntime) {
    assert_eq!(rt; with(&ENTRY, 0, 1), 12, "a candidate with an entry");
    assert_eq!(rt;
        with_two(&ENTRY, 0, 5, 12, 0),
        12,
        "an acknowledge with an entry"
    );
    assert_eq!(rt; with_two(&ENTRY, 0, 6, 12, 0), 12, "a commit with an entry");
    assert_eq!(rt; with(&CANDIDATE, 0, 3), 12, "a history of none");
    assert_eq!(rt; with(&CANDIDATE, 0, 4), 12, "an entry frame of none");
    assert_eq!(rt;
        answer_for(3, 2, &HISTORY),
        0,
        "a history as long as the limit"
    );
}

#[test]
fn twelve_entry_frame_of_two(rt: HostRuntime) {
    let mut two = [0; 56];
    two[0..40].copy_from_slice(&ENTRY);
    two[40..56].copy_from_slice(&ENTRY[24..40]);
    two[2] = 2;
    two[16] = 56;
    assert_eq!(rt; answer(&two), 12);
}

#[test]
fn twelve_promise_with_an_entry(rt: HostRuntime) {
    let mut promise = [0; 40];
    promise[0..24].copy_from_slice(&PROMISE);
    promise[24..40].copy_from_slice(&ENTRY[24..40]);
    promise[2] = 1;
    promise[16] = 40;
    assert_eq!(rt; answer(&promise), 12);
}

#[test]
fn twelve_history_longer_than_the_limit(rt: HostRuntime) {
    let mut long = [0; 72];
    long[0..56].copy_from_slice(&HISTORY);
    long[56..72].copy_from_slice(&HISTORY[40..56]);
    long[2] = 3;
    long[16] = 72;
    assert_eq!(rt; answer_for(3, 3, &long), 0);
    assert_eq!(rt; answer_for(3, 2, &long), 12);
}

#[test]
fn twelve_length_and_zeros(rt: HostRuntime) {
    assert_eq!(rt; with(&CANDIDATE, 16, 23), 12);
    assert_eq!(rt; with(&ENTRY, 16, 39), 12);
    for at in 18..24 {
        assert_eq!(rt; with(&CANDIDATE, at, 1), 12);
    }
}

#[test]
fn thirteen_sender_and_epoch(rt: HostRuntime) {
    assert_eq!(rt; with(&PROMISE, 1, 3), 13, "a sender that is no cabinet");
    assert_eq!(rt; with(&PROMISE, 4, 19), 13, "an owner that is no cabinet");
    assert_eq!(rt; with(&PROMISE, 4, 0), 13, "epoch 0");
    assert_eq!(rt;
        with(&CANDIDATE, 1, 0),
        13,
        "a candidate that is not the owner"
    );
    assert_eq!(rt; with(&HISTORY, 1, 0), 13);
    assert_eq!(rt; with(&ENTRY, 1, 0), 13);
    assert_eq!(rt; with(&COMMIT, 1, 0), 13);
}

#[test]
fn thirteen_numbers(rt: HostRuntime) {
    assert_eq!(rt;
        with(&CANDIDATE, 8, 17),
        13,
        "accepted as high as the epoch"
    );
    assert_eq!(rt; with(&CANDIDATE, 12, 0), 13);
    assert_eq!(rt; with(&CANDIDATE, 12, 6), 13, "longer than the limit");
    assert_eq!(rt; with(&PROMISE, 8, 1), 13);
    assert_eq!(rt; with(&PROMISE, 12, 1), 13);
    assert_eq!(rt; with(&HISTORY, 8, 0), 13);
    assert_eq!(rt; with(&HISTORY, 8, 3), 13, "a mark past the history");
    assert_eq!(rt; with(&HISTORY, 12, 1), 13);
    assert_eq!(rt; with_two(&ENTRY, 8, 0, 12, 1), 13, "position 0");
    assert_eq!(rt; with(&ENTRY, 8, 5), 13, "position J");
    assert_eq!(rt; with(&ENTRY, 12, 0), 13);
    assert_eq!(rt; with(&ENTRY, 12, 3), 13, "a mark past the entry");
}

#[test]
fn thirteen_numbers_of_replies(rt: HostRuntime) {
    assert_eq!(rt; with(&ACKNOWLEDGE, 8, 0), 13);
    assert_eq!(rt; with(&ACKNOWLEDGE, 8, 6), 13);
    assert_eq!(rt; with(&ACKNOWLEDGE, 12, 1), 13);
    assert_eq!(rt; with(&COMMIT, 8, 0), 13);
    assert_eq!(rt; with(&COMMIT, 8, 6), 13);
    assert_eq!(rt; with(&COMMIT, 12, 1), 13);
}

#[test]
fn thirteen_entries(rt: HostRuntime) {
    assert_eq!(rt; with(&HISTORY, 44, 0), 13, "entry kind 0");
    assert_eq!(rt; with(&HISTORY, 44, 3), 13, "entry kind 3");
    assert_eq!(rt; with(&HISTORY, 45, 1), 13);
    assert_eq!(rt; with(&HISTORY, 46, 1), 13);
    assert_eq!(rt; with(&HISTORY, 47, 1), 13);
    assert_eq!(rt; with(&HISTORY, 32, 0), 13, "no members");
    assert_eq!(rt; with(&HISTORY, 32, 8), 13, "a member that is no cabinet");
    assert_eq!(rt; with(&HISTORY, 34, 1), 13, "a body past the mask");
    assert_eq!(rt; with(&HISTORY, 53, 6), 13, "no code of an order");
    assert_eq!(rt; with(&HISTORY, 24, 1), 13, "opened by epoch 1");
    assert_eq!(rt; with(&HISTORY, 40, 18), 13, "an epoch above the frame's");
    assert_eq!(rt; with(&ENTRY, 24, 16), 13, "an entry of another epoch");
}

#[test]
fn thirteen_order_of_entries(rt: HostRuntime) {
    let mut one = [0; 40];
    one[0..24].copy_from_slice(&HISTORY[0..24]);
    one[24..40].copy_from_slice(&HISTORY[40..56]);
    one[2] = 1;
    one[16] = 40;
    one[24] = 0;
    assert_eq!(rt; answer(&one), 13, "opened by an order of epoch 0");
    let mut three = [0; 72];
    three[0..56].copy_from_slice(&HISTORY);
    three[56..72].copy_from_slice(&HISTORY[40..56]);
    three[2] = 3;
    three[16] = 72;
    assert_eq!(rt; answer(&three), 0);
    three[56] = 16;
    assert_eq!(rt; answer(&three), 13, "an epoch that falls");
}
