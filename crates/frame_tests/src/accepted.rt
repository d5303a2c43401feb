use crate::frames_of::*;

#[test]
fn a_frame_of_each_kind(rt: HostRuntime) {
    assert_eq!(rt; answer(&CANDIDATE), 0);
    assert_eq!(rt; answer(&PROMISE), 0);
    assert_eq!(rt; answer(&HISTORY), 0);
    assert_eq!(rt; answer(&ENTRY), 0);
    assert_eq!(rt; answer(&ACKNOWLEDGE), 0);
    assert_eq!(rt; answer(&COMMIT), 0);
}

#[test]
fn a_reply_of_the_owner_itself(rt: HostRuntime) {
    assert_eq!(rt; with(&PROMISE, 1, 1), 0);
    assert_eq!(rt; with(&ACKNOWLEDGE, 1, 1), 0);
}
