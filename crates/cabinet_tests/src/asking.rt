use crate::cases::*;
use cabinet::Cabinet;
use journal::{Entry, Journal};
use orders::{OrderKind, Sample, SetPoint};
use questions::{committed, roster};
use records::Record;
use refusal::Refusal;
use std::process::Abort;

fn body(answer: Result<Entry, Refusal>) -> Result<u64, u8> {
    answer
        .map(|entry| entry.body)
        .map_err(|refusal| refusal.number())
}

fn count(answer: Result<u8, Refusal>) -> Result<u8, u8> {
    answer.map_err(|refusal| refusal.number())
}

// The entries below the mark and the members by the last configuration there, the ones of the fourth entry not among them.
fn answers<K: OrderKind, J: Journal>(rt: &impl Abort, journal: &J, order: u64) {
    assert_eq!(rt;
        body(committed::<K, J>(4, 1, &GOOD, journal, 0)),
        Ok(0b0111)
    );
    assert_eq!(rt; body(committed::<K, J>(4, 1, &GOOD, journal, 1)), Ok(order));
    assert_eq!(rt;
        body(committed::<K, J>(4, 1, &GOOD, journal, 2)),
        Ok(0b1101)
    );
    assert_eq!(rt; body(committed::<K, J>(4, 1, &GOOD, journal, 3)), Err(50));
    let mut list = [9; 5];
    assert_eq!(rt;
        count(roster::<K, J>(4, 1, &GOOD, journal, &mut list[0..2])),
        Err(51)
    );
    assert_eq!(rt; list, [9, 9, 9, 9, 9]);
    assert_eq!(rt;
        count(roster::<K, J>(4, 1, &GOOD, journal, &mut list)),
        Ok(3)
    );
    assert_eq!(rt; list, [0, 2, 3, 9, 9]);
}

fn refuses<K: OrderKind, J: Journal>(
    rt: &impl Abort,
    cabinets: u8,
    number: u8,
    cabinet: &Cabinet,
    journal: &J,
    refusal: u8,
) {
    let mut list = [9; 4];
    assert_eq!(rt;
        body(committed::<K, J>(cabinets, number, cabinet, journal, 0)),
        Err(refusal)
    );
    assert_eq!(rt;
        count(roster::<K, J>(cabinets, number, cabinet, journal, &mut list)),
        Err(refusal)
    );
    assert_eq!(rt; list, [9, 9, 9, 9]);
}

fn both<K: OrderKind, J: Journal>(rt: &impl Abort, journal: &J, order: u64) {
    answers::<K, J>(rt, journal, order);
    for (cabinets, number, cabinet, refusal) in &REFUSED {
        refuses::<K, J>(rt, *cabinets, *number, cabinet, journal, *refusal);
    }
    // Cabinet 0's list is empty.
    refuses::<K, J>(rt, 4, 0, &GOOD, journal, 8);
}

#[test]
fn over_the_sheet(rt: HostRuntime) {
    let mut rows = [Entry::BLANK; 20];
    let mut lengths = [0; 4];
    let mut journal = sheet::lay(&mut rows, &mut lengths, 4, 5);
    assert!(rt; fill(&mut journal, EITHER).is_ok());
    both::<SetPoint, _>(&rt, &journal, EITHER);
    both::<Sample, _>(&rt, &journal, EITHER);
}

#[test]
fn over_the_reel(rt: HostRuntime) {
    let mut records = [Record::Keep(0); 24];
    let mut used = [0; 4];
    let mut journal = reel::lay(&mut records, &mut used, 4, 5);
    assert!(rt; fill(&mut journal, SAMPLE).is_ok());
    both::<Sample, _>(&rt, &journal, SAMPLE);
    refuses::<SetPoint, _>(&rt, 4, 1, &GOOD, &journal, 8);
}
