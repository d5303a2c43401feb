// A shift's orders of both kinds: coded, read back, and refused where they are not proper.
#![tactic(auto)]

use orders::{OrderKind, Sample, SetPoint, recode, reread};
use std::fmt;

const SET_POINTS: [SetPoint; 5] = [
    SetPoint {
        effect: 2,
        quantity: 4,
        value: -5,
    },
    SetPoint {
        effect: 1,
        quantity: 1,
        value: i32::MIN,
    },
    SetPoint {
        effect: 5,
        quantity: 4,
        value: i32::MAX,
    },
    SetPoint {
        effect: 6,
        quantity: 1,
        value: 80,
    },
    SetPoint {
        effect: 3,
        quantity: 0,
        value: 80,
    },
];

const SAMPLES: [Sample; 4] = [
    Sample {
        number: 1901,
        juice: 3,
        reading: 1425,
    },
    Sample {
        number: u32::MAX,
        juice: 6,
        reading: 10_000,
    },
    Sample {
        number: 1902,
        juice: 7,
        reading: 1425,
    },
    Sample {
        number: 1903,
        juice: 3,
        reading: 10_001,
    },
];

const NUMBERS: [u64; 3] = [2_220_498_092_027, 0, u64::MAX];

fn show_order<K: OrderKind + fmt::Display>(rt: &HostRuntime, order: K) -> anyhow::Result<()> {
    match order.code() {
        Ok(code) => println!(rt; "  {order}: code {code}")?,
        Err(refusal) => println!(rt; "  {order}: refused {}, {refusal}", refusal.number())?,
    }
    if let Ok(back) = reread(order) {
        println!(rt; "    reads back as {back}")?;
    }
    Ok(())
}

fn show_number<K: OrderKind>(rt: &HostRuntime, number: u64) -> anyhow::Result<()> {
    match recode::<K>(number) {
        Ok(again) => println!(rt; "  {number}: an order, coded again {again}")?,
        Err(refusal) => println!(rt; "  {number}: refused {}, {refusal}", refusal.number())?,
    }
    Ok(())
}

pub fn show(rt: &HostRuntime) -> anyhow::Result<()> {
    println!(rt; "The shift's set points")?;
    for order in SET_POINTS {
        show_order(rt, order)?;
    }
    println!(rt; "The shift's laboratory samples")?;
    for order in SAMPLES {
        show_order(rt, order)?;
    }
    println!(rt; "Numbers off the line, read as set points")?;
    for number in NUMBERS {
        show_number::<SetPoint>(rt, number)?;
    }
    println!(rt; "The same numbers, read as samples")?;
    for number in NUMBERS {
        show_number::<Sample>(rt, number)?;
    }
    Ok(())
}
