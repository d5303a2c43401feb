// A planned change of members: which sets of cabinets could carry it, under majority and under groups.
#![tactic(auto)]

use planning::{Change, shared};
use quorum::{Group, Groups, Majority, QuorumRule, Share, contains};
use std::alloc::{AllocError, Global};

// Cabinets 0 to 2 give way to 1, 3 and 4.
const CHANGE: Change = Change { old: 7, new: 26 };

// A cabinet without weight.
const NONE: Share = Share {
    weight: 0,
    group: Group::Three,
};

// Cabinets 0 and 1 stand at the first effect, 2 and 3 at the second, 4 at the mud filter; the rest have no weight.
const PLANT: Groups = Groups {
    shares: [
        Share {
            weight: 2,
            group: Group::Zero,
        },
        Share {
            weight: 1,
            group: Group::Zero,
        },
        Share {
            weight: 1,
            group: Group::One,
        },
        Share {
            weight: 1,
            group: Group::One,
        },
        Share {
            weight: 3,
            group: Group::Two,
        },
        NONE,
        NONE,
        NONE,
        NONE,
        NONE,
        NONE,
        NONE,
        NONE,
        NONE,
        NONE,
        NONE,
    ],
};

// The sets that are asked about one by one.
const ASKED: [u16; 3] = [10, 3, 11];

fn cabinets(heap: Global, set: u16) -> Result<String, AllocError> {
    let mut list = String::new(heap);
    for i in 0..16u8 {
        if contains(set, i) {
            let name = format!(in heap; " {i}")?;
            list.push_str(name.as_str())?;
        }
    }
    Ok(list)
}

fn show_asked<R: QuorumRule>(rt: &HostRuntime, rule: &R, set: u16) -> anyhow::Result<()> {
    let list = cabinets(rt.alloc(), set)?;
    let verdict = if CHANGE.is_carried(rule, set) {
        "commits"
    } else {
        "waits"
    };
    println!(rt; "  held by{list} it {verdict}")?;
    Ok(())
}

fn show_least<R: QuorumRule>(rt: &HostRuntime, rule: &R) -> anyhow::Result<()> {
    println!(rt; "  the least sets that could carry it:")?;
    for set in 0..32u16 {
        if CHANGE.is_least(rule, set) {
            let list = cabinets(rt.alloc(), set)?;
            println!(rt; "   {list}")?;
        }
    }
    Ok(())
}

// Whatever two sets carry a change, they share a member, so they cannot commit against each other.
fn show_shared<R: QuorumRule>(rt: &HostRuntime, rule: &R, a: u16, b: u16) -> anyhow::Result<()> {
    let first = cabinets(rt.alloc(), a)?;
    let second = cabinets(rt.alloc(), b)?;
    match shared(rule, CHANGE.old, a, b) {
        Some(i) => println!(rt; "  the sets{first} and{second} share the old member {i}")?,
        None => println!(rt;
            "  the sets{first} and{second} share no old member, so one is no quorum"
        )?,
    }
    Ok(())
}

fn show_rule<R: QuorumRule>(rt: &HostRuntime, rule: &R) -> anyhow::Result<()> {
    for set in ASKED {
        show_asked(rt, rule, set)?;
    }
    show_least(rt, rule)?;
    show_shared(rt, rule, 15, 29)?;
    show_shared(rt, rule, 9, 6)
}

pub fn show(rt: &HostRuntime) -> anyhow::Result<()> {
    let old = cabinets(rt.alloc(), CHANGE.old)?;
    let new = cabinets(rt.alloc(), CHANGE.new)?;
    println!(rt; "A change of members from{old} to{new}")?;
    println!(rt; " under majority")?;
    show_rule(rt, &Majority)?;
    println!(rt; " under groups 0 1, 2 3 and 4 with weights 2 1, 1 1 and 3")?;
    show_rule(rt, &PLANT)
}
