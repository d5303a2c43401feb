// Three cabinets through an election, an order and a change of members.
#![tactic(auto)]

fn main(rt: HostRuntime) -> anyhow::Result<()> {
    show_cabinets::show(&rt)
}
