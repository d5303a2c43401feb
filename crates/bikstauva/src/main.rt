// The main job: what the parts of the station do, told as a plant engineer would follow it.
#![tactic(auto)]

fn run(rt: &HostRuntime) -> anyhow::Result<()> {
    show_shift::show(rt)?;
    show_members::show(rt)?;
    show_journals::show(rt)?;
    show_frames::show(rt)?;
    Ok(())
}

fn main(rt: HostRuntime) -> anyhow::Result<()> {
    run(&rt)
}
