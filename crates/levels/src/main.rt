//! Shows the piles of the levels at work: each call, its answer, and what is held.
#![tactic(auto)]

mod printed;
mod second;
mod third;

fn show(rt: &HostRuntime) -> anyhow::Result<()> {
    second::show(rt)?;
    third::show(rt)
}

fn main(rt: HostRuntime) -> anyhow::Result<()> {
    show(&rt)
}
