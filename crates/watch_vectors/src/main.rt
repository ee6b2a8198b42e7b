// Runs the scripts of an independent program on watches above both engines: a command to a line on
// standard input, the answers on standard output.

#![tactic(auto)]

mod command;
mod desk;
mod script;
mod words;

use script::answers;
use std::io::{Read, Write};

fn run(rt: &HostRuntime) -> anyhow::Result<()> {
    let mut input = Vec::new(rt.alloc());
    rt.stdin().read_to_end(&mut input)?;
    let out = answers(rt.alloc(), input.as_slice())?;
    rt.stdout().write_all(out.as_bytes())?;
    Ok(())
}

fn main(rt: HostRuntime) -> anyhow::Result<()> {
    run(&rt)
}
