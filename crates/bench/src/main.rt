// A benchmark of the engines: nanoseconds for each sign, beside a naive search, on standard error. The
// numbers of sightings, which must agree, go to standard output.

#![tactic(auto)]

mod case;
mod dice;

use case::Case;
use dice::Dice;

fn run(rt: &HostRuntime) -> anyhow::Result<()> {
    let mut dice = Dice::new();
    let large = Case::new(rt, &mut dice, 100, 6)?;
    let (a, b) = (large.naive(rt)?, large.link(rt)?);
    println!(rt; "{} cues: naive {a}, link {b}", large.cues())?;
    let small = Case::new(rt, &mut dice, 16, 3)?;
    let (a, b, c) = (small.naive(rt)?, small.link(rt)?, small.bit(rt)?);
    println!(rt; "{} cues: naive {a}, link {b}, bit {c}", small.cues())?;
    Ok(())
}

fn main(rt: HostRuntime) -> anyhow::Result<()> {
    run(&rt)
}
