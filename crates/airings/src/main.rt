// The program airings: reads a cue sheet and a log from standard input, and writes every sighting of a
// cue in the log and the totals, or the refusal with its line behind the sightings so far.

#![tactic(auto)]

fn main(rt: HostRuntime) -> anyhow::Result<()> {
    filter_program::run(
        rt.alloc(),
        rt.stdin(),
        &mut rt.stdout(),
        // A closure: of another crate's function by name, the proof does not close.
        |heap, input| airing_report::airings_report(heap, input),
    )
}
