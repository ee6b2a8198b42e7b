// The program cuesheet: reads a cue sheet from standard input, builds and seals its book, and writes
// what was added, or the refusal with its line.

#![tactic(auto)]

fn main(rt: HostRuntime) -> anyhow::Result<()> {
    filter_program::run(
        rt.alloc(),
        rt.stdin(),
        &mut rt.stdout(),
        // A closure: of another crate's function by name, the proof does not close.
        |heap, input| sheet::sheet_report(heap, input),
    )
}
