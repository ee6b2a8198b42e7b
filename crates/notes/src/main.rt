// The program notes: reads words and a text from standard input, and writes every sighting of a word in
// the text and the totals, or the refusal with its line.

#![tactic(auto)]

fn main(rt: HostRuntime) -> anyhow::Result<()> {
    filter_program::run(
        rt.alloc(),
        rt.stdin(),
        &mut rt.stdout(),
        // A closure: of another crate's function by name, the proof does not close.
        |heap, input| note_report::notes_report(heap, input),
    )
}
