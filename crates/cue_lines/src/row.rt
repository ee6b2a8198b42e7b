// A cue line, or the parting line behind the cue lines.

use columns::AsRun;

#[derive(Clone, Copy, PartialEq, Eq, Debug)]
pub(crate) enum Row {
    // an event of the last cue
    More(AsRun),
    // the first event of the next cue
    Next(AsRun),
    // the parting line
    Parting,
}
