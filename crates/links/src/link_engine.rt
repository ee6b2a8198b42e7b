// The link engine: a table of entries, the entry of the live beginning, and the count of its trials.

ghost use Rattle.std.specs.Prelude.{◌≡◌, vec_len};
ghost use Rattle.book.specs.Cues.{AllWithin};
ghost use Rattle.links.specs.Tables.{ReadyIn};

use crate::table::Table;

mod calls;

// An engine that goes by links. It has all its memory from the start.
#[derive(Drop)]
pub struct LinkEngine {
    table: Table,
    // The entry of the live beginning (textbook: the state).
    at: u16,
    // The trials since the last load, restart or resume; the count stays at its greatest number.
    trials: u32,
    ghost ready: { ∥ ReadyIn table at ∥₁ },
    ghost within: { AllWithin (vec_len table.signs) table.cues.items },
}

impl LinkEngine {
    // The trials since the last load, restart or resume, at most 4,294,967,295.
    pub fn trials(&self) -> u32
        ensures { result ≡ self.now.trials }
    {
        self.trials
    }
}
