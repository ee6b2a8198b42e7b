// What follow answers.

ghost use Rattle.std.specs.Prelude.{◌≡◌};

// Why follow ends, by number.
#[derive(Clone, Copy, PartialEq, Eq, Debug)]
pub enum Ending {
    // all events were taken
    Done = 0,
    // fewer than 32 entries are free
    FewEntries = 1,
    // the text has 9,999,999 signs
    LongText = 2,
}

impl Ending {
    ghost use Rattle.watch.specs.Following.{ending_number};

    // The number of this ending. A method and no `From`: the name says what the number is.
    pub fn number(&self) -> u8
        ensures { result ≡ ending_number self.now }
    {
        *self as u8
    }
}

// How many events were taken, how many entries were written, and why it ended. The entries are the caller's: to
// follow wants no memory.
#[derive(Clone, Copy, PartialEq, Eq, Debug)]
pub struct Followed {
    pub taken: usize,
    pub written: usize,
    pub ending: Ending,
}
