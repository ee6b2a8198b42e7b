// The commands of a script.

// A call on a watch, or a question.
#[derive(Clone, Copy, PartialEq, Eq, Debug)]
pub(crate) enum Call {
    Load,
    Take,
    Follow,
    Resume,
    Restart,
    Questions,
}

// A command, by the letter that its line begins with.
#[derive(Clone, Copy, PartialEq, Eq, Debug)]
pub(crate) enum Command {
    // a new watch and a new lane
    New,
    // an offer to the lane
    Offer,
    Watch(Call),
}

impl Command {
    // The command of a line's first word, as an Option, since there is no error to tell: none for an empty word, or one that begins with byte 0.
    pub(crate) fn of(name: &[u8]) -> Option<Command> {
        let call = match *name.first()? {
            0 => return None,
            b'N' => return Some(Command::New),
            b'O' => return Some(Command::Offer),
            b'L' => Call::Load,
            b'T' => Call::Take,
            b'F' => Call::Follow,
            b'R' => Call::Resume,
            b'Q' => Call::Questions,
            _ => Call::Restart,
        };
        Some(Command::Watch(call))
    }
}
