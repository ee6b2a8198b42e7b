// What the watch asks of a kind of event, the kind `folded byte`, and the refusals.

#![tactic(auto)]

ghost use Rattle.std.specs.Prelude.{Bool, true, ◌≡◌};
ghost use Rattle.events.specs.Refused.{number_of};
ghost use Rattle.events.specs.Sameness.{same_bytes};
ghost use Rattle.std.proofs.Common.{rules};

use std::error::Error;
use std::fmt;

// A kind of event, by its sameness. Every kind owes the three laws of an equivalence relation, and
// all that is proved above a kind rests on these laws alone.
pub trait Event {
    ghost same: { Self → Self → Bool };

    fn same(&self, other: &Self) -> bool
        ensures { result ≡ same self.now other.now };

    ghost reflexive: { (x : Self) → same x x ≡ true };

    ghost symmetric: { (x y : Self) → same x y ≡ same y x };

    ghost transitive: { (x y z : Self) → same x y ≡ true → same y z ≡ true → same x z ≡ true };
}

// A byte of text as an event: the letters A to Z are the same as a to z.
impl Event for u8 {
    ghost same = { same_bytes };

    ghost reflexive = { Prim.search rules };

    ghost symmetric = { Prim.search rules };

    ghost transitive = { Prim.search rules };

    fn same(&self, other: &u8) -> bool {
        self.eq_ignore_ascii_case(other)
    }
}

// Why a call is refused. The checks of one call go by rising number.
#[derive(Clone, Copy, PartialEq, Eq, Debug)]
pub enum Refusal {
    // add: the cue would have no event
    EmptyCue,
    // add: the cue would have more than 32 events
    LongCue,
    // add: the cue would end behind the material
    BehindMaterial,
    // add: the book has 128 cues, or would have more than 1,024 events in all
    BookFull,
    // add: the book has a same cue
    SameCue,
    // load: the cues have more signs in all than the engine holds
    OverCapacity,
    // load: some cue has more than 32 cues as endings
    ManyEndings,
    // resume: there is no such cue
    NoSuchCue,
    // resume: the length is longer than the cue
    BehindCue,
    // take: the text has 9,999,999 signs
    FullText,
    // offer: the end is below the last end
    EndBelowLast,
    // offer: the length is 0, or over the end and 1
    BadLength,
    // a line is not readable; column 0 for a wrong length, as the format has it, else the first column of the
    // leftmost bad field
    Unreadable { column: u8 },
    // a cue line's number is neither the last cue's nor one more
    Misnumbered,
    // a program's input is over 32,768 bytes
    LongInput,
}

impl Refusal {
    // The number of this refusal in the table that operators read. A method and no `From`: `u8::from(refusal)`
    // would not say which number it is.
    pub fn number(&self) -> u8
        ensures { result ≡ number_of self.now }
    {
        match self {
            Refusal::EmptyCue => 1,
            Refusal::LongCue => 2,
            Refusal::BehindMaterial => 3,
            Refusal::BookFull => 4,
            Refusal::SameCue => 5,
            Refusal::OverCapacity => 6,
            Refusal::ManyEndings => 7,
            Refusal::NoSuchCue => 8,
            Refusal::BehindCue => 9,
            Refusal::FullText => 10,
            Refusal::EndBelowLast => 11,
            Refusal::BadLength => 12,
            Refusal::Unreadable { column: _ } => 13,
            Refusal::Misnumbered => 14,
            Refusal::LongInput => 15,
        }
    }
}

// What is printed of a refusal; its number is what operators look up.
impl fmt::Display for Refusal {
    ghost use Rattle.std.specs.Prelude.{Some};
    ghost use Rattle.events.specs.Words.{words_of};

    ghost output = { λ r. Some (words_of r) };

    fn fmt<W: fmt::Write>(&self, f: &mut fmt::Formatter<W>) -> fmt::Result {
        match self {
            Refusal::EmptyCue => f.write_str("the cue has no event"),
            Refusal::LongCue => f.write_str("the cue has more than 32 events"),
            Refusal::BehindMaterial => f.write_str("the cue ends behind the material"),
            Refusal::BookFull => f.write_str("the book has no room for the cue"),
            Refusal::SameCue => f.write_str("the book has a same cue"),
            Refusal::OverCapacity => f.write_str("the cues have more signs than the engine holds"),
            Refusal::ManyEndings => f.write_str("more than 32 cues end a cue"),
            Refusal::NoSuchCue => f.write_str("there is no such cue"),
            Refusal::BehindCue => f.write_str("the length is longer than the cue"),
            Refusal::FullText => f.write_str("the text is full"),
            Refusal::EndBelowLast => f.write_str("the end is below the last end"),
            Refusal::BadLength => f.write_str("the length is 0, or over the end and 1"),
            Refusal::Unreadable { column } => write!(
                f,
                "the line is not readable at column {column}"
            ),
            Refusal::Misnumbered => f.write_str(
                "the cue number is neither the last one nor one more",
            ),
            Refusal::LongInput => f.write_str("the input has more than 32,768 bytes"),
        }
    }
}

impl Error for Refusal {}
