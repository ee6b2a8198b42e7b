// The kinds of as-run event and their letters.

ghost use Rattle.std.specs.Prelude.{◌≡◌, [], ◌∷◌, ◌++◌, Some, decimal, codes};
ghost use Rattle.columns.specs.Kinds.{letter_of, kind_in, HasLetter};

use std::error::Error;
use std::fmt;

#[derive(Clone, Copy, PartialEq, Eq, Debug)]
pub enum Kind {
    Spot,
    Jingle,
    Music,
    News,
    Voice,
}

// A byte that is the letter of no kind.
#[derive(Clone, Copy, PartialEq, Eq, Debug)]
pub struct UnknownLetter(pub u8);

impl Kind {
    // The letter of this kind in a line, as the byte that a field holds. A method and no `From`: the name says
    // what the byte is.
    pub fn letter(&self) -> u8
        ensures { result ≡ letter_of self.now }
    {
        match self {
            Kind::Spot => b'S',
            Kind::Jingle => b'J',
            Kind::Music => b'M',
            Kind::News => b'N',
            Kind::Voice => b'V',
        }
    }
}

// The kind with this letter.
impl TryFrom<u8> for Kind {
    type Error = UnknownLetter;

    ghost try_from_gives = { HasLetter };

    fn try_from(letter: u8) -> Result<Kind, UnknownLetter> {
        match letter {
            b'S' => Ok(Kind::Spot),
            b'J' => Ok(Kind::Jingle),
            b'M' => Ok(Kind::Music),
            b'N' => Ok(Kind::News),
            b'V' => Ok(Kind::Voice),
            _ => Err(UnknownLetter(letter)),
        }
    }
}

// Its letter.
impl fmt::Display for Kind {
    ghost output = { λ kind. Some (letter_of kind ∷ []) };

    fn fmt<W: fmt::Write>(&self, f: &mut fmt::Formatter<W>) -> fmt::Result {
        f.write_char(char::from(self.letter()))
    }
}

impl fmt::Display for UnknownLetter {
    ghost output = { λ e. Some (codes "no kind of event has byte " ++ decimal e.0) };

    fn fmt<W: fmt::Write>(&self, f: &mut fmt::Formatter<W>) -> fmt::Result {
        write!(f, "no kind of event has byte {}", self.0)
    }
}

impl Error for UnknownLetter {}

// The kind in a field of one letter.
pub(crate) fn read_kind(field: &[u8]) -> Option<Kind>
    ensures { result ≡ kind_in field.now }
{
    let [letter] = field else {
        return None;
    };
    Kind::try_from(*letter).ok()
}
