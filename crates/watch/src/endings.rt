// How many cues of a book end one of them.

ghost use Rattle.std.specs.Prelude.{◌≡◌, [], length, slice_index_or};
ghost use Rattle.book.specs.Held.{book_held, cue_signs};
ghost use Rattle.matching.specs.Calls.{few_endings};
ghost use Rattle.matching.specs.Match.{ends, sightings};

use book::Book;
use events::Event;

const ENDINGS: usize = 32;

// Whether the signs end the text.
fn is_ending(signs: &[u16], text: &[u16]) -> bool
    ensures { result ≡ ends signs.now text.now }
{
    text.ends_with(signs)
}

// How many cues of the book end this one, itself counted.
fn endings<E: Event>(book: &Book<E>, number: usize) -> usize
    ensures { result ≡ length (sightings (cue_signs (book_held book.now)) (slice_index_or (cue_signs (book_held book.now)) number [])) }
{
    let text = book.cue_signs(number);
    (0..book.cues().len())
        .filter(|c| is_ending(book.cue_signs(*c), text))
        .count()
}

// Whether no cue of the book has more than 32 cues as endings.
pub(crate) fn has_few_endings<E: Event>(book: &Book<E>) -> bool
    ensures { result ≡ few_endings (cue_signs (book_held book.now)) (cue_signs (book_held book.now)) }
{
    (0..book.cues().len()).all(|c| endings(book, c) <= ENDINGS)
}
