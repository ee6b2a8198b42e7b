// Adding the cues of an input to a draft.

ghost use Rattle.std.specs.Prelude.{◌≡◌, ◌^◌, ◌<◌, sum};
ghost use Rattle.std.specs.Result.{result_err};
ghost use Rattle.book.specs.Held.{draft_held};
ghost use Rattle.script.specs.Steps.{BooksAll, lines_of};

use book::Draft;
use events::{Event, Refusal};
use script::Layout;

// The lines of so many cues with so many events in all.
pub(crate) fn lines_of(layout: Layout, cues: usize, events: usize) -> usize
    ensures { result ≡ lines_of layout cues events }
{
    match layout {
        Layout::PerEvent => events,
        Layout::PerCue => cues,
    }
}

// Adds cues of these lengths, one behind the other. It ends at the first that is refused, and answers
// the refusal with the number of that cue's last line.
pub(crate) fn book_cues<E: Event>(
    draft: &mut Draft<E>,
    layout: Layout,
    lens: &[usize],
) -> Result<(), (Refusal, usize)>
    requires { sum lens.now < 2 ^ 63 }
    ensures { BooksAll E.Event.same layout lens.now (draft_held draft.old) (draft_held draft.new) (result_err result) }
{
    // The place is a sum beside the count: the line of a refused cue may need either, and `scan` would carry
    // both in one state.
    let mut place = 0;
    for (i, len) in lens.iter().enumerate() {
        let end = place + *len;
        if let Err(refusal) = draft.add(place, *len) {
            return Err((refusal, lines_of(layout, i + 1, end)));
        }
        place = end;
    }
    Ok(())
}
