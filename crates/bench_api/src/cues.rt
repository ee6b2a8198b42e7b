// The cues of a book, one behind the other.

use crate::fault::Fault;
use crate::number::Number;
use book::{Book, Draft};
use std::alloc::Global;

// The events of all cues, and the length of each cue: two slices, as the interface to C hands them in.
#[derive(Clone, Copy, PartialEq, Eq, Debug)]
pub struct Cues<'a> {
    pub events: &'a [Number],
    pub lens: &'a [u16],
}

impl Cues<'_> {
    // The book of these cues.
    pub(crate) fn book(&self, heap: Global) -> Result<Book<Number>, Fault> {
        let mut draft = Draft::begin(heap, Vec::from_slice(heap, self.events)?)?;
        // The place is a sum beside the loop, since each add may end it.
        let mut place = 0usize;
        for len in self.lens {
            let len = usize::from(*len);
            draft.add(place, len)?;
            place = place.wrapping_add(len);
        }
        Ok(draft.seal())
    }
}
